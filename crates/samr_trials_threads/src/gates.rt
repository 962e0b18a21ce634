//! A gate that holds each rank until all have come.

use samr_drive::Gate;
use std::sync::atomic::{AtomicBool, AtomicU32, Ordering};
use std::thread;

const TURNS: u32 = 1_000_000;

/// A gate that holds each rank until so many have come, and gives up after many turns.
#[derive(Drop)]
pub struct Meeting {
    awaited: u32,
    entered: AtomicU32,
    missed: AtomicBool,
}

impl Meeting {
    pub fn new(awaited: u32) -> Self {
        Meeting {
            awaited,
            entered: AtomicU32::new(0),
            missed: AtomicBool::new(false),
        }
    }

    /// Whether a rank gave up.
    pub fn missed(&self) -> bool {
        self.missed.load(Ordering::SeqCst)
    }

    fn is_full(&self) -> bool {
        self.entered.load(Ordering::SeqCst) >= self.awaited
    }
}

impl Gate for Meeting {
    fn enter(&self, _rank: u16) {
        self.entered.fetch_add(1, Ordering::SeqCst);
        for _turn in 0..TURNS {
            if self.is_full() {
                return;
            }
            thread::yield_now();
        }
        self.missed.store(true, Ordering::SeqCst);
    }
}
