//! Where ranks sleep while no letter comes.

use crossbeam_utils::sync::EventCount;
use std::alloc::{AllocError as NoMemory, Global};
use std::sync::Wait;
use std::sync::atomic::{AtomicBool, AtomicI64, Ordering};

/// Where the rank of one inbox sleeps.
///
/// `letters` counts the letters that were posted and have not been taken. A post is counted after
/// its letter is in the inbox, and may be so after the take of that letter.
#[derive(Drop)]
struct Sleeper {
    letters: AtomicI64,
    events: EventCount,
}

impl Sleeper {
    fn new() -> Self {
        Sleeper {
            letters: AtomicI64::new(0),
            events: EventCount::new(),
        }
    }

    fn is_idle(&self) -> bool {
        self.letters.load(Ordering::SeqCst) <= 0
    }
}

/// Where the ranks of one making sleep until a letter comes or they are roused. It promises
/// nothing.
#[derive(Drop)]
pub struct Sleepers {
    ranks: Vec<Sleeper>,
    roused: AtomicBool,
}

impl Sleepers {
    /// For so many ranks, in whose inboxes no letter is.
    pub fn new(alloc: Global, ranks: u16) -> Result<Self, NoMemory> {
        let mut sleepers = Vec::new(alloc);
        for _rank in 0..ranks {
            sleepers.push(Sleeper::new())?;
        }
        Ok(Sleepers {
            ranks: sleepers,
            roused: AtomicBool::new(false),
        })
    }

    /// Call it after a letter was put into the inbox of this rank.
    pub fn posted(&self, rank: u16) {
        if let Some(sleeper) = self.ranks.get(usize::from(rank)) {
            sleeper.letters.fetch_add(1, Ordering::SeqCst);
            sleeper.events.notify_one();
        }
    }

    /// Call it after this rank took a letter.
    pub fn taken(&self, rank: u16) {
        if let Some(sleeper) = self.ranks.get(usize::from(rank)) {
            sleeper.letters.fetch_sub(1, Ordering::SeqCst);
        }
    }

    /// Sleeps until a letter is in the inbox of this rank, or all were roused.
    pub fn rest<R: Wait>(&self, rt: &R, rank: u16) {
        if let Some(sleeper) = self.ranks.get(usize::from(rank)) {
            // Announced before the test, so that no letter comes unheard between the two.
            let key = sleeper.events.prepare_wait();
            if sleeper.is_idle() && !self.roused.load(Ordering::SeqCst) {
                key.wait(rt);
            }
        }
    }

    /// Wakes all ranks, and keeps them from sleeping again.
    pub fn rouse(&self) {
        self.roused.store(true, Ordering::SeqCst);
        for sleeper in &self.ranks {
            sleeper.events.notify_all();
        }
    }
}
