//! How one driver tells the others to end.

ghost use Rattle.std.specs.Prelude.{◌≡◌, ◌<◌, ◌≤◌, ℕ, Bool, true, false, IsTrue};

use std::sync::atomic::{AtomicBool, Ordering};

/// What a driver raises where its rank cannot go on, and hears where another has.
///
/// Whoever writes an `Alarm` says with the ghost members whether this end of it was `raised`, and
/// how many alarms it heard, a `count` that never falls.
pub trait Alarm {
    ghost raised: { Self → Bool };

    ghost count: { Self → ℕ };

    /// Raises the alarm.
    fn raise(&mut self)
        ensures raised { raised self.new ≡ true }
        ensures count { count self.new ≡ count self.old };

    /// Whether an alarm of another end is heard, which is counted. An end that raised the alarm
    /// hears none.
    fn heard(&mut self) -> bool
        ensures rose { IsTrue result → (count self.old < count self.new) }
        ensures never_falls { count self.old ≤ count self.new }
        ensures own { raised self.old ≡ true → result ≡ false }
        ensures raised { raised self.new ≡ raised self.old };
}

/// A flag that drivers share, by which one of them ends all.
#[derive(Drop)]
pub struct Halt {
    flag: AtomicBool,
}

impl Halt {
    /// A flag that is not raised.
    pub fn new() -> Self {
        Halt {
            flag: AtomicBool::new(false),
        }
    }

    /// One driver's end of the flag.
    pub fn bell(&self) -> Bell<'_> {
        Bell {
            flag: &self.flag,
            raised: false,
            count: 0,
        }
    }
}

/// One driver's end of a shared flag.
#[derive(Drop)]
pub struct Bell<'a> {
    flag: &'a AtomicBool,
    raised: bool,
    count: u64,
}

impl<'a> Alarm for Bell<'a> {
    ghost raised = { λ bell. bell.raised };

    ghost count = { λ bell. bell.count };

    fn raise(&mut self) {
        self.raised = true;
        self.flag.store(true, Ordering::SeqCst);
    }

    fn heard(&mut self) -> bool {
        if self.raised || self.count == u64::MAX || !self.flag.load(Ordering::SeqCst) {
            return false;
        }
        self.count += 1;
        true
    }
}
