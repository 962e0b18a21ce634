//! An alarm that is always heard.

use samr_drive::Alarm;

/// An alarm that is heard at every call.
#[derive(Drop)]
pub struct Loud {
    raised: bool,
    count: u64,
}

impl Loud {
    pub fn new() -> Self {
        Loud {
            raised: false,
            count: 0,
        }
    }
}

impl Alarm for Loud {
    ghost raised = { λ loud. loud.raised };

    ghost count = { λ loud. loud.count };

    fn raise(&mut self) {
        self.raised = true;
    }

    fn heard(&mut self) -> bool {
        if self.raised || self.count == u64::MAX {
            return false;
        }
        self.count += 1;
        true
    }
}
