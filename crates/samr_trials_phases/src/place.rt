//! What a rank has before a stage.
ghost use Rattle.std.specs.Prelude.{◌≡◌, ℕ, IfOk};
ghost use Rattle.samr_trials_phases.specs.Places.{Place, IsAt, next};

use samr_phase::Part;
use std::alloc::AllocError as NoMemory;
use std::marker::Model;

/// Stands in proofs for the number of a run, and a stage of it.
#[derive(Drop)]
pub struct AtPlace {}

impl Model for AtPlace {
    ghost use Rattle.samr_trials_phases.specs.Places.{Place};

    ghost Value = { Place };

    ghost view = { λ _. record { number = 0; phase = 0 } };
}

/// A rank before a stage.
#[derive(Drop)]
pub struct At {
    pub rank: u16,
    pub number: u64,
    pub phase: u8,
}

impl Part for At {
    type Whole = AtPlace;

    ghost ranks = { λ _. 3 };

    ghost holds = { λ x w rank. IsAt x.rank x.number x.phase w rank };
}

impl At {
    /// The same rank before the next stage.
    pub(crate) fn next(self) -> Result<At, NoMemory>
        ensures { IfOk result (λ on. (w : Place) (rank : ℕ) → IsAt self.rank self.number self.phase w rank
            → IsAt on.rank on.number on.phase (next w) rank) }
    {
        if self.phase == 255 {
            return Err(NoMemory);
        }
        Ok(At {
            rank: self.rank,
            number: self.number,
            phase: self.phase + 1,
        })
    }
}
