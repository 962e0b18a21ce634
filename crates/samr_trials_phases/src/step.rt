//! The stage as a phase, and six of them.
ghost use Rattle.std.specs.Prelude.{◌≡◌, ℕ, refl};
ghost use Rattle.samr_trials_phases.specs.Places.{label_of, next};
ghost use Rattle.samr_trials_phases.specs.Rows.{row, visits as wanted};

use crate::place::At;
use crate::stage::Tell;
use crate::told::Told;
use samr_phase::{Begun, One, Part, Step, Then};
use samr_stage::Label;
use std::alloc::{AllocError as NoMemory, Global};

/// A rank at the stage keeps what it had before it.
#[derive(Drop)]
pub struct Along {
    at: At,
}

impl Step<Told, u64, At, At, Tell> for Along {
    ghost label = { label_of };

    ghost visits = { λ w. wanted };

    ghost says = { λ w. row w.number };

    ghost wrap = { λ n. n };

    ghost gives = { λ w rank out. out ≡ w.number };

    ghost after = { next };

    ghost keeps = { λ k w rank. ⟦<At as Part>⟧.holds k.at w rank };

    ghost sure = { ⊥ };

    fn label(input: &At) -> Label {
        Label {
            step: 0,
            pass: 0,
            phase: input.phase,
            round: 0,
        }
    }

    fn visits(input: &At) -> bool {
        input.rank < 2
    }

    fn skip(_alloc: Global, input: At) -> Result<At, NoMemory> {
        let on = input.next()?;
        Ok(on)
    }

    fn begin(_alloc: Global, input: At) -> Result<Begun<Tell, Along>, NoMemory> {
        Ok(Begun {
            stage: Tell {
                rank: input.rank,
                number: input.number,
            },
            kept: Along { at: input },
        })
    }

    fn end(self, _alloc: Global, _given: u64) -> Result<At, NoMemory> {
        let on = self.at.next()?;
        Ok(on)
    }

    ghost bodies = { λ run name body there. there };

    ghost same_ranks = { λ w. refl };
}

/// One stage.
pub type Telling = One<Tell, Along>;

type Three = Then<Telling, At, Then<Telling, At, Telling>>;

/// Six stages.
pub type Six = Then<Three, At, Three>;
