//! The run of thirty stages.
ghost use Rattle.std.specs.Prelude.{◌≡◌, ◌<◌, IfOk, false};
ghost use Rattle.samr_trials_phases.specs.Thirty.{first_place, thirty_is_of, thirty_is_run};

use crate::fives::Fives;
use crate::fours::Fours;
use crate::ones::Ones;
use crate::place::At;
use crate::threes::Threes;
use crate::told::Told;
use crate::twos::Twos;
use samr_phase::{Journey, Running, Then};
use samr_stage::Program;
use std::alloc::{AllocError as NoMemory, Global};

/// Thirty stages in five groups.
pub type ThirtyStages = Then<Ones, At, Then<Twos, At, Then<Threes, At, Then<Fours, At, Fives>>>>;

/// The run of them, of three ranks.
pub struct Thirty {}

impl Journey<Told, u64, At, At, ThirtyStages> for Thirty {
    ghost first = { first_place };

    fn ranks(_run: &u64) -> u16 {
        3
    }

    ghost course_is = { thirty_is_of };

    ghost is_run = { thirty_is_run };
}

/// One rank of it.
pub type ThirtyProgram = Running<Told, u64, At, At, ThirtyStages, Thirty>;

/// The program of a rank in the run of a number.
pub fn program(alloc: Global, number: u64, rank: u16) -> Result<ThirtyProgram, NoMemory>
    ensures run { IfOk result (λ x. ⟦<ThirtyProgram as Program>⟧.run x ≡ number) }
    ensures rank { IfOk result (λ x. ⟦<ThirtyProgram as Program>⟧.rank_of x ≡ rank) }
    ensures place { IfOk result (λ x. ⟦<ThirtyProgram as Program>⟧.place x ≡ 0) }
    ensures stands { IfOk result (λ x. ⟦<ThirtyProgram as Program>⟧.stands x false) }
{
    let first = At {
        rank,
        number,
        phase: 0,
    };
    let program = Running::new(alloc, number, rank, first)?;
    Ok(program)
}
