//! The letters of the run.
ghost use Rattle.std.specs.Prelude.{◌≡◌, ◌↔◌, ℕ, Some, IsTrue, refl};
ghost use Rattle.std.proofs.Props.{props};
ghost use Rattle.samr_trials_phases.specs.Thirty.{letter_of as wanted, course_of};

use crate::stage::Tell;
use samr_phase::Bodied;
use samr_stage::{Carried, Mail, Name};
use std::alloc::{AllocError as NoMemory, Global};

/// A letter by which the first rank tells the second the number of the run.
#[derive(Drop)]
pub struct Told {
    number: u64,
    name: Name,
    body: u64,
    ghost true_body: { wanted number name ≡ Some body } by { Prim.hlevel props },
}

impl Mail for Told {
    type Run = u64;

    ghost Body = { ℕ };

    ghost run = { λ letter. letter.number };

    ghost name = { λ letter. letter.name };

    ghost body = { λ letter. letter.body };

    ghost course = { course_of };

    fn name(&self) -> Name {
        self.name
    }

    fn same_run(&self, other: &Self) -> bool {
        self.number == other.number
    }

    fn copied(&self, _alloc: Global) -> Result<Self, NoMemory> {
        Ok(Told {
            number: self.number,
            name: self.name,
            body: self.body,
        })
    }

    ghost truth = { λ letter. letter.true_body };
}

impl Bodied<u64> for Told {
    ghost letter_of = { wanted };

    fn is_of(&self, run: &u64) -> bool {
        self.number == *run
    }

    ghost same_letters = { λ _ _. refl };
}

impl Carried<Told> for Tell {
    ghost has_body = { λ number name body. wanted number name ≡ Some body };

    fn to_letter(_alloc: Global, run: &u64, name: Name, body: u64) -> Result<Told, NoMemory> {
        Ok(Told {
            number: *run,
            name,
            body,
        })
    }

    fn into_body(letter: Told) -> u64 {
        letter.body
    }

    fn weigh(&self, _letter: &Told) -> u64 {
        1
    }
}
