//! A run of two ranks with one letter, by which the first tells the second a number.

ghost use Rattle.std.specs.Prelude.{◌≡◌, ℕ, ◌<◌, true, false, if◌then◌else◌, OnOk, refl};
ghost use Rattle.samr_trials_engine.specs.Telling.{telling, told, telling_course, telling_is_course};

use samr_stage::{Label, Mail, Name, Program};
use std::alloc::{AllocError as NoMemory, Global};

/// The one label of the run.
pub const TELLING: Label = Label {
    step: 1,
    pass: 0,
    phase: 0,
    round: 0,
};

/// The letter by which the first rank tells the second the run's number.
#[derive(Drop)]
pub struct Told {
    pub number: u64,
}

impl Mail for Told {
    type Run = u64;

    ghost Body = { ℕ };

    ghost run = { λ letter. letter.number };

    ghost name = { λ _. told };

    ghost body = { λ letter. letter.number };

    ghost course = { telling_course };

    fn name(&self) -> Name {
        Name {
            label: TELLING,
            sender: 0,
            addressee: 1,
        }
    }

    fn same_run(&self, other: &Self) -> bool {
        self.number == other.number
    }

    fn copied(&self, _alloc: Global) -> Result<Self, NoMemory> {
        Ok(Told {
            number: self.number,
        })
    }

    ghost truth = { λ _. refl };
}

/// One of the two ranks.
#[derive(Drop)]
pub struct Teller {
    pub rank: u16,
    pub number: u64,
    pub left: bool,
}

impl Program for Teller {
    type Mail = Told;

    ghost run = { λ teller. teller.number };

    ghost rank_of = { λ teller. teller.rank };

    ghost place = { λ teller. if teller.left then 1 else 0 };

    ghost stands = { λ teller _. teller.rank < 2 };

    fn rank(&self) -> u16 {
        self.rank
    }

    fn ranks(&self) -> u16 {
        2
    }

    fn label(&self) -> Label {
        TELLING
    }

    fn finished(&self) -> bool {
        self.left
    }

    fn own_run(&self, letter: &Told) -> bool {
        letter.number == self.number
    }

    fn enter(&mut self, alloc: Global) -> Result<Vec<Told>, NoMemory> {
        let mut letters = Vec::new(alloc);
        if self.rank == 0 {
            letters.push(Told {
                number: self.number,
            })?;
        }
        Ok(letters)
    }

    fn ready(&self, held: &[Told]) -> bool {
        held.len() == usize::from(self.rank)
    }

    fn finish(&mut self, _alloc: Global, held: Vec<Told>) -> Result<(), NoMemory>
        requires here { self.old.rank < 2 }
        requires going_on { self.old.left ≡ false }
        ensures next { OnOk result (self.new.rank < 2) }
        ensures run { OnOk result (self.new.number ≡ self.old.number) }
        ensures rank { OnOk result (self.new.rank ≡ self.old.rank) }
        ensures place { OnOk result (self.new.left ≡ true) }
    {
        self.left = true;
        Ok(())
    }

    ghost on_course = { λ teller _ _. telling_is_course teller.number };
}

/// One of the two ranks of the run of 7, before its label.
pub fn new_teller(rank: u16) -> Teller
    ensures { result ≡ record { rank = rank; number = 7; left = false } }
{
    Teller {
        rank,
        number: 7,
        left: false,
    }
}
