//! The letters of a sum over all ranks, and how the two stages stand in them.

ghost use Rattle.std.specs.Prelude.{◌≡◌, ◌↔◌, ℕ, Some, IsTrue, refl};
ghost use Rattle.std.proofs.Props.{props};
ghost use Rattle.samr_tree.specs.TreeSum.{tree_course};

use crate::numbers::Numbers;
use crate::sum_up::SumUp;
use crate::tell_down::TellDown;
use samr_phase::Bodied;
use samr_stage::{Carried, Mail, Name};
use std::alloc::{AllocError as NoMemory, Global};

/// A letter of a sum over all ranks. Its value is the one that the run has for its name.
#[derive(Drop)]
pub struct SumMail {
    numbers: Numbers,
    name: Name,
    value: u64,
    ghost true_value: { (tree_course numbers).letter name ≡ Some value } by { Prim.hlevel props },
}

impl SumMail {
    /// The number in the letter.
    pub fn value(&self) -> u64
        ensures { Some result ≡ (tree_course (⟦<SumMail as Mail>⟧.run self.now)).letter (⟦<SumMail as Mail>⟧.name self.now) }
    {
        self.value
    }
}

impl Mail for SumMail {
    type Run = Numbers;

    ghost Body = { ℕ };

    ghost run = { λ letter. letter.numbers };

    ghost name = { λ letter. letter.name };

    ghost body = { λ letter. letter.value };

    ghost course = { tree_course };

    fn name(&self) -> Name {
        self.name
    }

    fn same_run(&self, other: &Self) -> bool {
        self.numbers.same(&other.numbers)
    }

    fn copied(&self, _alloc: Global) -> Result<Self, NoMemory> {
        Ok(SumMail {
            numbers: self.numbers.share()?,
            name: self.name,
            value: self.value,
        })
    }

    ghost truth = { λ letter. letter.true_value };
}

impl Bodied<u64> for SumMail {
    ghost letter_of = { λ numbers name. (tree_course numbers).letter name };

    fn is_of(&self, numbers: &Numbers) -> bool {
        self.numbers.same(numbers)
    }

    ghost same_letters = { λ numbers name. refl };
}

impl Carried<SumMail> for SumUp {
    ghost has_body = { λ numbers name number. (tree_course numbers).letter name ≡ Some number };

    fn to_letter(
        _alloc: Global,
        run: &Numbers,
        name: Name,
        body: u64,
    ) -> Result<SumMail, NoMemory> {
        Ok(SumMail {
            numbers: run.share()?,
            name,
            value: body,
        })
    }

    fn into_body(letter: SumMail) -> u64 {
        letter.value
    }

    fn weigh(&self, _letter: &SumMail) -> u64 {
        1
    }
}

impl Carried<SumMail> for TellDown {
    ghost has_body = { λ numbers name number. (tree_course numbers).letter name ≡ Some number };

    fn to_letter(
        _alloc: Global,
        run: &Numbers,
        name: Name,
        body: u64,
    ) -> Result<SumMail, NoMemory> {
        Ok(SumMail {
            numbers: run.share()?,
            name,
            value: body,
        })
    }

    fn into_body(letter: SumMail) -> u64 {
        letter.value
    }

    fn weigh(&self, _letter: &SumMail) -> u64 {
        1
    }
}
