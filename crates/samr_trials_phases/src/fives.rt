//! The last six stages.
ghost use Rattle.std.specs.Prelude.{◌≡◌, ℕ, List, true, IfOk, refl};
ghost use Rattle.samr_stage.specs.Fragments.{Fragment};
ghost use Rattle.samr_phase.specs.Going.{Goes, HearsAll};
ghost use Rattle.samr_trials_phases.specs.Places.{Place};
ghost use Rattle.samr_trials_phases.specs.Thirty.{six_fragments, six_after};

use crate::place::At;
use crate::step::Six;
use crate::told::Told;
use samr_phase::{Bodied, Part, Phase, Went};
use samr_stage::{Label, Mail};
use std::alloc::{AllocError as NoMemory, Global};

/// The last six stages.
#[derive(Drop)]
pub struct Fives {
    six: Six,
}

impl Phase<Told, u64, At, At> for Fives {
    ghost fragments = { six_fragments };

    ghost after = { six_after };

    ghost sure = { ⊥ };

    ghost stands = { λ p. ⟦<Six as Phase<Told, u64, At, At>>⟧.stands p.six };

    fn start(alloc: Global, input: At) -> Result<Went<Self, At>, NoMemory> {
        match <Six as Phase<Told, u64, At, At>>::start(alloc, input)? {
            Went::On(six) => Ok(Went::On(Fives { six })),
            Went::Over(out) => Ok(Went::Over(out)),
        }
    }

    fn label(&self) -> Label {
        self.six.label()
    }

    fn enter(&mut self, alloc: Global, run: &u64, rank: u16) -> Result<Vec<Told>, NoMemory> {
        let letters = self.six.enter(alloc, run, rank)?;
        Ok(letters)
    }

    fn ready(&self, held: &[Told]) -> bool {
        self.six.ready(held)
    }

    fn finish(self, alloc: Global, held: Vec<Told>) -> Result<Went<Self, At>, NoMemory>
        requires { (run : ℕ) × (w : Place) × (rank : ℕ) × (here : Fragment ℕ) × (rest : List (Fragment ℕ))
            × ⟦<Six as Phase<Told, u64, At, At>>⟧.stands self.six w rank here rest true
            × HearsAll ⟦<Told as Mail>⟧.run ⟦<Told as Mail>⟧.name ⟦<Told as Mail>⟧.course ⟦<Told as Bodied<u64>>⟧.letter_of run 3 rank here held.items }
        ensures { IfOk result (λ went. (run : ℕ) (w : Place) (rank : ℕ) (here : Fragment ℕ) (rest : List (Fragment ℕ))
            → ⟦<Six as Phase<Told, u64, At, At>>⟧.stands self.six w rank here rest true
            → HearsAll ⟦<Told as Mail>⟧.run ⟦<Told as Mail>⟧.name ⟦<Told as Mail>⟧.course ⟦<Told as Bodied<u64>>⟧.letter_of run 3 rank here held.items
            → Goes (λ p. ⟦<Six as Phase<Told, u64, At, At>>⟧.stands p.six w rank) (λ out. ⟦<At as Part>⟧.holds out (six_after w) rank) rank rest went) }
    {
        match self.six.finish(alloc, held)? {
            Went::On(six) => Ok(Went::On(Fives { six })),
            Went::Over(out) => Ok(Went::Over(out)),
        }
    }

    ghost same_ranks = { λ w. refl };
}
