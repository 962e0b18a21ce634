//! The phases that find all overlaps of the new level, as one.

ghost use Rattle.std.specs.Prelude.{◌≡◌, ℕ, List, true, IfOk, refl};
ghost use Rattle.samr_stage.specs.Fragments.{Fragment};
ghost use Rattle.samr_phase.specs.Going.{Goes, HearsAll};
ghost use Rattle.samr_msg.specs.declared.body.Body.{Body as Said};
ghost use Rattle.samr_msg.specs.Runs.{Setting};
ghost use Rattle.samr_msg.specs.Places.{AtPass};
ghost use Rattle.samr_msg.specs.WholeRun.{connected as stretch};

use crate::from_above::FromAboveStep;
use crate::modifying::ModifyStep;
use crate::parts::{Compared, Covered, Joined, Meeting};
use crate::to_below::ToBelowStep;
use crate::to_itself::ToItselfStep;
use crate::to_old::ToOldStep;
use samr_bridge::Bridge;
use samr_modify::Modify;
use samr_msg::{Body, Letter, Run};
use samr_phase::{Bodied, One, Part, Phase, Then, Went};
use samr_regrid::{Connected, Shared, Tools};
use samr_stage::{Label, Mail};
use std::alloc::{AllocError as NoMemory, Global};

/// The bridges to the old level of the new one's number, and from the new level to itself.
type Beside<G> = Then<One<Bridge, ToOldStep<G>>, Compared<G>, One<Bridge, ToItselfStep<G>>>;

/// The bridges from the new level two above, and to the old one two below.
type Across<G> = Then<One<Bridge, FromAboveStep<G>>, Covered<G>, One<Bridge, ToBelowStep<G>>>;

/// The modification, and the four bridges.
type Five<G> = Then<One<Modify, ModifyStep<G>>, Joined<G>, Then<Beside<G>, Meeting<G>, Across<G>>>;

/// The phases from a rank's share of the pieces to its boxes of the new level with all their overlaps.
#[derive(Drop)]
pub struct Connecting<G: Tools> {
    inner: Five<G>,
}

impl<G: Tools> Phase<Letter, Body, Shared<G>, Connected<G>> for Connecting<G> {
    ghost fragments = { stretch.fragments };

    ghost after = { stretch.after };

    ghost sure = { ⊥ };

    ghost stands = { λ p. ⟦<Five<G> as Phase<Letter, Body, Shared<G>, Connected<G>>>⟧.stands p.inner };

    fn start(alloc: Global, input: Shared<G>) -> Result<Went<Self, Connected<G>>, NoMemory> {
        match <Five<G> as Phase<Letter, Body, Shared<G>, Connected<G>>>::start(alloc, input)? {
            Went::On(inner) => Ok(Went::On(Connecting { inner })),
            Went::Over(out) => Ok(Went::Over(out)),
        }
    }

    fn label(&self) -> Label {
        self.inner.label()
    }

    fn enter(&mut self, alloc: Global, run: &Run, rank: u16) -> Result<Vec<Letter>, NoMemory> {
        let letters = self.inner.enter(alloc, run, rank)?;
        Ok(letters)
    }

    fn ready(&self, held: &[Letter]) -> bool {
        self.inner.ready(held)
    }

    fn finish(self, alloc: Global, held: Vec<Letter>) -> Result<Went<Self, Connected<G>>, NoMemory>
        requires { (run : Setting) × (w : AtPass) × (rank : ℕ) × (here : Fragment Said) × (rest : List (Fragment Said))
            × ⟦<Five<G> as Phase<Letter, Body, Shared<G>, Connected<G>>>⟧.stands self.inner w rank here rest true
            × HearsAll ⟦<Letter as Mail>⟧.run ⟦<Letter as Mail>⟧.name ⟦<Letter as Mail>⟧.course ⟦<Letter as Bodied<Body>>⟧.letter_of run w.pass.ranks rank here held.items }
        ensures { IfOk result (λ went. (run : Setting) (w : AtPass) (rank : ℕ) (here : Fragment Said) (rest : List (Fragment Said))
            → ⟦<Five<G> as Phase<Letter, Body, Shared<G>, Connected<G>>>⟧.stands self.inner w rank here rest true
            → HearsAll ⟦<Letter as Mail>⟧.run ⟦<Letter as Mail>⟧.name ⟦<Letter as Mail>⟧.course ⟦<Letter as Bodied<Body>>⟧.letter_of run w.pass.ranks rank here held.items
            → Goes (λ p. ⟦<Five<G> as Phase<Letter, Body, Shared<G>, Connected<G>>>⟧.stands p.inner w rank) (λ out. ⟦<Connected<G> as Part>⟧.holds out (stretch.after w) rank) rank rest went) }
    {
        match self.inner.finish(alloc, held)? {
            Went::On(inner) => Ok(Went::On(Connecting { inner })),
            Went::Over(out) => Ok(Went::Over(out)),
        }
    }

    ghost same_ranks = { λ w. refl };
}
