//! The two stages of the tags as one phase.

ghost use Rattle.std.specs.Prelude.{◌≡◌, ℕ, List, true, IfOk, refl};
ghost use Rattle.samr_stage.specs.Fragments.{Fragment};
ghost use Rattle.samr_phase.specs.Going.{Goes, HearsAll};
ghost use Rattle.samr_msg.specs.declared.body.Body.{Body as AnyBody};
ghost use Rattle.samr_msg.specs.Places.{AtPass};
ghost use Rattle.samr_msg.specs.Runs.{Setting};
ghost use Rattle.samr_msg.specs.WholeRun.{tagged};

use crate::buffered::Buffered;
use crate::covers::CoverStep;
use crate::shapes::BufferStep;
use samr_msg::{Body, Letter, Run};
use samr_phase::{Bodied, One, Part, Phase, Then, Went};
use samr_regrid::{Base, Tagged, Tools};
use samr_stage::{Label, Mail};
use samr_tags::{Buffer, Cover};
use std::alloc::{AllocError as NoMemory, Global};

type Tags<G> = Then<One<Buffer, BufferStep<G>>, Buffered<G>, One<Cover, CoverStep<G>>>;

/// The tags of a level: those of the shapes with the cells about them, and then the cells that the new
/// level two above needs, where there is one.
#[derive(Drop)]
pub struct Tagging<G: Tools> {
    tags: Tags<G>,
}

impl<G: Tools> Phase<Letter, Body, Base<G>, Tagged<G>> for Tagging<G> {
    ghost fragments = { tagged.fragments };

    ghost after = { tagged.after };

    ghost sure = { ⊥ };

    ghost stands = { λ p. ⟦<Tags<G> as Phase<Letter, Body, Base<G>, Tagged<G>>>⟧.stands p.tags };

    fn start(alloc: Global, input: Base<G>) -> Result<Went<Self, Tagged<G>>, NoMemory> {
        match <Tags<G> as Phase<Letter, Body, Base<G>, Tagged<G>>>::start(alloc, input)? {
            Went::On(tags) => Ok(Went::On(Tagging { tags })),
            Went::Over(out) => Ok(Went::Over(out)),
        }
    }

    fn label(&self) -> Label {
        self.tags.label()
    }

    fn enter(&mut self, alloc: Global, run: &Run, rank: u16) -> Result<Vec<Letter>, NoMemory> {
        let letters = self.tags.enter(alloc, run, rank)?;
        Ok(letters)
    }

    fn ready(&self, held: &[Letter]) -> bool {
        self.tags.ready(held)
    }

    fn finish(self, alloc: Global, held: Vec<Letter>) -> Result<Went<Self, Tagged<G>>, NoMemory>
        requires { (run : Setting) × (w : AtPass) × (rank : ℕ) × (here : Fragment AnyBody) × (rest : List (Fragment AnyBody))
            × ⟦<Tags<G> as Phase<Letter, Body, Base<G>, Tagged<G>>>⟧.stands self.tags w rank here rest true
            × HearsAll ⟦<Letter as Mail>⟧.run ⟦<Letter as Mail>⟧.name ⟦<Letter as Mail>⟧.course ⟦<Letter as Bodied<Body>>⟧.letter_of run w.pass.ranks rank here held.items }
        ensures { IfOk result (λ went. (run : Setting) (w : AtPass) (rank : ℕ) (here : Fragment AnyBody) (rest : List (Fragment AnyBody))
            → ⟦<Tags<G> as Phase<Letter, Body, Base<G>, Tagged<G>>>⟧.stands self.tags w rank here rest true
            → HearsAll ⟦<Letter as Mail>⟧.run ⟦<Letter as Mail>⟧.name ⟦<Letter as Mail>⟧.course ⟦<Letter as Bodied<Body>>⟧.letter_of run w.pass.ranks rank here held.items
            → Goes (λ p. ⟦<Tags<G> as Phase<Letter, Body, Base<G>, Tagged<G>>>⟧.stands p.tags w rank) (λ out. ⟦<Tagged<G> as Part>⟧.holds out (tagged.after w) rank) rank rest went) }
    {
        match self.tags.finish(alloc, held)? {
            Went::On(tags) => Ok(Went::On(Tagging { tags })),
            Went::Over(out) => Ok(Went::Over(out)),
        }
    }

    ghost same_ranks = { λ w. refl };
}
