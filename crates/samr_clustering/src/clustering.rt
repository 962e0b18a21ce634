//! The clustering of a pass.

ghost use Rattle.std.specs.Prelude.{◌≡◌, ℕ, List, true, IfOk, refl};
ghost use Rattle.samr_stage.specs.Fragments.{Fragment};
ghost use Rattle.samr_phase.specs.Going.{Goes, HearsAll};
ghost use Rattle.samr_msg.specs.declared.body.Body.{Body};
ghost use Rattle.samr_msg.specs.Runs.{Setting};
ghost use Rattle.samr_msg.specs.Places.{AtPass};
ghost use Rattle.samr_msg.specs.WholeRun.{clustered};
ghost use Rattle.samr_clustering.specs.RoundLaws.{clustered_ranks};

use crate::edging::EdgesStep;
use crate::parts::{Found, Open};
use crate::roots::Roots;
use crate::rounds::Rounds;
use samr_cluster::Edges;
use samr_msg::{Body, Letter, Run};
use samr_phase::{Bodied, Made, One, Part, Phase, Then, Went};
use samr_regrid::{Clustered, Tagged, Tools};
use samr_stage::{Label, Mail};
use std::alloc::{AllocError as NoMemory, Global};

/// The rounds from the roots, and then the overlaps.
type Stages<G> = Then<Made<Roots, Open<G>, Rounds<G>>, Found<G>, One<Edges, EdgesStep<G>>>;

/// The clustering of a pass: from the tags of a level to its overlaps with its clusters.
#[derive(Drop)]
pub struct Clustering<G: Tools> {
    inner: Stages<G>,
}

impl<G: Tools> Phase<Letter, Body, Tagged<G>, Clustered<G>> for Clustering<G> {
    ghost fragments = { clustered.fragments };

    ghost after = { clustered.after };

    ghost sure = { ⊥ };

    ghost stands = { λ p. ⟦<Stages<G> as Phase<Letter, Body, Tagged<G>, Clustered<G>>>⟧.stands p.inner };

    fn start(alloc: Global, input: Tagged<G>) -> Result<Went<Self, Clustered<G>>, NoMemory> {
        match <Stages<G> as Phase<Letter, Body, Tagged<G>, Clustered<G>>>::start(alloc, input)? {
            Went::On(inner) => Ok(Went::On(Clustering { inner })),
            Went::Over(out) => Ok(Went::Over(out)),
        }
    }

    fn label(&self) -> Label {
        self.inner.label()
    }

    fn enter(&mut self, alloc: Global, run: &Run, rank: u16) -> Result<Vec<Letter>, NoMemory> {
        let letters = self.inner.enter(alloc, run, rank)?;
        Ok(letters)
    }

    fn ready(&self, held: &[Letter]) -> bool {
        self.inner.ready(held)
    }

    fn finish(self, alloc: Global, held: Vec<Letter>) -> Result<Went<Self, Clustered<G>>, NoMemory>
        requires { (run : Setting) × (w : AtPass) × (rank : ℕ) × (here : Fragment Body) × (rest : List (Fragment Body))
            × ⟦<Stages<G> as Phase<Letter, Body, Tagged<G>, Clustered<G>>>⟧.stands self.inner w rank here rest true
            × HearsAll ⟦<Letter as Mail>⟧.run ⟦<Letter as Mail>⟧.name ⟦<Letter as Mail>⟧.course ⟦<Letter as Bodied<Body>>⟧.letter_of run w.pass.ranks rank here held.items }
        ensures { IfOk result (λ went. (run : Setting) (w : AtPass) (rank : ℕ) (here : Fragment Body) (rest : List (Fragment Body))
            → ⟦<Stages<G> as Phase<Letter, Body, Tagged<G>, Clustered<G>>>⟧.stands self.inner w rank here rest true
            → HearsAll ⟦<Letter as Mail>⟧.run ⟦<Letter as Mail>⟧.name ⟦<Letter as Mail>⟧.course ⟦<Letter as Bodied<Body>>⟧.letter_of run w.pass.ranks rank here held.items
            → Goes (λ p. ⟦<Stages<G> as Phase<Letter, Body, Tagged<G>, Clustered<G>>>⟧.stands p.inner w rank) (λ out. ⟦<Clustered<G> as Part>⟧.holds out (clustered.after w) rank) rank rest went) }
    {
        match self.inner.finish(alloc, held)? {
            Went::On(inner) => Ok(Went::On(Clustering { inner })),
            Went::Over(out) => Ok(Went::Over(out)),
        }
    }

    ghost same_ranks = { clustered_ranks };
}
