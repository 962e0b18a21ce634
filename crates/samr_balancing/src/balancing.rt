//! The balance of a pass.

ghost use Rattle.std.specs.Prelude.{◌≡◌, ℕ, List, true, IfOk, refl};
ghost use Rattle.samr_stage.specs.Fragments.{Fragment};
ghost use Rattle.samr_phase.specs.Going.{Goes, HearsAll};
ghost use Rattle.samr_msg.specs.declared.body.Body.{Body};
ghost use Rattle.samr_msg.specs.Runs.{Setting};
ghost use Rattle.samr_msg.specs.Places.{AtPass};
ghost use Rattle.samr_msg.specs.WholeRun.{balanced};
ghost use Rattle.samr_balancing.specs.RoundLaws.{balanced_ranks};

use crate::climbing::WayUp;
use crate::falling::{AtTop, WayDown};
use crate::first::FirstHand;
use crate::homing::HomeStep;
use crate::parts::{Climbed, Climbing, Falling, Handed};
use samr_balance::Home;
use samr_msg::{Body, Letter, Run};
use samr_phase::{Bodied, Made, One, Part, Phase, Then, Went};
use samr_regrid::{Counted, Shared, Tools};
use samr_stage::{Label, Mail};
use std::alloc::{AllocError as NoMemory, Global};

/// Down the tree, and then home.
type DownHome<G> = Then<Made<AtTop, Falling<G>, WayDown<G>>, Handed<G>, One<Home, HomeStep<G>>>;

/// Up the tree, and then down it and home.
type Stages<G> = Then<Made<FirstHand, Climbing<G>, WayUp<G>>, Climbed<G>, DownHome<G>>;

/// The balance of a pass: from what the cut leaves of the clusters to each rank's share of it.
#[derive(Drop)]
pub struct Balancing<G: Tools> {
    inner: Stages<G>,
}

impl<G: Tools> Phase<Letter, Body, Counted<G>, Shared<G>> for Balancing<G> {
    ghost fragments = { balanced.fragments };

    ghost after = { balanced.after };

    ghost sure = { ⊥ };

    ghost stands = { λ p. ⟦<Stages<G> as Phase<Letter, Body, Counted<G>, Shared<G>>>⟧.stands p.inner };

    fn start(alloc: Global, input: Counted<G>) -> Result<Went<Self, Shared<G>>, NoMemory> {
        match <Stages<G> as Phase<Letter, Body, Counted<G>, Shared<G>>>::start(alloc, input)? {
            Went::On(inner) => Ok(Went::On(Balancing { inner })),
            Went::Over(out) => Ok(Went::Over(out)),
        }
    }

    fn label(&self) -> Label {
        self.inner.label()
    }

    fn enter(&mut self, alloc: Global, run: &Run, rank: u16) -> Result<Vec<Letter>, NoMemory> {
        let letters = self.inner.enter(alloc, run, rank)?;
        Ok(letters)
    }

    fn ready(&self, held: &[Letter]) -> bool {
        self.inner.ready(held)
    }

    fn finish(self, alloc: Global, held: Vec<Letter>) -> Result<Went<Self, Shared<G>>, NoMemory>
        requires { (run : Setting) × (w : AtPass) × (rank : ℕ) × (here : Fragment Body) × (rest : List (Fragment Body))
            × ⟦<Stages<G> as Phase<Letter, Body, Counted<G>, Shared<G>>>⟧.stands self.inner w rank here rest true
            × HearsAll ⟦<Letter as Mail>⟧.run ⟦<Letter as Mail>⟧.name ⟦<Letter as Mail>⟧.course ⟦<Letter as Bodied<Body>>⟧.letter_of run w.pass.ranks rank here held.items }
        ensures { IfOk result (λ went. (run : Setting) (w : AtPass) (rank : ℕ) (here : Fragment Body) (rest : List (Fragment Body))
            → ⟦<Stages<G> as Phase<Letter, Body, Counted<G>, Shared<G>>>⟧.stands self.inner w rank here rest true
            → HearsAll ⟦<Letter as Mail>⟧.run ⟦<Letter as Mail>⟧.name ⟦<Letter as Mail>⟧.course ⟦<Letter as Bodied<Body>>⟧.letter_of run w.pass.ranks rank here held.items
            → Goes (λ p. ⟦<Stages<G> as Phase<Letter, Body, Counted<G>, Shared<G>>>⟧.stands p.inner w rank) (λ out. ⟦<Shared<G> as Part>⟧.holds out (balanced.after w) rank) rank rest went) }
    {
        match self.inner.finish(alloc, held)? {
            Went::On(inner) => Ok(Went::On(Balancing { inner })),
            Went::Over(out) => Ok(Went::Over(out)),
        }
    }

    ghost same_ranks = { balanced_ranks };
}
