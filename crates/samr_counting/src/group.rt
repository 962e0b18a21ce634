//! The rounds of the count as one phase.

ghost use Rattle.std.specs.Prelude.{◌≡◌, ℕ, List, true, IfOk};
ghost use Rattle.samr_stage.specs.Fragments.{Fragment};
ghost use Rattle.samr_phase.specs.Going.{Goes, HearsAll};
ghost use Rattle.samr_msg.specs.declared.body.Body.{Body as AnyBody};
ghost use Rattle.samr_msg.specs.Places.{AtPass};
ghost use Rattle.samr_msg.specs.Runs.{Setting};
ghost use Rattle.samr_msg.specs.WholeRun.{counted};
ghost use Rattle.samr_counting.specs.Rounds.{counted_ranks};

use crate::cuts::Cuts;
use crate::going_down::{DownStep, DownTurns};
use crate::going_up::{UpStep, UpTurns};
use crate::loads::Load;
use crate::rounds::{ClimbTurn, Climbing, FallTurn, Falling};
use samr_msg::{Body, Letter, Run};
use samr_phase::{Bodied, Made, One, Part, Phase, Repeat, Then, Went};
use samr_regrid::{Clustered, Counted, Cut, Tools};
use samr_stage::{Label, Mail};
use samr_tree::{SumUp, TellDown};
use std::alloc::{AllocError as NoMemory, Global};

type Ups<G> = Made<Load, Climbing<G>, Repeat<One<SumUp, UpStep<G>>, ClimbTurn<G>, UpTurns>>;

type CutUps<G> = Made<Cuts, Cut<G>, Ups<G>>;

type Downs<G> = Repeat<One<TellDown, DownStep<G>>, FallTurn<G>, DownTurns>;

type Rounds<G> = Then<CutUps<G>, Falling<G>, Downs<G>>;

/// The nest cuts of each rank's clusters, and the count of the cells that they leave on all ranks.
#[derive(Drop)]
pub struct Counting<G: Tools> {
    rounds: Rounds<G>,
}

impl<G: Tools> Phase<Letter, Body, Clustered<G>, Counted<G>> for Counting<G> {
    ghost fragments = { counted.fragments };

    ghost after = { counted.after };

    ghost sure = { ⊥ };

    ghost stands = { λ p. ⟦<Rounds<G> as Phase<Letter, Body, Clustered<G>, Counted<G>>>⟧.stands p.rounds };

    fn start(alloc: Global, input: Clustered<G>) -> Result<Went<Self, Counted<G>>, NoMemory> {
        match <Rounds<G> as Phase<Letter, Body, Clustered<G>, Counted<G>>>::start(alloc, input)? {
            Went::On(rounds) => Ok(Went::On(Counting { rounds })),
            Went::Over(out) => Ok(Went::Over(out)),
        }
    }

    fn label(&self) -> Label {
        self.rounds.label()
    }

    fn enter(&mut self, alloc: Global, run: &Run, rank: u16) -> Result<Vec<Letter>, NoMemory> {
        let letters = self.rounds.enter(alloc, run, rank)?;
        Ok(letters)
    }

    fn ready(&self, held: &[Letter]) -> bool {
        self.rounds.ready(held)
    }

    fn finish(self, alloc: Global, held: Vec<Letter>) -> Result<Went<Self, Counted<G>>, NoMemory>
        requires { (run : Setting) × (w : AtPass) × (rank : ℕ) × (here : Fragment AnyBody) × (rest : List (Fragment AnyBody))
            × ⟦<Rounds<G> as Phase<Letter, Body, Clustered<G>, Counted<G>>>⟧.stands self.rounds w rank here rest true
            × HearsAll ⟦<Letter as Mail>⟧.run ⟦<Letter as Mail>⟧.name ⟦<Letter as Mail>⟧.course ⟦<Letter as Bodied<Body>>⟧.letter_of run w.pass.ranks rank here held.items }
        ensures { IfOk result (λ went. (run : Setting) (w : AtPass) (rank : ℕ) (here : Fragment AnyBody) (rest : List (Fragment AnyBody))
            → ⟦<Rounds<G> as Phase<Letter, Body, Clustered<G>, Counted<G>>>⟧.stands self.rounds w rank here rest true
            → HearsAll ⟦<Letter as Mail>⟧.run ⟦<Letter as Mail>⟧.name ⟦<Letter as Mail>⟧.course ⟦<Letter as Bodied<Body>>⟧.letter_of run w.pass.ranks rank here held.items
            → Goes (λ p. ⟦<Rounds<G> as Phase<Letter, Body, Clustered<G>, Counted<G>>>⟧.stands p.rounds w rank) (λ out. ⟦<Counted<G> as Part>⟧.holds out (counted.after w) rank) rank rest went) }
    {
        match self.rounds.finish(alloc, held)? {
            Went::On(rounds) => Ok(Went::On(Counting { rounds })),
            Went::Over(out) => Ok(Went::Over(out)),
        }
    }

    ghost same_ranks = { counted_ranks };
}
