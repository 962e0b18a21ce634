//! One stage at one label, as a phase.

ghost use Rattle.std.specs.Prelude.{◌≡◌, ℕ, List, [], ◌∷◌, true, cond, IfOk};
ghost use Rattle.samr_stage.specs.Fragments.{Fragment};
ghost use Rattle.samr_phase.specs.Going.{Goes, HearsAll};
ghost use Rattle.samr_phase.specs.AtOne.{Plays, IsAtOnly, fragment};

use crate::bodied::Bodied;
use crate::part::Part;
use crate::phase::Phase;
use crate::step::Step;
use crate::went::Went;
use samr_stage::{Carried, Label, enter_stage, finish_stage, ready_stage};
use std::alloc::{AllocError as NoMemory, Global};

/// One stage at one label, which a rank may skip.
#[derive(Drop)]
pub struct One<S, E> {
    at: Label,
    stage: S,
    step: E,
}

impl<M: Bodied<B>, B, I: Part, O: Part, S: Carried<M>, E: Step<M, B, I, O, S>> Phase<M, B, I, O>
    for One<S, E> {
    ghost fragments = { λ w. fragment (E.label w) (E.visits w) E.wrap (E.says w) ∷ [] };

    ghost after = { E.after };

    ghost sure = { E.sure };

    ghost stands = { λ p w rank here rest entered. IsAtOnly (fragment (E.label w) (E.visits w) E.wrap (E.says w)) rank p.at here rest
        × Plays (cond entered S.waits S.starts) S.ranks_of S.says S.gives (I.ranks w) (E.says w) (E.gives w rank) rank p.stage
        × E.keeps p.step w rank };

    fn start(alloc: Global, input: I) -> Result<Went<Self, O>, NoMemory> {
        if !E::visits(&input) {
            return Ok(Went::Over(E::skip(alloc, input)?));
        }
        let at = E::label(&input);
        let begun = E::begin(alloc, input)?;
        Ok(Went::On(One {
            at,
            stage: begun.stage,
            step: begun.kept,
        }))
    }

    fn label(&self) -> Label {
        self.at
    }

    fn enter(&mut self, alloc: Global, run: &M::Run, rank: u16) -> Result<Vec<M>, NoMemory> {
        let letters = enter_stage(alloc, run, self.at, rank, &mut self.stage)?;
        Ok(letters)
    }

    fn ready(&self, held: &[M]) -> bool {
        ready_stage(&self.stage, held)
    }

    fn finish(self, alloc: Global, held: Vec<M>) -> Result<Went<Self, O>, NoMemory>
        requires { (run : M.Run) × (w : I.Whole) × (rank : ℕ) × (here : Fragment B) × (rest : List (Fragment B))
            × ⟦<One<S, E> as Phase<M, B, I, O>>⟧.stands self w rank here rest true × HearsAll M.run M.name M.course M.letter_of run (I.ranks w) rank here held.items }
        ensures { IfOk result (λ went. (run : M.Run) (w : I.Whole) (rank : ℕ) (here : Fragment B) (rest : List (Fragment B))
            → ⟦<One<S, E> as Phase<M, B, I, O>>⟧.stands self w rank here rest true → HearsAll M.run M.name M.course M.letter_of run (I.ranks w) rank here held.items
            → Goes (λ p. ⟦<One<S, E> as Phase<M, B, I, O>>⟧.stands p w rank) (λ out. O.holds out (E.after w) rank) rank rest went) }
    {
        let given = finish_stage(alloc, self.stage, held)?;
        Ok(Went::Over(self.step.end(alloc, given)?))
    }

    ghost same_ranks = { E.same_ranks };
}
