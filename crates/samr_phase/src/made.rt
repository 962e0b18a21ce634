//! A phase before which each rank makes something by itself.

ghost use Rattle.std.specs.Prelude.{◌≡◌, ℕ, List, true, IfOk, IsOk};
ghost use Rattle.std.proofs.Common.{◌∙◌};
ghost use Rattle.samr_stage.specs.Fragments.{Fragment};
ghost use Rattle.samr_phase.specs.Going.{Goes, HearsAll};

use crate::bodied::Bodied;
use crate::part::Part;
use crate::phase::Phase;
use crate::went::Went;
use samr_stage::Label;
use std::alloc::{AllocError as NoMemory, Global};
use std::marker::PhantomData;

/// What each rank makes by itself of its part, before a phase begins.
///
/// Its writer says what becomes of the whole, and owes that of each rank's part the rank's part of
/// that is made.
pub trait Making<I: Part, X: Part> {
    /// The whole of which the ranks have parts afterwards.
    ghost after: { I.Whole → X.Whole };

    /// That no memory is wanted.
    ghost sure: { Type 0 };

    /// The part that a rank makes of its part.
    fn make(alloc: Global, input: I) -> Result<X, NoMemory>
        requires { (w : I.Whole) × (rank : ℕ) × I.holds input w rank }
        ensures made { sure → IsOk result }
        ensures after { IfOk result (λ made. (w : I.Whole) (rank : ℕ) → I.holds input w rank → X.holds made (after w) rank) };

    ghost same_ranks: { (w : I.Whole) → X.ranks (after w) ≡ I.ranks w };
}

/// A phase before which each rank makes something by itself.
///
/// It has the labels of the inner phase: what is made at its start is what the inner one starts
/// with. What comes between two phases is so made at the start of the second.
#[derive(Drop)]
pub struct Made<F, X, A> {
    inner: A,
    of: PhantomData<(F, X)>,
}

impl<M: Bodied<B>, B, I: Part, X: Part, O: Part, F: Making<I, X>, A: Phase<M, B, X, O>> Phase<
    M,
    B,
    I,
    O,
> for Made<F, X, A> {
    ghost fragments = { λ w. A.fragments (F.after w) };

    ghost after = { λ w. A.after (F.after w) };

    ghost sure = { F.sure × A.sure };

    ghost stands = { λ p w. A.stands p.inner (F.after w) };

    fn start(alloc: Global, input: I) -> Result<Went<Self, O>, NoMemory> {
        let made = F::make(alloc, input)?;
        match A::start(alloc, made)? {
            Went::On(inner) => Ok(Went::On(Made {
                inner,
                of: PhantomData,
            })),
            Went::Over(out) => Ok(Went::Over(out)),
        }
    }

    fn label(&self) -> Label {
        self.inner.label()
    }

    fn enter(&mut self, alloc: Global, run: &M::Run, rank: u16) -> Result<Vec<M>, NoMemory> {
        let letters = self.inner.enter(alloc, run, rank)?;
        Ok(letters)
    }

    fn ready(&self, held: &[M]) -> bool {
        self.inner.ready(held)
    }

    fn finish(self, alloc: Global, held: Vec<M>) -> Result<Went<Self, O>, NoMemory>
        requires { (run : M.Run) × (w : I.Whole) × (rank : ℕ) × (here : Fragment B) × (rest : List (Fragment B))
            × A.stands self.inner (F.after w) rank here rest true
            × HearsAll M.run M.name M.course M.letter_of run (I.ranks w) rank here held.items }
        ensures { IfOk result (λ went. (run : M.Run) (w : I.Whole) (rank : ℕ) (here : Fragment B) (rest : List (Fragment B))
            → A.stands self.inner (F.after w) rank here rest true
            → HearsAll M.run M.name M.course M.letter_of run (I.ranks w) rank here held.items
            → Goes (λ p. A.stands p.inner (F.after w) rank) (λ out. O.holds out (A.after (F.after w)) rank) rank rest went) }
    {
        match self.inner.finish(alloc, held)? {
            Went::On(inner) => Ok(Went::On(Made {
                inner,
                of: PhantomData,
            })),
            Went::Over(out) => Ok(Went::Over(out)),
        }
    }

    ghost same_ranks = { λ w. A.same_ranks (F.after w) ∙ F.same_ranks w };
}
