//! One of two phases.

ghost use Rattle.std.specs.Prelude.{◌≡◌, ℕ, List, Bool, true, false, cond, IsOk, IfOk};
ghost use Rattle.std.proofs.Common.{◌∙◌};
ghost use Rattle.samr_stage.specs.Fragments.{Fragment};
ghost use Rattle.samr_phase.specs.Going.{Goes, HearsAll};
ghost use Rattle.samr_phase.specs.OneOfTwo.{IsChoice, IsEither, either_same};

use crate::bodied::Bodied;
use crate::part::Part;
use crate::phase::Phase;
use crate::went::Went;
use samr_stage::Label;
use std::alloc::{AllocError as NoMemory, Global};
use std::marker::PhantomData;

/// Which of two phases comes, as every rank knows.
///
/// Its writer says on what of the whole it depends, and with which wholes the two begin, and owes
/// that each rank chooses the same and has its part of the whole of the one that is chosen.
pub trait Choice<I: Part, X: Part, Y: Part> {
    /// Whether the first phase comes.
    ghost test: { I.Whole → Bool };

    /// The whole with which the first phase begins.
    ghost one: { I.Whole → X.Whole };

    /// The whole with which the other phase begins.
    ghost other: { I.Whole → Y.Whole };

    /// That to choose wants no memory.
    ghost sure: { Type 0 };

    /// What a rank begins the one or the other phase with.
    fn choose(alloc: Global, input: I) -> Result<Went<X, Y>, NoMemory>
        requires { (w : I.Whole) × (rank : ℕ) × I.holds input w rank }
        ensures made { sure → IsOk result }
        ensures chosen { IfOk result (λ went. (w : I.Whole) (rank : ℕ) → I.holds input w rank
            → IsChoice test one other X.holds Y.holds w rank went) };

    ghost same_ranks: { (w : I.Whole) → (X.ranks (one w) ≡ I.ranks w) × (Y.ranks (other w) ≡ I.ranks w) };
}

/// One of two phases, the same on every rank.
#[derive(Drop)]
pub enum Either<A, C, X, Y, L> {
    One(A, PhantomData<(X, Y, L)>),
    Other(C),
}

impl<
    M: Bodied<B>,
    B,
    I: Part,
    X: Part,
    Y: Part,
    O: Part,
    A: Phase<M, B, X, O>,
    C: Phase<M, B, Y, O>,
    L: Choice<I, X, Y>,
> Phase<M, B, I, O> for Either<A, C, X, Y, L> {
    ghost fragments = { λ w. cond (L.test w) (A.fragments (L.one w)) (C.fragments (L.other w)) };

    ghost after = { λ w. cond (L.test w) (A.after (L.one w)) (C.after (L.other w)) };

    ghost sure = { L.sure × A.sure × C.sure };

    ghost stands = { λ p w rank. IsEither A.stands C.stands (L.one w) (L.other w) (L.test w) rank p };

    fn start(alloc: Global, input: I) -> Result<Went<Self, O>, NoMemory> {
        match L::choose(alloc, input)? {
            Went::On(x) => match A::start(alloc, x)? {
                Went::On(a) => Ok(Went::On(Either::One(a, PhantomData))),
                Went::Over(out) => Ok(Went::Over(out)),
            },
            Went::Over(y) => match C::start(alloc, y)? {
                Went::On(c) => Ok(Went::On(Either::Other(c))),
                Went::Over(out) => Ok(Went::Over(out)),
            },
        }
    }

    fn label(&self) -> Label {
        match self {
            Either::One(a, _) => a.label(),
            Either::Other(c) => c.label(),
        }
    }

    fn enter(&mut self, alloc: Global, run: &M::Run, rank: u16) -> Result<Vec<M>, NoMemory> {
        match self {
            Either::One(a, _) => {
                let letters = a.enter(alloc, run, rank)?;
                Ok(letters)
            }
            Either::Other(c) => {
                let letters = c.enter(alloc, run, rank)?;
                Ok(letters)
            }
        }
    }

    fn ready(&self, held: &[M]) -> bool {
        match self {
            Either::One(a, _) => a.ready(held),
            Either::Other(c) => c.ready(held),
        }
    }

    fn finish(self, alloc: Global, held: Vec<M>) -> Result<Went<Self, O>, NoMemory>
        requires { (run : M.Run) × (w : I.Whole) × (rank : ℕ) × (here : Fragment B) × (rest : List (Fragment B))
            × IsEither A.stands C.stands (L.one w) (L.other w) (L.test w) rank self here rest true
            × HearsAll M.run M.name M.course M.letter_of run (I.ranks w) rank here held.items }
        ensures { IfOk result (λ went. (run : M.Run) (w : I.Whole) (rank : ℕ) (here : Fragment B) (rest : List (Fragment B))
            → IsEither A.stands C.stands (L.one w) (L.other w) (L.test w) rank self here rest true
            → HearsAll M.run M.name M.course M.letter_of run (I.ranks w) rank here held.items
            → Goes (λ p. IsEither A.stands C.stands (L.one w) (L.other w) (L.test w) rank p)
            (λ out. O.holds out (cond (L.test w) (A.after (L.one w)) (C.after (L.other w))) rank) rank rest went) }
    {
        match self {
            Either::One(a, _) => match a.finish(alloc, held)? {
                Went::On(a) => Ok(Went::On(Either::One(a, PhantomData))),
                Went::Over(out) => Ok(Went::Over(out)),
            },
            Either::Other(c) => match c.finish(alloc, held)? {
                Went::On(c) => Ok(Went::On(Either::Other(c))),
                Went::Over(out) => Ok(Went::Over(out)),
            },
        }
    }

    ghost same_ranks = { λ w. either_same (L.test w) O.ranks (A.after (L.one w)) (C.after (L.other w)) (I.ranks w)
        (A.same_ranks (L.one w) ∙ (L.same_ranks w).0) (C.same_ranks (L.other w) ∙ (L.same_ranks w).1) };
}
