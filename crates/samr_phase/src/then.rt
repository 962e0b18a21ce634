//! One phase after another.

ghost use Rattle.std.specs.Prelude.{◌≡◌, ℕ, List, ◌++◌, true, IsOk, IfOk};
ghost use Rattle.std.proofs.Common.{ap, ◌∙◌};
ghost use Rattle.samr_stage.specs.Fragments.{Fragment};
ghost use Rattle.samr_phase.specs.declared.then.Then.{Then};
ghost use Rattle.samr_phase.specs.Going.{Goes, HearsAll};
ghost use Rattle.samr_phase.specs.Sequel.{IsIn};

use crate::bodied::Bodied;
use crate::part::Part;
use crate::phase::Phase;
use crate::went::Went;
use samr_stage::Label;
use std::alloc::{AllocError as NoMemory, Global};
use std::marker::PhantomData;

/// One phase and then another, which starts with what the first gives: a rank that leaves the last
/// label that it visits in the first goes on to the first that it visits in the second.
#[derive(Drop)]
pub enum Then<A, X, C> {
    First(A, PhantomData<X>),
    Second(C),
}

/// Starts the second phase with what the first gave.
fn go_on<M: Bodied<B>, B, I: Part, X: Part, O: Part, A: Phase<M, B, I, X>, C: Phase<M, B, X, O>>(
    alloc: Global,
    went: Went<A, X>,
) -> Result<Went<Then<A, X, C>, O>, NoMemory>
    requires { (w : I.Whole) × (rank : ℕ) × (rest : List (Fragment B))
        × Goes (λ p. A.stands p w rank) (λ out. X.holds out (A.after w) rank) rank rest went }
    ensures made { C.sure → IsOk result }
    ensures goes { IfOk result (λ on. (w : I.Whole) (rank : ℕ) (rest : List (Fragment B))
        → Goes (λ p. A.stands p w rank) (λ out. X.holds out (A.after w) rank) rank rest went
        → Goes (λ p. IsIn A.stands C.stands w (A.after w) (C.fragments (A.after w)) rank p) (λ out. O.holds out (C.after (A.after w)) rank)
        rank (rest ++ C.fragments (A.after w)) on) }
{
    match went {
        Went::On(a) => Ok(Went::On(Then::First(a, PhantomData))),
        Went::Over(out) => match C::start(alloc, out)? {
            Went::On(c) => Ok(Went::On(Then::Second(c))),
            Went::Over(out) => Ok(Went::Over(out)),
        },
    }
}

impl<M: Bodied<B>, B, I: Part, X: Part, O: Part, A: Phase<M, B, I, X>, C: Phase<M, B, X, O>> Phase<
    M,
    B,
    I,
    O,
> for Then<A, X, C> {
    ghost fragments = { λ w. A.fragments w ++ C.fragments (A.after w) };

    ghost after = { λ w. C.after (A.after w) };

    ghost sure = { A.sure × C.sure };

    ghost stands = { λ p w rank. IsIn A.stands C.stands w (A.after w) (C.fragments (A.after w)) rank p };

    fn start(alloc: Global, input: I) -> Result<Went<Self, O>, NoMemory> {
        let went = A::start(alloc, input)?;
        let on = go_on(alloc, went)?;
        Ok(on)
    }

    fn label(&self) -> Label {
        match self {
            Then::First(a, _) => a.label(),
            Then::Second(c) => c.label(),
        }
    }

    fn enter(&mut self, alloc: Global, run: &M::Run, rank: u16) -> Result<Vec<M>, NoMemory> {
        match self {
            Then::First(a, _) => {
                let letters = a.enter(alloc, run, rank)?;
                Ok(letters)
            }
            Then::Second(c) => {
                let letters = c.enter(alloc, run, rank)?;
                Ok(letters)
            }
        }
    }

    fn ready(&self, held: &[M]) -> bool {
        match self {
            Then::First(a, _) => a.ready(held),
            Then::Second(c) => c.ready(held),
        }
    }

    fn finish(self, alloc: Global, held: Vec<M>) -> Result<Went<Self, O>, NoMemory>
        requires { (run : M.Run) × (w : I.Whole) × (rank : ℕ) × (here : Fragment B) × (rest : List (Fragment B))
            × IsIn A.stands C.stands w (A.after w) (C.fragments (A.after w)) rank self here rest true
            × HearsAll M.run M.name M.course M.letter_of run (I.ranks w) rank here held.items }
        ensures { IfOk result (λ went. (run : M.Run) (w : I.Whole) (rank : ℕ) (here : Fragment B) (rest : List (Fragment B))
            → IsIn A.stands C.stands w (A.after w) (C.fragments (A.after w)) rank self here rest true
            → HearsAll M.run M.name M.course M.letter_of run (I.ranks w) rank here held.items
            → Goes (λ p. IsIn A.stands C.stands w (A.after w) (C.fragments (A.after w)) rank p) (λ out. O.holds out (C.after (A.after w)) rank)
            rank rest went) }
    {
        match self {
            Then::First(a, _) => {
                let went = a.finish(alloc, held)?;
                let on = go_on(alloc, went)?;
                Ok(on)
            }
            Then::Second(c) => match c.finish(alloc, held)? {
                Went::On(c) => Ok(Went::On(Then::Second(c))),
                Went::Over(out) => Ok(Went::Over(out)),
            },
        }
    }

    ghost same_ranks = { λ w. C.same_ranks (A.after w) ∙ A.same_ranks w };
}
