//! A phase again and again.

ghost use Rattle.std.specs.Prelude.{◌≡◌, ℕ, ◌≤◌, List, true, IsOk, IfOk};
ghost use Rattle.samr_stage.specs.Fragments.{Fragment};
ghost use Rattle.samr_phase.specs.Going.{Goes, HearsAll};
ghost use Rattle.samr_phase.specs.Turning.{IsInTurn, last, ahead, last_ranks};
ghost use Rattle.std.proofs.Common.{◌∙◌};

use crate::bodied::Bodied;
use crate::part::Part;
use crate::phase::Phase;
use crate::turns::Turns;
use crate::went::Went;
use samr_stage::Label;
use std::alloc::{AllocError as NoMemory, Global};
use std::marker::PhantomData;

/// A phase again and again, as often as there are turns left. A phase that may be absent is a loop
/// of at most one turn.
#[derive(Drop)]
pub struct Repeat<A, Y, L> {
    turn: A,
    of: PhantomData<(Y, L)>,
}

/// Goes to the first label that the rank visits in so many turns.
fn again<
    M: Bodied<B>,
    B,
    X: Part,
    Y: Part,
    Z: Part,
    A: Phase<M, B, Y, X>,
    L: Turns<M, B, X, Y, Z, A>,
>(alloc: Global, now: X, most: u32) -> Result<Went<Repeat<A, Y, L>, Z>, NoMemory>
    requires { (w : X.Whole) × (rank : ℕ) × X.holds now w rank × (L.left w ≤ most) }
    ensures made { L.sure × A.sure → IsOk result }
    ensures goes { IfOk result (λ went. (w : X.Whole) (rank : ℕ) → X.holds now w rank → L.left w ≤ most
        → Goes (λ p. IsInTurn (λ w. A.fragments (L.begun w)) (λ w. A.after (L.begun w)) L.left (λ p w. A.stands p (L.begun w)) X.ranks w rank p.turn)
        (λ out. Z.holds out (L.ended (last (λ w. A.fragments (L.begun w)) (λ w. A.after (L.begun w)) L.left w)) rank) rank (ahead (λ w. A.fragments (L.begun w)) (λ w. A.after (L.begun w)) L.left w) went) }
{
    match L::turn(alloc, now)? {
        Went::Over(out) => Ok(Went::Over(out)),
        Went::On(begun) => match A::start(alloc, begun)? {
            Went::On(turn) => Ok(Went::On(Repeat {
                turn,
                of: PhantomData,
            })),
            Went::Over(next) => {
                if most == 0 {
                    return Err(NoMemory);
                }
                let went = again(alloc, next, most - 1)?;
                Ok(went)
            }
        },
    }
}

impl<
    M: Bodied<B>,
    B,
    X: Part,
    Y: Part,
    Z: Part,
    A: Phase<M, B, Y, X>,
    L: Turns<M, B, X, Y, Z, A>,
> Phase<M, B, X, Z> for Repeat<A, Y, L> {
    ghost fragments = { ahead (λ w. A.fragments (L.begun w)) (λ w. A.after (L.begun w)) L.left };

    ghost after = { λ w. L.ended (last (λ w. A.fragments (L.begun w)) (λ w. A.after (L.begun w)) L.left w) };

    ghost sure = { L.sure × A.sure };

    ghost stands = { λ p w rank. IsInTurn (λ w. A.fragments (L.begun w)) (λ w. A.after (L.begun w)) L.left (λ p w. A.stands p (L.begun w)) X.ranks w rank p.turn };

    fn start(alloc: Global, input: X) -> Result<Went<Self, Z>, NoMemory> {
        let most = L::most(&input);
        let went = again(alloc, input, most)?;
        Ok(went)
    }

    fn label(&self) -> Label {
        self.turn.label()
    }

    fn enter(&mut self, alloc: Global, run: &M::Run, rank: u16) -> Result<Vec<M>, NoMemory> {
        let letters = self.turn.enter(alloc, run, rank)?;
        Ok(letters)
    }

    fn ready(&self, held: &[M]) -> bool {
        self.turn.ready(held)
    }

    fn finish(self, alloc: Global, held: Vec<M>) -> Result<Went<Self, Z>, NoMemory>
        requires { (run : M.Run) × (w : X.Whole) × (rank : ℕ) × (here : Fragment B) × (rest : List (Fragment B))
            × IsInTurn (λ w. A.fragments (L.begun w)) (λ w. A.after (L.begun w)) L.left (λ p w. A.stands p (L.begun w)) X.ranks w rank self.turn here rest true
            × HearsAll M.run M.name M.course M.letter_of run (X.ranks w) rank here held.items }
        ensures { IfOk result (λ went. (run : M.Run) (w : X.Whole) (rank : ℕ) (here : Fragment B) (rest : List (Fragment B))
            → IsInTurn (λ w. A.fragments (L.begun w)) (λ w. A.after (L.begun w)) L.left (λ p w. A.stands p (L.begun w)) X.ranks w rank self.turn here rest true
            → HearsAll M.run M.name M.course M.letter_of run (X.ranks w) rank here held.items
            → Goes (λ p. IsInTurn (λ w. A.fragments (L.begun w)) (λ w. A.after (L.begun w)) L.left (λ p w. A.stands p (L.begun w)) X.ranks w rank p.turn)
            (λ out. Z.holds out (L.ended (last (λ w. A.fragments (L.begun w)) (λ w. A.after (L.begun w)) L.left w)) rank) rank rest went) }
    {
        match self.turn.finish(alloc, held)? {
            Went::On(turn) => Ok(Went::On(Repeat {
                turn,
                of: PhantomData,
            })),
            Went::Over(next) => {
                let most = L::most(&next);
                let went = again(alloc, next, most)?;
                Ok(went)
            }
        }
    }

    ghost same_ranks = { λ w. (L.same_ranks (last (λ w. A.fragments (L.begun w)) (λ w. A.after (L.begun w)) L.left w)).1 ∙ last_ranks (λ w. A.fragments (L.begun w)) (λ w. A.after (L.begun w)) X.ranks (λ v. A.same_ranks (L.begun v) ∙ (L.same_ranks v).0) L.left w };
}
