//! The rounds up the tree, in which rank 0 comes to know the sum.

ghost use Rattle.std.specs.Prelude.{◌≡◌, ℕ, ◌<◌, refl};
ghost use Rattle.samr_tree.specs.SumUp.{summed};
ghost use Rattle.samr_tree.specs.TreeSum.{rounds_up, sums_at};
ghost use Rattle.samr_msg.specs.declared.body.Body.TheVariants.{SumUp as SumBody};
ghost use Rattle.samr_msg.specs.Places.{AtRound, first_round};
ghost use Rattle.samr_msg.specs.PassStops.{loads_of, sums_told, ups_left};
ghost use Rattle.samr_counting.specs.Rounds.{IsLeft, up_fewer, up_ends};

use crate::rounds::{ClimbTurn, Climbing, Falling};
use crate::seats::{at_root, climbs, height_of};
use samr_msg::{Body, Letter};
use samr_phase::{Begun, One, Part, Step, Turns, Went};
use samr_regrid::{Cut, Tools};
use samr_stage::Label;
use samr_tree::SumUp;
use std::alloc::{AllocError as NoMemory, Global};

/// A rank in a round up the tree.
#[derive(Drop)]
pub struct UpStep<G: Tools> {
    cut: Cut<G>,
    round: u32,
}

impl<G: Tools> Step<Letter, Body, ClimbTurn<G>, Climbing<G>, SumUp> for UpStep<G> {
    ghost label = { sums_told.label };

    ghost visits = { sums_told.visits };

    ghost says = { sums_told.says };

    ghost wrap = { SumBody };

    ghost gives = { λ w r out. out ≡ summed (sums_at (loads_of w.at) w.round) r };

    ghost after = { sums_told.after };

    ghost keeps = { λ k w r. ⟦<Cut<G> as Part>⟧.holds k.cut w.at r × IsLeft (rounds_up (loads_of w.at)) k.round w };

    ghost sure = { ⊥ };

    fn label(input: &ClimbTurn<G>) -> Label {
        input.cut.base.label(5, input.round)
    }

    fn visits(input: &ClimbTurn<G>) -> bool {
        climbs(&input.cut.base, input.round)
    }

    fn skip(_alloc: Global, input: ClimbTurn<G>) -> Result<Climbing<G>, NoMemory> {
        Ok(Climbing {
            cut: input.cut,
            round: input.round + 1,
            number: input.number,
        })
    }

    fn begin(alloc: Global, input: ClimbTurn<G>) -> Result<Begun<SumUp, UpStep<G>>, NoMemory> {
        let ClimbTurn { cut, round, number } = input;
        let stage = SumUp::start(alloc, cut.base.rank(), cut.base.ranks(), round, number)?;
        Ok(Begun {
            stage,
            kept: UpStep { cut, round },
        })
    }

    fn end(self, _alloc: Global, given: u64) -> Result<Climbing<G>, NoMemory> {
        Ok(Climbing {
            cut: self.cut,
            round: self.round + 1,
            number: given,
        })
    }

    ghost bodies = { λ run name body there. there };

    ghost same_ranks = { λ w. refl };
}

/// The rounds up the tree. After them rank 0 goes down with what came up to it, and the others with 0.
pub struct UpTurns {}

impl<G: Tools> Turns<Letter, Body, Climbing<G>, ClimbTurn<G>, Falling<G>, One<SumUp, UpStep<G>>>
    for UpTurns {
    ghost left = { ups_left };

    ghost idle = { λ w rank. ups_left w ≡ 0 };

    ghost begun = { λ w. w };

    ghost ended = { λ w. first_round w.at };

    ghost rest = { λ z w rank. ⟦<Falling<G> as Part>⟧.holds z (first_round w.at) rank };

    ghost sure = { ⊥ };

    fn most(now: &Climbing<G>) -> u32 {
        height_of(&now.cut.base) + 1
    }

    fn turn(_alloc: Global, now: Climbing<G>) -> Result<Went<ClimbTurn<G>, Falling<G>>, NoMemory> {
        let Climbing { cut, round, number } = now;
        if round <= height_of(&cut.base) {
            return Ok(Went::On(ClimbTurn { cut, round, number }));
        }
        let number = at_root(&cut.base, number);
        Ok(Went::Over(Falling {
            cut,
            round: 0,
            number,
        }))
    }

    ghost fewer = { up_fewer };

    ghost rests = { λ w rank idle some. absurd (up_ends w idle some) };

    ghost stays = { λ z w rank there idle some. absurd (up_ends w idle some) };

    ghost ends = { λ z w rank there idle none. there };

    ghost same_ranks = { λ w. (refl, refl) };
}
