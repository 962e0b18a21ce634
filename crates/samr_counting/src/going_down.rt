//! The rounds down the tree, in which every rank comes to know the sum.

ghost use Rattle.std.specs.Prelude.{◌≡◌, ℕ, ◌<◌, refl};
ghost use Rattle.samr_tree.specs.TellDown.{informed};
ghost use Rattle.samr_tree.specs.TreeSum.{rounds_down, tellings_at};
ghost use Rattle.samr_msg.specs.declared.body.Body.TheVariants.{TellDown as TellBody};
ghost use Rattle.samr_msg.specs.Places.{AtRound};
ghost use Rattle.samr_msg.specs.PassStops.{loads_of, totals_told, downs_left};
ghost use Rattle.samr_counting.specs.Rounds.{IsLeft, down_fewer, down_ends};

use crate::rounds::{FallTurn, Falling};
use crate::seats::{falls, height_of};
use samr_msg::{Body, Letter};
use samr_phase::{Begun, One, Part, Step, Turns, Went};
use samr_regrid::{Counted, Cut, Tools};
use samr_stage::Label;
use samr_tree::TellDown;
use std::alloc::{AllocError as NoMemory, Global};

/// A rank in a round down the tree.
#[derive(Drop)]
pub struct DownStep<G: Tools> {
    cut: Cut<G>,
    round: u32,
}

impl<G: Tools> Step<Letter, Body, FallTurn<G>, Falling<G>, TellDown> for DownStep<G> {
    ghost label = { totals_told.label };

    ghost visits = { totals_told.visits };

    ghost says = { totals_told.says };

    ghost wrap = { TellBody };

    ghost gives = { λ w r out. out ≡ informed (tellings_at (loads_of w.at) w.round) r };

    ghost after = { totals_told.after };

    ghost keeps = { λ k w r. ⟦<Cut<G> as Part>⟧.holds k.cut w.at r × IsLeft (rounds_down (loads_of w.at)) k.round w };

    ghost sure = { ⊥ };

    fn label(input: &FallTurn<G>) -> Label {
        input.cut.base.label(6, input.round)
    }

    fn visits(input: &FallTurn<G>) -> bool {
        falls(&input.cut.base, input.round)
    }

    fn skip(_alloc: Global, input: FallTurn<G>) -> Result<Falling<G>, NoMemory> {
        Ok(Falling {
            cut: input.cut,
            round: input.round + 1,
            number: input.number,
        })
    }

    fn begin(alloc: Global, input: FallTurn<G>) -> Result<Begun<TellDown, DownStep<G>>, NoMemory> {
        let FallTurn { cut, round, number } = input;
        let stage = TellDown::start(alloc, cut.base.rank(), cut.base.ranks(), round, number)?;
        Ok(Begun {
            stage,
            kept: DownStep { cut, round },
        })
    }

    fn end(self, _alloc: Global, given: u64) -> Result<Falling<G>, NoMemory> {
        Ok(Falling {
            cut: self.cut,
            round: self.round + 1,
            number: given,
        })
    }

    ghost bodies = { λ run name body there. there };

    ghost same_ranks = { λ w. refl };
}

/// The rounds down the tree. After them every rank has the sum.
pub struct DownTurns {}

impl<G: Tools> Turns<Letter, Body, Falling<G>, FallTurn<G>, Counted<G>, One<TellDown, DownStep<G>>>
    for DownTurns {
    ghost left = { downs_left };

    ghost idle = { λ w rank. downs_left w ≡ 0 };

    ghost begun = { λ w. w };

    ghost ended = { λ w. w.at };

    ghost rest = { λ z w rank. ⟦<Counted<G> as Part>⟧.holds z w.at rank };

    ghost sure = { ⊥ };

    fn most(now: &Falling<G>) -> u32 {
        height_of(&now.cut.base)
    }

    fn turn(_alloc: Global, now: Falling<G>) -> Result<Went<FallTurn<G>, Counted<G>>, NoMemory> {
        let Falling { cut, round, number } = now;
        if round < height_of(&cut.base) {
            return Ok(Went::On(FallTurn { cut, round, number }));
        }
        Ok(Went::Over(Counted { cut, total: number }))
    }

    ghost fewer = { down_fewer };

    ghost rests = { λ w rank idle some. absurd (down_ends w idle some) };

    ghost stays = { λ z w rank there idle some. absurd (down_ends w idle some) };

    ghost ends = { λ z w rank there idle none. there };

    ghost same_ranks = { λ w. (refl, refl) };
}
