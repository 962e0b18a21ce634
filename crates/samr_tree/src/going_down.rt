//! The rounds down the tree as a phase of a run.

ghost use Rattle.std.specs.Prelude.{◌≡◌, ℕ, ◌+◌, ◌-◌, length, ⊤, sum, refl};
ghost use Rattle.samr_tree.specs.TellDown.{tell_row, informed};
ghost use Rattle.samr_tree.specs.TreeSum.{down_label, rounds_down, tellings_at, goes_down as wanted_down};
ghost use Rattle.samr_tree.specs.TreeParts.{Round, IsSeat, next_round};
ghost use Rattle.samr_tree.specs.TreePhases.{down_fewer, down_ends};

use crate::parts::{Down, DownTurn, Seat, Total};
use crate::rounds::{goes_down, height};
use crate::sum_mail::SumMail;
use crate::tell_down::TellDown;
use samr_phase::{Begun, One, Repeat, Step, Turns, Went};
use samr_stage::Label;
use std::alloc::{AllocError as NoMemory, Global};

/// All rounds down the tree, one for each depth but the root's.
pub type GoingDown = Repeat<One<TellDown, DownStep>, DownTurn, DownTurns>;

/// A rank in a round of going down.
#[derive(Drop)]
pub struct DownStep {
    seat: Seat,
}

impl Step<SumMail, u64, DownTurn, Down, TellDown> for DownStep {
    ghost label = { λ w. down_label w.round };

    ghost visits = { λ w. wanted_down (length w.values) w.round };

    ghost says = { λ w. tell_row (tellings_at w.values w.round) };

    ghost wrap = { λ n. n };

    ghost gives = { λ w rank out. out ≡ informed (tellings_at w.values w.round) rank };

    ghost after = { next_round };

    ghost keeps = { λ k w rank. IsSeat (rounds_down w.values) k.seat.rank k.seat.ranks k.seat.round w rank };

    ghost sure = { ⊤ };

    fn label(input: &DownTurn) -> Label {
        Label {
            step: 0,
            pass: 0,
            phase: 6,
            round: input.seat.round,
        }
    }

    fn visits(input: &DownTurn) -> bool {
        goes_down(input.seat.rank, input.seat.ranks, input.seat.round)
    }

    fn skip(_alloc: Global, input: DownTurn) -> Result<Down, NoMemory> {
        Ok(Down {
            seat: input.seat.next(),
            number: input.number,
        })
    }

    fn begin(alloc: Global, input: DownTurn) -> Result<Begun<TellDown, DownStep>, NoMemory> {
        let seat = input.seat;
        let stage = TellDown::start(alloc, seat.rank, seat.ranks, seat.round, input.number)?;
        Ok(Begun {
            stage,
            kept: DownStep { seat },
        })
    }

    fn end(self, _alloc: Global, given: u64) -> Result<Down, NoMemory> {
        Ok(Down {
            seat: self.seat.next(),
            number: given,
        })
    }

    ghost bodies = { λ run name body there. there };

    ghost same_ranks = { λ w. refl };
}

/// The rounds of going down. After them every rank has the sum.
pub struct DownTurns {}

impl Turns<SumMail, u64, Down, DownTurn, Total, One<TellDown, DownStep>> for DownTurns {
    ghost left = { λ w. rounds_down w.values - w.round };

    ghost idle = { λ w rank. rounds_down w.values - w.round ≡ 0 };

    ghost begun = { λ w. w };

    ghost ended = { λ w. w };

    ghost rest = { λ z w rank. z.total ≡ sum w.values };

    ghost sure = { ⊤ };

    fn most(now: &Down) -> u32 {
        height(now.seat.ranks)
    }

    fn turn(_alloc: Global, now: Down) -> Result<Went<DownTurn, Total>, NoMemory> {
        if now.seat.round < height(now.seat.ranks) {
            return Ok(Went::On(DownTurn {
                seat: now.seat,
                number: now.number,
            }));
        }
        Ok(Went::Over(Total { total: now.number }))
    }

    ghost fewer = { λ w some. down_fewer w some };

    ghost rests = { λ w rank idle some. absurd (down_ends w idle some) };

    ghost stays = { λ z w rank there idle some. absurd (down_ends w idle some) };

    ghost ends = { λ z w rank there idle none. there };

    ghost same_ranks = { λ w. (refl, refl) };
}
