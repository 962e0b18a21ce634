//! The rounds up the tree as a phase of a run.

ghost use Rattle.std.specs.Prelude.{◌≡◌, ℕ, ◌+◌, ◌-◌, length, ⊤, if◌then◌else◌, refl};
ghost use Rattle.samr_tree.specs.SumUp.{sum_row, summed};
ghost use Rattle.samr_tree.specs.TreeSum.{up_label, rounds_up, sums_at, goes_up as wanted_up};
ghost use Rattle.samr_tree.specs.TreeParts.{Round, IsSeat, next_round};
ghost use Rattle.samr_tree.specs.TreePhases.{up_fewer, up_ends};

use crate::parts::{Down, Seat, Up, UpTurn};
use crate::rounds::{goes_up, height};
use crate::sum_mail::SumMail;
use crate::sum_up::SumUp;
use samr_phase::{Begun, One, Part, Repeat, Step, Turns, Went};
use samr_stage::Label;
use std::alloc::{AllocError as NoMemory, Global};

/// All rounds up the tree, one for each depth.
pub type GoingUp = Repeat<One<SumUp, UpStep>, UpTurn, UpTurns>;

/// A rank in a round of going up.
#[derive(Drop)]
pub struct UpStep {
    seat: Seat,
}

impl Step<SumMail, u64, UpTurn, Up, SumUp> for UpStep {
    ghost label = { λ w. up_label w.round };

    ghost visits = { λ w. wanted_up (length w.values) w.round };

    ghost says = { λ w. sum_row (sums_at w.values w.round) };

    ghost wrap = { λ n. n };

    ghost gives = { λ w rank out. out ≡ summed (sums_at w.values w.round) rank };

    ghost after = { next_round };

    ghost keeps = { λ k w rank. IsSeat (rounds_up w.values) k.seat.rank k.seat.ranks k.seat.round w rank };

    ghost sure = { ⊤ };

    fn label(input: &UpTurn) -> Label {
        Label {
            step: 0,
            pass: 0,
            phase: 5,
            round: input.seat.round,
        }
    }

    fn visits(input: &UpTurn) -> bool {
        goes_up(input.seat.rank, input.seat.ranks, input.seat.round)
    }

    fn skip(_alloc: Global, input: UpTurn) -> Result<Up, NoMemory> {
        Ok(Up {
            seat: input.seat.next(),
            number: input.number,
        })
    }

    fn begin(alloc: Global, input: UpTurn) -> Result<Begun<SumUp, UpStep>, NoMemory> {
        let seat = input.seat;
        let stage = SumUp::start(alloc, seat.rank, seat.ranks, seat.round, input.number)?;
        Ok(Begun {
            stage,
            kept: UpStep { seat },
        })
    }

    fn end(self, _alloc: Global, given: u64) -> Result<Up, NoMemory> {
        Ok(Up {
            seat: self.seat.next(),
            number: given,
        })
    }

    ghost bodies = { λ run name body there. there };

    ghost same_ranks = { λ w. refl };
}

/// The rounds of going up. After them rank 0 goes down with what came up to it, and the others with 0.
pub struct UpTurns {}

impl Turns<SumMail, u64, Up, UpTurn, Down, One<SumUp, UpStep>> for UpTurns {
    ghost left = { λ w. rounds_up w.values - w.round };

    ghost idle = { λ w rank. rounds_up w.values - w.round ≡ 0 };

    ghost begun = { λ w. w };

    ghost ended = { λ w. record { values = w.values; round = 0 } };

    ghost rest = { λ z w rank. ⟦<Down as Part>⟧.holds z (record { values = w.values; round = 0 }) rank };

    ghost sure = { ⊤ };

    fn most(now: &Up) -> u32 {
        height(now.seat.ranks) + 1
    }

    fn turn(_alloc: Global, now: Up) -> Result<Went<UpTurn, Down>, NoMemory> {
        if now.seat.round <= height(now.seat.ranks) {
            return Ok(Went::On(UpTurn {
                seat: now.seat,
                number: now.number,
            }));
        }
        Ok(Went::Over(Down {
            seat: Seat {
                rank: now.seat.rank,
                ranks: now.seat.ranks,
                round: 0,
            },
            number: if now.seat.rank == 0 { now.number } else { 0 },
        }))
    }

    ghost fewer = { λ w some. up_fewer w some };

    ghost rests = { λ w rank idle some. absurd (up_ends w idle some) };

    ghost stays = { λ z w rank there idle some. absurd (up_ends w idle some) };

    ghost ends = { λ z w rank there idle none. there };

    ghost same_ranks = { λ w. (refl, refl) };
}
