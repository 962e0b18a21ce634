//! What a rank has between two rounds of a sum over all ranks.

ghost use Rattle.std.specs.Prelude.{◌≡◌, ℕ, ◌+◌, ◌<◌, ◌^◌, length, sum};
ghost use Rattle.samr_tree.specs.TreeSum.{rounds_up, rounds_down, sums_at, tellings_at};
ghost use Rattle.samr_tree.specs.TreeParts.{IsSeat};

use samr_phase::Part;
use std::marker::Model;

/// Stands in proofs for the numbers of a sum, and a round of it.
#[derive(Drop)]
pub struct AtRound {}

impl Model for AtRound {
    ghost use Rattle.std.specs.Prelude.{[]};
    ghost use Rattle.samr_tree.specs.TreeParts.{Round};

    ghost Value = { Round };

    ghost view = { λ _. record { values = []; round = 0 } };
}

/// A rank before a round.
#[derive(Drop)]
pub struct Seat {
    pub rank: u16,
    pub ranks: u16,
    pub round: u32,
}

impl Seat {
    /// The rank before the next round.
    pub fn next(self) -> Seat
        requires { self.round + 1 < 2 ^ 32 }
        ensures rank { result.rank ≡ self.rank }
        ensures ranks { result.ranks ≡ self.ranks }
        ensures round { result.round ≡ self.round + 1 }
    {
        Seat {
            rank: self.rank,
            ranks: self.ranks,
            round: self.round + 1,
        }
    }
}

/// A rank on the way up, with its number.
#[derive(Drop)]
pub struct Up {
    pub seat: Seat,
    pub number: u64,
}

/// A rank before a round of going up that there is.
#[derive(Drop)]
pub struct UpTurn {
    pub seat: Seat,
    pub number: u64,
}

/// A rank on the way down, with its number.
#[derive(Drop)]
pub struct Down {
    pub seat: Seat,
    pub number: u64,
}

/// A rank before a round of going down that there is.
#[derive(Drop)]
pub struct DownTurn {
    pub seat: Seat,
    pub number: u64,
}

/// A rank with the sum.
#[derive(Drop)]
pub struct Total {
    pub total: u64,
}

impl Part for Up {
    type Whole = AtRound;

    ghost ranks = { λ w. length w.values };

    ghost holds = { λ x w rank. IsSeat (rounds_up w.values + 1) x.seat.rank x.seat.ranks x.seat.round w rank
        × (x.number ≡ (sums_at w.values w.round).number rank) };
}

impl Part for UpTurn {
    type Whole = AtRound;

    ghost ranks = { λ w. length w.values };

    ghost holds = { λ x w rank. IsSeat (rounds_up w.values) x.seat.rank x.seat.ranks x.seat.round w rank
        × (x.number ≡ (sums_at w.values w.round).number rank) };
}

impl Part for Down {
    type Whole = AtRound;

    ghost ranks = { λ w. length w.values };

    ghost holds = { λ x w rank. IsSeat (rounds_down w.values + 1) x.seat.rank x.seat.ranks x.seat.round w rank
        × (x.number ≡ (tellings_at w.values w.round).number rank) };
}

impl Part for DownTurn {
    type Whole = AtRound;

    ghost ranks = { λ w. length w.values };

    ghost holds = { λ x w rank. IsSeat (rounds_down w.values) x.seat.rank x.seat.ranks x.seat.round w rank
        × (x.number ≡ (tellings_at w.values w.round).number rank) };
}

impl Part for Total {
    type Whole = AtRound;

    ghost ranks = { λ w. length w.values };

    ghost holds = { λ x w rank. x.total ≡ sum w.values };
}
