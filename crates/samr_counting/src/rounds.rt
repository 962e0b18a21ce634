//! What a rank has between two rounds of the count.

ghost use Rattle.std.specs.Prelude.{ℕ, ◌+◌};
ghost use Rattle.samr_tree.specs.TreeSum.{rounds_up, rounds_down, sums_at, tellings_at};
ghost use Rattle.samr_msg.specs.PassStops.{loads_of};
ghost use Rattle.samr_counting.specs.Rounds.{IsRound};

use samr_phase::Part;
use samr_regrid::{Cut, RoundPlace, Tools};

/// A rank on the way up the tree, with its number before a round.
#[derive(Drop)]
pub struct Climbing<G: Tools> {
    pub cut: Cut<G>,
    pub round: u32,
    pub number: u64,
}

/// A rank before a round up the tree that there is.
#[derive(Drop)]
pub struct ClimbTurn<G: Tools> {
    pub cut: Cut<G>,
    pub round: u32,
    pub number: u64,
}

/// A rank on the way down the tree, with its number before a round.
#[derive(Drop)]
pub struct Falling<G: Tools> {
    pub cut: Cut<G>,
    pub round: u32,
    pub number: u64,
}

/// A rank before a round down the tree that there is.
#[derive(Drop)]
pub struct FallTurn<G: Tools> {
    pub cut: Cut<G>,
    pub round: u32,
    pub number: u64,
}

impl<G: Tools> Part for Climbing<G> {
    type Whole = RoundPlace;

    ghost ranks = { λ w. w.at.pass.ranks };

    ghost holds = { λ x w r. ⟦<Cut<G> as Part>⟧.holds x.cut w.at r
        × IsRound (rounds_up (loads_of w.at) + 1) (sums_at (loads_of w.at) w.round).number x.round x.number w r };
}

impl<G: Tools> Part for ClimbTurn<G> {
    type Whole = RoundPlace;

    ghost ranks = { λ w. w.at.pass.ranks };

    ghost holds = { λ x w r. ⟦<Cut<G> as Part>⟧.holds x.cut w.at r
        × IsRound (rounds_up (loads_of w.at)) (sums_at (loads_of w.at) w.round).number x.round x.number w r };
}

impl<G: Tools> Part for Falling<G> {
    type Whole = RoundPlace;

    ghost ranks = { λ w. w.at.pass.ranks };

    ghost holds = { λ x w r. ⟦<Cut<G> as Part>⟧.holds x.cut w.at r
        × IsRound (rounds_down (loads_of w.at) + 1) (tellings_at (loads_of w.at) w.round).number x.round x.number w r };
}

impl<G: Tools> Part for FallTurn<G> {
    type Whole = RoundPlace;

    ghost ranks = { λ w. w.at.pass.ranks };

    ghost holds = { λ x w r. ⟦<Cut<G> as Part>⟧.holds x.cut w.at r
        × IsRound (rounds_down (loads_of w.at)) (tellings_at (loads_of w.at) w.round).number x.round x.number w r };
}
