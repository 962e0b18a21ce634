//! What a rank has between the stages of a balance.

ghost use Rattle.std.specs.Prelude.{ℕ, ◌≡◌, ◌+◌};
ghost use Rattle.samr_tree.specs.Tree.{bottom};
ghost use Rattle.samr_balance.specs.Rounds.{going_up, going_down};
ghost use Rattle.samr_balancing.specs.Rounds.{HasHand, climbed_hand, last_hand};

use samr_balance::Hand;
use samr_phase::Part;
use samr_regrid::{Counted, PassPlace, RoundPlace, Tools};

/// A rank before a round of the way up, of which there may be none.
#[derive(Drop)]
pub struct Climbing<G: Tools> {
    pub kept: Counted<G>,
    pub round: u32,
    pub hand: Hand,
}

impl<G: Tools> Part for Climbing<G> {
    type Whole = RoundPlace;

    ghost ranks = { λ w. w.at.pass.ranks };

    ghost holds = { λ x w r. ⟦<Counted<G> as Part>⟧.holds x.kept w.at r × HasHand going_up (bottom w.at.pass.ranks + 2) x.round x.hand w r };
}

/// A rank before a round of the way up that there is.
#[derive(Drop)]
pub struct ClimbTurn<G: Tools> {
    pub kept: Counted<G>,
    pub round: u32,
    pub hand: Hand,
}

impl<G: Tools> Part for ClimbTurn<G> {
    type Whole = RoundPlace;

    ghost ranks = { λ w. w.at.pass.ranks };

    ghost holds = { λ x w r. ⟦<Counted<G> as Part>⟧.holds x.kept w.at r × HasHand going_up (bottom w.at.pass.ranks + 1) x.round x.hand w r };
}

/// A rank after the way up.
#[derive(Drop)]
pub struct Climbed<G: Tools> {
    pub kept: Counted<G>,
    pub hand: Hand,
}

impl<G: Tools> Part for Climbed<G> {
    type Whole = PassPlace;

    ghost ranks = { λ w. w.pass.ranks };

    ghost holds = { λ x w r. ⟦<Counted<G> as Part>⟧.holds x.kept w r × (x.hand ≡ climbed_hand w r) };
}

/// A rank before a round of the way down, of which there may be none.
#[derive(Drop)]
pub struct Falling<G: Tools> {
    pub kept: Counted<G>,
    pub round: u32,
    pub hand: Hand,
}

impl<G: Tools> Part for Falling<G> {
    type Whole = RoundPlace;

    ghost ranks = { λ w. w.at.pass.ranks };

    ghost holds = { λ x w r. ⟦<Counted<G> as Part>⟧.holds x.kept w.at r × HasHand going_down (bottom w.at.pass.ranks + 1) x.round x.hand w r };
}

/// A rank before a round of the way down that there is.
#[derive(Drop)]
pub struct FallTurn<G: Tools> {
    pub kept: Counted<G>,
    pub round: u32,
    pub hand: Hand,
}

impl<G: Tools> Part for FallTurn<G> {
    type Whole = RoundPlace;

    ghost ranks = { λ w. w.at.pass.ranks };

    ghost holds = { λ x w r. ⟦<Counted<G> as Part>⟧.holds x.kept w.at r × HasHand going_down (bottom w.at.pass.ranks) x.round x.hand w r };
}

/// A rank after the way down.
#[derive(Drop)]
pub struct Handed<G: Tools> {
    pub kept: Counted<G>,
    pub hand: Hand,
}

impl<G: Tools> Part for Handed<G> {
    type Whole = PassPlace;

    ghost ranks = { λ w. w.pass.ranks };

    ghost holds = { λ x w r. ⟦<Counted<G> as Part>⟧.holds x.kept w r × (x.hand ≡ last_hand w r) };
}
