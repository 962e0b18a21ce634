//! What a rank has of the new level between its bridges.

ghost use Rattle.std.specs.Prelude.{ℕ, ◌≡◌};
ghost use Rattle.samr_regrid.specs.Making.{new_part, above_down};

use samr_box::{IBox, Listed};
use samr_level::Pair;
use samr_phase::Part;
use samr_regrid::{Base, PassPlace, Tools};

/// A rank with its boxes of the new level, and their overlaps with the level below.
#[derive(Drop)]
pub(crate) struct Joined<G: Tools> {
    pub(crate) base: Base<G>,
    pub(crate) boxes: Listed<IBox>,
    pub(crate) under: Pair,
}

impl<G: Tools> Part for Joined<G> {
    type Whole = PassPlace;

    ghost ranks = { λ w. w.pass.ranks };

    ghost holds = { λ x w r. ⟦<Base<G> as Part>⟧.holds x.base w r
        × (x.boxes ≡ (new_part w r).boxes) × (x.under ≡ (new_part w r).under) };
}

/// A rank that knows the overlaps of the new level with the old level of its number, if there was one.
#[derive(Drop)]
pub(crate) struct Compared<G: Tools> {
    pub(crate) joined: Joined<G>,
    pub(crate) same: Option<Pair>,
}

impl<G: Tools> Part for Compared<G> {
    type Whole = PassPlace;

    ghost ranks = { λ w. w.pass.ranks };

    ghost holds = { λ x w r. ⟦<Joined<G> as Part>⟧.holds x.joined w r
        × (x.same ≡ (new_part w r).same) };
}

/// A rank that knows the overlaps of the new level with itself too.
#[derive(Drop)]
pub(crate) struct Meeting<G: Tools> {
    pub(crate) compared: Compared<G>,
    pub(crate) selves: Pair,
}

impl<G: Tools> Part for Meeting<G> {
    type Whole = PassPlace;

    ghost ranks = { λ w. w.pass.ranks };

    ghost holds = { λ x w r. ⟦<Compared<G> as Part>⟧.holds x.compared w r
        × (x.selves ≡ (new_part w r).selves) };
}

/// A rank that knows the overlaps of the new level two above with the new level too.
#[derive(Drop)]
pub(crate) struct Covered<G: Tools> {
    pub(crate) meeting: Meeting<G>,
    pub(crate) down: Option<Pair>,
}

impl<G: Tools> Part for Covered<G> {
    type Whole = PassPlace;

    ghost ranks = { λ w. w.pass.ranks };

    ghost holds = { λ x w r. ⟦<Meeting<G> as Part>⟧.holds x.meeting w r
        × (x.down ≡ above_down w r) };
}
