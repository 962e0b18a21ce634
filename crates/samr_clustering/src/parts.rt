//! What a rank has between the stages of a clustering.

ghost use Rattle.std.specs.Prelude.{ℕ, ◌≡◌, ◌<◌, ◌≤◌};
ghost use Rattle.samr_cluster.specs.DecideParts.{reported_state};
ghost use Rattle.samr_msg.specs.PassStops.{clusters_at, open_rounds};
ghost use Rattle.samr_clustering.specs.Rounds.{IsKept, HasOpen, HasAllAccepted};

use samr_box::Listed;
use samr_cluster::{Accepted, Directed, Reported, Told};
use samr_phase::Part;
use samr_regrid::{Base, PassPlace, RoundPlace, Tools};
use samr_sign::{CutRule, TagField};

/// What a rank keeps through a round.
#[derive(Drop)]
pub struct Kept<G: Tools> {
    pub base: Base<G>,
    pub fields: Listed<TagField>,
    /// The boxes accepted in the rounds before this one whose nodes the rank is near.
    pub accepted: Listed<Accepted>,
    pub rule: CutRule,
    pub round: u32,
}

impl<G: Tools> Part for Kept<G> {
    type Whole = RoundPlace;

    ghost ranks = { λ w. w.at.pass.ranks };

    ghost holds = { λ x w r. ⟦<Base<G> as Part>⟧.holds x.base w.at r × IsKept x.fields x.accepted x.rule x.round w r };
}

/// A rank before a round, of which there may be none.
#[derive(Drop)]
pub struct Open<G: Tools> {
    pub kept: Kept<G>,
    pub told: Listed<Told>,
    pub directed: Listed<Directed>,
}

impl<G: Tools> Part for Open<G> {
    type Whole = RoundPlace;

    ghost ranks = { λ w. w.at.pass.ranks };

    ghost holds = { λ x w r. ⟦<Kept<G> as Part>⟧.holds x.kept w r × HasOpen x.told x.directed w r × (w.round ≤ open_rounds w.at) };
}

/// A rank before a round that there is.
#[derive(Drop)]
pub struct Turn<G: Tools> {
    pub kept: Kept<G>,
    pub told: Listed<Told>,
    pub directed: Listed<Directed>,
}

impl<G: Tools> Part for Turn<G> {
    type Whole = RoundPlace;

    ghost ranks = { λ w. w.at.pass.ranks };

    ghost holds = { λ x w r. ⟦<Kept<G> as Part>⟧.holds x.kept w r × HasOpen x.told x.directed w r × (w.round < open_rounds w.at) };
}

/// A rank once all have reported in a round.
#[derive(Drop)]
pub struct Heard<G: Tools> {
    pub kept: Kept<G>,
    pub reported: Reported,
}

impl<G: Tools> Part for Heard<G> {
    type Whole = RoundPlace;

    ghost ranks = { λ w. w.at.pass.ranks };

    ghost holds = { λ x w r. ⟦<Kept<G> as Part>⟧.holds x.kept w r × (x.reported ≡ reported_state (clusters_at w) r) × (w.round < open_rounds w.at) };
}

/// A rank with the boxes accepted in all rounds whose nodes it is near.
#[derive(Drop)]
pub struct Found<G: Tools> {
    pub base: Base<G>,
    pub accepted: Listed<Accepted>,
}

impl<G: Tools> Part for Found<G> {
    type Whole = PassPlace;

    ghost ranks = { λ w. w.pass.ranks };

    ghost holds = { λ x w r. ⟦<Base<G> as Part>⟧.holds x.base w r × HasAllAccepted x.accepted w r };
}
