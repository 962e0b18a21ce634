//! What a rank has between the groups of phases of a pass.

ghost use Rattle.std.specs.Prelude.{ℕ, ◌≡◌};
ghost use Rattle.samr_level.specs.Levels.{own_boxes};
ghost use Rattle.samr_sign.specs.Fields.{AreTags};
ghost use Rattle.samr_load.specs.Balanced.{cells_in};
ghost use Rattle.samr_modify.specs.Modify.{old_pair};
ghost use Rattle.samr_modify.specs.ModifyParts.{ArePieces};
ghost use Rattle.samr_modify.specs.Entries.{moves_of};
ghost use Rattle.samr_mesh.specs.Passes.{tags_in, cuts_of, cut_level};
ghost use Rattle.samr_wholes.specs.Wholes.{modifying};
ghost use Rattle.samr_regrid.specs.Making.{new_part, above_down};

use crate::base::Base;
use crate::level::Fresh;
use crate::places::{PassPlace, TurnPlace};
use crate::tools::Tools;
use samr_box::Listed;
use samr_data::Patch;
use samr_level::{Move, Pair};
use samr_modify::NewBox;
use samr_phase::Part;
use samr_sign::TagField;

/// A rank with the tags of its boxes of the level.
#[derive(Drop)]
pub struct Tagged<G: Tools> {
    pub base: Base<G>,
    pub fields: Listed<TagField>,
}

impl<G: Tools> Part for Tagged<G> {
    type Whole = PassPlace;

    ghost ranks = { λ w. w.pass.ranks };

    ghost holds = { λ x w r. ⟦<Base<G> as Part>⟧.holds x.base w r
        × AreTags (own_boxes r w.pass.level) (tags_in w.at.setting.problem w.pass) x.fields };
}

/// A rank with the overlaps of the level with its clusters.
#[derive(Drop)]
pub struct Clustered<G: Tools> {
    pub base: Base<G>,
    pub clusters: Pair,
}

impl<G: Tools> Part for Clustered<G> {
    type Whole = PassPlace;

    ghost ranks = { λ w. w.pass.ranks };

    ghost holds = { λ x w r. ⟦<Base<G> as Part>⟧.holds x.base w r
        × (x.clusters ≡ old_pair (modifying w.at.setting.problem w.pass) r) };
}

/// A rank with what the nest cut leaves of each of its clusters.
#[derive(Drop)]
pub struct Cut<G: Tools> {
    pub base: Base<G>,
    pub clusters: Pair,
    pub cuts: Listed<Move>,
}

impl<G: Tools> Part for Cut<G> {
    type Whole = PassPlace;

    ghost ranks = { λ w. w.pass.ranks };

    ghost holds = { λ x w r. ⟦<Base<G> as Part>⟧.holds x.base w r
        × (x.clusters ≡ old_pair (modifying w.at.setting.problem w.pass) r)
        × (x.cuts ≡ moves_of r (cuts_of w.at.setting.problem w.pass)) };
}

/// A rank that knows how many cells the cuts leave on all ranks.
#[derive(Drop)]
pub struct Counted<G: Tools> {
    pub cut: Cut<G>,
    pub total: u64,
}

impl<G: Tools> Part for Counted<G> {
    type Whole = PassPlace;

    ghost ranks = { λ w. w.pass.ranks };

    ghost holds = { λ x w r. ⟦<Cut<G> as Part>⟧.holds x.cut w r
        × (x.total ≡ cells_in (cut_level w.at.setting.problem w.pass)) };
}

/// A rank with its share of the cells that the cuts leave: its pieces, and the pieces of all ranks
/// that take the place of each of its clusters.
#[derive(Drop)]
pub struct Shared<G: Tools> {
    pub base: Base<G>,
    pub clusters: Pair,
    pub moves: Listed<Move>,
    pub pieces: Listed<NewBox>,
}

impl<G: Tools> Part for Shared<G> {
    type Whole = PassPlace;

    ghost ranks = { λ w. w.pass.ranks };

    ghost holds = { λ x w r. ⟦<Base<G> as Part>⟧.holds x.base w r
        × (x.clusters ≡ old_pair (modifying w.at.setting.problem w.pass) r)
        × (x.moves ≡ moves_of r (modifying w.at.setting.problem w.pass).moves)
        × ArePieces (modifying w.at.setting.problem w.pass) r x.pieces };
}

/// A rank with its boxes of the new level and all their overlaps.
#[derive(Drop)]
pub struct Connected<G: Tools> {
    pub base: Base<G>,
    pub new: Fresh,
    /// The overlaps of the new level two above with the new level.
    pub down: Option<Pair>,
}

impl<G: Tools> Part for Connected<G> {
    type Whole = PassPlace;

    ghost ranks = { λ w. w.pass.ranks };

    ghost holds = { λ x w r. ⟦<Base<G> as Part>⟧.holds x.base w r
        × (x.new ≡ new_part w r) × (x.down ≡ above_down w r) };
}
