//! What a rank has between the two stages of the tags.

ghost use Rattle.std.specs.Prelude.{ℕ};
ghost use Rattle.samr_level.specs.Levels.{own_boxes};
ghost use Rattle.samr_sign.specs.Fields.{AreTags};
ghost use Rattle.samr_tags.specs.Buffer.{tags_of};
ghost use Rattle.samr_mesh.specs.Passes.{tagging};

use samr_box::Listed;
use samr_phase::Part;
use samr_regrid::{Base, PassPlace, Tools};
use samr_sign::TagField;

/// A rank with the tags of its boxes of the level, without what the new level two above needs.
#[derive(Drop)]
pub struct Buffered<G: Tools> {
    pub base: Base<G>,
    pub fields: Listed<TagField>,
}

impl<G: Tools> Part for Buffered<G> {
    type Whole = PassPlace;

    ghost ranks = { λ w. w.pass.ranks };

    ghost holds = { λ x w r. ⟦<Base<G> as Part>⟧.holds x.base w r
        × AreTags (own_boxes r w.pass.level) (tags_of (tagging w.at.setting.problem w.pass)) x.fields };
}
