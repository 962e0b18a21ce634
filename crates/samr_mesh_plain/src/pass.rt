//! A pass of a regrid, with the levels that it sees.

ghost use Rattle.std.specs.Prelude.{◌≡◌};

use samr_box::Listed;
use samr_level::BoxRef;
use std::marker::Model;

/// A pass over a level, on so many ranks, at a step. `number` is the level's, and `above` is the new level two
/// above it, empty where there is none.
#[derive(Debug, Drop)]
pub(crate) struct Pass {
    pub ranks: u16,
    pub step: u32,
    pub number: u8,
    pub level: Listed<BoxRef>,
    pub above: Listed<BoxRef>,
}

impl Model for Pass {
    ghost use Rattle.samr_mesh.specs.Passes.{Pass as Seen};

    ghost Value = { Seen };

    ghost view = { λ w. record { ranks = w.ranks; step = w.step; number = w.number; level = w.level; above = w.above } };
}

impl Pass {
    /// The boxes of the level.
    pub(crate) fn boxes(&self) -> &[BoxRef]
        ensures { result.now ≡ self.now.level }
    {
        self.level.as_slice()
    }

    /// The boxes of the new level two above.
    pub(crate) fn fine(&self) -> &[BoxRef]
        ensures { result.now ≡ self.now.above }
    {
        self.above.as_slice()
    }
}
