//! What a rank has of one level.

use samr_box::{IBox, Listed};
use samr_data::Patch;
use samr_level::Pair;

/// What a rank has of a level: its own boxes, their overlaps with the level itself and with the
/// level below, each with the overlaps back, and their patches by field.
///
/// It has no box but its own ones and the heads of its own edges.
#[derive(Drop)]
pub struct Level {
    pub boxes: Listed<IBox>,
    pub selves: Pair,
    /// `None` for level 0.
    pub down: Option<Pair>,
    pub patches: Listed<Listed<Patch>>,
}

/// A new level while the one below it is not made: the overlaps are with the old levels.
#[derive(Drop)]
pub struct Above {
    pub boxes: Listed<IBox>,
    pub selves: Pair,
    /// With the old level one below.
    pub under: Pair,
    /// With the old level two below.
    pub cover: Pair,
    pub patches: Listed<Listed<Patch>>,
}

/// The level that a pass makes, before it has values.
#[derive(Drop)]
pub struct Fresh {
    pub boxes: Listed<IBox>,
    pub selves: Pair,
    /// With the old level one below.
    pub under: Pair,
    /// With the old level of the same number.
    pub same: Option<Pair>,
    /// With the old level two below.
    pub cover: Option<Pair>,
}
