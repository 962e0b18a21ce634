//! What the boxes of a level are checked against.

use samr_box::{IBox, Listed, Ratio};
use samr_level::BoxRef;

/// What the boxes of a level are checked against: the boxes whose cells its domain has, the number of
/// ranks, its number, the boxes of level 0, and the ratio of the level below to it.
#[derive(Drop)]
pub(crate) struct Ground {
    pub domain: Listed<IBox>,
    pub ranks: u16,
    pub number: u64,
    pub base: Listed<BoxRef>,
    pub step: Ratio,
}
