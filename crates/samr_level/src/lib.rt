//! Levels of boxes with owners, the connectors between them, and level 0.
//!
//! A level is a list of boxes that all ranks own together; no rank holds it. Contracts speak of whole
//! levels, and each rank keeps its part of a level and its connectors to others.
#![tactic(auto)]

mod blocks;
mod cut;
mod laws;
mod layout;
mod order;
mod overlap;
mod parts;
mod refs;
mod region;
mod ruler;
mod shift;
mod width;

pub use blocks::{level0, level0_pair, whole_level0};
pub use laws::refined_levels_are_levels;
pub use order::{in_level_order, settled};
pub use overlap::true_overlaps_of;
pub use parts::{Connector, Mapping, Move, Pair, Part, peers};
pub use refs::{BoxRef, Edge};
pub use region::Region;
pub use ruler::{Ruler, overlaps};
pub use shift::shifts;
pub use width::{coarse_width, fine_width};
