//! Boxes of cells on a whole-number grid: the types of the geometry.
//!
//! A box is its set of cells. Contracts see it as its two corners, and say of each call which cells
//! its result has. Nothing here takes memory but a copy of a `Listed`.
#![tactic(auto)]

mod borders;
mod ibox;
mod listed;
mod orders;
mod ratios;
mod space;
mod vector;

pub use borders::{clamp_axis, images_meet, is_outside, mirror_axis, shifted, wrap};
pub use ibox::{
    IBox, boxes_meet, cells, contains, grow, holds_box, longest, meet, split_after, split_at,
};
pub use listed::Listed;
pub use orders::{cell_order, corner_order, shift_order};
pub use ratios::{coarsen, coarsen_cell, refine};
pub use space::{Domain, Flags, Ratio, Shift};
pub use vector::{Axis, IVec};
