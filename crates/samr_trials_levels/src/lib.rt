//! Levels of blocks with first values, for whole runs in tests and benchmarks.
//!
//! From a domain and the sizes of blocks to level 0, to some of the blocks of the refined domain over it, to all overlaps by a look
//! at every two boxes, and to patches in which each cell has a value that its field, its coordinates and its level tell.
//! What a whole run rests on is tested here, so that no caller has to prove it.
#![tactic(auto)]

mod blocks;
mod fields;
mod pairs;
mod premises;
mod starting;

pub use blocks::{boxes_by_rank, kept_boxes};
pub use fields::strategies;
pub use pairs::{can_compare, pairs_if_any, pairs_of, same_ratio};
pub use premises::{
    are_fields, can_cover, can_hold, can_refine, finer_region, has_few, have_rooms, is_width,
    rules_of, widths_of,
};
pub use starting::{COARSE_START, FINE_START, all_patches, first_value};
