//! Look-up of boxes: which boxes of a list meet a box.
//!
//! A finder sorts its boxes into the buckets of a grid whose edge is the greatest length of a box on
//! each axis, so each box stands in at most eight buckets. A query looks into the buckets that it
//! meets, or at each box where these are fewer.
#![tactic(auto)]

mod buckets;
mod cells;
mod edge;
mod finder;

pub use finder::Finder;
