//! Lists of boxes: taking boxes away, common parts, growing, chopping, and what a list covers.
//!
//! A list of boxes is seen as the sets of cells of its members, in their order. Each call says
//! which boxes its result lists, and in how many of them each cell lies.
#![tactic(auto)]

mod chop;
mod cover;
mod cuts;
mod order;

pub use chop::chopped;
pub use cover::{covers, disjoint, grown, intersect};
pub use cuts::{subtract, subtract_each};
pub use order::in_corner_order;
