//! The tags of a level in a pass of a regrid: those of the shapes with the cells about them, and what
//! the new level two above needs.
//!
//! Read `buffered` first, then `shapes` and `covers`, and then `group`.
#![tactic(auto)]

mod buffered;
mod covers;
mod group;
mod shapes;

pub use group::Tagging;
