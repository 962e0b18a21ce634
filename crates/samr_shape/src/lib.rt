//! Moving shapes, which tag the cells that they meet.
#![tactic(auto)]

mod shape;
mod tagging;

pub use shape::Shape;
pub use tagging::tags;
