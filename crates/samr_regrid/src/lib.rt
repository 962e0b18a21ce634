//! What a rank has of a run as it regrids: before a pass, and between the groups of its phases.
//!
//! Read `level` first, then `base`, and then `parts`.
#![tactic(auto)]

mod base;
mod book;
mod level;
mod parts;
mod places;
mod tools;

pub use base::Base;
pub use book::Book;
pub use level::{Above, Fresh, Level};
pub use parts::{Clustered, Connected, Counted, Cut, Shared, Tagged};
pub use places::{PassPlace, RegridPlace, RoundPlace, StepPlace, TurnPlace};
pub use tools::{Kit, Tools};
