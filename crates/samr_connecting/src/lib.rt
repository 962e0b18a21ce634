//! The overlaps of the level that a pass makes: with the level below it, with itself, and with the levels that stand about it.
//!
//! Read `parts` first, then `modifying`, and then `bridging`.
#![tactic(auto)]

mod bridging;
mod connecting;
mod from_above;
mod modifying;
mod news;
mod pairs;
mod parts;
mod to_below;
mod to_itself;
mod to_old;

pub use connecting::Connecting;
