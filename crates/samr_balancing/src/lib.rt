//! The balance of a pass of a regrid, as a phase of a run: from what the cut leaves of the clusters to
//! each rank's share of it.
//!
//! Read `parts` first, what a rank has between the rounds, then `climbing`, `falling` and `homing`, one
//! stage each, and `first`, with which the rounds begin.
#![tactic(auto)]

mod balancing;
mod climbing;
mod falling;
mod first;
mod homing;
mod parts;
mod shared;
mod turns;

pub use balancing::Balancing;
