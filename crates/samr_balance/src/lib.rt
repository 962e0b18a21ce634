//! The balance of load over the tree of the ranks, as stages: round by round ranks give what they have
//! too much up the tree, and what others need down it; then each tells the owners of boxes which pieces
//! of these it has, and each owner has its boxes mapped to their pieces.
//!
//! Contracts say of each rank that it has its part of the one balance that `samr_load` defines over
//! the whole list of boxes.
#![tactic(auto)]

mod cuttings;
mod hands;
mod home;
mod homed;
mod laws;
mod on_all;
mod turns;
mod way_down;
mod way_up;

pub use cuttings::Cutting;
pub use hands::{Gift, Hand, Needs};
pub use home::Home;
pub use homed::Homed;
pub use laws::{hands_stay, letters_go_home};
pub use on_all::balance_all;
pub use way_down::Down;
pub use way_up::Up;
