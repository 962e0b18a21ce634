//! How many cells the nest cut leaves on all ranks: each rank cuts its own clusters and counts what is
//! left, the numbers go up the tree of the ranks, and the sum goes down it.
//!
//! Read `rounds` first, then `loads`, `going_up` and `going_down`, and then `group`. `clusters`,
//! `cutting` and `cuts` find the clusters of a rank, and cut them.
#![tactic(auto)]

mod clusters;
mod cuts;
mod cutting;
mod going_down;
mod going_up;
mod group;
mod loads;
mod rounds;
mod seats;
mod turns;

pub use group::Counting;
