//! New values and coarsening of levels of blocks as whole runs, for tests and benchmarks.
//!
//! From a domain, the sizes of blocks and the rules of fields to the patches of all ranks: at first each cell has a value that
//! its field, its coordinates and its level tell. Every premise is tested on the way, and a run with a number that is not fit
//! gives nothing. Contracts say that what is given is the new level, or the coarsened one, as a whole.
#![tactic(auto)]

mod coarsenings;
mod merges;
mod renewals;
mod strategies;

pub use coarsenings::coarsen;
pub use renewals::renew;
pub use strategies::renew_by_rules;

#[cfg(test)]
mod tests;
