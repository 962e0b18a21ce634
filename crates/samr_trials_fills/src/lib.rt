//! Fills of level 0 and of a level over it as whole runs, for tests and benchmarks.
//!
//! From a domain, the sizes of blocks and the rules of fields to the patches of all ranks: each cell has at first a value that
//! its field, its coordinates and its level tell, the ranks ask each other for what their ghost cells
//! need, and then all cells get their values. Every premise of the plans and of the fill is tested on the way, and a run with a
//! number that is not fit gives nothing. Contracts say that what is given is the fill of the whole level.
#![tactic(auto)]

mod counting;
mod planning;
mod premises;
mod prepared;
mod strategies;

pub use counting::rows;
pub use prepared::{Prepared, prepare, prepare_over};
pub use strategies::fill;

#[cfg(test)]
mod plain;
#[cfg(test)]
mod tests;
