//! Fills: every cell of every patch of a level gets its value.
//!
//! A rank tells the others what their ghost cells have of its patches, each rank writes what it was told into
//! its own, and last come the cells beyond the borders. Contracts speak of the values of whole levels.
#![tactic(auto)]

mod coarse;
mod ending;
mod fill;
mod fill_on_all;
mod filling;
mod laws;
mod letters;
mod parts;
mod sending;
mod sorting;
mod writing;

pub use fill::Fill;
pub use fill_on_all::fill_all;
pub use laws::{copies_agree, the_level_keeps_its_values, values_fit, values_of_rows};

#[cfg(test)]
mod tests;
