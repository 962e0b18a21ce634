//! Values of patches: those of a new level, those of a level under a finer one, and those after an update.
//!
//! A new level takes the values of the old level of its number where that has the cell, and else those of the level
//! below by the refine operator. In a step each cell gets a new value from its own and those at its faces, and then each
//! cell under a finer level gets what the coarsening rule makes of the cells over it.
#![tactic(auto)]

mod coarsen;
mod coarsen_on_all;
mod coarsened;
mod laws;
mod merging;
mod packing;
mod pouring;
mod renewing;
mod sending;
mod update;
mod values;
mod values_on_all;

pub use coarsen::Coarsen;
pub use coarsen_on_all::coarsen_all;
pub use laws::{merged_values_fit, new_values_fit, others_keep_theirs, values_of_rows};
pub use update::updated_patches;
pub use values::Values;
pub use values_on_all::values_all;

#[cfg(test)]
mod tests;
