//! The programs of this repository tried under every kind of schedule: whole runs on worlds, with
//! drawn orders of turns and letters, letters that come twice and letters that are lost. It has
//! tests alone, of what crosses crates: an engine with the programs that stand on it.
#![tactic(auto)]

#[cfg(test)]
mod draws;
#[cfg(test)]
mod sums;
#[cfg(test)]
mod tests;
