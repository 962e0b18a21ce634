//! Ranks that run beside each other, tried with the programs of this repository: whole runs in
//! threads over a fabric. It has tests alone, of what crosses crates.
#![tactic(auto)]

#[cfg(test)]
mod alarms;
#[cfg(test)]
mod breaking;
#[cfg(test)]
mod gates;
#[cfg(test)]
mod relays;
#[cfg(test)]
mod sums;
#[cfg(test)]
mod tests;
