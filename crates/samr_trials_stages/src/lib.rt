//! Each stage of a regrid and of the schedules for fills tried on all ranks: on levels by hand with the expected
//! results beside them, and on drawn levels against programs that see the whole level. It has tests alone, each over
//! a call that first tests what the stage asks of its numbers.
#![tactic(auto)]

#[cfg(test)]
mod asks;
#[cfg(test)]
mod balances;
#[cfg(test)]
mod bridges;
#[cfg(test)]
mod clusters;
#[cfg(test)]
mod covers;
#[cfg(test)]
mod levels;
#[cfg(test)]
mod modifies;
#[cfg(test)]
mod planned;
#[cfg(test)]
mod tags;
