//! Worked rows of single calls of the geometry, of the rules and of the values. It has tests alone, which
//! stand here so that the crates below need not be proved twice.
#![tactic(auto)]

#[cfg(test)]
mod bits;
#[cfg(test)]
mod borders;
#[cfg(test)]
mod box_lists;
#[cfg(test)]
mod boxes;
#[cfg(test)]
mod fields;
#[cfg(test)]
mod levels;
#[cfg(test)]
mod loads;
#[cfg(test)]
mod look_ups;
#[cfg(test)]
mod nests;
#[cfg(test)]
mod operators;
#[cfg(test)]
mod patches;
#[cfg(test)]
mod peers;
#[cfg(test)]
mod planes;
#[cfg(test)]
mod rounds;
#[cfg(test)]
mod shapes;
#[cfg(test)]
mod signatures;
#[cfg(test)]
mod solids;
