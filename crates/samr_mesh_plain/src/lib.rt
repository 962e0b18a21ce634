//! The mesh by a plain and slow program that sees whole levels, for comparisons and as a help to read the
//! definition: each call makes one list of a pass and has its definition as contract.
//!
//! Read `mesh` first, which goes from level to level and from step to step, then `pass` and `passes` for one new
//! level, and then what makes its lists: `shaped`, `covered` and `tagged` the tags, `rooting`, `owners` and
//! `clusters` the clusters, `cutting` what is left of them, `balancing` the pieces and `refining` the level.
//! `domains` and `cells` are what these stand on.
#![tactic(auto)]

mod balancing;
mod cells;
mod clusters;
mod covered;
mod cutting;
mod domains;
mod mesh;
mod owners;
mod pass;
mod passes;
mod refining;
mod rooting;
mod shaped;
mod tagged;

pub use mesh::mesh_of;
pub use rooting::roots;
