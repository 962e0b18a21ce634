//! The clustering of a pass of a regrid, as a phase of a run: from tags to overlaps with clusters.
//!
//! Read `parts` first, what a rank has between the stages, then `reporting`, `deciding` and `edging`,
//! one stage each, then `rounds`, how often the first two are gone through, and `roots`, with which
//! the rounds begin.
#![tactic(auto)]

mod any;
mod clustering;
mod deciding;
mod edging;
mod parts;
mod ratio;
mod reporting;
mod roots;
mod rounds;

pub use clustering::Clustering;
