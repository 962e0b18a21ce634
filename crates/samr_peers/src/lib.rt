//! Letters between ranks whose boxes overlap.
//!
//! Most stages have rows of one kind: a rank tells each other owner of a head of some of its edges, and is
//! told by each other owner of a head of the edges back. This crate has that row, and the lemmas that
//! such a stage cites: which letters a rank gives out, how many come for it, and what is in them.
#![tactic(auto)]

mod owners;

pub use owners::other_owners;
