//! The top call: what the program answers to its words and its input, whole.
#![tactic(auto)]

mod answer;
mod plain;
mod reply;
mod words;

pub use plain::{Status, samr_plain};
