//! Words of 64 bits as one row of bits: bit `p` is bit `p % 64` of word `p / 64`.
//!
//! Bits are read and set one at a time or as a run, and counted by whole words. Nothing here takes
//! memory.
#![tactic(auto)]

mod count;
mod edit;

pub use count::{count_bits, count_run};
pub use edit::{get_bit, set_bit, set_run};
