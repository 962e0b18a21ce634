//! The byte edges of the program: a source that gives bytes and counts its faults, a sink that takes
//! bytes and counts its faults, their ends in memory and over std's readers and writers, and two
//! whole transfers: everything up to a limit, and a whole text.
#![tactic(auto)]

mod failed;
mod memory;
mod sink;
mod source;
mod standard;

pub use failed::{Failed, ReadError};
pub use memory::{MemSink, MemSource};
pub use sink::{Sink, write_whole};
pub use source::{Source, read_up_to};
pub use standard::{StdSink, StdSource};
