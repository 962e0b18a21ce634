//! Formats of bytes with their laws: what was spelled reads back, and what reads was spelled so.
//!
//! A type has a format by `trait Format`. Numbers, pairs and lists have one here, and `example` shows
//! how a struct and an enum get theirs: from those of their parts, with the law put together alike.
#![tactic(auto)]

mod example;
mod format;
mod lists;
mod numbers;
mod pairs;
mod unread;
mod whole;

pub use example::{Note, Span, echo};
pub use format::Format;
pub use unread::Unread;
pub use whole::{from_bytes, to_bytes};
