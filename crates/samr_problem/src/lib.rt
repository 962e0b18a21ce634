//! The problem text: a TOML document, read to a problem that is accepted or refused by its first fault.
#![tactic(auto)]

mod context;
mod document;
mod field;
mod finding;
mod keys;
mod lengths;
mod lists;
mod lookup;
mod names;
mod probe;
mod problem;
mod ranges;
mod read;
mod refusal;
mod tables;
mod text;
mod types;
mod walk;
mod width;

pub use field::{Field, Init};
pub use probe::Probe;
pub use problem::Problem;
pub use read::read_problem;
pub use refusal::{Refusal, Unread};
pub use text::Text;
