//! Problems made of a seed and a size: some balls that move over a periodic square, three levels deep.
//!
//! The same seed and size give the same problem everywhere. It can be had as a problem and as the text
//! that reads back as it.
#![tactic(auto)]

mod draws;
mod problem;
mod text;

pub use problem::make_problem;
pub use text::make_text;
