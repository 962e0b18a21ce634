//! A rank's part of a long run, put together of stages.
#![tactic(auto)]

mod bodied;
mod either;
mod journey;
mod made;
mod one;
mod part;
mod phase;
mod repeat;
mod running;
mod step;
mod then;
mod turns;
mod went;

pub use bodied::Bodied;
pub use either::{Choice, Either};
pub use journey::Journey;
pub use made::{Made, Making};
pub use one::One;
pub use part::Part;
pub use phase::Phase;
pub use repeat::Repeat;
pub use running::{Running, State};
pub use step::{Begun, Step};
pub use then::Then;
pub use turns::Turns;
pub use went::Went;
