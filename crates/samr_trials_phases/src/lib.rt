//! Thirty stages in five groups put together as phases, which shows what a long run costs to prove.
//! That it is a program is proved; it runs nothing.
#![tactic(auto)]

mod fives;
mod fours;
mod ones;
mod place;
mod run;
mod stage;
mod step;
mod threes;
mod told;
mod twos;

pub use fives::Fives;
pub use fours::Fours;
pub use ones::Ones;
pub use place::{At, AtPlace};
pub use run::{Thirty, ThirtyProgram, ThirtyStages, program};
pub use stage::Tell;
pub use step::{Along, Six, Telling};
pub use threes::Threes;
pub use told::Told;
pub use twos::Twos;
