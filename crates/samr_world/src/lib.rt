//! The pure core of a run without shared memory: the machines of all ranks in one value, with the
//! letters in flight between them. Every schedule of turns, deliveries, repeats and losses can be
//! played on it, and whatever the schedule each rank is where the run's definition has it.
#![tactic(auto)]

mod choices;
mod event;
mod traffic;
mod world;

pub use choices::Choices;
pub use event::Event;
pub use world::World;
