//! One rank's part of a run without shared memory: the labels that it visits in turn, the letters
//! that it gives out and waits for at each, and the machine that takes it from label to label
//! whatever the order in which letters come. What the ranks do at a label is a stage: it is said of
//! a whole that no rank has, of which each holds a part. `exchange` runs a stage on all ranks at
//! once, and a program enters, waits and finishes by `enter_stage`, `ready_stage` and `finish_stage`.
#![tactic(auto)]

mod all_ranks;
mod carried;
mod kept;
mod label;
mod machine;
mod mail;
mod program;
mod stage;
mod turn;
mod work;

pub use all_ranks::exchange;
pub use carried::{Carried, enter_stage, finish_stage, ready_stage};
pub use label::{Label, Name};
pub use machine::Machine;
pub use mail::Mail;
pub use program::Program;
pub use stage::{Held, Stage};
pub use turn::Turn;
