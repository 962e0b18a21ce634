//! Ranks that run beside each other. A driver takes the machine of one rank through its run by the
//! rank's end of a fabric, whatever the run and the fabric, and `run_ranks` starts a thread for each
//! rank of a run.
#![tactic(auto)]

mod driver;
mod gate;
mod halt;
mod kept;
mod ranks;
mod run;
mod slot;
mod step;
mod stop;
mod thread_of;

pub use driver::drive;
pub use gate::{Gate, OpenGate};
pub use halt::{Alarm, Bell, Halt};
pub use run::run_ranks;
pub use stop::Stop;
