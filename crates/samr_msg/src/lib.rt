//! The run of a problem on some ranks: which labels each visits, and what each letter says.
//!
//! The run is defined by whole levels and hierarchies, stage by stage, in `specs/`; no rank and no letter is asked. A letter's
//! type keeps that its body is the run's for its name.
#![tactic(auto)]

mod body;
mod carried;
mod copies;
mod letter;
mod run;

pub use body::Body;
pub use letter::Letter;
pub use run::Run;
