//! How the bodies of all stages stand in the letters of a run.

mod balancing;
mod clustering;
mod connecting;
mod filling;
mod tagging;
