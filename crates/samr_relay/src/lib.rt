//! Numbers passed on between ranks: in each round one rank tells others the number of the round,
//! counted from one, and each rank adds up what it is told. In a ring each rank tells the next one
//! in turn; in a flood each tells every other so many numbers, and waits for none.
#![tactic(auto)]

mod mail;
mod relay;
mod run;

pub use mail::RelayMail;
pub use relay::Relay;
pub use run::{Pattern, RelayRun};
