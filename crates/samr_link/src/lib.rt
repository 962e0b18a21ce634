//! Inboxes between the ranks of a run, whatever letters they carry. A rank has an end, by which it
//! posts letters into the inbox of any rank and takes letters from its own. A fabric makes the ends
//! of all ranks, and takes them back and leaves the journals of what was posted and taken.
#![tactic(auto)]

mod fabric;
mod inbox;
mod link;
mod making;
mod odd;
mod odd_end;
mod queue;
mod queue_end;
mod settling;
mod sleepers;

pub use fabric::Fabric;
pub use inbox::ROOM;
pub use link::Link;
pub use odd::OddFabric;
pub use odd_end::OddEnd;
pub use queue::QueueFabric;
pub use queue_end::QueueEnd;
