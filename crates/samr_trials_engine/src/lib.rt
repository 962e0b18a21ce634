//! The public calls of the engine, worked by hand: machines turn by turn, a world event by event, the
//! tree of the ranks, relays and inboxes. It has tests alone.
#![tactic(auto)]

#[cfg(test)]
mod inboxes;
#[cfg(test)]
mod machines;
#[cfg(test)]
mod relays;
#[cfg(test)]
mod teller;
#[cfg(test)]
mod trees;
#[cfg(test)]
mod worlds;
