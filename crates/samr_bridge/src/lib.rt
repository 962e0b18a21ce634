//! Bridges: all true overlaps of two levels, found through their overlaps with a third.
//!
//! The levels are called east and west, and the third, which has all cells of the east, the centre.
//! No rank holds a level. The rank of a centre box knows the boxes of both sides that overlap it, tests
//! each two of them, and tells their owners. `bridge_law` says why nothing is missed.
#![tactic(auto)]

mod bridge;
mod bridge_on_all;
mod edges;
mod law;
mod pairs;
mod search;
mod window;

pub use bridge::Bridge;
pub use bridge_on_all::bridge_all;
pub use law::bridge_law;
pub use search::found;
