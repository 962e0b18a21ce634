//! The tags of a level, rank by rank: what the moving shapes tag, and the cells about it.
//!
//! By `Given` a rank is told which of its own cells a shape tags. The stage `Buffer` adds the cells within
//! the tag buffer, across the borders of boxes, ranks and the domain. The stage `Cover` adds the cells
//! that a new level two above needs below it.
#![tactic(auto)]

mod buffer;
mod buffer_on_all;
mod cells;
mod cover;
mod cover_on_all;
mod given;
mod law;
mod marking;
mod needs;
mod region;
mod scan;
mod seen;

pub use buffer::Buffer;
pub use buffer_on_all::buffer_all;
pub use cover::Cover;
pub use cover_on_all::cover_all;
pub use given::Given;
pub use law::{cover_law, small_covers_have_room, tags_law};
pub use seen::Seen;
