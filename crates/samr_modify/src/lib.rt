//! Modifying: the overlaps of a level with a new level whose boxes take the places of those of an old one.
//!
//! The level that stays is called the anchor. No rank holds a level. The rank of an old box knows the new
//! boxes that lie in it and the anchors that overlap it. It tells the owners of these anchors the new
//! boxes, and the owners of the new boxes the anchors. `modify_law` says why nothing is missed.
#![tactic(auto)]

mod entries;
mod known;
mod law;
mod leading;
mod letters;
mod modify;
mod modify_on_all;
mod owners;
mod taking;

pub use entries::{NewBox, Replaced};
pub use law::modify_law;
pub use modify::Modify;
pub use modify_on_all::modify_all;
