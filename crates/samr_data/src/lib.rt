//! Patches: the values of a field on a box and its ghost cells.
//!
//! A patch has a value for each cell of its box, grown by its width, in row order: `i` fastest, then
//! `j`, then `k`. Regions are copied, packed and unpacked by whole rows. A parcel takes the values of a region from one
//! rank to another.
#![tactic(auto)]

mod laws;
mod order;
mod parcel;
mod patch;
mod places;
mod rows;
mod writes;

pub use laws::{copies_region, has_its_values, is_its_values, keeps_others};
pub use order::in_parcel_order;
pub use parcel::Parcel;
pub use patch::Patch;
pub use places::{cell_at, place};
