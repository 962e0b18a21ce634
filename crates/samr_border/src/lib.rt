//! Periodic borders near a domain: to which image of a box a cell belongs.
//!
//! A cell at most one length outside of the frame wraps to a cell of it. How many lengths lie between
//! the two are its turns; they are the one shift by which an image of a box can have the cell.
#![tactic(auto)]

mod laws;
mod turning;

pub use laws::{
    cells_of_the_frame_stay, images_have_wrapped_cells, neighbours_are_near, one_image_has_a_cell,
    turns_lead_home, wrapping_twice_is_once, wraps_of_levels_agree,
};
pub use turning::turns;
