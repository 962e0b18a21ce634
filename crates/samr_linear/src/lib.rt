//! Linear refinement: ghost cells over a coarser level get values by the slopes of that level.
//!
//! A fine value is that of the cell over it and, along each real axis, the slope between the neighbours of that cell times
//! how far the middle of the fine cell lies from the middle of the coarse one. Contracts speak of the values of whole
//! levels, each with its ghost cells, level by level upwards.
#![tactic(auto)]

mod coarse;
mod ending;
mod filling;
mod laws;
mod letters;
mod linear;
mod linear_fill;
mod part;
mod parts;
mod scratch;
mod sending;
mod sorting;
mod stencil;
mod writing;

pub use laws::{
    a_row_of_values, answers_are_the_row, lin_vals_fit, linear_fillings_hold, linear_numbers,
    linear_values_fit, only_real_axes_count, scratch_gives_the_value, scratch_is_enough,
    stage_gives_lin_val, the_level_keeps_its_values,
};
pub use linear::{Linear, refined_linearly};
pub use linear_fill::LinearFill;
pub use stencil::{RefinesLinearly, Stencil, value_by};
