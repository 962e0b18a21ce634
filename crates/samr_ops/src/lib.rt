//! The rules by which values pass between levels, across physical borders and from step to step.
//!
//! A strategy keeps the rules of a field beside three closures, the refine operator, the boundary and
//! the update, and the facts that these give what the rules say. Nothing here takes memory.
#![tactic(auto)]

mod coarsen;
mod laws;
mod rules;
mod strategy;
mod walk;

pub use coarsen::coarsen_values;
pub use laws::{
    clamp_moves_to_the_nearest, coarsened_values_fit, fixed_values_fit, grown_cells_are_near,
    max_is_the_greatest, refined_values_fit, reflect_mirrors, updated_values_fit, walks_end_inside,
    walks_of_rows, walks_stay_inside, walks_stay_near,
};
pub use rules::{Border, CoarsenRule, Edgewise, RefineRule, Rule, Rules, edge, refined, updated};
pub use strategy::{Bounds, Refines, Strategy, Updates};
