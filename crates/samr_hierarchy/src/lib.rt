//! The values over whole levels: the hierarchy of levels and values after each step, what each stage of a run gets of
//! it, and what is promised of both.
//!
//! A hierarchy is a list of levels with a value of each field in each cell. A step gives the cells of new levels their
//! values, updates all levels at once from what their ghost cells see, and coarsens from fine to coarse. No letter and
//! no program stands here. The functions of `laws` have no body to speak of: the contract of each is a law on these
//! definitions, and `soundness` says all that is promised of the meshes and values of an accepted problem.
#![tactic(auto)]

mod laws;

pub use laws::{
    asks_begin, coarse_patches, coarsen_rounds, coarsenings_begin, coarsenings_hold,
    each_cell_has_one_origin, each_ghost_cell_once, each_step_is_sound, filled_can_be_updated,
    fills_begin, fills_hold, first_new_patches, first_renewals_begin, first_renewals_hold,
    first_values_fit, hierarchies_agree, hierarchies_are_sound, level_0_keeps_its_patches,
    new_patches, others_keep_their_patches, patches_have_values, problems_have_ground,
    problems_have_meshes, ranks_do_not_matter_to_values, renewals_begin, renewals_hold,
    schedules_hold, soundness, steps_agree, steps_fit, updates_patches, values_come_from_sources,
};
