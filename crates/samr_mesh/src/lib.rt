//! The mesh: the levels of a run after each step, as plain lists of boxes with their owners, and what is true of them.
//!
//! No rank, no letter and no program stands here. The definitions are of whole levels: domains and ratios, one pass of
//! a regrid from tags to the new level, the levels after each step, and the passes of a regrid as a list. The functions
//! of `laws` have no body to speak of: the contract of each is a law on these definitions, which a crate above cites.
#![tactic(auto)]

mod laws;

pub use laws::{
    covers_keep_nesting, ghosts_have_sources, meshes_are_sound, passes_are_sound,
    problems_have_domains, ranks_do_not_matter, regrids_are_passes, regrids_lie_over, worked_rows,
};
