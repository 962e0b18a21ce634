//! The nest cut: what of a cluster may become boxes of a finer level.
//!
//! A cell of a cluster stays where all cells of the domain within the nest width lie in the level,
//! round periodic borders too. The cut needs only the edges of one cluster to the level; contracts
//! speak of the whole level. So do those of what of a box the domain has and the level has not.
#![tactic(auto)]

mod cutting;
mod laws;
mod remains;
mod starts;

pub use cutting::cut;
pub use laws::{
    cuts_make_a_level, edges_of_one_cluster, small_frames_leave_room, starts_in_parts,
    starts_in_the_frame, worked_rows,
};
pub use remains::holes;
pub use starts::needed;
