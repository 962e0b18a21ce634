//! The clusters of a set of tags, and the rounds by which ranks find them.
//!
//! A box is dropped, accepted or cut in two by its signature alone, and the parts go on by the same
//! rule. In rounds all open nodes are decided at once, from the sums of what the ranks near them
//! count. The definitions speak of whole sets of tags; the laws tie them to what one rank is told.
#![tactic(auto)]

mod clusters;
mod laws;
mod near;
mod owner;
mod roots;

pub use clusters::clusters_of;
pub use laws::{
    blocks_are_roots, clusters_cover_tags, clusters_have_tags, clusters_make_a_level,
    clusters_stay_apart, counts_stay_when_shrunk, cuts_end, near_clusters_are_told,
    near_counts_tell_the_owner, near_goes_down, near_signatures_add_up, near_where_tagged,
    open_nodes_are_nodes, own_counts_add_up, owners_have_most, roots_are_directed, rounds_end,
    rounds_take_the_clusters, the_far_have_none, the_level_has_the_clusters, the_near_are_told,
};
pub use near::is_near;
pub use owner::{RankTags, owner_of_counts};
pub use roots::directed;
