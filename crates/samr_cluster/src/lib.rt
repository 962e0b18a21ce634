//! The clustering on any number of ranks.
//!
//! No rank holds the tags, the roots' parts or the clusters. The ranks that are near a node count their
//! tags in it, its director decides on the sum, and the box that is accepted of it belongs to the rank
//! with most tags in it. In the end the ranks near a box's node tell the box's owner of the overlaps.
#![tactic(auto)]

mod accepted;
mod addressees;
mod cluster_on_all;
mod connectors;
mod counting;
mod decide;
mod edges;
mod laws;
mod next_round;
mod nodes;
mod on_all;
mod report;
mod signing;
mod verdict;

pub use accepted::Accepted;
pub use cluster_on_all::{cluster_all, first_directed, first_nodes, first_told};
pub use decide::Decide;
pub use edges::Edges;
pub use laws::{rounds_tell_the_accepted, the_asked_were_told};
pub use nodes::{Counted, Decided, Directed, OpenNodes, Reported, Told};
pub use on_all::{decide_all, edges_all, report_all};
pub use report::Report;
pub use verdict::{Ruling, Verdict};
