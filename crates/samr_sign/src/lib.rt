//! Tag fields, the signatures of boxes and the cut decision.
//!
//! A field has one bit for each cell of its box. A signature has the number of tagged cells of each
//! plane of a box, on each axis; signatures of disjoint fields add up. From a signature alone
//! `decide` drops a box, accepts it or cuts it in two.
#![tactic(auto)]

mod choice;
mod cuts;
mod decision;
mod field;
mod laws;
mod line;
mod planes;
mod rule;
mod signature;

pub use choice::decide;
pub use decision::Decision;
pub use field::TagField;
pub use laws::{each_decision_is_a_fate, shrinking_keeps_tags, shrinking_stays_inside};
pub use rule::CutRule;
pub use signature::{Signature, counts_add_up, signatures_add_up};
