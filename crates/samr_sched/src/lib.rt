//! Schedules: where each ghost cell gets its value from.
//!
//! Of the cells around a box, those beyond the borders get theirs from the boundary, those in a box of the level
//! from that box, and all others from the level below. Each cell has one origin, round periodic borders too. A
//! plan is made once for each mesh, from a rank's own boxes and their edges; contracts speak of whole levels.
#![tactic(auto)]

mod ask;
mod ask_on_all;
mod asking;
mod laws;
mod making;
mod origin;
mod plan;
mod row;
mod rows;

pub use ask::Ask;
pub use ask_on_all::ask_all;
pub use laws::{each_has_one_origin, plans_tell_origins};
pub use origin::Origin;
pub use plan::{Asked, BoxPlan, FieldPlan, Plan, Request};
pub use row::Row;
pub use rows::plan_rows;
