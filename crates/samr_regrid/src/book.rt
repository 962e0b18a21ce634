//! What a rank keeps through all steps of a run beside its levels.

use samr_box::Listed;
use samr_report::StepRows;
use samr_sched::Plan;

/// The plans of a rank's levels, and what it tells of the steps that are over.
#[derive(Drop)]
pub struct Book {
    pub plans: Listed<Plan>,
    pub steps: Listed<StepRows>,
}
