//! How many ghost cells have which origin, on all ranks.

ghost use Rattle.std.specs.Prelude.{◌≡◌, IfOk, List, length};
ghost use Rattle.samr_stage.specs.Exchange.{AreResults};
ghost use Rattle.samr_sched.specs.Ask.{Scheduling};
ghost use Rattle.samr_sched.specs.PlanRows.{rows_of};
ghost use Rattle.samr_ops.specs.declared.rules.Rules.{Rules as RulesOf};
ghost use Rattle.samr_fill.specs.Fill.{Filling};
ghost use Rattle.samr_trials_fills.specs.Plans.{ArePlans};
ghost use Rattle.samr_trials_fills.specs.Ready.{AreReady};

use crate::prepared::Prepared;
use samr_sched::{Plan, Row, plan_rows};
use std::alloc::{AllocError as NoMemory, Global};

/// The rows of the plans of all ranks.
fn rows_of_plans(alloc: Global, plans: &[Plan]) -> Result<Vec<Vec<Row>>, NoMemory>
    requires { (w : Scheduling) × ArePlans w plans.now }
    ensures count { IfOk result (λ v. length v.items ≡ length plans.now) }
    ensures rows { IfOk result (λ v. (w : Scheduling) → ArePlans w plans.now → AreResults (λ w rank out. out.items ≡ rows_of w rank) w v.items) }
{
    let mut all = Vec::new(alloc);
    for plan in plans {
        let list = plan_rows(alloc, plan)?;
        all.push(list)?;
    }
    Ok(all)
}

/// How many ghost cells have which origin, by rank.
///
/// # Errors
///
/// Where memory is short.
pub fn rows(alloc: Global, ready: &Prepared) -> Result<Vec<Vec<Row>>, NoMemory>
    requires { (w : Filling) × (rules : List RulesOf) × AreReady ready.now rules w }
    ensures { IfOk result (λ v. (w : Filling) (rules : List RulesOf) → AreReady ready.now rules w → (length v.items ≡ w.schedule.ranks) × AreResults (λ w rank out. out.items ≡ rows_of w.schedule rank) w v.items) }
{
    let all = rows_of_plans(alloc, ready.plans.as_slice())?;
    Ok(all)
}
