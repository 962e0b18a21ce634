//! Whether the boxes and cells that ranks tell of can be counted.

ghost use Rattle.std.specs.Prelude.{◌≡◌, ◌+◌, ◌*◌, IsTrue, sum_by};
ghost use Rattle.samr_box.specs.Corners.{cells_of};
ghost use Rattle.samr_sched.specs.PlanRows.{capped};
ghost use Rattle.samr_report.specs.Bounds.{weight, level_weight, step_weight, rank_weight, AreCountable};

use crate::rows::{LevelRows, RankRows, StepRows};
use samr_box::{Axis, IBox};
use samr_level::BoxRef;

/// The product of three numbers, up to the greatest number.
fn product(i: u64, j: u64, k: u64) -> u64
    ensures { result ≡ capped (i * j * k) }
{
    let layer = i.saturating_mul(j);
    layer.saturating_mul(k)
}

/// The cells of a box, up to the greatest number.
pub fn cells_of(b: IBox) -> u64
    ensures { result ≡ capped (cells_of b) }
{
    product(b.length(Axis::I), b.length(Axis::J), b.length(Axis::K))
}

/// A box and its cells, up to the greatest number.
#[tactic(auto, using(crate::proofs::Weights::one_more))]
fn weight(b: BoxRef) -> u64
    ensures { result ≡ capped (weight b) }
{
    cells_of(b.bx).saturating_add(1)
}

/// The boxes and cells of a rank on a level, up to the greatest number.
#[tactic(auto, using(samr_sched::proofs::Counted::sum_step))]
fn level_weight(rows: &LevelRows) -> u64
    ensures { result ≡ capped (level_weight rows.now) }
{
    let mut total = 0u64;
    for b in rows.boxes.as_slice() {
        total = total.saturating_add(weight(*b));
    }
    total
}

/// Those of all levels that it tells of at a step.
#[tactic(auto, using(samr_sched::proofs::Counted::sum_step))]
fn step_weight(rows: &StepRows) -> u64
    ensures { result ≡ capped (step_weight rows.now) }
{
    let mut total = 0u64;
    for level in rows.mesh.as_slice() {
        total = total.saturating_add(level_weight(level));
    }
    total
}

/// Those of all steps.
#[tactic(auto, using(samr_sched::proofs::Counted::sum_step))]
fn rank_weight(rows: &RankRows) -> u64
    ensures { result ≡ capped (rank_weight rows.now) }
{
    let mut total = 0u64;
    for step in rows.steps.as_slice() {
        total = total.saturating_add(step_weight(step));
    }
    total
}

/// Those of all ranks.
#[tactic(auto, using(samr_sched::proofs::Counted::sum_step))]
fn total_weight(rows: &[RankRows]) -> u64
    ensures { result ≡ capped (sum_by (λ q. rank_weight q) rows.now) }
{
    let mut total = 0u64;
    for q in rows {
        total = total.saturating_add(rank_weight(q));
    }
    total
}

/// Whether all boxes and cells that the ranks tell of are together fewer than 2^63, so that those of each
/// level can be counted. The rows of a run of an accepted problem always can.
pub fn is_countable(rows: &[RankRows]) -> bool
    ensures { IsTrue result → AreCountable rows.now }
{
    total_weight(rows) < 1 << 63
}
