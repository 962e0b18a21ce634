//! The values of cells beyond the borders.

ghost use Rattle.std.specs.Prelude.{◌≡◌, IfOk, slice_index};
ghost use Rattle.samr_box.specs.declared.vector.IVec.{IVec as Cell};
ghost use Rattle.samr_box.specs.Corners.{Holds};
ghost use Rattle.samr_boxlist.specs.Covers.{held};
ghost use Rattle.samr_data.specs.Grids.{over, written};
ghost use Rattle.samr_ops.specs.Walks.{IsNear, walked};
ghost use Rattle.samr_fill.specs.Ending.{walk_in, ended_at, CanEnd};

use samr_box::{IBox, IVec, contains};
use samr_data::Patch;
use samr_ops::{Bounds, Refines, Strategy, Updates};
use samr_sched::Plan;
use std::alloc::{AllocError as NoMemory, Global};

/// Whether a box of a list has a cell.
fn held(boxes: &[IBox], x: IVec) -> bool
    ensures { result ≡ held x boxes.now }
{
    boxes.iter().any(|b| contains(*b, x))
}

/// The value at a place; 0 where there is none.
fn value_or_zero(values: &[u32], place: usize) -> u32
    ensures { result ≡ slice_index values.now place }
{
    match values.get(place) {
        Some(value) => *value,
        None => 0,
    }
}

/// The value where the walk of a cell ends.
fn walk_in<R: Refines, B: Bounds, U: Updates>(
    plan: &Plan,
    patch: &Patch,
    strategy: &Strategy<R, B, U>,
    x: IVec,
) -> u32
    requires { CanEnd plan.now strategy.now patch.now x }
    ensures { result ≡ walk_in patch.now (walked strategy.now plan.now.frame x) }
{
    match strategy.outside(&plan.frame, x) {
        Ok(y) => patch.get(y),
        Err(v) => v,
    }
}

/// The value of a cell in the end.
#[tactic(auto, unfolding(samr_fill::specs::Ending::ended_at))]
fn ended_at<R: Refines, B: Bounds, U: Updates>(
    plan: &Plan,
    inside: &[IBox],
    field: u8,
    patch: &Patch,
    strategy: &Strategy<R, B, U>,
    x: IVec,
) -> u32
    requires { CanEnd plan.now strategy.now patch.now x }
    ensures { result ≡ ended_at plan.now inside.now field strategy.now patch.now x }
{
    if held(inside, x) {
        return patch.get(x);
    }
    let fixed = plan.fixed.as_slice();
    if !fixed.is_empty() {
        return value_or_zero(fixed, usize::from(field));
    }
    walk_in(plan, patch, strategy, x)
}

/// The patch with the values of all cells beyond the borders.
pub fn ended<R: Refines, B: Bounds, U: Updates>(
    alloc: Global,
    plan: &Plan,
    inside: &[IBox],
    field: u8,
    patch: &Patch,
    strategy: &Strategy<R, B, U>,
) -> Result<Patch, NoMemory>
    requires { (x : Cell) → Holds (over patch.now) x → CanEnd plan.now strategy.now patch.now x }
    ensures { IfOk result (λ q. q ≡ written patch.now (ended_at plan.now inside.now field strategy.now patch.now)) }
{
    let whole = patch.over();
    let mut out = Patch::new(alloc, patch.bx, patch.width)?;
    out.write_cells(
        whole,
        |x: IVec| -> u32
            requires { CanEnd plan.now strategy.now patch.now x }
            ensures { result ≡ ended_at plan.entry.now inside.entry.now field strategy.entry.now patch.entry.now x }
        { ended_at(plan, inside, field, patch, strategy, x) },
    );
    Ok(out)
}
