//! The patches of a rank with all their values, from parcels.

ghost use Rattle.std.specs.Prelude.{◌≡◌, ℕ, IfOk, map};
ghost use Rattle.samr_level.specs.Levels.{own};
ghost use Rattle.samr_data.specs.Grids.{grid_of};
ghost use Rattle.samr_fill.specs.FilledSoFar.{IsCopyOf};
ghost use Rattle.samr_linear.specs.LinearFill.{LinearFilling, value_of};
ghost use Rattle.samr_linear.specs.LinearFillParts.{linear_filled};
ghost use Rattle.samr_linear.specs.FilledSoFar.{IsPatchOf, IsBoxOf, IsField};

use crate::ending::ended;
use crate::sorting::for_box;
use crate::stencil::{RefinesLinearly, Stencil};
use crate::writing::write_all;
use samr_box::{Flags, IVec};
use samr_data::{Parcel, Patch};
use samr_level::BoxRef;
use samr_ops::{Bounds, Refines, Strategy, Updates};
use samr_sched::{BoxPlan, FieldPlan, Plan};
use std::alloc::{AllocError as NoMemory, Global};

/// A patch of the same cells, with the values of the box itself.
fn copy_of(alloc: Global, patch: &Patch) -> Result<Patch, NoMemory>
    ensures { IfOk result (λ p. IsCopyOf patch.now p) }
{
    let bx = patch.bx;
    let _ = &bx.lo;
    let mut copy = Patch::new(alloc, bx, patch.width)?;
    copy.copy_region(patch, bx, IVec::alike(0));
    Ok(copy)
}

/// A patch of a box with all its values.
fn fill_patch<R: Refines, B: Bounds, U: Updates, L: RefinesLinearly>(
    alloc: Global,
    plan: &Plan,
    base: BoxRef,
    field_plan: &FieldPlan,
    patch: &Patch,
    parcels: &[Parcel],
    strategy: &Strategy<R, B, U>,
    stencil: &Stencil<L>,
    real: Flags,
) -> Result<Patch, NoMemory>
    requires real { real ≡ stencil.now.real }
    requires parts { (w : LinearFilling) × (r : ℕ) × IsPatchOf plan.now parcels.now strategy.now stencil.now base field_plan.now patch.now w r }
    ensures { IfOk result (λ p. (w : LinearFilling) (r : ℕ) → IsPatchOf plan.now parcels.now strategy.now stencil.now base field_plan.now patch.now w r
        → p ≡ grid_of base.bx w.rules.width (value_of w)) }
{
    let mut copy = copy_of(alloc, patch)?;
    let rest = field_plan.rest.as_slice();
    let own = for_box(parcels, base, 0);
    write_all(alloc, &mut copy, plan, rest, own, stencil, real)?;
    let inside = field_plan.inside.as_slice();
    let done = ended(alloc, plan, inside, 0, &copy, strategy)?;
    Ok(done)
}

/// The patch of a field of a box with all its values.
fn fill_box<R: Refines, B: Bounds, U: Updates, L: RefinesLinearly>(
    alloc: Global,
    plan: &Plan,
    box_plan: &BoxPlan,
    patch: &Patch,
    parcels: &[Parcel],
    strategy: &Strategy<R, B, U>,
    stencil: &Stencil<L>,
    real: Flags,
) -> Result<Patch, NoMemory>
    requires real { real ≡ stencil.now.real }
    requires parts { (w : LinearFilling) × (r : ℕ) × IsBoxOf plan.now parcels.now strategy.now stencil.now box_plan.now patch.now w r }
    ensures { IfOk result (λ p. (w : LinearFilling) (r : ℕ) → IsBoxOf plan.now parcels.now strategy.now stencil.now box_plan.now patch.now w r
        → p ≡ grid_of box_plan.now.base.bx w.rules.width (value_of w)) }
{
    let fields = box_plan.fields.as_slice();
    let field_plan = &fields[0];
    let filled = fill_patch(
        alloc,
        plan,
        box_plan.base,
        field_plan,
        patch,
        parcels,
        strategy,
        stencil,
        real,
    )?;
    Ok(filled)
}

/// The patches of a field with all their values.
pub fn fill_field<R: Refines, B: Bounds, U: Updates, L: RefinesLinearly>(
    alloc: Global,
    plan: &Plan,
    patches: &[Patch],
    parcels: &[Parcel],
    strategy: &Strategy<R, B, U>,
    stencil: &Stencil<L>,
    real: Flags,
) -> Result<Vec<Patch>, NoMemory>
    requires real { real ≡ stencil.now.real }
    requires parts { (w : LinearFilling) × (r : ℕ) × IsField plan.now parcels.now strategy.now stencil.now patches.now w r }
    ensures { IfOk result (λ v. (w : LinearFilling) (r : ℕ) → IsField plan.now parcels.now strategy.now stencil.now patches.now w r
        → v.items ≡ linear_filled w r) }
{
    let boxes = plan.boxes.as_slice();
    let mut filled = Vec::new(alloc);
    for place in 0..boxes.len() {
        let patch = fill_box(
            alloc,
            plan,
            &boxes[place],
            &patches[place],
            parcels,
            strategy,
            stencil,
            real,
        )?;
        filled.push(patch)?;
    }
    Ok(filled)
}
