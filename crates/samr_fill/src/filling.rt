//! The patches of a rank with all their values, from parcels.

ghost use Rattle.std.specs.Prelude.{◌≡◌, ◌<◌, ◌^◌, ℕ, IfOk, length, map};
ghost use Rattle.std.specs.List.{enumerate_from};
ghost use Rattle.samr_level.specs.Levels.{own};
ghost use Rattle.samr_data.specs.Grids.{grid_of};
ghost use Rattle.samr_fill.specs.Fill.{Filling, value_of};
ghost use Rattle.samr_fill.specs.FillParts.{filled_field, filled};
ghost use Rattle.samr_fill.specs.FilledSoFar.{IsCopyOf, IsPatchOf, IsBoxOf, IsField, AreFields};

use crate::ending::ended;
use crate::sorting::for_box;
use crate::writing::write_all;
use samr_box::{IVec, Listed};
use samr_data::{Parcel, Patch};
use samr_level::BoxRef;
use samr_ops::{Bounds, Refines, Strategy, Updates};
use samr_sched::{BoxPlan, FieldPlan, Plan};
use std::alloc::{AllocError as NoMemory, Global};

/// A patch of the same cells, with the values of the box itself.
fn copy_of(alloc: Global, patch: &Patch) -> Result<Patch, NoMemory>
    ensures { IfOk result (λ p. IsCopyOf patch.now p) }
{
    let bx = patch.bx;
    let _ = &bx.lo;
    let mut copy = Patch::new(alloc, bx, patch.width)?;
    copy.copy_region(patch, bx, IVec::alike(0));
    Ok(copy)
}

/// A patch of a box with all its values.
fn fill_patch<R: Refines, B: Bounds, U: Updates>(
    alloc: Global,
    plan: &Plan,
    base: BoxRef,
    field: u8,
    field_plan: &FieldPlan,
    patch: &Patch,
    parcels: &[Parcel],
    strategy: &Strategy<R, B, U>,
) -> Result<Patch, NoMemory>
    requires { (w : Filling) × (r : ℕ) × IsPatchOf plan.now parcels.now field strategy.now base field_plan.now patch.now w r }
    ensures { IfOk result (λ p. (w : Filling) (r : ℕ) → IsPatchOf plan.now parcels.now field strategy.now base field_plan.now patch.now w r
        → p ≡ grid_of base.bx strategy.now.width (value_of w (field, strategy.now))) }
{
    let mut copy = copy_of(alloc, patch)?;
    let rest = field_plan.rest.as_slice();
    let own = for_box(parcels, base, field);
    write_all(alloc, &mut copy, plan, rest, own, strategy)?;
    let inside = field_plan.inside.as_slice();
    let done = ended(alloc, plan, inside, field, &copy, strategy)?;
    Ok(done)
}

/// The patch of a field of a box with all its values.
fn fill_box<R: Refines, B: Bounds, U: Updates>(
    alloc: Global,
    plan: &Plan,
    box_plan: &BoxPlan,
    field: u8,
    patch: &Patch,
    parcels: &[Parcel],
    strategy: &Strategy<R, B, U>,
) -> Result<Patch, NoMemory>
    requires { (w : Filling) × (r : ℕ) × IsBoxOf plan.now parcels.now field strategy.now box_plan.now patch.now w r }
    ensures { IfOk result (λ p. (w : Filling) (r : ℕ) → IsBoxOf plan.now parcels.now field strategy.now box_plan.now patch.now w r
        → p ≡ grid_of box_plan.now.base.bx strategy.now.width (value_of w (field, strategy.now))) }
{
    let fields = box_plan.fields.as_slice();
    let field_plan = &fields[usize::from(field)];
    let filled = fill_patch(
        alloc,
        plan,
        box_plan.base,
        field,
        field_plan,
        patch,
        parcels,
        strategy,
    )?;
    Ok(filled)
}

/// The patches of a field with all their values.
fn fill_field<R: Refines, B: Bounds, U: Updates>(
    alloc: Global,
    plan: &Plan,
    field: u8,
    patches: &[Patch],
    parcels: &[Parcel],
    strategy: &Strategy<R, B, U>,
) -> Result<Vec<Patch>, NoMemory>
    requires { (w : Filling) × (r : ℕ) × IsField plan.now parcels.now field strategy.now patches.now w r }
    ensures { IfOk result (λ v. (w : Filling) (r : ℕ) → IsField plan.now parcels.now field strategy.now patches.now w r
        → v.items ≡ filled_field w r (field, strategy.now)) }
{
    let boxes = plan.boxes.as_slice();
    let mut filled = Vec::new(alloc);
    for place in 0..boxes.len() {
        let patch = fill_box(
            alloc,
            plan,
            &boxes[place],
            field,
            &patches[place],
            parcels,
            strategy,
        )?;
        filled.push(patch)?;
    }
    Ok(filled)
}

/// The patches of all fields with all their values.
pub fn fill_fields<R: Refines, B: Bounds, U: Updates>(
    alloc: Global,
    plan: &Plan,
    own: &[Listed<Patch>],
    parcels: &[Parcel],
    strategies: &[Strategy<R, B, U>],
) -> Result<Vec<Listed<Patch>>, NoMemory>
    requires { (w : Filling) × (r : ℕ) × AreFields plan.now parcels.now strategies.now own.now w r }
    ensures { IfOk result (λ v. (w : Filling) (r : ℕ) → AreFields plan.now parcels.now strategies.now own.now w r → v.items ≡ filled w r) }
{
    let mut filled = Vec::new(alloc);
    for field in 0..strategies.len() {
        let patches = fill_field(
            alloc,
            plan,
            field as u8,
            own[field].as_slice(),
            parcels,
            &strategies[field],
        )?;
        filled.push(Listed::from_vec(patches))?;
    }
    Ok(filled)
}
