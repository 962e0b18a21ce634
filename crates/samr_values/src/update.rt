//! The update of a rank's patches: every cell of every box gets its value after a step, all from the values before.

ghost use Rattle.std.specs.Prelude.{◌≡◌, ◌+◌, ◌*◌, ◌<◌, pos, ◌+ℤ◌, ◌-ℤ◌, map, sum, IfOk, ◌^◌, if◌then◌else◌};
ghost use Rattle.samr_box.specs.declared.vector.IVec.{IVec as Cell};
ghost use Rattle.samr_box.specs.Vector.{at, put, InRange};
ghost use Rattle.samr_box.specs.Corners.{Holds, holds};
ghost use Rattle.samr_box.specs.Lists.{Member};
ghost use Rattle.samr_data.specs.Grids.{over, value_at};
ghost use Rattle.samr_ops.specs.Rules.{updated_value};
ghost use Rattle.samr_values.specs.Updating.{faces, updated_at, updated_patches, CanUpdate, CanUpdatePatch, CanUpdateField, CanUpdateAll};

use samr_box::{Axis, IVec, Listed, contains};
use samr_data::Patch;
use samr_ops::{Bounds, Refines, Strategy, Updates};
use std::alloc::{AllocError as NoMemory, Global};

/// The cell before a cell on an axis.
fn cell_back(x: IVec, axis: Axis) -> IVec
    requires { InRange x }
    ensures { result ≡ put axis x (at axis x -ℤ pos 1) }
{
    x.put(axis, x.at(axis) - 1)
}

/// The cell behind a cell on an axis.
fn cell_ahead(x: IVec, axis: Axis) -> IVec
    requires { InRange x }
    ensures { result ≡ put axis x (at axis x +ℤ pos 1) }
{
    x.put(axis, x.at(axis) + 1)
}

/// The sum of the values of the two cells beside a cell on an axis.
fn sum_along(patch: &Patch, x: IVec, axis: Axis) -> u64
    requires here { Holds (over patch.now) x }
    requires back { Holds (over patch.now) (put axis x (at axis x -ℤ pos 1)) }
    requires ahead { Holds (over patch.now) (put axis x (at axis x +ℤ pos 1)) }
    ensures value { result ≡ value_at patch.now (put axis x (at axis x -ℤ pos 1)) + value_at patch.now (put axis x (at axis x +ℤ pos 1)) }
    ensures few { result < 2 ^ 33 }
{
    let _ = patch.over();
    let back = patch.get(cell_back(x, axis));
    let ahead = patch.get(cell_ahead(x, axis));
    u64::from(back) + u64::from(ahead)
}

/// The sum of the values of the cells at the faces of a cell, on the real axes.
fn sum_about(patch: &Patch, dim: u8, x: IVec) -> u64
    requires here { Holds (over patch.now) x }
    requires about { (y : Cell) → Member y (faces dim x) → Holds (over patch.now) y }
    ensures { result ≡ sum (map (λ y. value_at patch.now y) (faces dim x)) }
{
    let plane = sum_along(patch, x, Axis::I) + sum_along(patch, x, Axis::J);
    if dim == 2 {
        return plane;
    }
    plane + sum_along(patch, x, Axis::K)
}

/// The value of a cell after a step.
fn next_value<R: Refines, B: Bounds, U: Updates>(
    patch: &Patch,
    dim: u8,
    strategy: &Strategy<R, B, U>,
    x: IVec,
) -> u32
    requires { CanUpdate dim strategy.now patch.now x }
    ensures { result ≡ updated_value strategy.now (value_at patch.now x) (sum (map (λ y. value_at patch.now y) (faces dim x))) }
{
    let own = patch.get(x);
    if strategy.rules().face == 0 {
        return strategy.update(own, 0);
    }
    strategy.update(own, sum_about(patch, dim, x))
}

/// The value of a cell of a patch after a step: that of a ghost cell stays.
fn value_after<R: Refines, B: Bounds, U: Updates>(
    patch: &Patch,
    dim: u8,
    strategy: &Strategy<R, B, U>,
    x: IVec,
) -> u32
    requires here { Holds (over patch.now) x }
    requires can { Holds patch.now.bx x → CanUpdate dim strategy.now patch.now x }
    ensures { result ≡ (if holds patch.now.bx x then updated_value strategy.now (value_at patch.now x) (sum (map (λ y. value_at patch.now y) (faces dim x))) else value_at patch.now x) }
{
    if contains(patch.bx, x) {
        return next_value(patch, dim, strategy, x);
    }
    patch.get(x)
}

/// A patch after a step.
fn updated_patch<R: Refines, B: Bounds, U: Updates>(
    alloc: Global,
    patch: &Patch,
    dim: u8,
    strategy: &Strategy<R, B, U>,
) -> Result<Patch, NoMemory>
    requires { CanUpdatePatch dim strategy.now patch.now }
    ensures { IfOk result (λ q. q ≡ updated_at dim strategy.now patch.now) }
{
    let whole = patch.over();
    let mut out = Patch::new(alloc, patch.bx, patch.width)?;
    out.write_cells(
        whole,
        |x: IVec| -> u32
            requires { Holds (over patch.now) x × (Holds patch.now.bx x → CanUpdate dim strategy.now patch.now x) }
            ensures { result ≡ (if holds patch.entry.now.bx x then updated_value strategy.entry.now (value_at patch.entry.now x) (sum (map (λ y. value_at patch.entry.now y) (faces dim x))) else value_at patch.entry.now x) }
        { value_after(patch, dim, strategy, x) },
    );
    Ok(out)
}

/// The patches of a field after a step.
fn updated_field<R: Refines, B: Bounds, U: Updates>(
    alloc: Global,
    patches: &[Patch],
    dim: u8,
    strategy: &Strategy<R, B, U>,
) -> Result<Vec<Patch>, NoMemory>
    requires { CanUpdateField dim strategy.now patches.now }
    ensures { IfOk result (λ v. v.items ≡ map (λ g. updated_at dim strategy.now g) patches.now) }
{
    let mut out = Vec::new(alloc);
    for patch in patches {
        out.push(updated_patch(alloc, patch, dim, strategy)?)?;
    }
    Ok(out)
}

/// The patches of all fields after a step, each field by its own strategy. The problem has `dim` real axes. All
/// neighbours are read as they were before the step, ghost cells among them; ghost cells keep their values.
///
/// # Errors
///
/// Memory is wanting.
pub fn updated_patches<R: Refines, B: Bounds, U: Updates>(
    alloc: Global,
    patches: &[Listed<Patch>],
    dim: u8,
    strategies: &[Strategy<R, B, U>],
) -> Result<Vec<Listed<Patch>>, NoMemory>
    requires { CanUpdateAll dim strategies.now patches.now }
    ensures { IfOk result (λ v. v.items ≡ updated_patches dim strategies.now patches.now) }
{
    let mut out = Vec::new(alloc);
    for f in 0..strategies.len() {
        let field = updated_field(alloc, patches[f].as_slice(), dim, &strategies[f])?;
        out.push(Listed::from_vec(field))?;
    }
    Ok(out)
}
