//! The first values of all cells, and the patches of all ranks that have them.

ghost use Rattle.std.specs.Prelude.{◌≡◌, ◌<◌, pos, IfOk, Some, length, slice_get};
ghost use Rattle.std.specs.List.{All};
ghost use Rattle.samr_box.specs.Vector.{alike, AtMost};
ghost use Rattle.samr_box.specs.Corners.{IsBox, grown};
ghost use Rattle.samr_level.specs.Levels.{own};
ghost use Rattle.samr_trials_levels.specs.First.{first_value, first_patch, first_field, first_fields, all_first, HasRoom, HasRooms};

use crate::blocks::owned_boxes;
use samr_box::{IBox, IVec, Listed};
use samr_data::Patch;
use samr_level::BoxRef;
use std::alloc::{AllocError as NoMemory, Global};

/// What the first values of a level over another count from.
pub const FINE_START: u32 = 0;

/// What those of the level below it count from.
pub const COARSE_START: u32 = 500;

/// The first value of a cell of a field, below a bound, on a level that counts from a start.
#[tactic(auto, unfolding(crate::specs::First::first_value))]
pub fn first_value(bound: u32, start: u32, field: u64, x: IVec) -> u32
    requires { 0 < bound }
    ensures { result ≡ first_value bound start field x }
{
    let i = u128::from(x.i.unsigned_abs());
    let j = u128::from(x.j.unsigned_abs());
    let k = u128::from(x.k.unsigned_abs());
    let sum = u128::from(start) + 7 * u128::from(field) + i + 20 * j + 400 * k;
    (sum % u128::from(bound)) as u32
}

/// The patch of a box whose cells have their first values.
fn box_patch(
    alloc: Global,
    bx: IBox,
    width: IVec,
    bound: u32,
    start: u32,
    field: u64,
) -> Result<Patch, NoMemory>
    requires some { 0 < bound }
    requires positive { AtMost (alike (pos 0)) width }
    requires whole { IsBox (grown bx width) }
    ensures { IfOk result (λ p. p ≡ first_patch bound start field width bx) }
{
    let mut patch = Patch::new(alloc, bx, width)?;
    patch.write_cells(
        bx,
        |x: IVec| -> u32
            requires { 0 < bound }
            ensures { result ≡ first_value bound start field x }
        { first_value(bound, start, field, x) },
    );
    Ok(patch)
}

/// The same for a box with its owner.
fn owned_patch(
    alloc: Global,
    b: BoxRef,
    width: IVec,
    bound: u32,
    start: u32,
    field: u64,
) -> Result<Patch, NoMemory>
    requires some { 0 < bound }
    requires positive { AtMost (alike (pos 0)) width }
    requires room { HasRoom width b }
    ensures { IfOk result (λ p. p ≡ first_patch bound start field width b.bx) }
{
    let patch = box_patch(alloc, b.bx, width, bound, start, field)?;
    Ok(patch)
}

/// The patches of a field on some boxes.
fn field_patches(
    alloc: Global,
    boxes: &[BoxRef],
    width: IVec,
    bound: u32,
    start: u32,
    field: u64,
) -> Result<Vec<Patch>, NoMemory>
    requires some { 0 < bound }
    requires rooms { HasRooms boxes.now width }
    ensures { IfOk result (λ v. v.items ≡ first_field bound start boxes.now (field, width)) }
{
    let mut patches = Vec::new(alloc);
    for b in boxes {
        let patch = owned_patch(alloc, *b, width, bound, start, field)?;
        patches.push(patch)?;
    }
    Ok(patches)
}

/// The width of a field.
fn width_at(widths: &[IVec], field: usize) -> IVec
    requires { field < length widths.now }
    ensures { slice_get widths.now field ≡ Some result }
{
    widths[field]
}

/// The patches of all fields on some boxes.
fn box_patches(
    alloc: Global,
    boxes: &[BoxRef],
    widths: &[IVec],
    bound: u32,
    start: u32,
) -> Result<Vec<Listed<Patch>>, NoMemory>
    requires some { 0 < bound }
    requires rooms { All (HasRooms boxes.now) widths.now }
    ensures { IfOk result (λ v. v.items ≡ first_fields bound start widths.now boxes.now) }
{
    let mut fields = Vec::new(alloc);
    'each: for f in 0..widths.len() {
        let own = width_at(widths, f);
        let patches = field_patches(alloc, boxes, own, bound, start, f as u64)?;
        fields.push(Listed::from_vec(patches))?;
    }
    Ok(fields)
}

/// The patches of all fields on the boxes that a rank owns.
fn own_patches(
    alloc: Global,
    level: &[BoxRef],
    widths: &[IVec],
    bound: u32,
    start: u32,
    rank: u16,
) -> Result<Vec<Listed<Patch>>, NoMemory>
    requires some { 0 < bound }
    requires rooms { All (HasRooms level.now) widths.now }
    ensures { IfOk result (λ v. v.items ≡ first_fields bound start widths.now (own rank level.now)) }
{
    let boxes = owned_boxes(alloc, level, rank)?;
    let fields = box_patches(alloc, boxes.as_slice(), widths, bound, start)?;
    Ok(fields)
}

/// The patches of all ranks, in order of rank.
///
/// # Errors
///
/// Where memory is short.
pub fn all_patches(
    alloc: Global,
    level: &[BoxRef],
    widths: &[IVec],
    bound: u32,
    start: u32,
    ranks: u16,
) -> Result<Vec<Listed<Listed<Patch>>>, NoMemory>
    requires some { 0 < bound }
    requires rooms { All (HasRooms level.now) widths.now }
    ensures { IfOk result (λ v. v.items ≡ all_first bound start widths.now level.now ranks) }
{
    let mut all = Vec::new(alloc);
    'each: for rank in 0..ranks {
        let fields = own_patches(alloc, level, widths, bound, start, rank)?;
        all.push(Listed::from_vec(fields))?;
    }
    Ok(all)
}
