//! Tests of what a whole run asks of its numbers.

ghost use Rattle.std.specs.Prelude.{◌≡◌, ◌<◌, ◌≤◌, ◌^◌, pos, IsTrue, IfOk, IfSome, map};
ghost use Rattle.std.specs.List.{All};
ghost use Rattle.samr_box.specs.Vector.{alike, AtMost, InRange};
ghost use Rattle.samr_box.specs.Corners.{IsBox, cells_of, grown};
ghost use Rattle.samr_box.specs.Space.{IsSpace, finer};
ghost use Rattle.samr_level.specs.Regions.{finer_area};
ghost use Rattle.samr_ops.specs.Rules.{IsRules};
ghost use Rattle.samr_trials_levels.specs.First.{HasRoom, HasRooms};
ghost use Rattle.samr_trials_levels.specs.Cover.{AreFields, CanCover, CanHold, CanRefine};

use crate::pairs::{can_compare, same_ratio};
use samr_box::{Axis, IBox, IVec, Ratio, grow};
use samr_level::{BoxRef, Region, whole_level0};
use samr_ops::{Bounds, Refines, Rules, Strategy, Updates};
use std::alloc::{AllocError as NoMemory, Global};

const NOTHING: IVec = IVec { k: 0, j: 0, i: 0 };

const WIDEST: IVec = IVec {
    k: 64,
    j: 64,
    i: 64,
};

const FOUR: IVec = IVec { k: 4, j: 4, i: 4 };

/// The rules of strategies.
///
/// # Errors
///
/// Where memory is short.
pub fn rules_of<R: Refines, B: Bounds, U: Updates>(
    alloc: Global,
    strategies: &[Strategy<R, B, U>],
) -> Result<Vec<Rules>, NoMemory>
    ensures same { IfOk result (λ v. v.items ≡ strategies.now) }
    ensures ranges { IfOk result (λ v. All IsRules v.items) }
{
    let mut list = Vec::new(alloc);
    for strategy in strategies {
        let own = strategy.rules();
        list.push(own)?;
    }
    Ok(list)
}

/// Whether a width is from 0 to 64 on each axis.
pub fn is_width(width: IVec) -> bool
    ensures positive { IsTrue result → AtMost (alike (pos 0)) width }
    ensures range { IsTrue result → InRange width }
{
    if !NOTHING.at_most(width) {
        return false;
    }
    width.at_most(WIDEST)
}

/// Whether the factors of a ratio are at most 4.
fn is_small(step: Ratio) -> bool
    ensures { IsTrue result → AtMost step (alike (pos 4)) }
{
    step.factors().at_most(FOUR)
}

/// Whether a box has fewer than 2^62 cells.
pub fn has_few(b: IBox) -> bool
    ensures { IsTrue result → cells_of b < 2 ^ 62 }
{
    let plane = u128::from(b.length(Axis::I)) * u128::from(b.length(Axis::J));
    let count = plane * u128::from(b.length(Axis::K));
    count < 1 << 62
}

/// Whether a box, grown by a width, is a box.
fn can_grow(b: IBox, width: IVec) -> bool
    requires { InRange width }
    ensures { IsTrue result → IsBox (grown b width) }
{
    IBox::new(b.lo.minus(width), b.hi.plus(width)).is_some()
}

/// Whether a box, grown by a width, has fewer than 2^62 cells.
fn few_about(b: IBox, width: IVec) -> bool
    requires { IsBox (grown b width) }
    ensures { IsTrue result → cells_of (grown b width) < 2 ^ 62 }
{
    has_few(grow(b, width))
}

/// Whether there is room for a box with its ghost cells.
fn has_room(b: IBox, width: IVec) -> bool
    requires { InRange width }
    ensures { IsTrue result → IsBox (grown b width) × (cells_of (grown b width) < 2 ^ 62) }
{
    if !can_grow(b, width) {
        return false;
    }
    few_about(b, width)
}

/// Whether there is room for all boxes of a level.
fn have_room(level: &[BoxRef], width: IVec) -> bool
    requires { InRange width }
    ensures { IsTrue result → All (HasRoom width) level.now }
{
    for b in level {
        if !has_room(b.bx, width) {
            return false;
        }
    }
    true
}

/// Whether there is room for all boxes of a level with ghost cells of a width.
fn has_rooms(level: &[BoxRef], width: IVec) -> bool
    ensures { IsTrue result → HasRooms level.now width }
{
    if !is_width(width) {
        return false;
    }
    have_room(level, width)
}

/// The same for the widths of all fields.
pub fn have_rooms(level: &[BoxRef], widths: &[IVec]) -> bool
    ensures { IsTrue result → All (HasRooms level.now) widths.now }
{
    for g in widths {
        if !has_rooms(level, *g) {
            return false;
        }
    }
    true
}

/// Whether a bound is at most the modulus of each field.
fn is_least(bound: u32, rules: &[Rules]) -> bool
    ensures { IsTrue result → All (λ r. bound ≤ r.modulus) rules.now }
{
    for r in rules {
        if r.modulus < bound {
            return false;
        }
    }
    true
}

/// The widths of the ghost cells of all fields.
///
/// # Errors
///
/// Where memory is short.
pub fn widths_of(alloc: Global, rules: &[Rules]) -> Result<Vec<IVec>, NoMemory>
    ensures { IfOk result (λ v. v.items ≡ map (λ r. r.width) rules.now) }
{
    rules.iter().map(|r| r.width).collect(alloc)
}

/// The finer region, where there is one.
///
/// # Errors
///
/// Where memory is short.
pub fn finer_region(alloc: Global, region: &Region, step: Ratio) -> Result<Option<Region>, NoMemory>
    ensures { IfOk result (λ made. IfSome made (λ fine. (fine ≡ finer_area region.now step) × IsSpace (finer region.now.frame step))) }
{
    if !region.can_refine(step) {
        return Ok(None);
    }
    let fine = region.refined(alloc, step)?;
    Ok(Some(fine))
}

/// Whether blocks of a domain and blocks of the finer one over it are levels that can be compared at a width.
///
/// # Errors
///
/// Where memory is short.
pub fn can_cover(
    alloc: Global,
    region: &Region,
    fine: &Region,
    block: IVec,
    step: Ratio,
    fine_block: IVec,
    ranks: u16,
    width: IVec,
) -> Result<bool, NoMemory>
    requires finer { IsSpace (finer region.now.frame step) }
    requires fine { fine.now ≡ finer_area region.now step }
    ensures { IfOk result (λ t. IsTrue t → CanCover region.now block step fine_block ranks width) }
{
    let _boxes = region.boxes(alloc)?;
    let _factors = step.factors();
    if ranks == 0 {
        return Ok(false);
    }
    if !region.can_block(block) {
        return Ok(false);
    }
    if !fine.can_block(fine_block) {
        return Ok(false);
    }
    if !is_width(width) {
        return Ok(false);
    }
    if !can_compare(region.frame(), step, step) {
        return Ok(false);
    }
    let below = can_compare(region.frame(), step, same_ratio());
    Ok(below)
}

/// Whether there is room for the patches of all fields on both.
///
/// # Errors
///
/// Where memory is short.
pub fn can_hold(
    alloc: Global,
    region: &Region,
    fine: &Region,
    block: IVec,
    step: Ratio,
    fine_block: IVec,
    ranks: u16,
    width: IVec,
    widths: &[IVec],
) -> Result<bool, NoMemory>
    requires cover { CanCover region.now block step fine_block ranks width }
    requires fine { fine.now ≡ finer_area region.now step }
    ensures { IfOk result (λ t. IsTrue t → CanHold region.now block step fine_block ranks widths.now) }
{
    if widths.len() > 255 {
        return Ok(false);
    }
    let level = whole_level0(alloc, region, block, ranks)?;
    if !have_rooms(level.as_slice(), widths) {
        return Ok(false);
    }
    let over = whole_level0(alloc, fine, fine_block, ranks)?;
    let room = have_rooms(over.as_slice(), widths);
    Ok(room)
}

/// Whether fields with some rules can have all values below a bound.
pub fn are_fields(bound: u32, rules: &[Rules]) -> bool
    requires { All IsRules rules.now }
    ensures { IsTrue result → AreFields bound rules.now }
{
    if bound == 0 {
        return false;
    }
    is_least(bound, rules)
}

/// Whether fields with some rules can have values below a bound on both, and the finer ones come of the coarser by refinement.
///
/// # Errors
///
/// Where memory is short.
pub fn can_refine(
    alloc: Global,
    region: &Region,
    fine: &Region,
    block: IVec,
    step: Ratio,
    fine_block: IVec,
    ranks: u16,
    width: IVec,
    bound: u32,
    rules: &[Rules],
) -> Result<bool, NoMemory>
    requires finer { IsSpace (finer region.now.frame step) }
    requires fine { fine.now ≡ finer_area region.now step }
    requires ranges { All IsRules rules.now }
    ensures { IfOk result (λ t. IsTrue t → CanRefine region.now block step fine_block ranks width bound rules.now) }
{
    if !are_fields(bound, rules) {
        return Ok(false);
    }
    if !is_small(step) {
        return Ok(false);
    }
    let cover = can_cover(alloc, region, fine, block, step, fine_block, ranks, width)?;
    if !cover {
        return Ok(false);
    }
    let widths = widths_of(alloc, rules)?;
    let hold = can_hold(
        alloc,
        region,
        fine,
        block,
        step,
        fine_block,
        ranks,
        width,
        widths.as_slice(),
    )?;
    Ok(hold)
}
