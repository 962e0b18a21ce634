//! Tests of what a fill asks of its numbers.

ghost use Rattle.std.specs.Prelude.{◌≡◌, ◌<◌, false, true, IsTrue, IfOk, [], length, map};
ghost use Rattle.std.specs.List.{All};
ghost use Rattle.samr_box.specs.declared.vector.Axis.{Axis as AxisOf};
ghost use Rattle.samr_box.specs.Vector.{AtMost};
ghost use Rattle.samr_box.specs.Space.{IsSpace, finer, flag};
ghost use Rattle.samr_level.specs.Regions.{boxes_of, finer_area};
ghost use Rattle.samr_level.specs.Blocks.{IsBlocking, level0};
ghost use Rattle.samr_ops.specs.Rules.{IsRules};
ghost use Rattle.samr_trials_levels.specs.First.{HasRooms};
ghost use Rattle.samr_trials_fills.specs.Fills.{IsNarrow, HasFixed, IsFillable, CanFill0, CanFillOver};

use samr_box::{Axis, Domain, Flags, IBox, IVec, Ratio};
use samr_level::{Region, whole_level0};
use samr_ops::Rules;
use samr_trials_levels::{
    are_fields, can_compare, can_refine, have_rooms, is_width, same_ratio, widths_of,
};
use std::alloc::{AllocError as NoMemory, Global};

/// Whether no ghost cells of some rules lie beyond a width.
fn all_within(rules: &[Rules], width: IVec) -> bool
    ensures { IsTrue result → All (λ r. AtMost r.width width) rules.now }
{
    for r in rules {
        if !r.width.at_most(width) {
            return false;
        }
    }
    true
}

/// Whether no ghost cells of some rules lie beyond a width, which is at most the length of a frame.
fn is_narrow(d: &Domain, width: IVec, rules: &[Rules]) -> bool
    ensures { IsTrue result → IsNarrow d.now width rules.now }
{
    if !width.at_most(d.size) {
        return false;
    }
    all_within(rules, width)
}

/// Whether no axis is periodic.
fn none_periodic(flags: Flags) -> bool
    ensures { IsTrue result → (axis : AxisOf) → flag axis flags ≡ false }
{
    if flags.at(Axis::I) {
        return false;
    }
    if flags.at(Axis::J) {
        return false;
    }
    !flags.at(Axis::K)
}

/// Whether a domain has no parts, or no periodic axis.
fn is_plain(d: &Domain, parts: &[IBox]) -> bool
    ensures { IsTrue result → (axis : AxisOf) → flag axis d.now.periodic ≡ true → parts.now ≡ [] }
{
    if parts.is_empty() {
        return true;
    }
    none_periodic(d.periodic)
}

/// Whether there is a fixed value for each field exactly where the domain has parts.
fn has_fixed(parts: &[IBox], fixed: &[u32], fields: usize) -> bool
    ensures { IsTrue result → HasFixed parts.now fixed.now fields }
{
    if parts.is_empty() {
        return fixed.is_empty();
    }
    if fixed.is_empty() {
        return false;
    }
    fixed.len() == fields
}

/// Whether all ghost cells in a domain with these parts have values.
fn is_fillable(region: &Region, parts: &[IBox], width: IVec, fixed: &[u32], rules: &[Rules]) -> bool
    requires { region.now.parts ≡ parts.now }
    ensures { IsTrue result → IsFillable region.now width fixed.now rules.now }
{
    let frame = region.frame();
    if !is_plain(frame, parts) {
        return false;
    }
    if !is_narrow(frame, width, rules) {
        return false;
    }
    has_fixed(parts, fixed, rules.len())
}

/// Whether there is room for the patches of all fields on level 0.
fn has_room0(
    alloc: Global,
    region: &Region,
    block: IVec,
    ranks: u16,
    rules: &[Rules],
) -> Result<bool, NoMemory>
    requires some { 0 < ranks }
    requires blocks { IsBlocking block (boxes_of region.now) }
    ensures { IfOk result (λ t. IsTrue t → All (HasRooms (level0 region.now block ranks)) (map (λ r. r.width) rules.now)) }
{
    let widths = widths_of(alloc, rules)?;
    let level = whole_level0(alloc, region, block, ranks)?;
    let room = have_rooms(level.as_slice(), widths.as_slice());
    Ok(room)
}

/// Whether level 0 of a domain with these parts can be filled.
pub(crate) fn can_fill0(
    alloc: Global,
    region: &Region,
    parts: &[IBox],
    block: IVec,
    ranks: u16,
    width: IVec,
    bound: u32,
    fixed: &[u32],
    rules: &[Rules],
) -> Result<bool, NoMemory>
    requires parts { region.now.parts ≡ parts.now }
    requires ranges { All IsRules rules.now }
    ensures { IfOk result (λ t. IsTrue t → CanFill0 region.now block ranks width bound fixed.now rules.now) }
{
    let one = same_ratio();
    let _boxes = region.boxes(alloc)?;
    if ranks == 0 {
        return Ok(false);
    }
    if !region.can_block(block) {
        return Ok(false);
    }
    if !is_width(width) {
        return Ok(false);
    }
    if !can_compare(region.frame(), one, one) {
        return Ok(false);
    }
    if rules.len() > 255 {
        return Ok(false);
    }
    if !are_fields(bound, rules) {
        return Ok(false);
    }
    if !is_fillable(region, parts, width, fixed, rules) {
        return Ok(false);
    }
    let room = has_room0(alloc, region, block, ranks, rules)?;
    Ok(room)
}

/// Whether a level of blocks over it can be filled.
pub(crate) fn can_fill_over(
    alloc: Global,
    region: &Region,
    fine: &Region,
    parts: &[IBox],
    block: IVec,
    step: Ratio,
    fine_block: IVec,
    ranks: u16,
    width: IVec,
    bound: u32,
    fixed: &[u32],
    rules: &[Rules],
) -> Result<bool, NoMemory>
    requires finer { IsSpace (finer region.now.frame step) }
    requires fine { fine.now ≡ finer_area region.now step }
    requires parts { region.now.parts ≡ parts.now }
    requires ranges { All IsRules rules.now }
    ensures { IfOk result (λ t. IsTrue t → CanFillOver region.now block step fine_block ranks width bound fixed.now rules.now) }
{
    if !is_fillable(region, parts, width, fixed, rules) {
        return Ok(false);
    }
    let can = can_refine(
        alloc, region, fine, block, step, fine_block, ranks, width, bound, rules,
    )?;
    Ok(can)
}
