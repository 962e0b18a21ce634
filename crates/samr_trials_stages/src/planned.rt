//! Plans of whole levels on all ranks: what has to hold of numbers is tested first.

ghost use Rattle.std.specs.Prelude.{◌≡◌, ◌<◌, IsTrue, IfSome, length};
ghost use Rattle.std.specs.List.{All};
ghost use Rattle.samr_box.specs.Vector.{times, AtMost, InRange, IsRatio};
ghost use Rattle.samr_box.specs.Corners.{IsBox, grown};
ghost use Rattle.samr_box.specs.Space.{IsSpace, finer};
ghost use Rattle.samr_trials_levels.specs.Cover.{CanCompare};

use crate::levels::{Side, all_fit, are_comparable, has_space, pairs_between, parts_of};
use samr_box::{Domain, IBox, IVec, Ratio};
use samr_level::{BoxRef, Pair, Region, in_level_order};
use samr_sched::{Plan, ask_all};
use samr_trials_levels::is_width;
use std::alloc::{AllocError as NoMemory, Global};

/// The ratio with these factors, if it is one.
fn ratio_from(factors: IVec) -> Option<Ratio>
    ensures { IfSome result (λ r. r ≡ factors) }
{
    Ratio::new(factors.i, factors.j, factors.k)
}

/// The product of two ratios, if it is one.
fn product(a: Ratio, b: Ratio) -> Option<Ratio>
    ensures value { IfSome result (λ r. r ≡ times a b) }
    ensures second { IsRatio b }
{
    ratio_from(a.factors().times(b.factors()))
}

/// Whether a box, grown by a width, is a box.
fn can_grow(b: IBox, width: IVec) -> bool
    requires { InRange width }
    ensures { IsTrue result → IsBox (grown b width) }
{
    IBox::new(b.lo.minus(width), b.hi.plus(width)).is_some()
}

fn all_grow(level: &[BoxRef], width: IVec) -> bool
    requires { InRange width }
    ensures { IsTrue result → All (λ b. IsBox (grown b.bx width)) level.now }
{
    for b in level {
        if !can_grow(b.bx, width) {
            return false;
        }
    }
    true
}

/// Whether ghost cells of this width can be planned, where overlaps are known at another.
fn ghost_fits(rim: IVec, width: IVec, level: &[BoxRef]) -> bool
    ensures { IsTrue result → AtMost rim width × All (λ b. IsBox (grown b.bx rim)) level.now }
{
    if !is_width(rim) {
        return false;
    }
    if !rim.at_most(width) {
        return false;
    }
    all_grow(level, rim)
}

fn ghosts_fit(ghosts: &[IVec], width: IVec, level: &[BoxRef]) -> bool
    ensures { IsTrue result → All (λ g. AtMost g width × All (λ b. IsBox (grown b.bx g)) level.now) ghosts.now }
{
    for rim in ghosts {
        if !ghost_fits(*rim, width, level) {
            return false;
        }
    }
    true
}

/// The plans of level 0 on all ranks by way of their letters: `None` where a number is not fit for it.
pub fn asked_alone(
    alloc: Global,
    ranks: u16,
    region: &Region,
    boxes: Vec<BoxRef>,
    width: IVec,
    ghosts: &[IVec],
    fixed: &[u32],
) -> Result<Option<Vec<Plan>>, NoMemory> {
    let Some(ratio) = Ratio::new(1, 1, 1) else {
        return Ok(None);
    };
    let boxes = in_level_order(boxes);
    let level = Side { ratio, boxes };
    if !is_width(width) {
        return Ok(None);
    }
    if !are_comparable(region.frame(), &level, &level) {
        return Ok(None);
    }
    if !all_fit(ranks, level.boxes.as_slice()) {
        return Ok(None);
    }
    if !ghosts_fit(ghosts, width, level.boxes.as_slice()) {
        return Ok(None);
    }
    if ghosts.len() > 4 {
        return Ok(None);
    }
    let _cells = region.boxes(alloc)?;
    let parts = parts_of(alloc, ranks, level.boxes.as_slice())?;
    let selves = pairs_between(alloc, ranks, region.frame(), width, &level, &level)?;
    let none: Vec<Pair> = Vec::new(alloc);
    let plans = ask_all(
        alloc,
        region,
        parts.as_slice(),
        selves.as_slice(),
        none.as_slice(),
        ghosts,
        fixed,
    )?;
    Ok(Some(plans))
}

/// The plans of a level over another on all ranks by way of their letters.
pub fn asked_over(
    alloc: Global,
    ranks: u16,
    region: &Region,
    boxes: Vec<BoxRef>,
    step: Ratio,
    below: Ratio,
    coarser: Vec<BoxRef>,
    width: IVec,
    reach: IVec,
    ghosts: &[IVec],
) -> Result<Option<Vec<Plan>>, NoMemory> {
    let Some(ratio) = product(below, step) else {
        return Ok(None);
    };
    let _factors = ratio.factors();
    let level = Side {
        ratio,
        boxes: in_level_order(boxes),
    };
    let under = Side {
        ratio: below,
        boxes: in_level_order(coarser),
    };
    if !is_fit(ranks, region.frame(), &level, &under, width, reach, ghosts) {
        return Ok(None);
    }
    let _cells = region.boxes(alloc)?;
    let parts = parts_of(alloc, ranks, level.boxes.as_slice())?;
    let selves = pairs_between(alloc, ranks, region.frame(), width, &level, &level)?;
    let downs = pairs_between(alloc, ranks, region.frame(), reach, &level, &under)?;
    let plans = ask_all(
        alloc,
        region,
        parts.as_slice(),
        selves.as_slice(),
        downs.as_slice(),
        ghosts,
        [].as_slice(),
    )?;
    Ok(Some(plans))
}

/// Whether widths, frames, owners and boxes are fit for plans.
fn is_fit(
    ranks: u16,
    d: &Domain,
    level: &Side,
    under: &Side,
    width: IVec,
    reach: IVec,
    ghosts: &[IVec],
) -> bool
    ensures width { IsTrue result → InRange width }
    ensures reach { IsTrue result → InRange reach }
    ensures frame { IsTrue result → IsSpace (finer d.now level.now.ratio) }
    ensures below { IsTrue result → IsSpace (finer d.now under.now.ratio) }
    ensures selves { IsTrue result → CanCompare d.now level.now.ratio level.now.ratio }
    ensures downs { IsTrue result → CanCompare d.now level.now.ratio under.now.ratio }
    ensures owners { IsTrue result → All (λ b. (b.owner < ranks) × IsBox b.bx) level.now.boxes.items }
    ensures owners_below { IsTrue result → All (λ b. (b.owner < ranks) × IsBox b.bx) under.now.boxes.items }
    ensures ghosts { IsTrue result → All (λ g. AtMost g width × All (λ b. IsBox (grown b.bx g)) level.now.boxes.items) ghosts.now }
    ensures few { IsTrue result → length ghosts.now < 5 }
{
    if !is_width(width) {
        return false;
    }
    if !is_width(reach) {
        return false;
    }
    if !has_space(d, level.ratio) {
        return false;
    }
    if !has_space(d, under.ratio) {
        return false;
    }
    if !are_comparable(d, level, level) {
        return false;
    }
    if !are_comparable(d, level, under) {
        return false;
    }
    if !all_fit(ranks, level.boxes.as_slice()) {
        return false;
    }
    if !all_fit(ranks, under.boxes.as_slice()) {
        return false;
    }
    if !ghosts_fit(ghosts, width, level.boxes.as_slice()) {
        return false;
    }
    ghosts.len() < 5
}
