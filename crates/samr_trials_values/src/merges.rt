//! Tests of what a coarsening asks of its numbers.

ghost use Rattle.std.specs.Prelude.{◌≡◌, ◌<◌, ◌^◌, pos, IsTrue, IfOk};
ghost use Rattle.std.specs.List.{All};
ghost use Rattle.samr_box.specs.Vector.{alike, AtMost};
ghost use Rattle.samr_box.specs.Corners.{IsBox, cells_of};
ghost use Rattle.samr_box.specs.Space.{IsSpace, finer};
ghost use Rattle.samr_level.specs.Regions.{finer_area};
ghost use Rattle.samr_values.specs.Parcels.{same_box};
ghost use Rattle.samr_values.specs.Coarsen.{IsRefinement};
ghost use Rattle.samr_trials_levels.specs.Cover.{CanCover, CanHold};
ghost use Rattle.samr_trials_values.specs.Coarsenings.{AreMerges, CanCoarsen};

use samr_box::{IBox, IVec, Ratio, coarsen, holds_box, refine};
use samr_level::{BoxRef, Region, whole_level0};
use samr_ops::CoarsenRule;
use samr_trials_levels::{can_cover, can_hold, has_few};
use std::alloc::{AllocError as NoMemory, Global};

const LEAST: IVec = IVec { k: 0, j: 0, i: 0 };

const GREATEST: IVec = IVec {
    k: 1_000,
    j: 1_000,
    i: 1_000,
};

fn is_same(a: IBox, b: IBox) -> bool
    ensures { result ≡ same_box a b }
{
    holds_box(a, b) && holds_box(b, a)
}

/// Whether a box has only cells from 0 to 1,000 on each axis.
fn is_small(b: IBox) -> bool
    ensures whole { IsTrue result → IsBox b }
    ensures low { IsTrue result → AtMost (alike (pos 0)) b.lo }
    ensures high { IsTrue result → AtMost b.hi (alike (pos 1000)) }
{
    if !LEAST.at_most(b.lo) {
        return false;
    }
    b.hi.at_most(GREATEST)
}

/// Whether a box consists of all cells over coarse ones.
fn is_refinement(b: IBox, step: Ratio) -> bool
    ensures { IsTrue result → IsRefinement step b }
{
    let _ = step.factors();
    let under = coarsen(b, step);
    if !is_small(under) {
        return false;
    }
    is_same(refine(under, step), b)
}

/// Whether all boxes of a level do.
fn are_refinements(level: &[BoxRef], step: Ratio) -> bool
    ensures { IsTrue result → All (λ b. IsRefinement step b.bx) level.now }
{
    for b in level {
        if !is_refinement(b.bx, step) {
            return false;
        }
    }
    true
}

/// Whether each box of a level has fewer than 2^62 cells.
fn have_few(level: &[BoxRef]) -> bool
    ensures { IsTrue result → All (λ b. cells_of b.bx < 2 ^ 62) level.now }
{
    for b in level {
        if !has_few(b.bx) {
            return false;
        }
    }
    true
}

/// Whether a modulus is not 0.
fn is_some(modulus: u32) -> bool
    ensures { IsTrue result → 0 < modulus }
{
    modulus != 0
}

/// Whether no modulus is 0.
fn none_zero(moduli: &[u32]) -> bool
    ensures { IsTrue result → All (λ m. 0 < m) moduli.now }
{
    for m in moduli {
        if !is_some(*m) {
            return false;
        }
    }
    true
}

/// Whether each field has a rule and a modulus that is not 0.
fn are_merges(rules: &[CoarsenRule], moduli: &[u32], widths: &[IVec]) -> bool
    ensures { IsTrue result → AreMerges rules.now moduli.now widths.now }
{
    if rules.len() != widths.len() {
        return false;
    }
    if moduli.len() != widths.len() {
        return false;
    }
    none_zero(moduli)
}

/// Whether the boxes of both levels are fit for it.
fn are_fit(
    alloc: Global,
    region: &Region,
    fine: &Region,
    block: IVec,
    step: Ratio,
    fine_block: IVec,
    ranks: u16,
    width: IVec,
    bound: u32,
    rules: &[CoarsenRule],
    moduli: &[u32],
    widths: &[IVec],
) -> Result<bool, NoMemory>
    requires fine { fine.now ≡ finer_area region.now step }
    requires some { 0 < bound }
    requires cover { CanCover region.now block step fine_block ranks width }
    requires hold { CanHold region.now block step fine_block ranks widths.now }
    ensures { IfOk result (λ t. IsTrue t → CanCoarsen region.now block step fine_block ranks width bound rules.now moduli.now widths.now) }
{
    if !are_merges(rules, moduli, widths) {
        return Ok(false);
    }
    let level = whole_level0(alloc, region, block, ranks)?;
    if !have_few(level.as_slice()) {
        return Ok(false);
    }
    let over = whole_level0(alloc, fine, fine_block, ranks)?;
    let fit = are_refinements(over.as_slice(), step);
    Ok(fit)
}

/// Whether level 0 can be coarsened into.
pub(crate) fn can_coarsen(
    alloc: Global,
    region: &Region,
    fine: &Region,
    block: IVec,
    step: Ratio,
    fine_block: IVec,
    ranks: u16,
    width: IVec,
    bound: u32,
    rules: &[CoarsenRule],
    moduli: &[u32],
    widths: &[IVec],
) -> Result<bool, NoMemory>
    requires finer { IsSpace (finer region.now.frame step) }
    requires fine { fine.now ≡ finer_area region.now step }
    ensures { IfOk result (λ t. IsTrue t → CanCoarsen region.now block step fine_block ranks width bound rules.now moduli.now widths.now) }
{
    if bound == 0 {
        return Ok(false);
    }
    let cover = can_cover(alloc, region, fine, block, step, fine_block, ranks, width)?;
    if !cover {
        return Ok(false);
    }
    let hold = can_hold(
        alloc, region, fine, block, step, fine_block, ranks, width, widths,
    )?;
    if !hold {
        return Ok(false);
    }
    let fit = are_fit(
        alloc, region, fine, block, step, fine_block, ranks, width, bound, rules, moduli, widths,
    )?;
    Ok(fit)
}
