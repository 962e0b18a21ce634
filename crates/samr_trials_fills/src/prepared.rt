//! What all ranks have before a fill.

ghost use Rattle.std.specs.Prelude.{◌≡◌, IfOk, IfSome};
ghost use Rattle.std.specs.List.{All};
ghost use Rattle.samr_level.specs.Regions.{finer_area};
ghost use Rattle.samr_ops.specs.Rules.{IsRules};
ghost use Rattle.samr_trials_fills.specs.Fills.{filling_of, filling0, filling_over, CanFill0, CanFillOver, CanPrepare};
ghost use Rattle.samr_trials_fills.specs.Ready.{AreReady};

use crate::planning::plans_of;
use crate::premises::{can_fill_over, can_fill0};
use samr_box::{Domain, IBox, IVec, Listed, Ratio};
use samr_data::Patch;
use samr_level::{BoxRef, Region, whole_level0};
use samr_ops::Rules;
use samr_sched::Plan;
use samr_trials_levels::{
    COARSE_START, FINE_START, all_patches, finer_region, kept_boxes, same_ratio, widths_of,
};
use std::alloc::{AllocError as NoMemory, Global};

/// What all ranks have before a fill, in order of rank: their plans, their patches of the level, and those of the
/// level below.
#[derive(Drop)]
pub struct Prepared {
    pub(crate) plans: Vec<Plan>,
    pub(crate) own: Vec<Listed<Listed<Patch>>>,
    pub(crate) below: Vec<Listed<Listed<Patch>>>,
}

/// What ranks have before a fill of a level over some boxes.
fn made_ready(
    alloc: Global,
    region: &Region,
    step: Ratio,
    ranks: u16,
    width: IVec,
    bound: u32,
    fixed: &[u32],
    rules: &[Rules],
    level: &[BoxRef],
    coarser: &[BoxRef],
) -> Result<Prepared, NoMemory>
    requires { CanPrepare region.now step ranks width bound fixed.now rules.now level.now coarser.now }
    ensures { IfOk result (λ p. AreReady p rules.now (filling_of region.now step ranks width bound fixed.now rules.now level.now coarser.now)) }
{
    let widths = widths_of(alloc, rules)?;
    let ghosts = widths.as_slice();
    let plans = plans_of(
        alloc, region, step, ranks, width, level, coarser, ghosts, fixed,
    )?;
    let own = all_patches(alloc, level, ghosts, bound, FINE_START, ranks)?;
    let below = all_patches(alloc, coarser, ghosts, bound, COARSE_START, ranks)?;
    Ok(Prepared { plans, own, below })
}

/// The same for level 0.
fn ready0(
    alloc: Global,
    region: &Region,
    block: IVec,
    ranks: u16,
    width: IVec,
    bound: u32,
    fixed: &[u32],
    rules: &[Rules],
) -> Result<Prepared, NoMemory>
    requires { CanFill0 region.now block ranks width bound fixed.now rules.now }
    ensures { IfOk result (λ p. AreReady p rules.now (filling0 region.now block ranks width bound fixed.now rules.now)) }
{
    let one = same_ratio();
    let none: Vec<BoxRef> = Vec::new(alloc);
    let level = whole_level0(alloc, region, block, ranks)?;
    let ready = made_ready(
        alloc,
        region,
        one,
        ranks,
        width,
        bound,
        fixed,
        rules,
        level.as_slice(),
        none.as_slice(),
    )?;
    Ok(ready)
}

/// The same for blocks over it.
fn ready_over(
    alloc: Global,
    region: &Region,
    fine: &Region,
    block: IVec,
    step: Ratio,
    fine_block: IVec,
    over: u64,
    ranks: u16,
    width: IVec,
    bound: u32,
    fixed: &[u32],
    rules: &[Rules],
) -> Result<Prepared, NoMemory>
    requires fine { fine.now ≡ finer_area region.now step }
    requires can { CanFillOver region.now block step fine_block ranks width bound fixed.now rules.now }
    ensures { IfOk result (λ p. AreReady p rules.now (filling_over region.now block step fine_block over ranks width bound fixed.now rules.now)) }
{
    let coarser = whole_level0(alloc, region, block, ranks)?;
    let blocks = whole_level0(alloc, fine, fine_block, ranks)?;
    let level = kept_boxes(alloc, blocks.as_slice(), over)?;
    let ready = made_ready(
        alloc,
        region,
        step,
        ranks,
        width,
        bound,
        fixed,
        rules,
        level.as_slice(),
        coarser.as_slice(),
    )?;
    Ok(ready)
}

/// What ranks have before a fill of level 0, all blocks of a domain, for fields with these rules. The domain is a frame, or
/// its parts where there are any, and `fixed` has the value beyond the borders of each field where there are. At first each cell
/// of the level has a value below `bound`, which is at most each modulus, that its field and its coordinates tell. Overlaps
/// are known at `width`, which no ghost cell exceeds. `None` where a number is not fit for it.
///
/// # Errors
///
/// Where memory is short.
pub fn prepare(
    alloc: Global,
    frame: Domain,
    parts: &[IBox],
    block: IVec,
    ranks: u16,
    width: IVec,
    bound: u32,
    fixed: &[u32],
    rules: &[Rules],
) -> Result<Option<Prepared>, NoMemory>
    requires { All IsRules rules.now }
    ensures { IfOk result (λ made. IfSome made (λ p. AreReady p rules.now (filling0 (record { frame = frame; parts = parts.now }) block ranks width bound fixed.now rules.now))) }
{
    let copied = Vec::from_slice(alloc, parts)?;
    let Some(region) = Region::new(frame, copied) else {
        return Ok(None);
    };
    let can = can_fill0(
        alloc, &region, parts, block, ranks, width, bound, fixed, rules,
    )?;
    if !can {
        return Ok(None);
    }
    let ready = ready0(alloc, &region, block, ranks, width, bound, fixed, rules)?;
    Ok(Some(ready))
}

/// What ranks have before a fill of a level over level 0: those blocks of the domain refined by `step` whose places in
/// level order are those of binary digits 1 of `over`. Level 0 below has other first values; all else is as for `prepare`.
///
/// # Errors
///
/// Where memory is short.
pub fn prepare_over(
    alloc: Global,
    frame: Domain,
    parts: &[IBox],
    block: IVec,
    step: Ratio,
    fine_block: IVec,
    over: u64,
    ranks: u16,
    width: IVec,
    bound: u32,
    fixed: &[u32],
    rules: &[Rules],
) -> Result<Option<Prepared>, NoMemory>
    requires { All IsRules rules.now }
    ensures { IfOk result (λ made. IfSome made (λ p. AreReady p rules.now (filling_over (record { frame = frame; parts = parts.now }) block step fine_block over ranks width bound fixed.now rules.now))) }
{
    let copied = Vec::from_slice(alloc, parts)?;
    let Some(region) = Region::new(frame, copied) else {
        return Ok(None);
    };
    let Some(fine) = finer_region(alloc, &region, step)? else {
        return Ok(None);
    };
    let can = can_fill_over(
        alloc, &region, &fine, parts, block, step, fine_block, ranks, width, bound, fixed, rules,
    )?;
    if !can {
        return Ok(None);
    }
    let ready = ready_over(
        alloc, &region, &fine, block, step, fine_block, over, ranks, width, bound, fixed, rules,
    )?;
    Ok(Some(ready))
}
