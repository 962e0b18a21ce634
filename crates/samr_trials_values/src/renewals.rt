//! The values of a new level of blocks, as a whole run.

ghost use Rattle.std.specs.Prelude.{◌≡◌, IfOk, IfSome, length};
ghost use Rattle.samr_stage.specs.Exchange.{AreResults};
ghost use Rattle.samr_level.specs.Regions.{finer_area};
ghost use Rattle.samr_values.specs.Values.{renewed};
ghost use Rattle.samr_trials_levels.specs.Cover.{CanRefine};
ghost use Rattle.samr_trials_values.specs.Renewals.{renewing, renewing_of, CanRenewOver};

use samr_box::{Domain, IBox, IVec, Listed, Ratio};
use samr_data::Patch;
use samr_level::{BoxRef, Region, whole_level0};
use samr_ops::{Bounds, Refines, Rules, Strategy, Updates};
use samr_trials_levels::{
    COARSE_START, FINE_START, all_patches, boxes_by_rank, can_refine, finer_region, kept_boxes,
    pairs_if_any, pairs_of, rules_of, same_ratio, widths_of,
};
use samr_values::values_all;
use std::alloc::{AllocError as NoMemory, Global};

/// The values of a new level, from the first values of an old level and of level 0 below.
fn renewed_over<R: Refines, B: Bounds, U: Updates>(
    alloc: Global,
    frame: &Domain,
    step: Ratio,
    ranks: u16,
    width: IVec,
    bound: u32,
    news: &[BoxRef],
    olds: &[BoxRef],
    coarser: &[BoxRef],
    rules: &[Rules],
    strategies: &[Strategy<R, B, U>],
) -> Result<Vec<Listed<Listed<Patch>>>, NoMemory>
    requires rules { rules.now ≡ strategies.now }
    requires can { CanRenewOver frame.now step ranks width bound rules.now news.now olds.now coarser.now }
    ensures count { IfOk result (λ outs. length outs.items ≡ ranks) }
    ensures values { IfOk result (λ outs. AreResults (λ w rank out. out ≡ renewed w rank) (renewing_of frame.now step ranks width bound rules.now news.now olds.now coarser.now) outs.items) }
{
    let one = same_ratio();
    let widths = widths_of(alloc, rules)?;
    let ghosts = widths.as_slice();
    let boxes = boxes_by_rank(alloc, news, ranks)?;
    let same = pairs_if_any(alloc, ranks, frame, width, step, news, step, olds)?;
    let below = pairs_of(alloc, ranks, frame, width, step, news, one, coarser)?;
    let patches = all_patches(alloc, olds, ghosts, bound, FINE_START, ranks)?;
    let under = all_patches(alloc, coarser, ghosts, bound, COARSE_START, ranks)?;
    let outs = values_all(
        alloc,
        boxes.as_slice(),
        same.as_slice(),
        below.as_slice(),
        step,
        patches.as_slice(),
        under.as_slice(),
        strategies,
    )?;
    Ok(outs)
}

/// The same for levels of blocks.
fn renewed_blocks<R: Refines, B: Bounds, U: Updates>(
    alloc: Global,
    region: &Region,
    fine: &Region,
    block: IVec,
    step: Ratio,
    fine_block: IVec,
    news: u64,
    olds: u64,
    ranks: u16,
    width: IVec,
    bound: u32,
    rules: &[Rules],
    strategies: &[Strategy<R, B, U>],
) -> Result<Vec<Listed<Listed<Patch>>>, NoMemory>
    requires rules { rules.now ≡ strategies.now }
    requires fine { fine.now ≡ finer_area region.now step }
    requires can { CanRefine region.now block step fine_block ranks width bound rules.now }
    ensures count { IfOk result (λ outs. length outs.items ≡ ranks) }
    ensures values { IfOk result (λ outs. AreResults (λ w rank out. out ≡ renewed w rank) (renewing region.now block step fine_block news olds ranks width bound rules.now) outs.items) }
{
    let coarser = whole_level0(alloc, region, block, ranks)?;
    let over = whole_level0(alloc, fine, fine_block, ranks)?;
    let blocks = over.as_slice();
    let new_boxes = kept_boxes(alloc, blocks, news)?;
    let old_boxes = kept_boxes(alloc, blocks, olds)?;
    let outs = renewed_over(
        alloc,
        region.frame(),
        step,
        ranks,
        width,
        bound,
        new_boxes.as_slice(),
        old_boxes.as_slice(),
        coarser.as_slice(),
        rules,
        strategies,
    )?;
    Ok(outs)
}

/// The values of a new level on all ranks, by rank, field and box, on one thread. Level 0 consists of all blocks of a domain, which
/// is a frame, or its parts where there are any. The new level and the old one of its number are those blocks of the domain
/// refined by `step` whose places in level order are those of binary digits 1 of `news` and `olds`. At first each cell has a value
/// below `bound`, which is at most each modulus, that its field, its coordinates and its level tell. Overlaps are known at
/// `width`. `None` where a number is not fit for it.
///
/// # Errors
///
/// Where memory is short.
pub fn renew<R: Refines, B: Bounds, U: Updates>(
    alloc: Global,
    frame: Domain,
    parts: &[IBox],
    block: IVec,
    step: Ratio,
    fine_block: IVec,
    news: u64,
    olds: u64,
    ranks: u16,
    width: IVec,
    bound: u32,
    strategies: &[Strategy<R, B, U>],
) -> Result<Option<Vec<Listed<Listed<Patch>>>>, NoMemory>
    ensures { IfOk result (λ made. IfSome made (λ outs. (length outs.items ≡ ranks)
        × AreResults (λ w rank out. out ≡ renewed w rank) (renewing (record { frame = frame; parts = parts.now }) block step fine_block news olds ranks width bound strategies.now) outs.items)) }
{
    let list = rules_of(alloc, strategies)?;
    let rules = list.as_slice();
    let copied = Vec::from_slice(alloc, parts)?;
    let Some(region) = Region::new(frame, copied) else {
        return Ok(None);
    };
    let Some(fine) = finer_region(alloc, &region, step)? else {
        return Ok(None);
    };
    let can = can_refine(
        alloc, &region, &fine, block, step, fine_block, ranks, width, bound, rules,
    )?;
    if !can {
        return Ok(None);
    }
    let outs = renewed_blocks(
        alloc, &region, &fine, block, step, fine_block, news, olds, ranks, width, bound, rules,
        strategies,
    )?;
    Ok(Some(outs))
}
