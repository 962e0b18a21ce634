//! Coarsening into level 0, as a whole run.

ghost use Rattle.std.specs.Prelude.{◌≡◌, IfOk, IfSome, length};
ghost use Rattle.samr_stage.specs.Exchange.{AreResults};
ghost use Rattle.samr_level.specs.Regions.{finer_area};
ghost use Rattle.samr_values.specs.Coarsen.{coarsened_patches};
ghost use Rattle.samr_trials_values.specs.Coarsenings.{coarsening, coarsening_of, CanCoarsen, CanCoarsenOver};

use crate::merges::can_coarsen;
use samr_box::{Domain, IBox, IVec, Listed, Ratio};
use samr_data::Patch;
use samr_level::{BoxRef, Region, whole_level0};
use samr_ops::CoarsenRule;
use samr_trials_levels::{
    COARSE_START, FINE_START, all_patches, finer_region, kept_boxes, pairs_of, same_ratio,
};
use samr_values::coarsen_all;
use std::alloc::{AllocError as NoMemory, Global};

/// The first values of level 0 after coarsening, from the first values of a level over it.
fn coarsened_under(
    alloc: Global,
    frame: &Domain,
    step: Ratio,
    ranks: u16,
    width: IVec,
    bound: u32,
    fine: &[BoxRef],
    coarser: &[BoxRef],
    rules: &[CoarsenRule],
    moduli: &[u32],
    widths: &[IVec],
) -> Result<Vec<Listed<Listed<Patch>>>, NoMemory>
    requires { CanCoarsenOver frame.now step ranks width bound rules.now moduli.now widths.now fine.now coarser.now }
    ensures count { IfOk result (λ outs. length outs.items ≡ ranks) }
    ensures values { IfOk result (λ outs. AreResults (λ w rank out. out ≡ coarsened_patches w rank) (coarsening_of frame.now step ranks width bound rules.now moduli.now widths.now fine.now coarser.now) outs.items) }
{
    let one = same_ratio();
    let pairs = pairs_of(alloc, ranks, frame, width, step, fine, one, coarser)?;
    let over = all_patches(alloc, fine, widths, bound, FINE_START, ranks)?;
    let under = all_patches(alloc, coarser, widths, bound, COARSE_START, ranks)?;
    let outs = coarsen_all(
        alloc,
        pairs.as_slice(),
        over.as_slice(),
        under,
        rules,
        moduli,
    )?;
    Ok(outs)
}

/// The same for levels of blocks.
fn coarsened_blocks(
    alloc: Global,
    region: &Region,
    fine: &Region,
    block: IVec,
    step: Ratio,
    fine_block: IVec,
    over: u64,
    ranks: u16,
    width: IVec,
    bound: u32,
    rules: &[CoarsenRule],
    moduli: &[u32],
    widths: &[IVec],
) -> Result<Vec<Listed<Listed<Patch>>>, NoMemory>
    requires fine { fine.now ≡ finer_area region.now step }
    requires can { CanCoarsen region.now block step fine_block ranks width bound rules.now moduli.now widths.now }
    ensures count { IfOk result (λ outs. length outs.items ≡ ranks) }
    ensures values { IfOk result (λ outs. AreResults (λ w rank out. out ≡ coarsened_patches w rank) (coarsening region.now block step fine_block over ranks width bound rules.now moduli.now widths.now) outs.items) }
{
    let coarser = whole_level0(alloc, region, block, ranks)?;
    let all = whole_level0(alloc, fine, fine_block, ranks)?;
    let boxes = kept_boxes(alloc, all.as_slice(), over)?;
    let outs = coarsened_under(
        alloc,
        region.frame(),
        step,
        ranks,
        width,
        bound,
        boxes.as_slice(),
        coarser.as_slice(),
        rules,
        moduli,
        widths,
    )?;
    Ok(outs)
}

/// The patches of level 0 on all ranks after coarsening, by rank, field and box, on one thread. Level 0 consists of all blocks of a
/// domain, which is a frame, or its parts where there are any. The level over it is those blocks of the domain refined by `step`
/// whose places in level order are those of binary digits 1 of `over`. At first each cell has a value below `bound` that its field, its coordinates and its
/// level tell. Each field has a rule, a modulus and a width of ghost cells. Overlaps are known at `width`. `None` where a
/// number is not fit for it, as where a block of the finer level does not consist of all cells over coarse ones.
///
/// # Errors
///
/// Where memory is short.
pub fn coarsen(
    alloc: Global,
    frame: Domain,
    parts: &[IBox],
    block: IVec,
    step: Ratio,
    fine_block: IVec,
    over: u64,
    ranks: u16,
    width: IVec,
    bound: u32,
    rules: &[CoarsenRule],
    moduli: &[u32],
    widths: &[IVec],
) -> Result<Option<Vec<Listed<Listed<Patch>>>>, NoMemory>
    ensures { IfOk result (λ made. IfSome made (λ outs. (length outs.items ≡ ranks)
        × AreResults (λ w rank out. out ≡ coarsened_patches w rank) (coarsening (record { frame = frame; parts = parts.now }) block step fine_block over ranks width bound rules.now moduli.now widths.now) outs.items)) }
{
    let copied = Vec::from_slice(alloc, parts)?;
    let Some(region) = Region::new(frame, copied) else {
        return Ok(None);
    };
    let Some(fine) = finer_region(alloc, &region, step)? else {
        return Ok(None);
    };
    let can = can_coarsen(
        alloc, &region, &fine, block, step, fine_block, ranks, width, bound, rules, moduli, widths,
    )?;
    if !can {
        return Ok(None);
    }
    let outs = coarsened_blocks(
        alloc, &region, &fine, block, step, fine_block, over, ranks, width, bound, rules, moduli,
        widths,
    )?;
    Ok(Some(outs))
}
