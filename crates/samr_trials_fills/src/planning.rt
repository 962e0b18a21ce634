//! The plans of a level on all ranks.

ghost use Rattle.std.specs.Prelude.{◌≡◌, ◌<◌, ◌^◌, pos, [], IfOk, length, map};
ghost use Rattle.std.specs.List.{range_with_len};
ghost use Rattle.samr_box.specs.Vector.{alike, InRange};
ghost use Rattle.samr_level.specs.Pairs.{part};
ghost use Rattle.samr_stage.specs.Exchange.{AreResults};
ghost use Rattle.samr_sched.specs.AskParts.{CanPlan};
ghost use Rattle.samr_sched.specs.Plans.{plan_of};
ghost use Rattle.samr_trials_levels.specs.Cover.{CanCompare};
ghost use Rattle.samr_trials_fills.specs.Fills.{schedule_of};

use samr_box::{IVec, Listed, Ratio};
use samr_level::{BoxRef, Part, Region};
use samr_sched::{Plan, ask_all};
use samr_trials_levels::{pairs_if_any, pairs_of, same_ratio};
use std::alloc::{AllocError as NoMemory, Global};

/// A rank's part of a level.
#[tactic(auto, unfolding(samr_level::specs::Levels::own))]
fn level_part(alloc: Global, rank: u16, level: &[BoxRef]) -> Result<Part, NoMemory>
    ensures { IfOk result (λ p. p ≡ part level.now rank) }
{
    let mut boxes = Vec::new(alloc);
    for b in level {
        if b.owner == rank {
            boxes.push(b.bx)?;
        }
    }
    Ok(Part {
        rank,
        boxes: Listed::from_vec(boxes),
    })
}

/// The parts of a level on all ranks.
fn parts_of(alloc: Global, ranks: u16, level: &[BoxRef]) -> Result<Vec<Part>, NoMemory>
    ensures { IfOk result (λ v. v.items ≡ map (λ rank. part level.now rank) (range_with_len 0 ranks)) }
{
    let mut parts = Vec::new(alloc);
    'each: for rank in 0..ranks {
        parts.push(level_part(alloc, rank, level)?)?;
    }
    Ok(parts)
}

/// The plans of a level on all ranks, for ghost cells of these widths.
pub(crate) fn plans_of(
    alloc: Global,
    region: &Region,
    step: Ratio,
    ranks: u16,
    width: IVec,
    level: &[BoxRef],
    coarser: &[BoxRef],
    ghosts: &[IVec],
    fixed: &[u32],
) -> Result<Vec<Plan>, NoMemory>
    requires width { InRange width }
    requires same { CanCompare region.now.frame step step }
    requires below { CanCompare region.now.frame step (alike (pos 1)) }
    requires alone { coarser.now ≡ [] → step ≡ alike (pos 1) }
    requires few { length ghosts.now < 2 ^ 8 }
    requires can { CanPlan (schedule_of region.now step ranks width ghosts.now fixed.now level.now coarser.now) }
    ensures count { IfOk result (λ v. length v.items ≡ ranks) }
    ensures plans { IfOk result (λ v. AreResults (λ w rank out. out ≡ plan_of w rank) (schedule_of region.now step ranks width ghosts.now fixed.now level.now coarser.now) v.items) }
{
    let one = same_ratio();
    let frame = region.frame();
    let parts = parts_of(alloc, ranks, level)?;
    let selves = pairs_of(alloc, ranks, frame, width, step, level, step, level)?;
    let downs = pairs_if_any(alloc, ranks, frame, width, step, level, one, coarser)?;
    let plans = ask_all(
        alloc,
        region,
        parts.as_slice(),
        selves.as_slice(),
        downs.as_slice(),
        ghosts,
        fixed,
    )?;
    Ok(plans)
}
