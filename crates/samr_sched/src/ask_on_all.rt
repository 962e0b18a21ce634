//! The schedules of a level on all ranks, on one thread.

ghost use Rattle.std.specs.Prelude.{◌≡◌, ◌<◌, ◌^◌, IfOk, length, slice_get};
ghost use Rattle.std.specs.Option.{option_map};
ghost use Rattle.samr_stage.specs.Exchange.{AreResults};
ghost use Rattle.samr_sched.specs.Ask.{Scheduling};
ghost use Rattle.samr_sched.specs.Plans.{plan_of};
ghost use Rattle.samr_sched.specs.AskOnAll.{HaveAllLevels, HaveAllPlans};

use crate::ask::Ask;
use crate::plan::Plan;
use samr_box::IVec;
use samr_level::{Pair, Part, Region};
use samr_stage::exchange;
use std::alloc::{AllocError as NoMemory, Global};

/// A rank's overlaps with the level below, where there is one.
fn pair_at(coarser: &[Pair], place: usize) -> Option<&Pair>
    ensures { option_map (λ p. p.now) result ≡ slice_get coarser.now place }
{
    coarser.get(place)
}

/// The stages of all ranks, in order of rank.
fn stages_of(
    alloc: Global,
    region: &Region,
    parts: &[Part],
    selves: &[Pair],
    coarser: &[Pair],
    ghosts: &[IVec],
    fixed: &[u32],
) -> Result<Vec<Ask>, NoMemory>
    requires ranks { length parts.now < 2 ^ 16 }
    requires few { length ghosts.now < 2 ^ 8 }
    requires parts { (w : Scheduling) × HaveAllLevels region.now parts.now selves.now coarser.now ghosts.now fixed.now w }
    ensures { IfOk result (λ v. (w : Scheduling) → HaveAllLevels region.now parts.now selves.now coarser.now ghosts.now fixed.now w → HaveAllPlans w v.items) }
{
    let ranks = parts.len() as u16;
    let mut stages = Vec::new(alloc);
    'each: for rank in 0..ranks {
        let place = usize::from(rank);
        let stage = Ask::start(
            alloc,
            rank,
            ranks,
            region,
            &parts[place],
            &selves[place],
            pair_at(coarser, place),
            ghosts,
            fixed,
        )?;
        stages.push(stage)?;
    }
    Ok(stages)
}

/// The schedules of a level on all ranks, on one thread: from the boxes and the overlaps of each rank, in order
/// of rank, to its plan. `region` is the domain of level 0, `coarser` has the overlaps with the level below, and
/// none for level 0; `ghosts` has the width of the ghost cells of each field, and `fixed` the value of each beyond
/// the borders of a domain of parts.
///
/// # Errors
///
/// Where memory is short.
pub fn ask_all(
    alloc: Global,
    region: &Region,
    parts: &[Part],
    selves: &[Pair],
    coarser: &[Pair],
    ghosts: &[IVec],
    fixed: &[u32],
) -> Result<Vec<Plan>, NoMemory>
    requires ranks { length parts.now < 2 ^ 16 }
    requires few { length ghosts.now < 2 ^ 8 }
    requires parts { (w : Scheduling) × HaveAllLevels region.now parts.now selves.now coarser.now ghosts.now fixed.now w }
    ensures { IfOk result (λ outs. (w : Scheduling) → HaveAllLevels region.now parts.now selves.now coarser.now ghosts.now fixed.now w
        → (length outs.items ≡ w.ranks) × AreResults (λ w rank out. out ≡ plan_of w rank) w outs.items) }
{
    let stages = stages_of(alloc, region, parts, selves, coarser, ghosts, fixed)?;
    let outs = exchange(alloc, stages)?;
    Ok(outs)
}
