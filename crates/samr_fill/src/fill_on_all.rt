//! The fill on all ranks, on one thread.

ghost use Rattle.std.specs.Prelude.{◌≡◌, ◌<◌, ◌^◌, IfOk, length};
ghost use Rattle.samr_stage.specs.Exchange.{AreParts, AreResults};
ghost use Rattle.samr_fill.specs.Fill.{Filling};
ghost use Rattle.samr_fill.specs.FillParts.{filled};
ghost use Rattle.samr_fill.specs.FillOnAll.{HaveAllPatches};

use crate::fill::Fill;
use samr_box::Listed;
use samr_data::Patch;
use samr_ops::{Bounds, Refines, Strategy, Updates};
use samr_sched::Plan;
use samr_stage::{Stage, exchange};
use std::alloc::{AllocError as NoMemory, Global};

/// The stages of all ranks, in order of rank.
fn stages_of<'a, R: Refines, B: Bounds, U: Updates>(
    alloc: Global,
    plans: &[Plan],
    own: Vec<Listed<Listed<Patch>>>,
    coarser: &[Listed<Listed<Patch>>],
    strategies: &'a [Strategy<R, B, U>],
) -> Result<Vec<Fill<'a, R, B, U>>, NoMemory>
    requires few { length own.items < 2 ^ 16 }
    requires parts { (w : Filling) × HaveAllPatches plans.now own.items coarser.now strategies.now w }
    ensures { IfOk result (λ v. (w : Filling) → HaveAllPatches plans.now own.items coarser.now strategies.now w
        → AreParts ⟦<Fill<'a, R, B, U> as Stage>⟧.starts (λ w. w.schedule.ranks) w v.items) }
{
    let ranks = own.len() as u16;
    let mut stages = Vec::new(alloc);
    let mut rank = 0u16;
    'each: for patches in own {
        let place = usize::from(rank);
        let below = coarser[place].as_slice();
        let stage = Fill::start(
            alloc,
            rank,
            ranks,
            &plans[place],
            patches,
            below,
            strategies,
        )?;
        stages.push(stage)?;
        rank += 1;
    }
    Ok(stages)
}

/// The fill on all ranks, on one thread: from the plan and the patches of each rank, in order of rank, to its patches with
/// the values of all cells. `coarser` are the patches of the level below.
///
/// # Errors
///
/// Where memory is short.
pub fn fill_all<R: Refines, B: Bounds, U: Updates>(
    alloc: Global,
    plans: &[Plan],
    own: Vec<Listed<Listed<Patch>>>,
    coarser: &[Listed<Listed<Patch>>],
    strategies: &[Strategy<R, B, U>],
) -> Result<Vec<Listed<Listed<Patch>>>, NoMemory>
    requires few { length own.items < 2 ^ 16 }
    requires parts { (w : Filling) × HaveAllPatches plans.now own.items coarser.now strategies.now w }
    ensures { IfOk result (λ outs. (w : Filling) → HaveAllPatches plans.now own.items coarser.now strategies.now w
        → (length outs.items ≡ w.schedule.ranks) × AreResults (λ w rank out. out ≡ filled w rank) w outs.items) }
{
    let stages = stages_of(alloc, plans, own, coarser, strategies)?;
    let outs = exchange(alloc, stages)?;
    Ok(outs)
}
