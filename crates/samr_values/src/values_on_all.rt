//! The values of a new level on all ranks, on one thread.

ghost use Rattle.std.specs.Prelude.{◌≡◌, ◌<◌, ◌^◌, IfOk, length, slice_get};
ghost use Rattle.std.specs.Option.{option_map};
ghost use Rattle.samr_stage.specs.Exchange.{AreParts, AreResults};
ghost use Rattle.samr_values.specs.Values.{Renewing, renewed};
ghost use Rattle.samr_values.specs.ValuesOnAll.{HaveAllOld};

use crate::values::Values;
use samr_box::{IBox, Listed, Ratio};
use samr_data::Patch;
use samr_level::Pair;
use samr_ops::{Bounds, Refines, Strategy, Updates};
use samr_stage::{Stage, exchange};
use std::alloc::{AllocError as NoMemory, Global};

/// A rank's overlaps with the old level, where there was one.
fn pair_at(same: &[Pair], place: usize) -> Option<&Pair>
    ensures { option_map (λ p. p.now) result ≡ slice_get same.now place }
{
    same.get(place)
}

/// The stages of all ranks, in order of rank.
fn stages_of<'a, R: Refines, B: Bounds, U: Updates>(
    alloc: Global,
    news: &[Listed<IBox>],
    same: &[Pair],
    coarser: &[Pair],
    step: Ratio,
    patches: &[Listed<Listed<Patch>>],
    coarse_patches: &[Listed<Listed<Patch>>],
    strategies: &'a [Strategy<R, B, U>],
) -> Result<Vec<Values<'a, R, B, U>>, NoMemory>
    requires few { length news.now < 2 ^ 16 }
    requires fields { length strategies.now < 2 ^ 8 }
    requires parts { (w : Renewing) × HaveAllOld news.now same.now coarser.now step patches.now coarse_patches.now strategies.now w }
    ensures { IfOk result (λ v. (w : Renewing) → HaveAllOld news.now same.now coarser.now step patches.now coarse_patches.now strategies.now w
        → AreParts ⟦<Values<'a, R, B, U> as Stage>⟧.starts (λ w. w.ranks) w v.items) }
{
    let ranks = news.len() as u16;
    let mut stages = Vec::new(alloc);
    'each: for rank in 0..ranks {
        let place = usize::from(rank);
        let stage = Values::start(
            alloc,
            rank,
            news[place].as_slice(),
            pair_at(same, place),
            &coarser[place],
            step,
            patches[place].as_slice(),
            coarse_patches[place].as_slice(),
            strategies,
        )?;
        stages.push(stage)?;
    }
    Ok(stages)
}

/// The values of a new level on all ranks, on one thread: from each rank's boxes of the new level, its overlaps of that with the old
/// level of its number and with the level below, and its patches of the old level and of the one below, in order of rank, to its
/// patches of the new level. Where there was no old level `same` has none, and the patches of it no boxes.
///
/// # Errors
///
/// Where memory is short.
pub fn values_all<R: Refines, B: Bounds, U: Updates>(
    alloc: Global,
    news: &[Listed<IBox>],
    same: &[Pair],
    coarser: &[Pair],
    step: Ratio,
    patches: &[Listed<Listed<Patch>>],
    coarse_patches: &[Listed<Listed<Patch>>],
    strategies: &[Strategy<R, B, U>],
) -> Result<Vec<Listed<Listed<Patch>>>, NoMemory>
    requires few { length news.now < 2 ^ 16 }
    requires fields { length strategies.now < 2 ^ 8 }
    requires parts { (w : Renewing) × HaveAllOld news.now same.now coarser.now step patches.now coarse_patches.now strategies.now w }
    ensures { IfOk result (λ outs. (w : Renewing) → HaveAllOld news.now same.now coarser.now step patches.now coarse_patches.now strategies.now w
        → (length outs.items ≡ w.ranks) × AreResults (λ w r out. out ≡ renewed w r) w outs.items) }
{
    let stages = stages_of(
        alloc,
        news,
        same,
        coarser,
        step,
        patches,
        coarse_patches,
        strategies,
    )?;
    let outs = exchange(alloc, stages)?;
    Ok(outs)
}
