//! The coarsening on all ranks, on one thread.

ghost use Rattle.std.specs.Prelude.{◌≡◌, ◌<◌, ◌^◌, IfOk, length};
ghost use Rattle.samr_stage.specs.Exchange.{AreResults};
ghost use Rattle.samr_values.specs.Coarsen.{Coarsening, coarsened_patches};
ghost use Rattle.samr_values.specs.CoarsenOnAll.{HaveAllFine, AreAllMerged};

use crate::coarsen::Coarsen;
use samr_box::Listed;
use samr_data::Patch;
use samr_level::Pair;
use samr_ops::CoarsenRule;
use samr_stage::exchange;
use std::alloc::{AllocError as NoMemory, Global};

/// The stages of all ranks, in order of rank.
fn stages_of(
    alloc: Global,
    pairs: &[Pair],
    fine: &[Listed<Listed<Patch>>],
    coarse: Vec<Listed<Listed<Patch>>>,
    rules: &[CoarsenRule],
    moduli: &[u32],
) -> Result<Vec<Coarsen>, NoMemory>
    requires few { length coarse.items < 2 ^ 16 }
    requires fields { length rules.now < 2 ^ 8 }
    requires parts { (w : Coarsening) × HaveAllFine pairs.now fine.now coarse.items rules.now moduli.now w }
    ensures { IfOk result (λ v. (w : Coarsening) → HaveAllFine pairs.now fine.now coarse.items rules.now moduli.now w → AreAllMerged w v.items) }
{
    let ranks = coarse.len() as u16;
    let mut stages = Vec::new(alloc);
    let mut rank = 0u16;
    'each: for patches in coarse {
        let place = usize::from(rank);
        let over = fine[place].as_slice();
        let stage = Coarsen::start(
            alloc,
            rank,
            ranks,
            &pairs[place],
            over,
            patches,
            rules,
            moduli,
        )?;
        stages.push(stage)?;
        rank += 1;
    }
    Ok(stages)
}

/// The coarsening on all ranks, on one thread: from the overlaps of each rank and its patches of the fine level and of the one
/// below, in order of rank, to its patches of the latter.
///
/// # Errors
///
/// Where memory is short.
pub fn coarsen_all(
    alloc: Global,
    pairs: &[Pair],
    fine: &[Listed<Listed<Patch>>],
    coarse: Vec<Listed<Listed<Patch>>>,
    rules: &[CoarsenRule],
    moduli: &[u32],
) -> Result<Vec<Listed<Listed<Patch>>>, NoMemory>
    requires few { length coarse.items < 2 ^ 16 }
    requires fields { length rules.now < 2 ^ 8 }
    requires parts { (w : Coarsening) × HaveAllFine pairs.now fine.now coarse.items rules.now moduli.now w }
    ensures { IfOk result (λ outs. (w : Coarsening) → HaveAllFine pairs.now fine.now coarse.items rules.now moduli.now w
        → (length outs.items ≡ w.ranks) × AreResults (λ w r out. out ≡ coarsened_patches w r) w outs.items) }
{
    let stages = stages_of(alloc, pairs, fine, coarse, rules, moduli)?;
    let outs = exchange(alloc, stages)?;
    Ok(outs)
}
