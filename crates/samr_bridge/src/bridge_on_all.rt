//! The bridge on all ranks, on one thread.

ghost use Rattle.std.specs.Prelude.{◌≡◌, ◌<◌, ◌^◌, IfOk, length, map};
ghost use Rattle.std.specs.List.{range_with_len};
ghost use Rattle.samr_box.specs.Vector.{InRange, greatest};
ghost use Rattle.samr_box.specs.Space.{IsSpace, finer};
ghost use Rattle.samr_level.specs.Overlaps.{of_rank, scale, true_overlaps};
ghost use Rattle.samr_level.specs.Pairs.{connector, pair};
ghost use Rattle.samr_bridge.specs.Bridge.{Bridging, IsBridge};
ghost use Rattle.samr_bridge.specs.Found.{bridge_pair};
ghost use Rattle.samr_bridge.specs.BridgeParts.{HaveAllPairs};

use crate::bridge::Bridge;
use samr_box::{Domain, IVec};
use samr_level::Pair;
use samr_stage::exchange;
use std::alloc::{AllocError as NoMemory, Global};

/// The bridge on all ranks, on one thread: from the pairs of east and centre and of centre and west of
/// each rank, in order of rank, to those of east and west. `d` is the frame of level 0, and `width`
/// the wanted width in cells of the coarser of east and west.
///
/// # Errors
///
/// Where memory is short.
pub fn bridge_all(
    alloc: Global,
    d: &Domain,
    east: &[Pair],
    west: &[Pair],
    width: IVec,
) -> Result<Vec<Pair>, NoMemory>
    requires width { InRange width }
    requires few { length east.now < 2 ^ 16 }
    requires parts { (w : Bridging) × HaveAllPairs d.now east.now west.now width w }
    ensures { IfOk result (λ pairs. (w : Bridging) → HaveAllPairs d.now east.now west.now width w → IsBridge w
        → pairs.items ≡ map (λ rank. bridge_pair w rank) (range_with_len 0 w.ranks)) }
{
    let ranks = east.len() as u16;
    let mut stages = Vec::new(alloc);
    'each: for rank in 0..ranks {
        let place = usize::from(rank);
        stages.push(Bridge::start(alloc, rank, ranks, d, &east[place], &west[place], width)?)?;
    }
    let pairs = exchange(alloc, stages)?;
    Ok(pairs)
}
