//! The modification on all ranks, on one thread.

ghost use Rattle.std.specs.Prelude.{◌≡◌, ◌<◌, ◌^◌, IfOk, length, map};
ghost use Rattle.std.specs.List.{range_with_len};
ghost use Rattle.samr_modify.specs.Modify.{Modifying, IsModifying, modify_pair};
ghost use Rattle.samr_modify.specs.ModifyParts.{HaveAllParts};

use crate::entries::NewBox;
use crate::modify::Modify;
use samr_box::Domain;
use samr_level::{Mapping, Pair};
use samr_stage::exchange;
use std::alloc::{AllocError as NoMemory, Global};

/// The modification on all ranks, on one thread: from each rank's pair of anchor and old level, its
/// mapping and its new boxes, in order of rank, to the pairs of anchor and new level. `d` is the frame
/// of level 0.
///
/// # Errors
///
/// Where memory is short.
pub fn modify_all(
    alloc: Global,
    d: &Domain,
    anchors: &[Pair],
    mappings: &[Mapping],
    news: &[Vec<NewBox>],
) -> Result<Vec<Pair>, NoMemory>
    requires few { length anchors.now < 2 ^ 16 }
    requires parts { (w : Modifying) × HaveAllParts d.now anchors.now mappings.now (map (λ v. v.items) news.now) w }
    ensures { IfOk result (λ pairs. (w : Modifying) → HaveAllParts d.now anchors.now mappings.now (map (λ v. v.items) news.now) w → IsModifying w
        → pairs.items ≡ map (λ rank. modify_pair w rank) (range_with_len 0 w.ranks)) }
{
    let ranks = anchors.len() as u16;
    let mut stages = Vec::new(alloc);
    'each: for rank in 0..ranks {
        let place = usize::from(rank);
        stages.push(Modify::start(
            alloc,
            rank,
            ranks,
            d,
            &anchors[place],
            &mappings[place],
            news[place].as_slice(),
        )?)?;
    }
    let pairs = exchange(alloc, stages)?;
    Ok(pairs)
}
