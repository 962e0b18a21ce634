//! Some blocks of a level, and the boxes of each rank.

ghost use Rattle.std.specs.Prelude.{◌≡◌, ◌++◌, IfOk, OnOk, map};
ghost use Rattle.std.specs.List.{range_with_len};
ghost use Rattle.samr_level.specs.Levels.{own};
ghost use Rattle.samr_trials_levels.specs.Kept.{kept, one_where};

use samr_box::{IBox, Listed};
use samr_level::BoxRef;
use std::alloc::{AllocError as NoMemory, Global};

/// Appends a box where a test holds.
fn push_where(list: &mut Vec<BoxRef>, test: bool, b: BoxRef) -> Result<(), NoMemory>
    ensures { OnOk result (list.new.items ≡ list.old.items ++ one_where test b) }
{
    if test {
        list.push(b)?;
    }
    Ok(())
}

/// Those boxes of a level whose places are those of binary digits 1 of the mask; from place 64 on there are none.
///
/// # Errors
///
/// Where memory is short.
pub fn kept_boxes(alloc: Global, level: &[BoxRef], mask: u64) -> Result<Vec<BoxRef>, NoMemory>
    ensures { IfOk result (λ v. v.items ≡ kept mask level.now) }
{
    let mut boxes = Vec::new(alloc);
    let mut rest = mask;
    for b in level {
        push_where(&mut boxes, rest % 2 == 1, *b)?;
        rest /= 2;
    }
    Ok(boxes)
}

/// The boxes of a level that a rank owns.
#[tactic(auto, unfolding(samr_level::specs::Levels::own))]
pub(crate) fn owned_boxes(
    alloc: Global,
    level: &[BoxRef],
    rank: u16,
) -> Result<Vec<BoxRef>, NoMemory>
    ensures { IfOk result (λ v. v.items ≡ own rank level.now) }
{
    level
        .iter()
        .copied()
        .filter(|b| b.owner == rank)
        .collect(alloc)
}

/// The same without their owners.
#[tactic(auto, unfolding(samr_level::specs::Levels::own))]
fn bare_boxes(alloc: Global, level: &[BoxRef], rank: u16) -> Result<Vec<IBox>, NoMemory>
    ensures { IfOk result (λ v. v.items ≡ map (λ b. b.bx) (own rank level.now)) }
{
    let mut boxes = Vec::new(alloc);
    for b in level {
        if b.owner == rank {
            boxes.push(b.bx)?;
        }
    }
    Ok(boxes)
}

/// The boxes of a level by rank.
///
/// # Errors
///
/// Where memory is short.
pub fn boxes_by_rank(
    alloc: Global,
    level: &[BoxRef],
    ranks: u16,
) -> Result<Vec<Listed<IBox>>, NoMemory>
    ensures { IfOk result (λ v. v.items ≡ map (λ rank. map (λ b. b.bx) (own rank level.now)) (range_with_len 0 ranks)) }
{
    let mut all = Vec::new(alloc);
    'each: for rank in 0..ranks {
        let boxes = bare_boxes(alloc, level, rank)?;
        all.push(Listed::from_vec(boxes))?;
    }
    Ok(all)
}
