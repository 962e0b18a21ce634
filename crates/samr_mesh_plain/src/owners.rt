//! The owner of a cluster: the first rank that has the most tags in it.

ghost use Rattle.std.specs.Prelude.{◌≡◌, ◌&&◌, nat_eq, IfOk, filter};
ghost use Rattle.std.specs.List.{list_any, range_with_len};
ghost use Rattle.samr_box.specs.Corners.{holds};
ghost use Rattle.samr_rounds.specs.Owners.{own_tags, counts_of, owner_of};
ghost use Rattle.samr_sign.specs.Counts.{tally};
ghost use Rattle.samr_sign.specs.Fields.{tagged};

use crate::cells::{cells_in, field_of, has};
use samr_box::{IBox, IVec, contains};
use samr_level::BoxRef;
use samr_rounds::{RankTags, owner_of_counts};
use samr_sign::TagField;
use std::alloc::{AllocError as NoMemory, Global};

/// Whether a box is a rank's and has a cell.
fn is_own_cell(b: BoxRef, rank: u16, x: IVec) -> bool
    ensures { result ≡ (nat_eq b.owner rank && holds b.bx x) }
{
    if b.owner != rank {
        return false;
    }
    contains(b.bx, x)
}

/// Whether a cell lies in a box of a level that a rank owns.
fn is_own(level: &[BoxRef], rank: u16, x: IVec) -> bool
    ensures { result ≡ list_any (λ b. nat_eq b.owner rank && holds b.bx x) level.now }
{
    for b in level {
        if is_own_cell(*b, rank, x) {
            return true;
        }
    }
    false
}

/// Whether a cell is a tag in a box that a rank owns.
fn is_own_tag(tags: &TagField, level: &[BoxRef], rank: u16, x: IVec) -> bool
    ensures { result ≡ own_tags (tagged tags.now) level.now rank x }
{
    if !has(tags, x) {
        return false;
    }
    is_own(level, rank, x)
}

/// Those of some cells that are tags in boxes that a rank owns.
fn own_tags(
    alloc: Global,
    tags: &TagField,
    level: &[BoxRef],
    rank: u16,
    cells: &[IVec],
) -> Result<Vec<IVec>, NoMemory>
    ensures { IfOk result (λ v. v.items ≡ filter (own_tags (tagged tags.now) level.now rank) cells.now) }
{
    let mut own = Vec::new(alloc);
    for x in cells {
        if is_own_tag(tags, level, rank, *x) {
            own.push(*x)?;
        }
    }
    Ok(own)
}

/// How many tags of a box a rank has in its own boxes.
fn count_own(
    alloc: Global,
    tags: &TagField,
    level: &[BoxRef],
    rank: u16,
    b: IBox,
) -> Result<u64, NoMemory>
    ensures { IfOk result (λ n. n ≡ tally (own_tags (tagged tags.now) level.now rank) b) }
{
    let cells = cells_in(alloc, b)?;
    let own = own_tags(alloc, tags, level, rank, cells.as_slice())?;
    let field = field_of(alloc, b, own.as_slice())?;
    Ok(field.count(b))
}

/// How many tags of a box each rank has.
#[tactic(auto, unfolding(samr_rounds::specs::Owners::counts_of))]
fn counts_of(
    alloc: Global,
    tags: &TagField,
    level: &[BoxRef],
    ranks: u16,
    b: IBox,
) -> Result<Vec<RankTags>, NoMemory>
    ensures { IfOk result (λ v. v.items ≡ counts_of (tagged tags.now) level.now b (range_with_len 0 ranks)) }
{
    let mut counts = Vec::new(alloc);
    for rank in 0..ranks {
        let tags = count_own(alloc, tags, level, rank, b)?;
        counts.push(RankTags { rank, tags })?;
    }
    Ok(counts)
}

/// The owner of a box, of so many ranks.
#[tactic(auto, unfolding(samr_rounds::specs::Owners::owner_of))]
pub(crate) fn owner_of(
    alloc: Global,
    tags: &TagField,
    level: &[BoxRef],
    ranks: u16,
    b: IBox,
) -> Result<u16, NoMemory>
    ensures { IfOk result (λ r. r ≡ owner_of (tagged tags.now) level.now ranks b) }
{
    let counts = counts_of(alloc, tags, level, ranks, b)?;
    Ok(owner_of_counts(counts.as_slice()))
}
