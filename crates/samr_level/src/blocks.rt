//! Level 0 and its pair with itself, whole and for one rank.

ghost use Rattle.std.specs.Prelude.{◌≡◌, ◌↔◌, ◌<◌, ◌≤◌, ◌^◌, IsTrue, pos, IfOk, length, map, filter};
ghost use Rattle.samr_box.specs.declared.vector.IVec.{IVec};
ghost use Rattle.samr_box.specs.Vector.{alike, AtMost};
ghost use Rattle.samr_box.specs.Corners.{IsBox, meets};
ghost use Rattle.samr_level.specs.Regions.{boxes_of, IsCellOf};
ghost use Rattle.samr_level.specs.Levels.{own, IsLevel, IsCellIn};
ghost use Rattle.samr_level.specs.Pairs.{part, pair};
ghost use Rattle.samr_level.specs.Neighbours.{IsWidth};
ghost use Rattle.samr_level.specs.Blocks.{IsBlocking, blocks_of, blocks_in, with_owners, level0};

use crate::cut::{Cut, Window, blocks_along};
use crate::layout::Layout;
use crate::{BoxRef, Connector, Edge, Pair, Part, Region, in_level_order, settled, shifts};
use samr_box::{Axis, IBox, IVec, Listed, Ratio};
use std::alloc::{AllocError as NoMemory, Global};

/// More blocks than level 0 may have.
const MANY: u128 = 1 << 48;

/// The ratio of a level to itself.
const SAME: Ratio = Ratio { k: 1, j: 1, i: 1 };

/// All boxes of level 0 with their owners, in level order: each box of the region is cut into blocks
/// of so many cells from its lower corner, the last one on an axis smaller; blocks are numbered
/// through the boxes, in each with `i` fastest, then `j`, then `k`; block `b` of `n` belongs to rank
/// `b * ranks / n`, rounded down.
pub fn whole_level0(
    alloc: Global,
    region: &Region,
    block: IVec,
    ranks: u16,
) -> Result<Vec<BoxRef>, NoMemory>
    requires { IsBlocking block (boxes_of region.now) }
    ensures value { IfOk result (λ v. v.items ≡ level0 region.now block ranks) }
    ensures level { IfOk result (λ v. 0 < ranks → IsLevel region.now ranks v.items) }
    ensures cells { IfOk result (λ v. (x : IVec) → IsCellIn v.items x ↔ IsCellOf region.now x) }
{
    let boxes = region.boxes(alloc)?;
    let everywhere = Window::over(region.frame().whole());
    let members = members_in(alloc, boxes.as_slice(), block, ranks, everywhere)?;
    let level = in_level_order(members);
    Ok(level)
}

/// The boxes of level 0 that a rank owns, in corner order.
pub fn level0(
    alloc: Global,
    region: &Region,
    block: IVec,
    ranks: u16,
    rank: u16,
) -> Result<Part, NoMemory>
    requires { IsBlocking block (boxes_of region.now) }
    ensures { IfOk result (λ p. p ≡ part (level0 region.now block ranks) rank) }
{
    let level = whole_level0(alloc, region, block, ranks)?;
    let own = own_members(alloc, level.as_slice(), rank)?;
    let boxes = boxes_only(alloc, own.as_slice())?;
    Ok(Part {
        rank,
        boxes: Listed::from_vec(boxes),
    })
}

/// The pair of level 0 with itself at a width: the overlaps of a rank's own boxes, each way. For
/// each of them only those blocks are looked at whose places are within the width, at each shift.
pub fn level0_pair(
    alloc: Global,
    region: &Region,
    block: IVec,
    ranks: u16,
    rank: u16,
    width: IVec,
) -> Result<Pair, NoMemory>
    requires blocks { IsBlocking block (boxes_of region.now) }
    requires width { IsWidth region.now.frame width }
    ensures { IfOk result (λ p. let level = level0 region.now block ranks in p ≡ pair region.now.frame width (alike (pos 1)) (alike (pos 1)) level level rank) }
{
    let level = whole_level0(alloc, region, block, ranks)?;
    let own = own_members(alloc, level.as_slice(), rank)?;
    let shifts = shifts(alloc, region.frame().periodic)?;
    let layout = Layout::new(alloc, region, block, ranks, width)?;
    let edges = settled(layout.edges(alloc, own.as_slice(), shifts.as_slice())?);
    let back = Vec::from_slice(alloc, edges.as_slice())?;
    Ok(Pair {
        forth: to_itself(width, edges),
        back: to_itself(width, back),
    })
}

/// A connector of level 0 to itself.
fn to_itself(width: IVec, edges: Vec<Edge>) -> Connector
    ensures { result ≡ record { width = width; base_ratio = alike (pos 1); head_ratio = alike (pos 1); edges = edges.items } }
{
    Connector {
        width,
        base_ratio: SAME,
        head_ratio: SAME,
        edges: Listed::from_vec(edges),
    }
}

/// The members of a level that a rank owns.
#[tactic(auto, unfolding(crate::specs::Levels::own))]
fn own_members(alloc: Global, level: &[BoxRef], rank: u16) -> Result<Vec<BoxRef>, NoMemory>
    ensures { IfOk result (λ v. v.items ≡ own rank level.now) }
{
    level
        .iter()
        .copied()
        .filter(|b| b.owner == rank)
        .collect(alloc)
}

/// The boxes without their owners.
fn boxes_only(alloc: Global, level: &[BoxRef]) -> Result<Vec<IBox>, NoMemory>
    ensures { IfOk result (λ v. v.items ≡ map (λ b. b.bx) level.now) }
{
    level.iter().map(|b| b.bx).collect(alloc)
}

/// The blocks of some boxes that meet a window, with their owners, in the order of their numbers.
pub(crate) fn members_in(
    alloc: Global,
    boxes: &[IBox],
    block: IVec,
    ranks: u16,
    window: Window,
) -> Result<Vec<BoxRef>, NoMemory>
    requires { IsBlocking block boxes.now }
    ensures { IfOk result (λ v. v.items ≡ filter (λ b. meets window b.bx) (with_owners ranks (blocks_in block boxes.now))) }
{
    let count = count_blocks(boxes, block);
    let mut out = Vec::new(alloc);
    let mut first = 0;
    for bx in boxes {
        let blocks = block_count(*bx, block) as u64;
        let cut = Cut {
            bx: *bx,
            block,
            first,
            count,
            ranks,
        };
        cut.push_members(window, &mut out)?;
        first += blocks;
    }
    Ok(out)
}

/// How many blocks there are in some boxes.
fn count_blocks(boxes: &[IBox], block: IVec) -> u64
    requires block { AtMost (alike (pos 1)) block }
    requires few { length (blocks_in block boxes.now) < 2 ^ 48 }
    ensures { result ≡ length (blocks_in block boxes.now) }
{
    let mut count = 0;
    for bx in boxes {
        count += block_count(*bx, block) as u64;
    }
    count
}

/// Whether there are fewer than 2^48 blocks in some boxes.
pub(crate) fn are_few(boxes: &[IBox], block: IVec) -> bool
    requires { AtMost (alike (pos 1)) block }
    ensures { IsTrue result ↔ (length (blocks_in block boxes.now) < 2 ^ 48) }
{
    let mut count = 0;
    for bx in boxes {
        count += block_count(*bx, block);
        if count >= MANY {
            return false;
        }
    }
    true
}

/// How many blocks there are in a box.
fn block_count(bx: IBox, block: IVec) -> u128
    requires { AtMost (alike (pos 1)) block }
    ensures count { result ≡ length (blocks_of block bx) }
    ensures small { result ≤ 2 ^ 96 }
    ensures whole { IsBox bx }
{
    let i = u128::from(blocks_along(bx, block, Axis::I));
    let j = u128::from(blocks_along(bx, block, Axis::J));
    let k = u128::from(blocks_along(bx, block, Axis::K));
    i * j * k
}
