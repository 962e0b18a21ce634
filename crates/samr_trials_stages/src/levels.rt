//! Levels for the tests of all stages: by hand and drawn, with their owners, their parts and their overlaps.

ghost use Rattle.std.specs.Prelude.{◌≡◌, ◌<◌, IsTrue, IfOk, map};
ghost use Rattle.std.specs.List.{All, range_with_len};
ghost use Rattle.samr_box.specs.Vector.{InRange};
ghost use Rattle.samr_box.specs.Corners.{IsBox};
ghost use Rattle.samr_box.specs.Space.{IsSpace, finer};
ghost use Rattle.samr_level.specs.Pairs.{part, pair};
ghost use Rattle.samr_trials_levels.specs.Cover.{CanCompare};

use samr_box::{Domain, Flags, IBox, IVec, Listed, Ratio};
use samr_level::{BoxRef, Pair, Part, in_level_order};
use samr_trials_levels::{can_compare, is_width, pairs_of};
use std::alloc::{AllocError as NoMemory, Global};
use std::process::Abort;

/// A whole level with its ratio from level 0.
#[derive(Drop)]
pub struct Side {
    pub ratio: Ratio,
    pub boxes: Vec<BoxRef>,
}

pub const NOTHING: IVec = IVec { k: 0, j: 0, i: 0 };

pub const ONES: IVec = IVec { k: 1, j: 1, i: 1 };

pub const NO_AXIS: Flags = Flags {
    k: false,
    j: false,
    i: false,
};

pub const ALONG_I: Flags = Flags {
    k: false,
    j: false,
    i: true,
};

pub const ALONG_I_AND_J: Flags = Flags {
    k: false,
    j: true,
    i: true,
};

/// Whether a domain in the index space of a level is one.
pub fn has_space(d: &Domain, r: Ratio) -> bool
    ensures { IsTrue result → IsSpace (finer d.now r) }
{
    can_compare(d, r, r)
}

/// Whether two levels can be compared.
pub fn are_comparable(d: &Domain, base: &Side, head: &Side) -> bool
    ensures { IsTrue result → CanCompare d.now base.now.ratio head.now.ratio }
{
    can_compare(d, base.ratio, head.ratio)
}

/// The pairs of two levels on all ranks, by a look at every two boxes.
pub fn pairs_between(
    alloc: Global,
    ranks: u16,
    d: &Domain,
    width: IVec,
    base: &Side,
    head: &Side,
) -> Result<Vec<Pair>, NoMemory>
    requires width { InRange width }
    requires frames { CanCompare d.now base.now.ratio head.now.ratio }
    ensures { IfOk result (λ v. v.items ≡ map (λ rank. pair d.now width base.now.ratio head.now.ratio base.now.boxes.items head.now.boxes.items rank) (range_with_len 0 ranks)) }
{
    let bases = base.boxes.as_slice();
    let heads = head.boxes.as_slice();
    let pairs = pairs_of(alloc, ranks, d, width, base.ratio, bases, head.ratio, heads)?;
    Ok(pairs)
}

/// A rank's part of a level.
#[tactic(auto, unfolding(samr_level::specs::Levels::own))]
pub fn level_part(alloc: Global, rank: u16, level: &[BoxRef]) -> Result<Part, NoMemory>
    ensures { IfOk result (λ p. p ≡ part level.now rank) }
{
    let mut boxes = Vec::new(alloc);
    for b in level {
        if b.owner == rank {
            boxes.push(b.bx)?;
        }
    }
    Ok(Part {
        rank,
        boxes: Listed::from_vec(boxes),
    })
}

/// The parts of a level on all ranks.
pub fn parts_of(alloc: Global, ranks: u16, level: &[BoxRef]) -> Result<Vec<Part>, NoMemory>
    ensures { IfOk result (λ v. v.items ≡ map (λ rank. part level.now rank) (range_with_len 0 ranks)) }
{
    let mut parts = Vec::new(alloc);
    'each: for rank in 0..ranks {
        parts.push(level_part(alloc, rank, level)?)?;
    }
    Ok(parts)
}

/// Whether a rank owns a box, and the box is one.
fn fits(ranks: u16, b: BoxRef) -> bool
    ensures { IsTrue result → (b.owner < ranks) × IsBox b.bx }
{
    if b.owner >= ranks {
        return false;
    }
    IBox::new(b.bx.lo, b.bx.hi).is_some()
}

/// Whether the ranks own all boxes, and these are boxes.
pub fn all_fit(ranks: u16, level: &[BoxRef]) -> bool
    ensures { IsTrue result → All (λ b. (b.owner < ranks) × IsBox b.bx) level.now }
{
    for b in level {
        if !fits(ranks, *b) {
            return false;
        }
    }
    true
}

/// Whether pairs have the same edges.
fn same_edges(a: &Pair, b: &Pair) -> bool {
    a.forth.edges.as_slice() == b.forth.edges.as_slice()
        && a.back.edges.as_slice() == b.back.edges.as_slice()
}

/// Whether all ranks have the overlaps of two levels that a look at every two boxes finds, and there are any.
pub fn same_as_compared(
    alloc: Global,
    ranks: u16,
    d: &Domain,
    width: IVec,
    base: &Side,
    head: &Side,
    pairs: &[Pair],
) -> Result<bool, NoMemory> {
    if !is_width(width) {
        return Ok(false);
    }
    if !are_comparable(d, base, head) {
        return Ok(false);
    }
    let wanted = pairs_between(alloc, ranks, d, width, base, head)?;
    if wanted.len() != pairs.len() {
        return Ok(false);
    }
    let same = pairs
        .iter()
        .zip(wanted.iter())
        .all(|both| same_edges(both.0, both.1));
    Ok(same && wanted.iter().any(|p| !p.forth.edges.as_slice().is_empty()))
}

/// A box that a rank owns.
pub fn owned(rt: &impl Abort, owner: u16, lo: IVec, hi: IVec) -> BoxRef {
    let bx = IBox::new(lo, hi).expect(rt, "a box");
    BoxRef { owner, bx }
}

/// The box of these corners in the plane where `k` is 0.
pub fn flat(rt: &impl Abort, first: (i64, i64), last: (i64, i64)) -> IBox {
    IBox::new(IVec::new(first.0, first.1, 0), IVec::new(last.0, last.1, 0)).expect(rt, "a box")
}

pub fn ratio(rt: &impl Abort, i: i64, j: i64, k: i64) -> Ratio {
    Ratio::new(i, j, k).expect(rt, "a ratio")
}

pub fn domain(rt: &impl Abort, size: IVec, periodic: Flags) -> Domain {
    Domain::new(size, periodic).expect(rt, "a domain")
}

/// A level of some boxes.
pub fn level_of(alloc: Global, ratio: Ratio, boxes: &[BoxRef]) -> Result<Side, NoMemory> {
    let boxes = Vec::from_slice(alloc, boxes)?;
    Ok(Side { ratio, boxes })
}

/// A number that looks drawn, of a seed and a place.
pub fn drawn(seed: u32, place: u32) -> u32 {
    let mixed = (seed ^ place.wrapping_mul(2_654_435_761)).wrapping_mul(2_246_822_519);
    mixed ^ (mixed >> 15)
}

pub fn drawn_owner(seed: u32, place: u32, ranks: u16) -> u16 {
    if ranks == 0 {
        return 0;
    }
    u16::try_from(drawn(seed, place) % 1000).unwrap_or(0) % ranks
}

/// The block at a place of 4 x 2 blocks, each of so many cells of level 0, refined by a ratio.
pub fn block(rt: &impl Abort, place: u32, size: IVec, r: Ratio) -> IBox {
    let i = i64::from(place % 4);
    let j = i64::from(place / 4);
    let step = IVec::new(
        size.i.saturating_mul(r.i),
        size.j.saturating_mul(r.j),
        size.k.saturating_mul(r.k),
    );
    let lo = IVec::new(i.saturating_mul(step.i), j.saturating_mul(step.j), 0);
    let hi = IVec::new(
        (i + 1).saturating_mul(step.i).saturating_sub(1),
        (j + 1).saturating_mul(step.j).saturating_sub(1),
        step.k.saturating_sub(1),
    );
    IBox::new(lo, hi).expect(rt, "a box")
}

/// Some of these blocks with drawn owners: those where the bit of `kept` is set.
pub fn blocks(
    rt: &impl Abort,
    alloc: Global,
    ranks: u16,
    seed: u32,
    kept: u32,
    size: IVec,
    r: Ratio,
) -> Result<Side, NoMemory> {
    let mut boxes = Vec::new(alloc);
    for place in 0..8u32 {
        if kept >> place & 1 == 1 {
            let owner = drawn_owner(seed, place, ranks);
            let bx = block(rt, place, size, r);
            boxes.push(BoxRef { owner, bx })?;
        }
    }
    let boxes = in_level_order(boxes);
    Ok(Side { ratio: r, boxes })
}
