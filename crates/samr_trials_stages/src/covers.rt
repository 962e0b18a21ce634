//! Covers on all ranks: of three levels and across a border by hand, and of drawn levels by the words of their definition.

ghost use Rattle.std.specs.Prelude.{◌≡◌, ◌<◌, ℕ, pos, false, IsTrue, IfOk, IfSome, Some, List, length, slice_get};
ghost use Rattle.std.specs.List.{All};
ghost use Rattle.samr_box.specs.Vector.{alike, times, AtMost, InRange, IsRatio};
ghost use Rattle.samr_box.specs.Corners.{IsBox};
ghost use Rattle.samr_box.specs.Space.{IsSpace, finer};
ghost use Rattle.samr_sign.specs.Fields.{Field, AreTags};
ghost use Rattle.samr_level.specs.Levels.{own_boxes};
ghost use Rattle.samr_tags.specs.Rooms.{IsSmallBox};
ghost use Rattle.samr_trials_levels.specs.Cover.{CanCompare};

use crate::levels::{
    ALONG_I, ALONG_I_AND_J, NO_AXIS, NOTHING, Side, all_fit, are_comparable, blocks, domain, drawn,
    has_space, level_of, level_part, owned, pairs_between, ratio,
};
use crate::tags::has_tag;
use samr_box::{Domain, IBox, IVec, Listed, Ratio, contains};
use samr_level::BoxRef;
use samr_sign::TagField;
use samr_tags::cover_all;
use samr_trials_levels::is_width;
use std::alloc::{AllocError as NoMemory, Global};
use std::process::Abort;
use std::test::Fail;

/// The greatest coordinate of a small box, and the least.
const GREATEST: IVec = IVec {
    k: 268_435_456,
    j: 268_435_456,
    i: 268_435_456,
};

const LEAST: IVec = IVec {
    k: -268_435_456,
    j: -268_435_456,
    i: -268_435_456,
};

/// Whether the corners of a box lie within 2^28.
fn is_small(b: IBox) -> bool
    ensures { IsTrue result → IsSmallBox b }
{
    if !LEAST.at_most(b.lo) {
        return false;
    }
    b.hi.at_most(GREATEST)
}

fn all_small(level: &[BoxRef]) -> bool
    ensures { IsTrue result → All (λ b. IsSmallBox b.bx) level.now }
{
    for b in level {
        if !is_small(b.bx) {
            return false;
        }
    }
    true
}

fn has_small_frame(d: &Domain, r: Ratio) -> bool
    ensures { IsTrue result → AtMost (times d.now.size r) (alike (pos 268435456)) }
{
    d.size.times(r.factors()).at_most(GREATEST)
}

/// The ratio with these factors, if it is one.
fn ratio_from(factors: IVec) -> Option<Ratio>
    ensures { IfSome result (λ r. r ≡ factors) }
{
    Ratio::new(factors.i, factors.j, factors.k)
}

/// The product of three ratios, if it is one.
fn product(a: Ratio, b: Ratio, c: Ratio) -> Option<Ratio>
    ensures value { IfSome result (λ r. r ≡ times a (times b c)) }
    ensures second { IsRatio b }
    ensures third { IsRatio c }
{
    ratio_from(a.factors().times(b.factors().times(c.factors())))
}

/// Fields with no tag on some boxes.
fn empty_fields(alloc: Global, boxes: &[IBox]) -> Result<Listed<TagField>, NoMemory>
    ensures { IfOk result (λ v. AreTags boxes.now (λ x. false) v) }
{
    let mut fields = Vec::new(alloc);
    for bx in boxes {
        fields.push(TagField::new(alloc, *bx)?)?;
    }
    Ok(Listed::from_vec(fields))
}

/// Fields with no tag on the boxes of all ranks.
fn no_tags(alloc: Global, ranks: u16, level: &[BoxRef]) -> Result<Vec<Listed<TagField>>, NoMemory>
    ensures length { IfOk result (λ v. length v.items ≡ ranks) }
    ensures each { IfOk result (λ v. (rank : ℕ) (own : List Field) → slice_get v.items rank ≡ Some own → AreTags (own_boxes rank level.now) (λ x. false) own) }
{
    let mut all = Vec::new(alloc);
    'each: for rank in 0..ranks {
        let part = level_part(alloc, rank, level)?;
        all.push(empty_fields(alloc, part.boxes.as_slice())?)?;
    }
    Ok(all)
}

/// The cover of a level without tags on all ranks by way of their letters: `None` where a number is not
/// fit for it.
fn covered(
    alloc: Global,
    ranks: u16,
    d: &Domain,
    level: &Side,
    boxes: Vec<BoxRef>,
    width: IVec,
    nest: IVec,
    upper: Ratio,
    lower: Ratio,
) -> Result<Option<Vec<Listed<TagField>>>, NoMemory> {
    let Some(ratio) = product(level.ratio, lower, upper) else {
        return Ok(None);
    };
    let fine = Side { ratio, boxes };
    if !is_fit(ranks, d, level, &fine, width, nest) {
        return Ok(None);
    }
    let fields = no_tags(alloc, ranks, level.boxes.as_slice())?;
    let covers = pairs_between(alloc, ranks, d, width, &fine, level)?;
    let outs = cover_all(alloc, d, fields, covers.as_slice(), nest, upper, lower)?;
    Ok(Some(outs))
}

/// Whether widths, frames, owners and boxes are fit for a cover.
fn is_fit(ranks: u16, d: &Domain, level: &Side, fine: &Side, width: IVec, nest: IVec) -> bool
    ensures width { IsTrue result → InRange width }
    ensures low { IsTrue result → AtMost (alike (pos 0)) nest }
    ensures high { IsTrue result → AtMost nest (alike (pos 268435456)) }
    ensures frames { IsTrue result → CanCompare d.now fine.now.ratio level.now.ratio }
    ensures frame { IsTrue result → IsSpace (finer d.now level.now.ratio) }
    ensures few { IsTrue result → AtMost (times d.now.size level.now.ratio) (alike (pos 268435456)) }
    ensures owners { IsTrue result → All (λ b. (b.owner < ranks) × IsBox b.bx) level.now.boxes.items }
    ensures fine_owners { IsTrue result → All (λ b. (b.owner < ranks) × IsBox b.bx) fine.now.boxes.items }
    ensures boxes { IsTrue result → All (λ b. IsSmallBox b.bx) fine.now.boxes.items }
{
    if !is_width(width) {
        return false;
    }
    if !NOTHING.at_most(nest) {
        return false;
    }
    if !nest.at_most(GREATEST) {
        return false;
    }
    if !are_comparable(d, fine, level) {
        return false;
    }
    if !has_space(d, level.ratio) {
        return false;
    }
    if !has_small_frame(d, level.ratio) {
        return false;
    }
    if !all_fit(ranks, level.boxes.as_slice()) {
        return false;
    }
    if !all_fit(ranks, fine.boxes.as_slice()) {
        return false;
    }
    all_small(fine.boxes.as_slice())
}

/// Whether what a box needs on one axis has a coordinate.
fn reaches(lo: i64, hi: i64, upper: i64, nest: i64, lower: i64, x: i64) -> bool {
    let upper = upper.max(1);
    let lower = lower.max(1);
    let first = lo.div_euclid(upper).saturating_sub(nest).div_euclid(lower);
    let last = hi.div_euclid(upper).saturating_add(nest).div_euclid(lower);
    first <= x && x <= last
}

fn needs_cell(b: IBox, nest: IVec, upper: Ratio, lower: Ratio, x: IVec) -> bool {
    reaches(b.lo.i, b.hi.i, upper.i, nest.i, lower.i, x.i)
        && reaches(b.lo.j, b.hi.j, upper.j, nest.j, lower.j, x.j)
}

/// Whether a fine box needs a cell of a domain that is periodic on the axes i and j, by the words of the definition.
fn is_needed(size: IVec, fine: &[BoxRef], nest: IVec, upper: Ratio, lower: Ratio, x: IVec) -> bool {
    for v in -1..2i64 {
        for u in -1..2i64 {
            let i = x.i.saturating_add(u.saturating_mul(size.i));
            let j = x.j.saturating_add(v.saturating_mul(size.j));
            let seen = IVec::new(i, j, x.k);
            if fine
                .iter()
                .any(|b| needs_cell(b.bx, nest, upper, lower, seen))
            {
                return true;
            }
        }
    }
    false
}

/// Whether a field on a box of a domain of 8 x 4 cells has exactly the cells that fine boxes need.
fn has_cover(field: &TagField, fine: &[BoxRef], nest: IVec, upper: Ratio, lower: Ratio) -> bool {
    for j in 0..4i64 {
        for i in 0..8i64 {
            let x = IVec::new(i, j, 0);
            let needed = is_needed(IVec::new(8, 4, 1), fine, nest, upper, lower, x);
            if contains(field.bx(), x) && has_tag(field, x) != needed {
                return false;
            }
        }
    }
    true
}

#[test]
fn the_cover_of_three_levels(rt: HostRuntime) -> Result<(), Fail> {
    let alloc = rt.alloc();
    let d = domain(&rt, IVec::new(16, 16, 1), NO_AXIS);
    let two = ratio(&rt, 2, 2, 1);
    let all = owned(&rt, 0, IVec::new(0, 0, 0), IVec::new(15, 15, 0));
    let level = level_of(alloc, ratio(&rt, 1, 1, 1), [all].as_slice())?;
    let mut fine = Vec::new(alloc);
    fine.push(owned(&rt, 0, IVec::new(30, 28, 0), IVec::new(31, 31, 0)))?;
    let width = IVec::new(1, 1, 0);
    let nest = IVec::new(2, 2, 0);
    let made = covered(alloc, 1, &d, &level, fine, width, nest, two, two)?;
    let fields = made.ok_or("not fit")?;
    assert_eq!(rt; fields.len(), 1);
    assert_eq!(rt; fields[0].as_slice().len(), 1);
    for j in 0..16i64 {
        for i in 0..16i64 {
            let here = i >= 6 && i <= 8 && j >= 6 && j <= 8;
            assert!(rt; has_tag(&fields[0].as_slice()[0], IVec::new(i, j, 0)) == here);
        }
    }
    Ok(())
}

#[test]
fn the_cover_across_a_periodic_border(rt: HostRuntime) -> Result<(), Fail> {
    let alloc = rt.alloc();
    let d = domain(&rt, IVec::new(8, 4, 1), ALONG_I);
    let two = ratio(&rt, 2, 2, 1);
    let left = owned(&rt, 0, IVec::new(0, 0, 0), IVec::new(3, 3, 0));
    let right = owned(&rt, 1, IVec::new(4, 0, 0), IVec::new(7, 3, 0));
    let level = level_of(alloc, ratio(&rt, 1, 1, 1), [left, right].as_slice())?;
    let mut fine = Vec::new(alloc);
    fine.push(owned(&rt, 0, IVec::new(0, 4, 0), IVec::new(3, 7, 0)))?;
    let one = IVec::new(1, 1, 0);
    let made = covered(alloc, 2, &d, &level, fine, one, one, two, two)?;
    let fields = made.ok_or("not fit")?;
    assert_eq!(rt; fields.len(), 2);
    assert_eq!(rt; fields[0].as_slice().len(), 1);
    assert_eq!(rt; fields[1].as_slice().len(), 1);
    for j in 0..4i64 {
        for i in 0..4i64 {
            assert!(rt; has_tag(&fields[0].as_slice()[0], IVec::new(i, j, 0)) == (j < 3 && i < 2));
            assert!(rt;
                has_tag(&fields[1].as_slice()[0], IVec::new(i + 4, j, 0)) == (j < 3 && i == 3)
            );
        }
    }
    Ok(())
}

/// Whether the covers of drawn levels on so many ranks are those of the plain program.
fn covers_as_plain(rt: &impl Abort, alloc: Global, ranks: u16) -> Result<bool, NoMemory> {
    let d = domain(rt, IVec::new(8, 4, 1), ALONG_I_AND_J);
    let seed = drawn(31, u32::from(ranks));
    let size = IVec::new(2, 2, 1);
    let one = ratio(rt, 1, 1, 1);
    let level = blocks(rt, alloc, ranks, seed, seed | 0b1001_0111, size, one)?;
    let kept = (seed >> 9) & 0b0010_0101 | 0b1000_0001;
    let six = ratio(rt, 6, 6, 1);
    let shown = blocks(rt, alloc, ranks, seed ^ 5, kept, size, six)?;
    let fine = Vec::from_slice(alloc, shown.boxes.as_slice())?;
    let upper = ratio(rt, 3, 2, 1);
    let lower = ratio(rt, 2, 3, 1);
    let nest = IVec::new(2, 1, 0);
    let made = covered(
        alloc,
        ranks,
        &d,
        &level,
        fine,
        IVec::new(1, 1, 1),
        nest,
        upper,
        lower,
    )?;
    let Some(fields) = made else {
        return Ok(false);
    };
    let fine = shown.boxes.as_slice();
    Ok(
        fields.iter().all(|own| own
            .as_slice()
            .iter()
            .all(|field| has_cover(field, fine, nest, upper, lower))),
    )
}

#[test]
fn drawn_covers_on_one_to_five_ranks(rt: HostRuntime) -> Result<(), Fail> {
    for ranks in 1..6u16 {
        assert!(rt; covers_as_plain(&rt, rt.alloc(), ranks)?);
    }
    Ok(())
}
