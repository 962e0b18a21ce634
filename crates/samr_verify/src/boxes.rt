//! Whether the boxes of a level are right, one by one.

ghost use Rattle.std.specs.Prelude.{◌≡◌, ◌==◌, ◌-◌, ◌<◌, List, All, map, IfOk, pos, slice_get};
ghost use Rattle.samr_box.specs.Vector.{InRange, IsRatio};
ghost use Rattle.samr_box.specs.Corners.{IsBox};
ghost use Rattle.samr_box.specs.Space.{is_zero};
ghost use Rattle.std.specs.List.{enumerate_from};
ghost use Rattle.samr_level.specs.Refs.{Owned};
ghost use Rattle.samr_level.specs.RefOrders.{ref_cmp};
ghost use Rattle.samr_verify.specs.Deciding.{begins_below};
ghost use Rattle.samr_verify.specs.Faults.{or_earlier, first_of};
ghost use Rattle.samr_verify.specs.MeshFaults.{covered, is_less, is_equal, comes_after, ascends, meets_earlier, is_one, rest_in_cell, starts_cell, ends_cell, is_refinement, is_made, is_right, box_fault, box_faults};
ghost use Rattle.samr_verify.specs.Printed.{boxes_in};

use crate::fault::{or_earlier, stands_before, unless};
use crate::ground::Ground;
use crate::look_up::LookUp;
use crate::{Fault, PrintedBox, PrintedLevel};
use samr_box::{IBox, IVec, Ratio};
use samr_boxlist::subtract_each;
use samr_level::BoxRef;
use std::alloc::{AllocError as NoMemory, Global};
use std::cmp::Ordering;

/// Whether every cell of a box lies in one of some boxes.
pub(crate) fn covered(alloc: Global, boxes: &[IBox], b: IBox) -> Result<bool, NoMemory>
    ensures { IfOk result (λ r. r ≡ covered boxes.now b) }
{
    let left = subtract_each(alloc, Vec::from_slice(alloc, [b].as_slice())?, boxes)?;
    Ok(left.as_slice().is_empty())
}

/// Whether a box comes after another in level order.
fn is_after(a: BoxRef, b: BoxRef) -> bool
    ensures { result ≡ is_less (ref_cmp a b) }
{
    match a.cmp(&b) {
        Ordering::Less => true,
        Ordering::Equal => false,
        Ordering::Greater => false,
    }
}

/// Whether two boxes with their owners are the same.
fn is_same(a: BoxRef, b: BoxRef) -> bool
    ensures { result ≡ is_equal (ref_cmp a b) }
{
    match a.cmp(&b) {
        Ordering::Less => false,
        Ordering::Equal => true,
        Ordering::Greater => false,
    }
}

/// Whether a box comes after the one at a place.
fn comes_after(boxes: &[BoxRef], i: usize, b: BoxRef) -> bool
    ensures { result ≡ comes_after (slice_get boxes.now i) b }
{
    match boxes.get(i) {
        Some(a) => is_after(*a, b),
        None => false,
    }
}

/// Whether the box at a place comes after the one before it.
fn ascends(boxes: &[BoxRef], i: usize, b: BoxRef) -> bool
    ensures { result ≡ ascends boxes.now i b }
{
    if i == 0 {
        return true;
    }
    comes_after(boxes, i - 1, b)
}

/// The box, without its owner.
pub(crate) fn box_of(b: BoxRef) -> IBox
    ensures value { result ≡ b.bx }
    ensures whole { IsBox result }
{
    let bx = b.bx;
    let _corner = bx.lo;
    bx
}

/// Whether the first of some places is below a bound.
fn begins_below(places: &[usize], bound: usize) -> bool
    ensures { result ≡ begins_below places.now bound }
{
    match places.first() {
        Some(place) => *place < bound,
        None => false,
    }
}

/// Whether the box at a place meets one before it, by a look-up of all boxes.
fn meets_earlier(alloc: Global, all: &LookUp, i: usize, b: BoxRef) -> Result<bool, NoMemory>
    ensures { IfOk result (λ r. (boxes : List Owned) → all.now ≡ map (λ a. a.bx) boxes → r ≡ meets_earlier boxes i b) }
{
    let places = all.meeting(alloc, box_of(b))?;
    let earlier = begins_below(places.as_slice(), i);
    Ok(earlier)
}

/// The boxes without their owners.
pub(crate) fn boxes_only(alloc: Global, level: &[BoxRef]) -> Result<Vec<IBox>, NoMemory>
    ensures value { IfOk result (λ v. v.items ≡ map (λ b. b.bx) level.now) }
    ensures whole { IfOk result (λ v. All IsBox v.items) }
{
    let mut boxes = Vec::new(alloc);
    for b in level {
        boxes.push(box_of(*b))?;
    }
    Ok(boxes)
}

/// Whether the box at a place of some boxes is this one.
fn is_one(boxes: &[BoxRef], i: usize, b: BoxRef) -> bool
    ensures { result ≡ is_one (slice_get boxes.now i) b }
{
    match boxes.get(i) {
        Some(a) => is_same(*a, b),
        None => false,
    }
}

/// Where a fine cell lies in its coarse cell.
fn rest_in_cell(x: IVec, r: Ratio) -> IVec
    ensures { result ≡ rest_in_cell x r }
{
    IVec {
        k: x.k.rem_euclid(r.k),
        j: x.j.rem_euclid(r.j),
        i: x.i.rem_euclid(r.i),
    }
}

/// Whether the numbers of all axes are 0.
pub(crate) fn is_zero(v: IVec) -> bool
    ensures { result ≡ is_zero v }
{
    v.k == 0 && v.j == 0 && v.i == 0
}

/// Whether a cell is the first one of a coarse cell.
fn starts_cell(r: Ratio, x: IVec) -> bool
    ensures { result ≡ starts_cell r x }
{
    is_zero(rest_in_cell(x, r))
}

/// Whether a cell is the last one of a coarse cell.
fn ends_cell(r: Ratio, x: IVec) -> bool
    requires { InRange x }
    ensures { result ≡ ends_cell r x }
{
    starts_cell(r, x.plus(IVec::alike(1)))
}

/// Whether a box is the refinement of one.
fn is_refinement(r: Ratio, b: IBox) -> bool
    ensures { result ≡ is_refinement r b }
{
    if !starts_cell(r, b.lo) {
        return false;
    }
    ends_cell(r, b.hi)
}

/// Whether the box at a place is as the levels are made.
fn is_made(g: &Ground, i: usize, b: BoxRef) -> bool
    ensures { result ≡ is_made g.now i b }
{
    if g.number == 0 {
        return is_one(g.base.as_slice(), i, b);
    }
    is_refinement(g.step, b.bx)
}

/// Whether the box at a place is one that may stand there.
fn is_right(
    alloc: Global,
    g: &Ground,
    boxes: &[BoxRef],
    all: &LookUp,
    i: usize,
    b: BoxRef,
) -> Result<bool, NoMemory>
    requires { all.now ≡ map (λ a. a.bx) boxes.now }
    ensures { IfOk result (λ r. r ≡ is_right g.now boxes.now i b) }
{
    if !covered(alloc, g.domain.as_slice(), b.bx)? {
        return Ok(false);
    }
    if b.owner >= g.ranks {
        return Ok(false);
    }
    if !ascends(boxes, i, b) {
        return Ok(false);
    }
    if meets_earlier(alloc, all, i, b)? {
        return Ok(false);
    }
    Ok(is_made(g, i, b))
}

/// The earlier of a known fault and that of the box at a place, if there is one.
fn or_box_fault(
    alloc: Global,
    g: &Ground,
    boxes: &[BoxRef],
    all: &LookUp,
    i: usize,
    b: &PrintedBox,
    first: Option<Fault>,
) -> Result<Option<Fault>, NoMemory>
    requires { all.now ≡ map (λ a. a.bx) boxes.now }
    ensures { IfOk result (λ f. f ≡ or_earlier first (box_fault g.now boxes.now (i, b.now))) }
{
    if stands_before(first, b.line) {
        return Ok(first);
    }
    let right = is_right(alloc, g, boxes, all, i, b.at)?;
    Ok(or_earlier(first, unless(right, 3, b.line)))
}

/// The first of a known fault and those of a level's boxes, if there is one.
fn first_of_boxes(
    alloc: Global,
    g: &Ground,
    printed: &[PrintedBox],
    boxes: &[BoxRef],
    all: &LookUp,
    known: Option<Fault>,
) -> Result<Option<Fault>, NoMemory>
    requires { all.now ≡ map (λ a. a.bx) boxes.now }
    ensures { IfOk result (λ f. f ≡ or_earlier known (first_of (map (box_fault g.now boxes.now) (enumerate_from 0 printed.now)))) }
{
    let mut first = known;
    for (i, b) in printed.iter().enumerate() {
        let next = or_box_fault(alloc, g, boxes, all, i, b, first)?;
        first = next;
    }
    Ok(first)
}

/// The earlier of a known fault and the first one of a level's boxes, if there is one.
pub(crate) fn or_box_faults(
    alloc: Global,
    g: &Ground,
    level: &PrintedLevel,
    boxes: &[BoxRef],
    known: Option<Fault>,
) -> Result<Option<Fault>, NoMemory>
    requires { boxes.now ≡ boxes_in level.now }
    ensures { IfOk result (λ f. f ≡ or_earlier known (box_faults g.now level.now)) }
{
    let all = LookUp::new(alloc, boxes_only(alloc, boxes)?)?;
    let first = first_of_boxes(alloc, g, level.boxes.as_slice(), boxes, &all, known)?;
    Ok(first)
}
