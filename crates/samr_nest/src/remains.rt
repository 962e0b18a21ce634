//! What of a box the level has not, and what of a cluster lies far from all that.

ghost use Rattle.std.specs.Prelude.{◌≡◌, ℕ, ◌≤◌, pos, List, if◌then◌else◌, IfOk};
ghost use Rattle.std.specs.List.{filter_map};
ghost use Rattle.samr_box.specs.declared.vector.IVec.{IVec};
ghost use Rattle.samr_box.specs.Vector.{alike, Between};
ghost use Rattle.samr_box.specs.Corners.{Corners, IsBox, holds, met, grown};
ghost use Rattle.samr_box.specs.Space.{image};
ghost use Rattle.samr_boxlist.specs.Covers.{cover};
ghost use Rattle.samr_level.specs.Refs.{Owned, Link};
ghost use Rattle.samr_level.specs.Regions.{IsArea};
ghost use Rattle.samr_level.specs.Neighbours.{IsWidth};
ghost use Rattle.samr_nest.specs.Nested.{holes, holes_by, nested_by, AreEdgesTo};

use crate::starts::{needed, part_between};
use samr_box::{Domain, IBox, IVec, Shift, grow};
use samr_boxlist::{intersect, subtract_each};
use samr_level::{BoxRef, Edge, Region};
use std::alloc::{AllocError as NoMemory, Global};

/// What is left of a box without all cells that have a hole of the level within the nest width.
#[tactic(auto, unfolding(crate::specs::Nested::nested_by))]
pub(crate) fn left(
    alloc: Global,
    c: IBox,
    near: &[Edge],
    nest: IVec,
    region: &Region,
) -> Result<Vec<IBox>, NoMemory>
    requires nest { IsWidth region.now.frame nest }
    requires range { IsBox (grown c nest) }
    ensures value { IfOk result (λ v. v.items ≡ nested_by region.now near.now nest c) }
    ensures once { IfOk result (λ v. (x : IVec) → cover x v.items ≤ (if holds c x then 1 else 0)) }
    ensures area { IfOk result (λ v. IsArea region.now) }
{
    let holes = holes_of(alloc, c, near, nest, region)?;
    let gaps = gaps(alloc, holes.as_slice(), nest, c)?;
    let boxes = region.boxes(alloc)?;
    let inner = intersect(alloc, boxes.as_slice(), c)?;
    let rest = subtract_each(alloc, inner, gaps.as_slice())?;
    Ok(rest)
}

/// What of a box and of the cells within a width of it lies in the domain and in no box of the level,
/// round periodic borders too.
///
/// `near` are the box's edges to the level, in edge order, at a width of at least `width`; box and level
/// are of the same index space, of which `region` is the domain.
///
/// # Errors
///
/// Where memory is short.
pub fn holes(
    alloc: Global,
    c: BoxRef,
    near: &[Edge],
    width: IVec,
    region: &Region,
) -> Result<Vec<IBox>, NoMemory>
    requires { IsBox (grown c.bx width) }
    ensures by_edges { IfOk result (λ v. v.items ≡ holes_by region.now near.now width c.bx) }
    ensures value { IfOk result (λ v. (level : List Owned) → AreEdgesTo region.now level width c near.now → v.items ≡ holes region.now level (grown c.bx width)) }
{
    let holes = holes_of(alloc, c.bx, near, width, region)?;
    Ok(holes)
}

/// What of a box and of the cells within a width lies in the domain and in no image of a head.
fn holes_of(
    alloc: Global,
    c: IBox,
    near: &[Edge],
    width: IVec,
    region: &Region,
) -> Result<Vec<IBox>, NoMemory>
    requires { IsBox (grown c width) }
    ensures value { IfOk result (λ v. v.items ≡ holes_by region.now near.now width c) }
    ensures area { IfOk result (λ v. IsArea region.now) }
{
    let around = grow(c, width);
    let start = needed(alloc, around, region)?;
    let images = images(alloc, region.frame(), near, around)?;
    let holes = subtract_each(alloc, start, images.as_slice())?;
    Ok(holes)
}

/// The parts of a box that lie in images of heads.
fn images(alloc: Global, d: &Domain, near: &[Edge], b: IBox) -> Result<Vec<IBox>, NoMemory>
    ensures { IfOk result (λ v. v.items ≡ filter_map (λ e. met (image d.now e.head.bx e.shift) b) near.now) }
{
    near.iter().filter_map(|e| in_head(d, *e, b)).collect(alloc)
}

/// The part of a box that lies in the image of an edge's head, if there is one.
fn in_head(d: &Domain, e: Edge, b: IBox) -> Option<IBox>
    ensures { result ≡ met (image d.now e.head.bx e.shift) b }
{
    in_image(d, e.head.bx, e.shift, b)
}

/// The part of a box that lies in the image of another, if there is one.
fn in_image(d: &Domain, h: IBox, s: Shift, b: IBox) -> Option<IBox>
    ensures { result ≡ met (image d.now h s) b }
{
    let step = d.offset(s);
    part_between(h.lo.plus(step), h.hi.plus(step), b)
}

/// The parts of a box that lie within the nest width of a hole.
fn gaps(alloc: Global, holes: &[IBox], nest: IVec, c: IBox) -> Result<Vec<IBox>, NoMemory>
    requires { Between (alike (pos 0)) nest (alike (pos 1073741824)) }
    ensures { IfOk result (λ v. v.items ≡ filter_map (λ m. met (grown m nest) c) holes.now) }
{
    holes
        .iter()
        .filter_map(|m| near_hole(*m, nest, c))
        .collect(alloc)
}

/// The part of a box that lies within the nest width of a hole, if there is one.
fn near_hole(m: IBox, nest: IVec, c: IBox) -> Option<IBox>
    requires { Between (alike (pos 0)) nest (alike (pos 1073741824)) }
    ensures { result ≡ met (grown m nest) c }
{
    part_between(m.lo.minus(nest), m.hi.plus(nest), c)
}
