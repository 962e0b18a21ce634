//! What a rank knows of its old boxes: their new boxes and their edges.

ghost use Rattle.std.specs.Prelude.{◌≡◌, ◌++◌, ◌<◌, ◌^◌, IfOk, OnOk, length, map};
ghost use Rattle.std.specs.List.{flat_map};
ghost use Rattle.std.specs.Ordering.{is_eq};
ghost use Rattle.samr_box.specs.Corners.{IsBox};
ghost use Rattle.samr_level.specs.RefOrders.{ref_cmp, in_order};
ghost use Rattle.samr_modify.specs.Entries.{edges_of, entry};
ghost use Rattle.samr_modify.specs.Found.{at_place, if_leaves};

use crate::entries::Replaced;
use samr_box::{IBox, Listed};
use samr_find::Finder;
use samr_level::{BoxRef, Edge, Move, in_level_order};
use std::alloc::{AllocError as NoMemory, Global};

/// How many boxes a look-up may have.
pub const MOST: usize = 0xffff_ffff;

/// The box, without its owner.
pub fn box_of(b: BoxRef) -> IBox
    ensures value { result ≡ b.bx }
    ensures whole { IsBox result }
{
    let bx = b.bx;
    let _corner = bx.lo;
    bx
}

/// The base boxes of edges.
fn bases_of(alloc: Global, edges: &[Edge]) -> Result<Vec<IBox>, NoMemory>
    ensures { IfOk result (λ v. v.items ≡ map (λ e. e.base.bx) edges.now) }
{
    let mut bases = Vec::new(alloc);
    for e in edges {
        bases.push(box_of(e.base))?;
    }
    Ok(bases)
}

/// Whether an edge leaves a box.
fn leaves(e: Edge, b: BoxRef) -> bool
    ensures { result ≡ is_eq (ref_cmp e.base b) }
{
    e.base == b
}

/// Adds an edge, if it leaves a box.
fn push_leaving(e: Edge, b: BoxRef, out: &mut Vec<Edge>) -> Result<(), NoMemory>
    ensures { OnOk result (out.new.items ≡ out.old.items ++ if_leaves b e) }
{
    if leaves(e, b) {
        out.push(e)?;
    }
    Ok(())
}

/// Adds the edge at a place, if it leaves a box.
fn push_place(edges: &[Edge], place: u32, b: BoxRef, out: &mut Vec<Edge>) -> Result<(), NoMemory>
    ensures { OnOk result (out.new.items ≡ out.old.items ++ at_place (λ e. if_leaves b e) edges.now place) }
{
    match edges.get(place as usize) {
        Some(e) => push_leaving(*e, b, out),
        None => Ok(()),
    }
}

/// Those of the edges at some places that leave a box.
fn leaving_at(
    alloc: Global,
    edges: &[Edge],
    places: &[u32],
    b: BoxRef,
) -> Result<Vec<Edge>, NoMemory>
    ensures { IfOk result (λ v. v.items ≡ flat_map (λ place. at_place (λ e. if_leaves b e) edges.now place) places.now) }
{
    let mut out = Vec::new(alloc);
    for place in places {
        push_place(edges, *place, b, &mut out)?;
    }
    Ok(out)
}

/// The edges that leave a box, by a look-up of their bases.
fn leaving(
    alloc: Global,
    edges: &[Edge],
    bases: &Finder,
    b: BoxRef,
) -> Result<Listed<Edge>, NoMemory>
    requires { bases.now ≡ map (λ e. e.base.bx) edges.now }
    ensures { IfOk result (λ v. v ≡ edges_of b edges.now) }
{
    let places = bases.meeting(alloc, box_of(b))?;
    let out = leaving_at(alloc, edges, places.as_slice(), b)?;
    Ok(Listed::from_vec(out))
}

/// The edges that leave a box, by a look at each.
fn leaving_compared(alloc: Global, edges: &[Edge], b: BoxRef) -> Result<Listed<Edge>, NoMemory>
    ensures { IfOk result (λ v. v ≡ edges_of b edges.now) }
{
    let mut out = Vec::new(alloc);
    for e in edges {
        push_leaving(*e, b, &mut out)?;
    }
    Ok(Listed::from_vec(out))
}

/// Boxes in level order, each once.
fn ordered(alloc: Global, boxes: &[BoxRef]) -> Result<Listed<BoxRef>, NoMemory>
    ensures { IfOk result (λ v. v ≡ in_order ref_cmp boxes.now) }
{
    let copy = Vec::from_slice(alloc, boxes)?;
    Ok(Listed::from_vec(in_level_order(copy)))
}

/// What a rank knows of each of its old boxes, by a look-up of the bases of their edges.
fn looked_up(
    alloc: Global,
    moves: &[Move],
    edges: &[Edge],
    bases: &Finder,
) -> Result<Vec<Replaced>, NoMemory>
    requires { bases.now ≡ map (λ e. e.base.bx) edges.now }
    ensures { IfOk result (λ v. v.items ≡ map (λ m. entry edges.now m) moves.now) }
{
    let mut known = Vec::new(alloc);
    for m in moves {
        known.push(Replaced {
            old: m.old,
            news: ordered(alloc, m.news.as_slice())?,
            edges: leaving(alloc, edges, bases, m.old)?,
        })?;
    }
    Ok(known)
}

/// The same, by a look at each edge for each old box.
fn compared(alloc: Global, moves: &[Move], edges: &[Edge]) -> Result<Vec<Replaced>, NoMemory>
    ensures { IfOk result (λ v. v.items ≡ map (λ m. entry edges.now m) moves.now) }
{
    let mut known = Vec::new(alloc);
    for m in moves {
        known.push(Replaced {
            old: m.old,
            news: ordered(alloc, m.news.as_slice())?,
            edges: leaving_compared(alloc, edges, m.old)?,
        })?;
    }
    Ok(known)
}

/// What a rank knows of its old boxes, from their moves and all their edges.
pub fn known_of(alloc: Global, moves: &[Move], edges: &[Edge]) -> Result<Vec<Replaced>, NoMemory>
    ensures { IfOk result (λ v. v.items ≡ map (λ m. entry edges.now m) moves.now) }
{
    if edges.len() > MOST {
        let known = compared(alloc, moves, edges)?;
        return Ok(known);
    }
    let bases = Finder::new(alloc, bases_of(alloc, edges)?)?;
    let known = looked_up(alloc, moves, edges, &bases)?;
    Ok(known)
}
