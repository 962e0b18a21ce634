//! Edges to old boxes, led to the new boxes in their places.

ghost use Rattle.std.specs.Prelude.{◌≡◌, ◌++◌, ◌<◌, ◌^◌, IfOk, OnOk, length, map};
ghost use Rattle.std.specs.List.{flat_map};
ghost use Rattle.std.specs.Ordering.{is_eq};
ghost use Rattle.samr_box.specs.Corners.{IsBox};
ghost use Rattle.samr_level.specs.Refs.{link};
ghost use Rattle.samr_level.specs.RefOrders.{ref_cmp};
ghost use Rattle.samr_level.specs.Overlaps.{is_true};
ghost use Rattle.samr_modify.specs.Found.{led_to, led, all_led, at_place};

use crate::entries::Replaced;
use crate::known::{MOST, box_of};
use samr_box::IBox;
use samr_find::Finder;
use samr_level::{BoxRef, Edge, Ruler};
use std::alloc::{AllocError as NoMemory, Global};

/// The head of an edge.
fn head_of(e: Edge) -> IBox
    ensures value { result ≡ e.head.bx }
    ensures whole { IsBox result }
{
    let head = e.head.bx;
    let _corner = head.lo;
    head
}

/// Whether an edge leads to a box.
fn leads_to(e: Edge, b: BoxRef) -> bool
    ensures { result ≡ is_eq (ref_cmp e.head b) }
{
    e.head == b
}

/// An edge, led to another box.
fn led(e: Edge, b: BoxRef) -> Edge
    ensures { result ≡ link e.base b e.shift }
{
    Edge {
        base: e.base,
        head: b,
        shift: e.shift,
    }
}

/// Whether the boxes of an edge overlap at its shift.
pub fn is_near(ruler: &Ruler, e: Edge) -> bool
    ensures { result ≡ is_true ruler.now e }
{
    ruler.is_true(e)
}

/// Adds an edge to an old box, led to those of some new boxes that are near.
#[tactic(auto, unfolding(crate::specs::Found::led_to))]
fn push_led_to(ruler: &Ruler, e: Edge, news: &[BoxRef], out: &mut Vec<Edge>) -> Result<(), NoMemory>
    ensures { OnOk result (out.new.items ≡ out.old.items ++ led_to ruler.now e news.now) }
{
    for b in news {
        let edge = led(e, *b);
        if is_near(ruler, edge) {
            out.push(edge)?;
        }
    }
    Ok(())
}

/// Adds an edge, led to the new boxes of an old box, if this is its head.
fn push_led(ruler: &Ruler, e: Edge, r: &Replaced, out: &mut Vec<Edge>) -> Result<(), NoMemory>
    ensures { OnOk result (out.new.items ≡ out.old.items ++ led ruler.now e r.now) }
{
    if leads_to(e, r.old) {
        push_led_to(ruler, e, r.news.as_slice(), out)?;
    }
    Ok(())
}

/// Adds an edge, led to the new boxes of the old box at a place.
fn push_place(
    ruler: &Ruler,
    e: Edge,
    known: &[Replaced],
    place: u32,
    out: &mut Vec<Edge>,
) -> Result<(), NoMemory>
    ensures { OnOk result (out.new.items ≡ out.old.items ++ at_place (λ r. led ruler.now e r) known.now place) }
{
    match known.get(place as usize) {
        Some(r) => push_led(ruler, e, r, out),
        None => Ok(()),
    }
}

/// Adds an edge, led to the new boxes of the old boxes at some places.
fn push_places(
    ruler: &Ruler,
    e: Edge,
    known: &[Replaced],
    places: &[u32],
    out: &mut Vec<Edge>,
) -> Result<(), NoMemory>
    ensures { OnOk result (out.new.items ≡ out.old.items ++ flat_map (λ place. at_place (λ r. led ruler.now e r) known.now place) places.now) }
{
    for place in places {
        push_place(ruler, e, known, *place, out)?;
    }
    Ok(())
}

/// Adds an edge, led to the new boxes of its old box, by a look-up of the old boxes.
fn push_found(
    alloc: Global,
    ruler: &Ruler,
    e: Edge,
    known: &[Replaced],
    olds: &Finder,
    out: &mut Vec<Edge>,
) -> Result<(), NoMemory>
    requires { olds.now ≡ map (λ r. r.old.bx) known.now }
    ensures { OnOk result (out.new.items ≡ out.old.items ++ flat_map (λ r. led ruler.now e r) known.now) }
{
    let places = olds.meeting(alloc, head_of(e))?;
    push_places(ruler, e, known, places.as_slice(), out)?;
    Ok(())
}

/// Adds an edge, led to the new boxes of its old box, by a look at each old box.
fn push_compared(
    ruler: &Ruler,
    e: Edge,
    known: &[Replaced],
    out: &mut Vec<Edge>,
) -> Result<(), NoMemory>
    ensures { OnOk result (out.new.items ≡ out.old.items ++ flat_map (λ r. led ruler.now e r) known.now) }
{
    for r in known {
        push_led(ruler, e, r, out)?;
    }
    Ok(())
}

/// The old boxes.
fn olds_of(alloc: Global, known: &[Replaced]) -> Result<Vec<IBox>, NoMemory>
    ensures { IfOk result (λ v. v.items ≡ map (λ r. r.old.bx) known.now) }
{
    let mut olds = Vec::new(alloc);
    for r in known {
        olds.push(box_of(r.old))?;
    }
    Ok(olds)
}

/// All edges, led to new boxes, by a look-up of the old boxes.
#[tactic(auto, unfolding(crate::specs::Found::all_led))]
fn looked_up(
    alloc: Global,
    ruler: &Ruler,
    edges: &[Edge],
    known: &[Replaced],
    olds: &Finder,
) -> Result<Vec<Edge>, NoMemory>
    requires { olds.now ≡ map (λ r. r.old.bx) known.now }
    ensures { IfOk result (λ v. v.items ≡ all_led ruler.now edges.now known.now) }
{
    let mut out = Vec::new(alloc);
    for e in edges {
        push_found(alloc, ruler, *e, known, olds, &mut out)?;
    }
    Ok(out)
}

/// All edges, led to new boxes, by a look at each old box for each edge.
#[tactic(auto, unfolding(crate::specs::Found::all_led))]
fn compared(
    alloc: Global,
    ruler: &Ruler,
    edges: &[Edge],
    known: &[Replaced],
) -> Result<Vec<Edge>, NoMemory>
    ensures { IfOk result (λ v. v.items ≡ all_led ruler.now edges.now known.now) }
{
    let mut out = Vec::new(alloc);
    for e in edges {
        push_compared(ruler, *e, known, &mut out)?;
    }
    Ok(out)
}

/// The edges to old boxes, each led to those of its old box's new boxes that are near.
pub fn all_led(
    alloc: Global,
    ruler: &Ruler,
    edges: &[Edge],
    known: &[Replaced],
) -> Result<Vec<Edge>, NoMemory>
    ensures { IfOk result (λ v. v.items ≡ all_led ruler.now edges.now known.now) }
{
    if known.len() > MOST {
        let led = compared(alloc, ruler, edges, known)?;
        return Ok(led);
    }
    let olds = Finder::new(alloc, olds_of(alloc, known)?)?;
    let led = looked_up(alloc, ruler, edges, known, &olds)?;
    Ok(led)
}
