//! The overlaps that edges from one centre box to both sides show, by a look at each two.

ghost use Rattle.std.specs.Prelude.{◌≡◌, ◌++◌, ◌<◌, ◌^◌, IfOk, OnOk, length, map};
ghost use Rattle.std.specs.List.{All, flat_map};
ghost use Rattle.samr_box.specs.Corners.{IsBox};
ghost use Rattle.samr_box.specs.Orders.{cell_cmp};
ghost use Rattle.samr_level.specs.RefOrders.{in_order};
ghost use Rattle.samr_bridge.specs.Found.{leave_one_box, joined};
ghost use Rattle.samr_bridge.specs.Search.{makes_pair, pair_of, pair_at, all_pairs};

use samr_box::{IBox, Shift};
use samr_level::{Edge, Ruler};
use std::alloc::{AllocError as NoMemory, Global};

/// Whether an edge to the east moves nothing and an edge to the west leaves the same box.
fn leave_one_box(a: Edge, b: Edge) -> bool
    ensures { result ≡ leave_one_box a b }
{
    if a.base == b.base {
        return a.shift.is_zero();
    }
    false
}

/// The edge from the head of the one to the head of the other.
fn joined(a: Edge, b: Edge) -> Edge
    ensures { result ≡ joined a b }
{
    Edge {
        base: a.head,
        head: b.head,
        shift: b.shift,
    }
}

/// Whether two edges leave one box and their heads overlap.
fn makes_pair(ruler: &Ruler, a: Edge, b: Edge) -> bool
    ensures { result ≡ makes_pair ruler.now a b }
{
    if leave_one_box(a, b) {
        return ruler.is_true(joined(a, b));
    }
    false
}

/// Adds the edge that two edges give, if they make a pair.
pub fn push_pair(ruler: &Ruler, a: Edge, b: Edge, out: &mut Vec<Edge>) -> Result<(), NoMemory>
    ensures { OnOk result (out.new.items ≡ out.old.items ++ pair_of ruler.now a b) }
{
    if makes_pair(ruler, a, b) {
        out.push(joined(a, b))?;
    }
    Ok(())
}

/// Adds what an edge to the east gives with each of some edges to the west.
fn push_pairs(ruler: &Ruler, a: Edge, to_west: &[Edge], out: &mut Vec<Edge>) -> Result<(), NoMemory>
    ensures { OnOk result (out.new.items ≡ out.old.items ++ flat_map (λ b. pair_of ruler.now a b) to_west.now) }
{
    for b in to_west {
        push_pair(ruler, a, *b, out)?;
    }
    Ok(())
}

/// What all edges to the east give with all edges to the west, by a look at each two.
#[tactic(auto, unfolding(crate::specs::Search::all_pairs))]
pub fn compared(
    alloc: Global,
    ruler: &Ruler,
    to_east: &[Edge],
    to_west: &[Edge],
) -> Result<Vec<Edge>, NoMemory>
    ensures { IfOk result (λ v. v.items ≡ all_pairs ruler.now to_east.now to_west.now) }
{
    let mut out = Vec::new(alloc);
    for a in to_east {
        push_pairs(ruler, *a, to_west, &mut out)?;
    }
    Ok(out)
}

/// Adds what an edge to the east gives with the edge to the west at a place.
pub fn push_place(
    ruler: &Ruler,
    a: Edge,
    to_west: &[Edge],
    place: u32,
    out: &mut Vec<Edge>,
) -> Result<(), NoMemory>
    ensures { OnOk result (out.new.items ≡ out.old.items ++ pair_at ruler.now to_west.now a place) }
{
    match to_west.get(place as usize) {
        Some(b) => push_pair(ruler, a, *b, out),
        None => Ok(()),
    }
}
