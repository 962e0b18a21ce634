//! Edges of old boxes, taken over by the new boxes in their places.

ghost use Rattle.std.specs.Prelude.{◌≡◌, ◌++◌, IfOk, OnOk};
ghost use Rattle.std.specs.List.{flat_map};
ghost use Rattle.samr_level.specs.Refs.{link};
ghost use Rattle.samr_level.specs.Levels.{own};
ghost use Rattle.samr_modify.specs.Found.{taken_by, taken, all_taken};

use crate::entries::Replaced;
use crate::leading::is_near;
use samr_level::{BoxRef, Edge, Ruler};
use std::alloc::{AllocError as NoMemory, Global};

/// The boxes that a rank owns.
#[tactic(auto, unfolding(samr_level::specs::Levels::own))]
pub fn own(alloc: Global, rank: u16, boxes: &[BoxRef]) -> Result<Vec<BoxRef>, NoMemory>
    ensures { IfOk result (λ v. v.items ≡ own rank boxes.now) }
{
    let mut kept = Vec::new(alloc);
    for b in boxes {
        if b.owner == rank {
            kept.push(*b)?;
        }
    }
    Ok(kept)
}

/// An edge, taken by another box.
fn taken_edge(e: Edge, b: BoxRef) -> Edge
    ensures { result ≡ link b e.head e.shift }
{
    Edge {
        base: b,
        head: e.head,
        shift: e.shift,
    }
}

/// Adds the edges of an old box that are true of a new one.
#[tactic(auto, unfolding(crate::specs::Found::taken_by))]
fn push_taken_by(
    ruler: &Ruler,
    edges: &[Edge],
    b: BoxRef,
    out: &mut Vec<Edge>,
) -> Result<(), NoMemory>
    ensures { OnOk result (out.new.items ≡ out.old.items ++ taken_by ruler.now edges.now b) }
{
    for e in edges {
        let edge = taken_edge(*e, b);
        if is_near(ruler, edge) {
            out.push(edge)?;
        }
    }
    Ok(())
}

/// Adds the edges that a rank's own new boxes take from their old box.
#[tactic(auto, unfolding(crate::specs::Found::taken))]
fn push_taken(
    alloc: Global,
    ruler: &Ruler,
    rank: u16,
    r: &Replaced,
    out: &mut Vec<Edge>,
) -> Result<(), NoMemory>
    ensures { OnOk result (out.new.items ≡ out.old.items ++ taken ruler.now rank r.now) }
{
    let own = own(alloc, rank, r.news.as_slice())?;
    for b in own.as_slice() {
        push_taken_by(ruler, r.edges.as_slice(), *b, out)?;
    }
    Ok(())
}

/// The edges that a rank's own new boxes take from their old boxes.
#[tactic(auto, unfolding(crate::specs::Found::all_taken))]
pub fn all_taken(
    alloc: Global,
    ruler: &Ruler,
    rank: u16,
    known: &[Replaced],
) -> Result<Vec<Edge>, NoMemory>
    ensures { IfOk result (λ v. v.items ≡ all_taken ruler.now rank known.now) }
{
    let mut out = Vec::new(alloc);
    for r in known {
        push_taken(alloc, ruler, rank, r, &mut out)?;
    }
    Ok(out)
}
