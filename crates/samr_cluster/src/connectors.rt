//! Lists of edges: those of a rank, turned, and in edge order.

ghost use Rattle.std.specs.Prelude.{◌≡◌, ◌++◌, IfOk, OnOk, map};
ghost use Rattle.std.specs.List.{flat_map};
ghost use Rattle.samr_level.specs.Refs.{turned};
ghost use Rattle.samr_level.specs.RefOrders.{edge_cmp, in_order};
ghost use Rattle.samr_level.specs.Overlaps.{of_rank};

use samr_box::Listed;
use samr_level::{Edge, settled};
use samr_stage::Held;
use std::alloc::{AllocError as NoMemory, Global};

/// The edges of which a rank owns the base.
#[tactic(auto, unfolding(samr_level::specs::Overlaps::of_rank))]
fn based_on(alloc: Global, rank: u16, edges: &[Edge]) -> Result<Vec<Edge>, NoMemory>
    ensures { IfOk result (λ v. v.items ≡ of_rank rank edges.now) }
{
    let mut kept = Vec::new(alloc);
    for e in edges {
        if e.base.owner == rank {
            kept.push(*e)?;
        }
    }
    Ok(kept)
}

/// The edges of which a rank owns the base, in edge order, each once.
pub fn settled_on(alloc: Global, rank: u16, edges: &[Edge]) -> Result<Listed<Edge>, NoMemory>
    ensures { IfOk result (λ l. l ≡ in_order edge_cmp (of_rank rank edges.now)) }
{
    let own = based_on(alloc, rank, edges)?;
    Ok(Listed::from_vec(settled(own)))
}

/// The edges turned.
fn turned(alloc: Global, edges: &[Edge]) -> Result<Vec<Edge>, NoMemory>
    ensures { IfOk result (λ v. v.items ≡ map (λ e. turned e) edges.now) }
{
    let mut back = Vec::new(alloc);
    for e in edges {
        back.push(e.turned())?;
    }
    Ok(back)
}

/// The edges turned, in edge order, each once.
pub fn settled_turned(alloc: Global, edges: &[Edge]) -> Result<Listed<Edge>, NoMemory>
    ensures { IfOk result (λ l. l ≡ in_order edge_cmp (map (λ e. turned e) edges.now)) }
{
    let back = turned(alloc, edges)?;
    Ok(Listed::from_vec(settled(back)))
}

/// Adds edges to others.
fn push_all(edges: &[Edge], out: &mut Vec<Edge>) -> Result<(), NoMemory>
    ensures { OnOk result (out.new.items ≡ out.old.items ++ edges.now) }
{
    for e in edges {
        out.push(*e)?;
    }
    Ok(())
}

/// The edges that a rank found and those of the letters that it holds.
pub fn gathered(
    alloc: Global,
    found: &[Edge],
    held: &[Held<Listed<Edge>>],
) -> Result<Vec<Edge>, NoMemory>
    ensures { IfOk result (λ v. v.items ≡ found.now ++ flat_map (λ letter. letter.body) held.now) }
{
    let mut all = Vec::new(alloc);
    push_all(found, &mut all)?;
    for letter in held {
        push_all(letter.body.as_slice(), &mut all)?;
    }
    Ok(all)
}
