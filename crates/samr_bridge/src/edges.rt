//! Lists of edges: those of a rank, turned, and the ranks at their heads.

ghost use Rattle.std.specs.Prelude.{◌≡◌, ◌++◌, ◌||◌, nat_eq, not, IfOk, OnOk, map, filter};
ghost use Rattle.std.specs.List.{flat_map};
ghost use Rattle.samr_level.specs.Refs.{turned};
ghost use Rattle.samr_level.specs.Overlaps.{of_rank};
ghost use Rattle.samr_bridge.specs.BridgeRow.{about, other_owners};

use samr_box::Listed;
use samr_level::Edge;
use samr_stage::Held;
use std::alloc::{AllocError as NoMemory, Global};

/// Whether a rank owns the base or the head of an edge.
fn concerns(e: Edge, rank: u16) -> bool
    ensures { result ≡ (nat_eq e.base.owner rank || nat_eq e.head.owner rank) }
{
    if e.base.owner == rank {
        return true;
    }
    e.head.owner == rank
}

/// The edges of which a rank owns the base or the head.
#[tactic(auto, unfolding(crate::specs::BridgeRow::about))]
pub fn about(alloc: Global, rank: u16, edges: &[Edge]) -> Result<Listed<Edge>, NoMemory>
    ensures { IfOk result (λ body. body ≡ about rank edges.now) }
{
    let mut kept = Vec::new(alloc);
    for e in edges {
        if concerns(*e, rank) {
            kept.push(*e)?;
        }
    }
    Ok(Listed::from_vec(kept))
}

/// The edges of which a rank owns the base.
#[tactic(auto, unfolding(samr_level::specs::Overlaps::of_rank))]
pub fn based_on(alloc: Global, rank: u16, edges: &[Edge]) -> Result<Vec<Edge>, NoMemory>
    ensures { IfOk result (λ v. v.items ≡ of_rank rank edges.now) }
{
    let mut kept = Vec::new(alloc);
    for e in edges {
        if e.base.owner == rank {
            kept.push(*e)?;
        }
    }
    Ok(kept)
}

/// The edges turned.
fn turned(alloc: Global, edges: &[Edge]) -> Result<Vec<Edge>, NoMemory>
    ensures { IfOk result (λ v. v.items ≡ map (λ e. turned e) edges.now) }
{
    let mut back = Vec::new(alloc);
    for e in edges {
        back.push(e.turned())?;
    }
    Ok(back)
}

/// The edges of which a rank owns the head, turned.
pub fn turned_on(alloc: Global, rank: u16, edges: &[Edge]) -> Result<Vec<Edge>, NoMemory>
    ensures { IfOk result (λ v. v.items ≡ of_rank rank (map (λ e. turned e) edges.now)) }
{
    let back = turned(alloc, edges)?;
    let own = based_on(alloc, rank, back.as_slice())?;
    Ok(own)
}

/// Adds edges to others.
fn push_all(edges: &[Edge], out: &mut Vec<Edge>) -> Result<(), NoMemory>
    ensures { OnOk result (out.new.items ≡ out.old.items ++ edges.now) }
{
    for e in edges {
        out.push(*e)?;
    }
    Ok(())
}

/// The edges that a rank found and those of the letters that it holds.
pub fn gathered(
    alloc: Global,
    found: &[Edge],
    held: &[Held<Listed<Edge>>],
) -> Result<Vec<Edge>, NoMemory>
    ensures { IfOk result (λ v. v.items ≡ found.now ++ flat_map (λ letter. letter.body) held.now) }
{
    let mut all = Vec::new(alloc);
    push_all(found, &mut all)?;
    for letter in held {
        push_all(letter.body.as_slice(), &mut all)?;
    }
    Ok(all)
}

/// Adds the owners of the heads of edges, but for one rank.
fn push_owners(rank: u16, edges: &[Edge], owners: &mut Vec<u16>) -> Result<(), NoMemory>
    ensures { OnOk result (owners.new.items ≡ owners.old.items ++ filter (λ r. not (nat_eq r rank)) (map (λ e. e.head.owner) edges.now)) }
{
    for e in edges {
        if e.head.owner != rank {
            owners.push(e.head.owner)?;
        }
    }
    Ok(())
}

/// The other ranks that own a head of edges of two lists, ascending, each once.
#[tactic(auto, unfolding(crate::specs::BridgeRow::other_owners))]
pub fn other_owners(
    alloc: Global,
    rank: u16,
    first: &[Edge],
    second: &[Edge],
) -> Result<Vec<u16>, NoMemory>
    ensures { IfOk result (λ v. v.items ≡ other_owners rank (first.now ++ second.now)) }
{
    let mut owners = Vec::new(alloc);
    push_owners(rank, first, &mut owners)?;
    push_owners(rank, second, &mut owners)?;
    owners.sort_unstable();
    owners.dedup();
    Ok(owners)
}
