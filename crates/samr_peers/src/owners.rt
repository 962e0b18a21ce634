//! The other ranks that own a head of some edges.

ghost use Rattle.std.specs.Prelude.{◌≡◌, ◌++◌, nat_eq, not, IfOk, OnOk, map, filter};
ghost use Rattle.samr_peers.specs.Peers.{other_owners};

use samr_level::Edge;
use std::alloc::{AllocError as NoMemory, Global};

/// Adds the owners of the heads of edges, but for one rank.
fn push_owners(rank: u16, edges: &[Edge], owners: &mut Vec<u16>) -> Result<(), NoMemory>
    ensures { OnOk result (owners.new.items ≡ owners.old.items ++ filter (λ r. not (nat_eq r rank)) (map (λ e. e.head.owner) edges.now)) }
{
    for e in edges {
        if e.head.owner != rank {
            owners.push(e.head.owner)?;
        }
    }
    Ok(())
}

/// The other ranks that own the head of an edge, ascending, each once.
///
/// # Errors
///
/// Where memory is short.
pub fn other_owners(alloc: Global, rank: u16, edges: &[Edge]) -> Result<Vec<u16>, NoMemory>
    ensures { IfOk result (λ v. v.items ≡ other_owners rank edges.now) }
{
    let mut owners = Vec::new(alloc);
    push_owners(rank, edges, &mut owners)?;
    owners.sort_unstable();
    owners.dedup();
    Ok(owners)
}
