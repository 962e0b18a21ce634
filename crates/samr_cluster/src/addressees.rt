//! The ranks that a rank has to do with, ascending, each once.

ghost use Rattle.std.specs.Prelude.{◌≡◌, ◌++◌, [], if◌then◌else◌, nat_eq, not, IfOk, OnOk, map, filter};
ghost use Rattle.std.specs.List.{flat_map};
ghost use Rattle.std.specs.Ordering.{nat_cmp};
ghost use Rattle.samr_level.specs.RefOrders.{in_order};
ghost use Rattle.samr_cluster.specs.DecideParts.{other_directors, others_near};
ghost use Rattle.samr_cluster.specs.ReportParts.{others_asked};

use crate::accepted::Accepted;
use crate::nodes::{Directed, Told};
use crate::verdict::Judged;
use std::alloc::{AllocError as NoMemory, Global};

/// Ranks in ascending order, each once.
fn each_once(mut ranks: Vec<u16>) -> Vec<u16>
    ensures { result.items ≡ in_order nat_cmp ranks.items }
{
    ranks.sort_unstable();
    ranks.dedup();
    ranks
}

/// Adds ranks, but for one.
fn push_others(rank: u16, ranks: &[u16], others: &mut Vec<u16>) -> Result<(), NoMemory>
    ensures { OnOk result (others.new.items ≡ others.old.items ++ filter (λ r. not (nat_eq r rank)) ranks.now) }
{
    for r in ranks {
        if *r != rank {
            others.push(*r)?;
        }
    }
    Ok(())
}

/// Adds the other ranks near an accepted box's node, if the rank owns the box.
fn push_near(rank: u16, a: &Accepted, others: &mut Vec<u16>) -> Result<(), NoMemory>
    ensures { OnOk result (others.new.items ≡ others.old.items ++ (if nat_eq a.now.owner rank then filter (λ r. not (nat_eq r rank)) a.now.near else [])) }
{
    if a.owner == rank {
        push_others(rank, a.near.as_slice(), others)?;
    }
    Ok(())
}

/// The other owners of accepted boxes, ascending, each once.
pub fn owners_of(alloc: Global, rank: u16, accepted: &[Accepted]) -> Result<Vec<u16>, NoMemory>
    ensures { IfOk result (λ v. v.items ≡ in_order nat_cmp (filter (λ r. not (nat_eq r rank)) (map (λ a. a.owner) accepted.now))) }
{
    let mut owners = Vec::new(alloc);
    for a in accepted {
        if a.owner != rank {
            owners.push(a.owner)?;
        }
    }
    Ok(each_once(owners))
}

/// The other ranks near the nodes of those accepted boxes that a rank owns, ascending, each once.
pub fn near_of(alloc: Global, rank: u16, accepted: &[Accepted]) -> Result<Vec<u16>, NoMemory>
    ensures { IfOk result (λ v. v.items ≡ in_order nat_cmp (flat_map (λ a. if nat_eq a.owner rank then filter (λ r. not (nat_eq r rank)) a.near else []) accepted.now)) }
{
    let mut near = Vec::new(alloc);
    for a in accepted {
        push_near(rank, a, &mut near)?;
    }
    Ok(each_once(near))
}

/// The other directors of some nodes, ascending, each once.
#[tactic(auto, unfolding(crate::specs::DecideParts::other_directors))]
pub fn other_directors(alloc: Global, rank: u16, told: &[Told]) -> Result<Vec<u16>, NoMemory>
    ensures { IfOk result (λ v. v.items ≡ other_directors rank told.now) }
{
    let mut directors = Vec::new(alloc);
    for t in told {
        if t.director != rank {
            directors.push(t.director)?;
        }
    }
    Ok(each_once(directors))
}

/// The other ranks near nodes that were judged, ascending, each once.
#[tactic(auto, unfolding(crate::specs::DecideParts::others_near))]
pub fn others_near(alloc: Global, rank: u16, judged: &[Judged]) -> Result<Vec<u16>, NoMemory>
    ensures { IfOk result (λ v. v.items ≡ others_near rank judged.now) }
{
    let mut near = Vec::new(alloc);
    for j in judged {
        push_others(rank, j.near.as_slice(), &mut near)?;
    }
    Ok(each_once(near))
}

/// The other ranks that were told directed nodes, ascending, each once.
#[tactic(auto, unfolding(crate::specs::ReportParts::others_asked))]
pub fn others_asked(alloc: Global, rank: u16, directed: &[Directed]) -> Result<Vec<u16>, NoMemory>
    ensures { IfOk result (λ v. v.items ≡ others_asked rank directed.now) }
{
    let mut asked = Vec::new(alloc);
    for p in directed {
        push_others(rank, p.asked.as_slice(), &mut asked)?;
    }
    Ok(each_once(asked))
}
