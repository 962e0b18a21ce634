//! What one rank has of a level: its boxes, its connectors, and what becomes of boxes.

ghost use Rattle.std.specs.Prelude.{◌≡◌, ◌++◌, IfOk, OnOk, map, filter, not, nat_eq};
ghost use Rattle.samr_level.specs.Pairs.{peers};

use crate::{BoxRef, Edge};
use samr_box::{IBox, IVec, Listed, Ratio};
use std::alloc::{AllocError as NoMemory, Global};

/// The boxes of a level that one rank owns, in corner order.
#[derive(Debug, Drop)]
pub struct Part {
    pub rank: u16,
    pub boxes: Listed<IBox>,
}

/// The edges from the boxes of one rank in a base level to those of a head level, in edge order,
/// at a width in cells of the coarser of the two. Ratios are those from level 0.
#[derive(Debug, Drop)]
pub struct Connector {
    pub width: IVec,
    pub base_ratio: Ratio,
    pub head_ratio: Ratio,
    pub edges: Listed<Edge>,
}

/// The connector of a rank's own boxes of one level to another level, and the connector back of
/// its own boxes of the other level.
#[derive(Debug, Drop)]
pub struct Pair {
    pub forth: Connector,
    pub back: Connector,
}

/// A box of an old level, and the boxes that take its place.
#[derive(Debug, Drop)]
pub struct Move {
    pub old: BoxRef,
    pub news: Listed<BoxRef>,
}

/// What becomes of the boxes of an old level.
#[derive(Debug, Drop)]
pub struct Mapping {
    pub entries: Listed<Move>,
}

/// The other ranks that own a head of a pair's connectors, ascending, each once. `rank` is the one
/// whose pair it is.
pub fn peers(alloc: Global, p: &Pair, rank: u16) -> Result<Vec<u16>, NoMemory>
    ensures { IfOk result (λ v. v.items ≡ peers p.now rank) }
{
    let mut owners = Vec::new(alloc);
    push_owners(p.forth.edges.as_slice(), rank, &mut owners)?;
    push_owners(p.back.edges.as_slice(), rank, &mut owners)?;
    owners.sort_unstable();
    owners.dedup();
    Ok(owners)
}

/// Adds the owners of the heads of some edges, but for one rank.
fn push_owners(edges: &[Edge], rank: u16, owners: &mut Vec<u16>) -> Result<(), NoMemory>
    ensures { OnOk result (owners.new.items ≡ owners.old.items ++ filter (λ r. not (nat_eq r rank)) (map (λ e. e.head.owner) edges.now)) }
{
    for e in edges {
        if e.head.owner != rank {
            owners.push(e.head.owner)?;
        }
    }
    Ok(())
}
