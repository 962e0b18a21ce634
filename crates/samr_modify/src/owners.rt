//! The ranks that a rank tells, and those that tell it.

ghost use Rattle.std.specs.Prelude.{◌≡◌, ◌++◌, IfOk, OnOk, map, filter, not, nat_eq};
ghost use Rattle.std.specs.List.{flat_map};
ghost use Rattle.samr_modify.specs.ModifyRow.{head_owners, owners, others};

use crate::entries::NewBox;
use samr_level::{BoxRef, Edge, Move};
use std::alloc::{AllocError as NoMemory, Global};

/// Adds the owners of the heads of edges.
fn push_heads(edges: &[Edge], out: &mut Vec<u16>) -> Result<(), NoMemory>
    ensures { OnOk result (out.new.items ≡ out.old.items ++ head_owners edges.now) }
{
    for e in edges {
        out.push(e.head.owner)?;
    }
    Ok(())
}

/// Adds the owners of boxes.
fn push_owners(boxes: &[BoxRef], out: &mut Vec<u16>) -> Result<(), NoMemory>
    ensures { OnOk result (out.new.items ≡ out.old.items ++ owners boxes.now) }
{
    for b in boxes {
        out.push(b.owner)?;
    }
    Ok(())
}

/// Adds the owners of new boxes.
fn push_news(moves: &[Move], out: &mut Vec<u16>) -> Result<(), NoMemory>
    ensures { OnOk result (out.new.items ≡ out.old.items ++ flat_map (λ m. owners m.news) moves.now) }
{
    for m in moves {
        push_owners(m.news.as_slice(), out)?;
    }
    Ok(())
}

/// Adds the owners of the old boxes of new boxes.
fn push_olds(news: &[NewBox], out: &mut Vec<u16>) -> Result<(), NoMemory>
    ensures { OnOk result (out.new.items ≡ out.old.items ++ map (λ p. p.old_owner) news.now) }
{
    for p in news {
        out.push(p.old_owner)?;
    }
    Ok(())
}

/// The ranks but for one.
fn without(alloc: Global, rank: u16, ranks: &[u16]) -> Result<Vec<u16>, NoMemory>
    ensures { IfOk result (λ v. v.items ≡ filter (λ r. not (nat_eq r rank)) ranks.now) }
{
    let mut kept = Vec::new(alloc);
    for r in ranks {
        if *r != rank {
            kept.push(*r)?;
        }
    }
    Ok(kept)
}

/// The ranks but for one, ascending, each once.
fn others(alloc: Global, rank: u16, ranks: &[u16]) -> Result<Vec<u16>, NoMemory>
    ensures { IfOk result (λ v. v.items ≡ others rank ranks.now) }
{
    let mut kept = without(alloc, rank, ranks)?;
    kept.sort_unstable();
    kept.dedup();
    Ok(kept)
}

/// The other ranks that own a head of edges of old boxes or a new box.
pub fn addressees(
    alloc: Global,
    rank: u16,
    edges: &[Edge],
    moves: &[Move],
) -> Result<Vec<u16>, NoMemory>
    ensures { IfOk result (λ v. v.items ≡ others rank (head_owners edges.now ++ flat_map (λ m. owners m.news) moves.now)) }
{
    let mut ranks = Vec::new(alloc);
    push_heads(edges, &mut ranks)?;
    push_news(moves, &mut ranks)?;
    let others = others(alloc, rank, ranks.as_slice())?;
    Ok(others)
}

/// The other ranks that own a head of edges of anchors or the old box of a new box.
pub fn senders(
    alloc: Global,
    rank: u16,
    edges: &[Edge],
    news: &[NewBox],
) -> Result<Vec<u16>, NoMemory>
    ensures { IfOk result (λ v. v.items ≡ others rank (head_owners edges.now ++ map (λ p. p.old_owner) news.now)) }
{
    let mut ranks = Vec::new(alloc);
    push_heads(edges, &mut ranks)?;
    push_olds(news, &mut ranks)?;
    let others = others(alloc, rank, ranks.as_slice())?;
    Ok(others)
}
