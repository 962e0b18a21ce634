//! What a rank tells another of its old boxes.

ghost use Rattle.std.specs.Prelude.{◌≡◌, ◌++◌, IfOk, OnOk, [], ◌∷◌, map, filter, cond};
ghost use Rattle.std.specs.List.{flat_map};
ghost use Rattle.samr_stage.specs.declared.stage.Held.{Held};
ghost use Rattle.samr_modify.specs.Entries.{owns_one, owns_head, concerns, shown, told_to};

use crate::entries::Replaced;
use samr_box::Listed;
use samr_level::{BoxRef, Edge};
use samr_stage::Held;
use std::alloc::{AllocError as NoMemory, Global};

/// Whether a rank owns one of some boxes.
pub fn owns_one(rank: u16, boxes: &[BoxRef]) -> bool
    ensures { result ≡ owns_one rank boxes.now }
{
    boxes.iter().any(|b| b.owner == rank)
}

/// Whether a rank owns the head of one of some edges.
fn owns_head(rank: u16, edges: &[Edge]) -> bool
    ensures { result ≡ owns_head rank edges.now }
{
    edges.iter().any(|e| e.head.owner == rank)
}

/// Whether an old box has to do with a rank.
fn concerns(rank: u16, r: &Replaced) -> bool
    ensures { result ≡ concerns rank r.now }
{
    if owns_head(rank, r.edges.as_slice()) {
        return true;
    }
    owns_one(rank, r.news.as_slice())
}

/// The edges of an old box, if the rank owns one of its new boxes.
fn shown_edges(alloc: Global, rank: u16, r: &Replaced) -> Result<Listed<Edge>, NoMemory>
    ensures { IfOk result (λ edges. edges ≡ cond (owns_one rank r.now.news) r.now.edges []) }
{
    if owns_one(rank, r.news.as_slice()) {
        let edges = r.edges.copied(alloc)?;
        return Ok(edges);
    }
    Ok(Listed::new(alloc))
}

/// What a rank is told of an old box.
fn shown(alloc: Global, rank: u16, r: &Replaced) -> Result<Replaced, NoMemory>
    ensures { IfOk result (λ s. s ≡ shown rank r.now) }
{
    Ok(Replaced {
        old: r.old,
        news: r.news.copied(alloc)?,
        edges: shown_edges(alloc, rank, r)?,
    })
}

/// Adds what a rank is told of an old box, if this has to do with it.
fn push_shown(
    alloc: Global,
    rank: u16,
    r: &Replaced,
    out: &mut Vec<Replaced>,
) -> Result<(), NoMemory>
    ensures { OnOk result (out.new.items ≡ out.old.items ++ cond (concerns rank r.now) (shown rank r.now ∷ []) []) }
{
    if concerns(rank, r) {
        out.push(shown(alloc, rank, r)?)?;
    }
    Ok(())
}

/// What a rank is told of some old boxes.
pub fn told_to(alloc: Global, rank: u16, known: &[Replaced]) -> Result<Listed<Replaced>, NoMemory>
    ensures { IfOk result (λ body. body ≡ told_to rank known.now) }
{
    let mut out = Vec::new(alloc);
    for r in known {
        push_shown(alloc, rank, r, &mut out)?;
    }
    Ok(Listed::from_vec(out))
}

/// What a rank knows of its own old boxes and what it was told of others.
pub fn gathered(
    mut known: Vec<Replaced>,
    held: Vec<Held<Listed<Replaced>>>,
) -> Result<Vec<Replaced>, NoMemory>
    ensures { IfOk result (λ v. v.items ≡ known.items ++ flat_map (λ letter. letter.body) held.items) }
{
    for letter in held {
        let mut body = letter.body.into_vec();
        known.append(&mut body)?;
    }
    Ok(known)
}
