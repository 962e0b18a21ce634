//! The nest cut of one cluster.

ghost use Rattle.std.specs.Prelude.{◌≡◌, ◌↔◌, ◌≤ℤ◌, pos, unsigned_abs, IsTrue, IfOk, List, map};
ghost use Rattle.std.specs.List.{All};
ghost use Rattle.samr_box.specs.declared.vector.IVec.{IVec};
ghost use Rattle.samr_box.specs.Corners.{IsBox, holds_box, grown};
ghost use Rattle.samr_box.specs.Space.{whole};
ghost use Rattle.samr_boxlist.specs.Covers.{IsDisjoint};
ghost use Rattle.samr_level.specs.Refs.{Owned};
ghost use Rattle.samr_level.specs.Levels.{IsCellIn};
ghost use Rattle.samr_level.specs.Neighbours.{IsWidth};
ghost use Rattle.samr_nest.specs.Nested.{owned, cut_of, AreEdgesTo, Stays, IsPlain, IsPieceOf};

use crate::remains::left;
use samr_box::{IBox, IVec, Listed};
use samr_boxlist::chopped;
use samr_level::{BoxRef, Edge, Move, Region};
use std::alloc::{AllocError as NoMemory, Global};

/// The nest cut of a cluster: the cluster and, in its place, pieces of it with its owner. The pieces
/// have exactly the cells of the cluster that lie in the domain and whose cells within the nest width
/// lie outside of the domain or, wrapped, in the level; each piece has at most `largest` planes on
/// each axis.
///
/// `near` are the cluster's edges to the level, in edge order, at a width of at least `nest`; cluster
/// and level are of the same index space, of which `region` is the domain. The cluster lies in the
/// region's frame, and `nest` is at most the frame's length on each axis.
///
/// # Errors
///
/// Want of memory.
pub fn cut(
    alloc: Global,
    cluster: BoxRef,
    near: &[Edge],
    nest: IVec,
    region: &Region,
    largest: i64,
) -> Result<Move, NoMemory>
    requires home { IsTrue (holds_box (whole region.now.frame) cluster.bx) }
    requires nest { IsWidth region.now.frame nest }
    requires range { IsBox (grown cluster.bx nest) }
    requires largest { pos 1 ≤ℤ largest }

    // The list is that of the whole level, though the call sees the cluster's edges alone.
    ensures value { IfOk result (λ m. (level : List Owned) → AreEdgesTo region.now level nest cluster near.now → m ≡ cut_of region.now level nest (unsigned_abs largest) cluster) }
    ensures cells { IfOk result (λ m. (level : List Owned) → AreEdgesTo region.now level nest cluster near.now → IsPlain region.now → (x : IVec) → IsCellIn m.news x ↔ Stays region.now level nest cluster.bx x) }

    ensures once { IfOk result (λ m. IsDisjoint (map (λ b. b.bx) m.news)) }
    ensures pieces { IfOk result (λ m. All (IsPieceOf cluster (unsigned_abs largest)) m.news) }
{
    let rest = left(alloc, cluster.bx, near, nest, region)?;
    let pieces = chopped(alloc, rest.as_slice(), largest)?;
    let news = owned(alloc, cluster.owner, pieces.as_slice())?;
    Ok(Move {
        old: cluster,
        news: Listed::from_vec(news),
    })
}

/// The boxes with an owner.
fn owned(alloc: Global, owner: u16, boxes: &[IBox]) -> Result<Vec<BoxRef>, NoMemory>
    ensures { IfOk result (λ v. v.items ≡ owned owner boxes.now) }
{
    boxes
        .iter()
        .map(|b| BoxRef { owner, bx: *b })
        .collect(alloc)
}
