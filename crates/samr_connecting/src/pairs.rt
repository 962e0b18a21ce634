//! Overlaps seen from the other level, and in the index space of the new level.

ghost use Rattle.std.specs.Prelude.{◌≡◌, IfOk, map};
ghost use Rattle.std.specs.List.{All};
ghost use Rattle.samr_box.specs.Corners.{IsBox};
ghost use Rattle.samr_box.specs.Ratios.{refined};
ghost use Rattle.samr_box.specs.Vector.{IsRatio, times};
ghost use Rattle.samr_level.specs.Refined.{refined_box, base_refined, head_refined};
ghost use Rattle.samr_connecting.specs.Joining.{turned_pair, refined_pair};

use samr_box::{IVec, Listed, Ratio, refine};
use samr_level::{BoxRef, Connector, Edge, Pair};
use std::alloc::{AllocError as NoMemory, Global};

/// A connector of the same edges.
fn copied(alloc: Global, of: &Connector) -> Result<Connector, NoMemory>
    ensures { IfOk result (λ same. same ≡ of.now) }
{
    let edges = of.edges.copied(alloc)?;
    Ok(Connector {
        width: of.width,
        base_ratio: of.base_ratio,
        head_ratio: of.head_ratio,
        edges,
    })
}

/// The overlaps of two levels, seen from the other one.
pub(crate) fn turned(alloc: Global, of: &Pair) -> Result<Pair, NoMemory>
    ensures { IfOk result (λ pair. pair ≡ turned_pair of.now) }
{
    let forth = copied(alloc, &of.back)?;
    let back = copied(alloc, &of.forth)?;
    Ok(Pair { forth, back })
}

/// The ratio with these factors.
fn ratio_from(factors: IVec) -> Ratio
    requires { IsRatio factors }
    ensures { result ≡ factors }
{
    Ratio {
        k: factors.k,
        j: factors.j,
        i: factors.i,
    }
}

/// One ratio after another.
fn product(a: Ratio, b: Ratio) -> Ratio
    requires { IsRatio (times a b) }
    ensures { result ≡ times a b }
{
    ratio_from(a.factors().times(b.factors()))
}

/// A box refined, with its owner.
pub(crate) fn refined_box(b: BoxRef, step: Ratio) -> BoxRef
    requires { IsBox (refined b.bx step) }
    ensures { result ≡ refined_box step b }
{
    BoxRef {
        owner: b.owner,
        bx: refine(b.bx, step),
    }
}

/// An edge of which the base is refined.
fn base_refined(e: Edge, step: Ratio) -> Edge
    requires { IsBox (refined e.base.bx step) }
    ensures { result ≡ base_refined step e }
{
    Edge {
        base: refined_box(e.base, step),
        head: e.head,
        shift: e.shift,
    }
}

/// An edge of which the head is refined.
fn head_refined(e: Edge, step: Ratio) -> Edge
    requires { IsBox (refined e.head.bx step) }
    ensures { result ≡ head_refined step e }
{
    Edge {
        base: e.base,
        head: refined_box(e.head, step),
        shift: e.shift,
    }
}

/// Edges from pieces, as edges from boxes of the new level.
fn bases_refined(alloc: Global, edges: &[Edge], step: Ratio) -> Result<Vec<Edge>, NoMemory>
    requires { All (λ e. IsBox (refined e.base.bx step)) edges.now }
    ensures { IfOk result (λ v. v.items ≡ map (base_refined step) edges.now) }
{
    edges.iter().map(|e| base_refined(*e, step)).collect(alloc)
}

/// Edges to pieces, as edges to boxes of the new level.
fn heads_refined(alloc: Global, edges: &[Edge], step: Ratio) -> Result<Vec<Edge>, NoMemory>
    requires { All (λ e. IsBox (refined e.head.bx step)) edges.now }
    ensures { IfOk result (λ v. v.items ≡ map (head_refined step) edges.now) }
{
    edges.iter().map(|e| head_refined(*e, step)).collect(alloc)
}

/// The overlaps of the new level with the one below it, from those of that level with the pieces.
/// `step` is the ratio of the two levels.
#[tactic(auto, unfolding(crate::specs::Joining::refined_pair))]
pub(crate) fn refined(alloc: Global, of: &Pair, step: Ratio) -> Result<Pair, NoMemory>
    requires bases { All (λ e. IsBox (refined e.base.bx step)) of.now.back.edges }
    requires heads { All (λ e. IsBox (refined e.head.bx step)) of.now.forth.edges }
    requires base_ratio { IsRatio (times of.now.back.base_ratio step) }
    requires head_ratio { IsRatio (times of.now.forth.head_ratio step) }
    ensures { IfOk result (λ pair. pair ≡ refined_pair step of.now) }
{
    let base_ratio = product(of.back.base_ratio, step);
    let head_ratio = product(of.forth.head_ratio, step);
    let from_news = bases_refined(alloc, of.back.edges.as_slice(), step)?;
    let to_news = heads_refined(alloc, of.forth.edges.as_slice(), step)?;
    Ok(Pair {
        forth: Connector {
            width: of.back.width,
            base_ratio,
            head_ratio: of.back.head_ratio,
            edges: Listed::from_vec(from_news),
        },
        back: Connector {
            width: of.forth.width,
            base_ratio: of.forth.base_ratio,
            head_ratio,
            edges: Listed::from_vec(to_news),
        },
    })
}
