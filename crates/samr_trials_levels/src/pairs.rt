//! The overlaps of two levels on all ranks, by a look at every two boxes.

ghost use Rattle.std.specs.Prelude.{◌≡◌, ◌⊎◌, pos, [], IsTrue, IfOk, map};
ghost use Rattle.std.specs.List.{range_with_len};
ghost use Rattle.samr_box.specs.Vector.{alike, InRange, greatest, IsRatio};
ghost use Rattle.samr_box.specs.Space.{IsSpace, finer};
ghost use Rattle.samr_level.specs.Overlaps.{of_rank, scale, true_overlaps};
ghost use Rattle.samr_level.specs.Pairs.{pair};
ghost use Rattle.samr_trials_levels.specs.Cover.{CanCompare};

use samr_box::{Domain, IVec, Listed, Ratio};
use samr_level::{BoxRef, Connector, Edge, Pair, true_overlaps_of};
use std::alloc::{AllocError as NoMemory, Global};

/// The ratio of level 0 to itself.
const SAME: Ratio = Ratio { k: 1, j: 1, i: 1 };

const ONES: IVec = IVec { k: 1, j: 1, i: 1 };

const LONGEST: IVec = IVec {
    k: 1_073_741_824,
    j: 1_073_741_824,
    i: 1_073_741_824,
};

/// The ratio of level 0 to itself.
pub fn same_ratio() -> Ratio
    ensures { result ≡ alike (pos 1) }
{
    SAME
}

/// Whether the finer of two index spaces is one.
fn has_frame(d: &Domain, a: Ratio, b: Ratio) -> bool
    ensures { IsTrue result → IsSpace (finer d.now (greatest a b)) }
{
    let size = d.size.times(a.factors().greatest(b.factors()));
    if !ONES.at_most(size) {
        return false;
    }
    size.at_most(LONGEST)
}

/// Whether levels with these ratios can be compared.
pub fn can_compare(d: &Domain, base: Ratio, head: Ratio) -> bool
    ensures { IsTrue result → CanCompare d.now base head }
{
    if !has_frame(d, base, head) {
        return false;
    }
    has_frame(d, head, base)
}

fn ratio_of(factors: IVec) -> Ratio
    requires { IsRatio factors }
    ensures { result ≡ factors }
{
    Ratio {
        k: factors.k,
        j: factors.j,
        i: factors.i,
    }
}

fn finer_frame(d: &Domain, a: Ratio, b: Ratio) -> Domain
    requires { IsSpace (finer d.now (greatest a b)) }
    ensures { result ≡ finer d.now (greatest a b) }
{
    let finest = a.factors().greatest(b.factors());
    d.finer(ratio_of(finest))
}

/// The edges of which a rank owns the base.
#[tactic(auto, unfolding(samr_level::specs::Overlaps::of_rank))]
fn based_on(alloc: Global, rank: u16, edges: &[Edge]) -> Result<Vec<Edge>, NoMemory>
    ensures { IfOk result (λ v. v.items ≡ of_rank rank edges.now) }
{
    let mut kept = Vec::new(alloc);
    for e in edges {
        if e.base.owner == rank {
            kept.push(*e)?;
        }
    }
    Ok(kept)
}

/// A rank's part of the overlaps of two levels.
fn part_of(
    alloc: Global,
    rank: u16,
    width: IVec,
    base_ratio: Ratio,
    head_ratio: Ratio,
    all: &[Edge],
) -> Result<Connector, NoMemory>
    ensures { IfOk result (λ c. c ≡ record { width = width; base_ratio = base_ratio; head_ratio = head_ratio; edges = of_rank rank all.now }) }
{
    let edges = based_on(alloc, rank, all)?;
    Ok(Connector {
        width,
        base_ratio,
        head_ratio,
        edges: Listed::from_vec(edges),
    })
}

/// All overlaps of two levels, by a look at every two boxes.
fn overlaps_of(
    alloc: Global,
    d: &Domain,
    width: IVec,
    base_ratio: Ratio,
    base: &[BoxRef],
    head_ratio: Ratio,
    head: &[BoxRef],
) -> Result<Vec<Edge>, NoMemory>
    requires width { InRange width }
    requires frame { IsSpace (finer d.now (greatest base_ratio head_ratio)) }
    ensures { IfOk result (λ v. v.items ≡ true_overlaps (scale d.now width base_ratio head_ratio) base.now head.now) }
{
    let finest = finer_frame(d, base_ratio, head_ratio);
    let edges = true_overlaps_of(alloc, base, head, width, base_ratio, head_ratio, &finest)?;
    Ok(edges)
}

/// The pairs of two levels on all ranks.
///
/// # Errors
///
/// Where memory is short.
pub fn pairs_of(
    alloc: Global,
    ranks: u16,
    d: &Domain,
    width: IVec,
    base_ratio: Ratio,
    base: &[BoxRef],
    head_ratio: Ratio,
    head: &[BoxRef],
) -> Result<Vec<Pair>, NoMemory>
    requires width { InRange width }
    requires frames { CanCompare d.now base_ratio head_ratio }
    ensures { IfOk result (λ v. v.items ≡ map (λ rank. pair d.now width base_ratio head_ratio base.now head.now rank) (range_with_len 0 ranks)) }
{
    let forth = overlaps_of(alloc, d, width, base_ratio, base, head_ratio, head)?;
    let back = overlaps_of(alloc, d, width, head_ratio, head, base_ratio, base)?;
    let mut pairs = Vec::new(alloc);
    'each: for rank in 0..ranks {
        let there = part_of(alloc, rank, width, base_ratio, head_ratio, forth.as_slice())?;
        let here = part_of(alloc, rank, width, head_ratio, base_ratio, back.as_slice())?;
        pairs.push(Pair {
            forth: there,
            back: here,
        })?;
    }
    Ok(pairs)
}

/// The same, and none where the other level has no boxes.
///
/// # Errors
///
/// Where memory is short.
pub fn pairs_if_any(
    alloc: Global,
    ranks: u16,
    d: &Domain,
    width: IVec,
    base_ratio: Ratio,
    base: &[BoxRef],
    head_ratio: Ratio,
    head: &[BoxRef],
) -> Result<Vec<Pair>, NoMemory>
    requires width { InRange width }
    requires frames { CanCompare d.now base_ratio head_ratio }
    ensures { IfOk result (λ v. (v.items ≡ map (λ rank. pair d.now width base_ratio head_ratio base.now head.now rank) (range_with_len 0 ranks)) ⊎ ((v.items ≡ []) × (head.now ≡ []))) }
{
    if head.is_empty() {
        return Ok(Vec::new(alloc));
    }
    let pairs = pairs_of(alloc, ranks, d, width, base_ratio, base, head_ratio, head)?;
    Ok(pairs)
}
