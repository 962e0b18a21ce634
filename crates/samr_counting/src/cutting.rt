//! The nest cuts of a rank's own clusters.

ghost use Rattle.std.specs.Prelude.{◌≡◌, ℕ, ◌++◌, filter, map, unsigned_abs, IfOk, OnOk};
ghost use Rattle.std.specs.List.{flat_map};
ghost use Rattle.std.specs.Ordering.{is_eq};
ghost use Rattle.samr_box.specs.Lists.{Member};
ghost use Rattle.samr_level.specs.Levels.{own};
ghost use Rattle.samr_level.specs.RefOrders.{ref_cmp};
ghost use Rattle.samr_modify.specs.Entries.{edges_of, moves_of};
ghost use Rattle.samr_modify.specs.Found.{if_leaves};
ghost use Rattle.samr_nest.specs.Nested.{cut_of};
ghost use Rattle.samr_problem.specs.Fields.{Fields};
ghost use Rattle.samr_mesh.specs.Passes.{Pass, clusters_of, cuts_of};
ghost use Rattle.samr_counting.specs.Cutting.{IsCutting};

use crate::clusters::own_clusters;
use samr_box::IVec;
use samr_level::{BoxRef, Edge, Move, Region};
use samr_nest::cut;
use std::alloc::{AllocError as NoMemory, Global};

/// How the clusters of a level are cut.
#[derive(Drop)]
pub struct Knife {
    pub region: Region,
    pub nest: IVec,
    pub largest: i64,
}

/// What the nest cut leaves of each cluster of a rank, in level order, from the edges of its clusters
/// to the level.
pub fn own_cuts(alloc: Global, edges: &[Edge], knife: &Knife) -> Result<Vec<Move>, NoMemory>
    requires { (p : Fields) × (w : Pass) × (r : ℕ) × IsCutting edges.now knife.now.region knife.now.nest knife.now.largest p w r }
    ensures { IfOk result (λ v. (p : Fields) (w : Pass) (r : ℕ) → IsCutting edges.now knife.now.region knife.now.nest knife.now.largest p w r
        → v.items ≡ moves_of r (cuts_of p w)) }
{
    let clusters = own_clusters(alloc, edges)?;
    let cuts = all_cuts(alloc, clusters.as_slice(), edges, knife)?;
    Ok(cuts)
}

fn all_cuts(
    alloc: Global,
    clusters: &[BoxRef],
    edges: &[Edge],
    knife: &Knife,
) -> Result<Vec<Move>, NoMemory>
    requires { (p : Fields) × (w : Pass) × (r : ℕ) × IsCutting edges.now knife.now.region knife.now.nest knife.now.largest p w r
        × (clusters.now ≡ own r (clusters_of p w)) }
    ensures { IfOk result (λ v. (p : Fields) (w : Pass) (r : ℕ) → IsCutting edges.now knife.now.region knife.now.nest knife.now.largest p w r
        → clusters.now ≡ own r (clusters_of p w) → v.items ≡ map (cut_of knife.now.region w.level knife.now.nest (unsigned_abs knife.now.largest)) clusters.now) }
{
    let mut cuts = Vec::new(alloc);
    for cluster in clusters {
        cuts.push(cut_one(alloc, *cluster, edges, knife)?)?;
    }
    Ok(cuts)
}

fn cut_one(alloc: Global, cluster: BoxRef, edges: &[Edge], knife: &Knife) -> Result<Move, NoMemory>
    requires { (p : Fields) × (w : Pass) × (r : ℕ) × IsCutting edges.now knife.now.region knife.now.nest knife.now.largest p w r
        × Member cluster (own r (clusters_of p w)) }
    ensures { IfOk result (λ m. (p : Fields) (w : Pass) (r : ℕ) → IsCutting edges.now knife.now.region knife.now.nest knife.now.largest p w r
        → Member cluster (own r (clusters_of p w)) → m ≡ cut_of knife.now.region w.level knife.now.nest (unsigned_abs knife.now.largest) cluster) }
{
    let near = leaving(alloc, cluster, edges)?;
    let left = cut(
        alloc,
        cluster,
        near.as_slice(),
        knife.nest,
        &knife.region,
        knife.largest,
    )?;
    Ok(left)
}

/// The edges that leave a box.
fn leaving(alloc: Global, b: BoxRef, edges: &[Edge]) -> Result<Vec<Edge>, NoMemory>
    ensures { IfOk result (λ v. v.items ≡ edges_of b edges.now) }
{
    let mut near = Vec::new(alloc);
    for e in edges {
        push_leaving(*e, b, &mut near)?;
    }
    Ok(near)
}

/// Adds an edge, if it leaves a box.
fn push_leaving(e: Edge, b: BoxRef, out: &mut Vec<Edge>) -> Result<(), NoMemory>
    ensures { OnOk result (out.new.items ≡ out.old.items ++ if_leaves b e) }
{
    if leaves(e, b) {
        out.push(e)?;
    }
    Ok(())
}

fn leaves(e: Edge, b: BoxRef) -> bool
    ensures { result ≡ is_eq (ref_cmp e.base b) }
{
    e.base == b
}
