//! What the nest cut leaves of the clusters.

ghost use Rattle.std.specs.Prelude.{◌≡◌, ◌++◌, ◌∷◌, [], pos, unsigned_abs, IfOk, OnOk};
ghost use Rattle.std.specs.List.{All, flat_map};
ghost use Rattle.samr_box.specs.Vector.{alike, InRange};
ghost use Rattle.samr_box.specs.Lists.{Member};
ghost use Rattle.samr_level.specs.Overlaps.{scale_in, true_overlaps};
ghost use Rattle.samr_nest.specs.Nested.{cut_of};
ghost use Rattle.samr_mesh.specs.Domains.{area_at};
ghost use Rattle.samr_mesh.specs.Passes.{clusters_of, cut_level};
ghost use Rattle.samr_mesh_plain.specs.Making.{CanMake};

use crate::clusters::clusters_of;
use crate::domains::{SAME, accepted, region_at};
use crate::pass::Pass;
use samr_box::IVec;
use samr_level::{BoxRef, Edge, Move, Region, in_level_order, true_overlaps_of};
use samr_nest::cut;
use samr_problem::Problem;
use std::alloc::{AllocError as NoMemory, Global};

/// All edges of a box to a level of the same index space, at a width.
fn edges_of(
    alloc: Global,
    b: BoxRef,
    level: &[BoxRef],
    width: IVec,
    region: &Region,
) -> Result<Vec<Edge>, NoMemory>
    requires { InRange width }
    ensures { IfOk result (λ v. v.items ≡ true_overlaps (scale_in region.now.frame width (alike (pos 1)) (alike (pos 1))) (b ∷ []) level.now) }
{
    let edges = true_overlaps_of(
        alloc,
        [b].as_slice(),
        level,
        width,
        SAME,
        SAME,
        region.frame(),
    )?;
    Ok(edges)
}

/// The cut of a cluster of the level.
fn cut_of(
    alloc: Global,
    problem: &Problem,
    w: &Pass,
    region: &Region,
    cluster: BoxRef,
) -> Result<Move, NoMemory>
    requires can { CanMake problem.now w.now }
    requires region { region.now ≡ area_at problem.now w.now.number }
    requires cluster { Member cluster (clusters_of problem.now w.now) }
    ensures { IfOk result (λ m. m ≡ cut_of (area_at problem.now w.now.number) w.now.level problem.now.nest (unsigned_abs problem.now.largest) cluster) }
{
    accepted(problem);
    let near = edges_of(alloc, cluster, w.boxes(), problem.nest, region)?;
    let cut = cut(
        alloc,
        cluster,
        near.as_slice(),
        problem.nest,
        region,
        problem.largest,
    )?;
    Ok(cut)
}

/// Adds what the cut leaves of a cluster.
fn push_left(
    alloc: Global,
    problem: &Problem,
    w: &Pass,
    region: &Region,
    cluster: BoxRef,
    out: &mut Vec<BoxRef>,
) -> Result<(), NoMemory>
    requires can { CanMake problem.now w.now }
    requires region { region.now ≡ area_at problem.now w.now.number }
    requires cluster { Member cluster (clusters_of problem.now w.now) }
    ensures { OnOk result (out.new.items ≡ out.old.items ++ (cut_of (area_at problem.now w.now.number) w.now.level problem.now.nest (unsigned_abs problem.now.largest) cluster).news) }
{
    let cut = cut_of(alloc, problem, w, region, cluster)?;
    out.extend_from_slice(cut.news.as_slice())?;
    Ok(())
}

/// What the cut leaves of each cluster, one after another.
fn left_of(
    alloc: Global,
    problem: &Problem,
    w: &Pass,
    region: &Region,
    clusters: &[BoxRef],
) -> Result<Vec<BoxRef>, NoMemory>
    requires can { CanMake problem.now w.now }
    requires region { region.now ≡ area_at problem.now w.now.number }
    requires clusters { All (λ c. Member c (clusters_of problem.now w.now)) clusters.now }
    ensures { IfOk result (λ v. v.items ≡ flat_map (λ c. (cut_of (area_at problem.now w.now.number) w.now.level problem.now.nest (unsigned_abs problem.now.largest) c).news) clusters.now) }
{
    let mut left = Vec::new(alloc);
    for cluster in clusters {
        push_left(alloc, problem, w, region, *cluster, &mut left)?;
    }
    Ok(left)
}

/// What the cut leaves of all clusters, as a level.
#[tactic(auto, unfolding(samr_mesh::specs::Passes::cut_level, samr_mesh::specs::Passes::cuts_of))]
pub(crate) fn cut_level(alloc: Global, problem: &Problem, w: &Pass) -> Result<Vec<BoxRef>, NoMemory>
    requires { CanMake problem.now w.now }
    ensures { IfOk result (λ v. v.items ≡ cut_level problem.now w.now) }
{
    let clusters = clusters_of(alloc, problem, w)?;
    let region = region_at(alloc, problem, w.number)?;
    let left = left_of(alloc, problem, w, &region, clusters.as_slice())?;
    Ok(in_level_order(left))
}
