//! The clusters of a level's tags, with their owners.

ghost use Rattle.std.specs.Prelude.{◌≡◌, ◌++◌, IfOk, OnOk, map};
ghost use Rattle.std.specs.List.{All};
ghost use Rattle.samr_rounds.specs.Clusters.{clusters_in, clusters};
ghost use Rattle.samr_rounds.specs.Laws.{IsNode};
ghost use Rattle.samr_rounds.specs.Owners.{owner_of};
ghost use Rattle.samr_sign.specs.Fields.{tagged};
ghost use Rattle.samr_mesh.specs.Passes.{rule_of, clusters_of};
ghost use Rattle.samr_mesh_plain.specs.Making.{CanMake};

use crate::domains::accepted;
use crate::owners::owner_of;
use crate::pass::Pass;
use crate::rooting::roots;
use crate::tagged::tags_in;
use samr_box::IBox;
use samr_level::{BoxRef, in_level_order};
use samr_problem::Problem;
use samr_rounds::clusters_of as clusters_in;
use samr_sign::{CutRule, TagField};
use std::alloc::{AllocError as NoMemory, Global};

/// When a box is worth its cells.
fn rule_of(problem: &Problem) -> CutRule
    ensures { result ≡ rule_of problem.now }
{
    accepted(problem);
    CutRule {
        efficiency: problem.efficiency,
        smallest: problem.smallest,
    }
}

/// Adds the clusters of a root.
fn push_clusters(
    alloc: Global,
    root: IBox,
    tags: &TagField,
    rule: &CutRule,
    out: &mut Vec<IBox>,
) -> Result<(), NoMemory>
    requires { IsNode root }
    ensures { OnOk result (out.new.items ≡ out.old.items ++ clusters_in (tagged tags.now) rule.now root) }
{
    let found = clusters_in(alloc, root, std::slice::from_ref(tags), rule)?;
    out.extend_from_slice(found.as_slice())?;
    Ok(())
}

/// The clusters of all roots.
#[tactic(auto, unfolding(samr_rounds::specs::Clusters::clusters))]
fn clusters(
    alloc: Global,
    roots: &[IBox],
    tags: &TagField,
    rule: &CutRule,
) -> Result<Vec<IBox>, NoMemory>
    requires { All IsNode roots.now }
    ensures { IfOk result (λ v. v.items ≡ clusters (tagged tags.now) rule.now roots.now) }
{
    let mut all = Vec::new(alloc);
    for root in roots {
        push_clusters(alloc, *root, tags, rule, &mut all)?;
    }
    Ok(all)
}

/// The clusters with their owners, which are counted in the boxes of the level.
fn with_owners(
    alloc: Global,
    clusters: &[IBox],
    tags: &TagField,
    level: &[BoxRef],
    ranks: u16,
) -> Result<Vec<BoxRef>, NoMemory>
    ensures { IfOk result (λ v. v.items ≡ map (λ b. record { owner = owner_of (tagged tags.now) level.now ranks b; bx = b }) clusters.now) }
{
    let mut owned = Vec::new(alloc);
    for bx in clusters {
        let owner = owner_of(alloc, tags, level, ranks, *bx)?;
        owned.push(BoxRef { owner, bx: *bx })?;
    }
    Ok(owned)
}

/// The clusters of the tags of a level, in level order.
#[tactic(auto, unfolding(samr_mesh::specs::Passes::clusters_of))]
pub(crate) fn clusters_of(
    alloc: Global,
    problem: &Problem,
    w: &Pass,
) -> Result<Vec<BoxRef>, NoMemory>
    requires { CanMake problem.now w.now }
    ensures { IfOk result (λ v. v.items ≡ clusters_of problem.now w.now) }
{
    accepted(problem);
    let tags = tags_in(alloc, problem, w)?;
    let roots = roots(alloc, problem, w.number)?;
    let boxes = clusters(alloc, roots.as_slice(), &tags, &rule_of(problem))?;
    let level = w.boxes();
    let owned = with_owners(alloc, boxes.as_slice(), &tags, level, w.ranks)?;
    Ok(in_level_order(owned))
}
