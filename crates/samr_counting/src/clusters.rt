//! The clusters of a rank, from their overlaps with the level.

ghost use Rattle.std.specs.Prelude.{◌≡◌, ℕ, map, IfOk};
ghost use Rattle.samr_level.specs.Levels.{own};
ghost use Rattle.samr_modify.specs.Modify.{old_pair};
ghost use Rattle.samr_problem.specs.Fields.{Fields};
ghost use Rattle.samr_mesh.specs.Passes.{Pass, clusters_of};
ghost use Rattle.samr_mesh.specs.Soundness.{CanRun};
ghost use Rattle.samr_wholes.specs.Wholes.{modifying};

use samr_level::{BoxRef, Edge, in_level_order};
use std::alloc::{AllocError as NoMemory, Global};

/// The clusters that a rank owns, in level order, from the edges of its clusters to the level: each
/// has one, since it has a tagged cell, which lies in the level.
pub fn own_clusters(alloc: Global, edges: &[Edge]) -> Result<Vec<BoxRef>, NoMemory>
    ensures { IfOk result (λ v. (p : Fields) (w : Pass) (r : ℕ) → CanRun p w → edges.now ≡ (old_pair (modifying p w) r).back.edges
        → v.items ≡ own r (clusters_of p w)) }
{
    let bases = bases_of(alloc, edges)?;
    Ok(in_level_order(bases))
}

fn bases_of(alloc: Global, edges: &[Edge]) -> Result<Vec<BoxRef>, NoMemory>
    ensures { IfOk result (λ v. v.items ≡ map (λ e. e.base) edges.now) }
{
    edges.iter().map(|e| e.base).collect(alloc)
}
