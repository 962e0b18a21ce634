//! Edges and boxes of a level in order, each once.

ghost use Rattle.std.specs.Prelude.{◌≡◌};
ghost use Rattle.samr_level.specs.RefOrders.{ref_cmp, edge_cmp, in_order};

use crate::{BoxRef, Edge};

/// The edges in edge order, each once.
pub fn settled(mut edges: Vec<Edge>) -> Vec<Edge>
    ensures { result.items ≡ in_order edge_cmp edges.items }
{
    edges.sort_unstable();
    edges.dedup();
    edges
}

/// The boxes in level order, each once.
pub fn in_level_order(mut level: Vec<BoxRef>) -> Vec<BoxRef>
    ensures { result.items ≡ in_order ref_cmp level.items }
{
    level.sort_unstable();
    level.dedup();
    level
}
