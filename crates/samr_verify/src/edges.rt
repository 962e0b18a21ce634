//! Whether the printed edges are those that are due.

ghost use Rattle.std.specs.Prelude.{◌≡◌, length};
ghost use Rattle.samr_level.specs.RefOrders.{edge_cmp};
ghost use Rattle.samr_verify.specs.MeshFaults.{is_equal, same_edge, edge_fault};

use crate::{Fault, PrintedEdge};
use samr_level::Edge;
use std::cmp::Ordering;

/// An edge that a level has to print, and the level of its head.
#[derive(Clone, Copy, Drop)]
pub(crate) struct DueEdge {
    pub to_level: u8,
    pub edge: Edge,
}

/// Whether two edges are the same.
fn is_same(a: Edge, b: Edge) -> bool
    ensures { result ≡ is_equal (edge_cmp a b) }
{
    match a.cmp(&b) {
        Ordering::Less => false,
        Ordering::Equal => true,
        Ordering::Greater => false,
    }
}

/// Whether a line prints the edge that is due.
fn same_edge(e: &PrintedEdge, due: &DueEdge) -> bool
    ensures { result ≡ same_edge e.now due.now }
{
    if e.to_level != due.to_level {
        return false;
    }
    is_same(e.edge, due.edge)
}

/// The first line at which a level's edges are not those that are due.
pub(crate) fn edge_fault(after: u64, told: &[PrintedEdge], due: &[DueEdge]) -> Option<Fault>
    ensures { result ≡ edge_fault after told.now due.now }
{
    for (i, e) in told.iter().enumerate() {
        match due.get(i) {
            None => return Some(Fault {
                kind: 6,
                line: e.line,
            }),
            Some(d) => {
                if !same_edge(e, d) {
                    return Some(Fault {
                        kind: 6,
                        line: e.line,
                    });
                }
            }
        }
    }
    if told.len() < due.len() {
        return Some(Fault {
            kind: 6,
            line: after,
        });
    }
    None
}
