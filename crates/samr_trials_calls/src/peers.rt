//! Worked rows of the other owners of the heads of edges.

use samr_box::{IBox, IVec, Shift};
use samr_level::{BoxRef, Edge};
use samr_peers::other_owners;
use std::test::Fail;

/// An edge from a box of the one rank to a box of the other.
fn edge(base: u16, head: u16) -> Result<Edge, Fail> {
    let bx = IBox::new(IVec::new(0, 0, 0), IVec::new(3, 3, 0)).ok_or("no box")?;
    let shift = Shift::new(0, 0, 0).ok_or("no shift")?;
    Ok(Edge {
        base: BoxRef { owner: base, bx },
        head: BoxRef { owner: head, bx },
        shift,
    })
}

#[test]
fn other_owners_ascend_each_once(rt: HostRuntime) -> Result<(), Fail> {
    let mut edges = Vec::new(rt.alloc());
    for head in [4, 1, 2, 4, 0, 2] {
        edges.push(edge(2, head)?)?;
    }
    let owners = other_owners(rt.alloc(), 2, edges.as_slice())?;
    assert_eq!(rt; owners.as_slice(), [0, 1, 4].as_slice());
    Ok(())
}
