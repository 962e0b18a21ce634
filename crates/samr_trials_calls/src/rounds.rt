//! Worked rows of clusters, of who is near a node, of owners and of roots.

use crate::fields::{field, flat};
use samr_box::{Axis, Domain, Flags, IBox, IVec};
use samr_rounds::{RankTags, clusters_of, directed, is_near, owner_of_counts};
use samr_sign::CutRule;
use std::alloc::Global;
use std::process::Abort;
use std::test::Fail;

/// The clusters of a box of at most 1,000 planes on each axis, for one field of it.
#[tactic(auto, using(samr_sign::proofs::Rows::few_cells, samr_sign::proofs::Rows::one_apart))]
fn clusters_in(
    rt: &impl Abort,
    alloc: Global,
    root: IBox,
    regions: &[IBox],
    efficiency: u32,
) -> Vec<IBox> {
    assert!(rt; root.length(Axis::I) <= 1_000);
    assert!(rt; root.length(Axis::J) <= 1_000);
    assert!(rt; root.length(Axis::K) <= 1_000);
    let tags = field(rt, alloc, root, regions);
    let rule = CutRule {
        efficiency,
        smallest: 1,
    };
    clusters_of(alloc, root, std::slice::from_ref(&tags), &rule).expect(rt, "memory")
}

/// A frame in the plane.
fn frame(rt: &impl Abort, size: (i64, i64), i: bool, j: bool) -> Domain {
    Domain::new(IVec::new(size.0, size.1, 1), Flags { k: false, j, i }).expect(rt, "a domain")
}

/// A box, a node, a width, the periodic axes, and whether the box is near the node.
fn near_rows(rt: &impl Abort) {
    let left = flat(rt, (0, 0), (3, 3));
    let right = flat(rt, (4, 0), (7, 3));
    let corner = flat(rt, (0, 0), (0, 0));
    let far = flat(rt, (7, 3), (7, 3));
    let edge = flat(rt, (7, 0), (7, 1));
    let rows = [
        (left, flat(rt, (0, 0), (7, 3)), 1, false, false, true),
        (left, right, 1, false, false, true),
        (left, right, 0, false, false, false),
        (left, flat(rt, (5, 0), (7, 3)), 1, false, false, false),
        (left, edge, 1, false, false, false),
        (left, edge, 1, true, false, true),
        (corner, far, 1, true, false, false),
        (corner, far, 1, false, true, false),
        (corner, far, 1, true, true, true),
        (far, corner, 1, true, true, true),
    ];
    for (bx, node, width, i, j, near) in rows {
        let width = IVec::new(width, width, 0);
        let frame = frame(rt, (8, 4), i, j);
        assert_eq!(rt;
            is_near(std::slice::from_ref(&bx), node, width, &frame),
            near,
            "{bx:?} {node:?}"
        );
    }
}

/// Counts of ranks, and the owner.
fn owner_rows(rt: &impl Abort) {
    let of = |rank, tags| RankTags { rank, tags };
    assert_eq!(rt; owner_of_counts([of(0, 4), of(1, 2)].as_slice()), 0);
    assert_eq!(rt; owner_of_counts([of(0, 2), of(1, 2)].as_slice()), 0);
    assert_eq!(rt; owner_of_counts([of(0, 1), of(1, 2)].as_slice()), 1);
    assert_eq!(rt;
        owner_of_counts([of(3, 0), of(5, 2), of(9, 2)].as_slice()),
        5
    );
    assert_eq!(rt; owner_of_counts([].as_slice()), 0);
}

#[test]
fn clusters(rt: HostRuntime) -> Result<(), Fail> {
    let gap = flat(&rt, (0, 0), (4, 1));
    let left = flat(&rt, (0, 0), (1, 1));
    let last = flat(&rt, (4, 0), (4, 1));
    let found = clusters_in(&rt, rt.alloc(), gap, [left, last].as_slice(), 70);
    assert_eq!(rt; found.as_slice(), [left, last].as_slice());
    let step = flat(&rt, (0, 0), (5, 3));
    let full = flat(&rt, (0, 0), (2, 3));
    let low = flat(&rt, (3, 0), (5, 0));
    let found = clusters_in(&rt, rt.alloc(), step, [full, low].as_slice(), 80);
    assert_eq!(rt; found.as_slice(), [full, low].as_slice());
    let level = flat(&rt, (0, 0), (7, 3));
    let tags = flat(&rt, (2, 0), (4, 1));
    let found = clusters_in(&rt, rt.alloc(), level, [tags].as_slice(), 80);
    assert_eq!(rt; found.as_slice(), [tags].as_slice());
    let none: Vec<IBox> = Vec::new(rt.alloc());
    let found = clusters_in(&rt, rt.alloc(), level, none.as_slice(), 80);
    assert!(rt; found.is_empty());
    Ok(())
}

#[test]
fn near(rt: HostRuntime) -> Result<(), Fail> {
    near_rows(&rt);
    let none: Vec<IBox> = Vec::new(rt.alloc());
    let periodic = frame(&rt, (8, 4), true, true);
    let node = flat(&rt, (0, 0), (3, 3));
    assert!(rt; !is_near(none.as_slice(), node, IVec::new(1, 1, 0), &periodic));
    Ok(())
}

#[test]
fn owners(rt: HostRuntime) -> Result<(), Fail> {
    owner_rows(&rt);
    Ok(())
}

#[test]
fn roots(rt: HostRuntime) -> Result<(), Fail> {
    let roots = [
        flat(&rt, (0, 0), (0, 0)),
        flat(&rt, (1, 0), (1, 0)),
        flat(&rt, (2, 0), (2, 0)),
        flat(&rt, (3, 0), (3, 0)),
        flat(&rt, (4, 0), (4, 0)),
    ];
    let first = directed(rt.alloc(), roots.as_slice(), 0, 2).expect(&rt, "memory");
    assert_eq!(rt; first.as_slice(), [roots[0], roots[2], roots[4]].as_slice());
    let second = directed(rt.alloc(), roots.as_slice(), 1, 2).expect(&rt, "memory");
    assert_eq!(rt; second.as_slice(), [roots[1], roots[3]].as_slice());
    let none = directed(rt.alloc(), roots.as_slice(), 7, 8).expect(&rt, "memory");
    assert!(rt; none.is_empty());
    Ok(())
}
