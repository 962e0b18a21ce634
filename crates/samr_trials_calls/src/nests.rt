//! Worked rows of the nest cut: what is left of a cluster.

ghost use Rattle.std.specs.Prelude.{◌↔◌, IsTrue};
ghost use Rattle.samr_box.specs.Vector.{InRange};
ghost use Rattle.samr_box.specs.Corners.{IsBox, grown};

use crate::solids::{Corners, NO_AXIS, Triple, bx, cell};
use samr_box::{Domain, Flags, IBox, IVec, Ratio, holds_box};
use samr_level::{BoxRef, Edge, Region, true_overlaps_of};
use samr_nest::cut;
use std::alloc::Global;
use std::process::Abort;
use std::test::Fail;

/// A frame with its parts, a level, a cluster, the nest width, the greatest number of planes, and the
/// pieces that the cut leaves.
#[derive(Clone, Copy)]
struct Case {
    size: Triple,
    periodic: (bool, bool, bool),
    parts: &'static [Corners],
    level: &'static [Corners],
    cluster: Corners,
    nest: Triple,
    largest: i64,
    left: &'static [Corners],
}

fn region(alloc: Global, case: &Case) -> Result<Region, Fail> {
    let mut parts = Vec::new(alloc);
    for part in case.parts {
        parts.push(bx(*part)?)?;
    }
    let periodic = Flags {
        k: case.periodic.2,
        j: case.periodic.1,
        i: case.periodic.0,
    };
    let frame = Domain::new(cell(case.size), periodic).ok_or("no domain")?;
    Ok(Region::new(frame, parts).ok_or("no region")?)
}

/// The edges of the cluster to the level at a width.
fn edges(
    alloc: Global,
    region: &Region,
    case: &Case,
    cluster: BoxRef,
    width: IVec,
) -> Result<Vec<Edge>, Fail> {
    let mut level = Vec::new(alloc);
    for corners in case.level {
        let bx = bx(*corners)?;
        level.push(BoxRef { owner: 1, bx })?;
    }
    if !region.can_compare(width) {
        return Err(Fail::from("no width"));
    }
    let one = Ratio::new(1, 1, 1).ok_or("no ratio")?;
    let edges = true_overlaps_of(
        alloc,
        [cluster].as_slice(),
        level.as_slice(),
        width,
        one,
        one,
        region.frame(),
    )?;
    Ok(edges)
}

/// Whether a box, grown by a width, is a box.
fn can_grow(b: IBox, w: IVec) -> bool
    requires { InRange w }
    ensures { IsTrue result ↔ IsBox (grown b w) }
{
    IBox::new(b.lo.minus(w), b.hi.plus(w)).is_some()
}

/// The boxes that are left of a cluster, where it can be cut.
fn left(
    alloc: Global,
    region: &Region,
    cluster: BoxRef,
    near: &[Edge],
    case: &Case,
) -> Result<Vec<IBox>, Fail> {
    let nest = cell(case.nest);
    if !region.can_compare(nest) {
        return Err(Fail::from("no nest width"));
    }
    if !holds_box(region.frame().whole(), cluster.bx) {
        return Err(Fail::from("not in the frame"));
    }
    if !can_grow(cluster.bx, nest) {
        return Err(Fail::from("out of range"));
    }
    if case.largest < 1 {
        return Err(Fail::from("no planes"));
    }
    let pieces = cut(alloc, cluster, near, nest, region, case.largest)?;
    let mut boxes = Vec::new(alloc);
    for piece in pieces.news.as_slice() {
        if piece.owner == cluster.owner {
            boxes.push(piece.bx)?;
        }
    }
    Ok(boxes)
}

/// What the cut leaves, from the edges at the nest width and from those at a greater one.
fn compare(rt: &impl Abort, alloc: Global, case: &Case) -> Result<(), Fail> {
    let region = region(alloc, case)?;
    let cluster = BoxRef {
        owner: 3,
        bx: bx(case.cluster)?,
    };
    let mut wanted = Vec::new(alloc);
    for corners in case.left {
        wanted.push(bx(*corners)?)?;
    }
    let width = cell(case.nest);
    let near = edges(alloc, &region, case, cluster, width)?;
    let pieces = left(alloc, &region, cluster, near.as_slice(), case)?;
    assert_eq!(rt; pieces.as_slice(), wanted.as_slice());
    let all = edges(alloc, &region, case, cluster, region.frame().size)?;
    let pieces = left(alloc, &region, cluster, all.as_slice(), case)?;
    assert_eq!(rt; pieces.as_slice(), wanted.as_slice());
    Ok(())
}

/// How many cases there are.
const CASES: usize = 8;

/// A level at both ends of a frame that is periodic along it.
const AT_BOTH_ENDS: Case = Case {
    size: (8, 4, 1),
    periodic: (true, false, false),
    parts: &[],
    level: &[((0, 0, 0), (1, 3, 0)), ((6, 0, 0), (7, 3, 0))],
    cluster: ((0, 0, 0), (1, 3, 0)),
    nest: (1, 1, 0),
    largest: 64,
    left: &[((0, 0, 0), (0, 3, 0))],
};

/// Round periodic borders in two and three dimensions, in parts, where nothing is left, in pieces.
fn numbered(number: usize) -> Case {
    match number {
        0 => AT_BOTH_ENDS,
        1 => Case {
            size: (8, 8, 1),
            periodic: NO_AXIS,
            parts: &[((0, 0, 0), (3, 7, 0)), ((4, 0, 0), (7, 3, 0))],
            level: &[
                ((0, 0, 0), (3, 3, 0)),
                ((0, 4, 0), (3, 7, 0)),
                ((4, 0, 0), (7, 3, 0)),
            ],
            cluster: ((3, 3, 0), (4, 4, 0)),
            nest: (1, 1, 0),
            largest: 64,
            left: &[((3, 3, 0), (3, 4, 0)), ((4, 3, 0), (4, 3, 0))],
        },
        2 => Case {
            periodic: NO_AXIS,
            cluster: ((1, 0, 0), (1, 3, 0)),
            left: &[],
            ..AT_BOTH_ENDS
        },
        3 => Case {
            periodic: NO_AXIS,
            level: &[((0, 0, 0), (7, 3, 0))],
            cluster: ((1, 0, 0), (7, 3, 0)),
            largest: 3,
            left: &[
                ((1, 0, 0), (3, 2, 0)),
                ((1, 3, 0), (3, 3, 0)),
                ((4, 0, 0), (6, 2, 0)),
                ((4, 3, 0), (6, 3, 0)),
                ((7, 0, 0), (7, 2, 0)),
                ((7, 3, 0), (7, 3, 0)),
            ],
            ..AT_BOTH_ENDS
        },
        _ => more(number),
    }
}

fn more(number: usize) -> Case {
    match number {
        4 => Case {
            size: (8, 8, 1),
            periodic: NO_AXIS,
            level: &[
                ((0, 0, 0), (7, 2, 0)),
                ((0, 3, 0), (2, 7, 0)),
                ((4, 3, 0), (7, 7, 0)),
            ],
            cluster: ((0, 0, 0), (7, 7, 0)),
            largest: 3,
            left: &[
                ((0, 0, 0), (1, 2, 0)),
                ((0, 3, 0), (1, 5, 0)),
                ((0, 6, 0), (1, 7, 0)),
                ((5, 0, 0), (7, 2, 0)),
                ((5, 3, 0), (7, 5, 0)),
                ((5, 6, 0), (7, 7, 0)),
                ((2, 0, 0), (4, 1, 0)),
            ],
            ..AT_BOTH_ENDS
        },
        5 => Case {
            size: (8, 8, 1),
            periodic: (true, true, false),
            level: &[((0, 0, 0), (6, 6, 0))],
            cluster: ((0, 0, 0), (6, 6, 0)),
            nest: (2, 1, 0),
            left: &[((2, 1, 0), (4, 5, 0))],
            ..AT_BOTH_ENDS
        },
        6 => Case {
            level: &[((0, 0, 0), (3, 4, 3)), ((0, 0, 5), (3, 2, 5))],
            left: &[
                ((0, 1, 0), (2, 1, 2)),
                ((0, 0, 1), (2, 0, 2)),
                ((0, 2, 1), (2, 3, 2)),
                ((0, 4, 1), (2, 4, 2)),
                ((3, 1, 0), (3, 1, 2)),
                ((3, 0, 1), (3, 0, 2)),
                ((3, 2, 1), (3, 3, 2)),
                ((3, 4, 1), (3, 4, 2)),
            ],
            ..ALL_PERIODIC
        },
        _ => ALL_PERIODIC,
    }
}

/// A level with holes in a frame that is periodic on all axes.
const ALL_PERIODIC: Case = Case {
    size: (4, 5, 6),
    periodic: (true, true, true),
    parts: &[],
    level: &[((0, 0, 0), (3, 4, 3)), ((0, 0, 5), (3, 1, 5))],
    cluster: ((0, 0, 0), (3, 4, 3)),
    nest: (1, 1, 1),
    largest: 64,
    left: &[
        ((0, 0, 1), (2, 0, 2)),
        ((0, 1, 1), (2, 3, 2)),
        ((0, 4, 1), (2, 4, 2)),
        ((3, 0, 1), (3, 0, 2)),
        ((3, 1, 1), (3, 3, 2)),
        ((3, 4, 1), (3, 4, 2)),
    ],
};

#[test]
fn cuts_leave_the_nested_cells(rt: HostRuntime) -> Result<(), Fail> {
    for number in 0..CASES {
        compare(&rt, rt.alloc(), &numbered(number))?;
    }
    Ok(())
}

#[test]
fn without_images_nothing_is_left(rt: HostRuntime) -> Result<(), Fail> {
    let alloc = rt.alloc();
    let case = AT_BOTH_ENDS;
    let region = region(alloc, &case)?;
    let cluster = BoxRef {
        owner: 3,
        bx: bx(case.cluster)?,
    };
    let near = edges(alloc, &region, &case, cluster, cell(case.nest))?;
    let mut here = Vec::new(alloc);
    for e in near.as_slice() {
        if e.shift.is_zero() {
            here.push(*e)?;
        }
    }
    assert_eq!(rt; (near.len(), here.len()), (2, 1));
    let pieces = left(alloc, &region, cluster, here.as_slice(), &case)?;
    assert_eq!(rt; pieces.len(), 0);
    Ok(())
}
