//! Worked rows of level 0 and its pairs, of regions, and of how boxes of two levels compare.

use crate::solids::{Corners, NO_AXIS, Triple, bx, cell};
use samr_box::{Domain, Flags, IBox, IVec, Ratio, Shift};
use samr_level::{
    BoxRef, Connector, Edge, Pair, Region, coarse_width, fine_width, level0, level0_pair, overlaps,
    peers, true_overlaps_of, whole_level0,
};
use std::alloc::Global;
use std::process::Abort;
use std::test::Fail;

/// A region, the cells of a block, the ranks, a width, and how many edges level 0 has.
#[derive(Clone, Copy)]
struct Case {
    size: Triple,
    periodic: (bool, bool, bool),
    parts: &'static [Corners],
    block: Triple,
    ranks: u16,
    width: Triple,
    edges: usize,
}

fn ratio(factors: Triple) -> Result<Ratio, Fail> {
    Ok(Ratio::new(factors.0, factors.1, factors.2).ok_or("no ratio")?)
}

fn domain(size: Triple, periodic: (bool, bool, bool)) -> Result<Domain, Fail> {
    let flags = Flags {
        k: periodic.2,
        j: periodic.1,
        i: periodic.0,
    };
    Ok(Domain::new(cell(size), flags).ok_or("no domain")?)
}

fn region(alloc: Global, case: &Case) -> Result<Region, Fail> {
    let mut parts = Vec::new(alloc);
    for part in case.parts {
        parts.push(bx(*part)?)?;
    }
    let frame = domain(case.size, case.periodic)?;
    Ok(Region::new(frame, parts).ok_or("no region")?)
}

/// The whole level 0 of a case.
fn level_of(alloc: Global, region: &Region, case: &Case) -> Result<Vec<BoxRef>, Fail> {
    let block = cell(case.block);
    if !region.can_block(block) {
        return Err(Fail::from("no blocks"));
    }
    Ok(whole_level0(alloc, region, block, case.ranks)?)
}

/// The pair of a rank of a case.
fn pair_of(alloc: Global, region: &Region, case: &Case, rank: u16) -> Result<Pair, Fail> {
    let block = cell(case.block);
    let width = cell(case.width);
    if !region.can_block(block) {
        return Err(Fail::from("no blocks"));
    }
    if !region.can_compare(width) {
        return Err(Fail::from("no width"));
    }
    Ok(level0_pair(alloc, region, block, case.ranks, rank, width)?)
}

/// Each rank's pair, found by windows, against all pairs of boxes.
fn compare(rt: &impl Abort, alloc: Global, case: &Case) -> Result<(), Fail> {
    let region = region(alloc, case)?;
    let level = level_of(alloc, &region, case)?;
    let same = ratio((1, 1, 1))?;
    let width = cell(case.width);
    if !region.can_compare(width) {
        return Err(Fail::from("no width"));
    }
    let all = true_overlaps_of(
        alloc,
        level.as_slice(),
        level.as_slice(),
        width,
        same,
        same,
        region.frame(),
    )?;
    assert_eq!(rt; all.len(), case.edges);
    for rank in 0..case.ranks {
        let pair = pair_of(alloc, &region, case, rank)?;
        let mut own = Vec::new(alloc);
        for e in all.as_slice() {
            if e.base.owner == rank {
                own.push(*e)?;
            }
        }
        assert_eq!(rt; pair.forth.edges.as_slice(), own.as_slice());
        assert_eq!(rt; pair.back.edges.as_slice(), own.as_slice());
    }
    Ok(())
}

/// How many cases there are.
const CASES: usize = 9;

/// Regions without and with parts, in two and three dimensions; widths up to a periodic length.
fn numbered(number: usize) -> Case {
    match number {
        0 => Case {
            size: (8, 8, 1),
            periodic: NO_AXIS,
            parts: &[],
            block: (4, 4, 1),
            ranks: 3,
            width: (1, 1, 0),
            edges: 16,
        },
        1 => Case {
            size: (4, 8, 1),
            periodic: (true, false, false),
            parts: &[],
            block: (4, 8, 1),
            ranks: 1,
            width: (4, 0, 0),
            edges: 3,
        },
        2 => Case {
            size: (5, 3, 1),
            periodic: (true, true, false),
            parts: &[],
            block: (2, 1, 1),
            ranks: 4,
            width: (5, 2, 0),
            edges: 315,
        },
        3 => Case {
            size: (4, 4, 3),
            periodic: (false, true, true),
            parts: &[],
            block: (2, 3, 2),
            ranks: 5,
            width: (1, 4, 3),
            edges: 400,
        },
        4 => Case {
            size: (8, 8, 1),
            periodic: NO_AXIS,
            parts: &[((0, 0, 0), (3, 7, 0)), ((4, 0, 0), (7, 3, 0))],
            block: (4, 4, 1),
            ranks: 2,
            width: (1, 1, 0),
            edges: 9,
        },
        5 => Case {
            size: (9, 7, 1),
            periodic: (true, true, false),
            parts: &[
                ((5, 2, 0), (8, 6, 0)),
                ((0, 0, 0), (2, 0, 0)),
                ((3, 1, 0), (3, 4, 0)),
            ],
            block: (2, 3, 1),
            ranks: 3,
            width: (2, 7, 0),
            edges: 106,
        },
        6 => Case {
            size: (6, 6, 6),
            periodic: (false, false, true),
            parts: &[
                ((4, 4, 4), (5, 5, 5)),
                ((0, 0, 0), (0, 0, 0)),
                ((1, 1, 1), (2, 2, 5)),
                ((3, 0, 0), (3, 5, 0)),
                ((0, 4, 4), (1, 5, 5)),
                ((5, 0, 0), (5, 0, 5)),
                ((0, 5, 0), (2, 5, 0)),
                ((4, 3, 2), (5, 3, 3)),
            ],
            block: (2, 2, 4),
            ranks: 5,
            width: (2, 1, 6),
            edges: 161,
        },
        7 => Case {
            size: (3, 2, 2),
            periodic: (true, true, true),
            parts: &[((1, 0, 1), (2, 1, 1))],
            block: (9, 1, 1),
            ranks: 2,
            width: (3, 2, 2),
            edges: 90,
        },
        _ => Case {
            size: (4, 4, 8),
            periodic: NO_AXIS,
            parts: &[],
            block: (4, 4, 4),
            ranks: 2,
            width: (0, 0, 1),
            edges: 4,
        },
    }
}

#[test]
fn pairs_of_level0(rt: HostRuntime) -> Result<(), Fail> {
    for number in 0..CASES {
        compare(&rt, rt.alloc(), &numbered(number))?;
    }
    Ok(())
}

/// The owner, the lower and the upper corner of the members of level 0.
fn listed(alloc: Global, level: &[BoxRef]) -> Result<Vec<(u16, Corners)>, Fail> {
    let mut rows = Vec::new(alloc);
    for b in level {
        let lo = b.bx.lo;
        let hi = b.bx.hi;
        rows.push((b.owner, ((lo.i, lo.j, lo.k), (hi.i, hi.j, hi.k))))?;
    }
    Ok(rows)
}

fn check_level(
    rt: &impl Abort,
    alloc: Global,
    number: usize,
    expected: &[(u16, Corners)],
) -> Result<(), Fail> {
    let case = numbered(number);
    let region = region(alloc, &case)?;
    let level = level_of(alloc, &region, &case)?;
    assert_eq!(rt; listed(alloc, level.as_slice())?.as_slice(), expected);
    let block = cell(case.block);
    if region.can_block(block) {
        let part = level0(alloc, &region, block, case.ranks, 0)?;
        assert_eq!(rt;
            part.boxes.as_slice().get(0).copied(),
            level.get(0).map(|b| b.bx)
        );
    }
    Ok(())
}

#[test]
fn levels(rt: HostRuntime) -> Result<(), Fail> {
    let blocks = [
        (0, ((0, 0, 0), (3, 3, 0))),
        (0, ((4, 0, 0), (7, 3, 0))),
        (1, ((0, 4, 0), (3, 7, 0))),
        (2, ((4, 4, 0), (7, 7, 0))),
    ];
    check_level(&rt, rt.alloc(), 0, blocks.as_slice())?;
    let corner = [
        (0, ((0, 0, 0), (3, 3, 0))),
        (0, ((0, 4, 0), (3, 7, 0))),
        (1, ((4, 0, 0), (7, 3, 0))),
    ];
    check_level(&rt, rt.alloc(), 4, corner.as_slice())
}

/// The owners of the heads, and the shifts, of a rank's edges.
fn heads(alloc: Global, connector: &Connector) -> Result<Vec<(u16, Shift)>, Fail> {
    let mut rows = Vec::new(alloc);
    for e in connector.edges.as_slice() {
        rows.push((e.head.owner, e.shift))?;
    }
    Ok(rows)
}

fn check_pair(
    rt: &impl Abort,
    alloc: Global,
    case: &Case,
    rank: u16,
    expected: &[(u16, Shift)],
    others: &[u16],
) -> Result<(), Fail> {
    let region = region(alloc, case)?;
    let pair = pair_of(alloc, &region, case, rank)?;
    assert_eq!(rt; heads(alloc, &pair.forth)?.as_slice(), expected);
    assert_eq!(rt; heads(alloc, &pair.back)?.as_slice(), expected);
    assert_eq!(rt; peers(alloc, &pair, rank)?.as_slice(), others);
    Ok(())
}

#[test]
fn pairs(rt: HostRuntime) -> Result<(), Fail> {
    let here = Shift { k: 0, j: 0, i: 0 };
    let back = Shift { k: 0, j: 0, i: -1 };
    let ahead = Shift { k: 0, j: 0, i: 1 };
    let blocks = [(0, here), (0, here), (1, here), (2, here)];
    check_pair(
        &rt,
        rt.alloc(),
        &numbered(0),
        2,
        blocks.as_slice(),
        [0, 1].as_slice(),
    )?;
    let images = [(0, back), (0, here), (0, ahead)];
    check_pair(
        &rt,
        rt.alloc(),
        &numbered(1),
        0,
        images.as_slice(),
        [].as_slice(),
    )?;
    let halves = [(0, here), (1, here)];
    check_pair(
        &rt,
        rt.alloc(),
        &numbered(8),
        1,
        halves.as_slice(),
        [0].as_slice(),
    )
}

/// The box of these planes along `i`.
fn bar(first: i64, last: i64) -> Result<IBox, Fail> {
    bx(((first, 0, 0), (last, 0, 0)))
}

#[test]
fn ratios_and_widths(rt: HostRuntime) -> Result<(), Fail> {
    let coarse = bar(1, 2)?;
    let one = ratio((1, 1, 1))?;
    let three = ratio((3, 1, 1))?;
    let finer = domain((30, 1, 1), NO_AXIS)?;
    let here = Shift { k: 0, j: 0, i: 0 };
    let width = IVec::new(1, 0, 0);
    for (fine, near) in [(bar(11, 13)?, true), (bar(12, 14)?, false)] {
        assert_eq!(rt;
            overlaps(coarse, fine, width, one, three, &finer, here),
            near
        );
        assert_eq!(rt;
            overlaps(fine, coarse, width, three, one, &finer, here),
            near
        );
    }
    let halves = ratio((2, 2, 1))?;
    assert_eq!(rt;
        coarse_width(IVec::new(3, 4, 0), halves),
        IVec::new(2, 2, 0)
    );
    assert_eq!(rt; fine_width(IVec::new(2, 2, 0), halves), IVec::new(4, 4, 0));
    let edge = Edge {
        base: BoxRef {
            owner: 0,
            bx: coarse,
        },
        head: BoxRef {
            owner: 1,
            bx: bar(3, 3)?,
        },
        shift: Shift { k: 0, j: 0, i: 1 },
    };
    assert_eq!(rt; edge.turned().base, edge.head);
    assert_eq!(rt; edge.turned().turned(), edge);
    Ok(())
}

/// A region in the index space of a finer level.
fn refined(alloc: Global, region: &Region, r: Ratio) -> Result<Region, Fail> {
    if !region.can_refine(r) {
        return Err(Fail::from("too fine"));
    }
    Ok(region.refined(alloc, r)?)
}

#[test]
fn cells_of_regions(rt: HostRuntime) -> Result<(), Fail> {
    let corner = region(rt.alloc(), &numbered(4))?;
    let inside = [(3, 7, true), (4, 4, false), (7, 3, true), (-1, 0, false)];
    for (i, j, expected) in inside {
        assert_eq!(rt; corner.inside(IVec::new(i, j, 0)), expected, "{i} {j}");
    }
    let ring = region(rt.alloc(), &numbered(5))?;
    assert!(rt; ring.inside(IVec::new(-1, 9, 0)));
    assert!(rt; !ring.inside(IVec::new(-1, 8, 0)));
    Ok(())
}

#[test]
fn parts_of_regions(rt: HostRuntime) -> Result<(), Fail> {
    let corner = region(rt.alloc(), &numbered(4))?;
    let finer = refined(rt.alloc(), &corner, ratio((2, 3, 1))?)?;
    assert_eq!(rt; finer.frame().size, IVec::new(16, 24, 1));
    let boxes = finer.boxes(rt.alloc())?;
    assert_eq!(rt;
        boxes.as_slice().get(1).copied(),
        Some(bx(((8, 0, 0), (15, 11, 0)))?)
    );
    let frame = *corner.frame();
    for other in [((3, 0, 0), (3, 0, 0)), ((4, 0, 0), (8, 0, 0))] {
        let mut parts = corner.boxes(rt.alloc())?;
        parts.push(bx(other)?)?;
        assert!(rt; Region::new(frame, parts).is_none());
    }
    let whole = Region::whole(rt.alloc(), frame);
    assert_eq!(rt; whole.boxes(rt.alloc())?.len(), 1);
    Ok(())
}
