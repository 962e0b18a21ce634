//! Worked rows of boxes, cells, domains and ratios, and of lists of items.

use crate::fields::flat;
use samr_box::{
    Axis, Domain, Flags, IBox, IVec, Listed, Ratio, Shift, boxes_meet, cells, clamp_axis, coarsen,
    contains, corner_order, grow, holds_box, images_meet, is_outside, longest, meet, mirror_axis,
    refine, shifted, split_after, split_at, wrap,
};
use std::process::Abort;
use std::test::Fail;

const LEAST: i64 = -1_073_741_824;

const GREATEST: i64 = 1_073_741_824;

/// Rows of coordinates in and out of range, and which of them make a box.
fn corners(rt: &impl Abort) {
    let rows = [
        (IVec::new(1, 0, 0), IVec::alike(0), false),
        (IVec::alike(0), IVec::alike(0), true),
        (IVec::alike(LEAST), IVec::alike(GREATEST), true),
        (IVec::new(LEAST - 1, 0, 0), IVec::alike(0), false),
        (IVec::alike(0), IVec::new(0, 0, GREATEST + 1), false),
        (IVec::alike(i64::MIN), IVec::alike(i64::MAX), false),
    ];
    for (lo, hi, is_box) in rows {
        assert_eq!(rt; IBox::new(lo, hi).is_some(), is_box, "{lo:?} to {hi:?}");
    }
}

/// Lengths, coordinates, and what clamping and mirroring make of them.
fn borders(rt: &impl Abort) {
    let rows = [
        (4, -4, 0, 3),
        (4, -1, 0, 0),
        (4, 2, 2, 2),
        (4, 4, 3, 3),
        (4, 7, 3, 0),
        (i64::MAX, i64::MAX, i64::MAX - 1, i64::MAX - 1),
        (i64::MAX, -i64::MAX, 0, i64::MAX - 1),
    ];
    for (len, x, clamped, mirrored) in rows {
        if x >= -len && (x < len || x - len < len) {
            assert_eq!(rt; clamp_axis(len, x), clamped, "{x} at {len}");
            assert_eq!(rt; mirror_axis(len, x), mirrored, "{x} at {len}");
        }
    }
}

/// Cells and what wrapping makes of them where only `i` is periodic.
fn wraps(rt: &impl Abort) {
    let periodic = Flags {
        k: false,
        j: false,
        i: true,
    };
    let domain = Domain::new(IVec::new(4, 8, 1), periodic).expect(rt, "a domain");
    let rows = [
        (IVec::new(-1, 3, 0), IVec::new(3, 3, 0)),
        (IVec::new(4, 9, -1), IVec::new(0, 9, -1)),
        (IVec::new(i64::MIN, i64::MAX, 0), IVec::new(0, i64::MAX, 0)),
    ];
    for (x, wrapped) in rows {
        assert_eq!(rt; wrap(&domain, x), wrapped);
        assert_eq!(rt; is_outside(&domain, x), x.j > 7 || x.k < 0);
    }
}

/// Cells by two along `i`, and the greatest ratio at the ends of the range.
fn ratios(rt: &impl Abort) {
    let halves = Ratio::new(2, 1, 1).expect(rt, "a ratio");
    assert_eq!(rt;
        coarsen(flat(rt, (-3, 0), (-1, 0)), halves),
        flat(rt, (-2, 0), (-1, 0))
    );
    let most = Ratio::new(256, 256, 256).expect(rt, "a ratio");
    let whole = IBox::new(IVec::alike(LEAST), IVec::alike(GREATEST)).expect(rt, "a box");
    let coarse = IBox::new(IVec::alike(-4_194_304), IVec::alike(4_194_304)).expect(rt, "a box");
    assert_eq!(rt; coarsen(whole, most), coarse);
    assert_eq!(rt; Ratio::new(0, 1, 1), None);
    assert_eq!(rt; Ratio::new(1, 1, 257), None);
}

/// A domain of the greatest size: its last cell and the image of its first one.
fn images(rt: &impl Abort) {
    let all = Flags {
        k: true,
        j: true,
        i: true,
    };
    let domain = Domain::new(IVec::alike(GREATEST), all).expect(rt, "a domain");
    let first = flat(rt, (0, 0), (0, 0));
    let end = flat(rt, (GREATEST, 0), (GREATEST, 0));
    let rows = [(1, true), (0, false), (-1, false)];
    for (lengths, meets) in rows {
        let shift = Shift::new(lengths, 0, 0).expect(rt, "a shift");
        assert_eq!(rt; images_meet(&domain, end, first, shift), meets);
        assert_eq!(rt; images_meet(&domain, first, end, shift.opposite()), meets);
        assert_eq!(rt; shift.is_zero(), lengths == 0);
    }
    assert_eq!(rt; Shift::new(0, 2, 0), None);
    assert_eq!(rt; Domain::new(IVec::alike(0), all), None);
}

/// Pairs of boxes.
fn pairs(rt: &impl Abort) {
    let left = flat(rt, (0, 0), (1, 1));
    let right = flat(rt, (2, 0), (3, 1));
    let both = flat(rt, (1, 0), (2, 0));
    assert_eq!(rt; meet(left, right), None);
    assert!(rt; !boxes_meet(left, right));
    assert!(rt; boxes_meet(left, both));
    assert_eq!(rt; meet(both, right), Some(flat(rt, (2, 0), (2, 0))));
    assert!(rt; contains(right, IVec::new(3, 1, 0)));
    assert!(rt; !holds_box(left, both));
    assert_eq!(rt; longest(left), Axis::I);
    assert_eq!(rt; longest(flat(rt, (0, 0), (0, 1))), Axis::J);
    assert!(rt; corner_order(both, right).is_lt());
}

/// What is made of one cell.
fn steps(rt: &impl Abort) {
    let corner = IVec { k: 0, j: 0, i: 0 };
    let cell = IBox {
        lo: corner,
        hi: corner,
    };
    let grown = grow(cell, IVec { k: 0, j: 2, i: 1 });
    assert_eq!(rt; grown, flat(rt, (-1, -2), (1, 2)));
    assert_eq!(rt; cells(grown), 15);
    let (before, from) = split_at(grown, Axis::J, 0);
    assert_eq!(rt; before, flat(rt, (-1, -2), (1, -1)));
    assert_eq!(rt; from, flat(rt, (-1, 0), (1, 2)));
    let (first, rest) = split_after(grown, Axis::I, 1);
    assert_eq!(rt; first, flat(rt, (-1, -2), (-1, 2)));
    assert_eq!(rt; rest, flat(rt, (0, -2), (1, 2)));
    assert_eq!(rt; grown.below(Axis::J, cell), Some(before));
    assert_eq!(rt; grown.above(Axis::I, cell), Some(flat(rt, (1, -2), (1, 2))));
    assert_eq!(rt; grown.level(Axis::I, cell), flat(rt, (0, -2), (0, 2)));
}

/// A domain and its finer one.
fn levels(rt: &impl Abort) {
    let domain = Domain {
        size: IVec { k: 1, j: 8, i: 4 },
        periodic: Flags {
            k: false,
            j: false,
            i: true,
        },
    };
    let ratio = Ratio { k: 1, j: 3, i: 2 };
    let cell = IBox {
        lo: IVec { k: 0, j: -1, i: 1 },
        hi: IVec { k: 0, j: -1, i: 1 },
    };
    assert_eq!(rt; refine(cell, ratio), flat(rt, (2, -3), (3, -1)));
    let back = Shift { k: 0, j: 0, i: -1 };
    assert_eq!(rt; shifted(cell, &domain, back), flat(rt, (-3, -1), (-3, -1)));
    assert_eq!(rt; domain.whole(), flat(rt, (0, 0), (3, 7)));
    assert_eq!(rt; domain.finer(ratio).whole(), flat(rt, (0, 0), (7, 23)));
}

#[test]
fn lists(rt: HostRuntime) -> Result<(), Fail> {
    let cell = IVec::alike(1);
    let items = Vec::from_slice(rt.alloc(), [cell, cell].as_slice())?;
    let list = Listed::from_vec(items);
    let copy = list.copied(rt.alloc())?;
    assert_eq!(rt; copy.as_slice(), list.as_slice());
    assert_eq!(rt; copy.into_vec().len(), 2);
    let empty: Listed<IVec> = Listed::new(rt.alloc());
    assert!(rt; empty.as_slice().is_empty());
    Ok(())
}

#[test]
fn worked_rows(rt: HostRuntime) {
    corners(&rt);
    borders(&rt);
    wraps(&rt);
    ratios(&rt);
    images(&rt);
    pairs(&rt);
    steps(&rt);
    levels(&rt);
}
