//! Worked rows of patches: values that are set, packed, unpacked and copied.

ghost use Rattle.std.specs.Prelude.{◌≡◌, ◌<◌, ◌^◌, IsTrue};
ghost use Rattle.samr_box.specs.Corners.{cells_of, holds_box};

use samr_box::{IBox, IVec, cells, contains, holds_box};
use samr_data::Patch;
use std::alloc::Global;
use std::process::Abort;
use std::test::Fail;

/// No test has a cell or a step beyond these.
const LEAST: IVec = IVec {
    k: -1_000,
    j: -1_000,
    i: -1_000,
};

const GREATEST: IVec = IVec {
    k: 1_000,
    j: 1_000,
    i: 1_000,
};

const NOTHING: IVec = IVec { k: 0, j: 0, i: 0 };

/// The box between two cells.
fn between(rt: &impl Abort, lo: (i64, i64, i64), hi: (i64, i64, i64)) -> IBox {
    IBox::new(IVec::new(lo.0, lo.1, lo.2), IVec::new(hi.0, hi.1, hi.2)).expect(rt, "a box")
}

/// A patch of zeros.
fn patch(rt: &impl Abort, alloc: Global, bx: IBox, width: IVec) -> Patch {
    assert!(rt; LEAST.at_most(bx.lo));
    assert!(rt; bx.hi.at_most(GREATEST));
    assert!(rt; NOTHING.at_most(width));
    assert!(rt; width.at_most(GREATEST));
    Patch::new(alloc, bx, width).expect(rt, "memory")
}

fn value(rt: &impl Abort, patch: &Patch, x: IVec) -> u32 {
    assert!(rt; contains(patch.over(), x));
    patch.get(x)
}

fn packed(rt: &impl Abort, alloc: Global, patch: &Patch, region: IBox) -> Vec<u32> {
    assert!(rt; holds_box(patch.over(), region));
    patch.pack(alloc, region).expect(rt, "memory")
}

/// The number of cells of a part of a box.
fn count(whole: IBox, part: IBox) -> u64
    requires inside { IsTrue (holds_box whole part) }
    requires few { cells_of whole < 2 ^ 62 }
    ensures { result ≡ cells_of part }
{
    let _ = &part.lo;
    cells(part)
}

fn unpack(rt: &impl Abort, patch: &mut Patch, region: IBox, values: &[u32]) {
    let whole = patch.over();
    assert!(rt; holds_box(whole, region));
    assert!(rt; count(whole, region) == values.len() as u64);
    patch.unpack(region, values);
}

fn copy(rt: &impl Abort, to: &mut Patch, from: &Patch, region: IBox, by: IVec) {
    assert!(rt; holds_box(to.over(), region));
    assert!(rt; LEAST.at_most(by));
    assert!(rt; by.at_most(GREATEST));
    let back = IBox::new(region.lo.minus(by), region.hi.minus(by)).expect(rt, "a box");
    assert!(rt; holds_box(from.over(), back));
    to.copy_region(from, region, by);
}

/// The last digit of a number from -10 on, counted upwards from there.
fn digit(n: i64) -> u32
    ensures { result < 10 }
{
    (n.abs_diff(-10) % 10) as u32
}

/// A value that tells the cell.
fn told(x: IVec) -> u32 {
    digit(x.i) + 10 * digit(x.j) + 100 * digit(x.k)
}

/// Writes into each cell of a patch a value that tells the cell.
fn fill(patch: &mut Patch) {
    let whole = patch.over();
    patch.write_cells(whole, told);
}

/// Writes 5 into each cell.
fn fill_alike(patch: &mut Patch) {
    let whole = patch.over();
    patch.write_cells(whole, |_x| 5);
}

#[test]
fn packs_what_was_set(rt: HostRuntime) -> Result<(), Fail> {
    let alloc = rt.alloc();
    let bx = between(&rt, (0, 0, 0), (1, 0, 0));
    let mut two = patch(&rt, alloc, bx, NOTHING);
    let last = IVec::new(1, 0, 0);
    assert!(rt; contains(two.over(), last));
    two.set(last, 7);
    assert_eq!(rt; packed(&rt, alloc, &two, bx).as_slice(), [0, 7].as_slice());
    Ok(())
}

#[test]
fn unpacks_by_cell(rt: HostRuntime) -> Result<(), Fail> {
    let alloc = rt.alloc();
    let bx = between(&rt, (0, 0, 0), (1, 0, 0));
    let mut two = patch(&rt, alloc, bx, NOTHING);
    unpack(&rt, &mut two, bx, &[3, 4]);
    assert_eq!(rt; value(&rt, &two, IVec::new(0, 0, 0)), 3);
    assert_eq!(rt; value(&rt, &two, IVec::new(1, 0, 0)), 4);
    Ok(())
}

#[test]
fn packs_i_fastest_then_j_then_k(rt: HostRuntime) -> Result<(), Fail> {
    let alloc = rt.alloc();
    let bx = between(&rt, (0, 0, 0), (1, 1, 1));
    let mut cube = patch(&rt, alloc, bx, IVec::new(1, 2, 3));
    fill(&mut cube);
    let inner = packed(&rt, alloc, &cube, bx);
    assert_eq!(rt;
        inner.as_slice(),
        [0, 1, 10, 11, 100, 101, 110, 111].as_slice()
    );
    let corner = packed(&rt, alloc, &cube, between(&rt, (-1, -2, -3), (0, -2, -2)));
    assert_eq!(rt; corner.as_slice(), [789, 780, 889, 880].as_slice());
    Ok(())
}

#[test]
fn copies_with_a_step_on_each_axis(rt: HostRuntime) -> Result<(), Fail> {
    let alloc = rt.alloc();
    let mut from = patch(
        &rt,
        alloc,
        between(&rt, (0, 0, 0), (2, 2, 2)),
        IVec::alike(1),
    );
    fill(&mut from);
    let bx = between(&rt, (10, 20, 30), (12, 21, 31));
    let mut to = patch(&rt, alloc, bx, NOTHING);
    fill_alike(&mut to);
    let region = between(&rt, (11, 20, 30), (12, 20, 31));
    copy(&rt, &mut to, &from, region, IVec::new(12, 19, 31));
    let all = [5, 919, 910, 5, 5, 5, 5, 19, 10, 5, 5, 5];
    assert_eq!(rt; packed(&rt, alloc, &to, bx).as_slice(), all.as_slice());
    Ok(())
}

#[test]
fn unpacks_what_was_packed(rt: HostRuntime) -> Result<(), Fail> {
    let alloc = rt.alloc();
    let bx = between(&rt, (-1, 0, 2), (3, 2, 4));
    let mut from = patch(&rt, alloc, bx, IVec::new(2, 0, 1));
    fill(&mut from);
    let region = between(&rt, (-2, 1, 2), (1, 2, 4));
    let values = packed(&rt, alloc, &from, region);
    let mut to = patch(&rt, alloc, bx, IVec::new(2, 0, 1));
    unpack(&rt, &mut to, region, values.as_slice());
    assert_eq!(rt;
        packed(&rt, alloc, &to, region).as_slice(),
        values.as_slice()
    );
    let rows = [
        (IVec::new(-2, 1, 3), 318),
        (IVec::new(1, 2, 4), 421),
        (IVec::new(2, 2, 4), 0),
        (IVec::new(-3, 1, 3), 0),
    ];
    for (x, expected) in rows {
        assert_eq!(rt; value(&rt, &to, x), expected);
    }
    Ok(())
}
