//! A test of the parcels that one rank has for another.

ghost use Rattle.std.specs.Prelude.{◌<◌};

use crate::sending::parcels_for;
use samr_box::{Domain, Flags, IBox, IVec, Listed, Ratio, Shift, coarsen_cell, holds_box};
use samr_data::{Parcel, Patch};
use samr_level::{BoxRef, Edge};
use samr_sched::{Asked, BoxPlan, FieldPlan, Plan, Request};
use std::alloc::Global;
use std::process::Abort;
use std::test::Fail;

/// A box of the plane k = 0.
fn plane(rt: &impl Abort, i: i64, j: i64, last_i: i64, last_j: i64) -> IBox {
    IBox::new(IVec::new(i, j, 0), IVec::new(last_i, last_j, 0)).expect(rt, "a box")
}

fn owned(rt: &impl Abort, owner: u16, i: i64, j: i64, last_i: i64, last_j: i64) -> BoxRef {
    BoxRef {
        owner,
        bx: plane(rt, i, j, last_i, last_j),
    }
}

fn frame(rt: &impl Abort, length: i64) -> Domain {
    let physical = Flags {
        k: false,
        j: false,
        i: false,
    };
    Domain::new(IVec::new(length, length, 1), physical).expect(rt, "a domain")
}

fn joined(rt: &impl Abort, base: BoxRef, head: BoxRef) -> Edge {
    Edge {
        base,
        head,
        shift: Shift::new(0, 0, 0).expect(rt, "a shift"),
    }
}

const WIDTH: IVec = IVec { k: 0, j: 1, i: 1 };

const NOTHING: IVec = IVec { k: 0, j: 0, i: 0 };

/// No test has a cell or a width beyond these.
const LEAST: IVec = IVec {
    k: -1_000,
    j: -1_000,
    i: -1_000,
};

const GREATEST: IVec = IVec {
    k: 1_000,
    j: 1_000,
    i: 1_000,
};

/// A number from 0 to 999, counted upwards from 0.
fn number(n: i64) -> u32
    ensures { result < 1000 }
{
    (n.abs_diff(0) % 1000) as u32
}

/// A value that tells the cell.
fn told(x: IVec) -> u32 {
    number(x.i) + 8 * number(x.j)
}

/// A patch of zeros.
fn zeros(rt: &impl Abort, alloc: Global, bx: IBox, width: IVec) -> Patch {
    assert!(rt; LEAST.at_most(bx.lo));
    assert!(rt; bx.hi.at_most(GREATEST));
    assert!(rt; NOTHING.at_most(width));
    assert!(rt; width.at_most(GREATEST));
    Patch::new(alloc, bx, width).expect(rt, "memory")
}

/// A patch of a box whose cells tell the cell over them, at a ratio.
fn patch(rt: &impl Abort, alloc: Global, bx: IBox, step: Ratio) -> Patch {
    let mut patch = zeros(rt, alloc, bx, WIDTH);
    assert!(rt; holds_box(patch.over(), bx));
    patch.write_cells(bx, |x| told(coarsen_cell(x, step)));
    patch
}

fn one_field(rt: &impl Abort, alloc: Global, patches: Vec<Patch>) -> Listed<Listed<Patch>> {
    let mut fields = Vec::new(alloc);
    fields.push(Listed::from_vec(patches)).expect(rt, "memory");
    Listed::from_vec(fields)
}

/// Requests along an edge, for these boxes.
fn requests(rt: &impl Abort, alloc: Global, edge: Edge, boxes: &[IBox]) -> Listed<Request> {
    let mut list = Vec::new(alloc);
    for bx in boxes {
        list.push(Request {
            edge,
            field: 0,
            bx: *bx,
        })
        .expect(rt, "memory");
    }
    Listed::from_vec(list)
}

fn list_of<T: Copy>(rt: &impl Abort, alloc: Global, items: &[T]) -> Listed<T> {
    Listed::from_vec(Vec::from_slice(alloc, items).expect(rt, "memory"))
}

fn plan_of(
    rt: &impl Abort,
    alloc: Global,
    rank: u16,
    near: u16,
    base: BoxRef,
    field: FieldPlan,
    others: Vec<Asked>,
) -> Plan {
    let mut fields = Vec::new(alloc);
    fields.push(field).expect(rt, "memory");
    let mut boxes = Vec::new(alloc);
    boxes
        .push(BoxPlan {
            base,
            fields: Listed::from_vec(fields),
        })
        .expect(rt, "memory");
    Plan {
        rank,
        frame: frame(rt, 16),
        below: frame(rt, 8),
        step: Ratio::new(2, 2, 1).expect(rt, "a ratio"),
        near: list_of(rt, alloc, &[near]),
        under: list_of(rt, alloc, &[0]),
        boxes: Listed::from_vec(boxes),
        others: Listed::from_vec(others),
        fixed: Listed::new(alloc),
    }
}

/// What rank 1 asks of rank 0: coarse cells about its box.
fn asked_by_1(rt: &impl Abort, alloc: Global) -> Listed<Request> {
    let edge = joined(rt, owned(rt, 1, 6, 6, 7, 9), owned(rt, 0, 0, 0, 7, 7));
    let boxes = [
        plane(rt, 2, 2, 2, 5),
        plane(rt, 3, 2, 3, 2),
        plane(rt, 4, 2, 4, 2),
        plane(rt, 3, 5, 3, 5),
        plane(rt, 4, 5, 4, 5),
    ];
    requests(rt, alloc, edge, boxes.as_slice())
}

/// The plan of rank 0, which owns the box at the right and all of level 0.
fn plan_0(rt: &impl Abort, alloc: Global) -> Plan {
    let base = owned(rt, 0, 8, 6, 9, 9);
    let copies = [joined(rt, base, owned(rt, 1, 6, 6, 7, 9))];
    let field = FieldPlan {
        width: WIDTH,
        inside: list_of(rt, alloc, &[plane(rt, 7, 5, 10, 10)]),
        copies: list_of(rt, alloc, copies.as_slice()),
        rest: Listed::new(alloc),
        asked: Listed::new(alloc),
    };
    let mut others = Vec::new(alloc);
    others
        .push(Asked {
            rank: 1,
            requests: asked_by_1(rt, alloc),
        })
        .expect(rt, "memory");
    plan_of(rt, alloc, 0, 1, base, field, others)
}

/// The values of parcels, one after another.
fn values_of(rt: &impl Abort, alloc: Global, parcels: &[Parcel]) -> Vec<u32> {
    let mut all = Vec::new(alloc);
    for parcel in parcels {
        all.extend_from_slice(parcel.values.as_slice())
            .expect(rt, "memory");
    }
    all
}

#[test]
fn copies_and_answers(rt: HostRuntime) -> Result<(), Fail> {
    let alloc = rt.alloc();
    let plan = plan_0(&rt, alloc);
    let step = Ratio::new(2, 2, 1).expect(&rt, "a ratio");
    let one = Ratio::new(1, 1, 1).expect(&rt, "a ratio");
    let mut fine = Vec::new(alloc);
    fine.push(patch(&rt, alloc, plane(&rt, 8, 6, 9, 9), step))?;
    let mut coarse = Vec::new(alloc);
    coarse.push(patch(&rt, alloc, plane(&rt, 0, 0, 7, 7), one))?;
    let own = one_field(&rt, alloc, fine);
    let below = one_field(&rt, alloc, coarse);
    let requests = asked_by_1(&rt, alloc);
    assert!(rt; own.as_slice().len() < 256);
    let parcels = parcels_for(
        alloc,
        &plan,
        own.as_slice(),
        below.as_slice(),
        1,
        requests.as_slice(),
    )?;
    let values = values_of(&rt, alloc, parcels.as_slice());
    let expected = [28, 28, 36, 36, 18, 26, 34, 42, 19, 20, 43, 44];
    assert_eq!(rt; values.as_slice(), expected.as_slice());
    Ok(())
}
