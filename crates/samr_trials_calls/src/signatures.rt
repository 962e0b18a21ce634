//! Worked rows of tag fields, of their signatures and of the decisions on these.

use crate::fields::{field, flat};
use samr_box::{Axis, IBox};
use samr_sign::{CutRule, Decision, Signature, TagField, decide};
use std::alloc::Global;
use std::process::Abort;
use std::test::Fail;

/// The signature of a box of at most 1,000 planes on each axis, for one field.
#[tactic(auto, using(samr_sign::proofs::Rows::few_cells, samr_sign::proofs::Rows::one_apart))]
fn signature(rt: &impl Abort, alloc: Global, bx: IBox, field: &TagField) -> Signature {
    assert!(rt; bx.length(Axis::I) <= 1_000);
    assert!(rt; bx.length(Axis::J) <= 1_000);
    assert!(rt; bx.length(Axis::K) <= 1_000);
    Signature::of(alloc, bx, std::slice::from_ref(field)).expect(rt, "memory")
}

/// Regions of tags of a box, the efficiency, and what becomes of parts of the box.
fn decisions(rt: &impl Abort, alloc: Global) {
    let few = flat(rt, (0, 0), (4, 1));
    let left = flat(rt, (0, 0), (1, 1));
    let right = flat(rt, (2, 0), (4, 1));
    let last = flat(rt, (4, 0), (4, 1));
    let gap = field(rt, alloc, few, &[left, last]);
    let many = flat(rt, (0, 0), (5, 3));
    let full = flat(rt, (0, 0), (2, 3));
    let rest = flat(rt, (3, 0), (5, 3));
    let low = flat(rt, (3, 0), (5, 0));
    let step = field(rt, alloc, many, &[full, low]);
    let empty = field(rt, alloc, few, &[]);
    let rows = [
        (&gap, few, 70, Decision::Split(left, right)),
        (&gap, left, 70, Decision::Accept(left)),
        (&gap, right, 70, Decision::Accept(last)),
        (&step, many, 80, Decision::Split(full, rest)),
        (&step, full, 80, Decision::Accept(full)),
        (&step, rest, 80, Decision::Accept(low)),
        (&empty, few, 70, Decision::Drop),
    ];
    for (field, bx, efficiency, decision) in rows {
        let rule = CutRule {
            efficiency,
            smallest: 1,
        };
        assert_eq!(rt;
            decide(&signature(rt, alloc, bx, field), &rule),
            decision,
            "{bx:?}"
        );
    }
}

/// A field with rows of two words.
fn long_rows(rt: &impl Abort, alloc: Global) {
    let bx = flat(rt, (0, 0), (99, 2));
    let long = field(rt, alloc, bx, &[flat(rt, (60, 1), (69, 2))]);
    let row = [0, 0, 15 << 60, 63, 15 << 60, 63];
    assert_eq!(rt; long.words(), row.as_slice());
    assert_eq!(rt; long.count(flat(rt, (-5, 2), (64, 7))), 5);
    let s = signature(rt, alloc, bx, &long);
    assert_eq!(rt; s.counts(Axis::J), [0, 10, 10].as_slice());
    assert_eq!(rt; s.counts(Axis::K), [20].as_slice());
}

#[test]
fn fields(rt: HostRuntime) -> Result<(), Fail> {
    let bx = flat(&rt, (0, 0), (1, 1));
    let tagged = field(&rt, rt.alloc(), bx, &[flat(&rt, (1, 0), (1, 0))]);
    assert_eq!(rt; tagged.words(), [2, 0].as_slice());
    let s = signature(&rt, rt.alloc(), bx, &tagged);
    assert_eq!(rt; s.counts(Axis::I), [0, 1].as_slice());
    assert_eq!(rt; s.counts(Axis::J), [1, 0].as_slice());
    assert_eq!(rt; s.total(), 1);
    long_rows(&rt, rt.alloc());
    Ok(())
}

#[test]
fn decided(rt: HostRuntime) -> Result<(), Fail> {
    decisions(&rt, rt.alloc());
    Ok(())
}
