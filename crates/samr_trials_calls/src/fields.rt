//! Boxes in a plane, and tag fields, as several modules try them.

use samr_box::{IBox, IVec, holds_box};
use samr_sign::TagField;
use std::alloc::Global;
use std::process::Abort;

/// The box of these corners in the plane where `k` is 0.
pub fn flat(rt: &impl Abort, first: (i64, i64), last: (i64, i64)) -> IBox {
    IBox::new(IVec::new(first.0, first.1, 0), IVec::new(last.0, last.1, 0)).expect(rt, "a box")
}

/// A field of a box with these regions tagged.
pub fn field(rt: &impl Abort, alloc: Global, bx: IBox, regions: &[IBox]) -> TagField {
    let mut field = TagField::new(alloc, bx).expect(rt, "memory");
    for region in regions {
        if holds_box(field.bx(), *region) {
            field.mark(*region);
        }
    }
    field
}
