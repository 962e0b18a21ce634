//! Boxes in a plane and lists of them, or a failure of the test where there is none.

use samr_box::{IBox, IVec};
use std::alloc::Global;
use std::test::Fail;

/// The first and the last cell of a box in the plane where `k` is 0, each by `i` and `j`.
pub type Corners = ((i64, i64), (i64, i64));

/// The box of these corners.
pub fn flat(row: Corners) -> Result<IBox, Fail> {
    let (first, last) = row;
    let lo = IVec::new(first.0, first.1, 0);
    let hi = IVec::new(last.0, last.1, 0);
    Ok(IBox::new(lo, hi).ok_or("no box")?)
}

/// Boxes of these corners.
pub fn flats(alloc: Global, rows: &[Corners]) -> Result<Vec<IBox>, Fail> {
    let mut list = Vec::new(alloc);
    for row in rows {
        list.push(flat(*row)?)?;
    }
    Ok(list)
}
