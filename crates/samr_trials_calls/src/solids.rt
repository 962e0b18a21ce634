//! Cells and boxes on three axes, from triples of numbers.

use samr_box::{IBox, IVec};
use std::test::Fail;

/// The numbers of the axes i, j, k.
pub type Triple = (i64, i64, i64);

/// A box as its lower and its upper corner.
pub type Corners = (Triple, Triple);

/// No axis is periodic.
pub const NO_AXIS: (bool, bool, bool) = (false, false, false);

pub fn cell(x: Triple) -> IVec {
    IVec::new(x.0, x.1, x.2)
}

pub fn bx(corners: Corners) -> Result<IBox, Fail> {
    Ok(IBox::new(cell(corners.0), cell(corners.1)).ok_or("no box")?)
}
