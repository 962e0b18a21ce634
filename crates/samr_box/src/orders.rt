//! The orders of cells, shifts and boxes.

ghost use Rattle.std.specs.Prelude.{◌≡◌};
ghost use Rattle.std.specs.Cmp.{IsTotalOrder};
ghost use Rattle.samr_box.specs.Orders.{cell_cmp, corner_cmp};

use crate::{IBox, IVec, Shift};
use std::cmp::Ordering;

/// The order of cells: by `k`, then `j`, then `i`. The same as `a.cmp(&b)`.
pub fn cell_order(a: IVec, b: IVec) -> Ordering
    ensures value { result ≡ cell_cmp a b }
    ensures total { IsTotalOrder cell_cmp }
{
    a.cmp(&b)
}

/// Shift order: by `k`, then `j`, then `i`. The same as `a.cmp(&b)`.
pub fn shift_order(a: Shift, b: Shift) -> Ordering
    ensures { result ≡ cell_cmp a b }
{
    a.cmp(&b)
}

/// Corner order: by lower corner, then upper corner. The same as `a.cmp(&b)`.
pub fn corner_order(a: IBox, b: IBox) -> Ordering
    ensures value { result ≡ corner_cmp a b }
    ensures total { IsTotalOrder corner_cmp }
{
    a.cmp(&b)
}
