//! Boxes in corner order.

ghost use Rattle.std.specs.Prelude.{◌≡◌, IfOk, IsPermutation, IsSorted};
ghost use Rattle.samr_box.specs.declared.vector.IVec.{IVec};
ghost use Rattle.samr_box.specs.Orders.{corner_cmp};
ghost use Rattle.samr_boxlist.specs.Covers.{cover};

use samr_box::IBox;
use std::alloc::{AllocError as NoMemory, Global};

/// The members in corner order.
pub fn in_corner_order(_alloc: Global, list: Vec<IBox>) -> Result<Vec<IBox>, NoMemory>
    ensures same { IfOk result (λ v. IsPermutation list.items v.items) }
    ensures sorted { IfOk result (λ v. IsSorted corner_cmp v.items) }
    ensures cells { IfOk result (λ v. (x : IVec) → cover x v.items ≡ cover x list.items) }
{
    let mut list = list;
    list.sort()?;
    Ok(list)
}
