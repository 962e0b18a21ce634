//! Boxes cut into pieces of at most so many planes.

ghost use Rattle.std.specs.Prelude.{◌≡◌, [], ◌∷◌, ◌++◌, ℕ, ◌+◌, ◌<◌, pos, ◌≤ℤ◌, unsigned_abs, List, IfOk, OnOk};
ghost use Rattle.std.specs.List.{All};
ghost use Rattle.samr_box.specs.declared.vector.IVec.{IVec};
ghost use Rattle.samr_box.specs.Corners.{IsBox};
ghost use Rattle.samr_boxlist.specs.Covers.{cover};
ghost use Rattle.samr_boxlist.specs.Pieces.{pieces, chopped_on, chopped};

use samr_box::{Axis, IBox, split_after};
use std::alloc::{AllocError as NoMemory, Global};

/// The members cut along i, then j, then k into pieces of `most` planes, of which the last one may
/// be smaller.
pub fn chopped(alloc: Global, list: &[IBox], most: i64) -> Result<Vec<IBox>, NoMemory>
    requires { pos 1 ≤ℤ most }
    ensures value { IfOk result (λ v. v.items ≡ chopped (unsigned_abs most) list.now) }
    ensures cells { IfOk result (λ v. (x : IVec) → cover x v.items ≡ cover x list.now) }
    ensures boxes { IfOk result (λ v. All IsBox v.items) }
{
    let most = most as u64;
    let slabs = chopped_on(alloc, list, Axis::I, most)?;
    let bars = chopped_on(alloc, slabs.as_slice(), Axis::J, most)?;
    chopped_on(alloc, bars.as_slice(), Axis::K, most)
}

/// The members cut along one axis.
fn chopped_on(alloc: Global, list: &[IBox], axis: Axis, most: u64) -> Result<Vec<IBox>, NoMemory>
    requires { 0 < most }
    ensures value { IfOk result (λ v. v.items ≡ chopped_on axis most list.now) }
    ensures cells { IfOk result (λ v. (x : IVec) → cover x v.items ≡ cover x list.now) }
    ensures boxes { IfOk result (λ v. All IsBox v.items) }
{
    let mut parts = Vec::new(alloc);
    for b in list {
        push_pieces(*b, axis, most, &mut parts)?;
    }
    Ok(parts)
}

/// Adds the pieces of one box along an axis.
fn push_pieces(b: IBox, axis: Axis, most: u64, parts: &mut Vec<IBox>) -> Result<(), NoMemory>
    requires { 0 < most }
    ensures value { OnOk result (parts.new.items ≡ parts.old.items ++ pieces axis most b) }
    ensures cells { OnOk result ((x : IVec) → cover x parts.new.items ≡ cover x parts.old.items + cover x (b ∷ [])) }
    ensures boxes { OnOk result (All IsBox parts.old.items → All IsBox parts.new.items) }
{
    let mut rest = b;
    while rest.length(axis) > most {
        let (first, others) = split_after(rest, axis, most);
        parts.push(first)?;
        rest = others;
    }
    parts.push(rest)?;
    Ok(())
}
