//! Boxes taken away from a list of boxes.

ghost use Rattle.std.specs.Prelude.{◌≡◌, ◌++◌, ℕ, ◌+◌, List, if◌then◌else◌, IfOk, OnOk};
ghost use Rattle.std.specs.List.{All};
ghost use Rattle.std.specs.Option.{option_to_list};
ghost use Rattle.samr_box.specs.declared.vector.IVec.{IVec};
ghost use Rattle.samr_box.specs.Corners.{IsBox, Meet, holds, level};
ghost use Rattle.samr_boxlist.specs.Covers.{cover, held};
ghost use Rattle.samr_boxlist.specs.Slabs.{slabs, without, subtracted, all_subtracted};

use samr_box::{Axis, IBox, boxes_meet};
use std::alloc::{AllocError as NoMemory, Global};

/// A list of boxes without the cells of another box. Each member that meets the box is replaced, on
/// axis i, then j, then k, by its slab below the box and its slab above it; the part that lies
/// level with the box on all axes is dropped. Other members stay.
pub fn subtract(alloc: Global, list: &[IBox], b: IBox) -> Result<Vec<IBox>, NoMemory>
    ensures value { IfOk result (λ v. v.items ≡ subtracted list.now b) }
    ensures cells { IfOk result (λ v. (x : IVec) → cover x v.items ≡ (if holds b x then 0 else cover x list.now)) }
    ensures boxes { IfOk result (λ v. All IsBox v.items) }
{
    let mut left = Vec::new(alloc);
    for a in list {
        push_without(*a, b, &mut left)?;
    }
    Ok(left)
}

/// A list of boxes without the cells of each of some boxes, taken away in turn.
pub fn subtract_each(alloc: Global, list: Vec<IBox>, boxes: &[IBox]) -> Result<Vec<IBox>, NoMemory>
    ensures value { IfOk result (λ v. v.items ≡ all_subtracted list.items boxes.now) }
    ensures cells { IfOk result (λ v. (x : IVec) → cover x v.items ≡ (if held x boxes.now then 0 else cover x list.items)) }
    ensures boxes { IfOk result (λ v. All IsBox list.items → All IsBox v.items) }
{
    let mut left = list;
    for b in boxes {
        left = subtract(alloc, left.as_slice(), *b)?;
    }
    Ok(left)
}

/// Adds what is left of one box without another.
fn push_without(a: IBox, b: IBox, left: &mut Vec<IBox>) -> Result<(), NoMemory>
    ensures ok { OnOk result (left.new.items ≡ left.old.items ++ without a b) }
    ensures boxes { IsBox a × IsBox b }
{
    if !boxes_meet(a, b) {
        left.push(a)?;
        return Ok(());
    }
    let rest = cut(Axis::I, a, b, left)?;
    let rest = cut(Axis::J, rest, b, left)?;
    cut(Axis::K, rest, b, left)?;
    Ok(())
}

/// Adds the slabs of one box below and above another on an axis, and gives the part that lies level
/// with it.
fn cut(axis: Axis, a: IBox, b: IBox, left: &mut Vec<IBox>) -> Result<IBox, NoMemory>
    requires { Meet a b }
    ensures slabs { OnOk result (left.new.items ≡ left.old.items ++ slabs axis a b) }
    ensures rest { IfOk result (λ rest. rest ≡ level axis a b) }
    ensures meets { IfOk result (λ rest. Meet rest b) }
{
    push_some(a.below(axis, b), left)?;
    push_some(a.above(axis, b), left)?;
    Ok(a.level(axis, b))
}

/// Adds a box, if there is one.
pub(crate) fn push_some(slab: Option<IBox>, left: &mut Vec<IBox>) -> Result<(), NoMemory>
    ensures { OnOk result (left.new.items ≡ left.old.items ++ option_to_list slab) }
{
    if let Some(slab) = slab {
        left.push(slab)?;
    }
    Ok(())
}
