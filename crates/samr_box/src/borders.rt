//! Beyond the borders of a domain: images of boxes, wrapped cells, clamped and mirrored coordinates.

ghost use Rattle.std.specs.Prelude.{◌≡◌, ◌↔◌, ℤ, pos, neg_ℤ, ◌+ℤ◌, ◌-ℤ◌, ◌*ℤ◌, ◌≤ℤ◌, ◌<ℤ◌, true, false, IsTrue};
ghost use Rattle.samr_box.specs.declared.vector.Axis.{Axis};
ghost use Rattle.samr_box.specs.declared.vector.IVec.{IVec};
ghost use Rattle.samr_box.specs.Vector.{at, plus, times};
ghost use Rattle.samr_box.specs.Corners.{Corners, IsBox, Holds, meets};
ghost use Rattle.samr_box.specs.Space.{flag, image, wrapped, IsRemainder, IsOutside, leaves, is_outside, clamped, mirrored};

use crate::{Axis, Domain, IBox, IVec, Shift};

/// The lower corner of every domain.
const ORIGIN: IVec = IVec { k: 0, j: 0, i: 0 };

/// The image of a box: moved by so many lengths of the domain on each axis.
pub fn shifted(b: IBox, d: &Domain, s: Shift) -> IBox
    requires { IsBox (image d.now b s) }
    ensures value { result ≡ image d.now b s }
    ensures cells { (x : IVec) → Holds result (plus x (times s d.now.size)) ↔ Holds b x }
{
    let step = d.offset(s);
    IBox {
        lo: b.lo.plus(step),
        hi: b.hi.plus(step),
    }
}

/// Whether a box has a cell in common with the image of another.
pub fn images_meet(d: &Domain, a: IBox, b: IBox, s: Shift) -> bool
    ensures value { result ≡ meets a (image d.now b s) }
    ensures cells { IsTrue result ↔ ((x : IVec) × Holds a x × Holds (image d.now b s) x) }
{
    let step = d.offset(s);
    if !a.lo.at_most(b.hi.plus(step)) {
        return false;
    }
    b.lo.plus(step).at_most(a.hi)
}

/// The cell with the remainder by the domain's length in place of each coordinate of a periodic
/// axis.
pub fn wrap(d: &Domain, x: IVec) -> IVec
    ensures value { result ≡ wrapped d.now x }
    ensures periodic { (axis : Axis) → flag axis d.now.periodic ≡ true → IsRemainder (at axis d.now.size) (at axis x) (at axis result) }
    ensures physical { (axis : Axis) → flag axis d.now.periodic ≡ false → at axis result ≡ at axis x }
{
    IVec {
        k: if d.periodic.k {
            x.k.rem_euclid(d.size.k)
        } else {
            x.k
        },
        j: if d.periodic.j {
            x.j.rem_euclid(d.size.j)
        } else {
            x.j
        },
        i: if d.periodic.i {
            x.i.rem_euclid(d.size.i)
        } else {
            x.i
        },
    }
}

/// Whether a cell leaves the domain on a physical axis.
pub fn is_outside(d: &Domain, x: IVec) -> bool
    ensures value { result ≡ is_outside d.now x }
    ensures means { IsTrue result ↔ IsOutside d.now x }
{
    if leaves(d, Axis::I, x) {
        return true;
    }
    if leaves(d, Axis::J, x) {
        return true;
    }
    leaves(d, Axis::K, x)
}

/// Whether an axis is physical and a cell leaves the domain on it.
fn leaves(d: &Domain, axis: Axis, x: IVec) -> bool
    ensures { result ≡ leaves axis d.now x }
{
    if d.periodic.at(axis) {
        return false;
    }
    if x.is_below(axis, ORIGIN) {
        return true;
    }
    !x.is_below(axis, d.size)
}

/// The coordinate of the border cell nearest to `x`, or `x` itself from 0 to below `len`.
pub fn clamp_axis(len: i64, x: i64) -> i64
    requires low { (pos 0 -ℤ len) ≤ℤ x }
    requires high { x <ℤ (len +ℤ len) }
    ensures value { result ≡ clamped len x }
    ensures inside { (pos 0 ≤ℤ result) × (result <ℤ len) }
{
    if x < 0 {
        return 0;
    }
    if x < len {
        return x;
    }
    len - 1
}

/// The coordinate as far inside the border as `x` is outside, or `x` itself from 0 to below `len`.
pub fn mirror_axis(len: i64, x: i64) -> i64
    requires low { (pos 0 -ℤ len) ≤ℤ x }
    requires high { x <ℤ (len +ℤ len) }
    ensures value { result ≡ mirrored len x }
    ensures inside { (pos 0 ≤ℤ result) × (result <ℤ len) }
{
    if x < 0 {
        return -1 - x;
    }
    if x < len {
        return x;
    }
    (len - 1) - (x - len)
}
