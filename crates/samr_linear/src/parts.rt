//! Parts of boxes: between corners, near an image, and moved back.

ghost use Rattle.std.specs.Prelude.{◌≡◌, pos, true, if◌then◌else◌};
ghost use Rattle.samr_box.specs.Vector.{alike, AtMost, Between, InRange, times};
ghost use Rattle.samr_box.specs.Corners.{IsBox, met, grown, holds_box};
ghost use Rattle.samr_box.specs.Space.{image};
ghost use Rattle.samr_data.specs.Places.{moved_back};
ghost use Rattle.samr_linear.specs.Around.{one_around};

use samr_box::{Domain, Flags, IBox, IVec, Shift};

/// The part of a box that lies between two corners, if there is one.
pub fn part_of(b: IBox, lo: IVec, hi: IVec) -> Option<IBox>
    requires { AtMost lo hi }
    ensures { result ≡ met b (record { lo = lo; hi = hi }) }
{
    if !b.lo.at_most(hi) {
        return None;
    }
    if !lo.at_most(b.hi) {
        return None;
    }
    Some(IBox {
        lo: b.lo.greatest(lo),
        hi: b.hi.least(hi),
    })
}

/// The cells of a box that lie in or about the image of another.
pub fn near_image(b: IBox, d: &Domain, head: IBox, shift: Shift, width: IVec) -> Option<IBox>
    requires { Between (alike (pos 0)) width (alike (pos 2147483648)) }
    ensures { result ≡ met b (grown (image d.now head shift) width) }
{
    let step = d.offset(shift);
    let lo = head.lo.plus(step).minus(width);
    let hi = head.hi.plus(step).plus(width);
    part_of(b, lo, hi)
}

/// The cells of a box that lie in another, moved back by a shift.
pub fn part_moved_back(b: IBox, d: &Domain, c: IBox, shift: Shift) -> Option<IBox>
    ensures { result ≡ met b (moved_back c (times shift d.now.size)) }
{
    let step = d.offset(shift);
    part_of(b, c.lo.minus(step), c.hi.minus(step))
}

/// 1 on a real axis, else 0.
fn one_if(is_real: bool) -> i64
    ensures { result ≡ (if is_real then pos 1 else pos 0) }
{
    if is_real { 1 } else { 0 }
}

/// One cell on each real axis.
pub fn one_around(real: Flags) -> IVec
    ensures { result ≡ one_around real }
{
    IVec {
        k: one_if(real.k),
        j: one_if(real.j),
        i: one_if(real.i),
    }
}

/// The cells of a box in a region or so many cells from it.
pub fn part_about(b: IBox, region: IBox, width: IVec) -> Option<IBox>
    requires { Between (alike (pos 0)) width (alike (pos 2147483648)) }
    ensures { result ≡ met b (grown region width) }
{
    part_of(b, region.lo.minus(width), region.hi.plus(width))
}

/// A box moved back by a step.
pub fn moved_back(b: IBox, step: IVec) -> IBox
    requires { IsBox (moved_back b step) }
    ensures { result ≡ moved_back b step }
{
    IBox {
        lo: b.lo.minus(step),
        hi: b.hi.minus(step),
    }
}
