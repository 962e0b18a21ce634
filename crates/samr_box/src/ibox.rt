//! Boxes by their two corners: what two have in common, growing, and cutting in two.

ghost use Rattle.std.specs.Prelude.{◌≡◌, ◌↔◌, ◌+ℤ◌, ◌<ℤ◌, ◌≤ℤ◌, ◌*◌, ◌<◌, ◌≤◌, ◌^◌, pos, IsTrue, IsSome, IfSome, IsSomeAnd};
ghost use Rattle.samr_box.specs.declared.vector.Axis.{Axis};
ghost use Rattle.samr_box.specs.declared.vector.IVec.{IVec};
ghost use Rattle.samr_box.specs.Vector.{at, alike, AtMost, Within};
ghost use Rattle.samr_box.specs.Corners.{Corners, IsBox, Holds, Meet, span, cells_of, holds, holds_box, meets, met, grown, before, from_plane, below, above, level, longest_of};

use crate::{Axis, IVec};
use std::marker::Model;

/// The least corner that a box may have.
const LEAST: IVec = IVec {
    k: -1_073_741_824,
    j: -1_073_741_824,
    i: -1_073_741_824,
};

/// The greatest corner that a box may have.
const GREATEST: IVec = IVec {
    k: 1_073_741_824,
    j: 1_073_741_824,
    i: 1_073_741_824,
};

/// A box of cells, given by its two inclusive corners. It is never empty, and its coordinates lie
/// between -2^30 and 2^30. Ordered by lower corner, then upper corner (corner order).
#[derive(Clone, Copy, Debug, PartialEq, Eq, PartialOrd, Ord)]
pub struct IBox {
    pub lo: IVec,
    pub hi: IVec,
}

impl Model for IBox {
    ghost use Rattle.samr_box.specs.Corners.{Corners, IsBox};

    ghost Value = { Corners };

    ghost view = { λ b. record { lo = b.lo; hi = b.hi } };

    ghost invariant = { λ b. IsBox (record { lo = b.lo; hi = b.hi }) };

    ghost inverse = { λ v. record { lo = v.lo; hi = v.hi } };
}

impl IBox {
    /// The box with these corners: `None` exactly where a coordinate is out of range or `hi` is
    /// below `lo` on an axis.
    pub fn new(lo: IVec, hi: IVec) -> Option<IBox>
        ensures some { IsSome result ↔ IsBox (record { lo = lo; hi = hi }) }
        ensures value { IfSome result (λ b. b ≡ record { lo = lo; hi = hi }) }
    {
        if !LEAST.at_most(lo) {
            return None;
        }
        if !lo.at_most(hi) {
            return None;
        }
        if !hi.at_most(GREATEST) {
            return None;
        }
        Some(IBox { lo, hi })
    }

    /// The number of planes across an axis.
    pub fn length(self, axis: Axis) -> u64
        ensures value { result ≡ span axis self }
        ensures positive { 0 < result }
        ensures small { result < 2 ^ 32 }
        ensures whole { IsBox self }
    {
        match axis {
            Axis::I => (self.hi.i - self.lo.i + 1) as u64,
            Axis::J => (self.hi.j - self.lo.j + 1) as u64,
            Axis::K => (self.hi.k - self.lo.k + 1) as u64,
        }
    }

    /// The slab of this box below another that it meets, if there is one.
    pub fn below(self, axis: Axis, other: IBox) -> Option<IBox>
        requires { Meet self other }
        ensures value { result ≡ below axis self other }
        ensures cells { (x : IVec) → IsSomeAnd result (λ slab. Holds slab x) ↔ (Holds self x × (at axis x <ℤ at axis other.lo)) }
    {
        if !self.lo.is_below(axis, other.lo) {
            return None;
        }
        Some(IBox {
            lo: self.lo,
            hi: self.hi.just_before(axis, other.lo),
        })
    }

    /// The slab of this box above another that it meets, if there is one.
    pub fn above(self, axis: Axis, other: IBox) -> Option<IBox>
        requires { Meet self other }
        ensures value { result ≡ above axis self other }
        ensures cells { (x : IVec) → IsSomeAnd result (λ slab. Holds slab x) ↔ (Holds self x × (at axis other.hi <ℤ at axis x)) }
    {
        if !other.hi.is_below(axis, self.hi) {
            return None;
        }
        Some(IBox {
            lo: self.lo.just_after(axis, other.hi),
            hi: self.hi,
        })
    }

    /// The part of this box that lies level with another that it meets: neither below nor above it.
    pub fn level(self, axis: Axis, other: IBox) -> IBox
        requires { Meet self other }
        ensures value { result ≡ level axis self other }
        ensures cells { (x : IVec) → Holds result x ↔ (Holds self x × (at axis other.lo ≤ℤ at axis x) × (at axis x ≤ℤ at axis other.hi)) }
        ensures meets { Meet result other }
    {
        IBox {
            lo: self.lo.raised(axis, other.lo),
            hi: self.hi.lowered(axis, other.hi),
        }
    }
}

/// The number of cells of a box.
pub fn cells(b: IBox) -> u64
    requires { cells_of b < 2 ^ 63 }
    ensures value { result ≡ cells_of b }
{
    b.length(Axis::I) * b.length(Axis::J) * b.length(Axis::K)
}

/// Whether the box has the cell.
pub fn contains(b: IBox, x: IVec) -> bool
    ensures value { result ≡ holds b x }
    ensures means { IsTrue result ↔ Holds b x }
{
    if !b.lo.at_most(x) {
        return false;
    }
    x.at_most(b.hi)
}

/// Whether the box has every cell of another.
pub fn holds_box(b: IBox, part: IBox) -> bool
    ensures value { result ≡ holds_box b part }
    ensures means { IsTrue result ↔ ((x : IVec) → Holds part x → Holds b x) }
{
    if !b.lo.at_most(part.lo) {
        return false;
    }
    part.hi.at_most(b.hi)
}

/// Whether two boxes have a common cell.
pub fn boxes_meet(a: IBox, b: IBox) -> bool
    ensures value { result ≡ meets a b }
    ensures cells { IsTrue result ↔ ((x : IVec) × Holds a x × Holds b x) }
{
    if !a.lo.at_most(b.hi) {
        return false;
    }
    b.lo.at_most(a.hi)
}

/// The box of the common cells; `None` exactly where there are none.
pub fn meet(a: IBox, b: IBox) -> Option<IBox>
    ensures value { result ≡ met a b }
    ensures some { IsSome result ↔ Meet a b }
    ensures cells { (x : IVec) → IsSomeAnd result (λ c. Holds c x) ↔ (Holds a x × Holds b x) }
    ensures boxes { IfSome result IsBox }
{
    if !a.lo.at_most(b.hi) {
        return None;
    }
    if !b.lo.at_most(a.hi) {
        return None;
    }
    Some(IBox {
        lo: a.lo.greatest(b.lo),
        hi: a.hi.least(b.hi),
    })
}

/// The box with both corners moved outwards by a width: for a width that is not negative, the
/// cells within the width of a cell of the box.
pub fn grow(b: IBox, w: IVec) -> IBox
    requires { IsBox (grown b w) }
    ensures value { result ≡ grown b w }
    ensures cells { AtMost (alike (pos 0)) w → (x : IVec) → Holds result x ↔ ((y : IVec) × Holds b y × Within w y x) }
{
    IBox {
        lo: b.lo.minus(w),
        hi: b.hi.plus(w),
    }
}

/// The axis across which the box has the most planes, the first of i, j, k where several have.
pub fn longest(b: IBox) -> Axis
    ensures value { result ≡ longest_of b }
    ensures longest { (other : Axis) → span other b ≤ span result b }
{
    let i = b.length(Axis::I);
    let j = b.length(Axis::J);
    let k = b.length(Axis::K);
    if j <= i && k <= i {
        return Axis::I;
    }
    if k <= j {
        return Axis::J;
    }
    Axis::K
}

/// The two parts of a box: before a plane, and from it on.
pub fn split_at(b: IBox, axis: Axis, plane: i64) -> (IBox, IBox)
    requires low { at axis b.lo <ℤ plane }
    requires high { plane ≤ℤ at axis b.hi }
    ensures before { result.0 ≡ before axis b plane }
    ensures from { result.1 ≡ from_plane axis b plane }
    ensures cells_before { (x : IVec) → Holds result.0 x ↔ (Holds b x × (at axis x <ℤ plane)) }
    ensures cells_from { (x : IVec) → Holds result.1 x ↔ (Holds b x × (plane ≤ℤ at axis x)) }
{
    let first = IBox {
        lo: b.lo,
        hi: b.hi.put(axis, plane - 1),
    };
    let second = IBox {
        lo: b.lo.put(axis, plane),
        hi: b.hi,
    };
    (first, second)
}

/// The two parts of a box: so many planes, and the rest.
pub fn split_after(b: IBox, axis: Axis, count: u64) -> (IBox, IBox)
    requires some { 0 < count }
    requires rest { count < span axis b }
    ensures before { result.0 ≡ before axis b (at axis b.lo +ℤ pos count) }
    ensures from { result.1 ≡ from_plane axis b (at axis b.lo +ℤ pos count) }
    ensures cells_before { (x : IVec) → Holds result.0 x ↔ (Holds b x × (at axis x <ℤ (at axis b.lo +ℤ pos count))) }
    ensures cells_from { (x : IVec) → Holds result.1 x ↔ (Holds b x × ((at axis b.lo +ℤ pos count) ≤ℤ at axis x)) }
{
    let plane = b.lo.ahead(axis, count);
    let first = IBox {
        lo: b.lo,
        hi: b.hi.just_before(axis, plane),
    };
    let second = IBox {
        lo: plane,
        hi: b.hi,
    };
    (first, second)
}
