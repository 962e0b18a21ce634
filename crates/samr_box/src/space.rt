//! What a level lies in: truth values for each axis, ratios, shifts and domains.

ghost use Rattle.std.specs.Prelude.{◌≡◌, ◌↔◌, IsSome, IfSome, IsTrue, pos, ◌≤ℤ◌, ◌<ℤ◌};
ghost use Rattle.samr_box.specs.declared.vector.Axis.{Axis};
ghost use Rattle.samr_box.specs.declared.vector.IVec.{IVec};
ghost use Rattle.samr_box.specs.Corners.{Holds};
ghost use Rattle.samr_box.specs.Vector.{at, alike, times, IsRatio, IsShift, InRange};
ghost use Rattle.samr_box.specs.Space.{IsSpace, whole, finer, flag, is_zero, opposite};

use crate::{Axis, IBox, IVec};
use std::marker::Model;

/// The number 1 on each axis.
const ONES: IVec = IVec { k: 1, j: 1, i: 1 };

/// The greatest factors of a ratio.
const GREATEST_FACTORS: IVec = IVec {
    k: 256,
    j: 256,
    i: 256,
};

/// The greatest lengths of a domain.
const GREATEST_LENGTHS: IVec = IVec {
    k: 1_073_741_824,
    j: 1_073_741_824,
    i: 1_073_741_824,
};

/// A truth value for each axis.
#[derive(Clone, Copy, Debug, PartialEq, Eq)]
pub struct Flags {
    pub k: bool,
    pub j: bool,
    pub i: bool,
}

impl Flags {
    /// The truth value of an axis.
    pub fn at(self, axis: Axis) -> bool
        ensures { result ≡ flag axis self }
    {
        match axis {
            Axis::I => self.i,
            Axis::J => self.j,
            Axis::K => self.k,
        }
    }
}

/// How many cells of a finer level lie along a cell of a coarser one, for each axis: 1 to 256.
#[derive(Clone, Copy, Debug, PartialEq, Eq)]
pub struct Ratio {
    pub k: i64,
    pub j: i64,
    pub i: i64,
}

impl Model for Ratio {
    ghost use Rattle.samr_box.specs.declared.vector.IVec.{IVec};
    ghost use Rattle.samr_box.specs.Vector.{IsRatio};

    ghost Value = { IVec };

    ghost view = { λ r. record { k = r.k; j = r.j; i = r.i } };

    ghost invariant = { λ r. IsRatio (record { k = r.k; j = r.j; i = r.i }) };

    ghost inverse = { λ v. record { k = v.k; j = v.j; i = v.i } };
}

impl Ratio {
    /// The ratio with these factors: `None` exactly where one is not between 1 and 256.
    pub fn new(i: i64, j: i64, k: i64) -> Option<Ratio>
        ensures some { IsSome result ↔ IsRatio (record { k = k; j = j; i = i }) }
        ensures value { IfSome result (λ r. r ≡ record { k = k; j = j; i = i }) }
    {
        let factors = IVec { k, j, i };
        if !ONES.at_most(factors) {
            return None;
        }
        if !factors.at_most(GREATEST_FACTORS) {
            return None;
        }
        Some(Ratio { k, j, i })
    }

    /// The factors of the axes.
    pub fn factors(self) -> IVec
        ensures value { result ≡ self }
        ensures ratio { IsRatio result }
    {
        IVec {
            k: self.k,
            j: self.j,
            i: self.i,
        }
    }
}

/// A number of domain lengths for each axis, -1 to 1: which periodic image of a box is meant.
/// Ordered by `k`, then `j`, then `i` (shift order).
#[derive(Clone, Copy, Debug, PartialEq, Eq, PartialOrd, Ord)]
pub struct Shift {
    pub k: i8,
    pub j: i8,
    pub i: i8,
}

impl Model for Shift {
    ghost use Rattle.samr_box.specs.declared.vector.IVec.{IVec};
    ghost use Rattle.samr_box.specs.Vector.{IsShift};

    ghost Value = { IVec };

    ghost view = { λ s. record { k = s.k; j = s.j; i = s.i } };

    ghost invariant = { λ s. IsShift (record { k = s.k; j = s.j; i = s.i }) };

    ghost inverse = { λ v. record { k = v.k; j = v.j; i = v.i } };
}

impl Shift {
    /// The shift by these numbers of lengths: `None` exactly where one is not -1, 0 or 1.
    pub fn new(i: i8, j: i8, k: i8) -> Option<Shift>
        ensures some { IsSome result ↔ IsShift (record { k = k; j = j; i = i }) }
        ensures value { IfSome result (λ s. s ≡ record { k = k; j = j; i = i }) }
    {
        if k < -1 || k > 1 {
            return None;
        }
        if j < -1 || j > 1 {
            return None;
        }
        if i < -1 || i > 1 {
            return None;
        }
        Some(Shift { k, j, i })
    }

    /// The numbers of lengths.
    pub fn lengths(self) -> IVec
        ensures value { result ≡ self }
        ensures shift { IsShift result }
    {
        IVec {
            k: self.k as i64,
            j: self.j as i64,
            i: self.i as i64,
        }
    }

    /// Whether the shift moves nothing.
    pub fn is_zero(self) -> bool
        ensures value { result ≡ is_zero self }
        ensures means { IsTrue result ↔ (self ≡ alike (pos 0)) }
    {
        if self.k != 0 {
            return false;
        }
        if self.j != 0 {
            return false;
        }
        self.i == 0
    }

    /// The shift that moves as far the other way.
    pub fn opposite(self) -> Shift
        ensures { result ≡ opposite self }
    {
        Shift {
            k: -self.k,
            j: -self.j,
            i: -self.i,
        }
    }
}

/// The domain of a level: lengths from the lower corner 0, 1 to 2^30 each, and which axes are
/// periodic; the others are physical.
#[derive(Clone, Copy, Debug, PartialEq, Eq)]
pub struct Domain {
    pub size: IVec,
    pub periodic: Flags,
}

impl Model for Domain {
    ghost use Rattle.samr_box.specs.Space.{Space, IsSpace};

    ghost Value = { Space };

    ghost view = { λ d. record { size = d.size; periodic = d.periodic } };

    ghost invariant = { λ d. IsSpace (record { size = d.size; periodic = d.periodic }) };

    ghost inverse = { λ v. record { size = v.size; periodic = v.periodic } };
}

impl Domain {
    /// The domain of these lengths: `None` exactly where one is not between 1 and 2^30.
    pub fn new(size: IVec, periodic: Flags) -> Option<Domain>
        ensures some { IsSome result ↔ IsSpace (record { size = size; periodic = periodic }) }
        ensures value { IfSome result (λ d. d ≡ record { size = size; periodic = periodic }) }
    {
        if !ONES.at_most(size) {
            return None;
        }
        if !size.at_most(GREATEST_LENGTHS) {
            return None;
        }
        Some(Domain { size, periodic })
    }

    /// How far a shift moves a cell.
    pub fn offset(&self, shift: Shift) -> IVec
        ensures value { result ≡ times shift self.now.size }
        ensures small { InRange result }
    {
        let lengths = shift.lengths();
        lengths.times(self.size)
    }

    /// The cells of the domain as a box.
    pub fn whole(&self) -> IBox
        ensures value { result ≡ whole self.now }
        ensures cells { (x : IVec) → Holds result x ↔ ((axis : Axis) → (pos 0 ≤ℤ at axis x) × (at axis x <ℤ at axis self.now.size)) }
    {
        IBox {
            lo: IVec::alike(0),
            hi: self.size.minus(ONES),
        }
    }

    /// The domain of a level that is finer by a ratio.
    pub fn finer(&self, r: Ratio) -> Domain
        requires { IsSpace (finer self.now r) }
        ensures { result ≡ finer self.now r }
    {
        Domain {
            size: self.size.times(r.factors()),
            periodic: self.periodic,
        }
    }
}
