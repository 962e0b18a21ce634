//! Cells and boxes in the index spaces of finer and coarser levels.

ghost use Rattle.std.specs.Prelude.{◌≡◌, ◌↔◌};
ghost use Rattle.samr_box.specs.declared.vector.IVec.{IVec};
ghost use Rattle.samr_box.specs.Vector.{IsRatio};
ghost use Rattle.samr_box.specs.Corners.{Corners, IsBox, Holds};
ghost use Rattle.samr_box.specs.Ratios.{coarse, last_child, refined, coarsened};

use crate::{IBox, IVec, Ratio};

/// The coarse cell in which a fine cell lies: each coordinate divided and rounded down, below 0
/// too.
pub fn coarsen_cell(x: IVec, r: Ratio) -> IVec
    ensures value { result ≡ coarse x r }
    ensures ratio { IsRatio r }
{
    IVec {
        k: x.k.div_euclid(r.k),
        j: x.j.div_euclid(r.j),
        i: x.i.div_euclid(r.i),
    }
}

/// The box in the index space of a finer level: the cells whose coarse cell lies in the box.
pub fn refine(b: IBox, r: Ratio) -> IBox
    requires { IsBox (refined b r) }
    ensures value { result ≡ refined b r }
    ensures cells { (x : IVec) → Holds result x ↔ Holds b (coarse x r) }
{
    let factors = r.factors();
    let rest = factors.minus(IVec::alike(1));
    IBox {
        lo: b.lo.times(factors),
        hi: b.hi.times(factors).plus(rest),
    }
}

/// The box in the index space of a coarser level: the coarse cells of the cells of the box.
pub fn coarsen(b: IBox, r: Ratio) -> IBox
    ensures value { result ≡ coarsened b r }
    ensures cells { (x : IVec) → Holds result x ↔ ((y : IVec) × Holds b y × (coarse y r ≡ x)) }
{
    IBox {
        lo: coarsen_cell(b.lo, r),
        hi: coarsen_cell(b.hi, r),
    }
}
