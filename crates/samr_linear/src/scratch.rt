//! Scratch patches: coarse cells with those beside them.

ghost use Rattle.std.specs.Prelude.{◌≡◌, ◌<◌, true};
ghost use Rattle.samr_box.specs.Vector.{InRange, IsRatio};
ghost use Rattle.samr_data.specs.Grids.{over, value_at};
ghost use Rattle.samr_box.specs.Corners.{Holds};
ghost use Rattle.samr_linear.specs.Lin.{lin, IsPlace};
ghost use Rattle.samr_linear.specs.Scratches.{lower, upper, side, lows, highs, HasSides};

use crate::stencil::{RefinesLinearly, Stencil};
use samr_box::{Axis, Flags, IVec};
use samr_data::Patch;

/// The value of a cell beside another: 0 where the axis is not real.
fn side(scratch: &Patch, is_real: bool, x: IVec) -> u32
    requires { is_real ≡ true → Holds (over scratch.now) x }
    ensures { result ≡ side scratch.now is_real x }
{
    if !is_real {
        return 0;
    }
    scratch.get(x)
}

/// The next lower cell on an axis.
fn lower(c: IVec, axis: Axis) -> IVec
    requires { InRange c }
    ensures { result ≡ lower axis c }
{
    match axis {
        Axis::I => IVec { i: c.i - 1, ..c },
        Axis::J => IVec { j: c.j - 1, ..c },
        Axis::K => IVec { k: c.k - 1, ..c },
    }
}

/// The next upper cell on an axis.
fn upper(c: IVec, axis: Axis) -> IVec
    requires { InRange c }
    ensures { result ≡ upper axis c }
{
    match axis {
        Axis::I => IVec { i: c.i + 1, ..c },
        Axis::J => IVec { j: c.j + 1, ..c },
        Axis::K => IVec { k: c.k + 1, ..c },
    }
}

/// The values of the next lower cells.
fn lows(scratch: &Patch, real: Flags, c: IVec) -> [u32; 3]
    requires range { InRange c }
    requires sides { HasSides scratch.now real c }
    ensures { result ≡ lows scratch.now real c }
{
    let i = side(scratch, real.at(Axis::I), lower(c, Axis::I));
    let j = side(scratch, real.at(Axis::J), lower(c, Axis::J));
    let k = side(scratch, real.at(Axis::K), lower(c, Axis::K));
    [i, j, k]
}

/// The values of the next upper cells.
fn highs(scratch: &Patch, real: Flags, c: IVec) -> [u32; 3]
    requires range { InRange c }
    requires sides { HasSides scratch.now real c }
    ensures { result ≡ highs scratch.now real c }
{
    let i = side(scratch, real.at(Axis::I), upper(c, Axis::I));
    let j = side(scratch, real.at(Axis::J), upper(c, Axis::J));
    let k = side(scratch, real.at(Axis::K), upper(c, Axis::K));
    [i, j, k]
}

/// The value of a fine cell at an offset in a coarse cell of a scratch patch.
pub fn value_over<L: RefinesLinearly>(
    stencil: &Stencil<L>,
    real: Flags,
    scratch: &Patch,
    c: IVec,
    offset: IVec,
) -> u32
    requires range { InRange c }
    requires sides { HasSides scratch.now real c }
    requires value { value_at scratch.now c < stencil.now.modulus }
    requires place { IsPlace stencil.now.ratio offset }
    ensures { result ≡ lin stencil.now (value_at scratch.now c) (lows scratch.now real c) (highs scratch.now real c) offset }
{
    let v = scratch.get(c);
    let low = lows(scratch, real, c);
    let high = highs(scratch, real, c);
    stencil.value(v, low, high, offset)
}
