//! Widths in cells of a finer and of a coarser level.

ghost use Rattle.std.specs.Prelude.{◌≡◌};
ghost use Rattle.samr_box.specs.declared.vector.IVec.{IVec};
ghost use Rattle.samr_box.specs.Vector.{AtMost, times, InRange};
ghost use Rattle.samr_level.specs.Overlaps.{rounded_up};

use samr_box::{IVec, Ratio, coarsen_cell};

/// A width in cells of a level, in cells of the level that is finer by the ratio.
pub fn fine_width(w: IVec, r: Ratio) -> IVec
    requires { InRange w }
    ensures { result ≡ times w r }
{
    w.times(r.factors())
}

/// A width in cells of a level, in cells of the level that is coarser by the ratio, rounded up: the
/// least width there that covers it.
pub fn coarse_width(w: IVec, r: Ratio) -> IVec
    requires { InRange w }
    ensures value { result ≡ rounded_up w r }
    ensures covers { AtMost w (times result r) }
    ensures least { (v : IVec) → AtMost w (times v r) → AtMost result v }
{
    let rest = r.factors().minus(IVec::alike(1));
    coarsen_cell(w.plus(rest), r)
}
