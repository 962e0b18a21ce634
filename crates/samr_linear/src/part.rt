//! Writing of a part of a patch from a scratch patch.

ghost use Rattle.std.specs.Prelude.{◌≡◌, pos, IsTrue};
ghost use Rattle.samr_box.specs.declared.vector.IVec.{IVec as Cell};
ghost use Rattle.samr_box.specs.Vector.{alike, AtMost, InRange};
ghost use Rattle.samr_box.specs.Corners.{Holds, holds_box};
ghost use Rattle.samr_data.specs.Grids.{over, written, copied};
ghost use Rattle.samr_ops.specs.Rules.{IsOffset};
ghost use Rattle.samr_fill.specs.Fill.{child};
ghost use Rattle.samr_linear.specs.Scratches.{over_cell, linear_at, CanTake};

use crate::scratch::value_over;
use crate::stencil::{RefinesLinearly, Stencil};
use samr_box::{Flags, IBox, IVec, Ratio, coarsen_cell};
use samr_data::Patch;

/// Where a cell lies in its coarse cell.
fn child_of(x: IVec, step: Ratio) -> IVec
    requires cell { InRange x }
    requires small { AtMost step (alike (pos 4)) }
    ensures value { result ≡ child x step }
    ensures offset { IsOffset result }
{
    x.minus(coarsen_cell(x, step).times(step.factors()))
}

/// The value of a fine cell from a scratch patch.
fn value_at<L: RefinesLinearly>(
    stencil: &Stencil<L>,
    real: Flags,
    scratch: &Patch,
    step: Ratio,
    offset: IVec,
    x: IVec,
) -> u32
    requires real { real ≡ stencil.now.real }
    requires takes { CanTake stencil.now scratch.now step offset x }
    ensures { result ≡ linear_at stencil.now scratch.now step offset x }
{
    let c = coarsen_cell(x, step).plus(offset);
    value_over(stencil, real, scratch, c, child_of(x, step))
}

/// Writes the values of a part of a patch.
pub fn write_linear<L: RefinesLinearly>(
    patch: &mut Patch,
    stencil: &Stencil<L>,
    real: Flags,
    scratch: &Patch,
    step: Ratio,
    offset: IVec,
    region: IBox,
)
    requires into { IsTrue (holds_box (over patch.old) region) }
    requires real { real ≡ stencil.now.real }
    requires takes { (x : Cell) → Holds region x → CanTake stencil.now scratch.now step offset x }
    ensures { patch.new ≡ written patch.old (copied patch.old region (linear_at stencil.now scratch.now step offset)) }
{
    let _ = &region.lo;
    patch.write_cells(
        region,
        |x: IVec| -> u32
            requires real { real ≡ stencil.now.real }
            requires takes { CanTake stencil.now scratch.now step offset x }
            ensures { result ≡ linear_at stencil.entry.now scratch.entry.now step offset x }
        { value_at(stencil, real, scratch, step, offset, x) },
    );
}
