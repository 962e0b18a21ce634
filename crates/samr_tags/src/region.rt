//! The parts of a box that lie near the image of another, and near a cell.

ghost use Rattle.std.specs.Prelude.{◌≡◌, pos};
ghost use Rattle.samr_box.specs.Vector.{alike, AtMost, InRange};
ghost use Rattle.samr_box.specs.Corners.{met};
ghost use Rattle.samr_tags.specs.Seeing.{about, spread};

use samr_box::{Domain, IBox, IVec, Shift};
use samr_level::Edge;

/// The cells that a box has between two corners, if there are any. The corners need not be those of a box.
fn between(b: IBox, lo: IVec, hi: IVec) -> Option<IBox>
    requires { AtMost lo hi }
    ensures { result ≡ met b (record { lo = lo; hi = hi }) }
{
    if !b.lo.at_most(hi) {
        return None;
    }
    if !lo.at_most(b.hi) {
        return None;
    }
    IBox::new(b.lo.greatest(lo), b.hi.least(hi))
}

/// The cells of an edge's base within a buffer of its head's image.
pub fn seen_region(e: Edge, frame: &Domain, buffer: IVec) -> Option<IBox>
    requires low { AtMost (alike (pos 0)) buffer }
    requires range { InRange buffer }
    ensures { result ≡ met e.base.bx (about frame.now buffer e) }
{
    let head = e.head.bx;
    let step = frame.offset(e.shift);
    between(
        e.base.bx,
        head.lo.plus(step).minus(buffer),
        head.hi.plus(step).plus(buffer),
    )
}

/// The cells of a box within a buffer of a cell that is seen at a shift.
pub fn spread_region(b: IBox, cell: IVec, s: Shift, frame: &Domain, buffer: IVec) -> Option<IBox>
    requires cell { InRange cell }
    requires low { AtMost (alike (pos 0)) buffer }
    requires range { InRange buffer }
    ensures { result ≡ met b (spread frame.now buffer s cell) }
{
    let here = cell.minus(frame.offset(s));
    between(b, here.minus(buffer), here.plus(buffer))
}
