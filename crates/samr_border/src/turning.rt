//! How many lengths of the domain lie between a cell and the cell to which it wraps.

ghost use Rattle.std.specs.Prelude.{◌≡◌};
ghost use Rattle.samr_box.specs.Vector.{at, minus, times};
ghost use Rattle.samr_box.specs.Space.{IsSpace, wrapped};
ghost use Rattle.samr_border.specs.Turns.{turns, IsNearFrame, IsShiftOf};

use samr_box::{Axis, Domain, IVec, Shift};

/// The lower corner of every domain.
const ORIGIN: IVec = IVec { k: 0, j: 0, i: 0 };

/// How many lengths of the domain lie between a cell and the cell to which it wraps, for a cell at
/// most one length outside of the frame: on each periodic axis -1 where the cell lies below 0, 1 where
/// it lies at the length or beyond, 0 else.
pub fn turns(d: &Domain, x: IVec) -> Shift
    ensures value { result ≡ turns d.now x }
    ensures home { IsNearFrame d.now x → minus x (times result d.now.size) ≡ wrapped d.now x }
    ensures shift { IsShiftOf d.now result }
{
    Shift {
        k: turn(d, Axis::K, x),
        j: turn(d, Axis::J, x),
        i: turn(d, Axis::I, x),
    }
}

/// The number of lengths on one axis.
fn turn(d: &Domain, axis: Axis, x: IVec) -> i8
    ensures value { result ≡ at axis (turns d.now x) }
    ensures space { IsSpace d.now }
{
    if !d.periodic.at(axis) {
        return 0;
    }
    if x.is_below(axis, ORIGIN) {
        return -1;
    }
    if x.is_below(axis, d.size) {
        return 0;
    }
    1
}
