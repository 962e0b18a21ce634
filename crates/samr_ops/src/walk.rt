//! The steps of a cell beyond a physical border to the cell inside that it stands for.

ghost use Rattle.std.specs.Prelude.{◌≡◌, pos, ◌≤ℤ◌, true};
ghost use Rattle.samr_box.specs.Vector.{at};
ghost use Rattle.samr_box.specs.Space.{leaves};
ghost use Rattle.samr_ops.specs.Walks.{depth, moved_in};

use samr_box::{Axis, Domain, IVec};

/// Whether an axis is physical and a cell leaves the domain on it.
pub fn leaves(d: &Domain, axis: Axis, x: IVec) -> bool
    ensures { result ≡ leaves axis d.now x }
{
    if d.periodic.at(axis) {
        return false;
    }
    if x.at(axis) < 0 {
        return true;
    }
    x.at(axis) >= d.size.at(axis)
}

/// How far beyond the border of an axis a cell lies.
pub fn depth(d: &Domain, axis: Axis, x: IVec) -> i64
    requires out { leaves axis d.now x ≡ true }
    requires near { depth axis d.now x ≤ℤ pos 1073741824 }
    ensures value { result ≡ depth axis d.now x }
    ensures positive { pos 1 ≤ℤ result }
{
    let place = x.at(axis);
    if place < 0 {
        return -place;
    }
    place - d.size.at(axis) + 1
}

/// The cell moved to a depth inside the border beyond which it lies on an axis.
pub fn moved_in(d: &Domain, axis: Axis, x: IVec, inside: i64) -> IVec
    requires low { pos 1 ≤ℤ inside }
    requires high { inside ≤ℤ pos 1073741824 }
    ensures { result ≡ moved_in axis d.now x inside }
{
    if x.at(axis) < 0 {
        return x.put(axis, inside - 1);
    }
    x.put(axis, d.size.at(axis) - inside)
}
