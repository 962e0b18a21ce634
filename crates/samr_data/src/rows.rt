//! Values copied from one box to another, row by row.

ghost use Rattle.std.specs.Prelude.{◌≡◌, ◌+◌, ◌≤◌, length};
ghost use Rattle.samr_box.specs.Corners.{holds};
ghost use Rattle.samr_data.specs.Places.{IsRow};
ghost use Rattle.samr_data.specs.Values.{CanCopy, changed_in, listed, moved_from, pasted};

use crate::places::{place, slice};
use samr_box::{Axis, IBox, IVec};

/// Copies so many values.
fn copy_slice(to: &mut [u32], first: usize, from: &[u32], start: usize, count: usize)
    requires to { first + count ≤ length to.old }
    requires from { start + count ≤ length from.now }
    ensures { to.new ≡ pasted to.old first from.now start count }
{
    to[first..first + count].copy_from_slice(&from[start..start + count]);
}

/// Copies the values of a row.
fn copy_row(to: &mut [u32], at: IBox, from: &[u32], source: IBox, row: IBox, by: IVec)
    requires can { CanCopy to.old at from.now source row by }
    requires flat { IsRow row }
    ensures { to.new ≡ listed at (changed_in at to.old (holds row) (moved_from source from.now by)) }
{
    let _ = &source.lo;
    let first = place(at, row.lo);
    let start = place(source, row.lo.minus(by));
    copy_slice(to, first, from, start, row.length(Axis::I) as usize);
}

/// Copies the values of a region of one plane, row by row.
fn copy_plane(to: &mut [u32], at: IBox, from: &[u32], source: IBox, region: IBox, by: IVec)
    requires can { CanCopy to.old at from.now source region by }
    requires flat { region.hi.k ≡ region.lo.k }
    ensures { to.new ≡ listed at (changed_in at to.old (holds region) (moved_from source from.now by)) }
{
    for y in 0..region.length(Axis::J) {
        copy_row(to, at, from, source, slice(region, Axis::J, y), by);
    }
}

/// Copies the values of a region from the values of another box: each cell `x` gets the value of
/// `x - by`.
pub fn copy_box(to: &mut [u32], at: IBox, from: &[u32], source: IBox, region: IBox, by: IVec)
    requires { CanCopy to.old at from.now source region by }
    ensures { to.new ≡ listed at (changed_in at to.old (holds region) (moved_from source from.now by)) }
{
    for z in 0..region.length(Axis::K) {
        copy_plane(to, at, from, source, slice(region, Axis::K, z), by);
    }
}
