//! Values of a function written into the cells of a region.

ghost use Rattle.std.specs.Prelude.{◌≡◌, ℕ, ◌<◌, ◌^◌, length, IsTrue};
ghost use Rattle.samr_box.specs.declared.vector.IVec.{IVec as Cell};
ghost use Rattle.samr_box.specs.Corners.{Holds, holds, holds_box, cells_of};
ghost use Rattle.samr_data.specs.Values.{changed_in, listed};

use crate::places::{cell_at, place};
use samr_box::{IBox, IVec, cells};

/// Writes what a function gives for each cell of a region.
pub fn write_box<F: Fn(IVec) -> u32>(to: &mut [u32], at: IBox, region: IBox, f: F)
    requires full { length to.old ≡ cells_of at }
    requires few { cells_of at < 2 ^ 62 }
    requires into { IsTrue (holds_box at region) }
    requires can { (x : Cell) → Holds region x → F.pre f x }
    ensures { (value : Cell → ℕ) → ((x : Cell) (v : ℕ) → Holds region x → F.post f x v → v ≡ value x)
        → to.new ≡ listed at (changed_in at to.old (holds region) value) }
{
    let _ = &region.lo;
    for n in 0..cells(region) {
        let x = cell_at(region, n);
        let v = f(x);
        to[place(at, x)] = v;
    }
}
