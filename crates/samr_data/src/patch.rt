//! Patches: values of the cells of a box, read, written, copied and packed.

ghost use Rattle.std.specs.Prelude.{◌≡◌, ℕ, ◌<◌, ◌^◌, pos, length, IsTrue, IfOk, IfSome};
ghost use Rattle.samr_box.specs.declared.vector.IVec.{IVec as Cell};
ghost use Rattle.samr_box.specs.Vector.{alike, AtMost};
ghost use Rattle.samr_box.specs.Corners.{IsBox, Holds, holds_box, cells_of, grown};
ghost use Rattle.samr_data.specs.Places.{moved_back, one_cell};
ghost use Rattle.samr_data.specs.Values.{listed, moved_from, value_in};
ghost use Rattle.samr_data.specs.Grids.{IsGrid, over, value_at, grid_of, written, copied, moved_values, packed};

use crate::places::place;
use crate::rows::copy_box;
use crate::writes::write_box;
use samr_box::{Axis, IBox, IVec, grow};
use std::alloc::{AllocError as NoMemory, Global};
use std::marker::Model;

/// The values of a field on a box and its ghost cells.
#[derive(Debug, Drop)]
pub struct Patch {
    /// The box.
    pub bx: IBox,
    /// How many ghost cells stand on each side, for each axis.
    pub width: IVec,
    values: Vec<u32>,
}

impl Model for Patch {
    ghost use Rattle.samr_data.specs.Grids.{Grid, IsGrid};

    ghost Value = { Grid };

    ghost view = { λ p. record { bx = p.bx; width = p.width; values = p.values.items } };

    ghost invariant = { λ p. IsGrid (record { bx = p.bx; width = p.width; values = p.values.items }) };
}

impl Patch {
    /// A patch of zeros.
    ///
    /// # Errors
    ///
    /// Where there is not enough memory, as for 2^62 cells or more.
    pub fn new(alloc: Global, bx: IBox, width: IVec) -> Result<Patch, NoMemory>
        requires positive { AtMost (alike (pos 0)) width }
        requires whole { IsBox (grown bx width) }
        ensures { IfOk result (λ p. p ≡ grid_of bx width (λ _. 0)) }
    {
        let values = zeros(alloc, grow(bx, width))?;
        Ok(Patch { bx, width, values })
    }

    /// The box grown by the width: the cells that have a value.
    pub fn over(&self) -> IBox
        ensures value { result ≡ over self.now }
        ensures grid { IsGrid self.now }
    {
        grow(self.bx, self.width)
    }

    /// The value of a cell.
    pub fn get(&self, x: IVec) -> u32
        requires { Holds (over self.now) x }
        ensures { result ≡ value_at self.now x }
    {
        self.values[place(self.over(), x)]
    }

    /// Writes the value of a cell; all others stay.
    pub fn set(&mut self, x: IVec, v: u32)
        requires { Holds (over self.old) x }
        ensures { self.new ≡ written self.old (copied self.old (one_cell x) (λ _. v)) }
    {
        let n = place(self.over(), x);
        self.values[n] = v;
    }

    /// Copies a region of another patch: each cell `x` of the region gets the value of `x - by`
    /// there; all others stay.
    pub fn copy_region(&mut self, from: &Patch, region: IBox, by: IVec)
        requires into { IsTrue (holds_box (over self.old) region) }
        requires out { IsTrue (holds_box (over from.now) (moved_back region by)) }
        ensures { self.new ≡ written self.old (copied self.old region (moved_values from.now by)) }
    {
        let source = from.over();
        self.copy_values(from.values.as_slice(), source, region, by);
    }

    /// Copies values of another box, given in row order.
    fn copy_values(&mut self, from: &[u32], source: IBox, region: IBox, by: IVec)
        requires into { IsTrue (holds_box (over self.old) region) }
        requires full { length from.now ≡ cells_of source }
        requires few { cells_of source < 2 ^ 62 }
        requires out { IsTrue (holds_box source (moved_back region by)) }
        ensures { self.new ≡ written self.old (copied self.old region (moved_from source from.now by)) }
    {
        let at = self.over();
        copy_box(self.values.as_mut_slice(), at, from, source, region, by);
    }

    /// The values of a region, `i` fastest, then `j`, then `k`.
    ///
    /// # Errors
    ///
    /// Where there is not enough memory.
    pub fn pack(&self, alloc: Global, region: IBox) -> Result<Vec<u32>, NoMemory>
        requires { IsTrue (holds_box (over self.now) region) }
        ensures { IfOk result (λ v. v.items ≡ packed self.now region) }
    {
        let _ = &region.lo;
        let at = self.over();
        let still = IVec::alike(0);
        let mut out = zeros(alloc, region)?;
        copy_box(
            out.as_mut_slice(),
            region,
            self.values.as_slice(),
            at,
            region,
            still,
        );
        Ok(out)
    }

    /// Writes the values of a region, given as `pack` gives them; all other cells stay.
    pub fn unpack(&mut self, region: IBox, values: &[u32])
        requires into { IsTrue (holds_box (over self.old) region) }
        requires full { length values.now ≡ cells_of region }
        ensures { self.new ≡ written self.old (copied self.old region (value_in region values.now)) }
    {
        let _ = &region.lo;
        let _ = &self.bx;
        self.copy_values(values, region, region, IVec::alike(0));
    }

    /// Writes what a function gives for each cell of a region; all other cells stay.
    pub fn write_cells<F: Fn(IVec) -> u32>(&mut self, region: IBox, f: F)
        requires into { IsTrue (holds_box (over self.old) region) }
        requires can { (x : Cell) → Holds region x → F.pre f x }
        ensures { (value : Cell → ℕ) → ((x : Cell) (v : ℕ) → Holds region x → F.post f x v → v ≡ value x)
            → self.new ≡ written self.old (copied self.old region value) }
    {
        let at = self.over();
        write_box(self.values.as_mut_slice(), at, region, f);
    }
}

/// The number of cells of a box; `None` where it is 2^62 or more.
fn cell_count(b: IBox) -> Option<usize>
    ensures { IfSome result (λ n. record { value : n ≡ cells_of b; few : n < 2 ^ 62 }) }
{
    let plane = u128::from(b.length(Axis::I)) * u128::from(b.length(Axis::J));
    let count = plane * u128::from(b.length(Axis::K));
    if count >= 1 << 62 {
        return None;
    }
    Some(count as usize)
}

/// A zero for each cell of a box.
fn zeros(alloc: Global, b: IBox) -> Result<Vec<u32>, NoMemory>
    ensures values { IfOk result (λ v. v.items ≡ listed b (λ _. 0)) }
    ensures few { IfOk result (λ _. cells_of b < 2 ^ 62) }
{
    match cell_count(b) {
        Some(count) => {
            let values = vec![in alloc; 0u32; count]?;
            Ok(values)
        }
        None => Err(NoMemory),
    }
}
