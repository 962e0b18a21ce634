//! Tag fields: one bit for each cell of a box.

ghost use Rattle.std.specs.Prelude.{◌≡◌, ◌+◌, ◌*◌, ◌<◌, ◌≤◌, ◌^◌, ◌||◌, false, length, IsTrue, IfOk, IfSome};
ghost use Rattle.samr_box.specs.declared.vector.Axis.TheVariants.{I, J, K};
ghost use Rattle.samr_box.specs.declared.vector.IVec.{IVec};
ghost use Rattle.samr_box.specs.Corners.{Holds, holds, holds_box, span};
ghost use Rattle.samr_sign.specs.Counts.{offset, tally};
ghost use Rattle.samr_sign.specs.Fields.{row_words, words_of, place_at, place, tagged, IsRow, IsField};

use crate::planes::slice;
use samr_bits::{count_run, get_bit, set_run};
use samr_box::{Axis, IBox, IVec, meet};
use std::alloc::{AllocError as NoMemory, Global};
use std::marker::Model;

/// One tag for each cell of a box.
#[derive(Drop)]
pub struct TagField {
    bx: IBox,
    words: Vec<u64>,
}

impl Model for TagField {
    ghost use Rattle.samr_sign.specs.Fields.{Field, IsField};

    ghost Value = { Field };

    ghost view = { λ f. record { bx = f.bx; words = f.words.items } };

    ghost invariant = { λ f. IsField (record { bx = f.bx; words = f.words.items }) };
}

/// The number of words that a row of a box takes.
fn row_words(bx: IBox) -> usize
    ensures value { result ≡ row_words bx }
    ensures small { result < 2 ^ 27 }
{
    (bx.length(Axis::I) as usize).div_ceil(64)
}

/// The number of words that a box takes; `None` where it is 2^57 or more.
fn word_count(bx: IBox) -> Option<usize>
    ensures { IfSome result (λ n. record { value : n ≡ words_of bx; few : n < 2 ^ 57 }) }
{
    let rows = u128::from(bx.length(Axis::K)) * u128::from(bx.length(Axis::J));
    let count = rows * row_words(bx) as u128;
    if count >= 1 << 57 {
        return None;
    }
    Some(count as usize)
}

/// The bit `i` of row `j` of plane `k`, where a plane has so many rows and a row so many bits.
fn place_at(k: usize, j: usize, i: usize, rows: usize, bits: usize) -> usize
    requires some { 0 < bits }
    requires few { place_at k j i rows bits < 2 ^ 63 }
    ensures { result ≡ place_at k j i rows bits }
{
    (k * rows + j) * bits + i
}

/// The distance of a cell from the lowest plane of a box.
fn offset(bx: IBox, axis: Axis, x: IVec) -> usize
    ensures { result ≡ offset axis bx x }
{
    x.at(axis).abs_diff(bx.lo.at(axis)) as usize
}

/// The bit of a cell.
fn place(bx: IBox, x: IVec) -> usize
    requires inside { Holds bx x }
    requires few { words_of bx < 2 ^ 57 }
    ensures value { result ≡ place bx x }
    ensures within { result < 64 * words_of bx }
{
    let k = offset(bx, Axis::K, x);
    let j = offset(bx, Axis::J, x);
    let i = offset(bx, Axis::I, x);
    place_at(k, j, i, bx.length(Axis::J) as usize, 64 * row_words(bx))
}

impl TagField {
    /// A field of this box with no tag.
    ///
    /// # Errors
    ///
    /// Where there is not enough memory, as for 2^57 words or more.
    pub fn new(alloc: Global, bx: IBox) -> Result<TagField, NoMemory>
        ensures bx { IfOk result (λ f. f.bx ≡ bx) }
        ensures none { IfOk result (λ f. (x : IVec) → tagged f x ≡ false) }
    {
        match word_count(bx) {
            Some(count) => {
                let words = vec![in alloc; 0u64; count]?;
                Ok(TagField { bx, words })
            }
            None => Err(NoMemory),
        }
    }

    /// The box.
    pub fn bx(&self) -> IBox
        ensures value { result ≡ self.now.bx }
        ensures field { IsField self.now }
    {
        self.bx
    }

    /// The rows of the box, `j` fastest, then `k`: each begins a word, the lower `i` in the lower
    /// bit, with zeros behind its end.
    pub fn words(&self) -> &[u64]
        ensures { result.now ≡ self.now.words }
    {
        self.words.as_slice()
    }

    /// Whether a cell is tagged.
    pub fn get(&self, x: IVec) -> bool
        requires { Holds self.now.bx x }
        ensures { result ≡ tagged self.now x }
    {
        get_bit(self.words.as_slice(), place(self.bx, x))
    }

    /// Tags a cell, and leaves all others.
    pub fn set(&mut self, x: IVec)
        requires { Holds self.old.bx x }
        ensures bx { self.new.bx ≡ self.old.bx }
        ensures cells { (y : IVec) → tagged self.new y ≡ (holds (record { lo = x; hi = x }) y || tagged self.old y) }
    {
        let _ = &self.bx;
        self.mark_row(IBox { lo: x, hi: x });
    }

    /// Tags each cell of a region, and leaves all others.
    pub fn mark(&mut self, region: IBox)
        requires { IsTrue (holds_box self.old.bx region) }
        ensures bx { self.new.bx ≡ self.old.bx }
        ensures cells { (x : IVec) → tagged self.new x ≡ (holds region x || tagged self.old x) }
    {
        for z in 0..region.length(Axis::K) {
            self.mark_plane(slice(region, Axis::K, z));
        }
    }

    /// Tags each cell of a region of one plane.
    fn mark_plane(&mut self, region: IBox)
        requires inside { IsTrue (holds_box self.old.bx region) }
        requires flat { region.hi.k ≡ region.lo.k }
        ensures bx { self.new.bx ≡ self.old.bx }
        ensures cells { (x : IVec) → tagged self.new x ≡ (holds region x || tagged self.old x) }
    {
        for y in 0..region.length(Axis::J) {
            self.mark_row(slice(region, Axis::J, y));
        }
    }

    /// Tags each cell of a row.
    fn mark_row(&mut self, row: IBox)
        requires inside { IsTrue (holds_box self.old.bx row) }
        requires flat { IsRow row }
        ensures bx { self.new.bx ≡ self.old.bx }
        ensures cells { (x : IVec) → tagged self.new x ≡ (holds row x || tagged self.old x) }
    {
        let first = place(self.bx, row.lo);
        set_run(
            self.words.as_mut_slice(),
            first,
            row.length(Axis::I) as usize,
        );
    }

    /// The number of tagged cells of a region.
    pub fn count(&self, region: IBox) -> u64
        ensures { result ≡ tally (tagged self.now) region }
    {
        let _ = &region.lo;
        match meet(self.bx, region) {
            Some(part) => self.count_part(part),
            None => 0,
        }
    }

    /// The number of tagged cells of a part of the box.
    fn count_part(&self, part: IBox) -> u64
        requires inside { IsTrue (holds_box self.now.bx part) }
        requires few { tally (tagged self.now) part < 2 ^ 63 }
        ensures { result ≡ tally (tagged self.now) part }
    {
        let mut count = 0;
        for z in 0..part.length(Axis::K) {
            count += self.count_plane(slice(part, Axis::K, z));
        }
        count
    }

    /// The number of tagged cells of a part of one plane.
    fn count_plane(&self, part: IBox) -> u64
        requires inside { IsTrue (holds_box self.now.bx part) }
        requires flat { part.hi.k ≡ part.lo.k }
        requires few { tally (tagged self.now) part < 2 ^ 63 }
        ensures { result ≡ tally (tagged self.now) part }
    {
        let mut count = 0;
        for y in 0..part.length(Axis::J) {
            count += self.count_row(slice(part, Axis::J, y));
        }
        count
    }

    /// The number of tagged cells of a row.
    fn count_row(&self, row: IBox) -> u64
        requires inside { IsTrue (holds_box self.now.bx row) }
        requires flat { IsRow row }
        ensures { result ≡ tally (tagged self.now) row }
    {
        let first = place(self.bx, row.lo);
        count_run(self.words.as_slice(), first, row.length(Axis::I) as usize)
    }
}
