//! Linear refinement: a fine value from a coarse one and its neighbours.

ghost use Rattle.std.specs.Prelude.{◌≡◌, ◌+ℤ◌, ◌-ℤ◌, ◌*ℤ◌, ◌≤ℤ◌, ◌<ℤ◌, ◌<◌, ◌≤◌, ◌^◌, pos, negsuc, unsigned_abs};
ghost use Rattle.std.specs.Int.{int_rem_euclid};
ghost use Rattle.samr_box.specs.Ratios.{floor};
ghost use Rattle.samr_box.specs.Vector.{at};
ghost use Rattle.samr_box.specs.Vector.{IsRatio};
ghost use Rattle.samr_linear.specs.Lin.{slope, share, on, share_on, lin, IsPlace};

use samr_box::{Axis, Flags, IVec, Ratio};

/// What linear refinement needs to know: the modulus of the field, the ratio between the levels, and which axes are real.
#[derive(Clone, Copy, Debug)]
pub struct Linear {
    pub modulus: u32,
    pub ratio: Ratio,
    pub real: Flags,
}

/// The number on an axis.
fn on(numbers: [u32; 3], axis: Axis) -> u32
    ensures { result ≡ on axis numbers }
{
    match axis {
        Axis::I => numbers[0],
        Axis::J => numbers[1],
        Axis::K => numbers[2],
    }
}

/// Half the difference of two numbers, rounded down.
fn slope(low: u32, high: u32) -> i64
    ensures value { result ≡ slope low high }
    ensures size { unsigned_abs result ≤ 4294967296 }
{
    (high as i64 - low as i64).div_euclid(2)
}

/// How far the middle of a fine cell lies from that of its coarse cell, in halves of a fine cell.
fn reach(offset: i64, ratio: i64) -> i64
    requires low { pos 0 ≤ℤ offset }
    requires high { offset ≤ℤ pos 255 }
    requires some { pos 1 ≤ℤ ratio }
    requires most { ratio ≤ℤ pos 256 }
    ensures value { result ≡ ((pos 2 *ℤ offset) +ℤ pos 1) -ℤ ratio }
    ensures size { unsigned_abs result ≤ 512 }
{
    2 * offset + 1 - ratio
}

/// A product, parted by twice a ratio and rounded down.
fn parted(slope: i64, reach: i64, ratio: i64) -> i64
    requires slope { unsigned_abs slope ≤ 4294967296 }
    requires reach { unsigned_abs reach ≤ 512 }
    requires some { pos 1 ≤ℤ ratio }
    requires most { ratio ≤ℤ pos 256 }
    ensures value { result ≡ floor (slope *ℤ reach) (pos 2 *ℤ ratio) }
    ensures least { negsuc 2199023255551 ≤ℤ result }
    ensures greatest { result ≤ℤ pos 2199023255552 }
{
    (slope * reach).div_euclid(2 * ratio)
}

/// What an axis adds.
fn share(low: u32, high: u32, offset: i64, ratio: i64) -> i64
    requires low { pos 0 ≤ℤ offset }
    requires high { offset ≤ℤ pos 255 }
    requires some { pos 1 ≤ℤ ratio }
    requires most { ratio ≤ℤ pos 256 }
    ensures value { result ≡ share low high offset ratio }
    ensures least { negsuc 2199023255551 ≤ℤ result }
    ensures greatest { result ≤ℤ pos 2199023255552 }
{
    let rise = slope(low, high);
    let run = reach(offset, ratio);
    let result = parted(rise, run, ratio);
    result
}

/// The same with the places in triples.
fn share_at(low: u32, high: u32, offset: IVec, ratio: IVec, axis: Axis) -> i64
    requires place { IsPlace ratio offset }
    requires ratio { IsRatio ratio }
    ensures value { result ≡ share low high (at axis offset) (at axis ratio) }
    ensures least { negsuc 2199023255551 ≤ℤ result }
    ensures greatest { result ≤ℤ pos 2199023255552 }
{
    let along = offset.at(axis);
    let length = ratio.at(axis);
    let result = share(low, high, along, length);
    result
}

/// The sum of a value and what the axes add, reduced.
fn reduced(v: u32, i: i64, j: i64, k: i64, modulus: u32) -> u32
    requires some { 0 < modulus }
    requires i { (negsuc 2199023255551 ≤ℤ i) × (i ≤ℤ pos 2199023255552) }
    requires j { (negsuc 2199023255551 ≤ℤ j) × (j ≤ℤ pos 2199023255552) }
    requires k { (negsuc 2199023255551 ≤ℤ k) × (k ≤ℤ pos 2199023255552) }
    ensures value { result ≡ unsigned_abs (int_rem_euclid (((pos v +ℤ i) +ℤ j) +ℤ k) (pos modulus)) }
    ensures below { result < modulus }
{
    (v as i64 + i + j + k).rem_euclid(modulus as i64) as u32
}

/// What an axis adds: nothing where it is not real.
#[tactic(auto, unfolding(crate::specs::Lin::share_on))]
fn share_on(rule: &Linear, low: [u32; 3], high: [u32; 3], offset: IVec, axis: Axis) -> i64
    requires place { IsPlace rule.now.ratio offset }
    requires ratio { IsRatio rule.now.ratio }
    ensures value { result ≡ share_on rule.now low high offset axis }
    ensures least { negsuc 2199023255551 ≤ℤ result }
    ensures greatest { result ≤ℤ pos 2199023255552 }
{
    if !rule.real.at(axis) {
        return 0;
    }
    share_at(
        on(low, axis),
        on(high, axis),
        offset,
        rule.ratio.factors(),
        axis,
    )
}

/// The value of a fine cell at an offset in a coarse cell of this value, whose neighbours have these.
pub fn refined_linearly(rule: &Linear, v: u32, low: [u32; 3], high: [u32; 3], offset: IVec) -> u32
    requires some { 0 < rule.now.modulus }
    requires place { IsPlace rule.now.ratio offset }
    requires ratio { IsRatio rule.now.ratio }
    ensures value { result ≡ lin rule.now v low high offset }
    ensures below { result < rule.now.modulus }
{
    let i = share_on(rule, low, high, offset, Axis::I);
    let j = share_on(rule, low, high, offset, Axis::J);
    let k = share_on(rule, low, high, offset, Axis::K);
    let result = reduced(v, i, j, k, rule.modulus);
    result
}
