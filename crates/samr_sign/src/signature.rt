//! Signatures: how many cells are tagged in each plane of a box.

ghost use Rattle.std.specs.Prelude.{◌≡◌, ◌+◌, ◌<◌, ◌≤◌, ◌^◌, ◌≤ℤ◌, ℕ, IfOk, length, sum, slice_index};
ghost use Rattle.samr_box.specs.Vector.{at};
ghost use Rattle.samr_box.specs.Corners.{IsBox, cells_of};
ghost use Rattle.samr_sign.specs.Counts.{tally, planes, sign, counts, total, count_at, added, sign_sum, IsSign, SignaturesAddUp, CountsAddUp};
ghost use Rattle.samr_sign.specs.Fields.{tagged_in, AreApart};

use crate::field::TagField;
use crate::planes::slice;
use samr_box::{Axis, IBox};
use std::alloc::{AllocError as NoMemory, Global};
use std::marker::Model;

/// The numbers of tagged cells of a box, for each plane on each axis.
#[derive(Drop)]
pub struct Signature {
    bx: IBox,
    i: Vec<u64>,
    j: Vec<u64>,
    k: Vec<u64>,
}

impl Model for Signature {
    ghost use Rattle.samr_sign.specs.Counts.{Sign, IsSign};

    ghost Value = { Sign };

    ghost view = { λ s. record { bx = s.bx; i = s.i.items; j = s.j.items; k = s.k.items } };

    ghost invariant = { λ s. IsSign (record { bx = s.bx; i = s.i.items; j = s.j.items; k = s.k.items }) };
}

/// The number of cells of a region that are tagged in some field.
fn count_all(fields: &[TagField], region: IBox) -> u64
    requires apart { AreApart fields.now }
    requires few { tally (tagged_in fields.now) region < 2 ^ 63 }
    ensures { result ≡ tally (tagged_in fields.now) region }
{
    let mut count = 0;
    for field in fields {
        count += field.count(region);
    }
    count
}

/// The number of tagged cells of each plane of a box on an axis.
fn planes_of(alloc: Global, axis: Axis, bx: IBox, fields: &[TagField]) -> Result<Vec<u64>, NoMemory>
    requires apart { AreApart fields.now }
    requires few { tally (tagged_in fields.now) bx < 2 ^ 63 }
    ensures counts { IfOk result (λ v. v.items ≡ planes axis (tagged_in fields.now) bx) }
    ensures whole { IfOk result (λ v. IsBox bx) }
{
    let mut counts = Vec::new(alloc);
    for place in 0..bx.length(axis) {
        counts.push(count_all(fields, slice(bx, axis, place)))?;
    }
    Ok(counts)
}

/// Adds numbers to others, one by one.
fn add_counts(to: &mut [u64], from: &[u64])
    requires same { length to.old ≡ length from.now }
    requires few { sum to.old + sum from.now < 2 ^ 63 }
    ensures { to.new ≡ added to.old from.now }
{
    for place in 0..from.len() {
        to[place] += from[place];
    }
}

/// The sum of some numbers.
fn sum_of(counts: &[u64]) -> u64
    requires { sum counts.now < 2 ^ 63 }
    ensures { result ≡ sum counts.now }
{
    counts.iter().sum()
}

impl Signature {
    /// The signature of a box for the tags of all fields, whose boxes have no cell in common.
    ///
    /// # Errors
    ///
    /// Where there is not enough memory.
    pub fn of(alloc: Global, bx: IBox, fields: &[TagField]) -> Result<Signature, NoMemory>
        requires apart { AreApart fields.now }
        requires few { cells_of bx < 2 ^ 63 }
        ensures { IfOk result (λ s. s ≡ sign (tagged_in fields.now) bx) }
    {
        let i = planes_of(alloc, Axis::I, bx, fields)?;
        let j = planes_of(alloc, Axis::J, bx, fields)?;
        let k = planes_of(alloc, Axis::K, bx, fields)?;
        Ok(Signature { bx, i, j, k })
    }

    /// The same once more.
    ///
    /// # Errors
    ///
    /// Where there is not enough memory.
    pub fn copied(&self, alloc: Global) -> Result<Signature, NoMemory>
        ensures { IfOk result (λ s. s ≡ self.now) }
    {
        Ok(Signature {
            bx: self.bx,
            i: Vec::from_slice(alloc, self.i.as_slice())?,
            j: Vec::from_slice(alloc, self.j.as_slice())?,
            k: Vec::from_slice(alloc, self.k.as_slice())?,
        })
    }

    /// The box.
    pub fn bx(&self) -> IBox
        ensures value { result ≡ self.now.bx }
        ensures sign { IsSign self.now }
    {
        self.bx
    }

    /// The numbers of tagged cells of the planes on an axis, the lowest first.
    pub fn counts(&self, axis: Axis) -> &[u64]
        ensures value { result.now ≡ counts axis self.now }
        ensures sign { IsSign self.now }
    {
        match axis {
            Axis::I => self.i.as_slice(),
            Axis::J => self.j.as_slice(),
            Axis::K => self.k.as_slice(),
        }
    }

    /// The number of tagged cells of the box.
    pub fn total(&self) -> u64
        ensures { result ≡ total self.now }
    {
        sum_of(self.k.as_slice())
    }

    /// The number of tagged cells of a plane of the box.
    pub fn at(&self, axis: Axis, plane: i64) -> u64
        requires low { at axis self.now.bx.lo ≤ℤ plane }
        requires high { plane ≤ℤ at axis self.now.bx.hi }
        ensures { result ≡ count_at axis self.now plane }
    {
        let place = plane.abs_diff(self.bx().lo.at(axis)) as usize;
        self.counts(axis)[place]
    }

    /// Adds the signature of the same box for other tags.
    pub fn add(&mut self, other: &Signature)
        requires same { self.old.bx ≡ other.now.bx }
        requires few { total self.old + total other.now < 2 ^ 63 }
        ensures { self.new ≡ sign_sum self.old other.now }
    {
        add_counts(self.i.as_mut_slice(), other.i.as_slice());
        add_counts(self.j.as_mut_slice(), other.j.as_slice());
        add_counts(self.k.as_mut_slice(), other.k.as_slice());
    }
}

/// The law that the signatures of disjoint sets of tags add up to that of their union.
pub fn signatures_add_up()
    ensures { SignaturesAddUp }
{}

/// The law that the counts of disjoint sets of tags add up to that of their union.
pub fn counts_add_up()
    ensures { CountsAddUp }
{}
