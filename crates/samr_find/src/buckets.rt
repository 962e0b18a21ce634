//! The buckets of a grid, and the places of boxes in them.

ghost use Rattle.std.specs.Prelude.{◌≡◌, ◌++◌, [], IfOk, OnOk, false};
ghost use Rattle.std.specs.Ordering.{is_eq};
ghost use Rattle.samr_box.specs.declared.vector.IVec.{IVec};
ghost use Rattle.samr_box.specs.Corners.{holds};
ghost use Rattle.samr_box.specs.Orders.{cell_cmp};
ghost use Rattle.samr_find.specs.Buckets.{places_at, where_true};

use crate::cells::cells_in;
use samr_box::{IBox, IVec};
use std::alloc::{AllocError as NoMemory, Global};
use std::collections::BTreeMap;

/// The places of the boxes that have a cell in a bucket, by the bucket's number.
pub type Buckets = BTreeMap<IVec, Vec<u32>>;

/// The places in a bucket.
pub fn places_in(buckets: &Buckets, number: IVec) -> &[u32]
    ensures { result.now ≡ places_at (λ v. v.items) buckets.now number }
{
    match buckets.get(&number) {
        Some(places) => places.as_slice(),
        None => &[],
    }
}

/// Takes out the places in a bucket.
fn take_places(alloc: Global, buckets: &mut Buckets, number: IVec) -> Vec<u32>
    ensures taken { result.items ≡ places_at (λ v. v.items) buckets.old number }
    ensures others { (q : IVec) → is_eq (cell_cmp number q) ≡ false → places_at (λ v. v.items) buckets.new q ≡ places_at (λ v. v.items) buckets.old q }
{
    match buckets.remove(&number) {
        Some(places) => places,
        None => Vec::new(alloc),
    }
}

/// Adds a place to a bucket.
fn add_place(alloc: Global, buckets: &mut Buckets, number: IVec, place: u32) -> Result<(), NoMemory>
    ensures { OnOk result ((q : IVec) → places_at (λ v. v.items) buckets.new q
        ≡ places_at (λ v. v.items) buckets.old q ++ where_true (is_eq (cell_cmp number q)) place) }
{
    let mut places = take_places(alloc, buckets, number);
    places.push(place)?;
    buckets.insert(number, places)?;
    Ok(())
}

/// Adds a place to all buckets with the numbers that a box of numbers has.
pub fn add_places(
    alloc: Global,
    buckets: &mut Buckets,
    numbers: IBox,
    place: u32,
) -> Result<(), NoMemory>
    ensures { OnOk result ((q : IVec) → places_at (λ v. v.items) buckets.new q
        ≡ places_at (λ v. v.items) buckets.old q ++ where_true (holds numbers q) place) }
{
    let cells = cells_in(alloc, numbers)?;
    for number in &cells {
        add_place(alloc, buckets, *number, place)?;
    }
    Ok(())
}
