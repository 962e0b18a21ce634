//! The finder: which boxes of a list meet a box, by buckets or by a look at each.

ghost use Rattle.std.specs.Prelude.{◌≡◌, ◌<◌, ◌^◌, ◌++◌, OnOk, IfOk, filter, length, nat_lt, All};
ghost use Rattle.std.specs.List.{flat_map};
ghost use Rattle.samr_box.specs.declared.vector.IVec.{IVec};
ghost use Rattle.samr_box.specs.Corners.{IsBox, cells_of, holds, meets};
ghost use Rattle.samr_box.specs.Ratios.{coarsened};
ghost use Rattle.samr_find.specs.Places.{IsEdge, meeting, passes_at, places_of, in_bucket, edge_of};
ghost use Rattle.samr_find.specs.Buckets.{AreBuckets, found_in, near, where_true};

use crate::buckets::{Buckets, add_places, places_in};
use crate::cells::cells_in;
use crate::edge::{edge_of, number_of, numbers_of};
use samr_box::{Axis, IBox, IVec, boxes_meet};
use smallvec::SmallVec;
use std::alloc::{AllocError as NoMemory, Global};
use std::marker::Model;

/// A list of boxes that can be asked which of them meet a box.
#[derive(Drop)]
pub struct Finder {
    boxes: Vec<IBox>,
    edge: IVec,
    buckets: Buckets,
}

impl Model for Finder {
    ghost use Rattle.std.specs.Prelude.{List};
    ghost use Rattle.samr_box.specs.Corners.{Corners};
    ghost use Rattle.samr_find.specs.Buckets.{IsFinder};

    ghost Value = { List Corners };

    ghost view = { λ f. f.boxes.items };

    ghost invariant = { λ f. IsFinder (λ v. v.items) f.boxes.items f.edge f.buckets };
}

/// Sorts the places of the boxes into buckets of this edge.
fn buckets_of(alloc: Global, boxes: &[IBox], edge: IVec) -> Result<Buckets, NoMemory>
    requires edge { IsEdge edge }
    requires few { length boxes.now < 2 ^ 32 }
    ensures buckets { IfOk result (λ m. AreBuckets (λ v. v.items) boxes.now edge m) }
    ensures boxes { IfOk result (λ m. All IsBox boxes.now) }
{
    let mut buckets = Buckets::new(alloc);
    for (place, b) in boxes.iter().enumerate() {
        add_places(alloc, &mut buckets, numbers_of(*b, edge), place as u32)?;
    }
    Ok(buckets)
}

/// Adds a place where a test holds.
fn push_where(places: &mut Vec<u32>, test: bool, place: u32) -> Result<(), NoMemory>
    ensures { OnOk result (places.new.items ≡ places.old.items ++ where_true test place) }
{
    if test {
        places.push(place)?;
    }
    Ok(())
}

/// The places of the boxes that meet a box, by a look at each.
#[tactic(auto, unfolding(crate::specs::Places::meeting))]
fn compared(alloc: Global, boxes: &[IBox], b: IBox) -> Result<Vec<u32>, NoMemory>
    requires { length boxes.now < 2 ^ 32 }
    ensures { IfOk result (λ v. v.items ≡ meeting boxes.now b) }
{
    let mut places = Vec::new(alloc);
    for (place, a) in boxes.iter().enumerate() {
        push_where(&mut places, boxes_meet(*a, b), place as u32)?;
    }
    Ok(places)
}

impl Finder {
    /// A finder over these boxes.
    pub fn new(alloc: Global, boxes: Vec<IBox>) -> Result<Finder, NoMemory>
        requires { length boxes.items < 2 ^ 32 }
        ensures { IfOk result (λ f. f ≡ boxes.items) }
    {
        let edge = edge_of(boxes.as_slice());
        let buckets = buckets_of(alloc, boxes.as_slice(), edge)?;
        Ok(Finder {
            boxes,
            edge,
            buckets,
        })
    }

    /// The lengths of a bucket: on each axis the greatest length of a box, 1 where there is none.
    pub fn edge(&self) -> IVec
        ensures value { result ≡ edge_of self.now }
        ensures edge { IsEdge result }
    {
        self.edge
    }

    /// The places, ascending, of the boxes that have a cell in the bucket of a cell.
    pub fn bucket(&self, at: IVec) -> &[u32]
        ensures { result.now ≡ in_bucket self.now at }
    {
        self.numbered(number_of(at, self.edge()))
    }

    /// The places in the bucket with a number.
    fn numbered(&self, number: IVec) -> &[u32]
        ensures { result.now ≡ places_of (λ a. holds (coarsened a (edge_of self.now)) number) self.now }
    {
        places_in(&self.buckets, number)
    }

    /// Whether the box at a place meets a box.
    fn meets_at(&self, place: u32, b: IBox) -> bool
        ensures { result ≡ passes_at (λ a. meets a b) self.now place }
    {
        match self.boxes.get(place as usize) {
            Some(a) => boxes_meet(*a, b),
            None => false,
        }
    }

    /// Adds those of some places whose boxes meet a box.
    fn add_meeting(&self, places: &[u32], b: IBox, out: &mut Vec<u32>) -> Result<(), NoMemory>
        ensures { OnOk result (out.new.items ≡ out.old.items ++ filter (passes_at (λ a. meets a b) self.now) places.now) }
    {
        for place in places {
            if self.meets_at(*place, b) {
                out.push(*place)?;
            }
        }
        Ok(())
    }

    /// Adds the places in a bucket whose boxes meet a box.
    #[tactic(auto, unfolding(crate::specs::Buckets::found_in))]
    fn add_found(&self, number: IVec, b: IBox, out: &mut Vec<u32>) -> Result<(), NoMemory>
        ensures { OnOk result (out.new.items ≡ out.old.items ++ found_in self.now b number) }
    {
        self.add_meeting(self.numbered(number), b, out)?;
        Ok(())
    }

    /// The places, perhaps with doubles, that a look into all buckets of a box finds.
    fn near(&self, alloc: Global, b: IBox) -> Result<Vec<u32>, NoMemory>
        ensures places { IfOk result (λ v. v.items ≡ near self.now b) }
        ensures whole { IsBox b }
    {
        let mut out = Vec::new(alloc);
        let numbers = cells_in(alloc, numbers_of(b, self.edge()))?;
        for number in &numbers {
            self.add_found(*number, b, &mut out)?;
        }
        Ok(out)
    }

    /// The places of the boxes that meet a box, by its buckets.
    fn found(&self, alloc: Global, b: IBox) -> Result<Vec<u32>, NoMemory>
        ensures { IfOk result (λ v. v.items ≡ meeting self.now b) }
    {
        let _ = &self.boxes;
        let mut places = self.near(alloc, b)?;
        places.sort_unstable();
        places.dedup();
        Ok(places)
    }

    /// Whether a box has cells in more buckets than there are boxes.
    fn is_wide(&self, b: IBox) -> bool
        ensures { result ≡ nat_lt (length self.now) (cells_of (coarsened b (edge_of self.now))) }
    {
        let numbers = numbers_of(b, self.edge());
        let plane = u128::from(numbers.length(Axis::I)) * u128::from(numbers.length(Axis::J));
        (self.boxes.len() as u128) < plane * u128::from(numbers.length(Axis::K))
    }

    /// The places, ascending, of exactly the boxes that meet a box.
    ///
    /// # Errors
    ///
    /// Where there is not enough memory.
    pub fn meeting(&self, alloc: Global, b: IBox) -> Result<SmallVec<u32, 8>, NoMemory>
        ensures { IfOk result (λ places. places.items ≡ meeting self.now b) }
    {
        let places = if self.is_wide(b) {
            compared(alloc, self.boxes.as_slice(), b)?
        } else {
            self.found(alloc, b)?
        };
        SmallVec::from_slice(alloc, places.as_slice())
    }
}
