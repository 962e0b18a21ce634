//! Boxes that can be asked which of them meet a box, however many they are.

ghost use Rattle.std.specs.Prelude.{◌≡◌, ◌<◌, ◌^◌, ◌++◌, IfOk, OnOk, length};
ghost use Rattle.std.specs.List.{flat_map};
ghost use Rattle.samr_find.specs.Buckets.{where_true};
ghost use Rattle.samr_find.specs.Places.{meeting};
ghost use Rattle.samr_verify.specs.Nearby.{at_place, if_meets};

use samr_box::{IBox, boxes_meet};
use samr_find::Finder;
use std::alloc::{AllocError as NoMemory, Global};
use std::marker::Model;

/// How many boxes a finder may have.
const MOST: usize = 0xffff_ffff;

/// Boxes that can be asked which of them meet a box: by a finder, unless they are too many for one.
#[derive(Drop)]
pub(crate) struct LookUp {
    boxes: Vec<IBox>,
    finder: Finder,
}

impl Model for LookUp {
    ghost use Rattle.std.specs.Prelude.{◌≡◌, ◌<◌, ◌^◌, List, length};
    ghost use Rattle.samr_box.specs.Corners.{Corners};

    ghost Value = { List Corners };

    ghost view = { λ l. l.boxes.items };

    ghost invariant = { λ l. length l.boxes.items < 2 ^ 32 → l.finder ≡ l.boxes.items };
}

/// A finder over some boxes, over none where they are too many.
fn finder_of(alloc: Global, boxes: &[IBox]) -> Result<Finder, NoMemory>
    ensures { IfOk result (λ f. length boxes.now < 2 ^ 32 → f ≡ boxes.now) }
{
    if boxes.len() > MOST {
        let finder = Finder::new(alloc, Vec::new(alloc))?;
        return Ok(finder);
    }
    let finder = Finder::new(alloc, Vec::from_slice(alloc, boxes)?)?;
    Ok(finder)
}

/// Adds a place where a test holds.
fn push_where(places: &mut Vec<usize>, test: bool, place: usize) -> Result<(), NoMemory>
    ensures { OnOk result (places.new.items ≡ places.old.items ++ where_true test place) }
{
    if test {
        places.push(place)?;
    }
    Ok(())
}

/// The places of the boxes that meet a box, by a look at each.
#[tactic(auto, unfolding(samr_find::specs::Places::meeting))]
fn compared(alloc: Global, boxes: &[IBox], b: IBox) -> Result<Vec<usize>, NoMemory>
    ensures { IfOk result (λ v. v.items ≡ meeting boxes.now b) }
{
    let mut places = Vec::new(alloc);
    for (place, a) in boxes.iter().enumerate() {
        push_where(&mut places, boxes_meet(*a, b), place)?;
    }
    Ok(places)
}

/// Places as the numbers that index a list.
fn widened(alloc: Global, places: &[u32]) -> Result<Vec<usize>, NoMemory>
    ensures { IfOk result (λ v. v.items ≡ places.now) }
{
    let mut out = Vec::new(alloc);
    for place in places {
        out.push(*place as usize)?;
    }
    Ok(out)
}

/// The same by a finder.
fn found(alloc: Global, finder: &Finder, b: IBox) -> Result<Vec<usize>, NoMemory>
    ensures { IfOk result (λ v. v.items ≡ meeting finder.now b) }
{
    let places = finder.meeting(alloc, b)?;
    let wide = widened(alloc, places.as_slice())?;
    Ok(wide)
}

/// Adds a box, if it meets another.
fn push_met(a: IBox, b: IBox, out: &mut Vec<IBox>) -> Result<(), NoMemory>
    ensures { OnOk result (out.new.items ≡ out.old.items ++ if_meets b a) }
{
    if boxes_meet(a, b) {
        out.push(a)?;
    }
    Ok(())
}

/// Adds the box at a place, if it meets another.
fn push_met_at(boxes: &[IBox], place: usize, b: IBox, out: &mut Vec<IBox>) -> Result<(), NoMemory>
    ensures { OnOk result (out.new.items ≡ out.old.items ++ at_place (λ a. if_meets b a) boxes.now place) }
{
    match boxes.get(place) {
        Some(a) => push_met(*a, b, out),
        None => Ok(()),
    }
}

/// Those of the boxes at some places that meet a box.
fn met_at(alloc: Global, boxes: &[IBox], places: &[usize], b: IBox) -> Result<Vec<IBox>, NoMemory>
    ensures { IfOk result (λ v. v.items ≡ flat_map (λ place. at_place (λ a. if_meets b a) boxes.now place) places.now) }
{
    let mut out = Vec::new(alloc);
    for place in places {
        push_met_at(boxes, *place, b, &mut out)?;
    }
    Ok(out)
}

impl LookUp {
    /// A look-up of these boxes.
    pub(crate) fn new(alloc: Global, boxes: Vec<IBox>) -> Result<LookUp, NoMemory>
        ensures { IfOk result (λ l. l ≡ boxes.items) }
    {
        let finder = finder_of(alloc, boxes.as_slice())?;
        Ok(LookUp { boxes, finder })
    }

    /// The places, ascending, of exactly the boxes that meet a box.
    pub(crate) fn meeting(&self, alloc: Global, b: IBox) -> Result<Vec<usize>, NoMemory>
        ensures { IfOk result (λ v. v.items ≡ meeting self.now b) }
    {
        if self.boxes.len() > MOST {
            let places = compared(alloc, self.boxes.as_slice(), b)?;
            return Ok(places);
        }
        let places = found(alloc, &self.finder, b)?;
        Ok(places)
    }

    /// The boxes, in their order, that meet a box.
    pub(crate) fn met(&self, alloc: Global, b: IBox) -> Result<Vec<IBox>, NoMemory>
        ensures { IfOk result (λ v. v.items ≡ flat_map (λ a. if_meets b a) self.now) }
    {
        let places = self.meeting(alloc, b)?;
        let boxes = met_at(alloc, self.boxes.as_slice(), places.as_slice(), b)?;
        Ok(boxes)
    }
}
