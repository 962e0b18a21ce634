//! The true overlaps of two levels, by a look-up of the heads near each base box.

ghost use Rattle.std.specs.Prelude.{◌≡◌, ◌++◌, IfOk, OnOk, All, map};
ghost use Rattle.std.specs.List.{flat_map};
ghost use Rattle.samr_box.specs.Corners.{IsBox};
ghost use Rattle.samr_box.specs.Vector.{InRange, IsRatio};
ghost use Rattle.samr_bridge.specs.Search.{window};
ghost use Rattle.samr_find.specs.Places.{meeting, places_of};
ghost use Rattle.samr_level.specs.Refs.{link};
ghost use Rattle.samr_level.specs.Overlaps.{scale_in, is_true, true_overlaps, shifts};
ghost use Rattle.samr_verify.specs.Nearby.{at_place, in_windows, edges_between, edges_from, AlikeBehind};

use crate::boxes::{box_of, boxes_only};
use crate::look_up::LookUp;
use crate::reach::Reach;
use samr_box::{Domain, IBox, IVec, Ratio, Shift};
use samr_level::{BoxRef, Edge, Ruler, shifts};
use std::alloc::{AllocError as NoMemory, Global};

/// How two levels are compared, the shifts of images, and a look-up of the heads.
#[derive(Drop)]
struct Search<'a> {
    ruler: Ruler,
    reach: Reach,
    shifts: Vec<Shift>,
    heads: &'a [BoxRef],
    all: LookUp,
}

/// Adds places to some.
fn push_all(places: &[usize], out: &mut Vec<usize>) -> Result<(), NoMemory>
    ensures { OnOk result (out.new.items ≡ out.old.items ++ places.now) }
{
    for place in places {
        out.push(*place)?;
    }
    Ok(())
}

/// The edge from a base box to a head at a shift.
fn edge_at(a: BoxRef, b: BoxRef, s: Shift) -> Edge
    ensures { result ≡ link a b s }
{
    Edge {
        base: a,
        head: b,
        shift: s,
    }
}

/// Whether the boxes of an edge overlap at its shift.
fn is_near(ruler: &Ruler, e: Edge) -> bool
    ensures { result ≡ is_true ruler.now e }
{
    ruler.is_true(e)
}

/// Adds the edges from a base box to a head.
fn push_between(
    ruler: &Ruler,
    shifts: &[Shift],
    a: BoxRef,
    b: BoxRef,
    out: &mut Vec<Edge>,
) -> Result<(), NoMemory>
    ensures { OnOk result (out.new.items ≡ out.old.items ++ edges_between ruler.now shifts.now a b) }
{
    for s in shifts {
        let edge = edge_at(a, b, *s);
        if is_near(ruler, edge) {
            out.push(edge)?;
        }
    }
    Ok(())
}

/// Adds the edges from a base box to the head at a place.
fn push_place(
    ruler: &Ruler,
    shifts: &[Shift],
    a: BoxRef,
    heads: &[BoxRef],
    place: usize,
    out: &mut Vec<Edge>,
) -> Result<(), NoMemory>
    ensures { OnOk result (out.new.items ≡ out.old.items ++ at_place (λ b. edges_between ruler.now shifts.now a b) heads.now place) }
{
    match heads.get(place) {
        Some(b) => push_between(ruler, shifts, a, *b, out),
        None => Ok(()),
    }
}

/// Adds the edges from a base box to the heads at some places.
fn push_places(
    ruler: &Ruler,
    shifts: &[Shift],
    a: BoxRef,
    heads: &[BoxRef],
    places: &[usize],
    out: &mut Vec<Edge>,
) -> Result<(), NoMemory>
    ensures { OnOk result (out.new.items ≡ out.old.items ++ flat_map (λ place. at_place (λ b. edges_between ruler.now shifts.now a b) heads.now place) places.now) }
{
    for place in places {
        push_place(ruler, shifts, a, heads, *place, out)?;
    }
    Ok(())
}

/// The places, perhaps with doubles, of the heads in the windows of a base box.
fn windowed(
    alloc: Global,
    reach: &Reach,
    shifts: &[Shift],
    all: &LookUp,
    a: IBox,
) -> Result<Vec<usize>, NoMemory>
    ensures { IfOk result (λ v. v.items ≡ flat_map (λ s. meeting all.now (window reach.now a s)) shifts.now) }
{
    let mut out = Vec::new(alloc);
    for s in shifts {
        push_window(alloc, reach, *s, all, a, &mut out)?;
    }
    Ok(out)
}

/// Adds the places of the heads in the window of a base box at a shift.
fn push_window(
    alloc: Global,
    reach: &Reach,
    s: Shift,
    all: &LookUp,
    a: IBox,
    out: &mut Vec<usize>,
) -> Result<(), NoMemory>
    ensures { OnOk result (out.new.items ≡ out.old.items ++ meeting all.now (window reach.now a s)) }
{
    let places = all.meeting(alloc, reach.around(a, s))?;
    push_all(places.as_slice(), out)?;
    Ok(())
}

/// The places, ascending, each once, of the heads in the windows of a base box.
fn near_places(
    alloc: Global,
    reach: &Reach,
    shifts: &[Shift],
    all: &LookUp,
    a: IBox,
) -> Result<Vec<usize>, NoMemory>
    ensures { IfOk result (λ v. v.items ≡ places_of (λ b. in_windows reach.now shifts.now a b) all.now) }
{
    let mut places = windowed(alloc, reach, shifts, all, a)?;
    places.sort_unstable();
    places.dedup();
    Ok(places)
}

impl Search<'_> {
    /// Adds the edges from a base box.
    fn push_from(&self, alloc: Global, a: BoxRef, out: &mut Vec<Edge>) -> Result<(), NoMemory>
        requires same { self.now.reach ≡ self.now.ruler }
        requires all { self.now.all ≡ map (λ b. b.bx) self.now.heads.now }
        requires whole { All IsBox self.now.all }
        requires ratio { IsRatio self.now.ruler.head }
        ensures { OnOk result (out.new.items ≡ out.old.items ++ edges_from self.now.ruler self.now.shifts.items self.now.heads.now a) }
    {
        let shifts = self.shifts.as_slice();
        let places = near_places(alloc, &self.reach, shifts, &self.all, box_of(a))?;
        push_places(&self.ruler, shifts, a, self.heads, places.as_slice(), out)?;
        Ok(())
    }

    /// Adds the edges from a base box, unless there are already more than so many.
    fn push_at_most(
        &self,
        alloc: Global,
        a: BoxRef,
        most: usize,
        out: &mut Vec<Edge>,
    ) -> Result<(), NoMemory>
        requires same { self.now.reach ≡ self.now.ruler }
        requires all { self.now.all ≡ map (λ b. b.bx) self.now.heads.now }
        requires whole { All IsBox self.now.all }
        requires ratio { IsRatio self.now.ruler.head }
        ensures { OnOk result (AlikeBehind most out.new.items (out.old.items ++ edges_from self.now.ruler self.now.shifts.items self.now.heads.now a)) }
    {
        if out.len() > most {
            return Ok(());
        }
        self.push_from(alloc, a, out)?;
        Ok(())
    }

    /// The edges from all base boxes, up to one more than so many at least.
    fn edges(&self, alloc: Global, bases: &[BoxRef], most: usize) -> Result<Vec<Edge>, NoMemory>
        requires same { self.now.reach ≡ self.now.ruler }
        requires all { self.now.all ≡ map (λ b. b.bx) self.now.heads.now }
        requires whole { All IsBox self.now.all }
        requires ratio { IsRatio self.now.ruler.head }
        ensures { IfOk result (λ v. AlikeBehind most v.items (flat_map (λ a. edges_from self.now.ruler self.now.shifts.items self.now.heads.now a) bases.now)) }
    {
        let mut out = Vec::new(alloc);
        for a in bases {
            self.push_at_most(alloc, *a, most, &mut out)?;
        }
        Ok(out)
    }
}

/// The shifts at which boxes have images in a frame.
fn shifts_in(alloc: Global, frame: &Domain) -> Result<Vec<Shift>, NoMemory>
    ensures { IfOk result (λ v. v.items ≡ shifts frame.now.periodic) }
{
    let all = shifts(alloc, frame.periodic)?;
    Ok(all)
}

/// The true overlaps of two whole levels, in edge order, up to one more than so many at least. The width is in
/// cells of the coarser level, the ratios are those from level 0, and `finer` is the frame of the finer level.
pub(crate) fn overlaps_at_most(
    alloc: Global,
    bases: &[BoxRef],
    heads: &[BoxRef],
    width: IVec,
    base_ratio: Ratio,
    head_ratio: Ratio,
    finer: &Domain,
    most: usize,
) -> Result<Vec<Edge>, NoMemory>
    requires { InRange width }
    ensures { IfOk result (λ v. AlikeBehind most v.items (true_overlaps (scale_in finer.now width base_ratio head_ratio) bases.now heads.now)) }
{
    let search = Search {
        ruler: Ruler::new(width, base_ratio, head_ratio, finer),
        reach: Reach::new(width, base_ratio, head_ratio, finer),
        shifts: shifts_in(alloc, finer)?,
        heads,
        all: LookUp::new(alloc, boxes_only(alloc, heads)?)?,
    };
    let edges = search.edges(alloc, bases, most)?;
    Ok(edges)
}
