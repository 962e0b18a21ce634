//! The same overlaps by a look-up of the boxes in a window.

ghost use Rattle.std.specs.Prelude.{◌≡◌, ◌++◌, ◌<◌, ◌^◌, IfOk, OnOk, length, map};
ghost use Rattle.std.specs.List.{All, flat_map};
ghost use Rattle.samr_box.specs.Corners.{IsBox};
ghost use Rattle.samr_box.specs.Orders.{cell_cmp};
ghost use Rattle.samr_box.specs.Vector.{IsRatio, InRange};
ghost use Rattle.samr_level.specs.Overlaps.{scale_in};
ghost use Rattle.samr_level.specs.RefOrders.{edge_cmp, in_order};
ghost use Rattle.samr_bridge.specs.Found.{found_by};
ghost use Rattle.samr_bridge.specs.Search.{pair_at, pairs_at, pairs_by};

use crate::pairs::{compared, push_place};
use crate::window::Windows;
use samr_box::{Domain, IBox, IVec, Ratio, Shift};
use samr_find::Finder;
use samr_level::{Edge, Ruler, settled};
use std::alloc::{AllocError as NoMemory, Global};

/// How many edges a look-up may have.
const MOST: usize = 0xffff_ffff;

/// Edges to the west with a look-up of their heads, and the shifts that they have.
#[derive(Drop)]
struct Search<'a> {
    ruler: Ruler,
    windows: Windows,
    heads: Finder,
    shifts: Vec<Shift>,
    to_west: &'a [Edge],
}

/// The head of an edge.
fn head_of(e: Edge) -> IBox
    ensures value { result ≡ e.head.bx }
    ensures whole { IsBox result }
{
    let head = e.head.bx;
    let _corner = head.lo;
    head
}

/// The heads of edges.
fn heads_of(alloc: Global, edges: &[Edge]) -> Result<Vec<IBox>, NoMemory>
    ensures heads { IfOk result (λ v. v.items ≡ map (λ e. e.head.bx) edges.now) }
    ensures boxes { IfOk result (λ v. All IsBox v.items) }
{
    let mut heads = Vec::new(alloc);
    for e in edges {
        heads.push(head_of(*e))?;
    }
    Ok(heads)
}

/// The shifts of edges.
fn shifts_along(alloc: Global, edges: &[Edge]) -> Result<Vec<Shift>, NoMemory>
    ensures { IfOk result (λ v. v.items ≡ map (λ e. e.shift) edges.now) }
{
    edges.iter().map(|e| e.shift).collect(alloc)
}

/// The shifts of edges, in order, each once.
fn shifts_of(alloc: Global, edges: &[Edge]) -> Result<Vec<Shift>, NoMemory>
    ensures { IfOk result (λ v. v.items ≡ in_order cell_cmp (map (λ e. e.shift) edges.now)) }
{
    let mut shifts = shifts_along(alloc, edges)?;
    shifts.sort_unstable();
    shifts.dedup();
    Ok(shifts)
}

impl Search<'_> {
    /// Adds what an edge to the east gives with the edges to the west at some places.
    fn push_places(&self, a: Edge, places: &[u32], out: &mut Vec<Edge>) -> Result<(), NoMemory>
        ensures { OnOk result (out.new.items ≡ out.old.items ++ flat_map (λ place. pair_at self.now.ruler self.now.to_west.now a place) places.now) }
    {
        for place in places {
            push_place(&self.ruler, a, self.to_west, *place, out)?;
        }
        Ok(())
    }

    /// Adds what an edge to the east gives with the edges to the west in its window at a shift.
    #[tactic(auto, unfolding(crate::specs::Search::pairs_at))]
    fn push_window(
        &self,
        alloc: Global,
        a: Edge,
        s: Shift,
        out: &mut Vec<Edge>,
    ) -> Result<(), NoMemory>
        requires { self.now.windows ≡ self.now.ruler }
        ensures { OnOk result (out.new.items ≡ out.old.items ++ pairs_at self.now.ruler self.now.heads self.now.to_west.now a s) }
    {
        let window = self.windows.around(head_of(a), s);
        let places = self.heads.meeting(alloc, window)?;
        self.push_places(a, places.as_slice(), out)?;
        Ok(())
    }

    /// Adds what an edge to the east gives with the edges to the west in its windows at all shifts.
    fn push_windows(&self, alloc: Global, a: Edge, out: &mut Vec<Edge>) -> Result<(), NoMemory>
        requires { self.now.windows ≡ self.now.ruler }
        ensures { OnOk result (out.new.items ≡ out.old.items ++ flat_map (λ s. pairs_at self.now.ruler self.now.heads self.now.to_west.now a s) self.now.shifts.items) }
    {
        for s in &self.shifts {
            self.push_window(alloc, a, *s, out)?;
        }
        Ok(())
    }

    /// Adds all that an edge to the east gives.
    #[tactic(auto, unfolding(crate::specs::Search::pairs_by))]
    fn push_edge(&self, alloc: Global, a: Edge, out: &mut Vec<Edge>) -> Result<(), NoMemory>
        requires { self.now.windows ≡ self.now.ruler }
        ensures { OnOk result (out.new.items ≡ out.old.items ++ pairs_by self.now.ruler self.now.heads self.now.shifts.items self.now.to_west.now a) }
    {
        if a.shift.is_zero() {
            self.push_windows(alloc, a, out)?;
        }
        Ok(())
    }

    /// What all edges to the east give.
    fn all(&self, alloc: Global, to_east: &[Edge]) -> Result<Vec<Edge>, NoMemory>
        requires { self.now.windows ≡ self.now.ruler }
        ensures { IfOk result (λ v. v.items ≡ flat_map (λ a. pairs_by self.now.ruler self.now.heads self.now.shifts.items self.now.to_west.now a) to_east.now) }
    {
        let mut out = Vec::new(alloc);
        for a in to_east {
            self.push_edge(alloc, *a, &mut out)?;
        }
        Ok(out)
    }
}

/// What edges to the east and edges to the west give, by a look-up of the heads to the west.
fn searched(
    alloc: Global,
    ruler: Ruler,
    windows: Windows,
    to_east: &[Edge],
    to_west: &[Edge],
) -> Result<Vec<Edge>, NoMemory>
    requires same { windows ≡ ruler }
    requires ratio { IsRatio ruler.head }
    requires few { length to_west.now < 2 ^ 32 }
    ensures { IfOk result (λ v. in_order edge_cmp v.items ≡ found_by ruler to_east.now to_west.now) }
{
    let heads = heads_of(alloc, to_west)?;
    let heads = Finder::new(alloc, heads)?;
    let shifts = shifts_of(alloc, to_west)?;
    let search = Search {
        ruler,
        windows,
        heads,
        shifts,
        to_west,
    };
    let pairs = search.all(alloc, to_east)?;
    Ok(pairs)
}

/// What edges to the east and edges to the west give, in any order and some perhaps more than once.
fn pairs(
    alloc: Global,
    ruler: Ruler,
    windows: Windows,
    to_east: &[Edge],
    to_west: &[Edge],
) -> Result<Vec<Edge>, NoMemory>
    requires same { windows ≡ ruler }
    requires ratio { IsRatio ruler.head }
    ensures { IfOk result (λ v. in_order edge_cmp v.items ≡ found_by ruler to_east.now to_west.now) }
{
    if to_west.len() > MOST {
        let pairs = compared(alloc, &ruler, to_east, to_west)?;
        return Ok(pairs);
    }
    let pairs = searched(alloc, ruler, windows, to_east, to_west)?;
    Ok(pairs)
}

/// The overlaps of east and west that edges from the centre to both show, in edge order: the pairs of
/// an edge to the east that moves nothing and an edge to the west that leave one centre box, where
/// the heads overlap. The width is in cells of the coarser of east and west, the ratios are those
/// from level 0, and `finer` is the frame of the finer one.
///
/// # Errors
///
/// Where memory is short.
pub fn found(
    alloc: Global,
    width: IVec,
    east_ratio: Ratio,
    west_ratio: Ratio,
    finer: &Domain,
    to_east: &[Edge],
    to_west: &[Edge],
) -> Result<Vec<Edge>, NoMemory>
    requires { InRange width }
    ensures { IfOk result (λ v. v.items ≡ found_by (scale_in finer.now width east_ratio west_ratio) to_east.now to_west.now) }
{
    let ruler = Ruler::new(width, east_ratio, west_ratio, finer);
    let windows = Windows::new(width, east_ratio, west_ratio, finer);
    let pairs = pairs(alloc, ruler, windows, to_east, to_west)?;
    Ok(settled(pairs))
}
