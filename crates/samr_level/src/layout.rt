//! The edges of level 0, found by the places of its blocks.

ghost use Rattle.std.specs.Prelude.{◌≡◌, ◌++◌, IfOk, OnOk, map, filter};
ghost use Rattle.samr_box.specs.Vector.{InRange, plus, minus, times};
ghost use Rattle.samr_box.specs.Corners.{meets};
ghost use Rattle.samr_level.specs.Refs.{link};
ghost use Rattle.samr_level.specs.Regions.{boxes_of};
ghost use Rattle.samr_level.specs.Blocks.{IsBlocking, blocks_in, with_owners};
ghost use Rattle.samr_level.specs.Neighbours.{IsWidth, about, found_at, found_from, found};

use crate::blocks::members_in;
use crate::cut::Window;
use crate::{BoxRef, Edge, Region};
use samr_box::{Domain, IBox, IVec, Listed, Shift};
use std::alloc::{AllocError as NoMemory, Global};
use std::marker::Model;

/// The boxes that are cut into blocks, for some ranks, and a width about them.
#[derive(Debug, Drop)]
pub(crate) struct Layout {
    frame: Domain,
    boxes: Listed<IBox>,
    block: IVec,
    ranks: u16,
    width: IVec,
}

impl Model for Layout {
    ghost use Rattle.samr_level.specs.Neighbours.{Layout as Laid, IsLayout};

    ghost Value = { Laid };

    ghost view = { λ l. record { frame = l.frame; boxes = l.boxes; block = l.block; ranks = l.ranks; width = l.width } };

    ghost invariant = { λ l. IsLayout (record { frame = l.frame; boxes = l.boxes; block = l.block; ranks = l.ranks; width = l.width }) };
}

impl Layout {
    pub(crate) fn new(
        alloc: Global,
        region: &Region,
        block: IVec,
        ranks: u16,
        width: IVec,
    ) -> Result<Layout, NoMemory>
        requires blocks { IsBlocking block (boxes_of region.now) }
        requires width { IsWidth region.now.frame width }
        ensures { IfOk result (λ l. l ≡ record { frame = region.now.frame; boxes = boxes_of region.now; block = block; ranks = ranks; width = width }) }
    {
        let boxes = region.boxes(alloc)?;
        Ok(Layout {
            frame: *region.frame(),
            boxes: Listed::from_vec(boxes),
            block,
            ranks,
            width,
        })
    }

    /// The edges from some boxes at some shifts.
    #[tactic(auto, unfolding(crate::specs::Neighbours::found))]
    pub(crate) fn edges(
        &self,
        alloc: Global,
        bases: &[BoxRef],
        shifts: &[Shift],
    ) -> Result<Vec<Edge>, NoMemory>
        ensures { IfOk result (λ v. v.items ≡ found self.now bases.now shifts.now) }
    {
        let mut edges = Vec::new(alloc);
        for a in bases {
            self.push_from(alloc, *a, shifts, &mut edges)?;
        }
        Ok(edges)
    }

    fn push_from(
        &self,
        alloc: Global,
        a: BoxRef,
        shifts: &[Shift],
        edges: &mut Vec<Edge>,
    ) -> Result<(), NoMemory>
        ensures { OnOk result (edges.new.items ≡ edges.old.items ++ found_from self.now shifts.now a) }
    {
        for s in shifts {
            self.push_at(alloc, a, *s, edges)?;
        }
        Ok(())
    }

    #[tactic(auto, unfolding(crate::specs::Neighbours::found_at))]
    fn push_at(
        &self,
        alloc: Global,
        a: BoxRef,
        s: Shift,
        edges: &mut Vec<Edge>,
    ) -> Result<(), NoMemory>
        ensures { OnOk result (edges.new.items ≡ edges.old.items ++ found_at self.now a s) }
    {
        let heads = self.members_about(alloc, a.bx, s)?;
        push_links(a, heads.as_slice(), s, edges)?;
        Ok(())
    }

    /// The blocks of which an image, by the shift, lies within the width of a box.
    fn members_about(&self, alloc: Global, b: IBox, s: Shift) -> Result<Vec<BoxRef>, NoMemory>
        ensures { IfOk result (λ v. v.items ≡ filter (λ m. meets (about self.now b s) m.bx) (with_owners self.now.ranks (blocks_in self.now.block self.now.boxes))) }
    {
        let window = about(b, s, self.width, &self.frame);
        let members = members_in(alloc, self.boxes.as_slice(), self.block, self.ranks, window)?;
        Ok(members)
    }
}

/// The cells of which an image, by the shift, lies within the width of a box.
fn about(b: IBox, s: Shift, width: IVec, frame: &Domain) -> Window
    requires { InRange width }
    ensures { result ≡ record { lo = minus (minus b.lo width) (times s frame.now.size); hi = minus (plus b.hi width) (times s frame.now.size) } }
{
    let step = frame.offset(s);
    Window {
        lo: b.lo.minus(width).minus(step),
        hi: b.hi.plus(width).minus(step),
    }
}

/// Adds an edge to each of some heads.
fn push_links(a: BoxRef, heads: &[BoxRef], s: Shift, edges: &mut Vec<Edge>) -> Result<(), NoMemory>
    ensures { OnOk result (edges.new.items ≡ edges.old.items ++ map (λ b. link a b s) heads.now) }
{
    for b in heads {
        edges.push(Edge {
            base: a,
            head: *b,
            shift: s,
        })?;
    }
    Ok(())
}
