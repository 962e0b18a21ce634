//! The domain of a level: a whole frame, or some parts of it.

ghost use Rattle.std.specs.Prelude.{◌≡◌, ◌↔◌, List, [], map, IsTrue, IfOk, IfSome, IsSome};
ghost use Rattle.std.specs.List.{All};
ghost use Rattle.samr_box.specs.Vector.{IsRatio, InRange};
ghost use Rattle.samr_box.specs.Corners.{IsBox, holds_box};
ghost use Rattle.samr_box.specs.Space.{IsSpace, finer};
ghost use Rattle.samr_box.specs.Ratios.{refined};
ghost use Rattle.samr_boxlist.specs.Covers.{held};
ghost use Rattle.samr_level.specs.Regions.{Area, IsArea, IsInside, boxes_of, is_inside, finer_area};
ghost use Rattle.samr_level.specs.Blocks.{IsBlocking};
ghost use Rattle.samr_level.specs.Neighbours.{IsWidth};

use crate::blocks::are_few;
use samr_box::{Domain, IBox, IVec, Listed, Ratio, contains, holds_box, refine, wrap};
use samr_boxlist::disjoint;
use std::alloc::{AllocError as NoMemory, Global};
use std::marker::Model;

/// The least numbers of cells of a block.
const LEAST_BLOCK: IVec = IVec { k: 1, j: 1, i: 1 };

/// The greatest numbers of cells of a block.
const GREATEST_BLOCK: IVec = IVec {
    k: 1_073_741_824,
    j: 1_073_741_824,
    i: 1_073_741_824,
};

/// The domain of a level: the cells of the parts of a frame, or all cells of the frame where there
/// are no parts. The parts lie in the frame, and no two have a common cell.
#[derive(Debug, Drop)]
pub struct Region {
    frame: Domain,
    parts: Listed<IBox>,
}

impl Model for Region {
    ghost use Rattle.samr_boxlist.specs.Covers.{held};
    ghost use Rattle.samr_level.specs.Regions.{Area, IsArea};

    ghost Value = { Area };

    ghost view = { λ r. record { frame = r.frame; parts = r.parts } };

    ghost invariant = { λ r. IsArea (record { frame = r.frame; parts = r.parts }) };
}

impl Region {
    /// All cells of a frame.
    pub fn whole(alloc: Global, frame: Domain) -> Region
        ensures { result ≡ record { frame = frame; parts = [] } }
    {
        Region {
            frame,
            parts: Listed::new(alloc),
        }
    }

    /// The cells of these parts, or all cells of the frame where there are none: `None` exactly
    /// where a part leaves the frame or two parts have a common cell.
    pub fn new(frame: Domain, parts: Vec<IBox>) -> Option<Region>
        ensures some { IsSome result ↔ IsArea (record { frame = frame; parts = parts.items }) }
        ensures value { IfSome result (λ r. r ≡ record { frame = frame; parts = parts.items }) }
    {
        if !all_inside(frame.whole(), parts.as_slice()) {
            return None;
        }
        if !disjoint(parts.as_slice()) {
            return None;
        }
        Some(Region {
            frame,
            parts: Listed::from_vec(parts),
        })
    }

    /// The frame.
    pub fn frame(&self) -> &Domain
        ensures { result.now ≡ self.now.frame }
    {
        &self.frame
    }

    /// The boxes whose cells the region has: the parts, or the whole frame where there are none.
    pub fn boxes(&self, alloc: Global) -> Result<Vec<IBox>, NoMemory>
        ensures boxes { IfOk result (λ v. v.items ≡ boxes_of self.now) }
        ensures area { IsArea self.now }
    {
        let parts = self.parts.as_slice();
        if parts.is_empty() {
            return Vec::from_slice(alloc, [self.frame.whole()].as_slice());
        }
        Vec::from_slice(alloc, parts)
    }

    /// Whether level 0 can be cut into blocks of so many cells: 1 to 2^30 on each axis, and fewer than
    /// 2^48 blocks in all.
    pub fn can_block(&self, block: IVec) -> bool
        ensures { IsTrue result ↔ IsBlocking block (boxes_of self.now) }
    {
        if !LEAST_BLOCK.at_most(block) {
            return false;
        }
        if !block.at_most(GREATEST_BLOCK) {
            return false;
        }
        let parts = self.parts.as_slice();
        if parts.is_empty() {
            return are_few([self.frame.whole()].as_slice(), block);
        }
        are_few(parts, block)
    }

    /// Whether level 0 can be compared with itself at a width: from 0 to the frame's length on each axis.
    pub fn can_compare(&self, width: IVec) -> bool
        ensures value { IsTrue result ↔ IsWidth self.now.frame width }
        ensures range { IsTrue result → InRange width }
    {
        if !IVec::alike(0).at_most(width) {
            return false;
        }
        width.at_most(self.frame.size)
    }

    /// Whether each length, refined by a ratio, is at most 2^30.
    pub fn can_refine(&self, r: Ratio) -> bool
        ensures { IsTrue result ↔ IsSpace (finer self.now.frame r) }
    {
        let size = self.frame.size.times(r.factors());
        Domain::new(size, self.frame.periodic).is_some()
    }

    /// The region in the index space of a finer level.
    pub fn refined(&self, alloc: Global, r: Ratio) -> Result<Region, NoMemory>
        requires { IsSpace (finer self.now.frame r) }
        ensures { IfOk result (λ region. region ≡ finer_area self.now r) }
    {
        let parts = all_refined(alloc, self.parts.as_slice(), r)?;
        Ok(Region {
            frame: self.frame.finer(r),
            parts: Listed::from_vec(parts),
        })
    }

    /// Whether a cell, wrapped round the periodic borders of the frame, is a cell of the region.
    pub fn inside(&self, x: IVec) -> bool
        ensures value { result ≡ is_inside self.now x }
        ensures means { IsTrue result ↔ IsInside self.now x }
    {
        let y = wrap(&self.frame, x);
        let parts = self.parts.as_slice();
        if parts.is_empty() {
            return contains(self.frame.whole(), y);
        }
        has_cell(parts, y)
    }
}

/// Whether a box has all cells of each of some boxes.
fn all_inside(whole: IBox, parts: &[IBox]) -> bool
    ensures inside { IsTrue result ↔ All (λ p. IsTrue (holds_box whole p)) parts.now }
    ensures boxes { IsTrue result → All IsBox parts.now }
{
    for p in parts {
        if !lies_in(whole, *p) {
            return false;
        }
    }
    true
}

/// Whether a box has all cells of a part.
fn lies_in(whole: IBox, part: IBox) -> bool
    ensures value { result ≡ holds_box whole part }
    ensures part { IsBox part }
{
    let _corner = part.lo;
    holds_box(whole, part)
}

/// The boxes of a list in the index space of a finer level.
fn all_refined(alloc: Global, list: &[IBox], r: Ratio) -> Result<Vec<IBox>, NoMemory>
    requires { All (λ b. IsBox (refined b r)) list.now }
    ensures { IfOk result (λ v. v.items ≡ map (λ b. refined b r) list.now) }
{
    list.iter().map(|b| refine(*b, r)).collect(alloc)
}

/// Whether a box of a list has the cell.
fn has_cell(list: &[IBox], x: IVec) -> bool
    ensures { result ≡ held x list.now }
{
    list.iter().any(|b| contains(*b, x))
}
