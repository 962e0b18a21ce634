//! One box cut into blocks, and the blocks of it that meet a window.

ghost use Rattle.std.specs.Prelude.{◌≡◌, ◌++◌, ◌∷◌, [], ◌+◌, ◌*◌, ◌<◌, ◌≤◌, pos, ◌≤ℤ◌, OnOk, filter, ◌^◌, min, unsigned_abs};
ghost use Rattle.std.specs.Int.{int_max};
ghost use Rattle.samr_box.specs.declared.vector.Axis.{Axis};
ghost use Rattle.samr_box.specs.declared.vector.Axis.TheVariants.{I, J, K};
ghost use Rattle.samr_box.specs.Vector.{at, alike, AtMost, Between, plus, minus};
ghost use Rattle.samr_box.specs.Corners.{IsBox, meets};
ghost use Rattle.samr_box.specs.Ratios.{coarse};
ghost use Rattle.samr_level.specs.Blocks.{blocks_along, place, block_at, owner_of};
ghost use Rattle.samr_level.specs.Cuts.{IsCut, along, number_at, member_at, row_in, plane_in, members_in, IsSpan, IsPlace};

use crate::BoxRef;
use samr_box::{Axis, IBox, IVec};
use std::alloc::AllocError as NoMemory;
use std::marker::Model;

/// The number 1 on each axis.
const ONES: IVec = IVec { k: 1, j: 1, i: 1 };

/// A range of cells that may leave the range of boxes.
#[derive(Clone, Copy, Debug)]
pub(crate) struct Window {
    pub lo: IVec,
    pub hi: IVec,
}

impl Model for Window {
    ghost use Rattle.samr_box.specs.Corners.{Corners};
    ghost use Rattle.samr_level.specs.Cuts.{IsWindow};

    ghost Value = { Corners };

    ghost view = { λ w. record { lo = w.lo; hi = w.hi } };

    ghost invariant = { λ w. IsWindow (record { lo = w.lo; hi = w.hi }) };

    ghost inverse = { λ v. record { lo = v.lo; hi = v.hi } };
}

impl Window {
    /// The cells of a box.
    pub(crate) fn over(b: IBox) -> Window
        ensures { result ≡ b }
    {
        Window { lo: b.lo, hi: b.hi }
    }

    /// Whether a box has a cell of the window.
    fn meets(self, b: IBox) -> bool
        ensures { result ≡ meets self b }
    {
        if !self.lo.at_most(b.hi) {
            return false;
        }
        b.lo.at_most(self.hi)
    }
}

/// One box of a domain, cut into blocks from its lower corner, with the number of its first block.
#[derive(Clone, Copy, Debug)]
pub(crate) struct Cut {
    pub bx: IBox,
    pub block: IVec,
    pub first: u64,
    pub count: u64,
    pub ranks: u16,
}

impl Model for Cut {
    ghost use Rattle.samr_level.specs.Cuts.{Cut as Value_of, IsCut};

    ghost Value = { Value_of };

    ghost view = { λ c. record { bx = c.bx; block = c.block; first = c.first; count = c.count; ranks = c.ranks } };

    ghost invariant = { λ c. IsCut (record { bx = c.bx; block = c.block; first = c.first; count = c.count; ranks = c.ranks }) };

    ghost inverse = { λ v. record { bx = v.bx; block = v.block; first = v.first; count = v.count; ranks = v.ranks } };
}

impl Cut {
    /// How many blocks lie along an axis.
    fn along(self, axis: Axis) -> u64
        ensures value { result ≡ along axis self }
        ensures some { 0 < result }
        ensures whole { IsCut self }
    {
        blocks_along(self.bx, self.block, axis)
    }

    /// The number of the block at a place, counted in blocks.
    fn number(self, x: u64, y: u64, z: u64) -> u64
        requires x { x < along I self }
        requires y { y < along J self }
        requires z { z < along K self }
        ensures value { result ≡ number_at self x y z }
        ensures below { result < self.count }
        ensures whole { IsCut self }
    {
        let row = z * self.along(Axis::J) + y;
        self.first + (row * self.along(Axis::I) + x)
    }

    /// The block at a place, with its owner.
    #[tactic(auto, unfolding(crate::specs::Cuts::member_at))]
    fn member(self, x: u64, y: u64, z: u64) -> BoxRef
        requires x { x < along I self }
        requires y { y < along J self }
        requires z { z < along K self }
        ensures { result ≡ member_at self x y z }
    {
        let number = self.number(x, y, z);
        BoxRef {
            owner: owner_of(self.count, self.ranks, number),
            bx: block_at(self.bx, self.block, place(x, y, z)),
        }
    }

    /// Adds the members that meet a window.
    pub(crate) fn push_members(self, window: Window, out: &mut Vec<BoxRef>) -> Result<(), NoMemory>
        ensures { OnOk result (out.new.items ≡ out.old.items ++ members_in window self) }
    {
        let (first, end) = span(self.bx, self.block, Axis::K, window);
        for z in first..end {
            self.push_plane(window, z, out)?;
        }
        Ok(())
    }

    fn push_plane(self, window: Window, z: u64, out: &mut Vec<BoxRef>) -> Result<(), NoMemory>
        requires { z < along K self }
        ensures { OnOk result (out.new.items ≡ out.old.items ++ plane_in window self z) }
    {
        let (first, end) = span(self.bx, self.block, Axis::J, window);
        for y in first..end {
            self.push_row(window, y, z, out)?;
        }
        Ok(())
    }

    fn push_row(self, window: Window, y: u64, z: u64, out: &mut Vec<BoxRef>) -> Result<(), NoMemory>
        requires y { y < along J self }
        requires z { z < along K self }
        ensures { OnOk result (out.new.items ≡ out.old.items ++ row_in window self y z) }
    {
        let (first, end) = span(self.bx, self.block, Axis::I, window);
        for x in first..end {
            push_met(self.member(x, y, z), window, out)?;
        }
        Ok(())
    }
}

/// Adds a member, if it meets a window.
fn push_met(b: BoxRef, window: Window, out: &mut Vec<BoxRef>) -> Result<(), NoMemory>
    ensures { OnOk result (out.new.items ≡ out.old.items ++ filter (λ b. meets window b.bx) (b ∷ [])) }
{
    if window.meets(b.bx) {
        out.push(b)?;
    }
    Ok(())
}

/// How many blocks lie along an axis of a box.
pub(crate) fn blocks_along(bx: IBox, block: IVec, axis: Axis) -> u64
    requires { AtMost (alike (pos 1)) block }
    ensures value { result ≡ blocks_along axis block bx }
    ensures some { 0 < result }
    ensures small { result ≤ 2 ^ 32 }
    ensures whole { IsBox bx }
{
    bx.length(axis).div_ceil(block.at(axis).unsigned_abs())
}

/// A place, counted in blocks.
fn place(x: u64, y: u64, z: u64) -> IVec
    requires x { x < 2 ^ 32 }
    requires y { y < 2 ^ 32 }
    requires z { z < 2 ^ 32 }
    ensures { result ≡ place x y z }
{
    IVec {
        k: z as i64,
        j: y as i64,
        i: x as i64,
    }
}

/// The block of a box at a place.
fn block_at(bx: IBox, block: IVec, place: IVec) -> IBox
    requires block { Between (alike (pos 1)) block (alike (pos 1073741824)) }
    requires place { IsPlace block bx place }
    ensures { result ≡ block_at block bx place }
{
    let lo = bx.lo.plus(place.times(block));
    let hi = lo.plus(block.minus(ONES));
    IBox {
        lo,
        hi: bx.hi.least(hi),
    }
}

/// The blocks of a box that may meet a window on an axis: the first of them, and the first behind
/// them.
fn span(bx: IBox, block: IVec, axis: Axis, window: Window) -> (u64, u64)
    requires { AtMost (alike (pos 1)) block }
    ensures { IsSpan axis block bx window result.0 result.1 }
{
    let count = blocks_along(bx, block, axis);
    let (low, high) = places(bx, block, window);
    let first = clipped(low.at(axis), count);
    let end = clipped(high.at(axis), count);
    (first, end.max(first))
}

/// The place of a window's lower corner, and the one behind its upper corner.
fn places(bx: IBox, block: IVec, window: Window) -> (IVec, IVec)
    requires { AtMost (alike (pos 1)) block }
    ensures low { result.0 ≡ coarse (minus window.lo bx.lo) block }
    ensures high { result.1 ≡ plus (coarse (minus window.hi bx.lo) block) (alike (pos 1)) }
    ensures full { AtMost bx.lo bx.hi }
{
    let low = floor_over(window.lo.minus(bx.lo), block);
    let high = floor_over(window.hi.minus(bx.lo), block);
    (low, high.plus(ONES))
}

/// The nearest number from 0 to a count.
fn clipped(number: i64, count: u64) -> u64
    ensures { result ≡ min (unsigned_abs (int_max number (pos 0))) count }
{
    number.max(0).unsigned_abs().min(count)
}

/// The quotients rounded down, below 0 too.
fn floor_over(x: IVec, n: IVec) -> IVec
    requires { AtMost (alike (pos 1)) n }
    ensures { result ≡ coarse x n }
{
    IVec {
        k: x.k.div_euclid(n.k),
        j: x.j.div_euclid(n.j),
        i: x.i.div_euclid(n.i),
    }
}

/// The rank that owns block `number` of `count`.
fn owner_of(count: u64, ranks: u16, number: u64) -> u16
    requires { number < count }
    ensures { result ≡ owner_of count ranks number }
{
    (number as u128 * u128::from(ranks) / count as u128) as u16
}
