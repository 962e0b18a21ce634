//! The rules of a field beside the closures that keep them.

ghost use Rattle.std.specs.Prelude.{◌≡◌, ℕ, ◌*◌, ◌<◌, ℤ, pos, ◌≤ℤ◌};
ghost use Rattle.samr_box.specs.declared.vector.Axis.{Axis as AxisOf};
ghost use Rattle.samr_box.specs.declared.vector.IVec.{IVec as Cell};
ghost use Rattle.samr_box.specs.Vector.{at};
ghost use Rattle.samr_ops.specs.declared.rules.Edgewise.{Edgewise as EdgewiseOf};
ghost use Rattle.samr_ops.specs.Rules.{IsRules, IsOffset, refined_value, edge_of, updated_value};
ghost use Rattle.samr_ops.specs.Walks.{stepped, walked, IsInside, IsNearOn, IsNear};
ghost use Rattle.samr_ops.specs.Kept.{KeepsRefine, KeepsBoundary, KeepsUpdate};

use crate::walk::{depth, leaves, moved_in};
use crate::{Edgewise, Rules};
use samr_box::{Axis, Domain, IVec};
use std::marker::Model;

/// A refine operator: each closure of a value and an offset is one.
pub trait Refines {
    ghost can_refine: { Self → ℕ → Cell → Type 0 };

    ghost refine_gives: { Self → ℕ → Cell → ℕ → Type 0 };

    fn refine(&self, v: u32, offset: IVec) -> u32
        requires { can_refine self.now v offset }
        ensures { refine_gives self.now v offset result };
}

impl<F: Fn(u32, IVec) -> u32> Refines for F {
    ghost can_refine = { F.pre };

    ghost refine_gives = { F.post };

    fn refine(&self, v: u32, offset: IVec) -> u32 {
        self(v, offset)
    }
}

/// A boundary: each closure of an axis and a depth is one.
pub trait Bounds {
    ghost can_bound: { Self → AxisOf → ℤ → Type 0 };

    ghost bound_gives: { Self → AxisOf → ℤ → EdgewiseOf → Type 0 };

    fn bound(&self, axis: Axis, depth: i64) -> Edgewise
        requires { can_bound self.now axis depth }
        ensures { bound_gives self.now axis depth result };
}

impl<F: Fn(Axis, i64) -> Edgewise> Bounds for F {
    ghost can_bound = { F.pre };

    ghost bound_gives = { F.post };

    fn bound(&self, axis: Axis, depth: i64) -> Edgewise {
        self(axis, depth)
    }
}

/// An update: each closure of a value and a sum is one.
pub trait Updates {
    ghost can_update: { Self → ℕ → ℕ → Type 0 };

    ghost update_gives: { Self → ℕ → ℕ → ℕ → Type 0 };

    fn update(&self, v: u32, sum: u64) -> u32
        requires { can_update self.now v sum }
        ensures { update_gives self.now v sum result };
}

impl<F: Fn(u32, u64) -> u32> Updates for F {
    ghost can_update = { F.pre };

    ghost update_gives = { F.post };

    fn update(&self, v: u32, sum: u64) -> u32 {
        self(v, sum)
    }
}

/// The rules of a field, beside closures that give what they say. Contracts see its rules alone.
#[derive(Drop)]
pub struct Strategy<R: Refines, B: Bounds, U: Updates> {
    rules: Rules,
    refine: R,
    boundary: B,
    update: U,
}

impl<R: Refines, B: Bounds, U: Updates> Model for Strategy<R, B, U> {
    ghost use Rattle.samr_ops.specs.declared.rules.Rules.{Rules};
    ghost use Rattle.samr_ops.specs.Rules.{IsRules};
    ghost use Rattle.samr_ops.specs.Kept.{KeepsRefine, KeepsBoundary, KeepsUpdate};

    ghost Value = { Rules };

    ghost view = { λ s. s.rules };

    ghost invariant = { λ s. IsRules s.rules
        × KeepsRefine s.rules (R.can_refine s.refine) (R.refine_gives s.refine)
        × KeepsBoundary s.rules (B.can_bound s.boundary) (B.bound_gives s.boundary)
        × KeepsUpdate s.rules (U.can_update s.update) (U.update_gives s.update) };
}

impl<R: Refines, B: Bounds, U: Updates> Strategy<R, B, U> {
    /// A strategy of closures that give what the rules say.
    pub fn new(rules: Rules, refine: R, boundary: B, update: U) -> Strategy<R, B, U>
        requires ranges { IsRules rules }
        requires refine { KeepsRefine rules (R.can_refine refine) (R.refine_gives refine) }
        requires boundary { KeepsBoundary rules (B.can_bound boundary) (B.bound_gives boundary) }
        requires update { KeepsUpdate rules (U.can_update update) (U.update_gives update) }
        ensures { result ≡ rules }
    {
        Strategy {
            rules,
            refine,
            boundary,
            update,
        }
    }

    /// The rules.
    pub fn rules(&self) -> Rules
        ensures value { result ≡ self.now }
        ensures ranges { IsRules self.now }
    {
        self.rules
    }

    /// The value of a fine cell at an offset in a coarse cell of this value.
    pub fn refine(&self, v: u32, offset: IVec) -> u32
        requires value { v < self.now.modulus }
        requires offset { IsOffset offset }
        ensures { result ≡ refined_value self.now v offset }
    {
        self.refine.refine(v, offset)
    }

    /// The value of a cell after a step, from its own and the sum of those of the cells at its faces.
    pub fn update(&self, v: u32, sum: u64) -> u32
        requires value { v < self.now.modulus }
        requires sum { sum < 6 * self.now.modulus }
        ensures { result ≡ updated_value self.now v sum }
    {
        self.update.update(v, sum)
    }

    /// What stands at a depth beyond a border of an axis.
    fn bound(&self, axis: Axis, depth: i64) -> Edgewise
        requires low { pos 1 ≤ℤ depth }
        requires high { depth ≤ℤ at axis self.now.width }
        ensures value { result ≡ edge_of self.now axis depth }
        ensures inside { IsInside depth result }
    {
        self.boundary.bound(axis, depth)
    }

    /// The way of a cell beyond physical borders, over the axes i, j and k: to a fixed value (`Err`),
    /// or to the cell inside that it stands for (`Ok`).
    pub fn outside(&self, d: &Domain, x: IVec) -> Result<IVec, u32>
        requires { IsNear self.now d.now x }
        ensures { result ≡ walked self.now d.now x }
    {
        let y = self.step(d, Axis::I, x)?;
        let z = self.step(d, Axis::J, y)?;
        self.step(d, Axis::K, z)
    }

    /// The part of this way on one axis.
    fn step(&self, d: &Domain, axis: Axis, x: IVec) -> Result<IVec, u32>
        requires { IsNearOn self.now d.now axis x }
        ensures { result ≡ stepped self.now d.now axis x }
    {
        let _ = &self.rules;
        if !leaves(d, axis, x) {
            return Ok(x);
        }
        match self.bound(axis, depth(d, axis, x)) {
            Edgewise::Value(v) => Err(v),
            Edgewise::Depth(inside) => Ok(moved_in(d, axis, x, inside)),
        }
    }
}
