//! A coarse stencil: a closure beside the fact that it refines linearly.

ghost use Rattle.std.specs.Prelude.{◌≡◌, ℕ, ◌<◌, List};
ghost use Rattle.samr_box.specs.declared.vector.IVec.{IVec as Cell};
ghost use Rattle.samr_linear.specs.declared.linear.Linear.{Linear as Rule};
ghost use Rattle.samr_box.specs.Vector.{IsRatio};
ghost use Rattle.samr_linear.specs.Lin.{lin, IsPlace, KeepsLin};

use crate::linear::{Linear, refined_linearly};
use samr_box::{Flags, IVec, Ratio};
use std::marker::Model;

/// A coarse stencil: each closure of a value, the low and the high neighbours, and an offset is one.
pub trait RefinesLinearly {
    ghost can_refine: { Self → ℕ → List ℕ → List ℕ → Cell → Type 0 };

    ghost refine_gives: { Self → ℕ → List ℕ → List ℕ → Cell → ℕ → Type 0 };

    fn refined(&self, v: u32, low: [u32; 3], high: [u32; 3], offset: IVec) -> u32
        requires { can_refine self.now v low high offset }
        ensures { refine_gives self.now v low high offset result };
}

impl<F: Fn(u32, [u32; 3], [u32; 3], IVec) -> u32> RefinesLinearly for F {
    ghost can_refine = { F.pre };

    ghost refine_gives = { F.post };

    fn refined(&self, v: u32, low: [u32; 3], high: [u32; 3], offset: IVec) -> u32 {
        self(v, low, high, offset)
    }
}

/// A closure beside the fact that it answers as linear refinement does. Contracts see what that needs to know alone.
#[derive(Drop)]
pub struct Stencil<L: RefinesLinearly> {
    modulus: u32,
    ratio: Ratio,
    real: Flags,
    rule: L,
}

impl<L: RefinesLinearly> Model for Stencil<L> {
    ghost use Rattle.samr_linear.specs.declared.linear.Linear.{Linear};
    ghost use Rattle.samr_linear.specs.Lin.{KeepsLin};

    ghost Value = { Linear };

    ghost view = { λ s. record { modulus = s.modulus; ratio = s.ratio; real = s.real } };

    ghost invariant = { λ s. KeepsLin (record { modulus = s.modulus; ratio = s.ratio; real = s.real }) (L.can_refine s.rule) (L.refine_gives s.rule) };
}

impl<L: RefinesLinearly> Stencil<L> {
    /// The stencil of a closure that answers as linear refinement does.
    pub fn new(modulus: u32, ratio: Ratio, real: Flags, rule: L) -> Stencil<L>
        requires { KeepsLin (record { modulus = modulus; ratio = ratio; real = real }) (L.can_refine rule) (L.refine_gives rule) }
        ensures { result ≡ record { modulus = modulus; ratio = ratio; real = real } }
    {
        Stencil {
            modulus,
            ratio,
            real,
            rule,
        }
    }

    /// Which axes are real.
    pub fn real(&self) -> Flags
        ensures { result ≡ self.now.real }
    {
        self.real
    }

    /// The value of a fine cell at an offset in a coarse cell of this value, whose neighbours have these.
    pub fn value(&self, v: u32, low: [u32; 3], high: [u32; 3], offset: IVec) -> u32
        requires value { v < self.now.modulus }
        requires place { IsPlace self.now.ratio offset }
        ensures { result ≡ lin self.now v low high offset }
    {
        self.rule.refined(v, low, high, offset)
    }
}

/// The value that a closure's stencil gives.
fn value_with<L: RefinesLinearly + Drop>(
    rule: &Linear,
    keeps: L,
    v: u32,
    low: [u32; 3],
    high: [u32; 3],
    offset: IVec,
) -> u32
    requires keeps { KeepsLin rule.now (L.can_refine keeps) (L.refine_gives keeps) }
    requires value { v < rule.now.modulus }
    requires place { IsPlace rule.now.ratio offset }
    ensures { result ≡ lin rule.now v low high offset }
{
    let stencil = Stencil::new(rule.modulus, rule.ratio, rule.real, keeps);
    stencil.value(v, low, high, offset)
}

/// The value that the stencil of linear refinement gives.
pub fn value_by(rule: &Linear, v: u32, low: [u32; 3], high: [u32; 3], offset: IVec) -> u32
    requires some { 0 < rule.now.modulus }
    requires ratio { IsRatio rule.now.ratio }
    requires value { v < rule.now.modulus }
    requires place { IsPlace rule.now.ratio offset }
    ensures { result ≡ lin rule.now v low high offset }
{
    value_with(
        rule,
        move |v: u32, low: [u32; 3], high: [u32; 3], offset: IVec| -> u32
            requires { (0 < rule.now.modulus) × IsRatio rule.now.ratio × IsPlace rule.now.ratio offset }
            ensures { result ≡ lin rule.entry.now v low high offset }
        { refined_linearly(rule, v, low, high, offset) },
        v,
        low,
        high,
        offset,
    )
}
