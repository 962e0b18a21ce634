//! How boxes of two levels are compared at a width.

ghost use Rattle.std.specs.Prelude.{◌≡◌, ◌↔◌, pos, IsTrue};
ghost use Rattle.samr_box.specs.declared.vector.IVec.{IVec};
ghost use Rattle.samr_box.specs.Vector.{alike, AtMost, Within, InRange, IsRatio};
ghost use Rattle.samr_box.specs.Corners.{IsBox, Holds};
ghost use Rattle.samr_box.specs.Ratios.{last_child, refined};
ghost use Rattle.samr_box.specs.Space.{image};
ghost use Rattle.samr_level.specs.Overlaps.{IsScale, scale_in, near, is_true};

use crate::Edge;
use samr_box::{Domain, IBox, IVec, Ratio, Shift, coarsen_cell};
use std::marker::Model;

/// How the boxes of two levels are compared, in the finer of their index spaces.
#[derive(Debug, Drop)]
pub struct Ruler {
    base: IVec,
    head: IVec,
    reach: IVec,
    finer: Domain,
}

impl Model for Ruler {
    ghost use Rattle.samr_level.specs.Overlaps.{Scale, IsScale};

    ghost Value = { Scale };

    ghost view = { λ r. record { base = r.base; head = r.head; reach = r.reach; domain = r.finer } };

    ghost invariant = { λ r. IsScale (record { base = r.base; head = r.head; reach = r.reach; domain = r.finer }) };
}

impl Ruler {
    /// For two levels with these ratios from level 0, at a width in cells of the coarser one;
    /// `finer` is the frame of the finer one.
    pub fn new(width: IVec, base_ratio: Ratio, head_ratio: Ratio, finer: &Domain) -> Ruler
        requires { InRange width }
        ensures { result ≡ scale_in finer.now width base_ratio head_ratio }
    {
        let finest = base_ratio.factors().greatest(head_ratio.factors());
        let base = coarsen_cell(finest, base_ratio);
        let head = coarsen_cell(finest, head_ratio);
        Ruler {
            base,
            head,
            reach: width.times(base).times(head),
            finer: *finer,
        }
    }

    /// Whether a cell of a base box and a cell of the image of a head box lie within the width.
    pub fn near(&self, a: IBox, b: IBox, s: Shift) -> bool
        ensures value { result ≡ near self.now a b s }
        ensures boxes { IsBox a × IsBox b }
        ensures scale { IsScale self.now }
    {
        let step = self.finer.offset(s);
        let low = a.lo.times(self.base).minus(self.reach);
        if !low.at_most(last_child(b.hi, self.head).plus(step)) {
            return false;
        }
        let high = last_child(a.hi, self.base).plus(self.reach);
        b.lo.times(self.head).plus(step).at_most(high)
    }

    /// Whether the boxes of an edge overlap at its shift.
    pub fn is_true(&self, e: Edge) -> bool
        ensures { result ≡ is_true self.now e }
    {
        self.near(e.base.bx, e.head.bx, e.shift)
    }
}

/// The last fine cell of a cell.
fn last_child(x: IVec, factors: IVec) -> IVec
    requires cell { InRange x }
    requires ratio { IsRatio factors }
    ensures { result ≡ last_child x factors }
{
    x.times(factors).plus(factors.minus(IVec::alike(1)))
}

/// Whether a base box and a head box overlap at a shift: a cell of the one and a cell of the image
/// of the other lie within the width, compared in the finer of the two index spaces. The width is
/// in cells of the coarser one, the ratios are those from level 0, and `finer` is the frame of the
/// finer level.
pub fn overlaps(
    a: IBox,
    b: IBox,
    width: IVec,
    base_ratio: Ratio,
    head_ratio: Ratio,
    finer: &Domain,
    s: Shift,
) -> bool
    requires { InRange width }
    ensures value { result ≡ near (scale_in finer.now width base_ratio head_ratio) a b s }
    ensures cells { AtMost (alike (pos 0)) width → (let n = scale_in finer.now width base_ratio head_ratio in IsTrue result ↔ ((x y : IVec) × Holds (refined a n.base) x × Holds (image n.domain (refined b n.head) s) y × Within n.reach x y)) }
{
    let ruler = Ruler::new(width, base_ratio, head_ratio, finer);
    ruler.near(a, b, s)
}
