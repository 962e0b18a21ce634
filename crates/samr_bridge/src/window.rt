//! Where in the west level to look for the boxes that overlap an east box.

ghost use Rattle.std.specs.Prelude.{◌≡◌};
ghost use Rattle.samr_box.specs.Vector.{IsRatio, InRange};
ghost use Rattle.samr_level.specs.Overlaps.{IsScale, scale_in};
ghost use Rattle.samr_bridge.specs.Search.{clipped, window};

use samr_box::{Domain, IBox, IVec, Ratio, Shift, coarsen_cell};
use std::marker::Model;

/// The least and the greatest coordinates of a box.
const LEAST: IVec = IVec {
    k: -1_073_741_824,
    j: -1_073_741_824,
    i: -1_073_741_824,
};

const GREATEST: IVec = IVec {
    k: 1_073_741_824,
    j: 1_073_741_824,
    i: 1_073_741_824,
};

/// Where in the west level to look for the boxes that overlap an east box.
#[derive(Debug, Drop)]
pub struct Windows {
    base: IVec,
    head: Ratio,
    reach: IVec,
    finer: Domain,
}

impl Model for Windows {
    ghost use Rattle.samr_level.specs.Overlaps.{Scale, IsScale};

    ghost Value = { Scale };

    ghost view = { λ w. record { base = w.base; head = w.head; reach = w.reach; domain = w.finer } };

    ghost invariant = { λ w. IsScale (record { base = w.base; head = w.head; reach = w.reach; domain = w.finer }) };
}

impl Windows {
    /// For two levels with these ratios from level 0, at a width in cells of the coarser one;
    /// `finer` is the frame of the finer one.
    pub fn new(width: IVec, east_ratio: Ratio, west_ratio: Ratio, finer: &Domain) -> Windows
        requires { InRange width }
        ensures value { result ≡ scale_in finer.now width east_ratio west_ratio }
        ensures scale { IsScale result }
    {
        let finest = east_ratio.factors().greatest(west_ratio.factors());
        let base = coarsen_cell(finest, east_ratio);
        let head = coarsen_cell(finest, west_ratio);
        Windows {
            base,
            head: ratio_of(head),
            reach: width.times(base).times(head),
            finer: *finer,
        }
    }

    /// A box that meets each west box whose image by a shift overlaps an east box.
    pub fn around(&self, a: IBox, s: Shift) -> IBox
        ensures { result ≡ window self.now a s }
    {
        let step = self.finer.offset(s);
        let rest = self.base.minus(IVec::alike(1));
        let low = a.lo.times(self.base).minus(self.reach).minus(step);
        let high = a
            .hi
            .times(self.base)
            .plus(rest)
            .plus(self.reach)
            .minus(step);
        let lo = clipped(coarsen_cell(low, self.head));
        let hi = clipped(coarsen_cell(high, self.head));
        IBox {
            lo,
            hi: hi.greatest(lo),
        }
    }
}

/// The ratio with these factors.
pub fn ratio_of(factors: IVec) -> Ratio
    requires { IsRatio factors }
    ensures { result ≡ factors }
{
    Ratio {
        k: factors.k,
        j: factors.j,
        i: factors.i,
    }
}

/// The nearest cell that a box may have.
fn clipped(x: IVec) -> IVec
    ensures value { result ≡ clipped x }
    ensures range { InRange result }
{
    x.greatest(LEAST).least(GREATEST)
}
