//! Where to look for the heads that overlap a base box.

ghost use Rattle.std.specs.Prelude.{◌≡◌};
ghost use Rattle.samr_box.specs.Vector.{InRange};
ghost use Rattle.samr_bridge.specs.Search.{clipped, window};
ghost use Rattle.samr_level.specs.Overlaps.{IsScale, scale_in};

use crate::scales::ratio_from;
use samr_box::{Domain, IBox, IVec, Ratio, Shift, coarsen_cell};
use std::marker::Model;

/// The least coordinates of a box.
const LEAST: IVec = IVec {
    k: -1_073_741_824,
    j: -1_073_741_824,
    i: -1_073_741_824,
};

/// The greatest coordinates of a box.
const GREATEST: IVec = IVec {
    k: 1_073_741_824,
    j: 1_073_741_824,
    i: 1_073_741_824,
};

/// Where to look for the heads that overlap a base box, in the index space of the heads.
#[derive(Debug, Drop)]
pub(crate) struct Reach {
    base: IVec,
    head: Ratio,
    reach: IVec,
    finer: Domain,
}

impl Model for Reach {
    ghost use Rattle.samr_level.specs.Overlaps.{Scale, IsScale};

    ghost Value = { Scale };

    ghost view = { λ w. record { base = w.base; head = w.head; reach = w.reach; domain = w.finer } };

    ghost invariant = { λ w. IsScale (record { base = w.base; head = w.head; reach = w.reach; domain = w.finer }) };
}

impl Reach {
    /// For two levels with these ratios from level 0, at a width in cells of the coarser one;
    /// `finer` is the frame of the finer one.
    pub(crate) fn new(width: IVec, base_ratio: Ratio, head_ratio: Ratio, finer: &Domain) -> Reach
        requires { InRange width }
        ensures value { result ≡ scale_in finer.now width base_ratio head_ratio }
        ensures scale { IsScale result }
    {
        let finest = base_ratio.factors().greatest(head_ratio.factors());
        let base = coarsen_cell(finest, base_ratio);
        let head = coarsen_cell(finest, head_ratio);
        Reach {
            base,
            head: ratio_from(head),
            reach: width.times(base).times(head),
            finer: *finer,
        }
    }

    /// A box that each head meets whose image by a shift overlaps a base box.
    pub(crate) fn around(&self, a: IBox, s: Shift) -> IBox
        ensures { result ≡ window self.now a s }
    {
        let step = self.finer.offset(s);
        let rest = self.base.minus(IVec::alike(1));
        let low = a.lo.times(self.base).minus(self.reach).minus(step);
        let high = a
            .hi
            .times(self.base)
            .plus(rest)
            .plus(self.reach)
            .minus(step);
        let lo = clipped(coarsen_cell(low, self.head));
        let hi = clipped(coarsen_cell(high, self.head));
        IBox {
            lo,
            hi: hi.greatest(lo),
        }
    }
}

/// The nearest cell that a box may have.
fn clipped(x: IVec) -> IVec
    ensures value { result ≡ clipped x }
    ensures range { InRange result }
{
    x.greatest(LEAST).least(GREATEST)
}
