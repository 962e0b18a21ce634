//! The edge of the buckets, and the numbers of the buckets that a box meets.

ghost use Rattle.std.specs.Prelude.{◌≡◌};
ghost use Rattle.samr_box.specs.Corners.{IsBox};
ghost use Rattle.samr_box.specs.Ratios.{coarse, coarsened};
ghost use Rattle.samr_find.specs.Places.{IsEdge, edge_of, lengths};

use samr_box::{Axis, IBox, IVec};

/// The lengths of a box.
fn lengths(b: IBox) -> IVec
    ensures value { result ≡ lengths b }
    ensures edge { IsEdge result }
{
    IVec {
        k: b.length(Axis::K) as i64,
        j: b.length(Axis::J) as i64,
        i: b.length(Axis::I) as i64,
    }
}

/// The edge of the buckets of some boxes: on each axis the greatest length, and at least 1.
pub fn edge_of(boxes: &[IBox]) -> IVec
    ensures value { result ≡ edge_of boxes.now }
    ensures edge { IsEdge result }
{
    let mut edge = IVec::alike(1);
    for b in boxes {
        edge = edge.greatest(lengths(*b));
    }
    edge
}

/// The number of the bucket of a cell.
pub fn number_of(x: IVec, edge: IVec) -> IVec
    requires { IsEdge edge }
    ensures { result ≡ coarse x edge }
{
    IVec {
        k: x.k.div_euclid(edge.k),
        j: x.j.div_euclid(edge.j),
        i: x.i.div_euclid(edge.i),
    }
}

/// The numbers of the buckets in which a box has cells.
pub fn numbers_of(b: IBox, edge: IVec) -> IBox
    requires { IsEdge edge }
    ensures value { result ≡ coarsened b edge }
    ensures whole { IsBox b }
{
    IBox {
        lo: number_of(b.lo, edge),
        hi: number_of(b.hi, edge),
    }
}
