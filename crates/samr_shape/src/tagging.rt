//! Which cells the shapes tag at a step.

ghost use Rattle.std.specs.Prelude.{◌≡◌, ◌≤◌, ◌^◌, nat_le, pos, negsuc, ◌+ℤ◌, ◌≤ℤ◌, All};
ghost use Rattle.samr_box.specs.declared.vector.IVec.{IVec};
ghost use Rattle.samr_box.specs.declared.vector.Axis.TheVariants.{I, J};
ghost use Rattle.samr_box.specs.Vector.{alike, at, plus, times, Between, InRange, put};
ghost use Rattle.samr_box.specs.Corners.{IsBox, meets, moved};
ghost use Rattle.samr_box.specs.Ratios.{refined};
ghost use Rattle.samr_shape.specs.Tags.{position, cells_from, square, square_apart, touches, any_along, is_tagged_by, tags, IsSlab, IsBall, IsSpeed, IsShape};

use crate::Shape;
use samr_box::{Axis, Domain, IBox, IVec, Ratio, Shift, refine, wrap};

/// The shift that moves nothing.
const HERE: Shift = Shift { k: 0, j: 0, i: 0 };

/// So many steps on each axis.
fn steps(step: u32) -> IVec
    ensures { result ≡ alike (pos step) }
{
    IVec::alike(i64::from(step))
}

/// Where a shape stands after so many steps, wrapped round periodic borders.
fn position(finest: &Domain, start: IVec, velocity: IVec, step: u32) -> IVec
    requires start { InRange start }
    requires speed { IsSpeed velocity }
    ensures value { result ≡ position finest.now start velocity step }
    ensures wide { Between (alike (negsuc 9007199254740991)) result (alike (pos 9007199254740992)) }
{
    let _ = &finest.size.i;
    let way = velocity.times(steps(step));
    wrap(finest, start.plus(way))
}

/// The square of the number on an axis.
fn square_on(axis: Axis, x: IVec) -> u128
    requires { Between (alike (negsuc 1152921504606846975)) x (alike (pos 1152921504606846976)) }
    ensures value { result ≡ square (at axis x) }
    ensures small { result ≤ 2 ^ 120 }
{
    let length = u128::from(x.at(axis).unsigned_abs());
    length * length
}

/// The square of twice the distance between the middle of a box and a point.
fn square_apart(b: IBox, p: IVec) -> u128
    requires { Between (alike (negsuc 18014398509481983)) p (alike (pos 18014398509481984)) }
    ensures { result ≡ square_apart b p }
{
    let twice = b.lo.plus(b.hi).minus(p.plus(p));
    square_on(Axis::I, twice) + square_on(Axis::J, twice) + square_on(Axis::K, twice)
}

/// Whether the image of a slab by a shift meets a box.
fn slab_touches(finest: &Domain, cell: IBox, at: IVec, size: IVec, s: Shift) -> bool
    requires place { Between (alike (negsuc 9007199254740991)) at (alike (pos 9007199254740992)) }
    requires size { Between (alike (pos 1)) size (alike (pos 1073741824)) }
    ensures { result ≡ meets cell (moved (cells_from at size) (times s finest.now.size)) }
{
    let offset = finest.offset(s);
    let hi = at.plus(size).minus(IVec::alike(1)).plus(offset);
    if !cell.lo.at_most(hi) {
        return false;
    }
    at.plus(offset).at_most(cell.hi)
}

/// Twice a radius on each axis.
fn twice(radius: i64) -> IVec
    requires low { pos 0 ≤ℤ radius }
    requires high { radius ≤ℤ pos 1073741824 }
    ensures value { result ≡ alike (radius +ℤ radius) }
    ensures short { Between (alike (negsuc 1152921504606846975)) result (alike (pos 1152921504606846976)) }
{
    IVec::alike(radius + radius)
}

/// Whether the image of a ball by a shift reaches the middle of a box.
fn ball_touches(finest: &Domain, cell: IBox, at: IVec, radius: i64, s: Shift) -> bool
    requires place { Between (alike (negsuc 9007199254740991)) at (alike (pos 9007199254740992)) }
    requires low { pos 0 ≤ℤ radius }
    requires high { radius ≤ℤ pos 1073741824 }
    ensures { result ≡ nat_le (square_apart cell (plus at (times s finest.now.size))) (square (radius +ℤ radius)) }
{
    let apart = square_apart(cell, at.plus(finest.offset(s)));
    apart <= square_on(Axis::I, twice(radius))
}

/// Whether the image of a shape by a shift tags a cell, given by its cells in the finest index space.
#[tactic(auto, unfolding(crate::specs::Tags::touches))]
fn touches(finest: &Domain, cell: IBox, step: u32, shape: &Shape, s: Shift) -> bool
    requires { IsShape shape.now }
    ensures { result ≡ touches finest.now cell step shape.now s }
{
    match *shape {
        Shape::Slab { lo, size, velocity } => {
            slab_touches(finest, cell, position(finest, lo, velocity, step), size, s)
        }
        Shape::Ball {
            at,
            radius,
            velocity,
        } => ball_touches(
            finest,
            cell,
            position(finest, at, velocity, step),
            radius,
            s,
        ),
    }
}

/// A shift with another number of lengths on an axis: one back.
fn back(s: Shift, axis: Axis) -> Shift
    ensures { result ≡ put axis s (negsuc 0) }
{
    match axis {
        Axis::I => Shift { i: -1, ..s },
        Axis::J => Shift { j: -1, ..s },
        Axis::K => Shift { k: -1, ..s },
    }
}

/// A shift with another number of lengths on an axis: one ahead.
fn ahead(s: Shift, axis: Axis) -> Shift
    ensures { result ≡ put axis s (pos 1) }
{
    match axis {
        Axis::I => Shift { i: 1, ..s },
        Axis::J => Shift { j: 1, ..s },
        Axis::K => Shift { k: 1, ..s },
    }
}

fn touches_along_i(finest: &Domain, cell: IBox, step: u32, shape: &Shape, s: Shift) -> bool
    requires { IsShape shape.now }
    ensures { result ≡ any_along I finest.now.periodic (touches finest.now cell step shape.now) s }
{
    if touches(finest, cell, step, shape, s) {
        return true;
    }
    if !finest.periodic.i {
        return false;
    }
    if touches(finest, cell, step, shape, back(s, Axis::I)) {
        return true;
    }
    touches(finest, cell, step, shape, ahead(s, Axis::I))
}

fn touches_along_j(finest: &Domain, cell: IBox, step: u32, shape: &Shape, s: Shift) -> bool
    requires { IsShape shape.now }
    ensures { result ≡ any_along J finest.now.periodic (any_along I finest.now.periodic (touches finest.now cell step shape.now)) s }
{
    if touches_along_i(finest, cell, step, shape, s) {
        return true;
    }
    if !finest.periodic.j {
        return false;
    }
    if touches_along_i(finest, cell, step, shape, back(s, Axis::J)) {
        return true;
    }
    touches_along_i(finest, cell, step, shape, ahead(s, Axis::J))
}

/// Whether an image of a shape tags a cell.
fn is_tagged_by(finest: &Domain, cell: IBox, step: u32, shape: &Shape) -> bool
    requires { IsShape shape.now }
    ensures { result ≡ is_tagged_by finest.now cell step shape.now }
{
    if touches_along_j(finest, cell, step, shape, HERE) {
        return true;
    }
    if !finest.periodic.k {
        return false;
    }
    if touches_along_j(finest, cell, step, shape, back(HERE, Axis::K)) {
        return true;
    }
    touches_along_j(finest, cell, step, shape, ahead(HERE, Axis::K))
}

/// Whether one of the shapes tags a cell of a level at a step; `to_finest` is the ratio from the
/// level to the finest one, whose domain is `finest`.
#[tactic(auto, unfolding(crate::specs::Tags::tags))]
pub fn tags(shapes: &[Shape], finest: &Domain, to_finest: Ratio, cell: IVec, step: u32) -> bool
    requires shapes { All IsShape shapes.now }
    requires cell { IsBox (record { lo = cell; hi = cell }) }
    requires fine { IsBox (refined (record { lo = cell; hi = cell }) to_finest) }
    ensures { result ≡ tags shapes.now finest.now to_finest cell step }
{
    let fine = refine(IBox { lo: cell, hi: cell }, to_finest);
    for shape in shapes {
        if is_tagged_by(finest, fine, step, shape) {
            return true;
        }
    }
    false
}
