//! Whether the boxes of a rank are near a node.

ghost use Rattle.std.specs.Prelude.{◌≡◌, negsuc, pos};
ghost use Rattle.samr_box.specs.declared.vector.Axis.TheVariants.{I, J, K};
ghost use Rattle.samr_box.specs.Vector.{put, InRange};
ghost use Rattle.samr_rounds.specs.Near.{meets_at, meets_an_image, is_near};
ghost use Rattle.samr_rounds.specs.Images.{any_along};

use samr_box::{Axis, Domain, IBox, IVec, Shift};

/// The shift that moves nothing.
const HERE: Shift = Shift { k: 0, j: 0, i: 0 };

/// A shift with another number of lengths on an axis: one back.
fn back(s: Shift, axis: Axis) -> Shift
    ensures { result ≡ put axis s (negsuc 0) }
{
    match axis {
        Axis::I => Shift { i: -1, ..s },
        Axis::J => Shift { j: -1, ..s },
        Axis::K => Shift { k: -1, ..s },
    }
}

/// A shift with another number of lengths on an axis: one ahead.
fn ahead(s: Shift, axis: Axis) -> Shift
    ensures { result ≡ put axis s (pos 1) }
{
    match axis {
        Axis::I => Shift { i: 1, ..s },
        Axis::J => Shift { j: 1, ..s },
        Axis::K => Shift { k: 1, ..s },
    }
}

/// Whether a box grown by the width meets the image of a node at a shift.
#[tactic(auto, unfolding(crate::specs::Near::meets_at))]
fn meets_at(frame: &Domain, width: IVec, node: IBox, b: IBox, s: Shift) -> bool
    requires { InRange width }
    ensures { result ≡ meets_at frame.now width node b s }
{
    let step = frame.offset(s);
    if !b.lo.minus(width).at_most(node.hi.plus(step)) {
        return false;
    }
    node.lo.plus(step).at_most(b.hi.plus(width))
}

/// Whether it does at a shift or, where axis i is periodic, at one of its neighbours on this axis.
fn meets_along_i(frame: &Domain, width: IVec, node: IBox, b: IBox, s: Shift) -> bool
    requires { InRange width }
    ensures { result ≡ any_along I frame.now.periodic (meets_at frame.now width node b) s }
{
    if meets_at(frame, width, node, b, s) {
        return true;
    }
    if !frame.periodic.i {
        return false;
    }
    if meets_at(frame, width, node, b, back(s, Axis::I)) {
        return true;
    }
    meets_at(frame, width, node, b, ahead(s, Axis::I))
}

/// The same on the axes i and j.
fn meets_along_j(frame: &Domain, width: IVec, node: IBox, b: IBox, s: Shift) -> bool
    requires { InRange width }
    ensures { result ≡ any_along J frame.now.periodic (any_along I frame.now.periodic (meets_at frame.now width node b)) s }
{
    if meets_along_i(frame, width, node, b, s) {
        return true;
    }
    if !frame.periodic.j {
        return false;
    }
    if meets_along_i(frame, width, node, b, back(s, Axis::J)) {
        return true;
    }
    meets_along_i(frame, width, node, b, ahead(s, Axis::J))
}

/// The same on all three axes.
fn meets_along_k(frame: &Domain, width: IVec, node: IBox, b: IBox, s: Shift) -> bool
    requires { InRange width }
    ensures { result ≡ any_along K frame.now.periodic (any_along J frame.now.periodic (any_along I frame.now.periodic (meets_at frame.now width node b))) s }
{
    if meets_along_j(frame, width, node, b, s) {
        return true;
    }
    if !frame.periodic.k {
        return false;
    }
    if meets_along_j(frame, width, node, b, back(s, Axis::K)) {
        return true;
    }
    meets_along_j(frame, width, node, b, ahead(s, Axis::K))
}

/// Whether a box grown by the width meets an image of a node.
#[tactic(auto, using(crate::proofs::NearLaws::meets_shifts))]
fn meets_an_image(frame: &Domain, width: IVec, node: IBox, b: IBox) -> bool
    requires { InRange width }
    ensures { result ≡ meets_an_image frame.now width node b }
{
    let meets = meets_along_k(frame, width, node, b, HERE);
    meets
}

/// Whether one of these boxes, grown by the width, meets an image of a node's box. `frame` is the
/// domain of the boxes' level, and the width is in cells of it.
#[tactic(auto, unfolding(crate::specs::Near::is_near))]
pub fn is_near(boxes: &[IBox], node: IBox, width: IVec, frame: &Domain) -> bool
    requires { InRange width }
    ensures { result ≡ is_near frame.now width boxes.now node }
{
    for b in boxes {
        if meets_an_image(frame, width, node, *b) {
            return true;
        }
    }
    false
}
