//! The shapes of a problem: balls and slabs, and how they move.

use samr_box::IVec;

/// A shape that tags cells. Positions and lengths are in cells of the finest index space; at step t a
/// shape stands t velocities from its start, wrapped round periodic borders.
#[derive(Clone, Copy, Debug, PartialEq, Eq)]
pub enum Shape {
    /// The cells from `lo`, `size` of them along each axis.
    Slab {
        lo: IVec,
        size: IVec,
        velocity: IVec,
    },
    /// The cells about `at`, up to `radius` away.
    Ball {
        at: IVec,
        radius: i64,
        velocity: IVec,
    },
}
