//! Worked rows of shapes: which cells a ball and a slab tag.

ghost use Rattle.std.specs.Prelude.{All, pos, negsuc, ◌≤ℤ◌};
ghost use Rattle.samr_shape.specs.Tags.{IsShape};

use samr_box::{Domain, Flags, IVec, Ratio};
use samr_shape::{Shape, tags};
use std::test::Fail;

/// A domain of a two-dimensional problem, periodic along i.
fn domain(length: i64) -> Option<Domain> {
    let periodic = Flags {
        k: false,
        j: false,
        i: true,
    };
    Domain::new(IVec::new(length, length, 1), periodic)
}

/// Whether the shape alone tags a cell of the finest level, or of the one whose cells are twice as
/// long along i and j.
fn is_tagged(shape: Shape, finest: &Domain, coarse: bool, i: i64, j: i64, step: u32) -> bool
    requires shape { IsShape shape }
    requires low_i { negsuc 99 ≤ℤ i }
    requires high_i { i ≤ℤ pos 100 }
    requires low_j { negsuc 99 ≤ℤ j }
    requires high_j { j ≤ℤ pos 100 }
{
    let cell = IVec { k: 0, j, i };
    if coarse {
        return tags(&[shape], finest, Ratio { k: 1, j: 2, i: 2 }, cell, step);
    }
    tags(&[shape], finest, Ratio { k: 1, j: 1, i: 1 }, cell, step)
}

#[test]
fn a_ball_tags_the_cells_that_it_reaches(rt: HostRuntime) -> Result<(), Fail> {
    let Some(finest) = domain(16) else {
        return Ok(());
    };
    let at = IVec { k: 0, j: 8, i: 8 };
    let velocity = IVec { k: 0, j: 0, i: 0 };
    let point = Shape::Ball {
        at,
        radius: 0,
        velocity,
    };
    let ball = Shape::Ball {
        at,
        radius: 1,
        velocity,
    };
    assert!(rt; is_tagged(point, &finest, false, 8, 8, 0));
    assert!(rt; !is_tagged(point, &finest, false, 9, 8, 0));
    assert!(rt; !is_tagged(point, &finest, true, 4, 4, 0));
    assert!(rt; !is_tagged(point, &finest, true, 3, 3, 0));
    assert!(rt; is_tagged(ball, &finest, true, 4, 4, 0));
    assert!(rt; !is_tagged(ball, &finest, true, 3, 4, 0));
    assert!(rt; !is_tagged(ball, &finest, true, 4, 3, 0));
    Ok(())
}

#[test]
fn a_slab_moves_and_wraps_round(rt: HostRuntime) -> Result<(), Fail> {
    let Some(finest) = domain(16) else {
        return Ok(());
    };
    let slab = Shape::Slab {
        lo: IVec { k: 0, j: 6, i: 14 },
        size: IVec { k: 1, j: 4, i: 4 },
        velocity: IVec { k: 0, j: 8, i: 8 },
    };
    assert!(rt; is_tagged(slab, &finest, false, 15, 9, 0));
    assert!(rt; is_tagged(slab, &finest, false, 1, 9, 0));
    assert!(rt; !is_tagged(slab, &finest, false, 2, 9, 0));
    assert!(rt; !is_tagged(slab, &finest, false, 13, 9, 0));
    assert!(rt; is_tagged(slab, &finest, true, 7, 3, 0));
    assert!(rt; is_tagged(slab, &finest, false, 6, 14, 1));
    assert!(rt; !is_tagged(slab, &finest, false, 6, 9, 1));
    assert!(rt; !is_tagged(slab, &finest, false, 14, 6, 2));
    Ok(())
}
