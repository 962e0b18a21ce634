//! The cuts of a box on all its axes, and the best of them.

ghost use Rattle.std.specs.Prelude.{◌≡◌, ◌<◌, ◌+◌, length, if◌then◌else◌};
ghost use Rattle.std.specs.List.{fold};
ghost use Rattle.samr_box.specs.declared.vector.Axis.{Axis};
ghost use Rattle.samr_sign.specs.Line.{is_turn, zero_cut};
ghost use Rattle.samr_sign.specs.Decide.{ranked, cut_on, turn_at, turns, sharper};

use crate::line::{is_turn, jump, zero_cut};
use samr_box::{Axis, IBox};

/// A cut on an axis, before the plane with a place, counted from 0.
#[derive(Clone, Copy, Debug)]
pub struct Cut {
    pub axis: Axis,
    pub place: usize,
}

/// A cut at which the second difference changes its sign, and by how much it jumps.
#[derive(Clone, Copy, Debug)]
pub struct Turn {
    pub cut: Cut,
    pub jump: u128,
}

/// The axes in an order.
#[derive(Clone, Copy, Debug)]
pub struct Ranked {
    pub first: Axis,
    pub second: Axis,
    pub third: Axis,
}

/// The axes by falling length, in the order i, j, k where lengths are equal.
pub fn by_length(b: IBox) -> Ranked
    ensures { result ≡ ranked b }
{
    let i = b.length(Axis::I);
    let j = b.length(Axis::J);
    let k = b.length(Axis::K);
    let (first, second, third) = if i < j {
        if j < k {
            (Axis::K, Axis::J, Axis::I)
        } else if i < k {
            (Axis::J, Axis::K, Axis::I)
        } else {
            (Axis::J, Axis::I, Axis::K)
        }
    } else if i < k {
        (Axis::K, Axis::I, Axis::J)
    } else if j < k {
        (Axis::I, Axis::K, Axis::J)
    } else {
        (Axis::I, Axis::J, Axis::K)
    };
    Ranked {
        first,
        second,
        third,
    }
}

/// The zero cut of an axis, else another.
pub fn zero_on(axis: Axis, least: u64, s: &[u64], other: Option<Cut>) -> Option<Cut>
    ensures { result ≡ cut_on axis (zero_cut least s.now) other }
{
    match zero_cut(least, s) {
        Some(place) => Some(Cut { axis, place }),
        None => other,
    }
}

/// The sharper of two turns, the earlier on a tie.
fn sharper(best: Option<Turn>, turn: Turn) -> Option<Turn>
    ensures { result ≡ sharper best turn }
{
    match best {
        None => Some(turn),
        Some(b) => {
            if b.jump < turn.jump {
                Some(turn)
            } else {
                Some(b)
            }
        }
    }
}

/// The turn at a cut.
fn turn_at(axis: Axis, s: &[u64], place: usize) -> Turn
    requires low { 1 < place }
    requires high { place + 1 < length s.now }
    ensures { result ≡ turn_at axis s.now place }
{
    Turn {
        cut: Cut { axis, place },
        jump: jump(s, place),
    }
}

/// The sharper of a turn and that at a place, if there is one.
fn sharper_at(best: Option<Turn>, axis: Axis, least: u64, s: &[u64], place: usize) -> Option<Turn>
    ensures { result ≡ (if is_turn least s.now place then sharper best (turn_at axis s.now place) else best) }
{
    if is_turn(least, s, place) {
        return sharper(best, turn_at(axis, s, place));
    }
    best
}

/// The sharpest of a turn and those of an axis.
pub fn sharpest(best: Option<Turn>, axis: Axis, least: u64, s: &[u64]) -> Option<Turn>
    ensures { result ≡ fold sharper best (turns least axis s.now) }
{
    let mut best = best;
    for place in 0..s.len() {
        best = sharper_at(best, axis, least, s, place);
    }
    best
}
