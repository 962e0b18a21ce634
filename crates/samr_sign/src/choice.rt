//! The decision on a box from its signature: dropped, accepted or cut in two.

ghost use Rattle.std.specs.Prelude.{◌≡◌, ◌*◌, ◌<◌, ◌≤◌, ◌^◌, nat_lt, nat_le, length};
ghost use Rattle.samr_box.specs.declared.vector.Axis.{Axis};
ghost use Rattle.samr_box.specs.Corners.{span, cells_of};
ghost use Rattle.samr_sign.specs.Counts.{counts, total, IsSign};
ghost use Rattle.samr_sign.specs.Line.{leading, trailing};
ghost use Rattle.samr_sign.specs.Decide.{steps, shrunk, line, ranked, zero_of, turn_of, cut_of, split_by, decide_of};

use crate::cuts::{Cut, Ranked, Turn, by_length, sharpest, zero_on};
use crate::decision::Decision;
use crate::line::{end, kept, leading};
use crate::rule::CutRule;
use crate::signature::Signature;
use samr_box::{Axis, IBox, IVec, split_after};

/// A number of planes for each axis.
fn steps(i: usize, j: usize, k: usize) -> IVec
    requires small_i { i < 2 ^ 32 }
    requires small_j { j < 2 ^ 32 }
    requires small_k { k < 2 ^ 32 }
    ensures { result ≡ steps i j k }
{
    IVec {
        k: k as i64,
        j: j as i64,
        i: i as i64,
    }
}

/// How many planes without a tag come first on an axis.
fn before(s: &Signature, axis: Axis) -> usize
    ensures value { result ≡ leading (counts axis s.now) }
    ensures small { result < 2 ^ 32 }
{
    leading(s.counts(axis))
}

/// How many planes without a tag come last on an axis.
fn behind(s: &Signature, axis: Axis) -> usize
    ensures value { result ≡ trailing (counts axis s.now) }
    ensures small { result < 2 ^ 32 }
{
    let counts = s.counts(axis);
    counts.len() - end(counts)
}

/// The box from its first to its last plane with a tag on each axis.
fn shrunk(s: &Signature) -> IBox
    requires { 0 < total s.now }
    ensures value { result ≡ shrunk s.now }
    ensures lengths { (axis : Axis) → span axis result ≡ length (line axis s.now) }
{
    let before = steps(before(s, Axis::I), before(s, Axis::J), before(s, Axis::K));
    let behind = steps(behind(s, Axis::I), behind(s, Axis::J), behind(s, Axis::K));
    let b = s.bx();
    IBox {
        lo: b.lo.plus(before),
        hi: b.hi.minus(behind),
    }
}

/// The counts of the planes of the shrunk box on an axis.
fn line(s: &Signature, axis: Axis) -> &[u64]
    ensures { result.now ≡ line axis s.now }
{
    kept(s.counts(axis))
}

/// A zero cut, on the first axis that has one.
#[tactic(auto, unfolding(crate::specs::Decide::zero_of))]
fn zero_of(s: &Signature, least: u64, axes: Ranked) -> Option<Cut>
    ensures { result ≡ zero_of s.now least axes }
{
    let third = zero_on(axes.third, least, line(s, axes.third), None);
    let second = zero_on(axes.second, least, line(s, axes.second), third);
    zero_on(axes.first, least, line(s, axes.first), second)
}

/// The sharpest inflection cut of all axes.
#[tactic(auto, unfolding(crate::specs::Decide::turn_of))]
fn turn_of(s: &Signature, least: u64, axes: Ranked) -> Option<Turn>
    ensures { result ≡ turn_of s.now least axes }
{
    let first = sharpest(None, axes.first, least, line(s, axes.first));
    let second = sharpest(first, axes.second, least, line(s, axes.second));
    sharpest(second, axes.third, least, line(s, axes.third))
}

/// The cut: a zero cut, else an inflection cut, else the longest axis is halved.
#[tactic(auto, unfolding(crate::specs::Decide::cut_of))]
fn cut_of(s: &Signature, least: u64, b: IBox) -> Cut
    ensures { result ≡ cut_of s.now least b }
{
    let axes = by_length(b);
    if let Some(cut) = zero_of(s, least, axes) {
        return cut;
    }
    if let Some(turn) = turn_of(s, least, axes) {
        return turn.cut;
    }
    Cut {
        axis: axes.first,
        place: (b.length(axes.first) / 2) as usize,
    }
}

/// Whether enough of the cells of a box are tagged.
fn is_efficient(b: IBox, total: u64, rule: &CutRule) -> bool
    ensures { result ≡ nat_le (rule.now.efficiency * cells_of b) (100 * total) }
{
    let efficiency = rule.efficiency;
    let plane = u128::from(b.length(Axis::I)) * u128::from(b.length(Axis::J));
    let cells = plane * u128::from(b.length(Axis::K));
    u128::from(efficiency) * cells <= 100 * u128::from(total)
}

/// Whether no axis is long enough to be cut.
fn is_short(b: IBox, least: u64) -> bool
    ensures { result ≡ nat_lt (span (ranked b).first b) (2 * least) }
{
    u128::from(b.length(by_length(b).first)) < 2 * u128::from(least)
}

/// The parts of a box before a cut and from it on.
fn split_by(b: IBox, cut: Cut) -> Decision
    requires some { 0 < cut.place }
    requires rest { cut.place < span cut.axis b }
    ensures { result ≡ split_by b cut }
{
    let (before, from) = split_after(b, cut.axis, cut.place as u64);
    Decision::Split(before, from)
}

/// What becomes of a box with this signature.
#[tactic(auto, unfolding(crate::specs::Decide::decide_of))]
pub fn decide(s: &Signature, rule: &CutRule) -> Decision
    ensures { result ≡ decide_of s.now rule.now }
{
    if s.total() == 0 {
        return Decision::Drop;
    }
    let b = shrunk(s);
    if is_efficient(b, s.total(), rule) {
        return Decision::Accept(b);
    }
    let least = rule.smallest.unsigned_abs();
    if is_short(b, least) {
        return Decision::Accept(b);
    }
    split_by(b, cut_of(s, least, b))
}
