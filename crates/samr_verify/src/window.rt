//! Ranges of cells that may leave the range of boxes, wrapped round periodic borders.

ghost use Rattle.std.specs.Prelude.{◌≡◌, ◌∷◌, [], ◌++◌, pos, IfOk, OnOk};
ghost use Rattle.std.specs.List.{flat_map, filter_map};
ghost use Rattle.std.specs.Option.{option_to_list};
ghost use Rattle.samr_box.specs.Vector.{at, put, alike, AtMost, minus};
ghost use Rattle.samr_box.specs.Corners.{met, grown};
ghost use Rattle.samr_box.specs.Ratios.{coarsened};
ghost use Rattle.samr_box.specs.Space.{IsSpace};
ghost use Rattle.samr_verify.specs.MeshFaults.{rest_in_cell, last_of, with_range, turned, folded_by, folded_on, wrapped_boxes};
ghost use Rattle.samr_verify.specs.Windows.{IsWindow, IsRange};

use samr_box::{Axis, Domain, IBox, IVec, Ratio, coarsen};
use std::alloc::{AllocError as NoMemory, Global};
use std::marker::Model;

/// A range of cells that may leave the range of boxes.
#[derive(Clone, Copy, Debug)]
pub(crate) struct Window {
    pub lo: IVec,
    pub hi: IVec,
}

impl Model for Window {
    ghost use Rattle.samr_box.specs.Corners.{Corners};
    ghost use Rattle.samr_verify.specs.Windows.{IsWindow};

    ghost Value = { Corners };

    ghost view = { λ w. record { lo = w.lo; hi = w.hi } };

    ghost invariant = { λ w. IsWindow (record { lo = w.lo; hi = w.hi }) };

    ghost inverse = { λ v. record { lo = v.lo; hi = v.hi } };
}

/// The coarse cells of a box, and all cells within a width of them.
pub(crate) fn around(b: IBox, step: Ratio, nest: IVec) -> Window
    requires low { AtMost (alike (pos 0)) nest }
    requires high { AtMost nest (alike (pos 1073741824)) }
    ensures { result ≡ grown (coarsened b step) nest }
{
    let c = coarsen(b, step);
    grown(c, nest)
}

/// A box with all cells within a width of it.
fn grown(b: IBox, nest: IVec) -> Window
    requires low { AtMost (alike (pos 0)) nest }
    requires high { AtMost nest (alike (pos 1073741824)) }
    ensures { result ≡ grown b nest }
{
    Window {
        lo: b.lo.minus(nest),
        hi: b.hi.plus(nest),
    }
}

/// A cell with another's number on an axis.
fn taken(x: IVec, axis: Axis, other: IVec) -> IVec
    ensures { result ≡ put axis x (at axis other) }
{
    match axis {
        Axis::I => IVec { i: other.i, ..x },
        Axis::J => IVec { j: other.j, ..x },
        Axis::K => IVec { k: other.k, ..x },
    }
}

/// The same window with another range on an axis.
fn with_range(axis: Axis, b: Window, lo: IVec, hi: IVec) -> Window
    requires { IsRange axis lo hi }
    ensures { result ≡ with_range axis b lo hi }
{
    Window {
        lo: taken(b.lo, axis, lo),
        hi: taken(b.hi, axis, hi),
    }
}

/// The remainders by lengths.
fn rest(x: IVec, n: IVec) -> IVec
    requires { AtMost (alike (pos 1)) n }
    ensures { result ≡ rest_in_cell x n }
{
    IVec {
        k: x.k.rem_euclid(n.k),
        j: x.j.rem_euclid(n.j),
        i: x.i.rem_euclid(n.i),
    }
}

/// The last cell of a domain.
fn last_of(d: &Domain) -> IVec
    ensures value { result ≡ last_of d.now.size }
    ensures space { IsSpace d.now }
{
    let _ = &d.size;
    d.whole().hi
}

/// The first cell of a domain.
fn first() -> IVec
    ensures { result ≡ alike (pos 0) }
{
    IVec { k: 0, j: 0, i: 0 }
}

/// The remainders of a cell by the domain's lengths.
fn rest_in(d: &Domain, x: IVec) -> IVec
    ensures value { result ≡ rest_in_cell x d.now.size }
    ensures space { IsSpace d.now }
{
    rest(x, d.size)
}

/// A window with a range on an axis that may pass the border.
fn turned(
    alloc: Global,
    axis: Axis,
    d: &Domain,
    b: Window,
    from: IVec,
    to: IVec,
) -> Result<Vec<Window>, NoMemory>
    requires from { IsRange axis from (last_of d.now.size) }
    requires to { IsRange axis (alike (pos 0)) to }
    ensures { IfOk result (λ v. v.items ≡ turned axis b d.now.size from to) }
{
    if to.is_below(axis, from) {
        let parts = pair_of(
            alloc,
            with_range(axis, b, first(), to),
            with_range(axis, b, from, last_of(d)),
        )?;
        return Ok(parts);
    }
    let parts = single(alloc, with_range(axis, b, from, to))?;
    Ok(parts)
}

/// A list of one window, and of two.
fn single(alloc: Global, a: Window) -> Result<Vec<Window>, NoMemory>
    ensures { IfOk result (λ v. v.items ≡ a ∷ []) }
{
    let mut out = Vec::new(alloc);
    out.push(a)?;
    Ok(out)
}

fn pair_of(alloc: Global, a: Window, b: Window) -> Result<Vec<Window>, NoMemory>
    ensures { IfOk result (λ v. v.items ≡ a ∷ b ∷ []) }
{
    let mut out = Vec::new(alloc);
    out.push(a)?;
    out.push(b)?;
    Ok(out)
}

/// How far the corners of a window are apart.
fn spread(b: Window) -> IVec
    ensures value { result ≡ minus b.hi b.lo }
    ensures window { IsWindow b }
{
    b.hi.minus(b.lo)
}

/// A window, on an axis wrapped round the border.
fn folded_by(alloc: Global, axis: Axis, d: &Domain, b: Window) -> Result<Vec<Window>, NoMemory>
    ensures { IfOk result (λ v. v.items ≡ folded_by axis d.now.size b) }
{
    if spread(b).is_below(axis, last_of(d)) {
        let parts = turned(alloc, axis, d, b, rest_in(d, b.lo), rest_in(d, b.hi))?;
        return Ok(parts);
    }
    let parts = single(alloc, with_range(axis, b, first(), last_of(d)))?;
    Ok(parts)
}

/// A window, wrapped where the axis is periodic.
fn folded_on(alloc: Global, axis: Axis, d: &Domain, b: Window) -> Result<Vec<Window>, NoMemory>
    ensures { IfOk result (λ v. v.items ≡ folded_on axis d.now b) }
{
    if !d.periodic.at(axis) {
        let parts = single(alloc, b)?;
        return Ok(parts);
    }
    let parts = folded_by(alloc, axis, d, b)?;
    Ok(parts)
}

/// All windows of a list, wrapped where the axis is periodic.
fn all_folded_on(
    alloc: Global,
    axis: Axis,
    d: &Domain,
    list: &[Window],
) -> Result<Vec<Window>, NoMemory>
    ensures { IfOk result (λ v. v.items ≡ flat_map (folded_on axis d.now) list.now) }
{
    let mut out = Vec::new(alloc);
    for b in list {
        let parts = folded_on(alloc, axis, d, *b)?;
        out.extend_from_slice(parts.as_slice())?;
    }
    Ok(out)
}

/// The cells of a window, wrapped round the periodic borders.
pub(crate) fn wrapped_boxes(alloc: Global, d: &Domain, b: Window) -> Result<Vec<Window>, NoMemory>
    ensures { IfOk result (λ v. v.items ≡ wrapped_boxes d.now b) }
{
    let i = folded_on(alloc, Axis::I, d, b)?;
    let j = all_folded_on(alloc, Axis::J, d, i.as_slice())?;
    let k = all_folded_on(alloc, Axis::K, d, j.as_slice())?;
    Ok(k)
}

/// The common cells of a box and a window.
fn common(p: IBox, w: Window) -> Option<IBox>
    ensures { result ≡ met p w }
{
    if !p.lo.at_most(w.hi) {
        return None;
    }
    if !w.lo.at_most(p.hi) {
        return None;
    }
    Some(IBox {
        lo: p.lo.greatest(w.lo),
        hi: p.hi.least(w.hi),
    })
}

/// Adds a box, if there is one.
fn push_some(b: Option<IBox>, out: &mut Vec<IBox>) -> Result<(), NoMemory>
    ensures { OnOk result (out.new.items ≡ out.old.items ++ option_to_list b) }
{
    if let Some(b) = b {
        out.push(b)?;
    }
    Ok(())
}

/// Adds what a window has in common with a box.
fn push_met(p: IBox, w: &Window, out: &mut Vec<IBox>) -> Result<(), NoMemory>
    ensures { OnOk result (out.new.items ≡ out.old.items ++ option_to_list (met p w.now)) }
{
    push_some(common(p, *w), out)?;
    Ok(())
}

/// Adds what a window has in common with each of some boxes.
pub(crate) fn push_common(boxes: &[IBox], w: &Window, out: &mut Vec<IBox>) -> Result<(), NoMemory>
    ensures { OnOk result (out.new.items ≡ out.old.items ++ filter_map (λ p. met p w.now) boxes.now) }
{
    for p in boxes {
        push_met(*p, w, out)?;
    }
    Ok(())
}
