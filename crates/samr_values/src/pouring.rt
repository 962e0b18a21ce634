//! Writing of parcels into a patch, as they are and refined.

ghost use Rattle.std.specs.Prelude.{◌≡◌, ℕ, true, pos, ◌&&◌, ◌<◌, ◌^◌, ◌↔◌, IsTrue, IfSome, IfNone, List};
ghost use Rattle.std.specs.List.{All};
ghost use Rattle.samr_box.specs.declared.vector.IVec.{IVec as Cell};
ghost use Rattle.samr_box.specs.Vector.{alike, AtMost, InRange};
ghost use Rattle.samr_box.specs.Corners.{Corners, Holds, holds, holds_box, cells_of, met};
ghost use Rattle.samr_box.specs.Ratios.{coarse, refined};
ghost use Rattle.samr_data.specs.Grids.{over, written, copied};
ghost use Rattle.samr_data.specs.Places.{place};
ghost use Rattle.samr_data.specs.Values.{value_in};
ghost use Rattle.samr_ops.specs.Rules.{IsOffset};
ghost use Rattle.samr_values.specs.Patches.{child, poured};
ghost use Rattle.samr_values.specs.Parcels.{IsParcel, same_box, is_for, has_fine, has_coarse, is_told, is_told_under, refined_under, Tell, TellUnder, Refinable};

use samr_box::{IBox, IVec, Ratio, coarsen_cell, contains, holds_box};
use samr_data::{Parcel, Patch, place};
use samr_ops::{Bounds, Refines, Strategy, Updates};

/// Whether two boxes are the same.
fn same_box(a: IBox, b: IBox) -> bool
    ensures { result ≡ same_box a b }
{
    holds_box(a, b) && holds_box(b, a)
}

/// Whether a parcel is for a field of a box.
fn is_for(field: u8, b: IBox, q: &Parcel) -> bool
    ensures { result ≡ is_for field b q.now }
{
    if q.field != field {
        return false;
    }
    same_box(q.edge.head.bx, b)
}

/// Whether it has values of cells of the box.
fn has_fine(field: u8, b: IBox, q: &Parcel) -> bool
    ensures { result ≡ has_fine field b q.now }
{
    !q.is_coarse && is_for(field, b, q)
}

/// Whether it has values of cells under the box.
fn has_coarse(field: u8, b: IBox, q: &Parcel) -> bool
    ensures { result ≡ has_coarse field b q.now }
{
    q.is_coarse && is_for(field, b, q)
}

/// Gives a patch the values of a parcel that has any for it.
fn pour_one(patch: &mut Patch, field: u8, q: &Parcel)
    requires parcel { IsParcel q.now }
    ensures bx { patch.new.bx ≡ patch.old.bx }
    ensures values { (v : Cell → ℕ) → ((x : Cell) → has_fine field patch.old.bx q.now ≡ true → Holds q.now.region x → value_in q.now.region q.now.values x ≡ v x)
        → patch.new ≡ poured patch.old (λ x. has_fine field patch.old.bx q.now && holds q.now.region x) v }
{
    if has_fine(field, patch.bx, q) {
        patch.unpack(q.region, q.values.as_slice());
    }
}

/// Gives a patch the values that parcels have of cells of its box.
pub fn pour(patch: &mut Patch, field: u8, parcels: &[Parcel])
    requires parcels { All IsParcel parcels.now }
    ensures bx { patch.new.bx ≡ patch.old.bx }
    ensures values { (v : Cell → ℕ) → Tell field patch.old.bx parcels.now v
        → patch.new ≡ poured patch.old (is_told field patch.old.bx parcels.now) v }
{
    let _ = &patch.bx;
    for q in parcels {
        pour_one(patch, field, q);
    }
}

/// The place of a cell of a box in row order.
fn place_of(b: IBox, c: IVec) -> usize
    requires inside { Holds b c }
    requires few { cells_of b < 2 ^ 62 }
    ensures value { result ≡ place b c }
    ensures below { result < cells_of b }
    ensures range { InRange c }
{
    let _ = &b.lo;
    place(b, c)
}

/// The place of a fine cell in its coarse cell.
fn child(x: IVec, base: IVec, step: Ratio) -> IVec
    requires range { InRange base }
    requires base { base ≡ coarse x step }
    ensures value { result ≡ child x step }
    ensures offset { AtMost step (alike (pos 4)) → IsOffset result }
{
    x.minus(base.times(step.factors()))
}

/// The refined value of a cell that lies over a region.
fn refined_at<R: Refines, B: Bounds, U: Updates>(
    q: &Parcel,
    step: Ratio,
    strategy: &Strategy<R, B, U>,
    x: IVec,
) -> u32
    requires parcel { IsParcel q.now }
    requires cell { Holds q.now.region (coarse x step) }
    requires fits { value_in q.now.region q.now.values (coarse x step) < strategy.now.modulus }
    requires step { AtMost step (alike (pos 4)) }
    ensures { result ≡ refined_under strategy.now step q.now x }
{
    let c = coarsen_cell(x, step);
    let v = q.values.as_slice()[place_of(q.region, c)];
    strategy.refine(v, child(x, c, step))
}

/// Gives the cells of a part of a patch the refined values of the cells under them.
fn refine_part<R: Refines, B: Bounds, U: Updates>(
    patch: &mut Patch,
    part: IBox,
    step: Ratio,
    q: &Parcel,
    strategy: &Strategy<R, B, U>,
)
    requires inside { IsTrue (holds_box (over patch.old) part) }
    requires parcel { IsParcel q.now }
    requires cells { (x : Cell) → Holds part x → Holds q.now.region (coarse x step) }
    requires fits { (c : Cell) → Holds q.now.region c → value_in q.now.region q.now.values c < strategy.now.modulus }
    requires step { AtMost step (alike (pos 4)) }
    ensures { patch.new ≡ written patch.old (copied patch.old part (refined_under strategy.now step q.now)) }
{
    patch.write_cells(
        part,
        |x: IVec| -> u32
            requires parcel { IsParcel q.now }
            requires cell { Holds q.now.region (coarse x step) }
            requires fits { value_in q.now.region q.now.values (coarse x step) < strategy.now.modulus }
            requires step { AtMost step (alike (pos 4)) }
            ensures { result ≡ refined_under strategy.entry.now step q.entry.now x }
        { refined_at(q, step, strategy, x) },
    );
}

/// The cells of a box that lie over a coarse region, if there are any.
fn over_region(region: IBox, step: Ratio, b: IBox) -> Option<IBox>
    ensures inside { IfSome result (λ part. holds_box b part ≡ true) }
    ensures cells { IfSome result (λ part. (x : Cell) → Holds part x ↔ (Holds b x × Holds region (coarse x step))) }
    ensures none { IfNone result ((x : Cell) → Holds b x → Holds region (coarse x step) → ⊥) }
{
    let factors = step.factors();
    let last = factors.minus(IVec::alike(1));
    part_between(
        region.lo.times(factors),
        region.hi.times(factors).plus(last),
        b,
    )
}

/// The part of a box between two corners, if there is one.
fn part_between(lo: IVec, hi: IVec, b: IBox) -> Option<IBox>
    requires { AtMost lo hi }
    ensures { result ≡ met (record { lo = lo; hi = hi }) b }
{
    if !lo.at_most(b.hi) {
        return None;
    }
    if !b.lo.at_most(hi) {
        return None;
    }
    Some(IBox {
        lo: lo.greatest(b.lo),
        hi: hi.least(b.hi),
    })
}

/// Gives a patch the refined values of a parcel that has any of cells under it.
fn pour_one_under<R: Refines, B: Bounds, U: Updates>(
    patch: &mut Patch,
    field: u8,
    step: Ratio,
    q: &Parcel,
    strategy: &Strategy<R, B, U>,
)
    requires parcel { IsParcel q.now }
    requires fits { (c : Cell) → has_coarse field patch.old.bx q.now ≡ true → Holds q.now.region c → value_in q.now.region q.now.values c < strategy.now.modulus }
    requires step { AtMost step (alike (pos 4)) }
    ensures bx { patch.new.bx ≡ patch.old.bx }
    ensures values { (v : Cell → ℕ) → ((x : Cell) → has_coarse field patch.old.bx q.now ≡ true → Holds patch.old.bx x → Holds q.now.region (coarse x step) → refined_under strategy.now step q.now x ≡ v x)
        → patch.new ≡ poured patch.old (λ x. holds patch.old.bx x && (has_coarse field patch.old.bx q.now && holds q.now.region (coarse x step))) v }
{
    if !has_coarse(field, patch.bx, q) {
        return;
    }
    if let Some(part) = over_region(q.region, step, patch.bx) {
        refine_part(patch, part, step, q, strategy);
    }
}

/// Gives a patch the refined values that parcels have of cells under its box.
pub fn pour_under<R: Refines, B: Bounds, U: Updates>(
    patch: &mut Patch,
    field: u8,
    step: Ratio,
    parcels: &[Parcel],
    strategy: &Strategy<R, B, U>,
)
    requires parcels { All IsParcel parcels.now }
    requires fits { Refinable field strategy.now patch.old.bx parcels.now }
    requires step { AtMost step (alike (pos 4)) }
    ensures bx { patch.new.bx ≡ patch.old.bx }
    ensures values { (v : Cell → ℕ) → TellUnder field step strategy.now patch.old.bx parcels.now v
        → patch.new ≡ poured patch.old (λ x. holds patch.old.bx x && is_told_under field step patch.old.bx parcels.now x) v }
{
    let _ = &patch.bx;
    for q in parcels {
        pour_one_under(patch, field, step, q, strategy);
    }
}
