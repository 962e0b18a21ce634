//! Writing of values of the level below, refined linearly.

ghost use Rattle.std.specs.Prelude.{◌≡◌, ◌<◌, ℕ, pos, length, IfOk, OnOk, IsTrue, true};
ghost use Rattle.std.specs.List.{All};
ghost use Rattle.samr_box.specs.declared.vector.IVec.{IVec as Cell};
ghost use Rattle.samr_box.specs.Vector.{alike, AtMost, InRange, IsRatio};
ghost use Rattle.samr_box.specs.Corners.{IsBox, Holds, holds_box, cells_of, met};
ghost use Rattle.samr_box.specs.Ratios.{refined};
ghost use Rattle.samr_data.specs.Places.{moved_back};
ghost use Rattle.samr_data.specs.Values.{value_in};
ghost use Rattle.samr_data.specs.Grids.{over, value_at};
ghost use Rattle.samr_fill.specs.Writing.{takes_from, any_takes_from, Fixes};
ghost use Rattle.samr_linear.specs.Scratches.{linear_at};
ghost use Rattle.samr_linear.specs.LinearWriting.{inner, takes, IsSource, AreOf};

use crate::part::write_linear;
use crate::parts::{one_around, part_of};
use crate::stencil::{RefinesLinearly, Stencil};
use samr_box::{Flags, IBox, IVec, Ratio};
use samr_data::{Parcel, Patch};
use samr_sched::Plan;
use std::alloc::{AllocError as NoMemory, Global};

/// The values of a parcel as a patch.
fn values_of(alloc: Global, parcel: &Parcel) -> Result<Patch, NoMemory>
    requires { length parcel.now.values ≡ cells_of parcel.now.region }
    ensures bx { IfOk result (λ p. over p ≡ parcel.now.region) }
    ensures values { IfOk result (λ p. (y : Cell) → Holds parcel.now.region y → value_at p y ≡ value_in parcel.now.region parcel.now.values y) }
{
    let region = parcel.region;
    let _ = &region.lo;
    let mut values = Patch::new(alloc, region, IVec::alike(0))?;
    values.unpack(region, parcel.values.as_slice());
    Ok(values)
}

/// A region without the cells about it.
fn inner(region: IBox, real: Flags) -> IBox
    requires { IsBox (inner real region) }
    ensures { result ≡ inner real region }
{
    let ring = one_around(real);
    IBox {
        lo: region.lo.plus(ring),
        hi: region.hi.minus(ring),
    }
}

/// The cells of a box that lie under another, moved back by an offset.
fn part_under(piece: IBox, b: IBox, step: Ratio, offset: IVec) -> Option<IBox>
    requires { InRange offset }
    ensures value { result ≡ met piece (refined (moved_back b offset) step) }
    ensures ratio { IsRatio step }
{
    let factors = step.factors();
    let rest = factors.minus(IVec::alike(1));
    let lo = b.lo.minus(offset).times(factors);
    let hi = b.hi.minus(offset).times(factors).plus(rest);
    part_of(piece, lo, hi)
}

/// Writes the refined values of the cells of a piece that lie under cells of a scratch patch.
fn write_piece<L: RefinesLinearly>(
    patch: &mut Patch,
    source: &Patch,
    under: IBox,
    step: Ratio,
    offset: IVec,
    stencil: &Stencil<L>,
    real: Flags,
    piece: IBox,
)
    requires into { IsTrue (holds_box (over patch.old) piece) }
    requires offset { InRange offset }
    requires small { AtMost step (alike (pos 4)) }
    requires same_step { step ≡ stencil.now.ratio }
    requires real { real ≡ stencil.now.real }
    requires source { IsSource stencil.now source.now under }
    ensures { (v : Cell → ℕ) → ((x : Cell) → takes_from under step offset piece x ≡ true → linear_at stencil.now source.now step offset x ≡ v x)
        → Fixes v (takes_from under step offset piece) patch.old patch.new }
{
    let _ = &under.lo;
    let _ = &piece.lo;
    if let Some(region) = part_under(piece, under, step, offset) {
        write_linear(patch, stencil, real, source, step, offset, region);
    }
}

/// Writes the refined values of the cells of pieces that lie under cells of a scratch patch.
fn write_pieces<L: RefinesLinearly>(
    patch: &mut Patch,
    source: &Patch,
    under: IBox,
    step: Ratio,
    offset: IVec,
    stencil: &Stencil<L>,
    real: Flags,
    pieces: &[IBox],
)
    requires into { All (λ c. IsTrue (holds_box (over patch.old) c)) pieces.now }
    requires offset { InRange offset }
    requires small { AtMost step (alike (pos 4)) }
    requires same_step { step ≡ stencil.now.ratio }
    requires real { real ≡ stencil.now.real }
    requires source { IsSource stencil.now source.now under }
    ensures { (v : Cell → ℕ) → ((x : Cell) → any_takes_from under step offset pieces.now x ≡ true → linear_at stencil.now source.now step offset x ≡ v x)
        → Fixes v (any_takes_from under step offset pieces.now) patch.old patch.new }
{
    for piece in pieces {
        write_piece(patch, source, under, step, offset, stencil, real, *piece);
    }
}

/// Writes the refined values of a parcel into the cells that the level does not have.
pub fn write_coarse<L: RefinesLinearly>(
    alloc: Global,
    patch: &mut Patch,
    plan: &Plan,
    rest: &[IBox],
    parcel: &Parcel,
    stencil: &Stencil<L>,
    real: Flags,
) -> Result<(), NoMemory>
    requires coarse { parcel.now.is_coarse ≡ true }
    requires into { All (λ c. IsTrue (holds_box (over patch.old) c)) rest.now }
    requires small { AtMost plan.now.step (alike (pos 4)) }
    requires same_step { plan.now.step ≡ stencil.now.ratio }
    requires real { real ≡ stencil.now.real }
    requires full { length parcel.now.values ≡ cells_of parcel.now.region }
    requires solid { IsBox (inner stencil.now.real parcel.now.region) }
    requires below { (y : Cell) → Holds (inner stencil.now.real parcel.now.region) y → value_in parcel.now.region parcel.now.values y < stencil.now.modulus }
    ensures { OnOk result ((v : Cell → ℕ) → AreOf v plan.now stencil.now rest.now parcel.now → Fixes v (takes plan.now stencil.now.real rest.now parcel.now) patch.old patch.new) }
{
    let source = values_of(alloc, parcel)?;
    let edge = parcel.edge;
    let region = parcel.region;
    let _ = &region.lo;
    let under = inner(region, real);
    let offset = plan.below.offset(edge.shift);
    write_pieces(
        patch, &source, under, plan.step, offset, stencil, real, rest,
    );
    Ok(())
}
