//! Writing of values of the level below, refined.

ghost use Rattle.std.specs.Prelude.{◌≡◌, ◌<◌, ◌&&◌, ℕ, pos, length, IfOk, OnOk, IsTrue, true};
ghost use Rattle.std.specs.List.{All};
ghost use Rattle.samr_box.specs.declared.vector.IVec.{IVec as Cell};
ghost use Rattle.samr_box.specs.Vector.{alike, AtMost, InRange, IsRatio, plus};
ghost use Rattle.samr_box.specs.Corners.{Holds, holds, holds_box, cells_of, met};
ghost use Rattle.samr_box.specs.Ratios.{coarse, refined};
ghost use Rattle.samr_data.specs.Places.{moved_back};
ghost use Rattle.samr_data.specs.Values.{value_in};
ghost use Rattle.samr_data.specs.Grids.{over, value_at, written, copied};
ghost use Rattle.samr_ops.specs.Rules.{IsOffset, refined_value};
ghost use Rattle.samr_fill.specs.Fill.{child};
ghost use Rattle.samr_fill.specs.Writing.{refined_at, takes_from, any_takes_from, takes, taken, AreOf, Fixes};

use crate::parts::part_of;
use samr_box::{IBox, IVec, Ratio, coarsen_cell};
use samr_data::{Parcel, Patch};
use samr_ops::{Bounds, Refines, Strategy, Updates};
use samr_sched::Plan;
use std::alloc::{AllocError as NoMemory, Global};

/// The values of a parcel as a patch.
fn values_of(alloc: Global, parcel: &Parcel) -> Result<Patch, NoMemory>
    requires { length parcel.now.values ≡ cells_of parcel.now.region }
    ensures bx { IfOk result (λ p. over p ≡ parcel.now.region) }
    ensures values { IfOk result (λ p. (y : Cell) → Holds parcel.now.region y → value_at p y ≡ value_in parcel.now.region parcel.now.values y) }
{
    let region = parcel.region;
    let _ = &region.lo;
    let mut values = Patch::new(alloc, region, IVec::alike(0))?;
    values.unpack(region, parcel.values.as_slice());
    Ok(values)
}

/// The cell of another index space that lies over a cell.
fn cell_over(x: IVec, step: Ratio, offset: IVec) -> IVec
    requires cell { InRange x }
    requires offset { InRange offset }
    ensures { result ≡ plus (coarse x step) offset }
{
    coarsen_cell(x, step).plus(offset)
}

/// Where a cell lies in its coarse cell.
fn child_of(x: IVec, step: Ratio) -> IVec
    requires cell { InRange x }
    requires small { AtMost step (alike (pos 4)) }
    ensures value { result ≡ child x step }
    ensures offset { IsOffset result }
{
    x.minus(coarsen_cell(x, step).times(step.factors()))
}

/// The refined value of a cell, from a patch of coarse cells.
fn refined_at<R: Refines, B: Bounds, U: Updates>(
    source: &Patch,
    step: Ratio,
    offset: IVec,
    strategy: &Strategy<R, B, U>,
    x: IVec,
) -> u32
    requires cell { InRange x }
    requires offset { InRange offset }
    requires small { AtMost step (alike (pos 4)) }
    requires here { Holds (over source.now) (plus (coarse x step) offset) }
    requires below { value_at source.now (plus (coarse x step) offset) < strategy.now.modulus }
    ensures { result ≡ refined_at strategy.now source.now step offset x }
{
    let value = source.get(cell_over(x, step, offset));
    strategy.refine(value, child_of(x, step))
}

/// The cells of a box that lie under another, moved back by an offset.
fn part_under(piece: IBox, b: IBox, step: Ratio, offset: IVec) -> Option<IBox>
    requires { InRange offset }
    ensures value { result ≡ met piece (refined (moved_back b offset) step) }
    ensures ratio { IsRatio step }
{
    let factors = step.factors();
    let rest = factors.minus(IVec::alike(1));
    let lo = b.lo.minus(offset).times(factors);
    let hi = b.hi.minus(offset).times(factors).plus(rest);
    part_of(piece, lo, hi)
}

/// Writes the refined values of a part of a patch.
fn write_part<R: Refines, B: Bounds, U: Updates>(
    patch: &mut Patch,
    source: &Patch,
    step: Ratio,
    offset: IVec,
    strategy: &Strategy<R, B, U>,
    region: IBox,
)
    requires into { IsTrue (holds_box (over patch.old) region) }
    requires offset { InRange offset }
    requires small { AtMost step (alike (pos 4)) }
    requires here { (x : Cell) → Holds region x → Holds (over source.now) (plus (coarse x step) offset) }
    requires below { (y : Cell) → Holds (over source.now) y → value_at source.now y < strategy.now.modulus }
    ensures { patch.new ≡ written patch.old (copied patch.old region (refined_at strategy.now source.now step offset)) }
{
    let _ = &region.lo;
    patch.write_cells(
        region,
        |x: IVec| -> u32
            requires cell { InRange x }
            requires offset { InRange offset }
            requires small { AtMost step (alike (pos 4)) }
            requires here { Holds (over source.now) (plus (coarse x step) offset) }
            requires below { value_at source.now (plus (coarse x step) offset) < strategy.now.modulus }
            ensures { result ≡ refined_at strategy.entry.now source.entry.now step offset x }
        { refined_at(source, step, offset, strategy, x) },
    );
}

/// Writes the refined values of the cells of a piece that lie under a patch of coarse cells.
fn write_piece<R: Refines, B: Bounds, U: Updates>(
    patch: &mut Patch,
    source: &Patch,
    step: Ratio,
    offset: IVec,
    strategy: &Strategy<R, B, U>,
    piece: IBox,
)
    requires into { IsTrue (holds_box (over patch.old) piece) }
    requires offset { InRange offset }
    requires small { AtMost step (alike (pos 4)) }
    requires below { (y : Cell) → Holds (over source.now) y → value_at source.now y < strategy.now.modulus }
    ensures { (v : Cell → ℕ) → ((x : Cell) → takes_from (over source.now) step offset piece x ≡ true → refined_at strategy.now source.now step offset x ≡ v x)
        → Fixes v (takes_from (over source.now) step offset piece) patch.old patch.new }
{
    if let Some(region) = part_under(piece, source.over(), step, offset) {
        write_part(patch, source, step, offset, strategy, region);
    }
}

/// Writes the refined values of the cells of pieces that lie under a patch of coarse cells.
fn write_pieces<R: Refines, B: Bounds, U: Updates>(
    patch: &mut Patch,
    source: &Patch,
    step: Ratio,
    offset: IVec,
    strategy: &Strategy<R, B, U>,
    pieces: &[IBox],
)
    requires into { All (λ c. IsTrue (holds_box (over patch.old) c)) pieces.now }
    requires offset { InRange offset }
    requires small { AtMost step (alike (pos 4)) }
    requires below { (y : Cell) → Holds (over source.now) y → value_at source.now y < strategy.now.modulus }
    ensures { (v : Cell → ℕ) → ((x : Cell) → any_takes_from (over source.now) step offset pieces.now x ≡ true → refined_at strategy.now source.now step offset x ≡ v x)
        → Fixes v (any_takes_from (over source.now) step offset pieces.now) patch.old patch.new }
{
    for piece in pieces {
        write_piece(patch, source, step, offset, strategy, *piece);
    }
}

/// Writes the refined values of a parcel into the cells that the level does not have.
pub fn write_coarse<R: Refines, B: Bounds, U: Updates>(
    alloc: Global,
    patch: &mut Patch,
    plan: &Plan,
    rest: &[IBox],
    parcel: &Parcel,
    strategy: &Strategy<R, B, U>,
) -> Result<(), NoMemory>
    requires coarse { parcel.now.is_coarse ≡ true }
    requires into { All (λ c. IsTrue (holds_box (over patch.old) c)) rest.now }
    requires small { AtMost plan.now.step (alike (pos 4)) }
    requires full { length parcel.now.values ≡ cells_of parcel.now.region }
    requires below { (y : Cell) → Holds parcel.now.region y → value_in parcel.now.region parcel.now.values y < strategy.now.modulus }
    ensures { OnOk result ((v : Cell → ℕ) → AreOf v plan.now strategy.now rest.now parcel.now → Fixes v (takes plan.now rest.now parcel.now) patch.old patch.new) }
{
    let source = values_of(alloc, parcel)?;
    let edge = parcel.edge;
    let offset = plan.below.offset(edge.shift);
    write_pieces(patch, &source, plan.step, offset, strategy, rest);
    Ok(())
}
