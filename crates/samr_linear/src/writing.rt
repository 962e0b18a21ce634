//! Writing of parcels into the patch that they are for.

ghost use Rattle.std.specs.Prelude.{◌≡◌, ℕ, pos, length, OnOk, IsTrue};
ghost use Rattle.std.specs.List.{All};
ghost use Rattle.samr_box.specs.declared.vector.IVec.{IVec as Cell};
ghost use Rattle.samr_box.specs.Vector.{alike, AtMost};
ghost use Rattle.samr_box.specs.Corners.{holds_box, cells_of};
ghost use Rattle.samr_box.specs.Lists.{Member};
ghost use Rattle.samr_data.specs.Values.{value_in};
ghost use Rattle.samr_data.specs.Grids.{over, written, copied};
ghost use Rattle.samr_data.specs.declared.parcel.Parcel.{Parcel as ParcelOf};
ghost use Rattle.samr_fill.specs.Writing.{target, Fixes};
ghost use Rattle.samr_linear.specs.LinearWriting.{takes, any_takes, IsFit, AreOf};

use crate::coarse::write_coarse;
use crate::parts::moved_back;
use crate::stencil::{RefinesLinearly, Stencil};
use samr_box::{Domain, Flags, IBox};
use samr_data::{Parcel, Patch};
use samr_sched::Plan;
use std::alloc::{AllocError as NoMemory, Global};

/// Writes copied values where the head of their edge stands.
fn write_copied(patch: &mut Patch, d: &Domain, parcel: &Parcel)
    requires into { IsTrue (holds_box (over patch.old) (target d.now parcel.now)) }
    requires full { length parcel.now.values ≡ cells_of parcel.now.region }
    ensures { patch.new ≡ written patch.old (copied patch.old (target d.now parcel.now) (value_in (target d.now parcel.now) parcel.now.values)) }
{
    let _ = patch.over();
    let edge = parcel.edge;
    let region = parcel.region;
    let _ = &region.lo;
    let place = moved_back(region, d.offset(edge.shift));
    patch.unpack(place, parcel.values.as_slice());
}

/// Writes the values of a parcel.
fn write_parcel<L: RefinesLinearly>(
    alloc: Global,
    patch: &mut Patch,
    plan: &Plan,
    rest: &[IBox],
    parcel: &Parcel,
    stencil: &Stencil<L>,
    real: Flags,
) -> Result<(), NoMemory>
    requires into { All (λ c. IsTrue (holds_box (over patch.old) c)) rest.now }
    requires small { AtMost plan.now.step (alike (pos 4)) }
    requires same_step { plan.now.step ≡ stencil.now.ratio }
    requires real { real ≡ stencil.now.real }
    requires fit { IsFit plan.now.frame stencil.now (over patch.old) parcel.now }
    ensures { OnOk result ((v : Cell → ℕ) → AreOf v plan.now stencil.now rest.now parcel.now → Fixes v (takes plan.now stencil.now.real rest.now parcel.now) patch.old patch.new) }
{
    if parcel.is_coarse {
        return write_coarse(alloc, patch, plan, rest, parcel, stencil, real);
    }
    write_copied(patch, &plan.frame, parcel);
    Ok(())
}

/// Writes the values of all parcels.
pub fn write_all<L: RefinesLinearly>(
    alloc: Global,
    patch: &mut Patch,
    plan: &Plan,
    rest: &[IBox],
    parcels: &[Parcel],
    stencil: &Stencil<L>,
    real: Flags,
) -> Result<(), NoMemory>
    requires into { All (λ c. IsTrue (holds_box (over patch.old) c)) rest.now }
    requires small { AtMost plan.now.step (alike (pos 4)) }
    requires same_step { plan.now.step ≡ stencil.now.ratio }
    requires real { real ≡ stencil.now.real }
    requires fit { (p : ParcelOf) → Member p parcels.now → IsFit plan.now.frame stencil.now (over patch.old) p }
    ensures { OnOk result ((v : Cell → ℕ) → ((p : ParcelOf) → Member p parcels.now → AreOf v plan.now stencil.now rest.now p)
        → Fixes v (any_takes plan.now stencil.now.real rest.now parcels.now) patch.old patch.new) }
{
    for parcel in parcels {
        write_parcel(alloc, patch, plan, rest, parcel, stencil, real)?;
    }
    Ok(())
}
