//! The patches of a new level, from parcels.

ghost use Rattle.std.specs.Prelude.{◌≡◌, ℕ, pos, cond, ◌<◌, List, length, map, Some, slice_get, IfOk};
ghost use Rattle.std.specs.List.{All, enumerate_from};
ghost use Rattle.samr_box.specs.declared.vector.IVec.{IVec as Cell};
ghost use Rattle.samr_box.specs.Vector.{alike, AtMost};
ghost use Rattle.samr_box.specs.Corners.{Corners, IsBox, holds, grown};
ghost use Rattle.samr_box.specs.Lists.{Member};
ghost use Rattle.samr_data.specs.Grids.{grid_of};
ghost use Rattle.samr_ops.specs.declared.rules.Rules.{Rules};
ghost use Rattle.samr_values.specs.Parcels.{IsParcel, Refinable, Tells};

use crate::pouring::{pour, pour_under};
use samr_box::{IBox, Listed, Ratio};
use samr_data::{Parcel, Patch};
use samr_ops::{Bounds, Refines, Strategy, Updates};
use std::alloc::{AllocError as NoMemory, Global};

/// The patch of a box of the new level: refined values of the level below, and where parcels have any
/// those of the old level.
fn renewed_patch<R: Refines, B: Bounds, U: Updates>(
    alloc: Global,
    bx: IBox,
    field: u8,
    step: Ratio,
    parcels: &[Parcel],
    strategy: &Strategy<R, B, U>,
) -> Result<Patch, NoMemory>
    requires room { IsBox (grown bx strategy.now.width) }
    requires parcels { All IsParcel parcels.now }
    requires fits { Refinable field strategy.now bx parcels.now }
    requires step { AtMost step (alike (pos 4)) }
    ensures { IfOk result (λ p. (value : Cell → ℕ) → Tells field step strategy.now bx parcels.now value
        → p ≡ grid_of bx strategy.now.width (λ x. cond (holds bx x) (value x) 0)) }
{
    let mut patch = Patch::new(alloc, bx, strategy.rules().width)?;
    pour_under(&mut patch, field, step, parcels, strategy);
    pour(&mut patch, field, parcels);
    Ok(patch)
}

/// The patches of a field of boxes of the new level.
fn renewed_field<R: Refines, B: Bounds, U: Updates>(
    alloc: Global,
    boxes: &[IBox],
    field: u8,
    step: Ratio,
    parcels: &[Parcel],
    strategy: &Strategy<R, B, U>,
) -> Result<Vec<Patch>, NoMemory>
    requires room { (b : Corners) → Member b boxes.now → IsBox (grown b strategy.now.width) }
    requires parcels { All IsParcel parcels.now }
    requires fits { (b : Corners) → Member b boxes.now → Refinable field strategy.now b parcels.now }
    requires step { AtMost step (alike (pos 4)) }
    ensures { IfOk result (λ v. (value : Cell → ℕ) → ((b : Corners) → Member b boxes.now → Tells field step strategy.now b parcels.now value)
        → v.items ≡ map (λ b. grid_of b strategy.now.width (λ x. cond (holds b x) (value x) 0)) boxes.now) }
{
    let mut patches = Vec::new(alloc);
    for b in boxes {
        let patch = renewed_patch(alloc, *b, field, step, parcels, strategy)?;
        patches.push(patch)?;
    }
    Ok(patches)
}

/// The patches of boxes of the new level, field by field.
pub fn renewed_fields<R: Refines, B: Bounds, U: Updates>(
    alloc: Global,
    boxes: &[IBox],
    step: Ratio,
    parcels: &[Parcel],
    strategies: &[Strategy<R, B, U>],
) -> Result<Vec<Listed<Patch>>, NoMemory>
    requires few { length strategies.now < 256 }
    requires room { (b : Corners) (r : Rules) → Member b boxes.now → Member r strategies.now → IsBox (grown b r.width) }
    requires parcels { All IsParcel parcels.now }
    requires fits { (f : ℕ) (r : Rules) (b : Corners) → slice_get strategies.now f ≡ Some r → Member b boxes.now → Refinable f r b parcels.now }
    requires step { AtMost step (alike (pos 4)) }
    ensures { IfOk result (λ v. (value : ℕ × Rules → Cell → ℕ)
        → ((f : ℕ) (r : Rules) (b : Corners) → slice_get strategies.now f ≡ Some r → Member b boxes.now → Tells f step r b parcels.now (value (f, r)))
        → v.items ≡ map (λ f. map (λ b. grid_of b f.1.width (λ x. cond (holds b x) (value f x) 0)) boxes.now) (enumerate_from 0 strategies.now)) }
{
    let mut fields = Vec::new(alloc);
    for f in 0..strategies.len() {
        let field = renewed_field(alloc, boxes, f as u8, step, parcels, &strategies[f])?;
        fields.push(Listed::from_vec(field))?;
    }
    Ok(fields)
}
