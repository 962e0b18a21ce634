//! The parcels that a rank has for another, of old boxes and of coarse ones.

ghost use Rattle.std.specs.Prelude.{◌≡◌, ℕ, ◌++◌, ◌<◌, length, OnOk, IfOk};
ghost use Rattle.std.specs.List.{flat_map, range_with_len};
ghost use Rattle.samr_box.specs.declared.vector.IVec.{IVec as Cell};
ghost use Rattle.samr_values.specs.Patches.{HasField, HaveFields, IsBased, AreBased};
ghost use Rattle.samr_values.specs.ValuesRow.{field_parcels, parcels_by};

use crate::packing::{leading_to, push_coarse, push_old};
use samr_box::{Listed, Ratio};
use samr_data::{Parcel, Patch, in_parcel_order};
use samr_level::Edge;
use std::alloc::{AllocError as NoMemory, Global};

/// Adds the parcels of a field.
fn push_field(
    alloc: Global,
    field: u8,
    step: Ratio,
    olds: &[Edge],
    coarser: &[Edge],
    patches: &[Patch],
    coarse_patches: &[Patch],
    parcels: &mut Vec<Parcel>,
) -> Result<(), NoMemory>
    requires based { IsBased olds.now patches.now }
    requires coarse_based { IsBased coarser.now coarse_patches.now }
    ensures { (v c : Cell → ℕ) → HasField v patches.now → HasField c coarse_patches.now
        → OnOk result (parcels.new.items ≡ parcels.old.items ++ field_parcels field step v c olds.now coarser.now) }
{
    push_old(alloc, field, olds, patches, parcels)?;
    push_coarse(alloc, field, step, coarser, coarse_patches, parcels)?;
    Ok(())
}

/// The parcels of all fields along edges from old boxes and from boxes of the level below.
fn parcels_along(
    alloc: Global,
    step: Ratio,
    olds: &[Edge],
    coarser: &[Edge],
    patches: &[Listed<Patch>],
    coarse_patches: &[Listed<Patch>],
) -> Result<Vec<Parcel>, NoMemory>
    requires few { length patches.now < 256 }
    requires same { length patches.now ≡ length coarse_patches.now }
    requires based { AreBased olds.now patches.now }
    requires coarse_based { AreBased coarser.now coarse_patches.now }
    ensures { IfOk result (λ all. (values coarse_values : ℕ → Cell → ℕ) → HaveFields values patches.now → HaveFields coarse_values coarse_patches.now
        → all.items ≡ flat_map (λ f. field_parcels f step (values f) (coarse_values f) olds.now coarser.now) (range_with_len 0 (length patches.now))) }
{
    let mut parcels = Vec::new(alloc);
    for f in 0..patches.len() {
        push_field(
            alloc,
            f as u8,
            step,
            olds,
            coarser,
            patches[f].as_slice(),
            coarse_patches[f].as_slice(),
            &mut parcels,
        )?;
    }
    Ok(parcels)
}

/// The parcels for a rank, along a rank's edges from its old boxes and from its boxes of the level below, by edge.
pub fn parcels_for(
    alloc: Global,
    to: u16,
    step: Ratio,
    olds: &[Edge],
    coarser: &[Edge],
    patches: &[Listed<Patch>],
    coarse_patches: &[Listed<Patch>],
) -> Result<Vec<Parcel>, NoMemory>
    requires few { length patches.now < 256 }
    requires same { length patches.now ≡ length coarse_patches.now }
    requires based { AreBased olds.now patches.now }
    requires coarse_based { AreBased coarser.now coarse_patches.now }
    ensures { IfOk result (λ all. (values coarse_values : ℕ → Cell → ℕ) → HaveFields values patches.now → HaveFields coarse_values coarse_patches.now
        → all.items ≡ parcels_by step values coarse_values olds.now coarser.now (length patches.now) to) }
{
    let olds = leading_to(alloc, to, olds)?;
    let coarser = leading_to(alloc, to, coarser)?;
    let parcels = parcels_along(
        alloc,
        step,
        olds.as_slice(),
        coarser.as_slice(),
        patches,
        coarse_patches,
    )?;
    Ok(in_parcel_order(parcels))
}
