//! The patches of a level with the merged values of the finer one.

ghost use Rattle.std.specs.Prelude.{◌≡◌, ℕ, ◌<◌, ◌^◌, List, length, map, IfOk};
ghost use Rattle.std.specs.List.{All, enumerate_from};
ghost use Rattle.samr_box.specs.declared.vector.IVec.{IVec as Cell};
ghost use Rattle.samr_box.specs.Corners.{Corners};
ghost use Rattle.samr_values.specs.Patches.{poured};
ghost use Rattle.samr_values.specs.Parcels.{IsParcel, is_told, Tell};
ghost use Rattle.samr_values.specs.Merging.{parcels_with};

use crate::pouring::pour;
use samr_box::Listed;
use samr_data::{Parcel, Patch};
use samr_stage::Held;
use std::alloc::{AllocError as NoMemory, Global};

/// Gives a patch the values that a rank's own parcels and those of letters have of cells of its box.
fn pour_all(patch: &mut Patch, field: u8, own: &[Parcel], held: &[Held<Listed<Parcel>>])
    requires parcels { All IsParcel (parcels_with own.now held.now) }
    ensures bx { patch.new.bx ≡ patch.old.bx }
    ensures values { (v : Cell → ℕ) → Tell field patch.old.bx (parcels_with own.now held.now) v
        → patch.new ≡ poured patch.old (is_told field patch.old.bx (parcels_with own.now held.now)) v }
{
    let _ = &patch.bx;
    pour(patch, field, own);
    for letter in held {
        pour(patch, field, letter.body.as_slice());
    }
}

/// The patches of a field with these values.
fn poured_field(
    alloc: Global,
    patches: Vec<Patch>,
    field: u8,
    own: &[Parcel],
    held: &[Held<Listed<Parcel>>],
) -> Result<Vec<Patch>, NoMemory>
    requires parcels { All IsParcel (parcels_with own.now held.now) }
    ensures { IfOk result (λ out. (v : Cell → ℕ) → ((b : Corners) → Tell field b (parcels_with own.now held.now) v)
        → out.items ≡ map (λ p. poured p (is_told field p.bx (parcels_with own.now held.now)) v) patches.items) }
{
    let mut out = Vec::new(alloc);
    'each: for patch in patches {
        let mut new = patch;
        pour_all(&mut new, field, own, held);
        out.push(new)?;
    }
    Ok(out)
}

/// The patches of all fields with these values.
pub fn poured_fields(
    alloc: Global,
    fields: Vec<Listed<Patch>>,
    own: &[Parcel],
    held: &[Held<Listed<Parcel>>],
) -> Result<Vec<Listed<Patch>>, NoMemory>
    requires parcels { All IsParcel (parcels_with own.now held.now) }
    requires few { length fields.items < 2 ^ 8 }
    ensures { IfOk result (λ out. (values : ℕ → Cell → ℕ) → ((f : ℕ) (b : Corners) → Tell f b (parcels_with own.now held.now) (values f))
        → out.items ≡ map (λ e. map (λ p. poured p (is_told e.0 p.bx (parcels_with own.now held.now)) (values e.0)) e.1) (enumerate_from 0 fields.items)) }
{
    let mut out = Vec::new(alloc);
    let mut field = 0u8;
    'each: for patches in fields {
        let new = poured_field(alloc, patches.into_vec(), field, own, held)?;
        out.push(Listed::from_vec(new))?;
        field += 1;
    }
    Ok(out)
}
