//! The values that a fine level has for the cells under it, merged by a rule.

ghost use Rattle.std.specs.Prelude.{◌≡◌, ℕ, ◌++◌, ◌<◌, ◌^◌, true, false, List, length, map, IfOk, OnOk, IfSome};
ghost use Rattle.std.specs.List.{flat_map, filter_map};
ghost use Rattle.std.specs.List.Sorted.{IsStrictlySortedBy};
ghost use Rattle.std.specs.Option.{option_map, option_to_list};
ghost use Rattle.samr_box.specs.declared.vector.IVec.{IVec as Cell};
ghost use Rattle.samr_box.specs.Vector.{InRange};
ghost use Rattle.samr_box.specs.Corners.{holds_box, met};
ghost use Rattle.samr_box.specs.Ratios.{coarsened, refined};
ghost use Rattle.samr_box.specs.Orders.{corner_cmp};
ghost use Rattle.samr_box.specs.Lists.{Member};
ghost use Rattle.samr_level.specs.Refs.{Link};
ghost use Rattle.samr_data.specs.Places.{one_cell};
ghost use Rattle.samr_data.specs.Grids.{value_at};
ghost use Rattle.samr_data.specs.Values.{listed};
ghost use Rattle.samr_values.specs.Patches.{HasField, HaveFields, IsBased};
ghost use Rattle.samr_values.specs.ValuesRow.{parcel_of};
ghost use Rattle.samr_values.specs.Coarsen.{IsRefinement};
ghost use Rattle.samr_values.specs.Merging.{merged_by, merged_along, merged_to, merges, CanMerge};

use crate::packing::{base_of, head_of, leading_to, patch_of};
use samr_box::{IBox, IVec, Listed, Ratio, cells, coarsen, meet, refine};
use samr_data::{Parcel, Patch, cell_at, in_parcel_order};
use samr_level::Edge;
use samr_ops::{CoarsenRule, coarsen_values};
use std::alloc::{AllocError as NoMemory, Global};

/// How the values of a field are merged: by a rule, below a modulus, where `step` fine cells lie along a coarse one.
#[derive(Clone, Copy, Drop)]
pub struct Merge {
    pub field: u8,
    pub rule: CoarsenRule,
    pub modulus: u32,
    pub step: Ratio,
}

/// The box of one cell.
fn one_cell(x: IVec) -> IBox
    requires { InRange x }
    ensures { result ≡ one_cell x }
{
    IBox { lo: x, hi: x }
}

/// The value of a coarse cell, from those that a patch has over it.
fn merged_value(alloc: Global, m: &Merge, patch: &Patch, x: IVec) -> Result<u32, NoMemory>
    requires some { 0 < m.now.modulus }
    requires range { InRange x }
    requires inside { holds_box patch.now.bx (refined (one_cell x) m.now.step) ≡ true }
    ensures { IfOk result (λ n. n ≡ merged_by m.now (value_at patch.now) x) }
{
    let _ = patch.over();
    let _ = m.step.factors();
    let values = patch.pack(alloc, refine(one_cell(x), m.step))?;
    Ok(coarsen_values(m.rule, m.modulus, values.as_slice()))
}

/// The values of the cells of a region, in row order.
fn merged_values(
    alloc: Global,
    m: &Merge,
    patch: &Patch,
    region: IBox,
) -> Result<Vec<u32>, NoMemory>
    requires some { 0 < m.now.modulus }
    requires inside { holds_box patch.now.bx (refined region m.now.step) ≡ true }
    ensures { IfOk result (λ v. v.items ≡ listed region (merged_by m.now (value_at patch.now))) }
{
    let _ = &region.lo;
    let _ = patch.over();
    let _ = m.step.factors();
    let mut values = Vec::new(alloc);
    for n in 0..cells(region) {
        values.push(merged_value(alloc, m, patch, cell_at(region, n))?)?;
    }
    Ok(values)
}

/// The values of a region under the base of an edge.
fn merged(
    alloc: Global,
    m: &Merge,
    e: Edge,
    patches: &[Patch],
    region: IBox,
) -> Result<Parcel, NoMemory>
    requires some { 0 < m.now.modulus }
    requires order { IsStrictlySortedBy corner_cmp (map (λ p. p.bx) patches.now) }
    requires there { Member e.base.bx (map (λ p. p.bx) patches.now) }
    requires inside { holds_box e.base.bx (refined region m.now.step) ≡ true }
    ensures { IfOk result (λ q. (v : Cell → ℕ) → HasField v patches.now → q ≡ parcel_of e false m.now.field (merged_by m.now v) region) }
{
    let _ = &region.lo;
    let _ = m.step.factors();
    let patch = patch_of(patches, base_of(e));
    let values = merged_values(alloc, m, patch, region)?;
    Ok(Parcel {
        edge: e,
        is_coarse: false,
        field: m.field,
        region,
        values: Listed::from_vec(values),
    })
}

/// The cells of an edge's head that lie under its base.
fn under_base(e: Edge, step: Ratio) -> Option<IBox>
    ensures value { result ≡ met (coarsened e.base.bx step) e.head.bx }
    ensures inside { IsRefinement step e.base.bx → IfSome result (λ region. holds_box e.base.bx (refined region step) ≡ true) }
{
    let _ = step.factors();
    meet(coarsen(base_of(e), step), head_of(e))
}

/// Adds the values of a region under the base of an edge, if there is a region.
fn push_merged(
    alloc: Global,
    m: &Merge,
    e: Edge,
    patches: &[Patch],
    region: Option<IBox>,
    parcels: &mut Vec<Parcel>,
) -> Result<(), NoMemory>
    requires some { 0 < m.now.modulus }
    requires order { IsStrictlySortedBy corner_cmp (map (λ p. p.bx) patches.now) }
    requires there { Member e.base.bx (map (λ p. p.bx) patches.now) }
    requires inside { IfSome region (λ b. holds_box e.base.bx (refined b m.now.step) ≡ true) }
    ensures { (v : Cell → ℕ) → HasField v patches.now
        → OnOk result (parcels.new.items ≡ parcels.old.items ++ option_to_list (option_map (parcel_of e false m.now.field (merged_by m.now v)) region)) }
{
    let Some(part) = region else {
        return Ok(());
    };
    let parcel = merged(alloc, m, e, patches, part)?;
    parcels.push(parcel)?;
    Ok(())
}

/// Adds the values that a field has along edges.
fn push_along(
    alloc: Global,
    m: &Merge,
    edges: &[Edge],
    patches: &[Patch],
    parcels: &mut Vec<Parcel>,
) -> Result<(), NoMemory>
    requires some { 0 < m.now.modulus }
    requires based { IsBased edges.now patches.now }
    requires refinements { (e : Link) → Member e edges.now → IsRefinement m.now.step e.base.bx }
    ensures { (v : Cell → ℕ) → HasField v patches.now
        → OnOk result (parcels.new.items ≡ parcels.old.items ++ filter_map (λ e. merged_along m.now v e) edges.now) }
{
    for e in edges {
        push_merged(alloc, m, *e, patches, under_base(*e, m.step), parcels)?;
    }
    Ok(())
}

/// The values along edges, field by field.
fn merged_fields(
    alloc: Global,
    merges: &[Merge],
    fine: &[Listed<Patch>],
    edges: &[Edge],
) -> Result<Vec<Parcel>, NoMemory>
    requires { CanMerge merges.now edges.now fine.now }
    ensures { IfOk result (λ v. (values : ℕ → Cell → ℕ) → HaveFields values fine.now
        → v.items ≡ flat_map (λ m. filter_map (λ e. merged_along m (values m.field) e) edges.now) merges.now) }
{
    let mut parcels = Vec::new(alloc);
    for m in merges {
        let patches = fine[usize::from(m.field)].as_slice();
        push_along(alloc, m, edges, patches, &mut parcels)?;
    }
    Ok(parcels)
}

/// The values for the heads that a rank owns, by edge and then by field.
pub fn merged_to(
    alloc: Global,
    merges: &[Merge],
    fine: &[Listed<Patch>],
    edges: &[Edge],
    to: u16,
) -> Result<Vec<Parcel>, NoMemory>
    requires { CanMerge merges.now edges.now fine.now }
    ensures { IfOk result (λ v. (values : ℕ → Cell → ℕ) → HaveFields values fine.now → v.items ≡ merged_to merges.now values edges.now to) }
{
    let leading = leading_to(alloc, to, edges)?;
    let parcels = merged_fields(alloc, merges, fine, leading.as_slice())?;
    Ok(in_parcel_order(parcels))
}

/// How each field is merged.
pub fn merges_of(
    alloc: Global,
    rules: &[CoarsenRule],
    moduli: &[u32],
    step: Ratio,
) -> Result<Vec<Merge>, NoMemory>
    requires same { length rules.now ≡ length moduli.now }
    requires few { length rules.now < 2 ^ 8 }
    ensures { IfOk result (λ v. v.items ≡ merges step rules.now moduli.now) }
{
    let mut merges = Vec::new(alloc);
    for field in 0..rules.len() {
        merges.push(Merge {
            field: field as u8,
            rule: rules[field],
            modulus: moduli[field],
            step,
        })?;
    }
    Ok(merges)
}
