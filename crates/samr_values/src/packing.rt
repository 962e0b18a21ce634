//! The values that old boxes and coarse ones have for new boxes, as parcels.

ghost use Rattle.std.specs.Prelude.{◌≡◌, ℕ, ◌++◌, true, false, ◌&&◌, nat_eq, List, map, filter, OnOk, IfOk, IfSome};
ghost use Rattle.std.specs.List.{filter_map};
ghost use Rattle.std.specs.List.Sorted.{IsStrictlySortedBy};
ghost use Rattle.std.specs.Option.{option_map, option_to_list};
ghost use Rattle.samr_box.specs.declared.vector.IVec.{IVec as Cell};
ghost use Rattle.samr_box.specs.Corners.{holds_box, met};
ghost use Rattle.samr_box.specs.Ratios.{coarsened};
ghost use Rattle.samr_box.specs.Orders.{corner_cmp};
ghost use Rattle.samr_box.specs.Lists.{Member};
ghost use Rattle.samr_level.specs.Refs.{Link};
ghost use Rattle.samr_values.specs.Patches.{HasField};
ghost use Rattle.samr_values.specs.ValuesRow.{leads_to, parcel_of, old_parcel, coarse_parcel};

use samr_box::{IBox, Ratio, coarsen, corner_order, meet};
use samr_data::{Parcel, Patch};
use samr_level::Edge;
use std::alloc::{AllocError as NoMemory, Global};

/// The patch of a box.
pub fn patch_of(patches: &[Patch], b: IBox) -> &Patch
    requires order { IsStrictlySortedBy corner_cmp (map (λ p. p.bx) patches.now) }
    requires there { Member b (map (λ p. p.bx) patches.now) }
    ensures bx { result.now.bx ≡ b }
    ensures member { Member result.now patches.now }
{
    match patches.binary_search_by(|p| corner_order(p.bx, b)) {
        Ok(place) => &patches[place],
        Err(_) => unreachable!(),
    }
}

/// Whether a rank owns the head of an edge, and its shift is none.
fn leads_to(rank: u16, e: Edge) -> bool
    ensures { result ≡ leads_to rank e }
{
    if e.head.owner != rank {
        return false;
    }
    e.shift.is_zero()
}

/// The edges whose heads a rank owns, at no shift: a domain has no cell of an image at another.
pub fn leading_to(alloc: Global, rank: u16, edges: &[Edge]) -> Result<Vec<Edge>, NoMemory>
    ensures { IfOk result (λ v. v.items ≡ filter (λ e. leads_to rank e) edges.now) }
{
    let mut leading = Vec::new(alloc);
    for e in edges {
        if leads_to(rank, *e) {
            leading.push(*e)?;
        }
    }
    Ok(leading)
}

/// The box at the base of an edge.
pub fn base_of(e: Edge) -> IBox
    ensures { result ≡ e.base.bx }
{
    e.base.bx
}

/// The box at its head.
pub fn head_of(e: Edge) -> IBox
    ensures { result ≡ e.head.bx }
{
    e.head.bx
}

/// The values of a region of the patch of an edge's base.
fn packed(
    alloc: Global,
    e: Edge,
    is_coarse: bool,
    field: u8,
    patches: &[Patch],
    region: IBox,
) -> Result<Parcel, NoMemory>
    requires order { IsStrictlySortedBy corner_cmp (map (λ p. p.bx) patches.now) }
    requires there { Member e.base.bx (map (λ p. p.bx) patches.now) }
    requires inside { holds_box e.base.bx region ≡ true }
    ensures { IfOk result (λ q. (v : Cell → ℕ) → HasField v patches.now → q ≡ parcel_of e is_coarse field v region) }
{
    let _ = &region.lo;
    let patch = patch_of(patches, base_of(e));
    let _ = patch.over();
    let parcel = Parcel::of_patch(alloc, e, is_coarse, field, patch, region)?;
    Ok(parcel)
}

/// Adds the values of a region of the patch of an edge's base, if there is a region.
fn push_packed(
    alloc: Global,
    e: Edge,
    is_coarse: bool,
    field: u8,
    patches: &[Patch],
    region: Option<IBox>,
    parcels: &mut Vec<Parcel>,
) -> Result<(), NoMemory>
    requires order { IsStrictlySortedBy corner_cmp (map (λ p. p.bx) patches.now) }
    requires there { Member e.base.bx (map (λ p. p.bx) patches.now) }
    requires inside { IfSome region (λ b. holds_box e.base.bx b ≡ true) }
    ensures { (v : Cell → ℕ) → HasField v patches.now
        → OnOk result (parcels.new.items ≡ parcels.old.items ++ option_to_list (option_map (parcel_of e is_coarse field v) region)) }
{
    let Some(part) = region else {
        return Ok(());
    };
    let parcel = packed(alloc, e, is_coarse, field, patches, part)?;
    parcels.push(parcel)?;
    Ok(())
}

/// The cells that the boxes of an edge have in common.
fn shared(e: Edge) -> Option<IBox>
    ensures value { result ≡ met e.base.bx e.head.bx }
    ensures inside { IfSome result (λ b. holds_box e.base.bx b ≡ true) }
{
    meet(base_of(e), head_of(e))
}

/// The cells of a coarse base that lie under the head of an edge.
fn under_head(e: Edge, step: Ratio) -> Option<IBox>
    ensures value { result ≡ met e.base.bx (coarsened e.head.bx step) }
    ensures inside { IfSome result (λ b. holds_box e.base.bx b ≡ true) }
{
    meet(base_of(e), coarsen(head_of(e), step))
}

/// Adds the values that old boxes have of cells of the heads of edges.
pub fn push_old(
    alloc: Global,
    field: u8,
    edges: &[Edge],
    patches: &[Patch],
    parcels: &mut Vec<Parcel>,
) -> Result<(), NoMemory>
    requires order { IsStrictlySortedBy corner_cmp (map (λ p. p.bx) patches.now) }
    requires there { (e : Link) → Member e edges.now → Member e.base.bx (map (λ p. p.bx) patches.now) }
    ensures { (v : Cell → ℕ) → HasField v patches.now
        → OnOk result (parcels.new.items ≡ parcels.old.items ++ filter_map (λ e. old_parcel field v e) edges.now) }
{
    for e in edges {
        push_packed(alloc, *e, false, field, patches, shared(*e), parcels)?;
    }
    Ok(())
}

/// Adds the values that boxes of the level below have of cells under the heads of edges.
pub fn push_coarse(
    alloc: Global,
    field: u8,
    step: Ratio,
    edges: &[Edge],
    patches: &[Patch],
    parcels: &mut Vec<Parcel>,
) -> Result<(), NoMemory>
    requires order { IsStrictlySortedBy corner_cmp (map (λ p. p.bx) patches.now) }
    requires there { (e : Link) → Member e edges.now → Member e.base.bx (map (λ p. p.bx) patches.now) }
    ensures { (v : Cell → ℕ) → HasField v patches.now
        → OnOk result (parcels.new.items ≡ parcels.old.items ++ filter_map (λ e. coarse_parcel field step v e) edges.now) }
{
    for e in edges {
        push_packed(
            alloc,
            *e,
            true,
            field,
            patches,
            under_head(*e, step),
            parcels,
        )?;
    }
    Ok(())
}
