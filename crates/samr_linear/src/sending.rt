//! The parcels that a rank has for another: copies, and answers to requests with one cell about them.

ghost use Rattle.std.specs.Prelude.{◌≡◌, ◌++◌, ◌<◌, ◌^◌, cond, nat_eq, length, IfOk, OnOk, IsTrue, true, false};
ghost use Rattle.std.specs.List.{filter_map, find};
ghost use Rattle.std.specs.Option.{option_map, option_copied, option_to_list};
ghost use Rattle.samr_box.specs.Corners.{holds_box, met, grown};
ghost use Rattle.samr_level.specs.Refs.{turned};
ghost use Rattle.samr_box.specs.Space.{image};
ghost use Rattle.samr_data.specs.Grids.{packed};
ghost use Rattle.samr_fill.specs.Sending.{parcel_of, copied_from, place_copies, field_copies, box_copies, all_copies, is_box, AreByCorner};
ghost use Rattle.samr_data.specs.Grids.{over};
ghost use Rattle.samr_linear.specs.Around.{one_around};
ghost use Rattle.samr_linear.specs.LinearSending.{answer_of, answer_in, parcels_from};

use crate::parts::{near_image, one_around, part_about, part_moved_back};
use samr_box::{Domain, Flags, IBox, Listed, Shift, corner_order};
use samr_data::{Parcel, Patch};
use samr_level::Edge;
use samr_sched::{BoxPlan, Plan, Request};
use std::alloc::{AllocError as NoMemory, Global};

/// The values of a part of a patch's box, along an edge.
fn parcel_of(
    alloc: Global,
    edge: Edge,
    is_coarse: bool,
    field: u8,
    patch: &Patch,
    region: IBox,
) -> Result<Parcel, NoMemory>
    requires { IsTrue (holds_box patch.now.bx region) }
    ensures { IfOk result (λ p. p ≡ parcel_of edge is_coarse field patch.now region) }
{
    let _ = patch.over();
    let values = patch.pack(alloc, region)?;
    Ok(Parcel {
        edge,
        is_coarse,
        field,
        region,
        values: Listed::from_vec(values),
    })
}

/// The cells of a patch's box that lie in or about the image of another.
fn near_patch(d: &Domain, patch: &Patch, head: IBox, shift: Shift) -> Option<IBox>
    ensures { result ≡ met patch.now.bx (grown (image d.now head shift) patch.now.width) }
{
    let bx = patch.bx;
    let _ = &bx.lo;
    near_image(bx, d, head, shift, patch.width)
}

/// What ghost cells of the head of an edge have of a patch.
fn copied(
    alloc: Global,
    d: &Domain,
    field: u8,
    patch: &Patch,
    e: Edge,
) -> Result<Option<Parcel>, NoMemory>
    ensures { IfOk result (λ o. o ≡ option_map (λ c. parcel_of e false field patch.now c) (met patch.now.bx (grown (image d.now e.head.bx e.shift) patch.now.width))) }
{
    let head = e.head;
    let shift = e.shift;
    match near_patch(d, patch, head.bx, shift) {
        Some(region) => {
            let parcel = parcel_of(alloc, e, false, field, patch, region)?;
            Ok(Some(parcel))
        }
        None => Ok(None),
    }
}

/// The same, where the head is of this rank.
fn copied_to(
    alloc: Global,
    d: &Domain,
    to: u16,
    field: u8,
    patch: &Patch,
    e: Edge,
) -> Result<Option<Parcel>, NoMemory>
    ensures { IfOk result (λ o. o ≡ copied_from d.now to field patch.now e) }
{
    if e.head.owner != to {
        return Ok(None);
    }
    let parcel = copied(alloc, d, field, patch, e)?;
    Ok(parcel)
}

/// Adds a parcel, if there is one.
fn push_some(parcel: Option<Parcel>, out: &mut Vec<Parcel>) -> Result<(), NoMemory>
    ensures { OnOk result (out.new.items ≡ out.old.items ++ option_to_list parcel) }
{
    if let Some(parcel) = parcel {
        out.push(parcel)?;
    }
    Ok(())
}

/// Adds what a rank's ghost cells have of a patch.
fn push_edges(
    alloc: Global,
    d: &Domain,
    to: u16,
    field: u8,
    patch: &Patch,
    edges: &[Edge],
    out: &mut Vec<Parcel>,
) -> Result<(), NoMemory>
    ensures { OnOk result (out.new.items ≡ out.old.items ++ filter_map (λ e. copied_from d.now to field patch.now e) edges.now) }
{
    for e in edges {
        let parcel = copied_to(alloc, d, to, field, patch, *e)?;
        push_some(parcel, out)?;
    }
    Ok(())
}

/// Adds what a rank's ghost cells have of the patch at a place.
fn push_place(
    alloc: Global,
    d: &Domain,
    to: u16,
    field: u8,
    patches: &[Patch],
    place: usize,
    edges: &[Edge],
    out: &mut Vec<Parcel>,
) -> Result<(), NoMemory>
    ensures { OnOk result (out.new.items ≡ out.old.items ++ place_copies d.now to field patches.now place edges.now) }
{
    match patches.get(place) {
        Some(patch) => push_edges(alloc, d, to, field, patch, edges, out),
        None => Ok(()),
    }
}

/// Adds what a rank's ghost cells have of a field in a box.
fn push_field(
    alloc: Global,
    d: &Domain,
    to: u16,
    own: &[Listed<Patch>],
    place: usize,
    field: usize,
    edges: &[Edge],
    out: &mut Vec<Parcel>,
) -> Result<(), NoMemory>
    requires { length own.now < 2 ^ 8 }
    ensures { OnOk result (out.new.items ≡ out.old.items ++ field_copies d.now to own.now place field edges.now) }
{
    match own.get(field) {
        Some(patches) => push_place(
            alloc,
            d,
            to,
            field as u8,
            patches.as_slice(),
            place,
            edges,
            out,
        ),
        None => Ok(()),
    }
}

/// Adds what a rank's ghost cells have of a box.
fn push_box(
    alloc: Global,
    d: &Domain,
    to: u16,
    own: &[Listed<Patch>],
    place: usize,
    plan: &BoxPlan,
    out: &mut Vec<Parcel>,
) -> Result<(), NoMemory>
    requires { length own.now < 2 ^ 8 }
    ensures { OnOk result (out.new.items ≡ out.old.items ++ box_copies d.now to own.now place plan.now) }
{
    let fields = plan.fields.as_slice();
    for field in 0..fields.len() {
        let edges = fields[field].copies.as_slice();
        push_field(alloc, d, to, own, place, field, edges, out)?;
    }
    Ok(())
}

/// Adds what a rank's ghost cells have of all boxes.
fn push_boxes(
    alloc: Global,
    d: &Domain,
    to: u16,
    own: &[Listed<Patch>],
    boxes: &[BoxPlan],
    out: &mut Vec<Parcel>,
) -> Result<(), NoMemory>
    requires { length own.now < 2 ^ 8 }
    ensures { OnOk result (out.new.items ≡ out.old.items ++ all_copies d.now to own.now boxes.now) }
{
    for place in 0..boxes.len() {
        push_box(alloc, d, to, own, place, &boxes[place], out)?;
    }
    Ok(())
}

/// The answer to a request for a region of a patch: the region with one cell about it.
fn answer_about(
    alloc: Global,
    real: Flags,
    q: &Request,
    patch: &Patch,
    region: IBox,
) -> Result<Option<Parcel>, NoMemory>
    ensures { IfOk result (λ o. o ≡ option_map (λ a. parcel_of (turned q.now.edge) true q.now.field patch.now a) (met (over patch.now) (grown region (one_around real)))) }
{
    let edge = q.edge;
    match part_about(patch.over(), region, one_around(real)) {
        Some(about) => {
            let parcel = Parcel::of_patch(alloc, edge.turned(), true, q.field, patch, about)?;
            Ok(Some(parcel))
        }
        None => Ok(None),
    }
}

/// The answer to a request, of a patch.
fn answer_of(
    alloc: Global,
    d: &Domain,
    real: Flags,
    q: &Request,
    patch: &Patch,
) -> Result<Option<Parcel>, NoMemory>
    ensures { IfOk result (λ o. o ≡ answer_of d.now real q.now patch.now) }
{
    let edge = q.edge;
    let shift = edge.shift;
    match part_moved_back(patch.bx, d, q.bx, shift) {
        Some(region) => {
            let parcel = answer_about(alloc, real, q, patch, region)?;
            Ok(parcel)
        }
        None => Ok(None),
    }
}

/// The patch of a box, of patches in corner order.
fn patch_of(patches: &[Patch], b: IBox) -> Option<&Patch>
    ensures { AreByCorner patches.now → option_copied result ≡ find (λ p. is_box b p) patches.now }
{
    match patches.binary_search_by(|p| corner_order(p.bx, b)) {
        Ok(place) => Some(&patches[place]),
        Err(_) => None,
    }
}

/// The answer to a request, of the patch whose box it names, of patches in corner order.
fn answer_in(
    alloc: Global,
    d: &Domain,
    real: Flags,
    q: &Request,
    patches: &[Patch],
) -> Result<Option<Parcel>, NoMemory>
    ensures { IfOk result (λ o. AreByCorner patches.now → o ≡ answer_in d.now real q.now patches.now) }
{
    let head = q.edge.head;
    match patch_of(patches, head.bx) {
        Some(patch) => {
            let parcel = answer_of(alloc, d, real, q, patch)?;
            Ok(parcel)
        }
        None => Ok(None),
    }
}

/// Adds the answers to requests.
fn push_answers(
    alloc: Global,
    d: &Domain,
    real: Flags,
    coarser: &[Patch],
    requests: &[Request],
    out: &mut Vec<Parcel>,
) -> Result<(), NoMemory>
    ensures { OnOk result (AreByCorner coarser.now → out.new.items ≡ out.old.items ++ filter_map (λ q. answer_in d.now real q coarser.now) requests.now) }
{
    for q in requests {
        let parcel = answer_in(alloc, d, real, q, coarser)?;
        push_some(parcel, out)?;
    }
    Ok(())
}

/// All that a rank has for another, which asked for this. The patches of `coarser` stand in corner order.
#[tactic(auto, unfolding(crate::specs::LinearSending::parcels_from))]
pub fn parcels_for(
    alloc: Global,
    plan: &Plan,
    real: Flags,
    own: &[Listed<Patch>],
    coarser: &[Patch],
    to: u16,
    requests: &[Request],
) -> Result<Vec<Parcel>, NoMemory>
    requires { length own.now < 2 ^ 8 }
    ensures { IfOk result (λ v. AreByCorner coarser.now → v.items ≡ parcels_from plan.now real own.now coarser.now to requests.now) }
{
    let mut out = Vec::new(alloc);
    push_boxes(alloc, &plan.frame, to, own, plan.boxes.as_slice(), &mut out)?;
    push_answers(alloc, &plan.below, real, coarser, requests, &mut out)?;
    Ok(out)
}
