//! The letters of a linear fill: all that a rank has for each other.

ghost use Rattle.std.specs.Prelude.{◌≡◌, ◌++◌, ◌<◌, ◌^◌, nat_eq, length, map, filter, IfOk, OnOk};
ghost use Rattle.std.specs.List.{flat_map, find};
ghost use Rattle.std.specs.Option.{option_copied};
ghost use Rattle.samr_level.specs.RefOrders.{in_order};
ghost use Rattle.samr_data.specs.ParcelOrder.{parcel_cmp};
ghost use Rattle.samr_fill.specs.Sending.{asked_by, asked_of_itself, united, AreByCorner};
ghost use Rattle.samr_linear.specs.LinearSending.{parcels_from, letters_from};

use crate::sending::parcels_for;
use samr_box::{Flags, Listed};
use samr_data::{Parcel, Patch, in_parcel_order};
use samr_level::Edge;
use samr_sched::{Asked, BoxPlan, FieldPlan, Plan, Request};
use std::alloc::{AllocError as NoMemory, Global};

/// Two lists of ranks as one, ascending, each rank once.
#[tactic(auto, unfolding(samr_fill::specs::Sending::united))]
pub fn united(alloc: Global, some: &[u16], others: &[u16]) -> Result<Vec<u16>, NoMemory>
    ensures { IfOk result (λ v. v.items ≡ united some.now others.now) }
{
    let mut all = Vec::from_slice(alloc, some)?;
    all.extend_from_slice(others)?;
    all.sort_unstable();
    all.dedup();
    Ok(all)
}

/// What a rank asks.
fn asked_of(others: &[Asked], rank: u16) -> Option<&Asked>
    ensures { option_copied result ≡ find (λ a. nat_eq a.rank rank) others.now }
{
    others.iter().find(|asked| asked.rank == rank)
}

/// The ranks that ask.
pub fn ranks_of(alloc: Global, others: &[Asked]) -> Result<Vec<u16>, NoMemory>
    ensures { IfOk result (λ v. v.items ≡ map (λ a. a.rank) others.now) }
{
    let mut ranks = Vec::new(alloc);
    for asked in others {
        ranks.push(asked.rank)?;
    }
    Ok(ranks)
}

/// Whether the head of an edge is of a rank.
fn owns_head(rank: u16, e: Edge) -> bool
    ensures { result ≡ nat_eq e.head.owner rank }
{
    e.head.owner == rank
}

/// Adds the requests of a list whose head is of a rank.
fn push_own(rank: u16, requests: &[Request], out: &mut Vec<Request>) -> Result<(), NoMemory>
    ensures { OnOk result (out.new.items ≡ out.old.items ++ filter (λ q. nat_eq q.edge.head.owner rank) requests.now) }
{
    for q in requests {
        if owns_head(rank, q.edge) {
            out.push(*q)?;
        }
    }
    Ok(())
}

/// Adds the requests of the fields of a box whose head is of a rank.
fn push_fields(rank: u16, fields: &[FieldPlan], out: &mut Vec<Request>) -> Result<(), NoMemory>
    ensures { OnOk result (out.new.items ≡ out.old.items ++ flat_map (λ f. filter (λ q. nat_eq q.edge.head.owner rank) f.asked) fields.now) }
{
    for field in fields {
        push_own(rank, field.asked.as_slice(), out)?;
    }
    Ok(())
}

/// What a rank asks of itself.
#[tactic(auto, unfolding(samr_fill::specs::Sending::asked_of_itself))]
pub fn asked_of_itself(
    alloc: Global,
    rank: u16,
    boxes: &[BoxPlan],
) -> Result<Vec<Request>, NoMemory>
    ensures { IfOk result (λ v. v.items ≡ asked_of_itself rank boxes.now) }
{
    let mut requests = Vec::new(alloc);
    for plan in boxes {
        push_fields(rank, plan.fields.as_slice(), &mut requests)?;
    }
    Ok(requests)
}

/// All that a rank has for another. The patches of `coarser` stand in corner order.
fn parcels_asked(
    alloc: Global,
    plan: &Plan,
    real: Flags,
    own: &[Listed<Patch>],
    coarser: &[Patch],
    to: u16,
) -> Result<Vec<Parcel>, NoMemory>
    requires { length own.now < 2 ^ 8 }
    ensures { IfOk result (λ v. AreByCorner coarser.now → v.items ≡ parcels_from plan.now real own.now coarser.now to (asked_by plan.now.others to)) }
{
    match asked_of(plan.others.as_slice(), to) {
        Some(asked) => {
            let requests = asked.requests.as_slice();
            let parcels = parcels_for(alloc, plan, real, own, coarser, to, requests)?;
            Ok(parcels)
        }
        None => {
            let nothing = Vec::new(alloc);
            let parcels = parcels_for(alloc, plan, real, own, coarser, to, nothing.as_slice())?;
            Ok(parcels)
        }
    }
}

/// The same in order.
fn parcels_in_order(
    alloc: Global,
    plan: &Plan,
    real: Flags,
    own: &[Listed<Patch>],
    coarser: &[Patch],
    to: u16,
) -> Result<Vec<Parcel>, NoMemory>
    requires { length own.now < 2 ^ 8 }
    ensures { IfOk result (λ v. AreByCorner coarser.now → v.items ≡ in_order parcel_cmp (parcels_from plan.now real own.now coarser.now to (asked_by plan.now.others to))) }
{
    let parcels = parcels_asked(alloc, plan, real, own, coarser, to)?;
    Ok(in_parcel_order(parcels))
}

/// The letters of these ranks. The patches of `coarser` stand in corner order.
#[tactic(auto, unfolding(crate::specs::LinearSending::letters_from))]
pub fn letters_for(
    alloc: Global,
    plan: &Plan,
    real: Flags,
    own: &[Listed<Patch>],
    coarser: &[Patch],
    ranks: &[u16],
) -> Result<Vec<(u16, Listed<Parcel>)>, NoMemory>
    requires { length own.now < 2 ^ 8 }
    ensures { IfOk result (λ v. AreByCorner coarser.now → v.items ≡ letters_from plan.now real own.now coarser.now ranks.now) }
{
    let mut letters = Vec::new(alloc);
    for to in ranks {
        let parcels = parcels_in_order(alloc, plan, real, own, coarser, *to)?;
        letters.push((*to, Listed::from_vec(parcels)))?;
    }
    Ok(letters)
}
