//! What the rest of a box needs of the level below, and the requests for it.

ghost use Rattle.std.specs.Prelude.{◌≡◌, ◌++◌, IfOk, OnOk, nat_eq, map, filter};
ghost use Rattle.std.specs.List.{flat_map, filter_map};
ghost use Rattle.samr_box.specs.Corners.{met};
ghost use Rattle.samr_box.specs.Space.{image};
ghost use Rattle.samr_level.specs.RefOrders.{in_order};
ghost use Rattle.samr_sched.specs.Plans.{request_cmp, all_asked};
ghost use Rattle.samr_sched.specs.PlansOfParts.{asked_of, asked_by, requests_by};

use crate::plan::{Asked, BoxPlan, FieldPlan, Request};
use samr_box::{Domain, IBox, Listed, Ratio, Shift, coarsen};
use samr_level::Edge;
use samr_stage::Held;
use std::alloc::{AllocError as NoMemory, Global};

/// Requests in order, each once.
pub fn settled(mut requests: Vec<Request>) -> Vec<Request>
    ensures { result.items ≡ in_order request_cmp requests.items }
{
    requests.sort_unstable();
    requests.dedup();
    requests
}

/// The part of a box that lies in the image of another, if there is one.
fn met_image(d: &Domain, b: IBox, h: IBox, s: Shift) -> Option<IBox>
    ensures { result ≡ met b (image d.now h s) }
{
    let step = d.offset(s);
    let lo = h.lo.plus(step);
    let hi = h.hi.plus(step);
    if !b.lo.at_most(hi) {
        return None;
    }
    if !lo.at_most(b.hi) {
        return None;
    }
    Some(IBox {
        lo: b.lo.greatest(lo),
        hi: b.hi.least(hi),
    })
}

/// The part of a box that lies in the image of an edge's head, if there is one.
pub fn in_head(d: &Domain, e: Edge, b: IBox) -> Option<IBox>
    ensures { result ≡ met b (image d.now e.head.bx e.shift) }
{
    met_image(d, b, e.head.bx, e.shift)
}

/// What a piece of the rest needs of the head of an edge, if anything.
fn asked_of(below: &Domain, step: Ratio, field: u8, e: Edge, p: IBox) -> Option<Request>
    ensures { result ≡ asked_of below.now step field e p }
{
    match in_head(below, e, coarsen(p, step)) {
        Some(bx) => Some(Request { edge: e, field, bx }),
        None => None,
    }
}

/// What all pieces of the rest need of the head of an edge.
fn asked_along(
    alloc: Global,
    below: &Domain,
    step: Ratio,
    field: u8,
    e: Edge,
    rest: &[IBox],
) -> Result<Vec<Request>, NoMemory>
    ensures { IfOk result (λ v. v.items ≡ filter_map (λ p. asked_of below.now step field e p) rest.now) }
{
    rest.iter()
        .filter_map(|p| asked_of(below, step, field, e, *p))
        .collect(alloc)
}

/// What they need of the heads of all edges, one after another.
fn all_along(
    alloc: Global,
    below: &Domain,
    step: Ratio,
    field: u8,
    under: &[Edge],
    rest: &[IBox],
) -> Result<Vec<Request>, NoMemory>
    ensures { IfOk result (λ v. v.items ≡ flat_map (λ e. filter_map (λ p. asked_of below.now step field e p) rest.now) under.now) }
{
    let mut all = Vec::new(alloc);
    for e in under {
        let some = asked_along(alloc, below, step, field, *e, rest)?;
        all.extend_from_slice(some.as_slice())?;
    }
    Ok(all)
}

/// What the pieces of the rest of a box need of the level below.
#[tactic(auto, unfolding(crate::specs::PlansOfParts::asked_by))]
pub fn asked(
    alloc: Global,
    below: &Domain,
    step: Ratio,
    field: u8,
    under: &[Edge],
    rest: &[IBox],
) -> Result<Vec<Request>, NoMemory>
    ensures { IfOk result (λ v. v.items ≡ asked_by below.now step field under.now rest.now) }
{
    let all = all_along(alloc, below, step, field, under, rest)?;
    Ok(settled(all))
}

/// Whether a request is for a rank.
fn is_for(to: u16, q: Request) -> bool
    ensures { result ≡ nat_eq q.edge.head.owner to }
{
    q.edge.head.owner == to
}

/// Adds the requests for a rank.
fn push_asked(to: u16, asked: &[Request], out: &mut Vec<Request>) -> Result<(), NoMemory>
    ensures { OnOk result (out.new.items ≡ out.old.items ++ filter (λ q. nat_eq q.edge.head.owner to) asked.now) }
{
    for q in asked {
        if is_for(to, *q) {
            out.push(*q)?;
        }
    }
    Ok(())
}

/// Adds the requests for a rank of the fields of a box.
fn push_fields(to: u16, fields: &[FieldPlan], out: &mut Vec<Request>) -> Result<(), NoMemory>
    ensures { OnOk result (out.new.items ≡ out.old.items ++ filter (λ q. nat_eq q.edge.head.owner to) (flat_map (λ f. f.asked) fields.now)) }
{
    for f in fields {
        push_asked(to, f.asked.as_slice(), out)?;
    }
    Ok(())
}

/// Adds the requests for a rank of all boxes.
fn push_plans(to: u16, plans: &[BoxPlan], out: &mut Vec<Request>) -> Result<(), NoMemory>
    ensures { OnOk result (out.new.items ≡ out.old.items ++ filter (λ q. nat_eq q.edge.head.owner to) (all_asked plans.now)) }
{
    for p in plans {
        push_fields(to, p.fields.as_slice(), out)?;
    }
    Ok(())
}

/// What plans ask of a rank.
#[tactic(auto, unfolding(crate::specs::PlansOfParts::requests_by))]
pub fn requests_to(alloc: Global, to: u16, plans: &[BoxPlan]) -> Result<Listed<Request>, NoMemory>
    ensures { IfOk result (λ list. list ≡ requests_by plans.now to) }
{
    let mut all = Vec::new(alloc);
    push_plans(to, plans, &mut all)?;
    Ok(Listed::from_vec(settled(all)))
}

/// What others ask, by the letters that came.
pub fn others_of(alloc: Global, held: Vec<Held<Listed<Request>>>) -> Result<Vec<Asked>, NoMemory>
    ensures { IfOk result (λ v. v.items ≡ map (λ h. record { rank = h.sender; requests = h.body }) held.items) }
{
    let mut others = Vec::new(alloc);
    'each: for letter in held {
        others.push(Asked {
            rank: letter.sender,
            requests: letter.body,
        })?;
    }
    Ok(others)
}
