//! What a rank has for the next round, from its verdicts and those that it was told.

ghost use Rattle.std.specs.Prelude.{◌≡◌, ◌++◌, IfOk, OnOk};
ghost use Rattle.std.specs.List.{flat_map};
ghost use Rattle.samr_box.specs.Orders.{corner_cmp};
ghost use Rattle.samr_rounds.specs.Sorted.{sorted, corner_less};
ghost use Rattle.samr_cluster.specs.Rounds.{from_director, asked_of, directed_less};
ghost use Rattle.samr_cluster.specs.DecideRow.{parts_in, parts_on, taken_in};

use crate::accepted::Accepted;
use crate::nodes::{Directed, Told};
use crate::verdict::{Judged, Ruling, Verdict};
use samr_box::{IBox, Listed};
use samr_stage::Held;
use std::alloc::{AllocError as NoMemory, Global};
use std::cmp::Ordering;

/// Adds the parts that go on by a verdict.
fn push_parts(ruling: &Ruling, parts: &mut Vec<IBox>) -> Result<(), NoMemory>
    ensures { OnOk result (parts.new.items ≡ parts.old.items ++ parts_in ruling.now.verdict) }
{
    if let Verdict::Parted(first, second) = &ruling.verdict {
        parts.push(*first)?;
        parts.push(*second)?;
    }
    Ok(())
}

/// Boxes in corner order.
fn in_corner_order(list: Vec<IBox>) -> Result<Vec<IBox>, NoMemory>
    ensures { IfOk result (λ v. v.items ≡ sorted corner_less list.items) }
{
    let mut list = list;
    list.sort()?;
    Ok(list)
}

/// The parts that go on by the verdicts of a director.
#[tactic(auto, unfolding(crate::specs::DecideRow::parts_on))]
fn parts_on(alloc: Global, rulings: &[Ruling]) -> Result<Vec<IBox>, NoMemory>
    ensures { IfOk result (λ v. v.items ≡ parts_on rulings.now) }
{
    let mut parts = Vec::new(alloc);
    for v in rulings {
        push_parts(v, &mut parts)?;
    }
    let parts = in_corner_order(parts)?;
    Ok(parts)
}

/// Adds nodes with their director.
pub fn push_nodes(director: u16, nodes: &[IBox], told: &mut Vec<Told>) -> Result<(), NoMemory>
    ensures { OnOk result (told.new.items ≡ told.old.items ++ from_director director nodes.now) }
{
    for node in nodes {
        told.push(Told {
            director,
            node: *node,
        })?;
    }
    Ok(())
}

/// Adds the parts that go on by the verdicts of a director, with the director.
fn push_told(
    alloc: Global,
    director: u16,
    rulings: &[Ruling],
    told: &mut Vec<Told>,
) -> Result<(), NoMemory>
    ensures { OnOk result (told.new.items ≡ told.old.items ++ from_director director (parts_on rulings.now)) }
{
    let parts = parts_on(alloc, rulings)?;
    push_nodes(director, parts.as_slice(), told)?;
    Ok(())
}

/// The parts that go on by the rank's own verdicts and by those that it was told.
pub fn told_next(
    alloc: Global,
    rank: u16,
    own: &[Ruling],
    held: &[Held<Listed<Ruling>>],
) -> Result<Vec<Told>, NoMemory>
    ensures { IfOk result (λ t. t.items ≡ from_director rank (parts_on own.now) ++ flat_map (λ h. from_director h.sender (parts_on h.body)) held.now) }
{
    let mut told = Vec::new(alloc);
    push_told(alloc, rank, own, &mut told)?;
    for h in held {
        push_told(alloc, h.sender, h.body.as_slice(), &mut told)?;
    }
    Ok(told)
}

/// Adds the box that a verdict takes.
fn push_taken(alloc: Global, ruling: &Ruling, accepted: &mut Vec<Accepted>) -> Result<(), NoMemory>
    ensures { OnOk result (accepted.new.items ≡ accepted.old.items ++ taken_in ruling.now.verdict) }
{
    if let Verdict::Taken(a) = &ruling.verdict {
        accepted.push(a.copied(alloc)?)?;
    }
    Ok(())
}

/// Adds the boxes that verdicts take.
fn push_accepted(
    alloc: Global,
    rulings: &[Ruling],
    accepted: &mut Vec<Accepted>,
) -> Result<(), NoMemory>
    ensures { OnOk result (accepted.new.items ≡ accepted.old.items ++ flat_map (λ v. taken_in v.verdict) rulings.now) }
{
    for v in rulings {
        push_taken(alloc, v, accepted)?;
    }
    Ok(())
}

/// The boxes taken by the rank's own verdicts and by those that it was told.
pub fn accepted_next(
    alloc: Global,
    own: &[Ruling],
    held: &[Held<Listed<Ruling>>],
) -> Result<Vec<Accepted>, NoMemory>
    ensures { IfOk result (λ a. a.items ≡ flat_map (λ v. taken_in v.verdict) own.now ++ flat_map (λ h. flat_map (λ v. taken_in v.verdict) h.body) held.now) }
{
    let mut accepted = Vec::new(alloc);
    push_accepted(alloc, own, &mut accepted)?;
    for h in held {
        push_accepted(alloc, h.body.as_slice(), &mut accepted)?;
    }
    Ok(accepted)
}

/// Adds the parts that go on of a node that was judged, with the ranks near the node.
fn push_directed(alloc: Global, j: &Judged, directed: &mut Vec<Directed>) -> Result<(), NoMemory>
    ensures { OnOk result (directed.new.items ≡ directed.old.items ++ asked_of j.now.near (parts_in j.now.verdict)) }
{
    if let Verdict::Parted(lower, upper) = &j.verdict {
        directed.push(Directed {
            node: *lower,
            asked: j.near.copied(alloc)?,
        })?;
        directed.push(Directed {
            node: *upper,
            asked: j.near.copied(alloc)?,
        })?;
    }
    Ok(())
}

/// How the nodes of two stand to each other.
fn node_order(p: &Directed, q: &Directed) -> Ordering
    ensures { result ≡ corner_cmp p.now.node q.now.node }
{
    p.node.cmp(&q.node)
}

/// Directed nodes in corner order.
fn by_node(list: Vec<Directed>) -> Result<Vec<Directed>, NoMemory>
    ensures { IfOk result (λ v. v.items ≡ sorted directed_less list.items) }
{
    let mut list = list;
    list.sort_by(|p, q| node_order(p, q))?;
    Ok(list)
}

/// The parts that go on of the nodes that a rank judged.
pub fn directed_next(alloc: Global, judged: &[Judged]) -> Result<Vec<Directed>, NoMemory>
    ensures { IfOk result (λ d. d.items ≡ sorted directed_less (flat_map (λ j. asked_of j.near (parts_in j.verdict)) judged.now)) }
{
    let mut directed = Vec::new(alloc);
    for j in judged {
        push_directed(alloc, j, &mut directed)?;
    }
    let directed = by_node(directed)?;
    Ok(directed)
}
