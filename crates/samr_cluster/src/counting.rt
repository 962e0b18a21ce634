//! The sums of what the ranks report of each directed node.

ghost use Rattle.std.specs.Prelude.{◌≡◌, ◌+◌, ◌<◌, ◌≤◌, ◌^◌, ◌++◌, ◌∷◌, [], false, IfOk, OnOk, length, map, sum_by};
ghost use Rattle.std.specs.List.{All, find, fold};
ghost use Rattle.std.specs.Option.{option_copied};
ghost use Rattle.std.specs.Ordering.{is_eq};
ghost use Rattle.samr_box.specs.Corners.{cells_of};
ghost use Rattle.samr_box.specs.Orders.{corner_cmp};
ghost use Rattle.samr_sign.specs.Counts.{sign, sign_sum, total};
ghost use Rattle.samr_cluster.specs.ReportRow.{count_below, with_own, signed, tags_from, count_in};
ghost use Rattle.samr_cluster.specs.ReportParts.{CanCount};

use crate::nodes::{Counted, Directed};
use samr_box::{IBox, Listed};
use samr_rounds::RankTags;
use samr_sign::{Signature, TagField};
use samr_stage::Held;
use std::alloc::{AllocError as NoMemory, Global};

/// How many letters are from ranks below one.
fn count_below(rank: u16, held: &[Held<Listed<Signature>>]) -> usize
    ensures value { result ≡ count_below rank held.now }
    ensures within { result ≤ length held.now }
{
    held.iter().filter(|h| h.sender < rank).count()
}

/// The reports of all ranks by sender: those of the letters, and the rank's own at its place.
#[tactic(auto, unfolding(crate::specs::ReportRow::with_own))]
pub fn with_own(
    rank: u16,
    own: Listed<Signature>,
    mut held: Vec<Held<Listed<Signature>>>,
) -> Result<Vec<Held<Listed<Signature>>>, NoMemory>
    ensures { IfOk result (λ v. v.items ≡ with_own rank own held.items) }
{
    let place = count_below(rank, held.as_slice());
    held.insert(
        place,
        Held {
            sender: rank,
            body: own,
        },
    )?;
    Ok(held)
}

/// The signature of a node among some.
fn signature_of(node: IBox, signs: &[Signature]) -> Option<&Signature>
    ensures { option_copied result ≡ find (λ s. is_eq (corner_cmp s.bx node)) signs.now }
{
    signs.iter().find(|s| s.bx().cmp(&node).is_eq())
}

/// Adds a rank's signature of a node to the sum, and the number of its tags.
fn add_one(
    sender: u16,
    s: &Signature,
    sum: &mut Signature,
    tags: &mut Vec<RankTags>,
) -> Result<(), NoMemory>
    requires same { sum.old.bx ≡ s.now.bx }
    requires few { total sum.old + total s.now < 2 ^ 63 }
    ensures sum { OnOk result (sum.new ≡ sign_sum sum.old s.now) }
    ensures total { OnOk result (total sum.new ≡ total sum.old + total s.now) }
    ensures tags { OnOk result (tags.new.items ≡ tags.old.items ++ tags_from sender (s.now ∷ [])) }
{
    let _ = sum.bx();
    let _ = s.bx();
    sum.add(s);
    tags.push(RankTags {
        rank: sender,
        tags: s.total(),
    })?;
    Ok(())
}

/// Adds what a rank reports of a node, if it does.
#[tactic(auto, unfolding(crate::specs::ReportRow::signed))]
fn add_report(
    node: IBox,
    sender: u16,
    signs: &[Signature],
    sum: &mut Signature,
    tags: &mut Vec<RankTags>,
) -> Result<(), NoMemory>
    requires same { sum.old.bx ≡ node }
    requires few { total sum.old + sum_by total (signed node signs.now) < 2 ^ 63 }
    ensures sum { OnOk result (sum.new ≡ fold sign_sum sum.old (signed node signs.now)) }
    ensures same { OnOk result (sum.new.bx ≡ node) }
    ensures total { OnOk result (total sum.new ≡ total sum.old + sum_by total (signed node signs.now)) }
    ensures tags { OnOk result (tags.new.items ≡ tags.old.items ++ tags_from sender (signed node signs.now)) }
{
    match signature_of(node, signs) {
        Some(s) => {
            add_one(sender, s, sum, tags)?;
            Ok(())
        }
        None => Ok(()),
    }
}

/// The signature of a node without tags.
fn no_tags(alloc: Global, node: IBox) -> Result<Signature, NoMemory>
    requires { cells_of node < 2 ^ 63 }
    ensures value { IfOk result (λ s. s ≡ sign (λ x. false) node) }
    ensures none { IfOk result (λ s. total s ≡ 0) }
{
    let _ = &node.lo;
    let fields: Vec<TagField> = Vec::new(alloc);
    let s = Signature::of(alloc, node, fields.as_slice())?;
    Ok(s)
}

/// What the reports have of a node.
#[tactic(auto, unfolding(crate::specs::ReportRow::count_in))]
fn count_in(
    alloc: Global,
    node: IBox,
    reports: &[Held<Listed<Signature>>],
) -> Result<Counted, NoMemory>
    requires { CanCount reports.now node }
    ensures { IfOk result (λ c. c ≡ count_in reports.now node) }
{
    let mut sum = no_tags(alloc, node)?;
    let mut tags = Vec::new(alloc);
    for h in reports {
        add_report(node, h.sender, h.body.as_slice(), &mut sum, &mut tags)?;
    }
    Ok(Counted {
        node,
        sum,
        tags: Listed::from_vec(tags),
    })
}

/// What the reports have of all directed nodes.
pub fn count_all(
    alloc: Global,
    directed: &[Directed],
    reports: &[Held<Listed<Signature>>],
) -> Result<Vec<Counted>, NoMemory>
    requires { All (λ p. CanCount reports.now p.node) directed.now }
    ensures { IfOk result (λ v. v.items ≡ map (λ p. count_in reports.now p.node) directed.now) }
{
    let mut counted = Vec::new(alloc);
    for p in directed {
        counted.push(count_in(alloc, p.node, reports)?)?;
    }
    Ok(counted)
}
