//! The whole clustering on all ranks, on one thread, round by round.

ghost use Rattle.std.specs.Prelude.{◌≡◌, ◌<◌, ◌≤◌, ◌^◌, ◌++◌, ◌∷◌, [], ℕ, IfOk, OnOk, length, map, get_or, not, nat_eq, if◌then◌else◌};
ghost use Rattle.std.specs.List.{All, flat_map, range_with_len};
ghost use Rattle.samr_box.specs.Vector.{InRange};
ghost use Rattle.samr_box.specs.Space.{IsSpace, finer};
ghost use Rattle.samr_stage.specs.Exchange.{AreResults};
ghost use Rattle.samr_sign.specs.Fields.{AreApart};
ghost use Rattle.samr_sign.specs.Laws.{depth};
ghost use Rattle.samr_rounds.specs.Rounds.{directed};
ghost use Rattle.samr_cluster.specs.Cluster.{Clustering};
ghost use Rattle.samr_cluster.specs.Rounds.{Round, from_director, asked_of};
ghost use Rattle.samr_cluster.specs.DecideParts.{decided_state};
ghost use Rattle.samr_cluster.specs.ReportParts.{HaveAllTold};
ghost use Rattle.samr_cluster.specs.EdgesRow.{cluster_pair};
ghost use Rattle.samr_cluster.specs.ClusterOnAll.{first_told, first_nodes, nodes_after, in_rounds, HaveAllTags};

use crate::accepted::Accepted;
use crate::next_round::push_nodes;
use crate::nodes::{Decided, Directed, OpenNodes, Told};
use crate::on_all::{as_rank, decide_all, edges_all, report_all};
use crate::signing::boxes_of;
use samr_box::{Axis, Domain, IBox, IVec, Listed, Ratio};
use samr_level::Pair;
use samr_rounds::directed;
use samr_sign::{CutRule, TagField};
use std::alloc::{AllocError as NoMemory, Global};

/// Adds the roots of a director, but for one.
fn push_roots(
    alloc: Global,
    rank: u16,
    director: u16,
    ranks: u16,
    roots: &[IBox],
    told: &mut Vec<Told>,
) -> Result<(), NoMemory>
    requires { 0 < ranks }
    ensures { OnOk result (told.new.items ≡ told.old.items ++ (if not (nat_eq director rank) then from_director director (directed ranks director roots.now) else [])) }
{
    if director != rank {
        let own = directed(alloc, roots, director, ranks)?;
        push_nodes(director, own.as_slice(), told)?;
    }
    Ok(())
}

/// The roots as a rank is told them: its own first, then those of each other director.
///
/// # Errors
///
/// Where memory is short.
pub fn first_told(
    alloc: Global,
    rank: u16,
    ranks: u16,
    roots: &[IBox],
) -> Result<Vec<Told>, NoMemory>
    requires { 0 < ranks }
    ensures { IfOk result (λ v. v.items ≡ first_told ranks roots.now rank) }
{
    let own = directed(alloc, roots, rank, ranks)?;
    let mut told = Vec::new(alloc);
    push_nodes(rank, own.as_slice(), &mut told)?;
    for director in 0..ranks {
        push_roots(alloc, rank, director, ranks, roots, &mut told)?;
    }
    Ok(told)
}

/// All ranks.
fn all_ranks(alloc: Global, ranks: u16) -> Result<Listed<u16>, NoMemory>
    ensures { IfOk result (λ l. l ≡ range_with_len 0 ranks) }
{
    let mut list = Vec::new(alloc);
    for rank in 0..ranks {
        list.push(rank)?;
    }
    Ok(Listed::from_vec(list))
}

/// Nodes that all ranks were told.
fn asked_all(alloc: Global, ranks: u16, nodes: &[IBox]) -> Result<Vec<Directed>, NoMemory>
    ensures { IfOk result (λ v. v.items ≡ asked_of (range_with_len 0 ranks) nodes.now) }
{
    let mut asked = Vec::new(alloc);
    for node in nodes {
        asked.push(Directed {
            node: *node,
            asked: all_ranks(alloc, ranks)?,
        })?;
    }
    Ok(asked)
}

/// The roots that a rank directs, which all ranks are told.
///
/// # Errors
///
/// Where memory is short.
pub fn first_directed(
    alloc: Global,
    rank: u16,
    ranks: u16,
    roots: &[IBox],
) -> Result<Vec<Directed>, NoMemory>
    requires { 0 < ranks }
    ensures { IfOk result (λ v. v.items ≡ asked_of (range_with_len 0 ranks) (directed ranks rank roots.now)) }
{
    let own = directed(alloc, roots, rank, ranks)?;
    let nodes = asked_all(alloc, ranks, own.as_slice())?;
    Ok(nodes)
}

/// What all ranks have before the first round.
///
/// # Errors
///
/// Where memory is short.
pub fn first_nodes(alloc: Global, ranks: u16, roots: &[IBox]) -> Result<Vec<OpenNodes>, NoMemory>
    requires { 0 < ranks }
    ensures { IfOk result (λ v. v.items ≡ map (λ r. first_nodes ranks roots.now r) (range_with_len 0 ranks)) }
{
    let mut nodes = Vec::new(alloc);
    for rank in 0..ranks {
        let told = first_told(alloc, rank, ranks, roots)?;
        let directed = first_directed(alloc, rank, ranks, roots)?;
        nodes.push(OpenNodes {
            told: Listed::from_vec(told),
            directed: Listed::from_vec(directed),
        })?;
    }
    Ok(nodes)
}

/// The greater of two numbers.
fn greater(a: u64, b: u64) -> u64
    ensures first { a ≤ result }
    ensures second { b ≤ result }
{
    if a < b {
        return b;
    }
    a
}

/// A number of rounds after which no node is open.
pub fn rounds_for(roots: &[IBox]) -> u64
    ensures { All (λ b. depth b ≤ result) roots.now }
{
    let mut most = 0;
    for b in roots {
        most = greater(most, depth(*b));
    }
    most
}

/// The sum of the lengths of a box.
fn depth(b: IBox) -> u64
    ensures { result ≡ depth b }
{
    b.length(Axis::I) + b.length(Axis::J) + b.length(Axis::K)
}

/// A round on all ranks.
fn round_all(
    alloc: Global,
    d: &Domain,
    fields: &[Listed<TagField>],
    nodes: Vec<OpenNodes>,
    rule: CutRule,
    width: IVec,
    to_level: Ratio,
) -> Result<Vec<Decided>, NoMemory>
    requires width { InRange width }
    requires frame { IsSpace (finer d.now to_level) }
    requires few { length nodes.items < 2 ^ 16 }
    requires same { length fields.now ≡ length nodes.items }
    requires apart { All (λ f. AreApart f) fields.now }
    requires parts { (x : Round) × HaveAllTold d.now fields.now nodes.items width to_level x × (rule ≡ x.whole.rule) }
    ensures { IfOk result (λ outs. (x : Round) → HaveAllTold d.now fields.now nodes.items width to_level x → rule ≡ x.whole.rule
        → outs.items ≡ map (λ r. decided_state x r) (range_with_len 0 x.whole.ranks)) }
{
    let reported = report_all(alloc, d, fields, nodes, width, to_level)?;
    let decided = decide_all(alloc, d, reported, rule)?;
    Ok(decided)
}

/// The open nodes of all ranks after a round. What was accepted in it is added to `rounds`.
pub fn next_nodes(
    alloc: Global,
    decided: Vec<Decided>,
    rounds: &mut Vec<Listed<Listed<Accepted>>>,
) -> Result<Vec<OpenNodes>, NoMemory>
    ensures nodes { IfOk result (λ v. v.items ≡ map (λ o. nodes_after o) decided.items) }
    ensures rounds { OnOk result (rounds.new.items ≡ rounds.old.items ++ map (λ o. o.accepted) decided.items ∷ []) }
{
    let mut nodes = Vec::new(alloc);
    let mut accepted = Vec::new(alloc);
    for o in decided {
        let Decided {
            told,
            directed,
            accepted: taken,
        } = o;
        nodes.push(OpenNodes { told, directed })?;
        accepted.push(taken)?;
    }
    rounds.push(Listed::from_vec(accepted))?;
    Ok(nodes)
}

/// Adds copies of accepted boxes.
fn push_copies(
    alloc: Global,
    accepted: &[Accepted],
    all: &mut Vec<Accepted>,
) -> Result<(), NoMemory>
    ensures { OnOk result (all.new.items ≡ all.old.items ++ accepted.now) }
{
    for a in accepted {
        all.push(a.copied(alloc)?)?;
    }
    Ok(())
}

/// What a rank was told of in all rounds.
fn accepted_on(
    alloc: Global,
    rank: u16,
    rounds: &[Listed<Listed<Accepted>>],
) -> Result<Listed<Accepted>, NoMemory>
    requires { All (λ q. rank < length q) rounds.now }
    ensures { IfOk result (λ l. l ≡ flat_map (λ q. get_or q rank []) rounds.now) }
{
    let mut all = Vec::new(alloc);
    for q in rounds {
        push_copies(alloc, q.as_slice()[usize::from(rank)].as_slice(), &mut all)?;
    }
    Ok(Listed::from_vec(all))
}

/// What all ranks were told of in all rounds.
fn all_accepted(
    alloc: Global,
    ranks: u16,
    rounds: &[Listed<Listed<Accepted>>],
) -> Result<Vec<Listed<Accepted>>, NoMemory>
    requires { All (λ q. ranks ≤ length q) rounds.now }
    ensures { IfOk result (λ v. v.items ≡ map (λ r. flat_map (λ q. get_or q r []) rounds.now) (range_with_len 0 ranks)) }
{
    let mut accepted = Vec::new(alloc);
    for rank in 0..ranks {
        accepted.push(accepted_on(alloc, rank, rounds)?)?;
    }
    Ok(accepted)
}

/// The boxes of the fields of all ranks.
fn all_boxes(alloc: Global, fields: &[Listed<TagField>]) -> Result<Vec<Listed<IBox>>, NoMemory>
    ensures { IfOk result (λ v. v.items ≡ map (λ l. map (λ f. f.bx) l) fields.now) }
{
    let mut boxes = Vec::new(alloc);
    for own in fields {
        boxes.push(Listed::from_vec(boxes_of(alloc, own.as_slice())?))?;
    }
    Ok(boxes)
}

/// What all ranks are told of the accepted boxes, round by round.
fn all_rounds(
    alloc: Global,
    number: u64,
    d: &Domain,
    fields: &[Listed<TagField>],
    roots: &[IBox],
    rule: CutRule,
    width: IVec,
    to_level: Ratio,
) -> Result<Vec<Listed<Listed<Accepted>>>, NoMemory>
    requires width { InRange width }
    requires frame { IsSpace (finer d.now to_level) }
    requires few { length fields.now < 2 ^ 16 }
    requires some { 0 < length fields.now }
    requires apart { All (λ f. AreApart f) fields.now }
    requires parts { (w : Clustering) × HaveAllTags d.now fields.now roots.now rule width to_level w }
    ensures { IfOk result (λ v. (w : Clustering) → HaveAllTags d.now fields.now roots.now rule width to_level w → v.items ≡ in_rounds w number) }
{
    let mut nodes = first_nodes(alloc, as_rank(fields.len()), roots)?;
    let mut rounds = Vec::new(alloc);
    'each: for _round in 0..number {
        let decided = round_all(alloc, d, fields, nodes, rule, width, to_level)?;
        nodes = next_nodes(alloc, decided, &mut rounds)?;
    }
    Ok(rounds)
}

/// The clustering of a level on all ranks, on one thread: from the tags of each rank's boxes, in order
/// of rank, and the roots to its pair of level and clusters. `d` is the frame of level 0, `to_level`
/// the ratio from there to the level, and `width` is in cells of the level.
///
/// # Errors
///
/// Where memory is short.
pub fn cluster_all(
    alloc: Global,
    d: &Domain,
    fields: &[Listed<TagField>],
    roots: &[IBox],
    rule: CutRule,
    width: IVec,
    to_level: Ratio,
) -> Result<Vec<Pair>, NoMemory>
    requires width { InRange width }
    requires frame { IsSpace (finer d.now to_level) }
    requires few { length fields.now < 2 ^ 16 }
    requires some { 0 < length fields.now }
    requires apart { All (λ f. AreApart f) fields.now }
    requires parts { (w : Clustering) × HaveAllTags d.now fields.now roots.now rule width to_level w }
    ensures len { IfOk result (λ pairs. length pairs.items ≡ length fields.now) }
    ensures pairs { IfOk result (λ pairs. (w : Clustering) → HaveAllTags d.now fields.now roots.now rule width to_level w
        → AreResults (λ w rank out. out ≡ cluster_pair w rank) w pairs.items) }
{
    let number = rounds_for(roots);
    let rounds = all_rounds(alloc, number, d, fields, roots, rule, width, to_level)?;
    let accepted = all_accepted(alloc, as_rank(fields.len()), rounds.as_slice())?;
    let boxes = all_boxes(alloc, fields)?;
    let pairs = edges_all(
        alloc,
        d,
        boxes.as_slice(),
        accepted.as_slice(),
        width,
        to_level,
    )?;
    Ok(pairs)
}
