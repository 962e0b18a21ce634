//! The verdicts of a director on counted nodes.

ghost use Rattle.std.specs.Prelude.{◌≡◌, ◌++◌, IfOk, OnOk, map, nat_eq};
ghost use Rattle.std.specs.List.{list_any};
ghost use Rattle.samr_cluster.specs.DecideRow.{judge, told_to, rulings_for};

use crate::accepted::Accepted;
use crate::nodes::Counted;
use samr_box::{IBox, Listed};
use samr_rounds::{RankTags, owner_of_counts};
use samr_sign::{CutRule, Decision, decide};
use std::alloc::{AllocError as NoMemory, Global};

/// What a director tells of a node.
#[derive(Debug, Drop)]
pub enum Verdict {
    /// It has no tag.
    Dropped,
    /// This box is a cluster.
    Taken(Accepted),
    /// It goes on as these two parts.
    Parted(IBox, IBox),
}

impl Verdict {
    /// The same verdict.
    ///
    /// # Errors
    ///
    /// Where memory is short.
    pub fn copied(&self, alloc: Global) -> Result<Verdict, NoMemory>
        ensures { IfOk result (λ v. v ≡ self.now) }
    {
        match self {
            Verdict::Dropped => Ok(Verdict::Dropped),
            Verdict::Taken(a) => Ok(Verdict::Taken(a.copied(alloc)?)),
            Verdict::Parted(first, second) => Ok(Verdict::Parted(*first, *second)),
        }
    }
}

/// A verdict with the node that it is on.
#[derive(Debug, Drop)]
pub struct Ruling {
    pub node: IBox,
    pub verdict: Verdict,
}

impl Ruling {
    /// The same ruling.
    ///
    /// # Errors
    ///
    /// Where memory is short.
    pub fn copied(&self, alloc: Global) -> Result<Ruling, NoMemory>
        ensures { IfOk result (λ r. r ≡ self.now) }
    {
        Ok(Ruling {
            node: self.node,
            verdict: self.verdict.copied(alloc)?,
        })
    }
}

/// A verdict on a node, and the ranks that are near the node, ascending.
#[derive(Debug, Drop)]
pub struct Judged {
    pub node: IBox,
    pub verdict: Verdict,
    pub near: Listed<u16>,
}

/// The ranks of some counts.
fn ranks_in(alloc: Global, tags: &[RankTags]) -> Result<Listed<u16>, NoMemory>
    ensures { IfOk result (λ l. l ≡ map (λ n. n.rank) tags.now) }
{
    let mut ranks = Vec::new(alloc);
    for n in tags {
        ranks.push(n.rank)?;
    }
    Ok(Listed::from_vec(ranks))
}

/// The verdict on a counted node, and the ranks near it.
fn judge(alloc: Global, c: &Counted, rule: &CutRule) -> Result<Judged, NoMemory>
    ensures { IfOk result (λ j. j ≡ judge rule.now c.now) }
{
    let near = ranks_in(alloc, c.tags.as_slice())?;
    let verdict = match decide(&c.sum, rule) {
        Decision::Drop => Verdict::Dropped,
        Decision::Accept(bx) => Verdict::Taken(Accepted {
            bx,
            owner: owner_of_counts(c.tags.as_slice()),
            near: near.copied(alloc)?,
        }),
        Decision::Split(first, second) => Verdict::Parted(first, second),
    };
    Ok(Judged {
        node: c.node,
        verdict,
        near,
    })
}

/// The verdicts on counted nodes.
pub fn judge_all(
    alloc: Global,
    counted: &[Counted],
    rule: &CutRule,
) -> Result<Vec<Judged>, NoMemory>
    ensures { IfOk result (λ v. v.items ≡ map (λ c. judge rule.now c) counted.now) }
{
    let mut judged = Vec::new(alloc);
    for c in counted {
        judged.push(judge(alloc, c, rule)?)?;
    }
    Ok(judged)
}

/// Whether a rank is near the node that was judged.
fn is_near(j: &Judged, rank: u16) -> bool
    ensures { result ≡ list_any (λ k. nat_eq k rank) j.now.near }
{
    j.near.as_slice().iter().any(|k| *k == rank)
}

/// Adds the verdict on a node, where a rank is near it.
fn push_for(alloc: Global, rank: u16, j: &Judged, rulings: &mut Vec<Ruling>) -> Result<(), NoMemory>
    ensures { OnOk result (rulings.new.items ≡ rulings.old.items ++ told_to rank j.now) }
{
    if is_near(j, rank) {
        rulings.push(Ruling {
            node: j.node,
            verdict: j.verdict.copied(alloc)?,
        })?;
    }
    Ok(())
}

/// The verdicts on the nodes that a rank is near.
#[tactic(auto, unfolding(crate::specs::DecideRow::rulings_for))]
pub fn rulings_for(alloc: Global, rank: u16, judged: &[Judged]) -> Result<Listed<Ruling>, NoMemory>
    ensures { IfOk result (λ l. l ≡ rulings_for rank judged.now) }
{
    let mut rulings = Vec::new(alloc);
    for j in judged {
        push_for(alloc, rank, j, &mut rulings)?;
    }
    Ok(Listed::from_vec(rulings))
}
