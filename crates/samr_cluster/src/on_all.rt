//! Reports, decisions and overlaps on all ranks, each on one thread.

ghost use Rattle.std.specs.Prelude.{◌≡◌, ◌<◌, ◌^◌, ℕ, IfOk, length};
ghost use Rattle.std.specs.List.{All};
ghost use Rattle.samr_box.specs.Vector.{InRange};
ghost use Rattle.samr_box.specs.Corners.{cells_of};
ghost use Rattle.samr_box.specs.Space.{IsSpace, finer};
ghost use Rattle.samr_sign.specs.Fields.{AreApart};
ghost use Rattle.samr_stage.specs.Exchange.{AreResults};
ghost use Rattle.samr_cluster.specs.Cluster.{Clustering};
ghost use Rattle.samr_cluster.specs.EdgesRow.{cluster_pair};
ghost use Rattle.samr_cluster.specs.EdgesParts.{HaveAllAccepted};
ghost use Rattle.samr_cluster.specs.Rounds.{Round};
ghost use Rattle.samr_cluster.specs.DecideParts.{HaveAllReported, reported_state, decided_state};
ghost use Rattle.samr_cluster.specs.ReportParts.{HasTold, HaveAllTold};

use crate::accepted::Accepted;
use crate::decide::Decide;
use crate::edges::Edges;
use crate::nodes::{Decided, OpenNodes, Reported};
use crate::report::Report;
use samr_box::{Domain, IBox, IVec, Listed, Ratio};
use samr_level::Pair;
use samr_sign::{CutRule, TagField};
use samr_stage::{Stage, exchange};
use std::alloc::{AllocError as NoMemory, Global};

/// The overlaps of a level and its clusters on all ranks, on one thread: from the boxes of each rank
/// and the accepted boxes whose nodes it is near, in order of rank, to its pair of level and clusters.
/// `d` is the frame of level 0, `to_level` the ratio from there to the level, and `width` is in cells
/// of the level.
///
/// # Errors
///
/// Where memory is short.
pub fn edges_all(
    alloc: Global,
    d: &Domain,
    boxes: &[Listed<IBox>],
    accepted: &[Listed<Accepted>],
    width: IVec,
    to_level: Ratio,
) -> Result<Vec<Pair>, NoMemory>
    requires width { InRange width }
    requires frame { IsSpace (finer d.now to_level) }
    requires few { length boxes.now < 2 ^ 16 }
    requires same { length boxes.now ≡ length accepted.now }
    requires parts { (w : Clustering) × HaveAllAccepted d.now boxes.now accepted.now width to_level w }
    ensures len { IfOk result (λ pairs. length pairs.items ≡ length boxes.now) }
    ensures pairs { IfOk result (λ pairs. (w : Clustering) → HaveAllAccepted d.now boxes.now accepted.now width to_level w
        → AreResults (λ w rank out. out ≡ cluster_pair w rank) w pairs.items) }
{
    let ranks = boxes.len() as u16;
    let mut stages = Vec::new(alloc);
    'each: for rank in 0..ranks {
        let place = usize::from(rank);
        stages.push(Edges::start(
            alloc,
            rank,
            ranks,
            d,
            boxes[place].as_slice(),
            accepted[place].as_slice(),
            width,
            to_level,
        )?)?;
    }
    let pairs = exchange(alloc, stages)?;
    Ok(pairs)
}

/// A number as a rank.
pub fn as_rank(number: usize) -> u16
    requires { number < 2 ^ 16 }
    ensures { result ≡ number }
{
    number as u16
}

/// A round's decisions on all ranks, on one thread: from what each rank has once all have reported, in
/// order of rank, to what it has once all have decided.
///
/// # Errors
///
/// Where memory is short.
pub fn decide_all(
    alloc: Global,
    d: &Domain,
    reported: Vec<Reported>,
    rule: CutRule,
) -> Result<Vec<Decided>, NoMemory>
    requires few { length reported.items < 2 ^ 16 }
    requires parts { (x : Round) × HaveAllReported reported.items rule x }
    ensures len { IfOk result (λ outs. length outs.items ≡ length reported.items) }
    ensures decided { IfOk result (λ outs. (x : Round) → HaveAllReported reported.items rule x
        → AreResults (λ x rank out. out ≡ decided_state x rank) x outs.items) }
{
    let ranks = reported.len() as u16;
    let mut stages = Vec::new(alloc);
    'each: for v in reported {
        let rank = as_rank(stages.len());
        stages.push(Decide::start(alloc, rank, ranks, d, v, rule)?)?;
    }
    let outs = exchange(alloc, stages)?;
    Ok(outs)
}

/// The stage of a rank with these open nodes.
fn report_with(
    alloc: Global,
    rank: u16,
    ranks: u16,
    d: &Domain,
    fields: &[TagField],
    nodes: OpenNodes,
    width: IVec,
    to_level: Ratio,
) -> Result<Report, NoMemory>
    requires width { InRange width }
    requires frame { IsSpace (finer d.now to_level) }
    requires apart { AreApart fields.now }
    requires few { All (λ t. cells_of t.node < 2 ^ 63) nodes.told }
    ensures { IfOk result (λ report. (x : Round) (r : ℕ) → HasTold rank d.now fields.now nodes.told nodes.directed width to_level x r
        → ⟦<Report as Stage>⟧.starts report x r) }
{
    let OpenNodes { told, directed } = nodes;
    let report = Report::start(
        alloc,
        rank,
        ranks,
        d,
        fields,
        told.into_vec(),
        directed.into_vec(),
        width,
        to_level,
    )?;
    Ok(report)
}

/// A round's reports on all ranks, on one thread: from the tags of each rank's boxes and the open nodes
/// that it was told and directs, in order of rank, to what it has once all have reported. `d` is the
/// frame of level 0, `to_level` the ratio from there to the level, and `width` is in cells of the level.
///
/// # Errors
///
/// Where memory is short.
pub fn report_all(
    alloc: Global,
    d: &Domain,
    fields: &[Listed<TagField>],
    nodes: Vec<OpenNodes>,
    width: IVec,
    to_level: Ratio,
) -> Result<Vec<Reported>, NoMemory>
    requires width { InRange width }
    requires frame { IsSpace (finer d.now to_level) }
    requires few { length nodes.items < 2 ^ 16 }
    requires same { length fields.now ≡ length nodes.items }
    requires apart { All (λ f. AreApart f) fields.now }
    requires parts { (x : Round) × HaveAllTold d.now fields.now nodes.items width to_level x }
    ensures len { IfOk result (λ outs. length outs.items ≡ length nodes.items) }
    ensures reported { IfOk result (λ outs. (x : Round) → HaveAllTold d.now fields.now nodes.items width to_level x
        → AreResults (λ x rank out. out ≡ reported_state x rank) x outs.items) }
{
    let ranks = nodes.len() as u16;
    let mut stages = Vec::new(alloc);
    'each: for v in nodes {
        let rank = as_rank(stages.len());
        let own = fields[usize::from(rank)].as_slice();
        stages.push(report_with(alloc, rank, ranks, d, own, v, width, to_level)?)?;
    }
    let outs = exchange(alloc, stages)?;
    Ok(outs)
}
