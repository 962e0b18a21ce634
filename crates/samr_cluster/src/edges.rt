//! The stage that finds the overlaps of a level and its clusters.

ghost use Rattle.std.specs.Prelude.{◌≡◌, ℕ, IfOk, OnOk, map};
ghost use Rattle.samr_box.specs.Vector.{InRange};
ghost use Rattle.samr_box.specs.Space.{IsSpace, finer};
ghost use Rattle.samr_level.specs.Overlaps.{scale_in, true_overlaps};
ghost use Rattle.samr_stage.specs.Row.{heard, column};
ghost use Rattle.samr_peers.specs.PeerLaws.{peer_between, heavy};
ghost use Rattle.samr_cluster.specs.Cluster.{Clustering};
ghost use Rattle.samr_cluster.specs.Accepting.{cluster_of, to_owners};
ghost use Rattle.samr_cluster.specs.EdgesRow.{edges_row, cluster_pair};
ghost use Rattle.samr_cluster.specs.EdgesParts.{HasAccepted, HasCompared};
ghost use Rattle.samr_cluster.specs.StageLaws.{edges_between};

use crate::accepted::{Accepted, clusters_of, owned_by};
use crate::addressees::{near_of, owners_of};
use crate::connectors::{gathered, settled_on, settled_turned};
use samr_box::{Domain, IBox, IVec, Listed, Ratio};
use samr_level::{Connector, Edge, Pair, true_overlaps_of};
use samr_stage::{Held, Stage};
use std::alloc::{AllocError as NoMemory, Global};

/// The overlaps of a level and its clusters. Each rank that is near the node of an accepted box tells
/// the box's owner which of its own boxes the box overlaps, and at which shifts.
#[derive(Drop)]
pub struct Edges {
    rank: u16,
    width: IVec,
    ratio: Ratio,
    found: Vec<Edge>,
    addressees: Vec<u16>,
    senders: Vec<u16>,
}

/// The overlaps of accepted boxes with boxes of a rank, of one level: `frame` is its domain.
pub fn compared(
    alloc: Global,
    rank: u16,
    boxes: &[IBox],
    accepted: &[Accepted],
    width: IVec,
    ratio: Ratio,
    frame: &Domain,
) -> Result<Vec<Edge>, NoMemory>
    requires { InRange width }
    ensures { IfOk result (λ v. v.items ≡ true_overlaps (scale_in frame.now width ratio ratio) (map (λ a. cluster_of a) accepted.now) (map (λ b. record { owner = rank; bx = b }) boxes.now)) }
{
    let clusters = clusters_of(alloc, accepted)?;
    let own = owned_by(alloc, rank, boxes)?;
    let found = true_overlaps_of(
        alloc,
        clusters.as_slice(),
        own.as_slice(),
        width,
        ratio,
        ratio,
        frame,
    )?;
    Ok(found)
}

impl Edges {
    /// The stage of a rank with these boxes of the level, and the accepted boxes of all rounds whose
    /// nodes it is near. `d` is the frame of level 0, `to_level` the ratio from there to the level, and
    /// `width` is in cells of the level.
    ///
    /// # Errors
    ///
    /// Where memory is short.
    pub fn start(
        alloc: Global,
        rank: u16,
        ranks: u16,
        d: &Domain,
        boxes: &[IBox],
        accepted: &[Accepted],
        width: IVec,
        to_level: Ratio,
    ) -> Result<Edges, NoMemory>
        requires width { InRange width }
        requires frame { IsSpace (finer d.now to_level) }
        ensures { IfOk result (λ edges. (w : Clustering) (r : ℕ) → HasAccepted rank d.now boxes.now accepted.now width to_level w r
            → ⟦<Edges as Stage>⟧.starts edges w r) }
    {
        let frame = d.finer(to_level);
        Ok(Edges {
            rank,
            width,
            ratio: to_level,
            found: compared(alloc, rank, boxes, accepted, width, to_level, &frame)?,
            addressees: owners_of(alloc, rank, accepted)?,
            senders: near_of(alloc, rank, accepted)?,
        })
    }
}

impl Stage for Edges {
    type Body = Listed<Edge>;

    type Out = Pair;

    ghost Whole = { Clustering };

    ghost ranks_of = { λ w. w.ranks };

    ghost says = { edges_row };

    ghost gives = { λ w rank out. out ≡ cluster_pair w rank };

    ghost weight_of = { λ _. 1 };

    ghost starts = { λ s w rank. HasCompared s.rank s.width s.ratio s.found.items s.addressees.items s.senders.items w rank };

    ghost waits = { λ s w rank. HasCompared s.rank s.width s.ratio s.found.items s.addressees.items s.senders.items w rank };

    fn letters(&mut self, alloc: Global) -> Result<Vec<(u16, Listed<Edge>)>, NoMemory> {
        let mut letters = Vec::new(alloc);
        'each: for to in &self.addressees {
            let body = settled_on(alloc, *to, self.found.as_slice())?;
            letters.push((*to, body))?;
        }
        Ok(letters)
    }

    fn weight(&self, _body: &Listed<Edge>) -> u64 {
        1
    }

    fn goal(&self) -> u64 {
        self.senders.len() as u64
    }

    fn finish(self, alloc: Global, held: Vec<Held<Listed<Edge>>>) -> Result<Pair, NoMemory>
        requires { (w : Clustering) × (rank : ℕ) × HasCompared self.rank self.width self.ratio self.found.items self.addressees.items self.senders.items w rank
            × (held.items ≡ heard (column (edges_row w) rank) w.ranks) }
        ensures { IfOk result (λ out. (w : Clustering) (rank : ℕ)
            → HasCompared self.rank self.width self.ratio self.found.items self.addressees.items self.senders.items w rank
            → held.items ≡ heard (column (edges_row w) rank) w.ranks → out ≡ cluster_pair w rank) }
    {
        let all = gathered(alloc, self.found.as_slice(), held.as_slice())?;
        let forth = settled_turned(alloc, self.found.as_slice())?;
        let back = settled_on(alloc, self.rank, all.as_slice())?;
        Ok(Pair {
            forth: Connector {
                width: self.width,
                base_ratio: self.ratio,
                head_ratio: self.ratio,
                edges: forth,
            },
            back: Connector {
                width: self.width,
                base_ratio: self.ratio,
                head_ratio: self.ratio,
                edges: back,
            },
        })
    }

    ghost positive = { λ _ _ _ _ _. heavy };

    ghost between = { edges_between };
}
