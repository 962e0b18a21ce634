//! The stage in which ranks report their tags in open nodes to the directors.

ghost use Rattle.std.specs.Prelude.{◌≡◌, ◌<◌, ◌^◌, ℕ, IfOk};
ghost use Rattle.std.specs.List.{All};
ghost use Rattle.samr_box.specs.Vector.{InRange};
ghost use Rattle.samr_box.specs.Corners.{cells_of};
ghost use Rattle.samr_box.specs.Space.{IsSpace, finer};
ghost use Rattle.samr_stage.specs.Row.{told, heard, column};
ghost use Rattle.samr_peers.specs.PeerLaws.{heavy};
ghost use Rattle.samr_sign.specs.Fields.{AreApart};
ghost use Rattle.samr_cluster.specs.Rounds.{Round};
ghost use Rattle.samr_cluster.specs.DecideParts.{reported_state};
ghost use Rattle.samr_cluster.specs.ReportRow.{report_row};
ghost use Rattle.samr_cluster.specs.ReportParts.{HasTold, HasSigned};
ghost use Rattle.samr_cluster.specs.StageLaws.{report_between};

use crate::addressees::{other_directors, others_asked};
use crate::counting::{count_all, with_own};
use crate::nodes::{Directed, Reported, Told};
use crate::signing::{boxes_of, letters_to, near_nodes, signatures_for};
use samr_box::{Domain, IVec, Listed, Ratio};
use samr_sign::{Signature, TagField};
use samr_stage::{Held, Stage};
use std::alloc::{AllocError as NoMemory, Global};
use std::mem;

/// The reports of a round: each rank counts its own tags in the open nodes that it is near, and tells
/// the directors of these, who add up what all ranks have.
#[derive(Drop)]
pub struct Report {
    rank: u16,
    near: Vec<Told>,
    own: Listed<Signature>,
    letters: Vec<(u16, Listed<Signature>)>,
    directed: Vec<Directed>,
    senders: Vec<u16>,
}

impl Report {
    /// The stage of a rank with the tags of its boxes, the open nodes that it was told, and those that
    /// it directs. `d` is the frame of level 0, `to_level` the ratio from there to the level, and
    /// `width` is in cells of the level.
    ///
    /// # Errors
    ///
    /// Where memory is short.
    pub fn start(
        alloc: Global,
        rank: u16,
        ranks: u16,
        d: &Domain,
        fields: &[TagField],
        told: Vec<Told>,
        directed: Vec<Directed>,
        width: IVec,
        to_level: Ratio,
    ) -> Result<Report, NoMemory>
        requires width { InRange width }
        requires frame { IsSpace (finer d.now to_level) }
        requires apart { AreApart fields.now }
        requires few { All (λ t. cells_of t.node < 2 ^ 63) told.items }
        ensures { IfOk result (λ report. (x : Round) (r : ℕ) → HasTold rank d.now fields.now told.items directed.items width to_level x r
            → ⟦<Report as Stage>⟧.starts report x r) }
    {
        let frame = d.finer(to_level);
        let boxes = boxes_of(alloc, fields)?;
        let directors = other_directors(alloc, rank, told.as_slice())?;
        let senders = others_asked(alloc, rank, directed.as_slice())?;
        let near = near_nodes(alloc, told.as_slice(), boxes.as_slice(), width, &frame)?;
        let own = signatures_for(alloc, rank, fields, near.as_slice())?;
        let letters = letters_to(alloc, directors.as_slice(), fields, near.as_slice())?;
        Ok(Report {
            rank,
            near,
            own,
            letters,
            directed,
            senders,
        })
    }
}

impl Stage for Report {
    type Body = Listed<Signature>;

    type Out = Reported;

    ghost Whole = { Round };

    ghost ranks_of = { λ x. x.whole.ranks };

    ghost says = { report_row };

    ghost gives = { λ x rank out. out ≡ reported_state x rank };

    ghost weight_of = { λ _. 1 };

    ghost starts = { λ s x rank. HasSigned s.rank s.near.items s.own s.directed.items s.senders.items x rank
        × (s.letters.items ≡ told (report_row x rank) x.whole.ranks) };

    ghost waits = { λ s x rank. HasSigned s.rank s.near.items s.own s.directed.items s.senders.items x rank };

    fn letters(&mut self, alloc: Global) -> Result<Vec<(u16, Listed<Signature>)>, NoMemory> {
        let letters = mem::replace(&mut self.letters, Vec::new(alloc));
        Ok(letters)
    }

    fn weight(&self, _body: &Listed<Signature>) -> u64 {
        1
    }

    fn goal(&self) -> u64 {
        self.senders.len() as u64
    }

    fn finish(self, alloc: Global, held: Vec<Held<Listed<Signature>>>) -> Result<Reported, NoMemory>
        requires { (x : Round) × (rank : ℕ) × HasSigned self.rank self.near.items self.own self.directed.items self.senders.items x rank
            × (held.items ≡ heard (column (report_row x) rank) x.whole.ranks) }
        ensures { IfOk result (λ out. (x : Round) (rank : ℕ)
            → HasSigned self.rank self.near.items self.own self.directed.items self.senders.items x rank
            → held.items ≡ heard (column (report_row x) rank) x.whole.ranks → out ≡ reported_state x rank) }
    {
        let reports = with_own(self.rank, self.own, held)?;
        let counted = count_all(alloc, self.directed.as_slice(), reports.as_slice())?;
        Ok(Reported {
            near: Listed::from_vec(self.near),
            counted: Listed::from_vec(counted),
        })
    }

    ghost positive = { λ _ _ _ _ _. heavy };

    ghost between = { report_between };
}
