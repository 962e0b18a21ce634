//! The stage that adds to the tags of a level the cells that a new level two above it needs.

ghost use Rattle.std.specs.Prelude.{◌≡◌, ℕ, IfOk};
ghost use Rattle.std.specs.List.{All};
ghost use Rattle.samr_box.specs.Space.{IsSpace, finer};
ghost use Rattle.samr_level.specs.Levels.{own_boxes};
ghost use Rattle.samr_sign.specs.Fields.{AreTags};
ghost use Rattle.samr_stage.specs.declared.stage.Held.{Held};
ghost use Rattle.samr_stage.specs.Row.{heard, column};
ghost use Rattle.samr_peers.specs.PeerLaws.{heavy};
ghost use Rattle.samr_tags.specs.Cover.{Covering, IsCovering, cover_tags};
ghost use Rattle.samr_tags.specs.CoverRow.{rule, HasRoom, cover_row};
ghost use Rattle.samr_tags.specs.CoverParts.{HasCovers, HasNeeds};
ghost use Rattle.samr_tags.specs.StageLaws.{cover_between};

use crate::needs::{Needs, mark_fields, needed_of};
use samr_box::{Domain, IBox, IVec, Listed, Ratio};
use samr_level::{Edge, Pair};
use samr_peers::other_owners;
use samr_sign::TagField;
use samr_stage::{Held, Stage};
use std::alloc::{AllocError as NoMemory, Global};

/// The tags of a level with the cells that a new level two above it needs: the rank of a fine box
/// tells the owners of the boxes below what it needs of them, and each rank tags it.
#[derive(Drop)]
pub struct Cover {
    rank: u16,
    needs: Needs,
    fields: Listed<TagField>,
    edges: Vec<Edge>,
    addressees: Vec<u16>,
    senders: Vec<u16>,
}

impl Cover {
    /// For a rank with these tags of its boxes of a level, and these overlaps of the fine level with
    /// it, at a width of at least `nest` rounded up to cells of the level. `d` is the frame of level 0,
    /// `upper` the ratio of the fine level from the one below it, and `lower` that of the latter.
    ///
    /// # Errors
    ///
    /// Where memory is short.
    pub fn start(
        alloc: Global,
        rank: u16,
        ranks: u16,
        d: &Domain,
        fields: Listed<TagField>,
        covers: &Pair,
        nest: IVec,
        upper: Ratio,
        lower: Ratio,
    ) -> Result<Cover, NoMemory>
        requires frame { IsSpace (finer d.now covers.now.forth.head_ratio) }
        requires room { All (HasRoom (rule (finer d.now covers.now.forth.head_ratio) upper nest lower)) covers.now.forth.edges }
        ensures { IfOk result (λ stage. (w : Covering) (r : ℕ) → HasCovers rank ranks d.now fields covers.now nest upper lower w r
            → ⟦<Cover as Stage>⟧.starts stage w r) }
    {
        let ratio = covers.forth.head_ratio;
        let edges = covers.forth.edges.as_slice();
        let needs = Needs {
            frame: d.finer(ratio),
            upper,
            nest,
            lower,
        };
        Ok(Cover {
            rank,
            needs,
            fields,
            edges: Vec::from_slice(alloc, edges)?,
            addressees: other_owners(alloc, rank, edges)?,
            senders: other_owners(alloc, rank, covers.back.edges.as_slice())?,
        })
    }
}

impl Stage for Cover {
    type Body = Listed<IBox>;

    type Out = Listed<TagField>;

    ghost Whole = { Covering };

    ghost ranks_of = { λ w. w.ranks };

    ghost says = { cover_row };

    ghost gives = { λ w rank out. IsCovering w → AreTags (own_boxes rank w.level) (cover_tags w) out };

    ghost weight_of = { λ _. 1 };

    ghost starts = { λ s w rank. HasNeeds s.rank s.needs s.fields s.edges.items s.addressees.items s.senders.items w rank };

    ghost waits = { λ s w rank. HasNeeds s.rank s.needs s.fields s.edges.items s.addressees.items s.senders.items w rank };

    fn letters(&mut self, alloc: Global) -> Result<Vec<(u16, Listed<IBox>)>, NoMemory> {
        let mut letters = Vec::new(alloc);
        'each: for to in &self.addressees {
            let body = needed_of(alloc, &self.needs, *to, self.edges.as_slice())?;
            letters.push((*to, Listed::from_vec(body)))?;
        }
        Ok(letters)
    }

    fn weight(&self, _body: &Listed<IBox>) -> u64 {
        1
    }

    fn goal(&self) -> u64 {
        self.senders.len() as u64
    }

    fn finish(
        self,
        alloc: Global,
        held: Vec<Held<Listed<IBox>>>,
    ) -> Result<Listed<TagField>, NoMemory>
        requires { (w : Covering) × (rank : ℕ) × HasNeeds self.rank self.needs self.fields self.edges.items self.addressees.items self.senders.items w rank
            × (held.items ≡ heard (column (cover_row w) rank) w.ranks) }
        ensures { IfOk result (λ out. (w : Covering) (rank : ℕ)
            → HasNeeds self.rank self.needs self.fields self.edges.items self.addressees.items self.senders.items w rank
            → held.items ≡ heard (column (cover_row w) rank) w.ranks → IsCovering w → AreTags (own_boxes rank w.level) (cover_tags w) out) }
    {
        let own = needed_of(alloc, &self.needs, self.rank, self.edges.as_slice())?;
        let fields = mark_fields(
            alloc,
            self.fields.into_vec(),
            own.as_slice(),
            held.as_slice(),
        )?;
        Ok(Listed::from_vec(fields))
    }

    ghost positive = { λ _ _ _ _ _. heavy };

    ghost between = { cover_between };
}
