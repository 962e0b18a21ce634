//! The stage of a modification.

ghost use Rattle.std.specs.Prelude.{◌≡◌, ◌++◌, ℕ, IfOk, OnOk, map};
ghost use Rattle.std.specs.List.{flat_map};
ghost use Rattle.samr_box.specs.Vector.{InRange, greatest};
ghost use Rattle.samr_box.specs.Space.{IsSpace, finer};
ghost use Rattle.samr_stage.specs.declared.stage.Held.{Held};
ghost use Rattle.samr_stage.specs.Row.{heard, column};
ghost use Rattle.samr_modify.specs.Modify.{Modifying, IsModifying, modify_pair};
ghost use Rattle.samr_modify.specs.ModifyRow.{modify_row};
ghost use Rattle.samr_modify.specs.ModifyParts.{HasParts, HasEntries};
ghost use Rattle.samr_modify.specs.StageLaws.{modify_between, heavy};

use crate::entries::{NewBox, Replaced};
use crate::known::known_of;
use crate::leading::all_led;
use crate::letters::{gathered, told_to};
use crate::owners::{addressees, senders};
use crate::taking::all_taken;
use samr_box::{Domain, IVec, Listed, Ratio};
use samr_level::{Connector, Edge, Mapping, Pair, Ruler, settled};
use samr_stage::{Held, Stage};
use std::alloc::{AllocError as NoMemory, Global};

/// A modification: from the overlaps of an anchor level and an old level, and the new boxes that take
/// the place of each old box, to the overlaps of anchor level and new level. The rank of an old box
/// tells the owners of the anchors that overlap it and the owners of its new boxes what takes its
/// place, and these also what overlapped it.
#[derive(Drop)]
pub struct Modify {
    rank: u16,
    width: IVec,
    anchor_ratio: Ratio,
    old_ratio: Ratio,
    forth: Ruler,
    back: Ruler,
    edges: Vec<Edge>,
    known: Vec<Replaced>,
    addressees: Vec<u16>,
    senders: Vec<u16>,
}

impl Modify {
    /// The modification of a rank that has this pair of anchor and old level, this mapping of its own
    /// old boxes, and these new boxes, in any order. `d` is the frame of level 0. The new level is
    /// compared with the anchor at the ratios and the width of the pair.
    ///
    /// # Errors
    ///
    /// Where memory is short.
    pub fn start(
        alloc: Global,
        rank: u16,
        ranks: u16,
        d: &Domain,
        anchor: &Pair,
        mapping: &Mapping,
        news: &[NewBox],
    ) -> Result<Modify, NoMemory>
        requires width { InRange anchor.now.forth.width }
        requires frame { IsSpace (finer d.now (greatest anchor.now.forth.base_ratio anchor.now.forth.head_ratio)) }
        ensures { IfOk result (λ modify. (w : Modifying) (r : ℕ) → HasParts rank ranks d.now anchor.now mapping.now.entries news.now w r
            → ⟦<Modify as Stage>⟧.starts modify w r) }
    {
        let width = anchor.forth.width;
        let anchor_ratio = anchor.forth.base_ratio;
        let old_ratio = anchor.forth.head_ratio;
        let frame = finer_frame(d, anchor_ratio, old_ratio);
        let moves = mapping.entries.as_slice();
        let from_anchors = anchor.forth.edges.as_slice();
        let to_anchors = anchor.back.edges.as_slice();
        Ok(Modify {
            rank,
            width,
            anchor_ratio,
            old_ratio,
            forth: Ruler::new(width, anchor_ratio, old_ratio, &frame),
            back: Ruler::new(width, old_ratio, anchor_ratio, &frame),
            edges: Vec::from_slice(alloc, from_anchors)?,
            known: known_of(alloc, moves, to_anchors)?,
            addressees: addressees(alloc, rank, to_anchors, moves)?,
            senders: senders(alloc, rank, from_anchors, news)?,
        })
    }
}

/// The frame of the finer of two levels with these ratios from level 0, whose frame is `d`.
pub fn finer_frame(d: &Domain, a: Ratio, b: Ratio) -> Domain
    requires { IsSpace (finer d.now (greatest a b)) }
    ensures { result ≡ finer d.now (greatest a b) }
{
    let finest = a.factors().greatest(b.factors());
    d.finer(Ratio {
        k: finest.k,
        j: finest.j,
        i: finest.i,
    })
}

impl Stage for Modify {
    type Body = Listed<Replaced>;

    type Out = Pair;

    ghost Whole = { Modifying };

    ghost ranks_of = { λ w. w.ranks };

    ghost says = { modify_row };

    ghost gives = { λ w rank out. IsModifying w → out ≡ modify_pair w rank };

    ghost weight_of = { λ _. 1 };

    ghost starts = { λ s w rank. HasEntries s.rank s.width s.anchor_ratio s.old_ratio s.forth s.back s.edges.items s.known.items s.addressees.items s.senders.items w rank };

    ghost waits = { λ s w rank. HasEntries s.rank s.width s.anchor_ratio s.old_ratio s.forth s.back s.edges.items s.known.items s.addressees.items s.senders.items w rank };

    fn letters(&mut self, alloc: Global) -> Result<Vec<(u16, Listed<Replaced>)>, NoMemory> {
        let mut letters = Vec::new(alloc);
        'each: for to in &self.addressees {
            let body = told_to(alloc, *to, self.known.as_slice())?;
            letters.push((*to, body))?;
        }
        Ok(letters)
    }

    fn weight(&self, _body: &Listed<Replaced>) -> u64 {
        1
    }

    fn goal(&self) -> u64 {
        self.senders.len() as u64
    }

    fn finish(self, alloc: Global, held: Vec<Held<Listed<Replaced>>>) -> Result<Pair, NoMemory>
        requires { (w : Modifying) × (rank : ℕ) × HasEntries self.rank self.width self.anchor_ratio self.old_ratio self.forth self.back self.edges.items self.known.items self.addressees.items self.senders.items w rank
            × (held.items ≡ heard (column (modify_row w) rank) w.ranks) }
        ensures { IfOk result (λ out. (w : Modifying) (rank : ℕ)
            → HasEntries self.rank self.width self.anchor_ratio self.old_ratio self.forth self.back self.edges.items self.known.items self.addressees.items self.senders.items w rank
            → held.items ≡ heard (column (modify_row w) rank) w.ranks → IsModifying w → out ≡ modify_pair w rank) }
    {
        let known = gathered(self.known, held)?;
        let forth = all_led(alloc, &self.forth, self.edges.as_slice(), known.as_slice())?;
        let back = all_taken(alloc, &self.back, self.rank, known.as_slice())?;
        Ok(Pair {
            forth: Connector {
                width: self.width,
                base_ratio: self.anchor_ratio,
                head_ratio: self.old_ratio,
                edges: Listed::from_vec(settled(forth)),
            },
            back: Connector {
                width: self.width,
                base_ratio: self.old_ratio,
                head_ratio: self.anchor_ratio,
                edges: Listed::from_vec(settled(back)),
            },
        })
    }

    ghost positive = { λ _ _ _ _ _. heavy };

    ghost between = { modify_between };
}
