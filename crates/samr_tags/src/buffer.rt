//! The stage that tags a level by its shapes, with the cells within the tag buffer.

ghost use Rattle.std.specs.Prelude.{◌≡◌, ℕ, IfOk, OnOk, pos, map};
ghost use Rattle.std.specs.List.{All};
ghost use Rattle.samr_box.specs.declared.vector.IVec.{IVec as Cell};
ghost use Rattle.samr_box.specs.Vector.{alike, AtMost, InRange};
ghost use Rattle.samr_box.specs.Corners.{Holds};
ghost use Rattle.samr_box.specs.Space.{IsSpace, finer};
ghost use Rattle.samr_level.specs.Levels.{own_boxes};
ghost use Rattle.samr_sign.specs.Fields.{AreTags};
ghost use Rattle.samr_stage.specs.declared.stage.Held.{Held};
ghost use Rattle.samr_stage.specs.Row.{heard, column};
ghost use Rattle.samr_peers.specs.PeerLaws.{heavy};
ghost use Rattle.samr_tags.specs.Buffer.{Tagging, IsTagging, tags_of};
ghost use Rattle.samr_tags.specs.BufferRow.{buffer_row};
ghost use Rattle.samr_tags.specs.BufferParts.{HasSelves, HasSeen};
ghost use Rattle.samr_tags.specs.StageLaws.{buffer_between};

use crate::given::Given;
use crate::marking::all_marked;
use crate::scan::all_seen;
use crate::seen::{Seen, told_to};
use samr_box::{Domain, IBox, IVec, Listed};
use samr_level::Pair;
use samr_peers::other_owners;
use samr_sign::TagField;
use samr_stage::{Held, Stage};
use std::alloc::{AllocError as NoMemory, Global};

/// The tags of a level by its shapes: each rank asks which of its cells a shape tags, tells the owners
/// of the boxes near them, and tags the cells within the tag buffer.
#[derive(Drop)]
pub struct Buffer {
    rank: u16,
    frame: Domain,
    buffer: IVec,
    boxes: Vec<IBox>,
    own: Vec<Seen>,
    peers: Vec<u16>,
}

impl Buffer {
    /// For a rank with these boxes of a level and these overlaps of the level with itself, which are
    /// known at a width of at least the tag buffer. `d` is the frame of level 0, and the tag buffer
    /// is in cells of the level. `given` is asked now, for cells of the bases of the overlaps alone.
    ///
    /// # Errors
    ///
    /// Where memory is short.
    pub fn start<T: Given>(
        alloc: Global,
        rank: u16,
        ranks: u16,
        d: &Domain,
        boxes: &[IBox],
        selves: &Pair,
        given: &T,
        step: u32,
        level: u8,
        tag_buffer: IVec,
    ) -> Result<Buffer, NoMemory>
        requires told { All (λ e. (x : Cell) → Holds e.base.bx x → T.may_tell given.now level step x) selves.now.forth.edges }
        requires low { AtMost (alike (pos 0)) tag_buffer }
        requires range { InRange tag_buffer }
        requires frame { IsSpace (finer d.now selves.now.forth.base_ratio) }
        ensures { IfOk result (λ stage. (w : Tagging) (r : ℕ) → HasSelves rank ranks d.now boxes.now selves.now (T.is_tagged given.now level step) tag_buffer w r
            → ⟦<Buffer as Stage>⟧.starts stage w r) }
    {
        let ratio = selves.forth.base_ratio;
        let frame = d.finer(ratio);
        let edges = selves.forth.edges.as_slice();
        let boxes = Vec::from_slice(alloc, boxes)?;
        let own = all_seen(alloc, given, level, step, edges, &frame, tag_buffer)?;
        let peers = other_owners(alloc, rank, edges)?;
        Ok(Buffer {
            rank,
            frame,
            buffer: tag_buffer,
            boxes,
            own,
            peers,
        })
    }
}

impl Stage for Buffer {
    type Body = Listed<Seen>;

    type Out = Listed<TagField>;

    ghost Whole = { Tagging };

    ghost ranks_of = { λ w. w.ranks };

    ghost says = { buffer_row };

    ghost gives = { λ w rank out. IsTagging w → AreTags (own_boxes rank w.level) (tags_of w) out };

    ghost weight_of = { λ _. 1 };

    ghost starts = { λ s w rank. HasSeen s.rank s.frame s.buffer s.boxes.items s.own.items s.peers.items w rank };

    ghost waits = { λ s w rank. HasSeen s.rank s.frame s.buffer s.boxes.items s.own.items s.peers.items w rank };

    fn letters(&mut self, alloc: Global) -> Result<Vec<(u16, Listed<Seen>)>, NoMemory> {
        let mut letters = Vec::new(alloc);
        'each: for to in &self.peers {
            let body = told_to(alloc, *to, self.own.as_slice())?;
            letters.push((*to, body))?;
        }
        Ok(letters)
    }

    fn weight(&self, _body: &Listed<Seen>) -> u64 {
        1
    }

    fn goal(&self) -> u64 {
        self.peers.len() as u64
    }

    fn finish(
        self,
        alloc: Global,
        held: Vec<Held<Listed<Seen>>>,
    ) -> Result<Listed<TagField>, NoMemory>
        requires { (w : Tagging) × (rank : ℕ) × HasSeen self.rank self.frame self.buffer self.boxes.items self.own.items self.peers.items w rank
            × (held.items ≡ heard (column (buffer_row w) rank) w.ranks) }
        ensures { IfOk result (λ out. (w : Tagging) (rank : ℕ)
            → HasSeen self.rank self.frame self.buffer self.boxes.items self.own.items self.peers.items w rank
            → held.items ≡ heard (column (buffer_row w) rank) w.ranks → IsTagging w → AreTags (own_boxes rank w.level) (tags_of w) out) }
    {
        let fields = all_marked(
            alloc,
            self.rank,
            self.boxes.as_slice(),
            self.own.as_slice(),
            held.as_slice(),
            &self.frame,
            self.buffer,
        )?;
        Ok(Listed::from_vec(fields))
    }

    ghost positive = { λ _ _ _ _ _. heavy };

    ghost between = { buffer_between };
}
