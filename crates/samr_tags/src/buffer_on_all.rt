//! The tags of a level on all ranks, on one thread.

ghost use Rattle.std.specs.Prelude.{◌≡◌, ◌<◌, ◌^◌, IfOk, length, pos};
ghost use Rattle.std.specs.List.{All};
ghost use Rattle.samr_box.specs.declared.vector.IVec.{IVec as Cell};
ghost use Rattle.samr_box.specs.Vector.{alike, AtMost, InRange};
ghost use Rattle.samr_box.specs.Corners.{Holds};
ghost use Rattle.samr_level.specs.Levels.{own_boxes};
ghost use Rattle.samr_sign.specs.Fields.{AreTags};
ghost use Rattle.samr_stage.specs.Exchange.{AreResults};
ghost use Rattle.samr_tags.specs.Buffer.{Tagging, IsTagging, tags_of};
ghost use Rattle.samr_tags.specs.BufferOnAll.{HaveAllSelves};

use crate::buffer::Buffer;
use crate::given::Given;
use samr_box::{Domain, IVec, Listed};
use samr_level::{Pair, Part};
use samr_sign::TagField;
use samr_stage::exchange;
use std::alloc::{AllocError as NoMemory, Global};

/// The tags of a level on all ranks, on one thread: from the part and the overlaps of each rank, in
/// order of rank, to its tag fields. `d` is the frame of level 0, and `given` tells of all ranks' cells.
///
/// # Errors
///
/// Where memory is short.
pub fn buffer_all<T: Given>(
    alloc: Global,
    d: &Domain,
    parts: &[Part],
    selves: &[Pair],
    given: &T,
    step: u32,
    level: u8,
    tag_buffer: IVec,
) -> Result<Vec<Listed<TagField>>, NoMemory>
    requires told { All (λ p. All (λ e. (x : Cell) → Holds e.base.bx x → T.may_tell given.now level step x) p.forth.edges) selves.now }
    requires low { AtMost (alike (pos 0)) tag_buffer }
    requires range { InRange tag_buffer }
    requires few { length parts.now < 2 ^ 16 }
    requires parts { (w : Tagging) × HaveAllSelves d.now parts.now selves.now (T.is_tagged given.now level step) tag_buffer w }
    ensures { IfOk result (λ outs. (w : Tagging) → HaveAllSelves d.now parts.now selves.now (T.is_tagged given.now level step) tag_buffer w → IsTagging w
        → (length outs.items ≡ w.ranks) × AreResults (λ w rank fields. AreTags (own_boxes rank w.level) (tags_of w) fields) w outs.items) }
{
    let ranks = parts.len() as u16;
    let mut stages = Vec::new(alloc);
    'each: for rank in 0..ranks {
        let place = usize::from(rank);
        let boxes = parts[place].boxes.as_slice();
        let stage = Buffer::start(
            alloc,
            rank,
            ranks,
            d,
            boxes,
            &selves[place],
            given,
            step,
            level,
            tag_buffer,
        )?;
        stages.push(stage)?;
    }
    let fields = exchange(alloc, stages)?;
    Ok(fields)
}
