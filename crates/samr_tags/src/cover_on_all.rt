//! The cover on all ranks, on one thread.

ghost use Rattle.std.specs.Prelude.{◌≡◌, ◌<◌, ◌^◌, IfOk, length};
ghost use Rattle.std.specs.List.{All};
ghost use Rattle.samr_box.specs.Space.{finer};
ghost use Rattle.samr_level.specs.Levels.{own_boxes};
ghost use Rattle.samr_sign.specs.Fields.{AreTags};
ghost use Rattle.samr_stage.specs.Exchange.{AreResults};
ghost use Rattle.samr_tags.specs.Cover.{Covering, IsCovering, cover_tags};
ghost use Rattle.samr_tags.specs.CoverRow.{rule, HasRoom};
ghost use Rattle.samr_tags.specs.CoverOnAll.{HaveAllCovers, AreAllNeeds};

use crate::cover::Cover;
use samr_box::{Domain, IVec, Listed, Ratio};
use samr_level::Pair;
use samr_sign::TagField;
use samr_stage::exchange;
use std::alloc::{AllocError as NoMemory, Global};

/// The stages of all ranks, in order of rank.
fn stages_of(
    alloc: Global,
    d: &Domain,
    fields: Vec<Listed<TagField>>,
    covers: &[Pair],
    nest: IVec,
    upper: Ratio,
    lower: Ratio,
) -> Result<Vec<Cover>, NoMemory>
    requires few { length fields.items < 2 ^ 16 }
    requires room { All (λ p. All (HasRoom (rule (finer d.now p.forth.head_ratio) upper nest lower)) p.forth.edges) covers.now }
    requires parts { (w : Covering) × HaveAllCovers d.now fields.items covers.now nest upper lower w }
    ensures { IfOk result (λ v. (w : Covering) → HaveAllCovers d.now fields.items covers.now nest upper lower w → AreAllNeeds w v.items) }
{
    let ranks = fields.len() as u16;
    let mut stages = Vec::new(alloc);
    let mut rank = 0u16;
    'each: for own in fields {
        let place = usize::from(rank);
        let stage = Cover::start(
            alloc,
            rank,
            ranks,
            d,
            own,
            &covers[place],
            nest,
            upper,
            lower,
        )?;
        stages.push(stage)?;
        rank += 1;
    }
    Ok(stages)
}

/// The cover on all ranks, on one thread: from the tag fields and the overlaps of each rank, in order
/// of rank, to its tag fields with the cover. `d` is the frame of level 0, `upper` the ratio of the
/// fine level from the one below it, and `lower` that of the latter.
///
/// # Errors
///
/// Where memory is short.
pub fn cover_all(
    alloc: Global,
    d: &Domain,
    fields: Vec<Listed<TagField>>,
    covers: &[Pair],
    nest: IVec,
    upper: Ratio,
    lower: Ratio,
) -> Result<Vec<Listed<TagField>>, NoMemory>
    requires few { length fields.items < 2 ^ 16 }
    requires room { All (λ p. All (HasRoom (rule (finer d.now p.forth.head_ratio) upper nest lower)) p.forth.edges) covers.now }
    requires parts { (w : Covering) × HaveAllCovers d.now fields.items covers.now nest upper lower w }
    ensures { IfOk result (λ outs. (w : Covering) → HaveAllCovers d.now fields.items covers.now nest upper lower w → IsCovering w
        → (length outs.items ≡ w.ranks) × AreResults (λ w rank out. AreTags (own_boxes rank w.level) (cover_tags w) out) w outs.items) }
{
    let stages = stages_of(alloc, d, fields, covers, nest, upper, lower)?;
    let outs = exchange(alloc, stages)?;
    Ok(outs)
}
