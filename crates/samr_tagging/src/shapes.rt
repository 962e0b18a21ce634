//! The tags of the shapes, with the cells about them.

ghost use Rattle.std.specs.Prelude.{◌≡◌, ℕ, true, refl, IfOk};
ghost use Rattle.samr_level.specs.Levels.{own_boxes};
ghost use Rattle.samr_sign.specs.Fields.{AreTags};
ghost use Rattle.samr_tags.specs.Buffer.{tags_of};
ghost use Rattle.samr_mesh.specs.Passes.{tagging};
ghost use Rattle.samr_msg.specs.declared.body.Body.TheVariants.{Buffer as BufferBody};
ghost use Rattle.samr_msg.specs.Places.{AtPass};
ghost use Rattle.samr_msg.specs.PassStops.{buffering};

use crate::buffered::Buffered;
use samr_box::Listed;
use samr_msg::{Body, Letter};
use samr_phase::{Begun, Part, Step};
use samr_regrid::{Base, Tools};
use samr_sign::TagField;
use samr_stage::{Label, Stage};
use samr_tags::Buffer;
use std::alloc::{AllocError as NoMemory, Global};

/// The step that tags the level by the shapes.
#[derive(Drop)]
pub struct BufferStep<G: Tools> {
    base: Base<G>,
}

/// The stage of a rank.
fn buffer<G: Tools>(alloc: Global, base: &Base<G>) -> Result<Buffer, NoMemory>
    requires { (w : AtPass) × (r : ℕ) × ⟦<Base<G> as Part>⟧.holds base.now w r }
    ensures { IfOk result (λ stage. (w : AtPass) (r : ℕ) → ⟦<Base<G> as Part>⟧.holds base.now w r
        → ⟦<Buffer as Stage>⟧.starts stage (tagging w.at.setting.problem w.pass) r) }
{
    let old = base.old();
    let frame = base.frame();
    let stage = Buffer::start(
        alloc,
        base.rank(),
        base.ranks(),
        &frame,
        old.boxes.as_slice(),
        &old.selves,
        base.tools(),
        base.step(),
        base.level(),
        base.tag_buffer(),
    )?;
    Ok(stage)
}

impl<G: Tools> Step<Letter, Body, Base<G>, Buffered<G>, Buffer> for BufferStep<G> {
    ghost label = { buffering.label };

    ghost visits = { buffering.visits };

    ghost says = { buffering.says };

    ghost wrap = { BufferBody };

    ghost gives = { λ w r out. AreTags (own_boxes r w.pass.level) (tags_of (tagging w.at.setting.problem w.pass)) out };

    ghost after = { buffering.after };

    ghost keeps = { λ k w r. ⟦<Base<G> as Part>⟧.holds k.base w r };

    ghost sure = { ⊥ };

    fn label(input: &Base<G>) -> Label {
        input.label(1, 0)
    }

    fn visits(_input: &Base<G>) -> bool {
        true
    }

    fn skip(_alloc: Global, _input: Base<G>) -> Result<Buffered<G>, NoMemory> {
        Err(NoMemory)
    }

    fn begin(alloc: Global, input: Base<G>) -> Result<Begun<Buffer, BufferStep<G>>, NoMemory> {
        let stage = buffer(alloc, &input)?;
        Ok(Begun {
            stage,
            kept: BufferStep { base: input },
        })
    }

    fn end(self, _alloc: Global, given: Listed<TagField>) -> Result<Buffered<G>, NoMemory> {
        Ok(Buffered {
            base: self.base,
            fields: given,
        })
    }

    ghost bodies = { λ run name body there. there };

    ghost same_ranks = { λ w. refl };
}
