//! The cells that the new level two above needs.

ghost use Rattle.std.specs.Prelude.{◌≡◌, ℕ, true, refl, IfOk};
ghost use Rattle.samr_level.specs.Levels.{own_boxes};
ghost use Rattle.samr_sign.specs.Fields.{AreTags};
ghost use Rattle.samr_tags.specs.Buffer.{tags_of};
ghost use Rattle.samr_tags.specs.CoverParts.{down_pair};
ghost use Rattle.samr_mesh.specs.Passes.{tagging, covering, tags_in};
ghost use Rattle.samr_msg.specs.declared.body.Body.TheVariants.{Cover as CoverBody};
ghost use Rattle.samr_msg.specs.Places.{AtPass};
ghost use Rattle.samr_msg.specs.PassStops.{covers_told, is_some_level};

use crate::buffered::Buffered;
use samr_box::Listed;
use samr_level::Pair;
use samr_msg::{Body, Letter};
use samr_phase::{Begun, Part, Step};
use samr_regrid::{Base, Tagged, Tools};
use samr_sign::TagField;
use samr_stage::{Label, Stage};
use samr_tags::Cover;
use std::alloc::{AllocError as NoMemory, Global};

/// The step that adds what the new level two above needs.
#[derive(Drop)]
pub struct CoverStep<G: Tools> {
    base: Base<G>,
}

/// Whether there is a new level two above.
fn is_covered<G: Tools>(base: &Base<G>) -> bool
    ensures { (w : AtPass) (r : ℕ) → ⟦<Base<G> as Part>⟧.holds base.now w r → result ≡ is_some_level w.pass.above }
{
    base.above().is_some()
}

/// The overlaps of the new level two above with the level.
fn covers<G: Tools>(base: &Base<G>) -> &Pair
    requires { (w : AtPass) × (r : ℕ) × ⟦<Base<G> as Part>⟧.holds base.now w r × (is_some_level w.pass.above ≡ true) }
    ensures { (w : AtPass) (r : ℕ) → ⟦<Base<G> as Part>⟧.holds base.now w r → is_some_level w.pass.above ≡ true
        → result.now ≡ down_pair (covering w.at.setting.problem w.pass) r }
{
    match base.above() {
        Some(above) => &above.cover,
        None => unreachable!(),
    }
}

/// The stage of a rank.
fn cover<G: Tools>(
    alloc: Global,
    base: &Base<G>,
    fields: Listed<TagField>,
) -> Result<Cover, NoMemory>
    requires { (w : AtPass) × (r : ℕ) × ⟦<Base<G> as Part>⟧.holds base.now w r × (is_some_level w.pass.above ≡ true) }
    ensures { IfOk result (λ stage. (w : AtPass) (r : ℕ) → ⟦<Base<G> as Part>⟧.holds base.now w r → is_some_level w.pass.above ≡ true
        → AreTags (own_boxes r w.pass.level) (tags_of (tagging w.at.setting.problem w.pass)) fields
        → ⟦<Cover as Stage>⟧.starts stage (covering w.at.setting.problem w.pass) r) }
{
    let frame = base.frame();
    let stage = Cover::start(
        alloc,
        base.rank(),
        base.ranks(),
        &frame,
        fields,
        covers(base),
        base.nest(),
        base.upper(),
        base.lower(),
    )?;
    Ok(stage)
}

impl<G: Tools> Step<Letter, Body, Buffered<G>, Tagged<G>, Cover> for CoverStep<G> {
    ghost label = { covers_told.label };

    ghost visits = { covers_told.visits };

    ghost says = { covers_told.says };

    ghost wrap = { CoverBody };

    ghost gives = { λ w r out. AreTags (own_boxes r w.pass.level) (tags_in w.at.setting.problem w.pass) out };

    ghost after = { covers_told.after };

    ghost keeps = { λ k w r. ⟦<Base<G> as Part>⟧.holds k.base w r };

    ghost sure = { ⊥ };

    fn label(input: &Buffered<G>) -> Label {
        input.base.label(2, 0)
    }

    fn visits(input: &Buffered<G>) -> bool {
        is_covered(&input.base)
    }

    fn skip(_alloc: Global, input: Buffered<G>) -> Result<Tagged<G>, NoMemory> {
        Ok(Tagged {
            base: input.base,
            fields: input.fields,
        })
    }

    fn begin(alloc: Global, input: Buffered<G>) -> Result<Begun<Cover, CoverStep<G>>, NoMemory> {
        let Buffered { base, fields } = input;
        let stage = cover(alloc, &base, fields)?;
        Ok(Begun {
            stage,
            kept: CoverStep { base },
        })
    }

    fn end(self, _alloc: Global, given: Listed<TagField>) -> Result<Tagged<G>, NoMemory> {
        Ok(Tagged {
            base: self.base,
            fields: given,
        })
    }

    ghost bodies = { λ run name body there. there };

    ghost same_ranks = { λ w. refl };
}
