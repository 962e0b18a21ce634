//! The phase that leads from the overlaps with clusters to those with the pieces, and to those of the new level.

ghost use Rattle.std.specs.Prelude.{◌≡◌, ℕ, true, refl, IfOk};
ghost use Rattle.samr_level.specs.declared.parts.Move.{Move};
ghost use Rattle.samr_modify.specs.Modify.{old_pair, modify_pair};
ghost use Rattle.samr_modify.specs.ModifyParts.{ArePieces};
ghost use Rattle.samr_modify.specs.Entries.{moves_of};
ghost use Rattle.samr_wholes.specs.Wholes.{modifying};
ghost use Rattle.samr_msg.specs.declared.body.Body.TheVariants.{Modify as Modified};
ghost use Rattle.samr_msg.specs.Places.{AtPass};
ghost use Rattle.samr_msg.specs.PassStops.{pieces_placed};
ghost use Rattle.samr_regrid.specs.Making.{new_part};

use crate::news::own_news;
use crate::pairs::refined;
use crate::parts::Joined;
use samr_box::{IBox, Listed};
use samr_level::{Mapping, Move, Pair};
use samr_modify::{Modify, NewBox};
use samr_msg::{Body, Letter};
use samr_phase::{Begun, Part, Step};
use samr_regrid::{Base, Shared, Tools};
use samr_stage::{Label, Stage};
use std::alloc::{AllocError as NoMemory, Global};

/// What a rank keeps beside the stage: its boxes of the new level, with its base.
#[derive(Drop)]
pub(crate) struct ModifyStep<G: Tools> {
    base: Base<G>,
    boxes: Listed<IBox>,
}

/// The stage of a rank.
fn modify<G: Tools>(
    alloc: Global,
    base: &Base<G>,
    clusters: &Pair,
    moves: Listed<Move>,
    pieces: &[NewBox],
) -> Result<Modify, NoMemory>
    requires { (w : AtPass) × (r : ℕ) × ⟦<Base<G> as Part>⟧.holds base.now w r
        × (clusters.now ≡ old_pair (modifying w.at.setting.problem w.pass) r) }
    ensures { IfOk result (λ stage. (w : AtPass) (r : ℕ) → ⟦<Base<G> as Part>⟧.holds base.now w r
        → clusters.now ≡ old_pair (modifying w.at.setting.problem w.pass) r
        → moves ≡ moves_of r (modifying w.at.setting.problem w.pass).moves
        → ArePieces (modifying w.at.setting.problem w.pass) r pieces.now
        → ⟦<Modify as Stage>⟧.starts stage (modifying w.at.setting.problem w.pass) r) }
{
    let mapping = Mapping { entries: moves };
    let stage = Modify::start(
        alloc,
        base.rank(),
        base.ranks(),
        &base.frame(),
        clusters,
        &mapping,
        pieces,
    )?;
    Ok(stage)
}

/// The boxes of a rank in the new level.
fn boxes<G: Tools>(
    alloc: Global,
    base: &Base<G>,
    pieces: &[NewBox],
) -> Result<Listed<IBox>, NoMemory>
    requires { (w : AtPass) × (r : ℕ) × ⟦<Base<G> as Part>⟧.holds base.now w r
        × ArePieces (modifying w.at.setting.problem w.pass) r pieces.now }
    ensures { IfOk result (λ boxes. (w : AtPass) (r : ℕ) → ⟦<Base<G> as Part>⟧.holds base.now w r
        → ArePieces (modifying w.at.setting.problem w.pass) r pieces.now → boxes ≡ (new_part w r).boxes) }
{
    let boxes = own_news(alloc, base.rank(), pieces, base.lower())?;
    Ok(boxes)
}

/// The overlaps of the new level with the level below, from those of that level with the pieces.
fn under<G: Tools>(alloc: Global, base: &Base<G>, placed: &Pair) -> Result<Pair, NoMemory>
    requires { (w : AtPass) × (r : ℕ) × ⟦<Base<G> as Part>⟧.holds base.now w r
        × (placed.now ≡ modify_pair (modifying w.at.setting.problem w.pass) r) }
    ensures { IfOk result (λ pair. (w : AtPass) (r : ℕ) → ⟦<Base<G> as Part>⟧.holds base.now w r
        → placed.now ≡ modify_pair (modifying w.at.setting.problem w.pass) r → pair ≡ (new_part w r).under) }
{
    let pair = refined(alloc, placed, base.lower())?;
    Ok(pair)
}

impl<G: Tools> Step<Letter, Body, Shared<G>, Joined<G>, Modify> for ModifyStep<G> {
    ghost label = { pieces_placed.label };

    ghost visits = { pieces_placed.visits };

    ghost says = { pieces_placed.says };

    ghost wrap = { Modified };

    ghost gives = { λ w r out. out ≡ modify_pair (modifying w.at.setting.problem w.pass) r };

    ghost after = { pieces_placed.after };

    ghost keeps = { λ k w r. ⟦<Base<G> as Part>⟧.holds k.base w r × (k.boxes ≡ (new_part w r).boxes) };

    ghost sure = { ⊥ };

    fn label(input: &Shared<G>) -> Label {
        input.base.label(10, 0)
    }

    fn visits(_input: &Shared<G>) -> bool {
        true
    }

    fn skip(_alloc: Global, _input: Shared<G>) -> Result<Joined<G>, NoMemory> {
        unreachable!()
    }

    fn begin(alloc: Global, input: Shared<G>) -> Result<Begun<Modify, Self>, NoMemory> {
        let Shared {
            base,
            clusters,
            moves,
            pieces,
        } = input;
        let boxes = boxes(alloc, &base, pieces.as_slice())?;
        let stage = modify(alloc, &base, &clusters, moves, pieces.as_slice())?;
        Ok(Begun {
            stage,
            kept: ModifyStep { base, boxes },
        })
    }

    fn end(self, alloc: Global, given: Pair) -> Result<Joined<G>, NoMemory> {
        let ModifyStep { base, boxes } = self;
        let under = under(alloc, &base, &given)?;
        Ok(Joined { base, boxes, under })
    }

    ghost bodies = { λ run name body there. there };

    ghost same_ranks = { λ w. refl };
}
