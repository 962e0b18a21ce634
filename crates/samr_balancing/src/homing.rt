//! The end of the balance: each rank tells the owners of boxes which pieces of these it has.

ghost use Rattle.std.specs.Prelude.{◌≡◌, ℕ, map, true, IfOk, refl};
ghost use Rattle.samr_load.specs.Laws.{boxes_of};
ghost use Rattle.samr_balance.specs.Home.{homed_of};
ghost use Rattle.samr_msg.specs.declared.body.Body.TheVariants.{Home as HomeBody};
ghost use Rattle.samr_msg.specs.Places.{AtPass};
ghost use Rattle.samr_msg.specs.PassStops.{pieces_told};
ghost use Rattle.samr_balancing.specs.Rounds.{homes_at, last_hand};

use crate::first::own_cuts;
use crate::parts::Handed;
use crate::shared::{new_boxes, replaced};
use samr_balance::{Hand, Home, Homed};
use samr_box::{IBox, Listed};
use samr_level::BoxRef;
use samr_load::quota;
use samr_msg::{Body, Letter};
use samr_phase::{Begun, Part, Step};
use samr_regrid::{Counted, Cut, Shared, Tools};
use samr_stage::{Label, Stage};
use std::alloc::{AllocError as NoMemory, Global};

/// What a rank keeps beside the end of the balance.
#[derive(Drop)]
pub struct HomeStep<G: Tools> {
    cut: Cut<G>,
}

/// The stage of a rank with this hand after the way down.
fn go_home<G: Tools>(alloc: Global, kept: &Counted<G>, hand: Hand) -> Result<Home, NoMemory>
    requires { (w : AtPass) × (r : ℕ) × ⟦<Counted<G> as Part>⟧.holds kept.now w r }
    ensures { IfOk result (λ stage. (w : AtPass) (r : ℕ) → ⟦<Counted<G> as Part>⟧.holds kept.now w r
        → hand ≡ last_hand w r → ⟦<Home as Stage>⟧.starts stage (homes_at w) r) }
{
    let base = &kept.cut.base;
    let rank = base.rank();
    let ranks = base.ranks();
    let share = quota(kept.total, ranks, rank);
    let own = own_cuts(alloc, kept.cut.cuts.as_slice())?;
    let boxes = boxes_of(alloc, own.as_slice())?;
    let Hand { pieces, needs } = hand;
    let stage = Home::start(
        alloc,
        rank,
        ranks,
        pieces.into_vec(),
        share,
        base.smallest(),
        needs,
        boxes.as_slice(),
    )?;
    Ok(stage)
}

/// Boxes without their owners.
fn boxes_of(alloc: Global, owned: &[BoxRef]) -> Result<Vec<IBox>, NoMemory>
    ensures { IfOk result (λ v. v.items ≡ boxes_of owned.now) }
{
    let mut boxes = Vec::new(alloc);
    for one in owned {
        boxes.push(box_of(*one))?;
    }
    Ok(boxes)
}

fn box_of(owned: BoxRef) -> IBox
    ensures { result ≡ owned.bx }
{
    owned.bx
}

/// A rank with its share, from what the balance gives it.
fn shared<G: Tools>(alloc: Global, cut: Cut<G>, homed: &Homed) -> Result<Shared<G>, NoMemory>
    ensures { IfOk result (λ out. (w : AtPass) (r : ℕ) → ⟦<Cut<G> as Part>⟧.holds cut w r
        → homed.now ≡ homed_of (homes_at w) r → ⟦<Shared<G> as Part>⟧.holds out w r) }
{
    let moves = replaced(alloc, cut.cuts.as_slice(), homed.mapping.entries.as_slice())?;
    let pieces = new_boxes(alloc, homed.pieces.as_slice())?;
    let Cut {
        base,
        clusters,
        cuts: _,
    } = cut;
    Ok(Shared {
        base,
        clusters,
        moves: Listed::from_vec(moves),
        pieces: Listed::from_vec(pieces),
    })
}

impl<G: Tools> Step<Letter, Body, Handed<G>, Shared<G>, Home> for HomeStep<G> {
    ghost label = { pieces_told.label };

    ghost visits = { pieces_told.visits };

    ghost says = { pieces_told.says };

    ghost wrap = { HomeBody };

    ghost gives = { λ w r out. out ≡ homed_of (homes_at w) r };

    ghost after = { pieces_told.after };

    ghost keeps = { λ k w r. ⟦<Cut<G> as Part>⟧.holds k.cut w r };

    ghost sure = { ⊥ };

    fn label(input: &Handed<G>) -> Label {
        input.kept.cut.base.label(9, 0)
    }

    fn visits(_input: &Handed<G>) -> bool {
        true
    }

    fn skip(_alloc: Global, _input: Handed<G>) -> Result<Shared<G>, NoMemory> {
        unreachable!()
    }

    fn begin(alloc: Global, input: Handed<G>) -> Result<Begun<Home, HomeStep<G>>, NoMemory> {
        let Handed { kept, hand } = input;
        let stage = go_home(alloc, &kept, hand)?;
        let Counted { cut, total: _ } = kept;
        Ok(Begun {
            stage,
            kept: HomeStep { cut },
        })
    }

    fn end(self, alloc: Global, given: Homed) -> Result<Shared<G>, NoMemory> {
        let out = shared(alloc, self.cut, &given)?;
        Ok(out)
    }

    ghost bodies = { λ run name body there. there };

    ghost same_ranks = { λ w. refl };
}
