//! The way up the tree of the ranks: what they have too much, round by round.

ghost use Rattle.std.specs.Prelude.{◌≡◌, ℕ, ◌+◌, ◌<◌, IfOk, refl};
ghost use Rattle.samr_tree.specs.Tree.{bottom};
ghost use Rattle.samr_balance.specs.Rounds.{going_up};
ghost use Rattle.samr_balance.specs.WayUp.{after_up};
ghost use Rattle.samr_msg.specs.declared.body.Body.TheVariants.{Up as UpBody};
ghost use Rattle.samr_msg.specs.Places.{AtRound};
ghost use Rattle.samr_msg.specs.PassStops.{hands_at, boxes_up, ups_left};
ghost use Rattle.samr_balancing.specs.Rounds.{HasHand, climbed_hand};
ghost use Rattle.samr_balancing.specs.RoundLaws.{up_fewer, up_ends};

use crate::parts::{ClimbTurn, Climbed, Climbing};
use crate::turns::goes_up;
use samr_balance::{Hand, Up};
use samr_load::quota;
use samr_msg::{Body, Letter};
use samr_phase::{Begun, One, Part, Repeat, Step, Turns, Went};
use samr_regrid::{Counted, Tools};
use samr_stage::{Label, Stage};
use samr_tree::height;
use std::alloc::{AllocError as NoMemory, Global};

/// All rounds of the way up, one for each depth.
pub type WayUp<G> = Repeat<One<Up, UpStep<G>>, ClimbTurn<G>, UpTurns>;

/// What a rank keeps beside a round of the way up.
#[derive(Drop)]
pub struct UpStep<G: Tools> {
    kept: Counted<G>,
    round: u32,
}

/// The stage of a rank with this hand.
fn climb<G: Tools>(alloc: Global, kept: &Counted<G>, round: u32, hand: Hand) -> Result<Up, NoMemory>
    requires { (w : AtRound) × (r : ℕ) × ⟦<Counted<G> as Part>⟧.holds kept.now w.at r }
    ensures { IfOk result (λ stage. (w : AtRound) (r : ℕ) → ⟦<Counted<G> as Part>⟧.holds kept.now w.at r
        → HasHand going_up (bottom w.at.pass.ranks + 1) round hand w r → ⟦<Up as Stage>⟧.starts stage (hands_at w) r) }
{
    let base = &kept.cut.base;
    let rank = base.rank();
    let ranks = base.ranks();
    let share = quota(kept.total, ranks, rank);
    let Hand { pieces, needs } = hand;
    let stage = Up::start(
        alloc,
        rank,
        ranks,
        round,
        pieces.into_vec(),
        share,
        base.smallest(),
        needs,
    )?;
    Ok(stage)
}

impl<G: Tools> Step<Letter, Body, ClimbTurn<G>, Climbing<G>, Up> for UpStep<G> {
    ghost label = { boxes_up.label };

    ghost visits = { boxes_up.visits };

    ghost says = { boxes_up.says };

    ghost wrap = { UpBody };

    ghost gives = { λ w r out. out ≡ after_up (hands_at w) r };

    ghost after = { boxes_up.after };

    ghost keeps = { λ k w r. ⟦<Counted<G> as Part>⟧.holds k.kept w.at r × (k.round ≡ w.round) × (w.round < bottom w.at.pass.ranks + 1) };

    ghost sure = { ⊥ };

    fn label(input: &ClimbTurn<G>) -> Label {
        input.kept.cut.base.label(7, input.round)
    }

    fn visits(input: &ClimbTurn<G>) -> bool {
        let base = &input.kept.cut.base;
        goes_up(base.rank(), base.ranks(), input.round)
    }

    fn skip(_alloc: Global, input: ClimbTurn<G>) -> Result<Climbing<G>, NoMemory> {
        let ClimbTurn { kept, round, hand } = input;
        Ok(Climbing {
            kept,
            round: round + 1,
            hand,
        })
    }

    fn begin(alloc: Global, input: ClimbTurn<G>) -> Result<Begun<Up, UpStep<G>>, NoMemory> {
        let ClimbTurn { kept, round, hand } = input;
        let stage = climb(alloc, &kept, round, hand)?;
        Ok(Begun {
            stage,
            kept: UpStep { kept, round },
        })
    }

    fn end(self, _alloc: Global, given: Hand) -> Result<Climbing<G>, NoMemory> {
        Ok(Climbing {
            kept: self.kept,
            round: self.round + 1,
            hand: given,
        })
    }

    ghost bodies = { λ run name body there. there };

    ghost same_ranks = { λ w. refl };
}

/// The rounds of the way up. Each rank knows how many they are.
pub struct UpTurns {}

impl<G: Tools> Turns<Letter, Body, Climbing<G>, ClimbTurn<G>, Climbed<G>, One<Up, UpStep<G>>>
    for UpTurns {
    ghost left = { ups_left };

    ghost idle = { λ w r. ups_left w ≡ 0 };

    ghost begun = { λ w. w };

    ghost ended = { λ w. w.at };

    ghost rest = { λ z w r. ⟦<Climbed<G> as Part>⟧.holds z w.at r };

    ghost sure = { ⊥ };

    fn most(now: &Climbing<G>) -> u32 {
        height(now.kept.cut.base.ranks()) + 1
    }

    fn turn(_alloc: Global, now: Climbing<G>) -> Result<Went<ClimbTurn<G>, Climbed<G>>, NoMemory> {
        let Climbing { kept, round, hand } = now;
        if round <= height(kept.cut.base.ranks()) {
            return Ok(Went::On(ClimbTurn { kept, round, hand }));
        }
        Ok(Went::Over(Climbed { kept, hand }))
    }

    ghost fewer = { up_fewer };

    ghost rests = { λ w r idle some. absurd (up_ends w idle some) };

    ghost stays = { λ z w r there idle some. absurd (up_ends w idle some) };

    ghost ends = { λ z w r there idle none. there };

    ghost same_ranks = { λ w. (refl, refl) };
}
