//! The way down the tree of the ranks: what others need, round by round.

ghost use Rattle.std.specs.Prelude.{◌≡◌, ℕ, ◌+◌, ◌<◌, IfOk, refl};
ghost use Rattle.samr_tree.specs.Tree.{bottom};
ghost use Rattle.samr_balance.specs.Rounds.{going_down};
ghost use Rattle.samr_balance.specs.WayDown.{after_down, visits_down};
ghost use Rattle.samr_msg.specs.declared.body.Body.TheVariants.{Down as DownBody};
ghost use Rattle.samr_msg.specs.Places.{AtRound, AtPass, first_round};
ghost use Rattle.samr_msg.specs.PassStops.{hands_at, boxes_down, downs_left};
ghost use Rattle.samr_balancing.specs.Rounds.{HasHand, last_hand};
ghost use Rattle.samr_balancing.specs.RoundLaws.{down_fewer, down_ends};

use crate::parts::{Climbed, FallTurn, Falling, Handed};
use crate::turns::{gives_down, has_need, told_down};
use samr_balance::{Down, Hand};
use samr_load::quota;
use samr_msg::{Body, Letter};
use samr_phase::{Begun, Making, One, Part, Repeat, Step, Turns, Went};
use samr_regrid::{Counted, Tools};
use samr_stage::{Label, Stage};
use samr_tree::height;
use std::alloc::{AllocError as NoMemory, Global};

/// All rounds of the way down, one for each depth but the root's.
pub type WayDown<G> = Repeat<One<Down, DownStep<G>>, FallTurn<G>, DownTurns>;

/// What a rank keeps beside a round of the way down.
#[derive(Drop)]
pub struct DownStep<G: Tools> {
    kept: Counted<G>,
    round: u32,
}

/// The hand with which the way down begins is that after the way up.
pub struct AtTop {}

impl<G: Tools> Making<Climbed<G>, Falling<G>> for AtTop {
    ghost after = { first_round };

    ghost sure = { ⊥ };

    fn make(_alloc: Global, input: Climbed<G>) -> Result<Falling<G>, NoMemory> {
        let Climbed { kept, hand } = input;
        Ok(Falling {
            kept,
            round: 0,
            hand,
        })
    }

    ghost same_ranks = { λ w. refl };
}

/// The stage of a rank with this hand.
fn fall<G: Tools>(
    alloc: Global,
    kept: &Counted<G>,
    round: u32,
    hand: Hand,
) -> Result<Down, NoMemory>
    requires { (w : AtRound) × (r : ℕ) × ⟦<Counted<G> as Part>⟧.holds kept.now w.at r }
    ensures { IfOk result (λ stage. (w : AtRound) (r : ℕ) → ⟦<Counted<G> as Part>⟧.holds kept.now w.at r
        → HasHand going_down (bottom w.at.pass.ranks) round hand w r → ⟦<Down as Stage>⟧.starts stage (hands_at w) r) }
{
    let base = &kept.cut.base;
    let rank = base.rank();
    let ranks = base.ranks();
    let share = quota(kept.total, ranks, rank);
    let Hand { pieces, needs } = hand;
    let stage = Down::start(
        alloc,
        rank,
        ranks,
        round,
        pieces.into_vec(),
        share,
        base.smallest(),
        needs,
    )?;
    Ok(stage)
}

/// Whether a rank with this hand visits a round: a child needs something in the round of its depth, or
/// the rank itself in the one before.
fn visits<G: Tools>(kept: &Counted<G>, round: u32, hand: &Hand) -> bool
    requires { (w : AtRound) × (r : ℕ) × ⟦<Counted<G> as Part>⟧.holds kept.now w.at r
        × HasHand going_down (bottom w.at.pass.ranks) round hand.now w r }
    ensures { (w : AtRound) (r : ℕ) → ⟦<Counted<G> as Part>⟧.holds kept.now w.at r
        → HasHand going_down (bottom w.at.pass.ranks) round hand.now w r → result ≡ visits_down (hands_at w) r }
{
    let base = &kept.cut.base;
    let rank = base.rank();
    let ranks = base.ranks();
    if told_down(rank, ranks, round) {
        return has_need(
            hand.pieces.as_slice(),
            quota(kept.total, ranks, rank),
            hand.needs,
        );
    }
    gives_down(rank, round, hand.needs)
}

impl<G: Tools> Step<Letter, Body, FallTurn<G>, Falling<G>, Down> for DownStep<G> {
    ghost label = { boxes_down.label };

    ghost visits = { boxes_down.visits };

    ghost says = { boxes_down.says };

    ghost wrap = { DownBody };

    ghost gives = { λ w r out. out ≡ after_down (hands_at w) r };

    ghost after = { boxes_down.after };

    ghost keeps = { λ k w r. ⟦<Counted<G> as Part>⟧.holds k.kept w.at r × (k.round ≡ w.round) × (w.round < bottom w.at.pass.ranks) };

    ghost sure = { ⊥ };

    fn label(input: &FallTurn<G>) -> Label {
        input.kept.cut.base.label(8, input.round)
    }

    fn visits(input: &FallTurn<G>) -> bool {
        visits(&input.kept, input.round, &input.hand)
    }

    fn skip(_alloc: Global, input: FallTurn<G>) -> Result<Falling<G>, NoMemory> {
        let FallTurn { kept, round, hand } = input;
        Ok(Falling {
            kept,
            round: round + 1,
            hand,
        })
    }

    fn begin(alloc: Global, input: FallTurn<G>) -> Result<Begun<Down, DownStep<G>>, NoMemory> {
        let FallTurn { kept, round, hand } = input;
        let stage = fall(alloc, &kept, round, hand)?;
        Ok(Begun {
            stage,
            kept: DownStep { kept, round },
        })
    }

    fn end(self, _alloc: Global, given: Hand) -> Result<Falling<G>, NoMemory> {
        Ok(Falling {
            kept: self.kept,
            round: self.round + 1,
            hand: given,
        })
    }

    ghost bodies = { λ run name body there. there };

    ghost same_ranks = { λ w. refl };
}

/// The rounds of the way down. Each rank knows how many they are.
pub struct DownTurns {}

impl<G: Tools> Turns<Letter, Body, Falling<G>, FallTurn<G>, Handed<G>, One<Down, DownStep<G>>>
    for DownTurns {
    ghost left = { downs_left };

    ghost idle = { λ w r. downs_left w ≡ 0 };

    ghost begun = { λ w. w };

    ghost ended = { λ w. w.at };

    ghost rest = { λ z w r. ⟦<Handed<G> as Part>⟧.holds z w.at r };

    ghost sure = { ⊥ };

    fn most(now: &Falling<G>) -> u32 {
        height(now.kept.cut.base.ranks())
    }

    fn turn(_alloc: Global, now: Falling<G>) -> Result<Went<FallTurn<G>, Handed<G>>, NoMemory> {
        let Falling { kept, round, hand } = now;
        if round < height(kept.cut.base.ranks()) {
            return Ok(Went::On(FallTurn { kept, round, hand }));
        }
        Ok(Went::Over(Handed { kept, hand }))
    }

    ghost fewer = { down_fewer };

    ghost rests = { λ w r idle some. absurd (down_ends w idle some) };

    ghost stays = { λ z w r there idle some. absurd (down_ends w idle some) };

    ghost ends = { λ z w r there idle none. there };

    ghost same_ranks = { λ w. (refl, refl) };
}
