//! The balance on all ranks, on one thread, round by round.

ghost use Rattle.std.specs.Prelude.{◌≡◌, ◌+◌, ◌<◌, ◌^◌, pos, ◌≤ℤ◌, unsigned_abs, length, map, All, IfOk};
ghost use Rattle.std.specs.List.{range_with_len};
ghost use Rattle.samr_box.specs.Vector.{AtMost};
ghost use Rattle.samr_level.specs.Levels.{own};
ghost use Rattle.samr_tree.specs.Tree.{bottom};
ghost use Rattle.samr_load.specs.Pieces.{whole};
ghost use Rattle.samr_load.specs.Balanced.{cells_in};
ghost use Rattle.samr_load.specs.Laws.{AreOwned, boxes_of};
ghost use Rattle.samr_balance.specs.Rounds.{going_up, going_down};
ghost use Rattle.samr_balance.specs.Home.{homed_of};
ghost use Rattle.samr_balance.specs.OnAll.{homes_of, round_at, AreHands};

use crate::hands::{Hand, Needs};
use crate::home::{Home, cells_in};
use crate::homed::Homed;
use crate::way_down::Down;
use crate::way_up::Up;
use samr_box::{IBox, Listed};
use samr_level::BoxRef;
use samr_load::{Piece, quota};
use samr_stage::{Stage, exchange};
use samr_tree::depth;
use std::alloc::{AllocError as NoMemory, Global};

/// A list of boxes that so many ranks balance, and the number of its cells.
#[derive(Drop)]
struct Plan {
    ranks: u16,
    smallest: i64,
    boxes: Listed<BoxRef>,
    total: u64,
    ghost ranked: { 0 < ranks },
    ghost some: { pos 1 ≤ℤ smallest },
    ghost owned: { AreOwned ranks boxes },
    ghost all: { total ≡ cells_in boxes },
    ghost fits: { total < 2 ^ 63 },
}

/// The balance of these boxes over so many ranks, as it comes to each rank by the rounds of `Up`, those
/// of `Down`, and `Home`, with all ranks on one thread. No part of a box gets fewer than `smallest`
/// planes.
///
/// # Errors
///
/// Where memory is short.
pub fn balance_all(
    alloc: Global,
    ranks: u16,
    smallest: i64,
    boxes: &[BoxRef],
) -> Result<Vec<Homed>, NoMemory>
    requires ranks { 0 < ranks }
    requires smallest { pos 1 ≤ℤ smallest }
    requires owned { All (λ o. o.owner < ranks) boxes.now }
    requires fits { cells_in boxes.now < 2 ^ 63 }
    ensures { IfOk result (λ v. v.items ≡ map (homed_of (homes_of ranks (unsigned_abs smallest) boxes.now)) (range_with_len 0 ranks)) }
{
    let plan = planned(alloc, ranks, smallest, boxes)?;
    let hands = go_up(alloc, &plan)?;
    let hands = go_down(alloc, &plan, hands)?;
    let all = go_home(alloc, &plan, hands.as_slice())?;
    Ok(all)
}

/// The boxes with the number of their cells.
fn planned(alloc: Global, ranks: u16, smallest: i64, boxes: &[BoxRef]) -> Result<Plan, NoMemory>
    requires ranks { 0 < ranks }
    requires smallest { pos 1 ≤ℤ smallest }
    requires owned { All (λ o. o.owner < ranks) boxes.now }
    requires fits { cells_in boxes.now < 2 ^ 63 }
    ensures ranks { IfOk result (λ p. p.ranks ≡ ranks) }
    ensures smallest { IfOk result (λ p. p.smallest ≡ smallest) }
    ensures boxes { IfOk result (λ p. p.boxes ≡ boxes.now) }
{
    let total = cells_in(boxes);
    let boxes = solid(alloc, boxes)?;
    Ok(Plan {
        ranks,
        smallest,
        boxes: Listed::from_vec(boxes),
        total,
    })
}

/// A box, which is not empty.
fn seen(old: BoxRef) -> BoxRef
    ensures value { result ≡ old }
    ensures solid { AtMost old.bx.lo old.bx.hi }
{
    let bx = old.bx;
    let _corner = bx.lo;
    old
}

/// A copy of boxes, none of which is empty.
fn solid(alloc: Global, boxes: &[BoxRef]) -> Result<Vec<BoxRef>, NoMemory>
    ensures value { IfOk result (λ v. v.items ≡ boxes.now) }
    ensures solid { IfOk result (λ _. All (λ o. AtMost o.bx.lo o.bx.hi) boxes.now) }
{
    let mut list = Vec::new(alloc);
    for old in boxes {
        list.push(seen(*old))?;
    }
    Ok(list)
}

/// The boxes of a rank.
#[tactic(auto, unfolding(samr_level::specs::Levels::own))]
fn cuts_of(alloc: Global, boxes: &[BoxRef], rank: u16) -> Result<Vec<IBox>, NoMemory>
    ensures { IfOk result (λ v. v.items ≡ boxes_of (own rank boxes.now)) }
{
    let mut list = Vec::new(alloc);
    for old in boxes {
        if old.owner == rank {
            list.push(box_of(*old))?;
        }
    }
    Ok(list)
}

fn box_of(old: BoxRef) -> IBox
    ensures { result ≡ old.bx }
{
    old.bx
}

/// Boxes of a rank as their own only pieces.
fn whole_pieces(alloc: Global, rank: u16, cuts: &[IBox]) -> Result<Vec<Piece>, NoMemory>
    ensures { IfOk result (λ v. v.items ≡ map (λ b. record { bx = b; origin = record { owner = rank; bx = b } }) cuts.now) }
{
    let mut list = Vec::new(alloc);
    for bx in cuts {
        list.push(Piece {
            bx: *bx,
            origin: BoxRef {
                owner: rank,
                bx: *bx,
            },
        })?;
    }
    Ok(list)
}

/// What a rank has at first: its own boxes.
fn first_hand(alloc: Global, plan: &Plan, rank: u16) -> Result<Hand, NoMemory>
    requires { rank < plan.now.ranks }
    ensures { IfOk result (λ hand. hand ≡ going_up (round_at plan.now.ranks (unsigned_abs plan.now.smallest) plan.now.boxes 0) rank) }
{
    let cuts = cuts_of(alloc, plan.boxes.as_slice(), rank)?;
    let pieces = whole_pieces(alloc, rank, cuts.as_slice())?;
    Ok(Hand {
        pieces: Listed::from_vec(pieces),
        needs: Needs {
            first: 0,
            second: 0,
        },
    })
}

/// What the ranks have at first.
fn first_hands(alloc: Global, plan: &Plan) -> Result<Vec<Hand>, NoMemory>
    ensures { IfOk result (λ hands. AreHands (going_up (round_at plan.now.ranks (unsigned_abs plan.now.smallest) plan.now.boxes 0)) plan.now.ranks hands.items) }
{
    let mut hands = Vec::new(alloc);
    'each: for rank in 0..plan.ranks {
        hands.push(first_hand(alloc, plan, rank)?)?;
    }
    Ok(hands)
}

/// The stage of a rank in a round of the way up.
fn start_up(alloc: Global, plan: &Plan, round: u32, rank: u16, hand: &Hand) -> Result<Up, NoMemory>
    requires rank { rank < plan.now.ranks }
    requires hand { hand.now ≡ going_up (round_at plan.now.ranks (unsigned_abs plan.now.smallest) plan.now.boxes round) rank }
    ensures { IfOk result (λ stage. ⟦<Up as Stage>⟧.starts stage (round_at plan.now.ranks (unsigned_abs plan.now.smallest) plan.now.boxes round) rank) }
{
    let pieces = hand.pieces.copied(alloc)?.into_vec();
    let share = quota(plan.total, plan.ranks, rank);
    let stage = Up::start(
        alloc,
        rank,
        plan.ranks,
        round,
        pieces,
        share,
        plan.smallest,
        hand.needs,
    )?;
    Ok(stage)
}

/// What the ranks have after a round of the way up.
fn go_up_once(alloc: Global, plan: &Plan, round: u32, hands: &[Hand]) -> Result<Vec<Hand>, NoMemory>
    requires { AreHands (going_up (round_at plan.now.ranks (unsigned_abs plan.now.smallest) plan.now.boxes round)) plan.now.ranks hands.now }
    ensures { IfOk result (λ after. AreHands (going_up (round_at plan.now.ranks (unsigned_abs plan.now.smallest) plan.now.boxes (round + 1))) plan.now.ranks after.items) }
{
    let mut stages = Vec::new(alloc);
    'each: for rank in 0..plan.ranks {
        let hand = &hands[usize::from(rank)];
        stages.push(start_up(alloc, plan, round, rank, hand)?)?;
    }
    let after = exchange(alloc, stages)?;
    Ok(after)
}

/// What the ranks have after the way up.
fn go_up(alloc: Global, plan: &Plan) -> Result<Vec<Hand>, NoMemory>
    ensures { IfOk result (λ hands. AreHands (going_up (round_at plan.now.ranks (unsigned_abs plan.now.smallest) plan.now.boxes (bottom plan.now.ranks + 1))) plan.now.ranks hands.items) }
{
    let mut hands = first_hands(alloc, plan)?;
    'each: for round in 0..depth(plan.ranks - 1) + 1 {
        hands = go_up_once(alloc, plan, round, hands.as_slice())?;
    }
    Ok(hands)
}

/// The stage of a rank in a round of the way down.
fn start_down(
    alloc: Global,
    plan: &Plan,
    round: u32,
    rank: u16,
    hand: &Hand,
) -> Result<Down, NoMemory>
    requires rank { rank < plan.now.ranks }
    requires hand { hand.now ≡ going_down (round_at plan.now.ranks (unsigned_abs plan.now.smallest) plan.now.boxes round) rank }
    ensures { IfOk result (λ stage. ⟦<Down as Stage>⟧.starts stage (round_at plan.now.ranks (unsigned_abs plan.now.smallest) plan.now.boxes round) rank) }
{
    let pieces = hand.pieces.copied(alloc)?.into_vec();
    let share = quota(plan.total, plan.ranks, rank);
    let stage = Down::start(
        alloc,
        rank,
        plan.ranks,
        round,
        pieces,
        share,
        plan.smallest,
        hand.needs,
    )?;
    Ok(stage)
}

/// What the ranks have after a round of the way down.
fn go_down_once(
    alloc: Global,
    plan: &Plan,
    round: u32,
    hands: &[Hand],
) -> Result<Vec<Hand>, NoMemory>
    requires { AreHands (going_down (round_at plan.now.ranks (unsigned_abs plan.now.smallest) plan.now.boxes round)) plan.now.ranks hands.now }
    ensures { IfOk result (λ after. AreHands (going_down (round_at plan.now.ranks (unsigned_abs plan.now.smallest) plan.now.boxes (round + 1))) plan.now.ranks after.items) }
{
    let mut stages = Vec::new(alloc);
    'each: for rank in 0..plan.ranks {
        let hand = &hands[usize::from(rank)];
        stages.push(start_down(alloc, plan, round, rank, hand)?)?;
    }
    let after = exchange(alloc, stages)?;
    Ok(after)
}

/// What the ranks have after the way down, from what they have after the way up.
fn go_down(alloc: Global, plan: &Plan, climbed: Vec<Hand>) -> Result<Vec<Hand>, NoMemory>
    requires { AreHands (going_up (round_at plan.now.ranks (unsigned_abs plan.now.smallest) plan.now.boxes (bottom plan.now.ranks + 1))) plan.now.ranks climbed.items }
    ensures { IfOk result (λ hands. AreHands (going_down (round_at plan.now.ranks (unsigned_abs plan.now.smallest) plan.now.boxes (bottom plan.now.ranks))) plan.now.ranks hands.items) }
{
    let mut hands = climbed;
    'each: for round in 0..depth(plan.ranks - 1) {
        hands = go_down_once(alloc, plan, round, hands.as_slice())?;
    }
    Ok(hands)
}

/// The last stage of a rank.
fn start_home(alloc: Global, plan: &Plan, rank: u16, hand: &Hand) -> Result<Home, NoMemory>
    requires rank { rank < plan.now.ranks }
    requires hand { hand.now ≡ going_down (round_at plan.now.ranks (unsigned_abs plan.now.smallest) plan.now.boxes (bottom plan.now.ranks)) rank }
    ensures { IfOk result (λ stage. ⟦<Home as Stage>⟧.starts stage (homes_of plan.now.ranks (unsigned_abs plan.now.smallest) plan.now.boxes) rank) }
{
    let pieces = hand.pieces.copied(alloc)?.into_vec();
    let share = quota(plan.total, plan.ranks, rank);
    let cuts = cuts_of(alloc, plan.boxes.as_slice(), rank)?;
    let stage = Home::start(
        alloc,
        rank,
        plan.ranks,
        pieces,
        share,
        plan.smallest,
        hand.needs,
        cuts.as_slice(),
    )?;
    Ok(stage)
}

/// What the ranks have in the end.
fn go_home(alloc: Global, plan: &Plan, hands: &[Hand]) -> Result<Vec<Homed>, NoMemory>
    requires { AreHands (going_down (round_at plan.now.ranks (unsigned_abs plan.now.smallest) plan.now.boxes (bottom plan.now.ranks))) plan.now.ranks hands.now }
    ensures { IfOk result (λ v. v.items ≡ map (homed_of (homes_of plan.now.ranks (unsigned_abs plan.now.smallest) plan.now.boxes)) (range_with_len 0 plan.now.ranks)) }
{
    let mut stages = Vec::new(alloc);
    'each: for rank in 0..plan.ranks {
        let hand = &hands[usize::from(rank)];
        stages.push(start_home(alloc, plan, rank, hand)?)?;
    }
    let all = exchange(alloc, stages)?;
    Ok(all)
}
