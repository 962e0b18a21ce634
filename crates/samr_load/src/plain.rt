//! The balance of all ranks as a plain and slow program.

ghost use Rattle.std.specs.Prelude.{◌≡◌, ◌++◌, ◌%◌, ◌<◌, ◌^◌, pos, ◌≤ℤ◌, unsigned_abs, nat_eq, if◌then◌else◌, map, IfOk, All};
ghost use Rattle.std.specs.List.{range_with_len};
ghost use Rattle.std.specs.Option.{ForSome};
ghost use Rattle.samr_box.specs.Vector.{AtMost};
ghost use Rattle.samr_level.specs.Levels.{own};
ghost use Rattle.samr_load.specs.Pieces.{whole};
ghost use Rattle.samr_load.specs.Ascent.{up_of, stayed};
ghost use Rattle.samr_load.specs.Descent.{down, got, pieces_of};
ghost use Rattle.samr_load.specs.Balanced.{cells_in, balancing};

use crate::climbing::{Climbed, climb};
use crate::falling::{Fallen, fall};
use crate::pieces::{Piece, in_piece_order, load};
use crate::quotas::quota;
use samr_box::Listed;
use samr_level::BoxRef;
use samr_tree::{children, parent};
use std::alloc::{AllocError as NoMemory, Global};

/// A list of boxes that so many ranks balance, and the number of its cells.
#[derive(Drop)]
struct Plan {
    ranks: u16,
    smallest: i64,
    boxes: Listed<BoxRef>,
    total: u64,
    ghost some: { pos 1 ≤ℤ smallest },
    ghost solid: { All (λ o. AtMost o.bx.lo o.bx.hi) boxes },
    ghost all: { total ≡ cells_in boxes },
    ghost fits: { total < 2 ^ 63 },
}

/// The pieces of each rank, in order, where these boxes are balanced. A plain program, for comparisons:
/// whatever it asks of another rank it computes anew.
///
/// # Errors
///
/// Where memory is short.
pub fn balance_all(
    alloc: Global,
    ranks: u16,
    smallest: i64,
    boxes: &[BoxRef],
) -> Result<Vec<Vec<Piece>>, NoMemory>
    requires smallest { pos 1 ≤ℤ smallest }
    requires fits { cells_in boxes.now < 2 ^ 63 }
    ensures { IfOk result (λ v. map (λ list. list.items) v.items ≡ map (pieces_of (balancing ranks (unsigned_abs smallest) boxes.now)) (range_with_len 0 ranks)) }
{
    let plan = planned(alloc, ranks, smallest, boxes)?;
    let mut all = Vec::new(alloc);
    for rank in 0..ranks {
        all.push(ends_with(alloc, &plan, rank)?)?;
    }
    Ok(all)
}

/// The boxes with the number of their cells.
fn planned(alloc: Global, ranks: u16, smallest: i64, boxes: &[BoxRef]) -> Result<Plan, NoMemory>
    requires smallest { pos 1 ≤ℤ smallest }
    requires fits { cells_in boxes.now < 2 ^ 63 }
    ensures ranks { IfOk result (λ p. p.ranks ≡ ranks) }
    ensures smallest { IfOk result (λ p. p.smallest ≡ smallest) }
    ensures boxes { IfOk result (λ p. p.boxes ≡ boxes.now) }
{
    let whole = whole_boxes(alloc, boxes)?;
    let total = load(whole.as_slice());
    Ok(Plan {
        ranks,
        smallest,
        boxes: Listed::from_vec(Vec::from_slice(alloc, boxes)?),
        total,
    })
}

/// A box as its own only piece.
fn whole(origin: BoxRef) -> Piece
    ensures value { result ≡ whole origin }
    ensures solid { AtMost origin.bx.lo origin.bx.hi }
{
    let bx = origin.bx;
    let _corner = bx.lo;
    Piece { bx, origin }
}

/// Each box as its own only piece.
pub(crate) fn whole_boxes(alloc: Global, boxes: &[BoxRef]) -> Result<Vec<Piece>, NoMemory>
    ensures value { IfOk result (λ v. v.items ≡ map whole boxes.now) }
    ensures solid { IfOk result (λ _. All (λ o. AtMost o.bx.lo o.bx.hi) boxes.now) }
{
    let mut list = Vec::new(alloc);
    for origin in boxes {
        list.push(whole(*origin))?;
    }
    Ok(list)
}

/// The boxes of a rank.
#[tactic(auto, unfolding(samr_level::specs::Levels::own))]
fn own(alloc: Global, boxes: &[BoxRef], rank: u16) -> Result<Vec<Piece>, NoMemory>
    ensures { IfOk result (λ v. v.items ≡ map whole (own rank boxes.now)) }
{
    let mut list = Vec::new(alloc);
    for origin in boxes {
        if origin.owner == rank {
            list.push(whole(*origin))?;
        }
    }
    Ok(list)
}

/// The step up of a rank, if there is one.
fn climbed(alloc: Global, plan: &Plan, rank: Option<u16>) -> Result<Climbed, NoMemory>
    requires { ForSome rank (λ r. r < plan.now.ranks) }
    ensures kept { IfOk result (λ c. c.kept.items ≡ (up_of (balancing plan.now.ranks (unsigned_abs plan.now.smallest) plan.now.boxes) rank).kept) }
    ensures given { IfOk result (λ c. c.given.items ≡ (up_of (balancing plan.now.ranks (unsigned_abs plan.now.smallest) plan.now.boxes) rank).given) }
    ensures need { IfOk result (λ c. c.need ≡ (up_of (balancing plan.now.ranks (unsigned_abs plan.now.smallest) plan.now.boxes) rank).need) }
{
    match rank {
        None => Ok(Climbed {
            kept: Vec::new(alloc),
            given: Vec::new(alloc),
            need: 0,
        }),
        Some(rank) => {
            let (first, second) = children(rank, plan.ranks);
            let first = climbed(alloc, plan, first)?;
            let second = climbed(alloc, plan, second)?;
            let wanted = quota(plan.total, plan.ranks, rank) + first.need + second.need;
            let hand = gathered(alloc, plan, rank, &first, &second)?;
            let step = climb(alloc, hand, plan.smallest, wanted)?;
            Ok(step)
        }
    }
}

/// The own boxes of a rank, with what its children gave it.
fn gathered(
    alloc: Global,
    plan: &Plan,
    rank: u16,
    first: &Climbed,
    second: &Climbed,
) -> Result<Vec<Piece>, NoMemory>
    ensures { IfOk result (λ v. v.items ≡ map whole (own rank plan.now.boxes) ++ first.now.given.items ++ second.now.given.items) }
{
    let mut hand = own(alloc, plan.boxes.as_slice(), rank)?;
    hand.extend_from_slice(first.given.as_slice())?;
    hand.extend_from_slice(second.given.as_slice())?;
    Ok(hand)
}

/// What a rank has after the way up.
fn stayed(alloc: Global, plan: &Plan, rank: u16) -> Result<Vec<Piece>, NoMemory>
    requires { rank < plan.now.ranks }
    ensures { IfOk result (λ v. v.items ≡ stayed (balancing plan.now.ranks (unsigned_abs plan.now.smallest) plan.now.boxes) rank) }
{
    if rank > 0 {
        let Climbed { kept, .. } = climbed(alloc, plan, Some(rank))?;
        return Ok(kept);
    }
    let (first, second) = children(rank, plan.ranks);
    let first = climbed(alloc, plan, first)?;
    let second = climbed(alloc, plan, second)?;
    let hand = gathered(alloc, plan, rank, &first, &second)?;
    Ok(hand)
}

/// The step down of a rank.
fn fallen(alloc: Global, plan: &Plan, rank: u16) -> Result<Fallen, NoMemory>
    requires { rank < plan.now.ranks }
    ensures first { IfOk result (λ f. f.first.items ≡ (down (balancing plan.now.ranks (unsigned_abs plan.now.smallest) plan.now.boxes) rank).first) }
    ensures second { IfOk result (λ f. f.second.items ≡ (down (balancing plan.now.ranks (unsigned_abs plan.now.smallest) plan.now.boxes) rank).second) }
    ensures left { IfOk result (λ f. f.left.items ≡ (down (balancing plan.now.ranks (unsigned_abs plan.now.smallest) plan.now.boxes) rank).left) }
{
    match parent(rank) {
        None => {
            let step = step_down(alloc, plan, rank, Vec::new(alloc))?;
            Ok(step)
        }
        Some(above) => {
            let given = share(rank, fallen(alloc, plan, above)?);
            let step = step_down(alloc, plan, rank, given)?;
            Ok(step)
        }
    }
}

/// What a rank is given by its parent.
fn share(rank: u16, above: Fallen) -> Vec<Piece>
    ensures { result.items ≡ (if nat_eq (rank % 2) 1 then above.first.items else above.second.items) }
{
    let Fallen { first, second, .. } = above;
    if rank % 2 == 1 {
        return first;
    }
    second
}

/// The step down of a rank that was given some pieces.
fn step_down(alloc: Global, plan: &Plan, rank: u16, given: Vec<Piece>) -> Result<Fallen, NoMemory>
    requires rank { rank < plan.now.ranks }
    requires given { given.items ≡ got (balancing plan.now.ranks (unsigned_abs plan.now.smallest) plan.now.boxes) rank }
    ensures first { IfOk result (λ f. f.first.items ≡ (down (balancing plan.now.ranks (unsigned_abs plan.now.smallest) plan.now.boxes) rank).first) }
    ensures second { IfOk result (λ f. f.second.items ≡ (down (balancing plan.now.ranks (unsigned_abs plan.now.smallest) plan.now.boxes) rank).second) }
    ensures left { IfOk result (λ f. f.left.items ≡ (down (balancing plan.now.ranks (unsigned_abs plan.now.smallest) plan.now.boxes) rank).left) }
{
    let (first, second) = children(rank, plan.ranks);
    let first = climbed(alloc, plan, first)?.need;
    let second = climbed(alloc, plan, second)?.need;
    let mut hand = stayed(alloc, plan, rank)?;
    hand.extend_from_slice(given.as_slice())?;
    let step = fall(alloc, hand, plan.smallest, first, second)?;
    Ok(step)
}

/// The pieces of a rank in the end.
fn ends_with(alloc: Global, plan: &Plan, rank: u16) -> Result<Vec<Piece>, NoMemory>
    requires { rank < plan.now.ranks }
    ensures { IfOk result (λ v. v.items ≡ pieces_of (balancing plan.now.ranks (unsigned_abs plan.now.smallest) plan.now.boxes) rank) }
{
    let Fallen { left, .. } = fallen(alloc, plan, rank)?;
    Ok(in_piece_order(left))
}
