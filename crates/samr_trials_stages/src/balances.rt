//! The balance on all ranks: rows by hand, what each rank has of others' boxes, and drawn lists against the plain one.

ghost use Rattle.std.specs.Prelude.{◌≡◌, ◌<◌, IsTrue, All, map, IfOk};
ghost use Rattle.samr_load.specs.Pieces.{whole};

use samr_balance::{Homed, balance_all};
use samr_box::{Axis, IBox, IVec};
use samr_level::BoxRef;
use samr_load::{Piece, is_countable};
use std::alloc::{AllocError as NoMemory, Global};
use std::test::Fail;

/// The first and the last cell of a box in the plane where `k` is 0, each by `i` and `j`.
type Corners = ((i64, i64), (i64, i64));

/// A box of these corners and its owner.
fn flat(row: (u16, Corners)) -> Result<BoxRef, Fail> {
    let (owner, (first, last)) = row;
    let lo = IVec::new(first.0, first.1, 0);
    let hi = IVec::new(last.0, last.1, 0);
    let bx = IBox::new(lo, hi).ok_or("no box")?;
    Ok(BoxRef { owner, bx })
}

fn flats(alloc: Global, rows: &[(u16, Corners)]) -> Result<Vec<BoxRef>, Fail> {
    let mut list = Vec::new(alloc);
    for row in rows {
        list.push(flat(*row)?)?;
    }
    Ok(list)
}

/// Whether so many ranks own all boxes.
fn are_owned(ranks: u16, boxes: &[BoxRef]) -> bool
    ensures { IsTrue result → All (λ o. o.owner < ranks) boxes.now }
{
    boxes.iter().all(|old| old.owner < ranks)
}

fn whole(old: BoxRef) -> Piece
    ensures { result ≡ whole old }
{
    let bx = old.bx;
    Piece { bx, origin: old }
}

/// Boxes as their own only pieces.
fn whole_boxes(alloc: Global, boxes: &[BoxRef]) -> Result<Vec<Piece>, NoMemory>
    ensures { IfOk result (λ v. v.items ≡ map whole boxes.now) }
{
    let mut list = Vec::new(alloc);
    for old in boxes {
        list.push(whole(*old))?;
    }
    Ok(list)
}

/// What all ranks have in the end.
fn balanced(
    alloc: Global,
    ranks: u16,
    smallest: i64,
    boxes: &[BoxRef],
) -> Result<Vec<Homed>, Fail> {
    let pieces = whole_boxes(alloc, boxes)?;
    if ranks == 0 || smallest < 1 || !are_owned(ranks, boxes) || !is_countable(pieces.as_slice()) {
        return Err("not asked for".into());
    }
    Ok(balance_all(alloc, ranks, smallest, boxes)?)
}

/// The pieces of all ranks, each with its rank as owner, in level order.
fn level(alloc: Global, all: &[Homed]) -> Result<Vec<BoxRef>, Fail> {
    let mut list = Vec::new(alloc);
    let mut owner = 0u16;
    for homed in all {
        for piece in homed.pieces.as_slice() {
            list.push(BoxRef {
                owner,
                bx: piece.bx,
            })?;
        }
        owner = owner.wrapping_add(1);
    }
    Ok(list)
}

#[test]
fn boxes_by_hand_on_some_ranks(rt: HostRuntime) -> Result<(), Fail> {
    let rows: [(u16, &[(u16, Corners)], &[(u16, Corners)]); 4] = [
        (
            2,
            &[(0, ((0, 0), (9, 3)))],
            &[(0, ((5, 0), (9, 3))), (1, ((0, 0), (4, 3)))],
        ),
        (16, &[(0, ((0, 0), (0, 0)))], &[(15, ((0, 0), (0, 0)))]),
        (
            3,
            &[(0, ((0, 0), (2, 0)))],
            &[
                (0, ((2, 0), (2, 0))),
                (1, ((0, 0), (0, 0))),
                (2, ((1, 0), (1, 0))),
            ],
        ),
        (1, &[(0, ((0, 0), (2, 0)))], &[(0, ((0, 0), (2, 0)))]),
    ];
    for (ranks, list, wanted) in rows {
        let alloc = rt.alloc();
        let boxes = flats(alloc, list)?;
        let wanted = flats(alloc, wanted)?;
        let all = balanced(alloc, ranks, 1, boxes.as_slice())?;
        assert_eq!(rt; level(alloc, all.as_slice())?.as_slice(), wanted.as_slice());
        // All pieces are of the one box of rank 0, which learns of each.
        let first = all.first().ok_or("no ranks")?;
        let moves = first.mapping.entries.as_slice();
        assert_eq!(rt; moves.len(), 1);
        let of_one = moves.first().ok_or("no moves")?;
        assert!(rt; boxes.as_slice() == [of_one.old].as_slice());
        assert_eq!(rt; of_one.news.as_slice(), wanted.as_slice());
    }
    Ok(())
}

/// The number of cells of the pieces that a rank has of boxes of rank 0, and how many they are.
fn of_rank_0(homed: &Homed) -> (u128, usize) {
    let mut sum = 0u128;
    let mut count = 0usize;
    for piece in homed.pieces.as_slice() {
        if piece.origin.owner == 0 {
            let b = piece.bx;
            let plane = u128::from(b.length(Axis::I)) * u128::from(b.length(Axis::J));
            sum = sum.wrapping_add(plane * u128::from(b.length(Axis::K)));
            count = count.wrapping_add(1);
        }
    }
    (sum, count)
}

#[test]
fn pieces_of_the_boxes_of_rank_0(rt: HostRuntime) -> Result<(), Fail> {
    let alloc = rt.alloc();
    let boxes = flats(alloc, [(0, ((0, 0), (9, 3)))].as_slice())?;
    let all = balanced(alloc, 2, 1, boxes.as_slice())?;
    let second = all.get(1).ok_or("no rank 1")?;
    assert_eq!(rt; of_rank_0(second), (20, 1));
    let boxes = flats(alloc, [(0, ((0, 0), (2, 0)))].as_slice())?;
    let all = balanced(alloc, 3, 1, boxes.as_slice())?;
    let second = all.get(1).ok_or("no rank 1")?;
    let third = all.get(2).ok_or("no rank 2")?;
    assert_eq!(rt; of_rank_0(second), (1, 1));
    assert_eq!(rt; of_rank_0(third), (1, 1));
    Ok(())
}

/// A number below a bound, drawn after another.
fn draw(state: &mut u64, below: u64) -> u64 {
    *state = state
        .wrapping_mul(6_364_136_223_846_793_005)
        .wrapping_add(1_442_695_040_888_963_407);
    if below == 0 {
        return 0;
    }
    (*state >> 33) % below
}

/// A small number below a bound.
fn small(state: &mut u64, below: u64) -> i64 {
    i64::try_from(draw(state, below)).unwrap_or(0)
}

/// A few boxes side by side, with drawn lengths and owners.
fn drawn(alloc: Global, state: &mut u64, ranks: u16) -> Result<Vec<BoxRef>, Fail> {
    let mut list = Vec::new(alloc);
    let mut left = 0i64;
    for _ in 0..draw(state, 5) {
        let owner = u16::try_from(draw(state, u64::from(ranks))).unwrap_or(0);
        let right = left.wrapping_add(small(state, 12));
        let top = small(state, 9);
        list.push(flat((owner, ((left, 0), (right, top))))?)?;
        left = right.wrapping_add(1);
    }
    Ok(list)
}

#[test]
fn drawn_balances_on_up_to_16_ranks(rt: HostRuntime) -> Result<(), Fail> {
    let alloc = rt.alloc();
    let mut state = 7u64;
    for ranks in 1..17u16 {
        let boxes = drawn(alloc, &mut state, ranks)?;
        let smallest = 1i64.wrapping_add(small(&mut state, 3));
        let all = balanced(alloc, ranks, smallest, boxes.as_slice())?;
        let whole = whole_boxes(alloc, boxes.as_slice())?;
        if smallest < 1 || !is_countable(whole.as_slice()) {
            return Err("not asked for".into());
        }
        let plain = samr_load::balance_all(alloc, ranks, smallest, boxes.as_slice())?;
        assert_eq!(rt; all.len(), plain.len());
        for (homed, pieces) in all.iter().zip(plain.iter()) {
            assert!(rt; homed.pieces.as_slice() == pieces.as_slice());
        }
    }
    Ok(())
}
