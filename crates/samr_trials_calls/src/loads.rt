//! Worked rows of the balance: what is taken of a list, balanced levels, and quotas.

ghost use Rattle.std.specs.Prelude.{◌≡◌, IfOk, map};
ghost use Rattle.samr_load.specs.Pieces.{whole};

use crate::planes::{Corners, flat, flats};
use samr_box::IBox;
use samr_level::BoxRef;
use samr_load::{Piece, Taken, balance_all, is_countable, quota, take};
use std::alloc::{AllocError as NoMemory, Global};
use std::test::Fail;

/// Boxes of these corners with their owners.
fn boxes(alloc: Global, rows: &[(u16, Corners)]) -> Result<Vec<BoxRef>, Fail> {
    let mut list = Vec::new(alloc);
    for (owner, corners) in rows {
        list.push(BoxRef {
            owner: *owner,
            bx: flat(*corners)?,
        })?;
    }
    Ok(list)
}

/// The boxes of these corners of rank 0, whole.
fn wholes(alloc: Global, rows: &[Corners]) -> Result<Vec<Piece>, Fail> {
    let mut list = Vec::new(alloc);
    for row in rows {
        let bx = flat(*row)?;
        list.push(Piece {
            bx,
            origin: BoxRef { owner: 0, bx },
        })?;
    }
    Ok(list)
}

/// The boxes of a list of pieces.
fn places(alloc: Global, list: &[Piece]) -> Result<Vec<IBox>, Fail> {
    let mut places = Vec::new(alloc);
    for piece in list {
        places.push(piece.bx)?;
    }
    Ok(places)
}

/// What is taken from a list, and what stays.
fn parts(
    alloc: Global,
    rows: &[Corners],
    smallest: i64,
    want: u64,
) -> Result<(Vec<IBox>, Vec<IBox>), Fail> {
    let list = wholes(alloc, rows)?;
    if smallest < 1 || !is_countable(list.as_slice()) {
        return Err("not asked for".into());
    }
    let Taken { taken, rest } = take(alloc, list, smallest, want)?;
    Ok((
        places(alloc, taken.as_slice())?,
        places(alloc, rest.as_slice())?,
    ))
}

#[test]
fn takes(rt: HostRuntime) -> Result<(), Fail> {
    let (a, b) = (((0, 0), (9, 3)), ((0, 4), (1, 5)));
    let square = ((0, 0), (1, 1));
    let rows: [(&[Corners], i64, u64, &[Corners], &[Corners]); 9] = [
        // Nothing is wanted, all of it, and there is nothing.
        (&[b, a], 1, 0, &[], &[a, b]),
        (&[b, a], 1, 50, &[a, b], &[]),
        (&[], 1, 5, &[], &[]),
        // A box that fits exactly.
        (&[b, a], 1, 40, &[a], &[b]),
        // As many planes as there is room for, or as leave `smallest`.
        (&[b, a], 1, 23, &[((0, 0), (4, 3))], &[((5, 0), (9, 3)), b]),
        (&[b, a], 3, 39, &[((0, 0), (6, 3))], &[((7, 0), (9, 3)), b]),
        // Too few planes fit, or the box is too short; the small box after it would fit.
        (&[b, a], 2, 7, &[], &[a, b]),
        (&[b, a], 6, 39, &[], &[a, b]),
        // As long on two axes.
        (&[square], 1, 2, &[((0, 0), (0, 1))], &[((1, 0), (1, 1))]),
    ];
    for (list, smallest, want, taken, rest) in rows {
        let found = parts(rt.alloc(), list, smallest, want)?;
        assert_eq!(rt; found.0.as_slice(), flats(rt.alloc(), taken)?.as_slice());
        assert_eq!(rt; found.1.as_slice(), flats(rt.alloc(), rest)?.as_slice());
    }
    Ok(())
}

/// The pieces of all ranks, each with its rank as owner.
fn level(alloc: Global, all: &[Vec<Piece>]) -> Result<Vec<BoxRef>, Fail> {
    let mut level = Vec::new(alloc);
    let mut owner = 0u16;
    for list in all {
        for piece in list.as_slice() {
            level.push(BoxRef {
                owner,
                bx: piece.bx,
            })?;
        }
        owner = owner.wrapping_add(1);
    }
    Ok(level)
}

/// A box as its own only piece.
fn whole(origin: BoxRef) -> Piece
    ensures { result ≡ whole origin }
{
    let bx = origin.bx;
    Piece { bx, origin }
}

/// Each box as its own only piece.
fn whole_boxes(alloc: Global, boxes: &[BoxRef]) -> Result<Vec<Piece>, NoMemory>
    ensures { IfOk result (λ v. v.items ≡ map whole boxes.now) }
{
    let mut list = Vec::new(alloc);
    for origin in boxes {
        list.push(whole(*origin))?;
    }
    Ok(list)
}

/// The balanced level of these boxes.
fn balanced(
    alloc: Global,
    ranks: u16,
    smallest: i64,
    rows: &[(u16, Corners)],
) -> Result<Vec<BoxRef>, Fail> {
    let list = boxes(alloc, rows)?;
    let whole = whole_boxes(alloc, list.as_slice())?;
    if smallest < 1 || !is_countable(whole.as_slice()) {
        return Err("not asked for".into());
    }
    let all = balance_all(alloc, ranks, smallest, list.as_slice())?;
    Ok(level(alloc, all.as_slice())?)
}

#[test]
fn balances(rt: HostRuntime) -> Result<(), Fail> {
    let rows: [(u16, i64, &[(u16, Corners)], &[(u16, Corners)]); 6] = [
        (
            2,
            1,
            &[(0, ((0, 0), (9, 3)))],
            &[(0, ((5, 0), (9, 3))), (1, ((0, 0), (4, 3)))],
        ),
        (16, 1, &[(0, ((0, 0), (0, 0)))], &[(15, ((0, 0), (0, 0)))]),
        (
            3,
            1,
            &[(0, ((0, 0), (2, 0)))],
            &[
                (0, ((2, 0), (2, 0))),
                (1, ((0, 0), (0, 0))),
                (2, ((1, 0), (1, 0))),
            ],
        ),
        (
            4,
            1,
            &[(3, ((0, 0), (6, 4))), (3, ((7, 0), (9, 4)))],
            &[
                (0, ((0, 3), (3, 4))),
                (1, ((4, 0), (6, 4))),
                (2, ((0, 0), (3, 2))),
                (3, ((7, 0), (9, 4))),
            ],
        ),
        (
            3,
            3,
            &[(1, ((6, 0), (9, 9))), (2, ((0, 0), (5, 5)))],
            &[
                (0, ((6, 0), (9, 2))),
                (1, ((6, 3), (9, 9))),
                (2, ((0, 0), (5, 5))),
            ],
        ),
        (
            7,
            2,
            &[
                (0, ((0, 0), (9, 9))),
                (3, ((10, 0), (15, 4))),
                (6, ((10, 5), (14, 9))),
            ],
            &[
                (0, ((4, 7), (9, 9))),
                (1, ((0, 5), (3, 9))),
                (2, ((4, 3), (9, 6))),
                (3, ((10, 0), (15, 4))),
                (4, ((0, 0), (3, 4))),
                (5, ((4, 0), (9, 2))),
                (6, ((10, 5), (14, 9))),
            ],
        ),
    ];
    for (ranks, smallest, list, wanted) in rows {
        let found = balanced(rt.alloc(), ranks, smallest, list)?;
        assert_eq!(rt; found.as_slice(), boxes(rt.alloc(), wanted)?.as_slice());
    }
    Ok(())
}

/// Rank 1 keeps all that it has, since no box of it can be cut to what its parent and its children
/// take, and ends within half a grain of the bound: 2.57, 2.97 and twice 2.63 grains above its quota.
#[test]
fn comes_near_the_bound(rt: HostRuntime) -> Result<(), Fail> {
    let rows: [(i64, &[(u16, Corners)]); 4] = [
        (
            7,
            &[
                (1, ((0, 0), (12, 0))),
                (1, ((0, 1), (12, 1))),
                (1, ((0, 2), (12, 2))),
                (1, ((0, 3), (8, 3))),
                (2, ((0, 4), (11, 4))),
            ],
        ),
        (
            100,
            &[
                (1, ((0, 0), (198, 0))),
                (1, ((0, 1), (198, 1))),
                (1, ((0, 2), (198, 2))),
                (1, ((0, 3), (194, 3))),
                (2, ((0, 4), (197, 4))),
            ],
        ),
        (
            5,
            &[
                (1, ((0, 0), (8, 3))),
                (1, ((0, 4), (8, 7))),
                (1, ((0, 8), (8, 11))),
                (1, ((0, 12), (7, 15))),
                (2, ((0, 16), (34, 16))),
            ],
        ),
        (
            5,
            &[
                (1, ((0, 0), (3, 8))),
                (1, ((4, 0), (7, 8))),
                (1, ((8, 0), (11, 8))),
                (1, ((12, 0), (15, 7))),
                (2, ((0, 20), (34, 20))),
            ],
        ),
    ];
    for (smallest, list) in rows {
        let found = balanced(rt.alloc(), 5, smallest, list)?;
        assert_eq!(rt; found.as_slice(), boxes(rt.alloc(), list)?.as_slice());
    }
    Ok(())
}

#[test]
fn countable(rt: HostRuntime) -> Result<(), Fail> {
    let (low, high) = (-1_073_741_824, 1_073_741_823);
    let half = ((low, low), (high, -1));
    let list = wholes(rt.alloc(), [half, half].as_slice())?;
    assert!(rt; is_countable(list.as_slice()));
    let list = wholes(rt.alloc(), [half, half, half, half].as_slice())?;
    assert!(rt; !is_countable(list.as_slice()));
    assert!(rt; is_countable(&[]));
    assert_eq!(rt; quota(10, 3, 0), 3);
    assert_eq!(rt; quota(10, 3, 1), 3);
    assert_eq!(rt; quota(10, 3, 2), 4);
    assert_eq!(rt; quota(u64::MAX, u16::MAX, 65_534), 281_479_271_743_489);
    Ok(())
}
