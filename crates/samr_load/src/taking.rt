//! Taking at most so many cells from a list of pieces.

ghost use Rattle.std.specs.Prelude.{◌≡◌, ◌++◌, ◌+◌, ◌<◌, ◌^◌, pos, ◌≤ℤ◌, unsigned_abs, IfOk, All};
ghost use Rattle.samr_box.specs.Corners.{IsBox};
ghost use Rattle.samr_load.specs.Pieces.{size_of, load};
ghost use Rattle.samr_load.specs.Taking.{across, planes_taken, cut_first, taking, parted};

use crate::pieces::{Piece, in_piece_order, size};
use samr_box::{Axis, IBox, longest, split_after};
use std::alloc::{AllocError as NoMemory, Global};

/// What was taken from a list, and what stays.
#[derive(Debug, Drop)]
pub struct Taken {
    pub taken: Vec<Piece>,
    pub rest: Vec<Piece>,
}

/// Takes at most so many cells from a list. In corner order whole pieces are taken while they fit. The
/// first that does not fit is cut across its longest axis, so that each part has at least `smallest`
/// planes, and its lower part is taken, as great as it may be; if it is too short for that, it stays.
/// All pieces after it stay.
///
/// # Errors
///
/// Where memory is short.
pub fn take(alloc: Global, list: Vec<Piece>, smallest: i64, want: u64) -> Result<Taken, NoMemory>
    requires smallest { pos 1 ≤ℤ smallest }
    requires fits { load list.items < 2 ^ 63 }
    ensures taken { IfOk result (λ t. t.taken.items ≡ (parted (unsigned_abs smallest) list.items want).taken) }
    ensures rest { IfOk result (λ t. t.rest.items ≡ (parted (unsigned_abs smallest) list.items want).rest) }
    ensures cells { IfOk result (λ t. load t.taken.items + load t.rest.items ≡ load list.items) }
{
    let list = in_piece_order(list);
    let parts = take_in_order(alloc, list.as_slice(), smallest as u64, want)?;
    Ok(parts)
}

/// The same of a list in order.
fn take_in_order(alloc: Global, list: &[Piece], smallest: u64, want: u64) -> Result<Taken, NoMemory>
    requires some { 0 < smallest }
    requires fits { All (λ q. size_of q < 2 ^ 63) list.now }
    ensures taken { IfOk result (λ t. t.taken.items ≡ (taking smallest list.now want).taken) }
    ensures rest { IfOk result (λ t. t.rest.items ≡ (taking smallest list.now want).rest) }
    ensures cells { IfOk result (λ t. load t.taken.items + load t.rest.items ≡ load list.now) }
{
    let mut taken = Vec::new(alloc);
    let mut left = list;
    let mut room = want;
    while let Some((first, others)) = left.split_first() {
        let cells = size(*first);
        if cells > room {
            let parts = cut_first(alloc, taken, *first, others, smallest, room)?;
            return Ok(parts);
        }
        taken.push(*first)?;
        room -= cells;
        left = others;
    }
    Ok(Taken {
        taken,
        rest: Vec::new(alloc),
    })
}

/// Goes on where a piece does not fit: what was taken before, and the piece with those after it.
fn cut_first(
    alloc: Global,
    mut taken: Vec<Piece>,
    piece: Piece,
    others: &[Piece],
    smallest: u64,
    room: u64,
) -> Result<Taken, NoMemory>
    requires some { 0 < smallest }
    ensures taken { IfOk result (λ t. t.taken.items ≡ taken.items ++ (cut_first smallest piece others.now room).taken) }
    ensures rest { IfOk result (λ t. t.rest.items ≡ (cut_first smallest piece others.now room).rest) }
    ensures whole { IfOk result (λ _. IsBox piece.bx) }
{
    let mut rest = Vec::new(alloc);
    let count = planes_taken(piece.bx, smallest, room);
    if count < smallest {
        rest.push(piece)?;
    } else {
        let (low, high) = split_after(piece.bx, longest(piece.bx), count);
        taken.push(Piece { bx: low, ..piece })?;
        rest.push(Piece { bx: high, ..piece })?;
    }
    rest.extend_from_slice(others)?;
    Ok(Taken { taken, rest })
}

/// How many planes of a box are taken, where there is room for so many cells.
fn planes_taken(b: IBox, smallest: u64, room: u64) -> u64
    ensures value { result ≡ planes_taken smallest b room }
    ensures whole { IsBox b }
{
    let axis = longest(b);
    (room / across(b, axis)).min(b.length(axis).saturating_sub(smallest))
}

/// The number of cells of a plane across an axis.
fn across(b: IBox, axis: Axis) -> u64
    ensures value { result ≡ across axis b }
    ensures positive { 0 < result }
{
    match axis {
        Axis::I => b.length(Axis::J) * b.length(Axis::K),
        Axis::J => b.length(Axis::I) * b.length(Axis::K),
        Axis::K => b.length(Axis::I) * b.length(Axis::J),
    }
}
