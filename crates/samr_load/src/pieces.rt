//! Pieces of boxes, their order, and how many cells they have.

ghost use Rattle.std.specs.Prelude.{◌≡◌, ◌↔◌, ◌<◌, ◌^◌, IsTrue};
ghost use Rattle.samr_load.specs.Pieces.{size_of, load, piece_cmp, sorted};

use samr_box::{Axis, IBox, cells};
use samr_level::BoxRef;
use std::marker::Model;

/// A piece of a box, and the box that it was cut from. Ordered by the piece in corner order, then by
/// the box in level order.
#[derive(Clone, Copy, Debug, PartialEq, Eq, PartialOrd, Ord)]
pub struct Piece {
    pub bx: IBox,
    pub origin: BoxRef,
}

impl Model for Piece {
    ghost use Rattle.samr_load.specs.Pieces.{Placed};

    ghost Value = { Placed };

    ghost view = { λ p. record { bx = p.bx; origin = p.origin } };

    ghost inverse = { λ v. record { bx = v.bx; origin = v.origin } };
}

/// The number of cells of a piece.
pub(crate) fn size(piece: Piece) -> u64
    requires { size_of piece < 2 ^ 63 }
    ensures { result ≡ size_of piece }
{
    cells(piece.bx)
}

/// Whether a list of pieces has fewer than 2^63 cells, as the other calls ask.
pub fn is_countable(list: &[Piece]) -> bool
    ensures { IsTrue result ↔ (load list.now < 2 ^ 63) }
{
    let mut room = 1u128 << 63;
    for piece in list {
        let cells = wide_size(*piece);
        if cells >= room {
            return false;
        }
        room -= cells;
    }
    true
}

/// The number of cells of a piece, however great it is.
fn wide_size(piece: Piece) -> u128
    ensures { result ≡ size_of piece }
{
    let b = piece.bx;
    let plane = u128::from(b.length(Axis::I)) * u128::from(b.length(Axis::J));
    plane * u128::from(b.length(Axis::K))
}

/// The number of cells of a list of pieces.
pub fn load(list: &[Piece]) -> u64
    requires { load list.now < 2 ^ 63 }
    ensures { result ≡ load list.now }
{
    let mut sum = 0;
    for piece in list {
        sum += size(*piece);
    }
    sum
}

/// The pieces in order.
pub fn in_piece_order(mut list: Vec<Piece>) -> Vec<Piece>
    ensures { result.items ≡ sorted piece_cmp list.items }
{
    list.sort_unstable();
    list
}
