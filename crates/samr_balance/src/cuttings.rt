//! Pieces as a rank tells of them to the owner of the box that they were cut from.

ghost use Rattle.std.specs.Prelude.{◌≡◌, ◌++◌, ◌<◌, ◌^◌, nat_eq, map, filter, IfOk, OnOk};
ghost use Rattle.std.specs.Ordering.{is_eq};
ghost use Rattle.samr_box.specs.Orders.{corner_cmp};
ghost use Rattle.samr_load.specs.Pieces.{sorted};
ghost use Rattle.samr_level.specs.Refs.{Owned};
ghost use Rattle.samr_balance.specs.HomeRow.{cutting_of, cutting_cmp, of_owner, told_of, weight, told_on};

use samr_box::{IBox, Listed, cells};
use samr_level::BoxRef;
use samr_load::Piece;
use std::alloc::{AllocError as NoMemory, Global};
use std::marker::Model;

/// A piece as the rank that has it tells of it to the owner of the box that it was cut from: that
/// box, and its own. Ordered by the first, then the second, both in corner order.
#[derive(Clone, Copy, Debug, PartialEq, Eq, PartialOrd, Ord)]
pub struct Cutting {
    pub origin: IBox,
    pub bx: IBox,
}

impl Model for Cutting {
    ghost use Rattle.samr_balance.specs.HomeRow.{Cutting};

    ghost Value = { Cutting };

    ghost view = { λ c. record { origin = c.origin; bx = c.bx } };

    ghost inverse = { λ v. record { origin = v.origin; bx = v.bx } };
}

/// A piece as it is told of.
fn as_told(piece: Piece) -> Cutting
    ensures { result ≡ cutting_of piece }
{
    let origin = piece.origin;
    Cutting {
        origin: origin.bx,
        bx: piece.bx,
    }
}

/// The pieces of boxes that a rank owns, as they are told of.
#[tactic(auto, unfolding(crate::specs::HomeRow::of_owner))]
fn cuttings(alloc: Global, rank: u16, pieces: &[Piece]) -> Result<Vec<Cutting>, NoMemory>
    ensures { IfOk result (λ v. v.items ≡ map cutting_of (of_owner rank pieces.now)) }
{
    let mut list = Vec::new(alloc);
    for piece in pieces {
        if piece.origin.owner == rank {
            list.push(as_told(*piece))?;
        }
    }
    Ok(list)
}

/// What a rank is told of the pieces of its boxes among these.
#[tactic(auto, unfolding(crate::specs::HomeRow::told_of))]
pub fn told_of(alloc: Global, rank: u16, pieces: &[Piece]) -> Result<Vec<Cutting>, NoMemory>
    ensures { IfOk result (λ v. v.items ≡ told_of rank pieces.now) }
{
    let mut list = cuttings(alloc, rank, pieces)?;
    list.sort_unstable();
    Ok(list)
}

/// The number of cells of the pieces told of.
#[tactic(auto, unfolding(crate::specs::HomeRow::weight))]
pub fn weight(list: &[Cutting]) -> u64
    requires { weight list.now < 2 ^ 63 }
    ensures { result ≡ weight list.now }
{
    let mut sum = 0;
    for cutting in list {
        sum += cells(cutting.bx);
    }
    sum
}

/// Whether a piece that is told of is of this box of the rank that is told.
fn is_of(cutting: Cutting, old: BoxRef) -> bool
    ensures { result ≡ is_eq (corner_cmp cutting.origin old.bx) }
{
    cutting.origin.cmp(&old.bx).is_eq()
}

/// Adds the pieces of a box among those that a rank tells of, with the rank as their owner.
#[tactic(auto, unfolding(crate::specs::HomeRow::told_on))]
pub fn push_told(
    old: BoxRef,
    sender: u16,
    list: &[Cutting],
    news: &mut Vec<BoxRef>,
) -> Result<(), NoMemory>
    ensures { OnOk result (news.new.items ≡ news.old.items ++ told_on old sender list.now) }
{
    for cutting in list {
        if is_of(*cutting, old) {
            news.push(BoxRef {
                owner: sender,
                bx: cutting.bx,
            })?;
        }
    }
    Ok(())
}
