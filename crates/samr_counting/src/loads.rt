//! How many cells the cut leaves on a rank.

ghost use Rattle.std.specs.Prelude.{◌≡◌, ◌<◌, ◌^◌, ◌++◌, map, refl, IfOk, OnOk};
ghost use Rattle.std.specs.List.{flat_map};
ghost use Rattle.samr_level.specs.RefOrders.{ref_cmp, in_order};
ghost use Rattle.samr_load.specs.Pieces.{whole};
ghost use Rattle.samr_load.specs.Balanced.{cells_in};
ghost use Rattle.samr_msg.specs.Places.{first_round};

use crate::rounds::Climbing;
use samr_level::{BoxRef, Move, in_level_order};
use samr_load::{Piece, load};
use samr_phase::Making;
use samr_regrid::{Cut, Tools};
use std::alloc::{AllocError as NoMemory, Global};

/// A rank counts the cells that the cut leaves of its own clusters.
pub struct Load {}

impl<G: Tools> Making<Cut<G>, Climbing<G>> for Load {
    ghost after = { first_round };

    ghost sure = { ⊥ };

    fn make(alloc: Global, input: Cut<G>) -> Result<Climbing<G>, NoMemory> {
        let left = boxes_left(alloc, input.cuts.as_slice())?;
        let number = cells_in(alloc, left.as_slice())?;
        Ok(Climbing {
            cut: input,
            round: 0,
            number,
        })
    }

    ghost same_ranks = { λ w. refl };
}

/// The boxes that cuts leave, in level order.
fn boxes_left(alloc: Global, cuts: &[Move]) -> Result<Vec<BoxRef>, NoMemory>
    ensures { IfOk result (λ v. v.items ≡ in_order ref_cmp (flat_map (λ m. m.news) cuts.now)) }
{
    let all = all_left(alloc, cuts)?;
    Ok(in_level_order(all))
}

fn all_left(alloc: Global, cuts: &[Move]) -> Result<Vec<BoxRef>, NoMemory>
    ensures { IfOk result (λ v. v.items ≡ flat_map (λ m. m.news) cuts.now) }
{
    let mut left = Vec::new(alloc);
    for one in cuts {
        push_left(one, &mut left)?;
    }
    Ok(left)
}

fn push_left(cut: &Move, left: &mut Vec<BoxRef>) -> Result<(), NoMemory>
    ensures { OnOk result (left.new.items ≡ left.old.items ++ cut.now.news) }
{
    left.extend_from_slice(cut.news.as_slice())?;
    Ok(())
}

/// The number of cells of boxes.
fn cells_in(alloc: Global, boxes: &[BoxRef]) -> Result<u64, NoMemory>
    requires { cells_in boxes.now < 2 ^ 63 }
    ensures { IfOk result (λ n. n ≡ cells_in boxes.now) }
{
    let pieces = as_pieces(alloc, boxes)?;
    Ok(load(pieces.as_slice()))
}

fn as_pieces(alloc: Global, boxes: &[BoxRef]) -> Result<Vec<Piece>, NoMemory>
    ensures { IfOk result (λ v. v.items ≡ map whole boxes.now) }
{
    boxes.iter().map(|one| as_piece(*one)).collect(alloc)
}

fn as_piece(one: BoxRef) -> Piece
    ensures { result ≡ whole one }
{
    Piece {
        bx: one.bx,
        origin: one,
    }
}
