//! What a rank has before the balance: its own boxes, each as its own only piece.

ghost use Rattle.std.specs.Prelude.{◌≡◌, ℕ, map, IfOk, OnOk, refl};
ghost use Rattle.std.specs.List.{flat_map};
ghost use Rattle.samr_load.specs.Pieces.{whole};
ghost use Rattle.samr_nest.specs.CutLevels.{news_of};
ghost use Rattle.samr_msg.specs.Places.{first_round};

use crate::parts::Climbing;
use samr_balance::{Hand, Needs};
use samr_box::Listed;
use samr_level::{BoxRef, Move, in_level_order};
use samr_load::Piece;
use samr_phase::Making;
use samr_regrid::{Counted, Tools};
use std::alloc::{AllocError as NoMemory, Global};

/// The hand with which the way up begins.
pub struct FirstHand {}

impl<G: Tools> Making<Counted<G>, Climbing<G>> for FirstHand {
    ghost after = { first_round };

    ghost sure = { ⊥ };

    fn make(alloc: Global, input: Counted<G>) -> Result<Climbing<G>, NoMemory> {
        let hand = first_hand(alloc, input.cut.cuts.as_slice())?;
        Ok(Climbing {
            kept: input,
            round: 0,
            hand,
        })
    }

    ghost same_ranks = { λ w. refl };
}

/// The hand of a rank with these moves.
fn first_hand(alloc: Global, cuts: &[Move]) -> Result<Hand, NoMemory>
    ensures { IfOk result (λ hand. hand ≡ record { pieces = map whole (news_of cuts.now); needs = record { first = 0; second = 0 } }) }
{
    let boxes = own_cuts(alloc, cuts)?;
    let pieces = whole_pieces(alloc, boxes.as_slice())?;
    Ok(Hand {
        pieces: Listed::from_vec(pieces),
        needs: Needs {
            first: 0,
            second: 0,
        },
    })
}

/// All that is left of the clusters of a rank, in level order.
pub fn own_cuts(alloc: Global, cuts: &[Move]) -> Result<Vec<BoxRef>, NoMemory>
    ensures { IfOk result (λ v. v.items ≡ news_of cuts.now) }
{
    let boxes = all_news(alloc, cuts)?;
    Ok(in_level_order(boxes))
}

/// The new boxes of moves.
fn all_news(alloc: Global, moves: &[Move]) -> Result<Vec<BoxRef>, NoMemory>
    ensures { IfOk result (λ v. v.items ≡ flat_map (λ m. m.news) moves.now) }
{
    let mut boxes = Vec::new(alloc);
    for one in moves {
        boxes.extend_from_slice(one.news.as_slice())?;
    }
    Ok(boxes)
}

/// Boxes as their own only pieces.
fn whole_pieces(alloc: Global, boxes: &[BoxRef]) -> Result<Vec<Piece>, NoMemory>
    ensures { IfOk result (λ v. v.items ≡ map whole boxes.now) }
{
    let mut pieces = Vec::new(alloc);
    for one in boxes {
        pieces.push(whole_piece(*one))?;
    }
    Ok(pieces)
}

fn whole_piece(one: BoxRef) -> Piece
    ensures { result ≡ whole one }
{
    Piece {
        bx: one.bx,
        origin: one,
    }
}
