//! What a rank has of the balance in the end: what becomes of its clusters, and its new boxes.

ghost use Rattle.std.specs.Prelude.{◌≡◌, ◌++◌, map, IfOk, OnOk};
ghost use Rattle.std.specs.List.{flat_map, find};
ghost use Rattle.std.specs.Option.{option_copied};
ghost use Rattle.std.specs.Ordering.{is_eq};
ghost use Rattle.samr_level.specs.RefOrders.{ref_cmp};
ghost use Rattle.samr_balancing.specs.Shares.{news_in, moved, new_box};

use samr_box::Listed;
use samr_level::{BoxRef, Move};
use samr_load::Piece;
use samr_modify::NewBox;
use std::alloc::{AllocError as NoMemory, Global};

/// What becomes of clusters, from what the cut leaves of them and what becomes of that.
pub fn replaced(alloc: Global, cuts: &[Move], mapping: &[Move]) -> Result<Vec<Move>, NoMemory>
    ensures { IfOk result (λ v. v.items ≡ map (moved mapping.now) cuts.now) }
{
    let mut moves = Vec::new(alloc);
    for cut in cuts {
        moves.push(replaced_one(alloc, cut, mapping)?)?;
    }
    Ok(moves)
}

/// What becomes of a cluster.
fn replaced_one(alloc: Global, cut: &Move, mapping: &[Move]) -> Result<Move, NoMemory>
    ensures { IfOk result (λ m. m ≡ moved mapping.now cut.now) }
{
    let news = news_of_all(alloc, cut.news.as_slice(), mapping)?;
    Ok(Move {
        old: cut.old,
        news: Listed::from_vec(news),
    })
}

/// What takes the place of boxes, one after another.
fn news_of_all(alloc: Global, boxes: &[BoxRef], mapping: &[Move]) -> Result<Vec<BoxRef>, NoMemory>
    ensures { IfOk result (λ v. v.items ≡ flat_map (news_in mapping.now) boxes.now) }
{
    let mut news = Vec::new(alloc);
    for one in boxes {
        push_news(*one, mapping, &mut news)?;
    }
    Ok(news)
}

/// Adds what takes the place of a box.
fn push_news(old: BoxRef, mapping: &[Move], news: &mut Vec<BoxRef>) -> Result<(), NoMemory>
    ensures { OnOk result (news.new.items ≡ news.old.items ++ news_in mapping.now old) }
{
    if let Some(entry) = move_of(mapping, old) {
        news.extend_from_slice(entry.news.as_slice())?;
    }
    Ok(())
}

/// The move of a box, if there is one.
fn move_of(moves: &[Move], old: BoxRef) -> Option<&Move>
    ensures { option_copied result ≡ find (λ m. is_eq (ref_cmp m.old old)) moves.now }
{
    moves.iter().find(|entry| entry.old.cmp(&old).is_eq())
}

/// The new boxes of a rank with these pieces.
pub fn new_boxes(alloc: Global, pieces: &[Piece]) -> Result<Vec<NewBox>, NoMemory>
    ensures { IfOk result (λ v. v.items ≡ map new_box pieces.now) }
{
    let mut boxes = Vec::new(alloc);
    for piece in pieces {
        boxes.push(new_box(*piece))?;
    }
    Ok(boxes)
}

fn new_box(piece: Piece) -> NewBox
    ensures { result ≡ new_box piece }
{
    NewBox {
        bx: piece.bx,
        old_owner: piece.origin.owner,
    }
}
