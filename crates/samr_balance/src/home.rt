//! The last stage: each rank tells the owners of boxes which pieces of these it has.

ghost use Rattle.std.specs.Prelude.{◌≡◌, ℕ, ◌++◌, ◌<◌, ◌^◌, [], map, sum_by, IsOk, IfOk, OnOk};
ghost use Rattle.std.specs.List.{flat_map, cons_option};
ghost use Rattle.std.specs.Option.{option_map};
ghost use Rattle.samr_stage.specs.declared.stage.Held.{Held};
ghost use Rattle.samr_stage.specs.Row.{told, heard, column};
ghost use Rattle.samr_box.specs.Corners.{cells_of};
ghost use Rattle.samr_level.specs.Refs.{Owned};
ghost use Rattle.samr_level.specs.RefOrders.{ref_cmp};
ghost use Rattle.samr_load.specs.Pieces.{sorted};
ghost use Rattle.samr_balance.specs.Home.{Homes, IsHome, HasPieces};
ghost use Rattle.samr_balance.specs.Laws.{IsHomed};
ghost use Rattle.samr_balance.specs.HomeRow.{size_for, told_of, weight, line_of, home_row, told_on, kept_on};
ghost use Rattle.samr_balance.specs.StageLaws.{home_between, home_positive};

use crate::cuttings::{Cutting, push_told, told_of, weight};
use crate::hands::Needs;
use crate::homed::Homed;
use samr_box::{IBox, Listed, cells};
use samr_level::{BoxRef, Mapping, Move};
use samr_load::{Piece, in_piece_order};
use samr_stage::{Held, Stage};
use std::alloc::{AllocError as NoMemory, Global};

/// The end of a balance. Each rank tells the owners of boxes which pieces of these it has, and a rank
/// has been told all where the pieces that it knows of have the cells of its boxes.
#[derive(Drop)]
pub struct Home {
    rank: u16,
    ranks: u16,
    pieces: Vec<Piece>,
    olds: Vec<BoxRef>,
}

impl Home {
    /// The stage of a rank that has this hand after the way down the tree, and owned these boxes before
    /// the balance.
    ///
    /// # Errors
    ///
    /// Where memory is short.
    pub fn start(
        alloc: Global,
        rank: u16,
        ranks: u16,
        hand: Vec<Piece>,
        _quota: u64,
        _smallest: i64,
        _needs: Needs,
        cuts: &[IBox],
    ) -> Result<Home, NoMemory>
        ensures { IfOk result (λ home. (w : Homes) (r : ℕ) → IsHome rank ranks hand.items cuts.now w r
            → ⟦<Home as Stage>⟧.starts home w r) }
    {
        let olds = owned(alloc, rank, cuts)?;
        Ok(Home {
            rank,
            ranks,
            pieces: in_piece_order(hand),
            olds,
        })
    }
}

/// Boxes with their owner, in level order.
fn owned(alloc: Global, rank: u16, cuts: &[IBox]) -> Result<Vec<BoxRef>, NoMemory>
    ensures { IfOk result (λ v. v.items ≡ sorted ref_cmp (map (λ b. record { owner = rank; bx = b }) cuts.now)) }
{
    let mut olds = with_owner(alloc, rank, cuts)?;
    olds.sort_unstable();
    Ok(olds)
}

fn with_owner(alloc: Global, rank: u16, cuts: &[IBox]) -> Result<Vec<BoxRef>, NoMemory>
    ensures { IfOk result (λ v. v.items ≡ map (λ b. record { owner = rank; bx = b }) cuts.now) }
{
    let mut olds = Vec::new(alloc);
    for bx in cuts {
        olds.push(BoxRef {
            owner: rank,
            bx: *bx,
        })?;
    }
    Ok(olds)
}

/// The letter of a rank with these pieces to another one, if it has pieces of boxes of that one.
#[tactic(auto, unfolding(crate::specs::HomeRow::line_of))]
fn line(
    alloc: Global,
    pieces: &[Piece],
    rank: u16,
    to: u16,
) -> Result<Option<Listed<Cutting>>, NoMemory>
    requires { weight (told_of to pieces.now) < 2 ^ 63 }
    ensures { IfOk result (λ body. body ≡ line_of pieces.now rank to) }
{
    let told = told_of(alloc, to, pieces)?;
    if to != rank && weight(told.as_slice()) > 0 {
        return Ok(Some(Listed::from_vec(told)));
    }
    Ok(None)
}

/// Adds that letter, if there is one.
fn push_line(
    alloc: Global,
    pieces: &[Piece],
    rank: u16,
    to: u16,
    letters: &mut Vec<(u16, Listed<Cutting>)>,
) -> Result<(), NoMemory>
    requires { weight (told_of to pieces.now) < 2 ^ 63 }
    ensures { OnOk result (letters.new.items ≡ letters.old.items
        ++ cons_option (option_map (λ body. (to, body)) (line_of pieces.now rank to)) []) }
{
    let Some(body) = line(alloc, pieces, rank, to)? else {
        return Ok(());
    };
    letters.push((to, body))?;
    Ok(())
}

/// The number of cells of boxes.
pub(crate) fn cells_in(boxes: &[BoxRef]) -> u64
    requires { sum_by (λ o. cells_of o.bx) boxes.now < 2 ^ 63 }
    ensures { result ≡ sum_by (λ o. cells_of o.bx) boxes.now }
{
    let mut sum = 0;
    for old in boxes {
        sum += cells(old.bx);
    }
    sum
}

/// The number of cells of a piece, if it is of a box that a rank owns.
fn size_for(piece: Piece, rank: u16) -> u64
    requires { size_for rank piece < 2 ^ 63 }
    ensures { result ≡ size_for rank piece }
{
    if piece.origin.owner == rank {
        return cells(piece.bx);
    }
    0
}

/// The number of cells of the pieces of boxes that a rank owns.
fn load_for(rank: u16, pieces: &[Piece]) -> u64
    requires { sum_by (size_for rank) pieces.now < 2 ^ 63 }
    ensures { result ≡ sum_by (size_for rank) pieces.now }
{
    let mut sum = 0;
    for piece in pieces {
        sum += size_for(*piece, rank);
    }
    sum
}

/// Adds the pieces of a box among those that a rank has, with the rank as their owner.
#[tactic(auto, unfolding(crate::specs::HomeRow::kept_on))]
fn push_kept(
    old: BoxRef,
    rank: u16,
    pieces: &[Piece],
    news: &mut Vec<BoxRef>,
) -> Result<(), NoMemory>
    ensures { OnOk result (news.new.items ≡ news.old.items ++ kept_on old rank pieces.now) }
{
    for piece in pieces {
        if piece.origin.cmp(&old).is_eq() {
            news.push(BoxRef {
                owner: rank,
                bx: piece.bx,
            })?;
        }
    }
    Ok(())
}

/// The pieces of a box on all ranks: those of a rank and those that others tell it of.
fn known(
    alloc: Global,
    old: BoxRef,
    rank: u16,
    pieces: &[Piece],
    held: &[Held<Listed<Cutting>>],
) -> Result<Vec<BoxRef>, NoMemory>
    ensures { IfOk result (λ v. v.items ≡ kept_on old rank pieces.now ++ flat_map (λ letter. told_on old letter.sender letter.body) held.now) }
{
    let mut news = Vec::new(alloc);
    push_kept(old, rank, pieces, &mut news)?;
    for letter in held {
        push_told(old, letter.sender, letter.body.as_slice(), &mut news)?;
    }
    Ok(news)
}

/// What becomes of a box.
fn moved(
    alloc: Global,
    old: BoxRef,
    rank: u16,
    pieces: &[Piece],
    held: &[Held<Listed<Cutting>>],
) -> Result<Move, NoMemory>
    ensures { IfOk result (λ m. m ≡ record { old = old; news = sorted ref_cmp (kept_on old rank pieces.now ++ flat_map (λ letter. told_on old letter.sender letter.body) held.now) }) }
{
    let mut news = known(alloc, old, rank, pieces, held)?;
    news.sort_unstable();
    Ok(Move {
        old,
        news: Listed::from_vec(news),
    })
}

/// What becomes of the boxes.
fn mapped(
    alloc: Global,
    olds: &[BoxRef],
    rank: u16,
    pieces: &[Piece],
    held: &[Held<Listed<Cutting>>],
) -> Result<Vec<Move>, NoMemory>
    ensures { IfOk result (λ v. v.items ≡ map (λ old. record { old = old; news = sorted ref_cmp (kept_on old rank pieces.now ++ flat_map (λ letter. told_on old letter.sender letter.body) held.now) }) olds.now) }
{
    let mut entries = Vec::new(alloc);
    for old in olds {
        entries.push(moved(alloc, *old, rank, pieces, held)?)?;
    }
    Ok(entries)
}

impl Stage for Home {
    type Body = Listed<Cutting>;

    type Out = Homed;

    ghost Whole = { Homes };

    ghost ranks_of = { λ w. w.ranks };

    ghost says = { home_row };

    ghost gives = { IsHomed };

    ghost weight_of = { weight };

    ghost starts = { λ s w rank. HasPieces s.rank s.ranks s.pieces.items s.olds.items w rank };

    ghost waits = { λ s w rank. HasPieces s.rank s.ranks s.pieces.items s.olds.items w rank };

    fn letters(&mut self, alloc: Global) -> Result<Vec<(u16, Listed<Cutting>)>, NoMemory> {
        let mut letters = Vec::new(alloc);
        'each: for to in 0..self.ranks {
            push_line(alloc, self.pieces.as_slice(), self.rank, to, &mut letters)?;
        }
        Ok(letters)
    }

    fn weight(&self, body: &Listed<Cutting>) -> u64 {
        weight(body.as_slice())
    }

    fn goal(&self) -> u64 {
        cells_in(self.olds.as_slice()) - load_for(self.rank, self.pieces.as_slice())
    }

    fn finish(self, alloc: Global, held: Vec<Held<Listed<Cutting>>>) -> Result<Homed, NoMemory>
        requires { (w : Homes) × (rank : ℕ) × HasPieces self.rank self.ranks self.pieces.items self.olds.items w rank
            × (held.items ≡ heard (column (home_row w) rank) w.ranks) }
        ensures { IfOk result (λ out. (w : Homes) (rank : ℕ) → HasPieces self.rank self.ranks self.pieces.items self.olds.items w rank
            → held.items ≡ heard (column (home_row w) rank) w.ranks → IsHomed w rank out) }
    {
        let entries = mapped(
            alloc,
            self.olds.as_slice(),
            self.rank,
            self.pieces.as_slice(),
            held.as_slice(),
        )?;
        Ok(Homed {
            pieces: Listed::from_vec(self.pieces),
            mapping: Mapping {
                entries: Listed::from_vec(entries),
            },
        })
    }

    ghost positive = { home_positive };

    ghost between = { home_between };
}
