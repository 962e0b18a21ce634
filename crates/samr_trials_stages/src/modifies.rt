//! Modifications on all ranks: the part that is near, an old box without new ones, and drawn levels of all ratios.

ghost use Rattle.std.specs.Prelude.{◌≡◌, ◌++◌, ◌&&◌, IfOk, OnOk, map, nat_lt};
ghost use Rattle.std.specs.List.{list_all, range_with_len};
ghost use Rattle.samr_level.specs.Levels.{own};
ghost use Rattle.samr_modify.specs.Pieces.{piece, pieces_of};
ghost use Rattle.samr_modify.specs.Entries.{moves_of};

use crate::levels::{
    ALONG_I_AND_J, NO_AXIS, ONES, Side, all_fit, are_comparable, blocks, domain, drawn,
    drawn_owner, level_of, owned, pairs_between, ratio, same_as_compared,
};
use samr_box::{Domain, Flags, IBox, IVec, Listed, Ratio, Shift};
use samr_level::{BoxRef, Edge, Mapping, Move, Pair, in_level_order};
use samr_modify::{NewBox, modify_all};
use samr_trials_levels::is_width;
use std::alloc::{AllocError as NoMemory, Global};
use std::process::Abort;
use std::test::Fail;

fn owns_all(ranks: u16, boxes: &[BoxRef]) -> bool
    ensures { result ≡ list_all (λ b. nat_lt b.owner ranks) boxes.now }
{
    boxes.iter().all(|b| b.owner < ranks)
}

/// Whether the ranks own both sides of a move.
fn owns_move(ranks: u16, m: &Move) -> bool
    ensures { result ≡ (nat_lt m.now.old.owner ranks && list_all (λ b. nat_lt b.owner ranks) m.now.news) }
{
    if m.old.owner < ranks {
        return owns_all(ranks, m.news.as_slice());
    }
    false
}

fn owns_moves(ranks: u16, moves: &[Move]) -> bool
    ensures { result ≡ list_all (λ m. nat_lt m.old.owner ranks && list_all (λ b. nat_lt b.owner ranks) m.news) moves.now }
{
    moves.iter().all(|m| owns_move(ranks, m))
}

fn copied(alloc: Global, m: &Move) -> Result<Move, NoMemory>
    ensures { IfOk result (λ it. it ≡ m.now) }
{
    Ok(Move {
        old: m.old,
        news: m.news.copied(alloc)?,
    })
}

/// The moves of a rank's old boxes.
#[tactic(auto, unfolding(samr_modify::specs::Entries::moves_of))]
fn moves_of(alloc: Global, rank: u16, moves: &[Move]) -> Result<Vec<Move>, NoMemory>
    ensures { IfOk result (λ v. v.items ≡ moves_of rank moves.now) }
{
    let mut kept = Vec::new(alloc);
    for m in moves {
        if m.old.owner == rank {
            kept.push(copied(alloc, m)?)?;
        }
    }
    Ok(kept)
}

/// The mappings of all ranks.
fn mappings_of(alloc: Global, ranks: u16, moves: &[Move]) -> Result<Vec<Mapping>, NoMemory>
    ensures { IfOk result (λ v. v.items ≡ map (λ rank. record { entries = moves_of rank moves.now }) (range_with_len 0 ranks)) }
{
    let mut mappings = Vec::new(alloc);
    'each: for rank in 0..ranks {
        mappings.push(Mapping {
            entries: Listed::from_vec(moves_of(alloc, rank, moves)?),
        })?;
    }
    Ok(mappings)
}

/// A new box, as its owner has it.
fn piece(b: BoxRef, old_owner: u16) -> NewBox
    ensures { result ≡ piece old_owner b }
{
    NewBox {
        bx: b.bx,
        old_owner,
    }
}

/// The boxes that a rank owns.
#[tactic(auto, unfolding(samr_level::specs::Levels::own))]
fn own(alloc: Global, rank: u16, boxes: &[BoxRef]) -> Result<Vec<BoxRef>, NoMemory>
    ensures { IfOk result (λ v. v.items ≡ own rank boxes.now) }
{
    let mut kept = Vec::new(alloc);
    for b in boxes {
        if b.owner == rank {
            kept.push(*b)?;
        }
    }
    Ok(kept)
}

/// Adds the new boxes of a move that a rank owns.
fn push_pieces(alloc: Global, rank: u16, m: &Move, out: &mut Vec<NewBox>) -> Result<(), NoMemory>
    ensures { OnOk result (out.new.items ≡ out.old.items ++ map (λ b. piece m.now.old.owner b) (own rank m.now.news)) }
{
    let boxes = own(alloc, rank, m.news.as_slice())?;
    let old_owner = m.old.owner;
    for b in boxes.as_slice() {
        out.push(piece(*b, old_owner))?;
    }
    Ok(())
}

/// The new boxes of a rank.
#[tactic(auto, unfolding(samr_modify::specs::Pieces::pieces_of))]
fn pieces_of(alloc: Global, rank: u16, moves: &[Move]) -> Result<Vec<NewBox>, NoMemory>
    ensures { IfOk result (λ v. v.items ≡ pieces_of rank moves.now) }
{
    let mut out = Vec::new(alloc);
    for m in moves {
        push_pieces(alloc, rank, m, &mut out)?;
    }
    Ok(out)
}

/// The new boxes of all ranks.
fn all_pieces(alloc: Global, ranks: u16, moves: &[Move]) -> Result<Vec<Vec<NewBox>>, NoMemory>
    ensures { IfOk result (λ v. map (λ own. own.items) v.items ≡ map (λ rank. pieces_of rank moves.now) (range_with_len 0 ranks)) }
{
    let mut all = Vec::new(alloc);
    'each: for rank in 0..ranks {
        all.push(pieces_of(alloc, rank, moves)?)?;
    }
    Ok(all)
}

/// The modification on all ranks by way of their letters: `None` where the width, the frame or an
/// owner is not fit for it.
fn modified(
    alloc: Global,
    ranks: u16,
    d: &Domain,
    anchor: &Side,
    old: &Side,
    moves: &[Move],
    width: IVec,
) -> Result<Option<Vec<Pair>>, NoMemory> {
    if !is_width(width) {
        return Ok(None);
    }
    if !are_comparable(d, anchor, old) {
        return Ok(None);
    }
    if !all_fit(ranks, anchor.boxes.as_slice()) {
        return Ok(None);
    }
    if !all_fit(ranks, old.boxes.as_slice()) {
        return Ok(None);
    }
    if !owns_moves(ranks, moves) {
        return Ok(None);
    }
    let anchors = pairs_between(alloc, ranks, d, width, anchor, old)?;
    let mappings = mappings_of(alloc, ranks, moves)?;
    let news = all_pieces(alloc, ranks, moves)?;
    let pairs = modify_all(
        alloc,
        d,
        anchors.as_slice(),
        mappings.as_slice(),
        news.as_slice(),
    )?;
    Ok(Some(pairs))
}

#[test]
fn an_edge_goes_to_the_part_that_is_near(rt: HostRuntime) -> Result<(), Fail> {
    let alloc = rt.alloc();
    let d = domain(&rt, IVec::new(16, 4, 1), NO_AXIS);
    let one = ratio(&rt, 1, 1, 1);
    let a = owned(&rt, 1, IVec::new(10, 0, 0), IVec::new(12, 3, 0));
    let o = owned(&rt, 0, IVec::new(0, 0, 0), IVec::new(9, 3, 0));
    let near = owned(&rt, 0, IVec::new(5, 0, 0), IVec::new(9, 3, 0));
    let far = owned(&rt, 1, IVec::new(0, 0, 0), IVec::new(4, 3, 0));
    let anchor = level_of(alloc, one, [a].as_slice())?;
    let old = level_of(alloc, one, [o].as_slice())?;
    let mut moves = Vec::new(alloc);
    moves.push(Move {
        old: o,
        news: Listed::from_vec(Vec::from_slice(alloc, [near, far].as_slice())?),
    })?;
    let made = modified(alloc, 2, &d, &anchor, &old, moves.as_slice(), ONES)?;
    let pairs = made.expect(&rt, "fit");
    assert!(rt; pairs.len() == 2);
    let edge = Edge {
        base: a,
        head: near,
        shift: Shift { k: 0, j: 0, i: 0 },
    };
    assert!(rt; pairs[0].forth.edges.as_slice().is_empty());
    assert!(rt; pairs[0].back.edges.as_slice() == [edge.turned()].as_slice());
    assert!(rt; pairs[1].forth.edges.as_slice() == [edge].as_slice());
    assert!(rt; pairs[1].back.edges.as_slice().is_empty());
    Ok(())
}

#[test]
fn an_old_box_without_new_ones_has_no_edges(rt: HostRuntime) -> Result<(), Fail> {
    let alloc = rt.alloc();
    let d = domain(&rt, IVec::new(16, 4, 1), NO_AXIS);
    let one = ratio(&rt, 1, 1, 1);
    let a = owned(&rt, 0, IVec::new(10, 0, 0), IVec::new(12, 3, 0));
    let o = owned(&rt, 0, IVec::new(0, 0, 0), IVec::new(9, 3, 0));
    let anchor = level_of(alloc, one, [a].as_slice())?;
    let old = level_of(alloc, one, [o].as_slice())?;
    let mut moves = Vec::new(alloc);
    moves.push(Move {
        old: o,
        news: Listed::new(alloc),
    })?;
    let made = modified(alloc, 1, &d, &anchor, &old, moves.as_slice(), ONES)?;
    let pairs = made.expect(&rt, "fit");
    assert!(rt; pairs.len() == 1);
    assert!(rt; pairs[0].forth.edges.as_slice().is_empty());
    assert!(rt; pairs[0].back.edges.as_slice().is_empty());
    Ok(())
}

/// The lower or the upper part of a box on two axes, cut at a cell.
fn part(b: IBox, cut: IVec, place: u32) -> Option<IBox> {
    let mut lo = b.lo;
    let mut hi = b.hi;
    if place % 2 == 0 {
        hi.i = cut.i.saturating_sub(1);
    } else {
        lo.i = cut.i;
    }
    if place / 2 == 0 {
        hi.j = cut.j.saturating_sub(1);
    } else {
        lo.j = cut.j;
    }
    IBox::new(lo, hi)
}

/// A drawn move of a box to at most four parts of it, and one to none.
fn drawn_move(alloc: Global, ranks: u16, seed: u32, b: BoxRef) -> Result<Move, NoMemory> {
    let lo = b.bx.lo;
    let i = lo.i.saturating_add(i64::from(drawn(seed, 20) % 3));
    let j = lo.j.saturating_add(i64::from(drawn(seed, 21) % 3));
    let cut = IVec { i, j, k: 0 }.least(b.bx.hi);
    let mut news = Vec::new(alloc);
    for place in 0..4u32 {
        if drawn(seed, place) % 3 > 0 {
            if let Some(bx) = part(b.bx, cut, place) {
                let owner = drawn_owner(seed ^ 3, place, ranks);
                news.push(BoxRef { owner, bx })?;
            }
        }
    }
    Ok(Move {
        old: b,
        news: Listed::from_vec(in_level_order(news)),
    })
}

fn drawn_moves(alloc: Global, ranks: u16, seed: u32, old: &Side) -> Result<Vec<Move>, NoMemory> {
    let mut moves = Vec::new(alloc);
    let mut n = 0u32;
    for b in &old.boxes {
        moves.push(drawn_move(alloc, ranks, drawn(seed, n), *b)?)?;
        n = n.saturating_add(1);
    }
    Ok(moves)
}

/// The level of the boxes that take the place of old ones.
fn new_level(alloc: Global, moves: &[Move], r: Ratio) -> Result<Side, NoMemory> {
    let mut boxes = Vec::new(alloc);
    for m in moves {
        for b in m.news.as_slice() {
            boxes.push(*b)?;
        }
    }
    let boxes = in_level_order(boxes);
    Ok(Side { ratio: r, boxes })
}

/// Whether modifications of drawn levels on one to five ranks, with the ratios of anchor and old
/// level, give what a look at every two boxes finds.
fn draw(
    rt: &impl Abort,
    alloc: Global,
    periodic: Flags,
    ratios: [Ratio; 2],
    width: IVec,
) -> Result<bool, NoMemory> {
    let d = domain(rt, IVec::new(4, 2, 2), periodic);
    let size = IVec::new(1, 1, 2);
    let mut same = true;
    for ranks in 1..6u16 {
        let seed = drawn(97, u32::from(ranks));
        let anchor = blocks(rt, alloc, ranks, seed, seed | 0b1001_0110, size, ratios[0])?;
        let old = blocks(
            rt,
            alloc,
            ranks,
            seed ^ 5,
            seed | 0b1101_0001,
            size,
            ratios[1],
        )?;
        let moves = drawn_moves(alloc, ranks, seed, &old)?;
        let new = new_level(alloc, moves.as_slice(), ratios[1])?;
        let made = modified(alloc, ranks, &d, &anchor, &old, moves.as_slice(), width)?;
        let pairs = made.expect(rt, "fit");
        same = same && same_as_compared(alloc, ranks, &d, width, &anchor, &new, pairs.as_slice())?;
    }
    Ok(same)
}

#[test]
fn drawn_modifications_of_all_ratios(rt: HostRuntime) -> Result<(), Fail> {
    let alloc = rt.alloc();
    let one = ratio(&rt, 1, 1, 1);
    let some = ratio(&rt, 2, 3, 4);
    let wide = IVec::new(4, 2, 1);
    let narrow = IVec::new(3, 1, 2);
    // the anchor coarser than the old level, at a width of the domain's lengths
    assert!(rt; draw(&rt, alloc, ALONG_I_AND_J, [one, some], wide)?);
    // finer
    assert!(rt; draw(&rt, alloc, NO_AXIS, [some, one], ONES)?);
    // alike
    assert!(rt; draw(&rt, alloc, ALONG_I_AND_J, [some, some], narrow)?);
    Ok(())
}
