//! The lines of a level: its counts, its boxes and its edges.

ghost use Rattle.std.specs.Prelude.{◌≡◌, ◌++◌, ◌∷◌, [], ◌<◌, ◌^◌, pos, OnOk, sum_by, length, codes};
ghost use Rattle.std.specs.List.{flat_map};
ghost use Rattle.samr_box.specs.Corners.{cells_of};
ghost use Rattle.samr_level.specs.Refs.{link};
ghost use Rattle.samr_report.specs.Lines.{part, line};
ghost use Rattle.samr_report.specs.LevelLines.{level_line, box_numbers, box_line, link_line, edge_line, edge_lines};

use crate::lines::{put_count, put_count_line, put_line, put_part, put_vector_line};
use samr_box::{Shift, cells};
use samr_level::{BoxRef, Edge};
use std::alloc::AllocError as NoMemory;

/// The number of cells of a level.
pub fn cells_of_level(level: &[BoxRef]) -> u64
    requires { sum_by (λ b. cells_of b.bx) level.now < 2 ^ 63 }
    ensures value { result ≡ sum_by (λ b. cells_of b.bx) level.now }
    ensures small { result < 2 ^ 63 }
{
    let mut total = 0u64;
    for b in level {
        total += cells(b.bx);
    }
    total
}

/// Appends the line on the number of boxes and of cells of a level.
#[tactic(auto, unfolding(crate::specs::LevelLines::level_line))]
pub fn put_level_line(out: &mut Vec<u8>, number: u8, level: &[BoxRef]) -> Result<(), NoMemory>
    requires { sum_by (λ b. cells_of b.bx) level.now < 2 ^ 63 }
    ensures { OnOk result (out.new.items ≡ out.old.items ++ level_line number level.now) }
{
    put_count(out, "level", u64::from(number))?;
    put_count(out, " boxes", level.len() as u64)?;
    put_count_line(out, " cells", cells_of_level(level))?;
    Ok(())
}

/// The owner of a box and its corners.
#[tactic(auto, unfolding(crate::specs::LevelLines::box_numbers))]
pub fn box_numbers(b: BoxRef) -> [i64; 7]
    ensures { result ≡ box_numbers b }
{
    let lo = b.bx.lo;
    let hi = b.bx.hi;
    [i64::from(b.owner), lo.i, lo.j, lo.k, hi.i, hi.j, hi.k]
}

/// Appends the line of a box of a level.
#[tactic(auto, unfolding(crate::specs::LevelLines::box_line))]
fn put_box_line(out: &mut Vec<u8>, number: u8, b: BoxRef) -> Result<(), NoMemory>
    ensures { OnOk result (out.new.items ≡ out.old.items ++ box_line number b) }
{
    put_part(out, "box", &[i64::from(number)])?;
    put_line(out, "", &box_numbers(b))?;
    Ok(())
}

/// Appends the lines of the boxes of a level.
pub fn put_boxes(out: &mut Vec<u8>, number: u8, level: &[BoxRef]) -> Result<(), NoMemory>
    ensures { OnOk result (out.new.items ≡ out.old.items ++ flat_map (λ b. box_line number b) level.now) }
{
    for b in level {
        put_box_line(out, number, *b)?;
    }
    Ok(())
}

/// Appends a base box, a head box and a shift.
#[tactic(auto, using(crate::proofs::Pieces::three_pieces), unfolding(crate::specs::LevelLines::link_line))]
fn put_link(out: &mut Vec<u8>, base: BoxRef, head: BoxRef, shift: Shift) -> Result<(), NoMemory>
    ensures { OnOk result (out.new.items ≡ out.old.items ++ link_line (link base head shift)) }
{
    put_part(out, "", &box_numbers(base))?;
    put_part(out, "", &box_numbers(head))?;
    put_vector_line(out, "", shift.lengths())?;
    Ok(())
}

/// Appends the word of an edge and the levels of its boxes.
fn put_edge_levels(out: &mut Vec<u8>, base: u8, head: u8) -> Result<(), NoMemory>
    ensures { OnOk result (out.new.items ≡ out.old.items ++ part (codes "edge") (pos base ∷ pos head ∷ [])) }
{
    put_part(out, "edge", &[i64::from(base), i64::from(head)])?;
    Ok(())
}

/// Appends the line of an edge from a box of level `base` to a box of level `head`.
fn put_edge_line(out: &mut Vec<u8>, base: u8, head: u8, edge: Edge) -> Result<(), NoMemory>
    ensures { OnOk result (out.new.items ≡ out.old.items ++ edge_line base head edge) }
{
    put_edge_levels(out, base, head)?;
    put_link(out, edge.base, edge.head, edge.shift)?;
    Ok(())
}

/// Appends the lines of some edges from level `base` to level `head`.
#[tactic(auto, unfolding(crate::specs::LevelLines::edge_lines))]
pub fn put_edges(out: &mut Vec<u8>, base: u8, head: u8, edges: &[Edge]) -> Result<(), NoMemory>
    ensures { OnOk result (out.new.items ≡ out.old.items ++ edge_lines base head edges.now) }
{
    for edge in edges {
        put_edge_line(out, base, head, *edge)?;
    }
    Ok(())
}
