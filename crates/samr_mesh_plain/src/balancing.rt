//! A cut level, balanced.

ghost use Rattle.std.specs.Prelude.{◌≡◌, ◌++◌, ◌<◌, ◌^◌, ◌≤ℤ◌, pos, unsigned_abs, IfOk, OnOk, map};
ghost use Rattle.samr_load.specs.Balanced.{cells_in, owned_by, balanced};
ghost use Rattle.samr_mesh.specs.Passes.{pieces_of};
ghost use Rattle.samr_mesh_plain.specs.Making.{CanMake};

use crate::cutting::cut_level;
use crate::domains::accepted;
use crate::pass::Pass;
use samr_level::BoxRef;
use samr_load::{Piece, balance_all};
use samr_problem::Problem;
use std::alloc::{AllocError as NoMemory, Global};

/// Adds pieces, owned by a rank.
fn push_pieces(out: &mut Vec<BoxRef>, owner: u16, pieces: &[Piece]) -> Result<(), NoMemory>
    ensures { OnOk result (out.new.items ≡ out.old.items ++ map (owned_by owner) pieces.now) }
{
    for piece in pieces {
        out.push(BoxRef {
            owner,
            bx: piece.bx,
        })?;
    }
    Ok(())
}

/// These boxes, balanced over the ranks.
fn balanced(
    alloc: Global,
    ranks: u16,
    smallest: i64,
    boxes: &[BoxRef],
) -> Result<Vec<BoxRef>, NoMemory>
    requires smallest { pos 1 ≤ℤ smallest }
    requires fits { cells_in boxes.now < 2 ^ 63 }
    ensures { IfOk result (λ v. v.items ≡ balanced ranks (unsigned_abs smallest) boxes.now) }
{
    let pieces = balance_all(alloc, ranks, smallest, boxes)?;
    let mut all = Vec::new(alloc);
    for rank in 0..ranks {
        push_pieces(&mut all, rank, pieces[usize::from(rank)].as_slice())?;
    }
    Ok(all)
}

/// The cells that the cut leaves, balanced.
#[tactic(auto, unfolding(samr_mesh::specs::Passes::pieces_of))]
pub(crate) fn pieces_of(alloc: Global, problem: &Problem, w: &Pass) -> Result<Vec<BoxRef>, NoMemory>
    requires { CanMake problem.now w.now }
    ensures { IfOk result (λ v. v.items ≡ pieces_of problem.now w.now) }
{
    accepted(problem);
    let boxes = cut_level(alloc, problem, w)?;
    let pieces = balanced(alloc, w.ranks, problem.smallest, boxes.as_slice())?;
    Ok(pieces)
}
