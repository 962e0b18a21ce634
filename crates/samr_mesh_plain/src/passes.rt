//! The new level of a pass.

ghost use Rattle.std.specs.Prelude.{◌≡◌, IfOk};
ghost use Rattle.samr_mesh.specs.Passes.{new_level};
ghost use Rattle.samr_mesh_plain.specs.Making.{CanMake};

use crate::balancing::pieces_of;
use crate::domains::{accepted, step_of};
use crate::pass::Pass;
use crate::refining::refined_level;
use samr_box::Listed;
use samr_level::BoxRef;
use samr_problem::Problem;
use std::alloc::{AllocError as NoMemory, Global};

/// The new level above the level of a pass: tags, clusters, cut, balance and refinement.
#[tactic(auto, unfolding(samr_mesh::specs::Passes::new_level))]
pub(crate) fn new_level(
    alloc: Global,
    problem: &Problem,
    w: &Pass,
) -> Result<Listed<BoxRef>, NoMemory>
    requires { CanMake problem.now w.now }
    ensures { IfOk result (λ level. level ≡ new_level problem.now w.now) }
{
    accepted(problem);
    let pieces = pieces_of(alloc, problem, w)?;
    let level = refined_level(alloc, pieces.as_slice(), step_of(problem, w.number))?;
    Ok(Listed::from_vec(level))
}
