//! The cells that a shape tags.

ghost use Rattle.std.specs.Prelude.{◌≡◌, ◌<◌, ◌≤◌, ◌&&◌, suc, IfOk, filter};
ghost use Rattle.samr_box.specs.declared.vector.IVec.{IVec as Cell};
ghost use Rattle.samr_box.specs.Corners.{Holds, holds, grown};
ghost use Rattle.samr_box.specs.Space.{whole};
ghost use Rattle.samr_sign.specs.Fields.{tagged};
ghost use Rattle.samr_tags.specs.Buffer.{in_level, is_shaped};
ghost use Rattle.samr_mesh.specs.Domains.{frame_at};
ghost use Rattle.samr_mesh.specs.Passes.{shape_at, tagging};
ghost use Rattle.samr_mesh_plain.specs.Making.{CanMake};

use crate::cells::{cells_in, field_of};
use crate::domains::{accepted, finest_frame, frame_at, to_finest};
use crate::pass::Pass;
use samr_box::{IBox, IVec, contains, grow, wrap};
use samr_level::BoxRef;
use samr_problem::Problem;
use samr_shape::tags;
use samr_sign::TagField;
use std::alloc::{AllocError as NoMemory, Global};

/// Whether a cell lies in a box of a level.
pub(crate) fn in_level(level: &[BoxRef], x: IVec) -> bool
    ensures { result ≡ in_level level.now x }
{
    level.iter().any(|b| contains(b.bx, x))
}

/// Whether a shape tags a cell of the frame of a level at a step.
#[tactic(auto, unfolding(samr_mesh::specs::Passes::shape_at))]
fn shape_at(problem: &Problem, step: u32, level: u8, x: IVec) -> bool
    requires level { level < problem.now.levels }
    requires cell { Holds (whole (frame_at problem.now level)) x }
    ensures { result ≡ shape_at problem.now step level x }
{
    accepted(problem);
    let finest = finest_frame(problem);
    let shapes = problem.shapes.as_slice();
    tags(shapes, &finest, to_finest(problem, level), x, step)
}

/// Whether a cell is one of the level that a shape tags, seen from where it stands or from beyond a periodic border.
fn is_shaped(problem: &Problem, w: &Pass, y: IVec) -> bool
    requires { CanMake problem.now w.now }
    ensures { result ≡ is_shaped (tagging problem.now w.now) y }
{
    accepted(problem);
    let x = wrap(&frame_at(problem, w.number), y);
    if !in_level(w.boxes(), x) {
        return false;
    }
    shape_at(problem, w.step, w.number, x)
}

/// Those of some cells that a shape tags, seen from where they stand or from beyond a periodic border.
fn shaped_of(
    alloc: Global,
    problem: &Problem,
    w: &Pass,
    cells: &[IVec],
) -> Result<Vec<IVec>, NoMemory>
    requires { CanMake problem.now w.now }
    ensures { IfOk result (λ v. v.items ≡ filter (is_shaped (tagging problem.now w.now)) cells.now) }
{
    let mut shaped = Vec::new(alloc);
    for x in cells {
        if is_shaped(problem, w, *x) {
            shaped.push(*x)?;
        }
    }
    Ok(shaped)
}

/// The frame of a level with the cells within the tag buffer of it.
fn reach(problem: &Problem, level: u8) -> IBox
    requires { suc (suc level) ≤ problem.now.levels }
    ensures { result ≡ grown (whole (frame_at problem.now level)) problem.now.tag_buffer }
{
    accepted(problem);
    grow(frame_at(problem, level).whole(), problem.tag_buffer)
}

/// A field of the cells that a shape tags, in the frame of the level and within the tag buffer of it.
pub(crate) fn shaped(alloc: Global, problem: &Problem, w: &Pass) -> Result<TagField, NoMemory>
    requires { CanMake problem.now w.now }
    ensures { IfOk result (λ f. (x : Cell) → tagged f x ≡ (holds (grown (whole (frame_at problem.now w.now.number)) problem.now.tag_buffer) x && is_shaped (tagging problem.now w.now) x)) }
{
    let around = reach(problem, w.number);
    let cells = cells_in(alloc, around)?;
    let shaped = shaped_of(alloc, problem, w, cells.as_slice())?;
    let field = field_of(alloc, around, shaped.as_slice())?;
    Ok(field)
}
