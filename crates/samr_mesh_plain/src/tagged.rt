//! The tags of a level: its cells within the tag buffer of a cell that a shape tags, with the cover.

ghost use Rattle.std.specs.Prelude.{◌≡◌, ◌&&◌, nat_lt, IfOk, filter};
ghost use Rattle.samr_box.specs.declared.vector.IVec.{IVec as Cell};
ghost use Rattle.samr_box.specs.Corners.{IsBox, holds, grown};
ghost use Rattle.samr_box.specs.Space.{whole};
ghost use Rattle.samr_level.specs.Overlaps.{shifts as all_shifts};
ghost use Rattle.samr_sign.specs.Counts.{tally};
ghost use Rattle.samr_sign.specs.Fields.{tagged};
ghost use Rattle.samr_tags.specs.Buffer.{is_shaped};
ghost use Rattle.samr_mesh.specs.Domains.{frame_at};
ghost use Rattle.samr_mesh.specs.Passes.{tagging, tags_in};
ghost use Rattle.samr_mesh_plain.specs.Making.{CanMake, one_cell};

use crate::cells::{cells_in, field_of};
use crate::covered::is_covered;
use crate::domains::{accepted, frame_at};
use crate::pass::Pass;
use crate::shaped::{in_level, shaped};
use samr_box::{IBox, IVec, Shift, grow};
use samr_level::shifts;
use samr_problem::Problem;
use samr_sign::TagField;
use std::alloc::{AllocError as NoMemory, Global};

/// Whether a field has a cell within a width of a cell.
fn has_near(field: &TagField, x: IVec, width: IVec) -> bool
    requires cell { IsBox (one_cell x) }
    requires range { IsBox (grown (one_cell x) width) }
    ensures { result ≡ nat_lt 0 (tally (tagged field.now) (grown (one_cell x) width)) }
{
    let around = grow(IBox { lo: x, hi: x }, width);
    field.count(around) > 0
}

/// Whether a cell is a tag of the level. `near` has the cells that a shape tags.
#[tactic(auto, unfolding(samr_mesh::specs::Passes::tags_in))]
fn is_tag(problem: &Problem, w: &Pass, near: &TagField, shifts: &[Shift], x: IVec) -> bool
    requires can { CanMake problem.now w.now }
    requires near { (y : Cell) → tagged near.now y ≡ (holds (grown (whole (frame_at problem.now w.now.number)) problem.now.tag_buffer) y && is_shaped (tagging problem.now w.now) y) }
    requires shifts { shifts.now ≡ all_shifts problem.now.periodic }
    ensures { result ≡ tags_in problem.now w.now x }
{
    accepted(problem);
    if !in_level(w.boxes(), x) {
        return false;
    }
    if has_near(near, x, problem.tag_buffer) {
        return true;
    }
    is_covered(problem, w, shifts, x)
}

/// Those of some cells that are tags of the level.
fn tags_of(
    alloc: Global,
    problem: &Problem,
    w: &Pass,
    near: &TagField,
    shifts: &[Shift],
    cells: &[IVec],
) -> Result<Vec<IVec>, NoMemory>
    requires can { CanMake problem.now w.now }
    requires near { (y : Cell) → tagged near.now y ≡ (holds (grown (whole (frame_at problem.now w.now.number)) problem.now.tag_buffer) y && is_shaped (tagging problem.now w.now) y) }
    requires shifts { shifts.now ≡ all_shifts problem.now.periodic }
    ensures { IfOk result (λ v. v.items ≡ filter (tags_in problem.now w.now) cells.now) }
{
    let mut found = Vec::new(alloc);
    for x in cells {
        if is_tag(problem, w, near, shifts, *x) {
            found.push(*x)?;
        }
    }
    Ok(found)
}

/// The tags of the level, in a field of its frame.
pub(crate) fn tags_in(alloc: Global, problem: &Problem, w: &Pass) -> Result<TagField, NoMemory>
    requires { CanMake problem.now w.now }
    ensures { IfOk result (λ f. (x : Cell) → tagged f x ≡ tags_in problem.now w.now x) }
{
    accepted(problem);
    let near = shaped(alloc, problem, w)?;
    let shifts = shifts(alloc, problem.periodic)?;
    let frame = frame_at(problem, w.number).whole();
    let cells = cells_in(alloc, frame)?;
    let found = tags_of(
        alloc,
        problem,
        w,
        &near,
        shifts.as_slice(),
        cells.as_slice(),
    )?;
    let field = field_of(alloc, frame, found.as_slice())?;
    Ok(field)
}
