//! Whether a level nests in the one below it.

ghost use Rattle.std.specs.Prelude.{◌≡◌, ◌++◌, ◌<◌, ◌≤◌, ◌-◌, ◌+◌, suc, pos, IfOk, OnOk, All, length, map};
ghost use Rattle.std.specs.List.{flat_map, filter_map, list_all};
ghost use Rattle.samr_box.specs.Vector.{alike, AtMost};
ghost use Rattle.samr_box.specs.Corners.{IsBox, met, grown};
ghost use Rattle.samr_box.specs.Ratios.{coarsened};
ghost use Rattle.samr_level.specs.Regions.{boxes_of};
ghost use Rattle.samr_problem.specs.Problems.{IsProblem};
ghost use Rattle.samr_verify.specs.MeshFaults.{covered, wrapped_boxes, wrapped_parts, nests_in, nests, is_nested};

use crate::PrintedLevel;
use crate::boxes::{boxes_only, covered};
use crate::due::boxes_at;
use crate::look_up::LookUp;
use crate::mesh::region_at;
use crate::scales::step_of;
use crate::window::{Window, around, push_common, wrapped_boxes};
use samr_box::{IBox, IVec, Ratio};
use samr_level::{BoxRef, Region};
use samr_problem::Problem;
use std::alloc::{AllocError as NoMemory, Global};

/// The cells of a window, wrapped round the periodic borders.
fn windows_of(alloc: Global, region: &Region, b: Window) -> Result<Vec<Window>, NoMemory>
    ensures { IfOk result (λ v. v.items ≡ wrapped_boxes region.now.frame b) }
{
    let windows = wrapped_boxes(alloc, region.frame(), b)?;
    Ok(windows)
}

/// The parts of a domain in a window, wrapped round the periodic borders.
fn wrapped_parts(alloc: Global, region: &Region, b: Window) -> Result<Vec<IBox>, NoMemory>
    ensures { IfOk result (λ v. v.items ≡ wrapped_parts region.now b) }
{
    let boxes = region.boxes(alloc)?;
    let windows = windows_of(alloc, region, b)?;
    let parts = parts_in(alloc, boxes.as_slice(), windows.as_slice())?;
    Ok(parts)
}

/// What each of some windows has in common with each of some boxes.
fn parts_in(alloc: Global, boxes: &[IBox], windows: &[Window]) -> Result<Vec<IBox>, NoMemory>
    ensures { IfOk result (λ v. v.items ≡ flat_map (λ w. filter_map (λ p. met p w) boxes.now) windows.now) }
{
    let mut out = Vec::new(alloc);
    for w in windows {
        push_common(boxes, w, &mut out)?;
    }
    Ok(out)
}

/// Whether every cell of a box lies in one of some boxes, by a look at those that it meets.
fn covered_by(alloc: Global, below: &LookUp, b: IBox) -> Result<bool, NoMemory>
    requires { All IsBox below.now }
    ensures { IfOk result (λ r. r ≡ covered below.now b) }
{
    let _corner = b.lo;
    let near = below.met(alloc, b)?;
    let all = covered(alloc, near.as_slice(), b)?;
    Ok(all)
}

/// Whether all cells of each of some boxes lie in one of others.
fn all_covered(alloc: Global, below: &LookUp, parts: &[IBox]) -> Result<bool, NoMemory>
    requires { All IsBox below.now }
    ensures { IfOk result (λ r. r ≡ list_all (λ w. covered below.now w) parts.now) }
{
    for w in parts {
        if !covered_by(alloc, below, *w)? {
            return Ok(false);
        }
    }
    Ok(true)
}

/// Whether some boxes have all that lies about a box.
fn nests_in(
    alloc: Global,
    region: &Region,
    step: Ratio,
    nest: IVec,
    below: &LookUp,
    b: &BoxRef,
) -> Result<bool, NoMemory>
    requires whole { All IsBox below.now }
    requires low { AtMost (alike (pos 0)) nest }
    requires high { AtMost nest (alike (pos 1073741824)) }
    ensures { IfOk result (λ r. r ≡ nests_in region.now step nest below.now b.now) }
{
    let parts = wrapped_parts(alloc, region, around(b.bx, step, nest))?;
    let all = all_covered(alloc, below, parts.as_slice())?;
    Ok(all)
}

/// Whether they have all that lies about each of some boxes.
fn nests_all(
    alloc: Global,
    region: &Region,
    step: Ratio,
    nest: IVec,
    boxes: &[BoxRef],
    below: &LookUp,
) -> Result<bool, NoMemory>
    requires whole { All IsBox below.now }
    requires low { AtMost (alike (pos 0)) nest }
    requires high { AtMost nest (alike (pos 1073741824)) }
    ensures { IfOk result (λ r. r ≡ list_all (λ b. nests_in region.now step nest below.now b) boxes.now) }
{
    for b in boxes {
        if !nests_in(alloc, region, step, nest, below, b)? {
            return Ok(false);
        }
    }
    Ok(true)
}

/// A look-up of the boxes of a level.
fn look_up_of(alloc: Global, level: &[BoxRef]) -> Result<LookUp, NoMemory>
    ensures value { IfOk result (λ l. l ≡ map (λ b. b.bx) level.now) }
    ensures whole { IfOk result (λ l. All IsBox l) }
{
    let boxes = boxes_only(alloc, level)?;
    let all = LookUp::new(alloc, boxes)?;
    Ok(all)
}

/// Whether the boxes of a level nest in those of the level below it.
fn nests(
    alloc: Global,
    region: &Region,
    step: Ratio,
    nest: IVec,
    boxes: &[BoxRef],
    coarser: &[BoxRef],
) -> Result<bool, NoMemory>
    requires low { AtMost (alike (pos 0)) nest }
    requires high { AtMost nest (alike (pos 1073741824)) }
    ensures { IfOk result (λ r. r ≡ nests region.now step nest boxes.now coarser.now) }
{
    let below = look_up_of(alloc, coarser)?;
    let all = nests_all(alloc, region, step, nest, boxes, &below)?;
    Ok(all)
}

/// How far a level lies inside the next coarser one.
fn nest_of(problem: &Problem) -> IVec
    ensures { result ≡ problem.now.nest }
{
    problem.nest
}

/// Whether a level nests in the one below it.
pub(crate) fn is_nested(
    alloc: Global,
    problem: &Problem,
    levels: &[PrintedLevel],
    l: usize,
) -> Result<bool, NoMemory>
    requires is { IsProblem problem.now }
    requires l { l < length levels.now }
    requires levels { length levels.now ≤ problem.now.levels }
    ensures { IfOk result (λ r. r ≡ is_nested problem.now levels.now l) }
{
    if l == 0 {
        return Ok(true);
    }
    let region = region_at(alloc, problem, l - 1)?;
    let boxes = boxes_at(alloc, levels, l)?;
    let coarser = boxes_at(alloc, levels, l - 1)?;
    let nested = nests(
        alloc,
        &region,
        step_of(problem, l - 1),
        nest_of(problem),
        boxes.as_slice(),
        coarser.as_slice(),
    )?;
    Ok(nested)
}
