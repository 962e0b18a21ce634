//! The edges that a level has to print.

ghost use Rattle.std.specs.Prelude.{◌≡◌, ◌++◌, ◌+◌, ◌<◌, ◌≤◌, ◌^◌, length, map, IfOk, OnOk, slice_get, option_map};
ghost use Rattle.samr_level.specs.Overlaps.{scale, true_overlaps};
ghost use Rattle.samr_problem.specs.Problems.{IsProblem};
ghost use Rattle.samr_mesh.specs.Domains.{area_of, ratio_to};
ghost use Rattle.samr_verify.specs.MeshFaults.{due_to, edges_to, edges_down, edges_due};
ghost use Rattle.samr_verify.specs.Nearby.{AlikeBehind};
ghost use Rattle.samr_verify.specs.Printed.{boxes_in, boxes_at, settled_at};

use crate::PrintedLevel;
use crate::boxes::is_zero;
use crate::edges::DueEdge;
use crate::nearby::overlaps_at_most;
use crate::scales::{finer_frame, ratio_to, width_of};
use samr_level::{BoxRef, Edge, in_level_order};
use samr_problem::Problem;
use std::alloc::{AllocError as NoMemory, Global};

/// The boxes that a level prints.
pub(crate) fn boxes_in(alloc: Global, level: &PrintedLevel) -> Result<Vec<BoxRef>, NoMemory>
    ensures { IfOk result (λ v. v.items ≡ boxes_in level.now) }
{
    level.boxes.as_slice().iter().map(|b| b.at).collect(alloc)
}

/// The boxes of the level with a number.
pub(crate) fn boxes_at(
    alloc: Global,
    levels: &[PrintedLevel],
    l: usize,
) -> Result<Vec<BoxRef>, NoMemory>
    ensures { IfOk result (λ v. v.items ≡ boxes_at levels.now l) }
{
    match levels.get(l) {
        Some(level) => {
            let boxes = boxes_in(alloc, level)?;
            Ok(boxes)
        }
        None => Ok(Vec::new(alloc)),
    }
}

/// The same in level order, each once.
fn settled_at(alloc: Global, levels: &[PrintedLevel], l: usize) -> Result<Vec<BoxRef>, NoMemory>
    ensures { IfOk result (λ v. v.items ≡ settled_at levels.now l) }
{
    let boxes = boxes_at(alloc, levels, l)?;
    Ok(in_level_order(boxes))
}

/// The true overlaps of two levels in level order, up to one more than so many at least.
fn overlaps_between(
    alloc: Global,
    problem: &Problem,
    bases: &[BoxRef],
    heads: &[BoxRef],
    l: usize,
    m: usize,
    most: usize,
) -> Result<Vec<Edge>, NoMemory>
    requires is { IsProblem problem.now }
    requires l { l < problem.now.levels }
    requires m { m < problem.now.levels }
    ensures { IfOk result (λ v. AlikeBehind most v.items (true_overlaps (scale (area_of problem.now).frame problem.now.width (ratio_to problem.now l) (ratio_to problem.now m)) bases.now heads.now)) }
{
    let a = ratio_to(problem, l);
    let b = ratio_to(problem, m);
    let finer = finer_frame(problem, a, b, l, m);
    let width = width_of(problem);
    let edges = overlaps_at_most(alloc, bases, heads, width, a, b, &finer, most)?;
    Ok(edges)
}

/// Adds edges to a level.
fn push_to(m: u8, edges: &[Edge], out: &mut Vec<DueEdge>) -> Result<(), NoMemory>
    ensures { OnOk result (out.new.items ≡ out.old.items ++ map (due_to m) edges.now) }
{
    for e in edges {
        out.push(DueEdge {
            to_level: m,
            edge: *e,
        })?;
    }
    Ok(())
}

/// Adds the edges from a level to a level, up to one more than so many at least.
fn push_edges(
    alloc: Global,
    problem: &Problem,
    levels: &[PrintedLevel],
    l: usize,
    m: usize,
    most: usize,
    out: &mut Vec<DueEdge>,
) -> Result<(), NoMemory>
    requires is { IsProblem problem.now }
    requires l { l < problem.now.levels }
    requires m { m < problem.now.levels }
    requires few { problem.now.levels < 2 ^ 8 }
    ensures { OnOk result (AlikeBehind most out.new.items (out.old.items ++ edges_to problem.now levels.now l m)) }
{
    let bases = settled_at(alloc, levels, l)?;
    let heads = settled_at(alloc, levels, m)?;
    let edges = overlaps_between(
        alloc,
        problem,
        bases.as_slice(),
        heads.as_slice(),
        l,
        m,
        most,
    )?;
    push_to(m as u8, edges.as_slice(), out)?;
    Ok(())
}

/// Adds those to the level below, if there is one, in the same way.
fn push_down(
    alloc: Global,
    problem: &Problem,
    levels: &[PrintedLevel],
    l: usize,
    most: usize,
    out: &mut Vec<DueEdge>,
) -> Result<(), NoMemory>
    requires is { IsProblem problem.now }
    requires l { l < problem.now.levels }
    requires few { problem.now.levels < 2 ^ 8 }
    ensures { OnOk result (AlikeBehind most out.new.items (out.old.items ++ edges_down problem.now levels.now l)) }
{
    if l == 0 {
        return Ok(());
    }
    push_edges(alloc, problem, levels, l, l - 1, most, out)?;
    Ok(())
}

/// Adds those to the level above, if there is one, in the same way.
fn push_up(
    alloc: Global,
    problem: &Problem,
    levels: &[PrintedLevel],
    l: usize,
    most: usize,
    out: &mut Vec<DueEdge>,
) -> Result<(), NoMemory>
    requires is { IsProblem problem.now }
    requires l { l < length levels.now }
    requires levels { length levels.now ≤ problem.now.levels }
    requires few { problem.now.levels < 2 ^ 8 }
    ensures { OnOk result (AlikeBehind most out.new.items (out.old.items ++ edges_to problem.now levels.now l (l + 1))) }
{
    if l + 1 >= levels.len() {
        return Ok(());
    }
    push_edges(alloc, problem, levels, l, l + 1, most, out)?;
    Ok(())
}

/// The edges that a level has to print, up to one more than so many at least.
#[tactic(auto, unfolding(crate::specs::MeshFaults::edges_due))]
pub(crate) fn edges_due(
    alloc: Global,
    problem: &Problem,
    levels: &[PrintedLevel],
    l: usize,
    most: usize,
) -> Result<Vec<DueEdge>, NoMemory>
    requires is { IsProblem problem.now }
    requires l { l < length levels.now }
    requires levels { length levels.now ≤ problem.now.levels }
    requires few { problem.now.levels < 2 ^ 8 }
    ensures { IfOk result (λ v. AlikeBehind most v.items (edges_due problem.now levels.now l)) }
{
    let mut out = Vec::new(alloc);
    if is_zero(width_of(problem)) {
        return Ok(out);
    }
    push_edges(alloc, problem, levels, l, l, most, &mut out)?;
    push_down(alloc, problem, levels, l, most, &mut out)?;
    push_up(alloc, problem, levels, l, most, &mut out)?;
    Ok(out)
}
