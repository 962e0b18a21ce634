//! What the lines of a report tell of its meshes, line by line.

ghost use Rattle.std.specs.Prelude.{◌≡◌, ◌<◌, ◌-◌, ◌^◌, ◌+◌, Option, Some, None, IfOk};
ghost use Rattle.std.specs.Option.{option_map};
ghost use Rattle.samr_verify.specs.declared.printed.PrintedLevel.{PrintedLevel};
ghost use Rattle.samr_verify.specs.Gathering.{nothing, ranks_of, begun, with_box, with_edge, joined, checked, ended, taken, Fewer};

use crate::fault::or_earlier;
use crate::line::Line;
use crate::mesh::mesh_fault;
use crate::{Fault, PrintedBox, PrintedEdge, PrintedLevel, PrintedMesh};
use samr_box::{IVec, Listed};
use samr_level::{BoxRef, Edge};
use samr_problem::Problem;
use std::alloc::{AllocError as NoMemory, Global};

/// What the lines so far tell: the number of ranks, if the first line is the problem's; the first fault of the
/// meshes that have ended, and how many they are; the numbers of all boxes and edges; and the levels of the mesh
/// that goes on, the last of them apart.
#[derive(Drop)]
pub(crate) struct Gathered {
    pub ranks: Option<u16>,
    pub fault: Option<Fault>,
    pub meshes: u64,
    pub boxes: u64,
    pub edges: u64,
    pub levels: Listed<PrintedLevel>,
    pub level: Option<PrintedLevel>,
}

/// What is known before the first line.
pub(crate) fn nothing(alloc: Global) -> Gathered
    ensures { result ≡ nothing }
{
    Gathered {
        ranks: None,
        fault: None,
        meshes: 0,
        boxes: 0,
        edges: 0,
        levels: Listed::new(alloc),
        level: None,
    }
}

/// The number of ranks that a first line tells, if it is from 1 to 16 and the line is the problem's.
fn headed(problem: &Problem, ranks: u64, levels: u64, width: IVec) -> Option<u16>
    ensures { result ≡ ranks_of problem.now ranks levels width }
{
    if ranks == 0 {
        return None;
    }
    if ranks > 16 {
        return None;
    }
    if levels != u64::from(problem.levels) {
        return None;
    }
    let expected = problem.width;
    if !width.at_most(expected) {
        return None;
    }
    if !expected.at_most(width) {
        return None;
    }
    Some(ranks as u16)
}

/// A level with one box more.
fn with_box(level: PrintedLevel, line: u64, at: BoxRef) -> Result<PrintedLevel, NoMemory>
    requires { line < 2 ^ 64 - 1 }
    ensures { IfOk result (λ v. v ≡ with_box level line at) }
{
    let PrintedLevel {
        line: begin,
        boxes_told,
        cells_told,
        boxes,
        edges,
        after: _,
    } = level;
    let mut more = boxes.into_vec();
    more.push(PrintedBox { line, at })?;
    Ok(PrintedLevel {
        line: begin,
        boxes_told,
        cells_told,
        boxes: Listed::from_vec(more),
        edges,
        after: line + 1,
    })
}

/// A level with one edge more.
fn with_edge(
    level: PrintedLevel,
    line: u64,
    to_level: u8,
    edge: Edge,
) -> Result<PrintedLevel, NoMemory>
    requires { line < 2 ^ 64 - 1 }
    ensures { IfOk result (λ v. v ≡ with_edge level line to_level edge) }
{
    let PrintedLevel {
        line: begin,
        boxes_told,
        cells_told,
        boxes,
        edges,
        after: _,
    } = level;
    let mut more = edges.into_vec();
    more.push(PrintedEdge {
        line,
        to_level,
        edge,
    })?;
    Ok(PrintedLevel {
        line: begin,
        boxes_told,
        cells_told,
        boxes,
        edges: Listed::from_vec(more),
        after: line + 1,
    })
}

/// The levels of a mesh, the last one with the others.
fn all_levels(
    levels: Listed<PrintedLevel>,
    level: Option<PrintedLevel>,
) -> Result<Listed<PrintedLevel>, NoMemory>
    ensures { IfOk result (λ v. v ≡ joined levels level) }
{
    match level {
        None => Ok(levels),
        Some(last) => {
            let mut all = levels.into_vec();
            all.push(last)?;
            Ok(Listed::from_vec(all))
        }
    }
}

/// The first fault of a mesh, if it has one and the ranks are known.
fn checked(
    alloc: Global,
    problem: &Problem,
    ranks: Option<u16>,
    levels: Listed<PrintedLevel>,
) -> Result<Option<Fault>, NoMemory>
    ensures { IfOk result (λ f. f ≡ checked problem.now ranks levels) }
{
    let Some(ranks) = ranks else {
        return Ok(None);
    };
    if levels.as_slice().len() > usize::from(problem.levels) {
        return Ok(None);
    }
    let mesh = PrintedMesh { levels };
    let fault = mesh_fault(alloc, problem, ranks, &mesh)?;
    Ok(fault)
}

/// What is known behind the end of a mesh, if one goes on.
#[tactic(auto, unfolding(crate::specs::Gathering::ended))]
fn closed(alloc: Global, problem: &Problem, g: Gathered) -> Result<Gathered, NoMemory>
    requires { g.meshes < 2 ^ 64 - 1 }
    ensures { IfOk result (λ h. h ≡ ended problem.now g) }
{
    let levels = all_levels(g.levels, g.level)?;
    if levels.as_slice().is_empty() {
        return Ok(Gathered {
            ranks: g.ranks,
            fault: g.fault,
            meshes: g.meshes,
            boxes: g.boxes,
            edges: g.edges,
            levels: Listed::new(alloc),
            level: None,
        });
    }
    let fault = checked(alloc, problem, g.ranks, levels)?;
    Ok(Gathered {
        ranks: g.ranks,
        fault: or_earlier(g.fault, fault),
        meshes: g.meshes + 1,
        boxes: g.boxes,
        edges: g.edges,
        levels: Listed::new(alloc),
        level: None,
    })
}

/// What is known behind a `level` line.
fn with_level(
    alloc: Global,
    g: Gathered,
    line: u64,
    boxes: u64,
    cells: u64,
) -> Result<Gathered, NoMemory>
    requires { line < 2 ^ 64 - 1 }
    ensures { IfOk result (λ h. h ≡ record g { levels = joined g.levels g.level; level = Some (begun line boxes cells) }) }
{
    let levels = all_levels(g.levels, g.level)?;
    Ok(Gathered {
        ranks: g.ranks,
        fault: g.fault,
        meshes: g.meshes,
        boxes: g.boxes,
        edges: g.edges,
        levels,
        level: Some(PrintedLevel {
            line,
            boxes_told: boxes,
            cells_told: cells,
            boxes: Listed::new(alloc),
            edges: Listed::new(alloc),
            after: line + 1,
        }),
    })
}

/// A level with one box more, if one goes on.
fn maybe_with_box(
    level: Option<PrintedLevel>,
    line: u64,
    at: BoxRef,
) -> Result<Option<PrintedLevel>, NoMemory>
    requires { line < 2 ^ 64 - 1 }
    ensures { IfOk result (λ o. o ≡ option_map {U = PrintedLevel} (λ v. with_box v line at) level) }
{
    let Some(level) = level else {
        return Ok(None);
    };
    let more = with_box(level, line, at)?;
    Ok(Some(more))
}

/// A level with one edge more, if one goes on.
fn maybe_with_edge(
    level: Option<PrintedLevel>,
    line: u64,
    to_level: u8,
    edge: Edge,
) -> Result<Option<PrintedLevel>, NoMemory>
    requires { line < 2 ^ 64 - 1 }
    ensures { IfOk result (λ o. o ≡ option_map {U = PrintedLevel} (λ v. with_edge v line to_level edge) level) }
{
    let Some(level) = level else {
        return Ok(None);
    };
    let more = with_edge(level, line, to_level, edge)?;
    Ok(Some(more))
}

/// What is known behind a `box` line.
fn boxed(g: Gathered, line: u64, at: BoxRef) -> Result<Gathered, NoMemory>
    requires few { g.boxes < 2 ^ 64 - 1 }
    requires small { line < 2 ^ 64 - 1 }
    ensures { IfOk result (λ h. h ≡ record g { boxes = g.boxes + 1; level = option_map (λ v. with_box v line at) g.level }) }
{
    let level = maybe_with_box(g.level, line, at)?;
    Ok(Gathered {
        ranks: g.ranks,
        fault: g.fault,
        meshes: g.meshes,
        boxes: g.boxes + 1,
        edges: g.edges,
        levels: g.levels,
        level,
    })
}

/// What is known behind an `edge` line.
fn edged(g: Gathered, line: u64, to_level: u8, edge: Edge) -> Result<Gathered, NoMemory>
    requires few { g.edges < 2 ^ 64 - 1 }
    requires small { line < 2 ^ 64 - 1 }
    ensures { IfOk result (λ h. h ≡ record g { edges = g.edges + 1; level = option_map (λ v. with_edge v line to_level edge) g.level }) }
{
    let level = maybe_with_edge(g.level, line, to_level, edge)?;
    Ok(Gathered {
        ranks: g.ranks,
        fault: g.fault,
        meshes: g.meshes,
        boxes: g.boxes,
        edges: g.edges + 1,
        levels: g.levels,
        level,
    })
}

/// What is known behind the first line.
fn with_first(problem: &Problem, g: Gathered, ranks: u64, levels: u64, width: IVec) -> Gathered
    ensures { result ≡ record g { ranks = ranks_of problem.now ranks levels width } }
{
    Gathered {
        ranks: headed(problem, ranks, levels, width),
        fault: g.fault,
        meshes: g.meshes,
        boxes: g.boxes,
        edges: g.edges,
        levels: g.levels,
        level: g.level,
    }
}

/// What is known behind a line of a report.
#[tactic(auto, unfolding(crate::specs::Gathering::taken))]
pub(crate) fn taken(
    alloc: Global,
    problem: &Problem,
    g: Gathered,
    number: u64,
    line: Line,
) -> Result<Gathered, NoMemory>
    requires fewer { Fewer g number }
    requires small { number < 2 ^ 64 - 1 }
    ensures { IfOk result (λ h. h ≡ taken problem.now g number line) }
{
    match line {
        Line::First {
            ranks,
            levels,
            width,
        } => Ok(with_first(problem, g, ranks, levels, width)),
        Line::Step { .. } => closed(alloc, problem, g),
        Line::End => closed(alloc, problem, g),
        Line::LevelOf { boxes, cells, .. } => with_level(alloc, g, number, boxes, cells),
        Line::BoxOf { at, .. } => boxed(g, number, at),
        Line::EdgeOf { to_level, edge, .. } => edged(g, number, to_level, edge),
        _ => Ok(g),
    }
}
