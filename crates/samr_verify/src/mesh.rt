//! The first fault of a printed mesh.

ghost use Rattle.std.specs.Prelude.{◌≡◌, ◌+◌, ◌<◌, ◌≤◌, ◌^◌, IfOk, length};
ghost use Rattle.samr_problem.specs.Problems.{IsProblem};
ghost use Rattle.samr_mesh.specs.Domains.{level0_of, area_of, area_at};
ghost use Rattle.samr_verify.specs.Deciding.{stands_before, stands_before_all, decides_edges};
ghost use Rattle.samr_verify.specs.Faults.{or_earlier, unless};
ghost use Rattle.samr_verify.specs.MeshFaults.{ground_of, has_counts, is_nested, edges_due, edge_fault, level_fault, mesh_fault};
ghost use Rattle.samr_verify.specs.Printed.{boxes_in};

use crate::boxes::or_box_faults;
use crate::counts::has_counts;
use crate::due::{boxes_in, edges_due};
use crate::edges::edge_fault;
use crate::fault::{or_earlier, stands_before, unless};
use crate::ground::Ground;
use crate::nesting::is_nested;
use crate::scales::{is_problem, ratio_to, step_below};
use crate::{Fault, PrintedEdge, PrintedLevel, PrintedMesh};
use samr_box::{Domain, Listed};
use samr_level::{BoxRef, Region, whole_level0};
use samr_problem::Problem;
use std::alloc::{AllocError as NoMemory, Global};

/// The domain of level 0.
pub(crate) fn region_of(alloc: Global, problem: &Problem) -> Result<Region, NoMemory>
    requires { IsProblem problem.now }
    ensures { IfOk result (λ region. region ≡ area_of problem.now) }
{
    let frame = Domain {
        size: problem.domain,
        periodic: problem.periodic,
    };
    let parts = problem.parts.copied(alloc)?;
    let region = Region::new(frame, parts.into_vec());
    Ok(region.unwrap())
}

/// The domain of a level.
pub(crate) fn region_at(alloc: Global, problem: &Problem, l: usize) -> Result<Region, NoMemory>
    requires is { IsProblem problem.now }
    requires few { l < problem.now.levels }
    ensures { IfOk result (λ region. region ≡ area_at problem.now l) }
{
    let region = region_of(alloc, problem)?;
    let fine = region.refined(alloc, ratio_to(problem, l))?;
    Ok(fine)
}

/// The boxes of level 0.
fn level0_of(alloc: Global, problem: &Problem, ranks: u16) -> Result<Vec<BoxRef>, NoMemory>
    requires { IsProblem problem.now }
    ensures { IfOk result (λ v. v.items ≡ level0_of problem.now ranks) }
{
    let region = region_of(alloc, problem)?;
    let level = whole_level0(alloc, &region, problem.block, ranks)?;
    Ok(level)
}

/// What the boxes of a level are checked against.
fn ground_of(alloc: Global, problem: &Problem, ranks: u16, l: usize) -> Result<Ground, NoMemory>
    requires is { IsProblem problem.now }
    requires few { l < problem.now.levels }
    ensures { IfOk result (λ g. g ≡ ground_of problem.now ranks l) }
{
    let region = region_at(alloc, problem, l)?;
    let domain = region.boxes(alloc)?;
    let base = level0_of(alloc, problem, ranks)?;
    Ok(Ground {
        domain: Listed::from_vec(domain),
        ranks,
        number: l as u64,
        base: Listed::from_vec(base),
        step: step_below(problem, l),
    })
}

/// Whether a fault, if there is one, stands before all lines of edges.
fn stands_before_all(first: Option<Fault>, edges: &[PrintedEdge]) -> bool
    ensures { result ≡ stands_before_all first edges.now }
{
    edges.iter().all(|e| stands_before(first, e.line))
}

/// Whether it stands before all at which a level's edges may have a fault.
fn decides_edges(first: Option<Fault>, level: &PrintedLevel) -> bool
    ensures { result ≡ decides_edges first level.now }
{
    if !stands_before(first, level.after) {
        return false;
    }
    stands_before_all(first, level.edges.as_slice())
}

/// The earlier of a known fault and that of a level's numbers, if there is one.
fn or_count_fault(
    g: &Ground,
    l: usize,
    level: &PrintedLevel,
    boxes: &[BoxRef],
    known: Option<Fault>,
) -> Option<Fault>
    requires { boxes.now ≡ boxes_in level.now }
    ensures { result ≡ or_earlier known (unless (has_counts l g.now.base level.now) 4 level.now.line) }
{
    let right = has_counts(l as u64, g.base.as_slice(), level, boxes);
    or_earlier(known, unless(right, 4, level.line))
}

/// The earlier of a known fault and that of a level's nesting, if there is one.
fn or_nesting_fault(
    alloc: Global,
    problem: &Problem,
    levels: &[PrintedLevel],
    l: usize,
    level: &PrintedLevel,
    known: Option<Fault>,
) -> Result<Option<Fault>, NoMemory>
    requires is { IsProblem problem.now }
    requires l { l < length levels.now }
    requires levels { length levels.now ≤ problem.now.levels }
    ensures { IfOk result (λ f. f ≡ or_earlier known (unless (is_nested problem.now levels.now l) 5 level.now.line)) }
{
    if stands_before(known, level.line) {
        return Ok(known);
    }
    let nested = is_nested(alloc, problem, levels, l)?;
    Ok(or_earlier(known, unless(nested, 5, level.line)))
}

/// The earlier of a known fault and that of a level's edges, if there is one.
fn or_edge_fault(
    alloc: Global,
    problem: &Problem,
    levels: &[PrintedLevel],
    l: usize,
    level: &PrintedLevel,
    known: Option<Fault>,
) -> Result<Option<Fault>, NoMemory>
    requires is { IsProblem problem.now }
    requires l { l < length levels.now }
    requires levels { length levels.now ≤ problem.now.levels }
    requires few { problem.now.levels < 2 ^ 8 }
    ensures { IfOk result (λ f. f ≡ or_earlier known (edge_fault level.now.after level.now.edges (edges_due problem.now levels.now l))) }
{
    if decides_edges(known, level) {
        return Ok(known);
    }
    let told = level.edges.as_slice();
    let due = edges_due(alloc, problem, levels, l, told.len())?;
    Ok(or_earlier(known, edge_fault(level.after, told, due.as_slice())))
}

/// The earlier of a known fault and the first one of a level, if there is one. What can only give later faults
/// is not looked at.
fn or_level_fault(
    alloc: Global,
    problem: &Problem,
    ranks: u16,
    levels: &[PrintedLevel],
    l: usize,
    level: &PrintedLevel,
    known: Option<Fault>,
) -> Result<Option<Fault>, NoMemory>
    requires is { IsProblem problem.now }
    requires l { l < length levels.now }
    requires levels { length levels.now ≤ problem.now.levels }
    requires few { problem.now.levels < 2 ^ 8 }
    ensures { IfOk result (λ f. f ≡ or_earlier known (level_fault problem.now ranks levels.now (l, level.now))) }
{
    let g = ground_of(alloc, problem, ranks, l)?;
    let boxes = boxes_in(alloc, level)?;
    let counted = or_count_fault(&g, l, level, boxes.as_slice(), known);
    let nested = or_nesting_fault(alloc, problem, levels, l, level, counted)?;
    let found = or_box_faults(alloc, &g, level, boxes.as_slice(), nested)?;
    let edges = or_edge_fault(alloc, problem, levels, l, level, found)?;
    Ok(edges)
}

/// How many levels there may be.
fn level_limit(problem: &Problem) -> u8
    ensures { result ≡ problem.now.levels }
{
    problem.levels
}

/// The first fault of a printed mesh, if it has one: the one with the least line, and of these the one with the
/// least kind.
///
/// It is exactly `mesh_fault` of `specs/MeshFaults.antt`. By the law `no_fault_is_sound` a mesh for which it gives
/// none is a mesh of the problem, level 0 is that of the problem, and the edges are the true overlaps of the
/// levels.
pub fn mesh_fault(
    alloc: Global,
    problem: &Problem,
    ranks: u16,
    mesh: &PrintedMesh,
) -> Result<Option<Fault>, NoMemory>
    requires { length mesh.now.levels ≤ problem.now.levels }
    ensures { IfOk result (λ f. f ≡ mesh_fault problem.now ranks mesh.now.levels) }
{
    is_problem(problem);
    let _limit = level_limit(problem);
    let levels = mesh.levels.as_slice();
    let mut first = None;
    for (l, level) in levels.iter().enumerate() {
        let next = or_level_fault(alloc, problem, ranks, levels, l, level, first)?;
        first = next;
    }
    Ok(first)
}
