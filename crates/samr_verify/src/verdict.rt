//! The verdict on a text.

ghost use Rattle.std.specs.Prelude.{◌≡◌, ◌<◌, ◌+◌, ◌-◌, ◌^◌, IfOk};
ghost use Rattle.samr_verify.specs.Gathering.{Fewer};
ghost use Rattle.samr_verify.specs.Standing.{stand, gathered_on, end_fault, told, concluded};
ghost use Rattle.samr_verify.specs.Verdicts.{IsVerdict};

use crate::cutting::line_first;
use crate::gathering::{Gathered, nothing, taken};
use crate::line::Line;
use crate::meaning::meaning;
use crate::place::{Place, is_ended, meant};
use samr_problem::Problem;
use std::alloc::{AllocError as NoMemory, Global};

/// What is answered to a text: the numbers of the meshes, boxes and edges of a report without fault, or the first
/// fault, by its kind and its line.
#[derive(Clone, Copy, Debug, Drop, PartialEq, Eq)]
pub enum Verdict {
    Sound { meshes: u64, boxes: u64, edges: u64 },
    Fault { kind: u8, line: u64 },
}

/// Where a report stands behind a line: its place, or the number of the first line that may not stand where it does.
fn stand(
    problem: &Problem,
    standing: Result<Place, u64>,
    number: u64,
    line: &Option<Line>,
) -> Result<Place, u64>
    ensures { result ≡ stand problem.now standing number line.now }
{
    match standing {
        Err(amiss) => Err(amiss),
        Ok(place) => match meant(problem, place, *line) {
            Some(next) => Ok(next),
            None => Err(number),
        },
    }
}

/// What the lines tell, as long as each may stand where it does.
fn gathered_on(
    alloc: Global,
    problem: &Problem,
    standing: Result<Place, u64>,
    known: Gathered,
    number: u64,
    line: Option<Line>,
) -> Result<Gathered, NoMemory>
    requires fewer { Fewer known number }
    requires small { number < 2 ^ 64 - 1 }
    ensures { IfOk result (λ g. g ≡ gathered_on problem.now standing known number line) }
{
    match (standing, line) {
        (Ok(_), Some(line)) => taken(alloc, problem, known, number, line),
        _ => Ok(known),
    }
}

/// The line of the fault of form of a text that ends so before a line with this number, if it has one.
fn end_fault(standing: Result<Place, u64>, number: u64) -> Option<u64>
    ensures { result ≡ end_fault standing number }
{
    match standing {
        Err(amiss) => Some(amiss),
        Ok(place) => if is_ended(place) { None } else { Some(number) },
    }
}

/// The verdict on a report of the right form.
fn told(known: &Gathered) -> Verdict
    ensures { result ≡ told known.now }
{
    match (known.ranks, known.fault) {
        (None, _) => Verdict::Fault { kind: 2, line: 1 },
        (Some(_), Some(fault)) => Verdict::Fault {
            kind: fault.kind,
            line: fault.line,
        },
        (Some(_), None) => Verdict::Sound {
            meshes: known.meshes,
            boxes: known.boxes,
            edges: known.edges,
        },
    }
}

/// The verdict on a text that ends so before a line with this number.
fn concluded(standing: Result<Place, u64>, number: u64, known: &Gathered) -> Verdict
    ensures { result ≡ concluded standing number known.now }
{
    match end_fault(standing, number) {
        Some(amiss) => Verdict::Fault {
            kind: 1,
            line: amiss,
        },
        None => told(known),
    }
}

/// The verdict on a text that may be a report of a problem: that it has no fault, with the numbers of its meshes,
/// boxes and edges, or its first fault.
pub fn verify_text(alloc: Global, problem: &Problem, report: &[u8]) -> Result<Verdict, NoMemory>
    ensures { IfOk result (λ v. IsVerdict problem.now report.now v) }
{
    let most = problem.levels;
    let mut rest = report;
    let mut number = 0u64;
    let mut standing = Ok(Place::Begun);
    let mut known = nothing(alloc);
    while let Some((text, others)) = line_first(rest) {
        number += 1;
        let line = meaning(text, most);
        standing = stand(problem, standing, number, &line);
        known = gathered_on(alloc, problem, standing, known, number, line)?;
        rest = others;
    }
    Ok(concluded(standing, number + 1, &known))
}
