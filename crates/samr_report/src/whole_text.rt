//! The text of a whole run, from what all ranks tell of it.

ghost use Rattle.std.specs.Prelude.{◌≡◌, ℕ, List, ◌++◌, ◌+◌, ◌<◌, ◌^◌, OnOk, IfOk, length, map};
ghost use Rattle.std.specs.List.{flat_map, range_with_len};
ghost use Rattle.samr_level.specs.Refs.{Owned};
ghost use Rattle.samr_problem.specs.Problems.{IsProblem};
ghost use Rattle.samr_report.specs.Report.{first_line, report};
ghost use Rattle.samr_report.specs.RankRows.{step_told, step_text_by, report_by};
ghost use Rattle.samr_report.specs.Bounds.{AreCountable, AreRowsOf};

use crate::lines::{put_count, put_line, put_vector_line};
use crate::rows::RankRows;
use crate::step_text::put_step;
use samr_problem::Problem;
use std::alloc::{AllocError as NoMemory, Global};

/// Appends the first line: the number of ranks, the number of levels that there may be, and the width of
/// the connectors.
#[tactic(auto, unfolding(crate::specs::Report::first_line))]
pub fn put_first_line(out: &mut Vec<u8>, problem: &Problem, ranks: u16) -> Result<(), NoMemory>
    ensures { OnOk result (out.new.items ≡ out.old.items ++ first_line problem.now ranks) }
{
    put_count(out, "samr ranks", u64::from(ranks))?;
    put_count(out, " levels", u64::from(problem.levels))?;
    put_vector_line(out, " width", problem.width)?;
    Ok(())
}

/// Appends the steps from 0 to the last one.
fn put_steps(
    out: &mut Vec<u8>,
    problem: &Problem,
    rows: &[RankRows],
    last: u32,
) -> Result<(), NoMemory>
    requires { AreCountable rows.now }
    ensures { OnOk result (out.new.items ≡ out.old.items
        ++ flat_map (λ t. step_text_by problem.now t (map (λ q. step_told t q) rows.now)) (range_with_len 0 (last + 1))) }
{
    for step in 0..last as usize + 1 {
        put_step(out, problem, rows, step)?;
    }
    Ok(())
}

/// The text that the ranks' rows give.
#[tactic(auto, unfolding(crate::specs::RankRows::report_by))]
fn text_by_rows(alloc: Global, problem: &Problem, rows: &[RankRows]) -> Result<Vec<u8>, NoMemory>
    requires ranks { length rows.now < 2 ^ 16 }
    requires countable { AreCountable rows.now }
    ensures text { IfOk result (λ text. text.items ≡ report_by problem.now rows.now) }
    ensures accepted { IfOk result (λ text. IsProblem problem.now) }
{
    let mut out = Vec::new(alloc);
    put_first_line(&mut out, problem, rows.len() as u16)?;
    put_steps(&mut out, problem, rows, problem.steps)?;
    put_line(&mut out, "end", &[])?;
    Ok(out)
}

/// The text of a whole run: the mesh of each step at which it is made, and the sums and probes of all steps.
/// `rows` has what each rank tells, one member per rank in order of rank. Where these are the rows of a run
/// over some meshes, the text is the report of that run.
pub fn report(alloc: Global, problem: &Problem, rows: &[RankRows]) -> Result<Vec<u8>, NoMemory>
    requires ranks { length rows.now < 2 ^ 16 }
    requires countable { AreCountable rows.now }
    ensures by_rows { IfOk result (λ text. text.items ≡ report_by problem.now rows.now) }
    ensures of_a_run { IfOk result (λ text. (ranks : ℕ) (mesh : ℕ → List (List Owned)) (letters : ℕ → ℕ)
        → AreRowsOf problem.now ranks mesh letters rows.now → text.items ≡ report problem.now ranks mesh) }
{
    let text = text_by_rows(alloc, problem, rows)?;
    Ok(text)
}
