//! The text of a step, from what all ranks tell of it.

ghost use Rattle.std.specs.Prelude.{◌≡◌, ◌++◌, [], None, OnOk, length, get_or, map, if◌then◌else◌};
ghost use Rattle.std.specs.List.{flat_map, range_with_len, enumerate_from};
ghost use Rattle.samr_box.specs.Space.{is_zero};
ghost use Rattle.samr_report.specs.Report.{is_told};
ghost use Rattle.samr_report.specs.RankRows.{step_told, sum_line_by, first_some, probe_line_by, level_count, mesh_text_by, sums_text_by, probes_text_by, step_text_by};
ghost use Rattle.samr_report.specs.Bounds.{AreCountable};

use crate::level_text::put_level;
use crate::lines::put_count_line;
use crate::row_lines::{put_probe, put_sums};
use crate::rows::RankRows;
use crate::told::{level_count, probe_of, sums_of};
use samr_box::IVec;
use samr_problem::Problem;
use std::alloc::AllocError as NoMemory;

/// Whether the numbers of all axes are 0.
pub fn is_zero(v: IVec) -> bool
    ensures { result ≡ is_zero v }
{
    v.k == 0 && v.j == 0 && v.i == 0
}

/// How many fields a problem has.
fn field_count(problem: &Problem) -> u8
    ensures { result ≡ length problem.now.fields }
{
    problem.fields.as_slice().len() as u8
}

/// How many probes it has.
fn probe_count(problem: &Problem) -> usize
    ensures { result ≡ length problem.now.probes }
{
    problem.probes.as_slice().len()
}

/// Whether the mesh is told at a step: at step 0, and where a regrid is due.
fn is_told(problem: &Problem, step: usize) -> bool
    ensures { result ≡ is_told problem.now step }
{
    if step == 0 {
        return true;
    }
    problem.levels > 1 && step % (problem.regrid as usize) == 0
}

/// Appends the levels of a step from 0 up.
fn put_mesh(
    out: &mut Vec<u8>,
    problem: &Problem,
    rows: &[RankRows],
    step: usize,
) -> Result<(), NoMemory>
    requires { AreCountable rows.now }
    ensures { OnOk result (out.new.items ≡ out.old.items ++ mesh_text_by problem.now (map (λ q. step_told step q) rows.now)) }
{
    let silent = is_zero(problem.width);
    for level in 0..level_count(rows, step) {
        put_level(out, silent, rows, step, level)?;
    }
    Ok(())
}

/// Appends the levels of a step, where the mesh is told.
fn put_told_mesh(
    out: &mut Vec<u8>,
    problem: &Problem,
    rows: &[RankRows],
    step: usize,
) -> Result<(), NoMemory>
    requires { AreCountable rows.now }
    ensures { OnOk result (out.new.items ≡ out.old.items ++ (if is_told problem.now step then mesh_text_by problem.now (map (λ q. step_told step q) rows.now) else [])) }
{
    if is_told(problem, step) {
        return put_mesh(out, problem, rows, step);
    }
    Ok(())
}

/// Appends the sums of a field on a level of all ranks.
fn put_level_sums(
    out: &mut Vec<u8>,
    rows: &[RankRows],
    step: usize,
    field: u8,
    level: u8,
) -> Result<(), NoMemory>
    ensures { OnOk result (out.new.items ≡ out.old.items
        ++ flat_map (λ q. flat_map (λ s. sum_line_by field level s) (get_or (get_or q.sums field []) level [])) (map (λ q. step_told step q) rows.now)) }
{
    for q in rows {
        put_sums(out, field, level, sums_of(q, step, field, level))?;
    }
    Ok(())
}

/// Appends the sums of a field, level by level.
fn put_field_sums(
    out: &mut Vec<u8>,
    rows: &[RankRows],
    step: usize,
    field: u8,
) -> Result<(), NoMemory>
    ensures { OnOk result (out.new.items ≡ out.old.items
        ++ flat_map (λ l. flat_map (λ q. flat_map (λ s. sum_line_by field l s) (get_or (get_or q.sums field []) l [])) (map (λ q. step_told step q) rows.now)) (range_with_len 0 (level_count (map (λ q. step_told step q) rows.now)))) }
{
    for level in 0..level_count(rows, step) {
        put_level_sums(out, rows, step, field, level)?;
    }
    Ok(())
}

/// Appends the sums of all fields.
fn put_all_sums(
    out: &mut Vec<u8>,
    problem: &Problem,
    rows: &[RankRows],
    step: usize,
) -> Result<(), NoMemory>
    ensures { OnOk result (out.new.items ≡ out.old.items ++ sums_text_by problem.now (map (λ q. step_told step q) rows.now)) }
{
    for field in 0..field_count(problem) {
        put_field_sums(out, rows, step, field)?;
    }
    Ok(())
}

/// The first value that a rank has at a probe of a field.
fn first_value(rows: &[RankRows], step: usize, field: u8, number: usize) -> Option<u32>
    ensures { result ≡ first_some (map (λ q. get_or (get_or q.probes field []) number None) (map (λ q. step_told step q) rows.now)) }
{
    for q in rows {
        if let Some(value) = probe_of(q, step, field, number) {
            return Some(value);
        }
    }
    None
}

/// Appends what stands at a probe of a field.
fn put_probe_of(
    out: &mut Vec<u8>,
    rows: &[RankRows],
    step: usize,
    field: u8,
    number: usize,
) -> Result<(), NoMemory>
    ensures { OnOk result (out.new.items ≡ out.old.items
        ++ probe_line_by field number (first_some (map (λ q. get_or (get_or q.probes field []) number None) (map (λ q. step_told step q) rows.now)))) }
{
    put_probe(out, field, number, first_value(rows, step, field, number))?;
    Ok(())
}

/// Appends what stands at each probe of a field.
fn put_field_probes(
    out: &mut Vec<u8>,
    problem: &Problem,
    rows: &[RankRows],
    step: usize,
    field: u8,
) -> Result<(), NoMemory>
    ensures { OnOk result (out.new.items ≡ out.old.items
        ++ flat_map (λ e. probe_line_by field e.0 (first_some (map (λ q. get_or (get_or q.probes field []) e.0 None) (map (λ q. step_told step q) rows.now)))) (enumerate_from 0 problem.now.probes)) }
{
    for number in 0..probe_count(problem) {
        put_probe_of(out, rows, step, field, number)?;
    }
    Ok(())
}

/// Appends what stands at the probes of all fields.
fn put_all_probes(
    out: &mut Vec<u8>,
    problem: &Problem,
    rows: &[RankRows],
    step: usize,
) -> Result<(), NoMemory>
    ensures { OnOk result (out.new.items ≡ out.old.items ++ probes_text_by problem.now (map (λ q. step_told step q) rows.now)) }
{
    for field in 0..field_count(problem) {
        put_field_probes(out, problem, rows, step, field)?;
    }
    Ok(())
}

/// Appends the text of a step.
#[tactic(auto, using(crate::proofs::Pieces::four_pieces), unfolding(crate::specs::RankRows::step_text_by))]
pub fn put_step(
    out: &mut Vec<u8>,
    problem: &Problem,
    rows: &[RankRows],
    step: usize,
) -> Result<(), NoMemory>
    requires { AreCountable rows.now }
    ensures { OnOk result (out.new.items ≡ out.old.items ++ step_text_by problem.now step (map (λ q. step_told step q) rows.now)) }
{
    put_count_line(out, "step", step as u64)?;
    put_told_mesh(out, problem, rows, step)?;
    put_all_sums(out, problem, rows, step)?;
    put_all_probes(out, problem, rows, step)?;
    Ok(())
}
