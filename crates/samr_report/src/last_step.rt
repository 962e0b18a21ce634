//! The text of `load`: the last step of a run in numbers, from what all ranks tell of it.

ghost use Rattle.std.specs.Prelude.{◌≡◌, ℕ, List, ◌++◌, ◌%◌, ◌<◌, ◌^◌, ◌↔◌, IsTrue, OnOk, IfOk, length, map, sum_by};
ghost use Rattle.std.specs.List.{range_with_len};
ghost use Rattle.samr_level.specs.Refs.{Owned};
ghost use Rattle.samr_problem.specs.Problems.{IsProblem};
ghost use Rattle.samr_sched.specs.PlanRows.{capped};
ghost use Rattle.samr_hierarchy.specs.Passes.{after};
ghost use Rattle.samr_report.specs.LoadText.{first_modulus, load_line, final_line, letters_line, load_text};
ghost use Rattle.samr_report.specs.RankRows.{step_told, level_count};
ghost use Rattle.samr_report.specs.Bounds.{AreRowsOf};
ghost use Rattle.samr_report.specs.Summaries.{last_told, cells_of_level, edges_of_level, boxes_at, cells_at, edges_at, values_at, sum_of, edges_told, summary_by, CanSum};

use crate::counting::cells_of;
use crate::lines::{put_count, put_count_line};
use crate::rows::{BoxSum, LevelRows, RankRows};
use crate::step_text::is_zero;
use crate::told::{first_sums_of, level_count, mesh_of};
use samr_box::Listed;
use samr_problem::Problem;
use std::alloc::{AllocError as NoMemory, Global};

// Counts here stop at the greatest number, so that no bound is asked on the way.

/// The boxes of a rank on a level.
fn level_boxes(rows: &LevelRows) -> u64
    ensures { result ≡ capped (length rows.now.boxes) }
{
    rows.boxes.as_slice().len() as u64
}

/// Their cells.
#[tactic(auto, using(samr_sched::proofs::Counted::sum_step))]
fn level_cells(rows: &LevelRows) -> u64
    ensures { result ≡ capped (cells_of_level rows.now) }
{
    let mut total = 0u64;
    for b in rows.boxes.as_slice() {
        total = total.saturating_add(cells_of(b.bx));
    }
    total
}

/// Their edges to all levels.
fn level_edges(rows: &LevelRows) -> u64
    ensures { result ≡ capped (edges_of_level rows.now) }
{
    let selves = rows.selves.as_slice().len() as u64;
    let downs = rows.downs.as_slice().len() as u64;
    let ups = rows.ups.as_slice().len() as u64;
    selves.saturating_add(downs).saturating_add(ups)
}

#[tactic(auto, using(samr_sched::proofs::Counted::sum_step))]
fn mesh_boxes(mesh: &[LevelRows]) -> u64
    ensures { result ≡ capped (sum_by (λ v. length v.boxes) mesh.now) }
{
    let mut total = 0u64;
    for level in mesh {
        total = total.saturating_add(level_boxes(level));
    }
    total
}

#[tactic(auto, using(samr_sched::proofs::Counted::sum_step))]
fn mesh_cells(mesh: &[LevelRows]) -> u64
    ensures { result ≡ capped (sum_by (λ v. cells_of_level v) mesh.now) }
{
    let mut total = 0u64;
    for level in mesh {
        total = total.saturating_add(level_cells(level));
    }
    total
}

#[tactic(auto, using(samr_sched::proofs::Counted::sum_step))]
fn mesh_edges(mesh: &[LevelRows]) -> u64
    ensures { result ≡ capped (sum_by (λ v. edges_of_level v) mesh.now) }
{
    let mut total = 0u64;
    for level in mesh {
        total = total.saturating_add(level_edges(level));
    }
    total
}

/// The boxes of all ranks at a step.
#[tactic(auto, using(samr_sched::proofs::Counted::sum_step))]
fn all_boxes(rows: &[RankRows], step: usize) -> u64
    ensures { result ≡ capped (sum_by (λ q. boxes_at step q) rows.now) }
{
    let mut total = 0u64;
    for q in rows {
        total = total.saturating_add(mesh_boxes(mesh_of(q, step)));
    }
    total
}

/// Their cells.
#[tactic(auto, using(samr_sched::proofs::Counted::sum_step))]
fn all_cells(rows: &[RankRows], step: usize) -> u64
    ensures { result ≡ capped (sum_by (λ q. cells_at step q) rows.now) }
{
    let mut total = 0u64;
    for q in rows {
        total = total.saturating_add(mesh_cells(mesh_of(q, step)));
    }
    total
}

/// Their edges.
#[tactic(auto, using(samr_sched::proofs::Counted::sum_step))]
fn all_edges(rows: &[RankRows], step: usize) -> u64
    ensures { result ≡ capped (sum_by (λ q. edges_at step q) rows.now) }
{
    let mut total = 0u64;
    for q in rows {
        total = total.saturating_add(mesh_edges(mesh_of(q, step)));
    }
    total
}

/// The letters of a rank.
fn letters_of(q: &RankRows) -> u64
    ensures { result ≡ capped q.now.letters }
{
    q.letters
}

/// The letters of all ranks.
#[tactic(auto, using(samr_sched::proofs::Counted::sum_step))]
fn all_letters(rows: &[RankRows]) -> u64
    ensures { result ≡ capped (sum_by (λ q. q.letters) rows.now) }
{
    let mut total = 0u64;
    for q in rows {
        total = total.saturating_add(letters_of(q));
    }
    total
}

/// The sum of some sums, reduced.
#[tactic(auto, using(crate::proofs::Reduced::mod_step))]
fn reduced_sum(sums: &[BoxSum], modulus: u32) -> u64
    requires { 0 < modulus }
    ensures { result ≡ sum_of sums.now % modulus }
{
    let m = u64::from(modulus);
    let mut total = 0u64;
    for s in sums {
        total = (total + s.sum % m) % m;
    }
    total
}

#[tactic(auto, using(crate::proofs::Reduced::mod_step))]
fn reduced_levels(levels: &[Listed<BoxSum>], modulus: u32) -> u64
    requires { 0 < modulus }
    ensures { result ≡ sum_by (λ sums. sum_of sums) levels.now % modulus }
{
    let m = u64::from(modulus);
    let mut total = 0u64;
    for sums in levels {
        total = (total + reduced_sum(sums.as_slice(), modulus)) % m;
    }
    total
}

/// The sum of all values of field 0 of all ranks at a step, reduced.
#[tactic(auto, using(crate::proofs::Reduced::mod_step))]
fn reduced_values(rows: &[RankRows], step: usize, modulus: u32) -> u64
    requires { 0 < modulus }
    ensures { result ≡ sum_by (λ q. values_at step q) rows.now % modulus }
{
    let m = u64::from(modulus);
    let mut total = 0u64;
    for q in rows {
        total = (total + reduced_levels(first_sums_of(q, step), modulus)) % m;
    }
    total
}

/// The modulus of field 0.
fn first_modulus(problem: &Problem) -> u32
    ensures value { result ≡ first_modulus problem.now }
    ensures some { 0 < result }
    ensures accepted { IsProblem problem.now }
{
    problem.fields.as_slice()[0].modulus
}

/// The last step at which the mesh is told.
fn last_told(problem: &Problem) -> usize
    ensures { result ≡ last_told problem.now }
{
    if problem.levels > 1 {
        return (problem.steps - problem.steps % problem.regrid) as usize;
    }
    0
}

/// The edges of all ranks, if these are told.
fn edges_told(problem: &Problem, rows: &[RankRows]) -> u64
    requires { CanSum problem.now rows.now }
    ensures { result ≡ edges_told problem.now rows.now }
{
    if is_zero(problem.width) {
        return 0;
    }
    all_edges(rows, last_told(problem))
}

#[tactic(auto, using(crate::proofs::Pieces::three_pieces), unfolding(crate::specs::LoadText::load_line))]
fn put_load_line(out: &mut Vec<u8>, ranks: u16, seed: u32, size: u32) -> Result<(), NoMemory>
    ensures { OnOk result (out.new.items ≡ out.old.items ++ load_line ranks seed size) }
{
    put_count(out, "load ranks", u64::from(ranks))?;
    put_count(out, " seed", u64::from(seed))?;
    put_count_line(out, " size", u64::from(size))?;
    Ok(())
}

#[tactic(auto, using(crate::proofs::Pieces::four_pieces), unfolding(crate::specs::LoadText::final_line))]
fn put_final_line(
    out: &mut Vec<u8>,
    levels: u8,
    boxes: u64,
    cells: u64,
    edges: u64,
) -> Result<(), NoMemory>
    ensures { OnOk result (out.new.items ≡ out.old.items ++ final_line levels boxes cells edges) }
{
    put_count(out, "final levels", u64::from(levels))?;
    put_count(out, " boxes", boxes)?;
    put_count(out, " cells", cells)?;
    put_count_line(out, " edges", edges)?;
    Ok(())
}

#[tactic(auto, unfolding(crate::specs::LoadText::letters_line))]
fn put_letters_line(out: &mut Vec<u8>, letters: u64, values: u64) -> Result<(), NoMemory>
    ensures { OnOk result (out.new.items ≡ out.old.items ++ letters_line letters values) }
{
    put_count(out, "letters", letters)?;
    put_count_line(out, " values", values)?;
    Ok(())
}

/// Appends the line on the last mesh.
fn put_mesh_line(out: &mut Vec<u8>, problem: &Problem, rows: &[RankRows]) -> Result<(), NoMemory>
    requires { CanSum problem.now rows.now }
    ensures { OnOk result (out.new.items ≡ out.old.items
        ++ final_line (level_count (map (λ q. step_told problem.now.steps q) rows.now)) (sum_by (λ q. boxes_at (last_told problem.now) q) rows.now)
        (sum_by (λ q. cells_at (last_told problem.now) q) rows.now) (edges_told problem.now rows.now)) }
{
    let step = last_told(problem);
    let levels = level_count(rows, problem.steps as usize);
    put_final_line(
        out,
        levels,
        all_boxes(rows, step),
        all_cells(rows, step),
        edges_told(problem, rows),
    )?;
    Ok(())
}

/// Appends the line on letters and values.
fn put_sums_line(out: &mut Vec<u8>, problem: &Problem, rows: &[RankRows]) -> Result<(), NoMemory>
    requires { CanSum problem.now rows.now }
    ensures line { OnOk result (out.new.items ≡ out.old.items
        ++ letters_line (sum_by (λ q. q.letters) rows.now) (sum_by (λ q. values_at problem.now.steps q) rows.now % first_modulus problem.now)) }
    ensures accepted { IsProblem problem.now }
{
    let values = reduced_values(rows, problem.steps as usize, first_modulus(problem));
    put_letters_line(out, all_letters(rows), values)?;
    Ok(())
}

/// The three lines that the ranks' rows give.
#[tactic(auto, unfolding(crate::specs::Summaries::summary_by))]
fn summary_by_rows(
    alloc: Global,
    problem: &Problem,
    seed: u32,
    size: u32,
    rows: &[RankRows],
) -> Result<Vec<u8>, NoMemory>
    requires ranks { length rows.now < 2 ^ 16 }
    requires numbers { CanSum problem.now rows.now }
    ensures text { IfOk result (λ text. text.items ≡ summary_by problem.now seed size rows.now) }
    ensures accepted { IfOk result (λ text. IsProblem problem.now) }
{
    let mut out = Vec::new(alloc);
    put_load_line(&mut out, rows.len() as u16, seed, size)?;
    put_mesh_line(&mut out, problem, rows)?;
    put_sums_line(&mut out, problem, rows)?;
    Ok(out)
}

/// The three lines that tell of the last step of a run of the problem that was made with this seed and size.
/// `rows` has what each rank tells, one member per rank in order of rank. Where these are the rows of a run
/// over some meshes, the lines are those of the hierarchy after its last step.
pub fn summary(
    alloc: Global,
    problem: &Problem,
    seed: u32,
    size: u32,
    rows: &[RankRows],
) -> Result<Vec<u8>, NoMemory>
    requires ranks { length rows.now < 2 ^ 16 }
    requires numbers { CanSum problem.now rows.now }
    ensures by_rows { IfOk result (λ text. text.items ≡ summary_by problem.now seed size rows.now) }
    ensures of_a_run { IfOk result (λ text. (ranks : ℕ) (mesh : ℕ → List (List Owned)) (letters : ℕ → ℕ)
        → AreRowsOf problem.now ranks mesh letters rows.now
        → text.items ≡ load_text problem.now seed size ranks (sum_by letters (range_with_len 0 ranks)) (after problem.now ranks mesh problem.now.steps)) }
{
    let text = summary_by_rows(alloc, problem, seed, size, rows)?;
    Ok(text)
}

/// Whether a count is below 2^63.
fn is_small(count: u64) -> bool
    ensures { IsTrue result ↔ (count < 2 ^ 63) }
{
    count < 1 << 63
}

/// Whether the numbers of the last step can be added up: they are below 2^63. Those of a run of an accepted
/// problem are, where its letters are.
pub fn can_sum(problem: &Problem, rows: &[RankRows]) -> bool
    ensures { IsTrue result → CanSum problem.now rows.now }
{
    let step = last_told(problem);
    is_small(all_boxes(rows, step))
        && is_small(all_cells(rows, step))
        && is_small(all_edges(rows, step))
        && is_small(all_letters(rows))
}
