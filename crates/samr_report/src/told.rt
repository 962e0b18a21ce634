//! What a rank tells of a step and of a level, and nothing where it does not tell of it.

ghost use Rattle.std.specs.Prelude.{◌≡◌, [], None, get_or, map, unwrap_or};
ghost use Rattle.std.specs.Option.{option_copied};
ghost use Rattle.samr_report.specs.RankRows.{no_level_rows, no_step_rows, step_told, level_told, level_count};

use crate::rows::{BoxSum, LevelRows, RankRows, StepRows};
use samr_box::Listed;
use samr_level::{BoxRef, Edge};
use samr_sched::Row;

/// A rank's rows of a step.
fn step_of(q: &RankRows, step: usize) -> Option<&StepRows>
    ensures { unwrap_or (option_copied result) no_step_rows ≡ step_told step q.now }
{
    q.steps.as_slice().get(step)
}

/// A rank's rows of a level at a step.
fn level_of(q: &RankRows, step: usize, level: u8) -> Option<&LevelRows>
    ensures { unwrap_or (option_copied result) no_level_rows ≡ level_told step level q.now }
{
    match step_of(q, step) {
        Some(rows) => rows.mesh.as_slice().get(usize::from(level)),
        None => None,
    }
}

/// A rank's boxes of a level.
pub fn boxes_of(q: &RankRows, step: usize, level: u8) -> &[BoxRef]
    ensures { result.now ≡ (level_told step level q.now).boxes }
{
    match level_of(q, step, level) {
        Some(rows) => rows.boxes.as_slice(),
        None => &[],
    }
}

/// Their edges to the level.
pub fn selves_of(q: &RankRows, step: usize, level: u8) -> &[Edge]
    ensures { result.now ≡ (level_told step level q.now).selves }
{
    match level_of(q, step, level) {
        Some(rows) => rows.selves.as_slice(),
        None => &[],
    }
}

/// Their edges to the level below.
pub fn downs_of(q: &RankRows, step: usize, level: u8) -> &[Edge]
    ensures { result.now ≡ (level_told step level q.now).downs }
{
    match level_of(q, step, level) {
        Some(rows) => rows.downs.as_slice(),
        None => &[],
    }
}

/// Their edges to the level above.
pub fn ups_of(q: &RankRows, step: usize, level: u8) -> &[Edge]
    ensures { result.now ≡ (level_told step level q.now).ups }
{
    match level_of(q, step, level) {
        Some(rows) => rows.ups.as_slice(),
        None => &[],
    }
}

/// The rows of their schedule.
pub fn rows_of(q: &RankRows, step: usize, level: u8) -> &[Row]
    ensures { result.now ≡ (level_told step level q.now).rows }
{
    match level_of(q, step, level) {
        Some(rows) => rows.rows.as_slice(),
        None => &[],
    }
}

/// The sums of a field on a level in a rank's rows of a step.
fn sums_in(rows: &StepRows, field: u8, level: u8) -> &[BoxSum]
    ensures { result.now ≡ get_or (get_or rows.now.sums field []) level [] }
{
    match rows.sums.as_slice().get(usize::from(field)) {
        Some(levels) => match levels.as_slice().get(usize::from(level)) {
            Some(sums) => sums.as_slice(),
            None => &[],
        },
        None => &[],
    }
}

/// A rank's sums of a field on a level.
pub fn sums_of(q: &RankRows, step: usize, field: u8, level: u8) -> &[BoxSum]
    ensures { result.now ≡ get_or (get_or (step_told step q.now).sums field []) level [] }
{
    match step_of(q, step) {
        Some(rows) => sums_in(rows, field, level),
        None => &[],
    }
}

/// What stands at a probe of a field in a rank's rows of a step.
fn probe_in(rows: &StepRows, field: u8, number: usize) -> Option<u32>
    ensures { result ≡ get_or (get_or rows.now.probes field []) number None }
{
    match rows.probes.as_slice().get(usize::from(field)) {
        Some(values) => match values.as_slice().get(number) {
            Some(value) => *value,
            None => None,
        },
        None => None,
    }
}

/// What a rank has at a probe of a field.
pub fn probe_of(q: &RankRows, step: usize, field: u8, number: usize) -> Option<u32>
    ensures { result ≡ get_or (get_or (step_told step q.now).probes field []) number None }
{
    match step_of(q, step) {
        Some(rows) => probe_in(rows, field, number),
        None => None,
    }
}

/// How many levels a rank tells of at a step.
fn levels_of(q: &RankRows, step: usize) -> u8
    ensures { result ≡ (step_told step q.now).levels }
{
    match step_of(q, step) {
        Some(rows) => rows.levels,
        None => 0,
    }
}

/// How many levels a step has, by the rows of all ranks.
pub fn level_count(rows: &[RankRows], step: usize) -> u8
    ensures { result ≡ level_count (map (λ q. step_told step q) rows.now) }
{
    match rows.first() {
        Some(q) => levels_of(q, step),
        None => 0,
    }
}

/// A rank's rows of all levels at a step.
pub fn mesh_of(q: &RankRows, step: usize) -> &[LevelRows]
    ensures { result.now ≡ (step_told step q.now).mesh }
{
    match step_of(q, step) {
        Some(rows) => rows.mesh.as_slice(),
        None => &[],
    }
}

/// The sums of field 0 in a rank's rows of a step, level by level.
fn first_sums_in(rows: &StepRows) -> &[Listed<BoxSum>]
    ensures { result.now ≡ get_or rows.now.sums 0 [] }
{
    match rows.sums.as_slice().first() {
        Some(levels) => levels.as_slice(),
        None => &[],
    }
}

/// A rank's sums of field 0, level by level.
pub fn first_sums_of(q: &RankRows, step: usize) -> &[Listed<BoxSum>]
    ensures { result.now ≡ get_or (step_told step q.now).sums 0 [] }
{
    match step_of(q, step) {
        Some(rows) => first_sums_in(rows),
        None => &[],
    }
}
