//! The text of a level, from what all ranks tell of it.

ghost use Rattle.std.specs.Prelude.{◌≡◌, ◌++◌, ◌∷◌, [], ◌+◌, ◌-◌, ◌<◌, ◌^◌, pos, OnOk, sum_by, length, map, codes, if◌then◌else◌};
ghost use Rattle.std.specs.List.{flat_map};
ghost use Rattle.samr_box.specs.Corners.{cells_of};
ghost use Rattle.samr_report.specs.Lines.{part, line};
ghost use Rattle.samr_report.specs.LevelLines.{box_line, edge_lines};
ghost use Rattle.samr_report.specs.ScheduleLines.{row_line};
ghost use Rattle.samr_report.specs.RankRows.{level_told, level_text_by};
ghost use Rattle.samr_report.specs.Bounds.{AreCountable};

use crate::level_lines::{cells_of_level, put_boxes, put_edges};
use crate::lines::{put_count, put_count_line};
use crate::row_lines::put_rows;
use crate::rows::RankRows;
use crate::told::{boxes_of, downs_of, rows_of, selves_of, ups_of};
use std::alloc::AllocError as NoMemory;

/// How many boxes of a level all ranks have.
fn count_boxes(rows: &[RankRows], step: usize, level: u8) -> u64
    requires { sum_by (λ q. length (level_told step level q).boxes) rows.now < 2 ^ 63 }
    ensures { result ≡ sum_by (λ q. length (level_told step level q).boxes) rows.now }
{
    let mut total = 0u64;
    for q in rows {
        total += boxes_of(q, step, level).len() as u64;
    }
    total
}

/// How many cells these have.
fn count_cells(rows: &[RankRows], step: usize, level: u8) -> u64
    requires { sum_by (λ q. sum_by (λ b. cells_of b.bx) (level_told step level q).boxes) rows.now < 2 ^ 63 }
    ensures { result ≡ sum_by (λ q. sum_by (λ b. cells_of b.bx) (level_told step level q).boxes) rows.now }
{
    let mut total = 0u64;
    for q in rows {
        total += cells_of_level(boxes_of(q, step, level));
    }
    total
}

/// Appends the boxes of all ranks.
fn put_all_boxes(
    out: &mut Vec<u8>,
    rows: &[RankRows],
    step: usize,
    level: u8,
) -> Result<(), NoMemory>
    ensures { OnOk result (out.new.items ≡ out.old.items ++ flat_map (λ q. flat_map (λ b. box_line level b) q.boxes) (map (λ q. level_told step level q) rows.now)) }
{
    for q in rows {
        put_boxes(out, level, boxes_of(q, step, level))?;
    }
    Ok(())
}

/// Appends the edges of all ranks to the level.
fn put_all_selves(
    out: &mut Vec<u8>,
    rows: &[RankRows],
    step: usize,
    level: u8,
) -> Result<(), NoMemory>
    ensures { OnOk result (out.new.items ≡ out.old.items ++ flat_map (λ q. edge_lines level level q.selves) (map (λ q. level_told step level q) rows.now)) }
{
    for q in rows {
        put_edges(out, level, level, selves_of(q, step, level))?;
    }
    Ok(())
}

/// Appends their edges to the level below.
fn put_all_downs(
    out: &mut Vec<u8>,
    rows: &[RankRows],
    step: usize,
    level: u8,
    below: u8,
) -> Result<(), NoMemory>
    ensures { OnOk result (out.new.items ≡ out.old.items ++ flat_map (λ q. edge_lines level below q.downs) (map (λ q. level_told step level q) rows.now)) }
{
    for q in rows {
        put_edges(out, level, below, downs_of(q, step, level))?;
    }
    Ok(())
}

/// Appends their edges to the level above.
fn put_all_ups(
    out: &mut Vec<u8>,
    rows: &[RankRows],
    step: usize,
    level: u8,
    above: u8,
) -> Result<(), NoMemory>
    ensures { OnOk result (out.new.items ≡ out.old.items ++ flat_map (λ q. edge_lines level above q.ups) (map (λ q. level_told step level q) rows.now)) }
{
    for q in rows {
        put_edges(out, level, above, ups_of(q, step, level))?;
    }
    Ok(())
}

/// Appends the schedule rows of all ranks.
fn put_all_rows(
    out: &mut Vec<u8>,
    rows: &[RankRows],
    step: usize,
    level: u8,
) -> Result<(), NoMemory>
    ensures { OnOk result (out.new.items ≡ out.old.items ++ flat_map (λ q. flat_map (λ row. row_line level row) q.rows) (map (λ q. level_told step level q) rows.now)) }
{
    for q in rows {
        put_rows(out, level, rows_of(q, step, level))?;
    }
    Ok(())
}

/// Appends the line on how many boxes and cells there are.
fn put_counts(out: &mut Vec<u8>, rows: &[RankRows], step: usize, level: u8) -> Result<(), NoMemory>
    requires { AreCountable rows.now }
    ensures { OnOk result (out.new.items ≡ out.old.items ++ (part (codes "level") (pos level ∷ [])
        ++ part (codes " boxes") (pos (sum_by (λ q. length q.boxes) (map (λ q. level_told step level q) rows.now)) ∷ [])
        ++ line (codes " cells") (pos (sum_by (λ q. sum_by (λ b. cells_of b.bx) q.boxes) (map (λ q. level_told step level q) rows.now)) ∷ []))) }
{
    put_count(out, "level", u64::from(level))?;
    put_count(out, " boxes", count_boxes(rows, step, level))?;
    put_count_line(out, " cells", count_cells(rows, step, level))?;
    Ok(())
}

/// Appends the edges of all ranks to the level, unless these are silent.
fn put_selves_unless(
    out: &mut Vec<u8>,
    silent: bool,
    rows: &[RankRows],
    step: usize,
    level: u8,
) -> Result<(), NoMemory>
    ensures { OnOk result (out.new.items ≡ out.old.items ++ (if silent then [] else flat_map (λ q. edge_lines level level q.selves) (map (λ q. level_told step level q) rows.now))) }
{
    if silent {
        return Ok(());
    }
    put_all_selves(out, rows, step, level)
}

/// Appends their edges to the level below, unless these are silent.
fn put_downs_unless(
    out: &mut Vec<u8>,
    silent: bool,
    rows: &[RankRows],
    step: usize,
    level: u8,
) -> Result<(), NoMemory>
    ensures { OnOk result (out.new.items ≡ out.old.items ++ (if silent then [] else flat_map (λ q. edge_lines level (level - 1) q.downs) (map (λ q. level_told step level q) rows.now))) }
{
    if silent {
        return Ok(());
    }
    put_all_downs(out, rows, step, level, level.saturating_sub(1))
}

/// Appends their edges to the level above, unless these are silent.
fn put_ups_unless(
    out: &mut Vec<u8>,
    silent: bool,
    rows: &[RankRows],
    step: usize,
    level: u8,
) -> Result<(), NoMemory>
    requires { level < 255 }
    ensures { OnOk result (out.new.items ≡ out.old.items ++ (if silent then [] else flat_map (λ q. edge_lines level (level + 1) q.ups) (map (λ q. level_told step level q) rows.now))) }
{
    if silent {
        return Ok(());
    }
    put_all_ups(out, rows, step, level, level + 1)
}

/// Appends the text of a level at a step; without its edges where these are silent.
#[tactic(auto, using(crate::proofs::Pieces::six_pieces), unfolding(crate::specs::RankRows::level_text_by))]
pub fn put_level(
    out: &mut Vec<u8>,
    silent: bool,
    rows: &[RankRows],
    step: usize,
    level: u8,
) -> Result<(), NoMemory>
    requires few { level < 255 }
    requires cells { AreCountable rows.now }
    ensures { OnOk result (out.new.items ≡ out.old.items ++ level_text_by silent level (map (λ q. level_told step level q) rows.now)) }
{
    put_counts(out, rows, step, level)?;
    put_all_boxes(out, rows, step, level)?;
    put_selves_unless(out, silent, rows, step, level)?;
    put_downs_unless(out, silent, rows, step, level)?;
    put_ups_unless(out, silent, rows, step, level)?;
    put_all_rows(out, rows, step, level)?;
    Ok(())
}
