//! The lines of a schedule, of sums and of probes.

ghost use Rattle.std.specs.Prelude.{◌≡◌, ◌++◌, ◌∷◌, [], pos, OnOk, codes};
ghost use Rattle.std.specs.List.{flat_map};
ghost use Rattle.samr_report.specs.Lines.{part, line};
ghost use Rattle.samr_report.specs.LevelLines.{box_numbers};
ghost use Rattle.samr_report.specs.ScheduleLines.{headed, shift_numbers, row_line};
ghost use Rattle.samr_report.specs.RankRows.{sum_line_by, told_value, probe_line_by};

use crate::level_lines::box_numbers;
use crate::lines::{put_count, put_count_line, put_line, put_part};
use crate::rows::BoxSum;
use samr_box::Shift;
use samr_level::BoxRef;
use samr_sched::Row;
use std::alloc::AllocError as NoMemory;

/// Appends a word with a number behind it, for field 0 the plain word, for others the marked one with the field's number before.
#[tactic(auto, using(crate::proofs::Pieces::two_numbers), unfolding(crate::specs::ScheduleLines::headed))]
fn put_headed(
    out: &mut Vec<u8>,
    field: u8,
    plain: &str,
    marked: &str,
    number: u64,
) -> Result<(), NoMemory>
    requires { marked.now ≡ 102 ∷ plain.now }
    ensures { OnOk result (out.new.items ≡ out.old.items ++ headed field plain.now number) }
{
    if field == 0 {
        return put_count(out, plain, number);
    }
    put_count(out, marked, u64::from(field))?;
    put_count(out, "", number)?;
    Ok(())
}

/// Appends a box, a blank before each number.
fn put_box(out: &mut Vec<u8>, b: BoxRef) -> Result<(), NoMemory>
    ensures { OnOk result (out.new.items ≡ out.old.items ++ part [] (box_numbers b)) }
{
    put_part(out, "", &box_numbers(b))?;
    Ok(())
}

/// Appends a shift.
#[tactic(auto, unfolding(crate::specs::ScheduleLines::shift_numbers))]
fn put_shift(out: &mut Vec<u8>, shift: Shift) -> Result<(), NoMemory>
    ensures { OnOk result (out.new.items ≡ out.old.items ++ part [] (shift_numbers shift)) }
{
    let s = shift.lengths();
    put_part(out, "", &[s.i, s.j, s.k])?;
    Ok(())
}

/// Appends what follows the first number of a row of two boxes.
fn put_origin(
    out: &mut Vec<u8>,
    base: BoxRef,
    head: BoxRef,
    shift: Shift,
    cells: u64,
) -> Result<(), NoMemory>
    ensures { OnOk result (out.new.items ≡ out.old.items ++ (part [] (box_numbers base) ++ (part [] (box_numbers head) ++ (part [] (shift_numbers shift) ++ line [] (pos cells ∷ []))))) }
{
    put_box(out, base)?;
    put_box(out, head)?;
    put_shift(out, shift)?;
    put_count_line(out, "", cells)?;
    Ok(())
}

/// Appends what follows the first number of a row of one box.
fn put_total(out: &mut Vec<u8>, base: BoxRef, cells: u64) -> Result<(), NoMemory>
    ensures { OnOk result (out.new.items ≡ out.old.items ++ (part [] (box_numbers base) ++ line [] (pos cells ∷ []))) }
{
    put_box(out, base)?;
    put_count_line(out, "", cells)?;
    Ok(())
}

/// Appends the sum of a box's values.
#[tactic(auto, unfolding(crate::specs::RankRows::sum_line_by))]
fn put_sum(out: &mut Vec<u8>, field: u8, number: u8, s: BoxSum) -> Result<(), NoMemory>
    ensures { OnOk result (out.new.items ≡ out.old.items ++ sum_line_by field number s) }
{
    put_headed(out, field, "sum", "fsum", u64::from(number))?;
    put_total(out, s.base, s.sum)?;
    Ok(())
}

/// Appends some sums.
pub fn put_sums(out: &mut Vec<u8>, field: u8, number: u8, sums: &[BoxSum]) -> Result<(), NoMemory>
    ensures { OnOk result (out.new.items ≡ out.old.items ++ flat_map (λ s. sum_line_by field number s) sums.now) }
{
    for s in sums {
        put_sum(out, field, number, *s)?;
    }
    Ok(())
}

/// Appends what stands at a probe.
#[tactic(auto, unfolding(crate::specs::RankRows::probe_line_by))]
pub fn put_probe(
    out: &mut Vec<u8>,
    field: u8,
    number: usize,
    value: Option<u32>,
) -> Result<(), NoMemory>
    ensures { OnOk result (out.new.items ≡ out.old.items ++ probe_line_by field number value) }
{
    put_headed(out, field, "probe", "fprobe", number as u64)?;
    put_told(out, value)?;
    Ok(())
}

/// Appends a value, or the word for none.
fn put_told(out: &mut Vec<u8>, value: Option<u32>) -> Result<(), NoMemory>
    ensures { OnOk result (out.new.items ≡ out.old.items ++ told_value value) }
{
    match value {
        Some(v) => put_count_line(out, "", u64::from(v)),
        None => put_line(out, " none", &[]),
    }
}

/// Appends a row of a level.
#[tactic(auto, unfolding(crate::specs::ScheduleLines::row_line))]
fn put_row(out: &mut Vec<u8>, number: u8, row: Row) -> Result<(), NoMemory>
    ensures { OnOk result (out.new.items ≡ out.old.items ++ row_line number row) }
{
    match row {
        Row::Copy {
            field,
            base,
            head,
            shift,
            cells,
        } => {
            put_headed(out, field, "copy", "fcopy", u64::from(number))?;
            put_origin(out, base, head, shift, cells)
        }
        Row::Coarse {
            field,
            base,
            head,
            shift,
            cells,
        } => {
            put_headed(out, field, "coarse", "fcoarse", u64::from(number))?;
            put_origin(out, base, head, shift, cells)
        }
        Row::Outside { field, base, cells } => {
            put_headed(out, field, "outside", "foutside", u64::from(number))?;
            put_total(out, base, cells)
        }
    }
}

/// Appends the rows of a level.
pub fn put_rows(out: &mut Vec<u8>, number: u8, rows: &[Row]) -> Result<(), NoMemory>
    ensures { OnOk result (out.new.items ≡ out.old.items ++ flat_map (λ row. row_line number row) rows.now) }
{
    for row in rows {
        put_row(out, number, *row)?;
    }
    Ok(())
}
