//! What a line of text means.

ghost use Rattle.std.specs.Prelude.{◌≡◌, ℕ, pos, Some, None, [], ◌∷◌, IfSome, codes};
ghost use Rattle.samr_level.specs.Refs.{Owned, Link, link};
ghost use Rattle.samr_verify.specs.declared.line.Line.TheVariants.{First, Step, LevelOf, BoxOf, EdgeOf, RowOf, SumOf, ProbeOf, End};
ghost use Rattle.samr_verify.specs.declared.line.PrintedRow.TheVariants.{FromLevel, FromBelow, FromOutside};
ghost use Rattle.samr_verify.specs.ReportLines.{IsMeaning};
ghost use Rattle.samr_verify.specs.Reading.{Tells, first_part, step_part, level_part, box_part, edge_part, joined_part, counted_part, probe_part, silent_part, end_part};

use crate::line::{Line, PrintedRow};
use crate::reading::{
    box_first, count_behind, count_first, headed_first, joined_first, level_behind, level_first,
    width_behind,
};
use crate::words::behind;
use samr_box::Shift;
use samr_level::{BoxRef, Edge};

/// A line, if only its line feed is left of it.
fn ended(rest: &[u8], line: Line) -> Option<Line>
    ensures some { IfSome result (λ l. (rest.now ≡ 10 ∷ []) × (l ≡ line)) }
    ensures each { rest.now ≡ 10 ∷ [] → result ≡ Some line }
{
    if rest == b"\n".as_slice() {
        Some(line)
    } else {
        None
    }
}

/// The edge of two boxes and a shift.
fn edge_of(base: BoxRef, head: BoxRef, shift: Shift) -> Edge
    ensures { result ≡ link base head shift }
{
    Edge { base, head, shift }
}

/// What a first line means.
fn first_line(text: &[u8]) -> Option<Line>
    ensures { Tells first_part (λ x. First x.0 x.1.0 x.1.1) text.now result }
{
    let ranks = count_behind(text, b"samr ranks")?;
    let levels = count_behind(ranks.1, b" levels")?;
    let width = width_behind(levels.1, b" width")?;
    ended(
        width.1,
        Line::First {
            ranks: ranks.0,
            levels: levels.0,
            width: width.0,
        },
    )
}

/// What a `step` line means.
fn step_line(text: &[u8]) -> Option<Line>
    ensures { Tells step_part (λ x. Step x) text.now result }
{
    let step = count_behind(text, b"step")?;
    ended(step.1, Line::Step { step: step.0 })
}

/// What a `level` line means.
fn level_line(text: &[u8]) -> Option<Line>
    ensures { Tells level_part (λ x. LevelOf x.0 x.1.0 x.1.1) text.now result }
{
    let level = count_behind(text, b"level")?;
    let boxes = count_behind(level.1, b" boxes")?;
    let cells = count_behind(boxes.1, b" cells")?;
    ended(
        cells.1,
        Line::LevelOf {
            level: level.0,
            boxes: boxes.0,
            cells: cells.0,
        },
    )
}

/// What a `box` line means.
fn box_line(text: &[u8]) -> Option<Line>
    ensures { Tells box_part (λ x. BoxOf x.0 x.1) text.now result }
{
    let level = count_behind(text, b"box")?;
    let Some(at) = box_first(level.1) else {
        return None;
    };
    ended(
        at.1,
        Line::BoxOf {
            level: level.0,
            at: at.0,
        },
    )
}

/// What an `edge` line means, of a report with at most so many levels.
fn edge_line(text: &[u8], most: u8) -> Option<Line>
    ensures { Tells (edge_part most) (λ x. EdgeOf x.0 x.1.0 (link x.1.1.0 x.1.1.1.0 x.1.1.1.1)) text.now result }
{
    let level = level_behind(text, b"edge", most)?;
    let to_level = level_first(level.1, most)?;
    let Some(ends) = joined_first(to_level.1) else {
        return None;
    };
    ended(
        ends.3,
        Line::EdgeOf {
            level: level.0,
            to_level: to_level.0,
            edge: edge_of(ends.0, ends.1, ends.2),
        },
    )
}

/// What a `copy` line means.
fn copy_line(text: &[u8]) -> Option<Line>
    ensures { Tells (joined_part (codes "copy")) (λ x. RowOf x.0.1 (FromLevel x.0.0 x.1.0.0 x.1.0.1.0 x.1.0.1.1 x.1.1)) text.now result }
{
    let heading = headed_first(text, b"copy")?;
    let Some(ends) = joined_first(heading.1) else {
        return None;
    };
    let cells = count_first(ends.3)?;
    let origin = PrintedRow::FromLevel {
        field: heading.0.0,
        base: ends.0,
        head: ends.1,
        shift: ends.2,
        cells: cells.0,
    };
    ended(
        cells.1,
        Line::RowOf {
            level: heading.0.1,
            origin,
        },
    )
}

/// What a `coarse` line means.
fn coarse_line(text: &[u8]) -> Option<Line>
    ensures { Tells (joined_part (codes "coarse")) (λ x. RowOf x.0.1 (FromBelow x.0.0 x.1.0.0 x.1.0.1.0 x.1.0.1.1 x.1.1)) text.now result }
{
    let heading = headed_first(text, b"coarse")?;
    let Some(ends) = joined_first(heading.1) else {
        return None;
    };
    let cells = count_first(ends.3)?;
    let origin = PrintedRow::FromBelow {
        field: heading.0.0,
        base: ends.0,
        head: ends.1,
        shift: ends.2,
        cells: cells.0,
    };
    ended(
        cells.1,
        Line::RowOf {
            level: heading.0.1,
            origin,
        },
    )
}

/// What an `outside` line means.
fn outside_line(text: &[u8]) -> Option<Line>
    ensures { Tells (counted_part (codes "outside")) (λ x. RowOf x.0.1 (FromOutside x.0.0 x.1.0 x.1.1)) text.now result }
{
    let heading = headed_first(text, b"outside")?;
    let Some(base) = box_first(heading.1) else {
        return None;
    };
    let cells = count_first(base.1)?;
    let origin = PrintedRow::FromOutside {
        field: heading.0.0,
        base: base.0,
        cells: cells.0,
    };
    ended(
        cells.1,
        Line::RowOf {
            level: heading.0.1,
            origin,
        },
    )
}

/// What a `sum` line means.
fn sum_line(text: &[u8]) -> Option<Line>
    ensures { Tells (counted_part (codes "sum")) (λ x. SumOf x.0.0 x.0.1 x.1.0 x.1.1) text.now result }
{
    let heading = headed_first(text, b"sum")?;
    let Some(base) = box_first(heading.1) else {
        return None;
    };
    let sum = count_first(base.1)?;
    ended(
        sum.1,
        Line::SumOf {
            field: heading.0.0,
            level: heading.0.1,
            base: base.0,
            sum: sum.0,
        },
    )
}

/// What a `probe` line with a value means.
fn probe_line(text: &[u8]) -> Option<Line>
    ensures { Tells probe_part (λ x. ProbeOf x.0.0 x.0.1 (Some x.1)) text.now result }
{
    let heading = headed_first(text, b"probe")?;
    let value = count_first(heading.1)?;
    ended(
        value.1,
        Line::ProbeOf {
            field: heading.0.0,
            probe: heading.0.1,
            value: Some(value.0),
        },
    )
}

/// What a `probe` line without a value means.
fn silent_line(text: &[u8]) -> Option<Line>
    ensures { Tells silent_part (λ x. ProbeOf x.0.0 x.0.1 None) text.now result }
{
    let heading = headed_first(text, b"probe")?;
    let rest = behind(heading.1, b" none")?;
    ended(
        rest,
        Line::ProbeOf {
            field: heading.0.0,
            probe: heading.0.1,
            value: None,
        },
    )
}

/// What a last line means.
fn end_line(text: &[u8]) -> Option<Line>
    ensures { Tells end_part (λ x. End) text.now result }
{
    if text == b"end\n".as_slice() {
        Some(Line::End)
    } else {
        None
    }
}

/// What a line of text means, if it is one of a report with at most so many levels.
pub(crate) fn meaning(text: &[u8], most: u8) -> Option<Line>
    ensures { IsMeaning most text.now result }
{
    if let Some(line) = box_line(text) {
        return Some(line);
    }
    if let Some(line) = edge_line(text, most) {
        return Some(line);
    }
    if let Some(line) = level_line(text) {
        return Some(line);
    }
    if let Some(line) = step_line(text) {
        return Some(line);
    }
    if let Some(line) = first_line(text) {
        return Some(line);
    }
    if let Some(line) = copy_line(text) {
        return Some(line);
    }
    if let Some(line) = coarse_line(text) {
        return Some(line);
    }
    if let Some(line) = outside_line(text) {
        return Some(line);
    }
    if let Some(line) = sum_line(text) {
        return Some(line);
    }
    if let Some(line) = probe_line(text) {
        return Some(line);
    }
    if let Some(line) = silent_line(text) {
        return Some(line);
    }
    end_line(text)
}
