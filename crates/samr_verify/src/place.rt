//! Which line of a report may follow which: where a report stands behind each line.

ghost use Rattle.std.specs.Prelude.{◌≡◌, ◌+◌, ◌==◌, ◌&&◌, nat_lt, nat_le, Some};
ghost use Rattle.samr_report.specs.Report.{is_told};
ghost use Rattle.samr_verify.specs.declared.place.Place.TheVariants.{Stepped, Levelled, Summed, Probed, Ended};
ghost use Rattle.samr_verify.specs.Form.{whole_mesh, whole_step, where_true, begins_step, begins_level, with_box, with_edge, with_row, if_begun, if_some, behind, is_ended, meant};

use crate::line::Line;
use samr_problem::Problem;

/// Where a report stands behind a line: the step of the line, and its level.
#[derive(Clone, Copy, Drop)]
pub(crate) enum Place {
    /// Before the first line.
    Begun,
    /// Behind the first line.
    Headed,
    /// Behind a `step` line.
    Stepped { step: u64 },
    /// Behind a `level` line.
    Levelled { step: u64, level: u64 },
    /// Behind a box of a level.
    Boxed { step: u64, level: u64 },
    /// Behind an edge of a level.
    Edged { step: u64, level: u64 },
    /// Behind a line of a level's schedule.
    Listed { step: u64, level: u64 },
    /// Behind a sum.
    Summed { step: u64 },
    /// Behind a value at a probe.
    Probed { step: u64 },
    /// Behind the last line.
    Ended,
}

/// Whether the mesh is told at a step: at step 0, and where a regrid is due.
fn is_told(problem: &Problem, step: u64) -> bool
    ensures { result ≡ is_told problem.now step }
{
    if step == 0 {
        return true;
    }
    problem.levels > 1 && step % u64::from(problem.regrid) == 0
}

/// Whether a number is the one behind another.
fn follows(number: u64, before: u64) -> bool
    ensures { result ≡ (number == before + 1) }
{
    if number <= before {
        return false;
    }
    number - before == 1
}

/// A place, where a test holds.
fn where_true(test: bool, place: Place) -> Option<Place>
    ensures { result ≡ where_true test place }
{
    if test { Some(place) } else { None }
}

/// The step whose mesh part is whole there, if one is.
fn whole_mesh(problem: &Problem, place: Place) -> Option<u64>
    ensures { result ≡ whole_mesh problem.now place }
{
    match place {
        Place::Stepped { step } => if is_told(problem, step) {
            None
        } else {
            Some(step)
        },
        Place::Boxed { step, .. } => Some(step),
        Place::Edged { step, .. } => Some(step),
        Place::Listed { step, .. } => Some(step),
        Place::Summed { step } => Some(step),
        _ => None,
    }
}

/// The step that is whole there, if one is.
fn whole_step(problem: &Problem, place: Place) -> Option<u64>
    ensures { result ≡ whole_step problem.now place }
{
    match place {
        Place::Probed { step } => Some(step),
        _ => whole_mesh(problem, place),
    }
}

/// The place behind a `step` line that follows a whole step.
fn later_step(problem: &Problem, step: u64, whole: Option<u64>) -> Option<Place>
    ensures { result ≡ if_some whole (λ s. where_true ((step == s + 1) && nat_le step problem.now.steps) (Stepped step)) }
{
    let before = whole?;
    where_true(
        follows(step, before) && step <= u64::from(problem.steps),
        Place::Stepped { step },
    )
}

/// The place behind a `step` line, if it may stand there.
fn begins_step(problem: &Problem, step: u64, place: Place) -> Option<Place>
    ensures { result ≡ begins_step problem.now step place }
{
    match place {
        Place::Headed => where_true(step == 0, Place::Stepped { step }),
        _ => later_step(problem, step, whole_step(problem, place)),
    }
}

/// The place behind the `level` line of the level above one, if there may be so many.
fn next_level(problem: &Problem, level: u64, step: u64, below: u64) -> Option<Place>
    ensures { result ≡ where_true ((level == below + 1) && nat_lt level problem.now.levels) (Levelled step level) }
{
    where_true(
        follows(level, below) && level < u64::from(problem.levels),
        Place::Levelled { step, level },
    )
}

/// The place behind a `level` line, if it may stand there.
fn begins_level(problem: &Problem, level: u64, place: Place) -> Option<Place>
    ensures { result ≡ begins_level problem.now level place }
{
    match place {
        Place::Stepped { step } => where_true(
            is_told(problem, step) && level == 0 && problem.levels > 0,
            Place::Levelled { step, level },
        ),
        Place::Boxed { step, level: below } => next_level(problem, level, step, below),
        Place::Edged { step, level: below } => next_level(problem, level, step, below),
        Place::Listed { step, level: below } => next_level(problem, level, step, below),
        _ => None,
    }
}

/// The place behind a `box` line, if it may stand there.
fn with_box(number: u64, place: Place) -> Option<Place>
    ensures { result ≡ with_box number place }
{
    match place {
        Place::Levelled { step, level } => where_true(
            number == level,
            Place::Boxed { step, level },
        ),
        Place::Boxed { step, level } => where_true(number == level, Place::Boxed { step, level }),
        _ => None,
    }
}

/// The place behind an `edge` line, if it may stand there.
fn with_edge(number: u64, place: Place) -> Option<Place>
    ensures { result ≡ with_edge number place }
{
    match place {
        Place::Boxed { step, level } => where_true(number == level, Place::Edged { step, level }),
        Place::Edged { step, level } => where_true(number == level, Place::Edged { step, level }),
        _ => None,
    }
}

/// The place behind a line of a schedule, if it may stand there.
fn with_row(number: u64, place: Place) -> Option<Place>
    ensures { result ≡ with_row number place }
{
    match place {
        Place::Boxed { step, level } => where_true(number == level, Place::Listed { step, level }),
        Place::Edged { step, level } => where_true(number == level, Place::Listed { step, level }),
        Place::Listed { step, level } => where_true(number == level, Place::Listed { step, level }),
        _ => None,
    }
}

/// The place behind the first line, if it may stand there.
fn if_begun(place: Place) -> Option<Place>
    ensures { result ≡ if_begun place }
{
    match place {
        Place::Begun => Some(Place::Headed),
        _ => None,
    }
}

/// The place behind a `sum` line, if it may stand there.
fn with_sum(problem: &Problem, place: Place) -> Option<Place>
    ensures { result ≡ if_some (whole_mesh problem.now place) (λ t. Some (Summed t)) }
{
    let step = whole_mesh(problem, place)?;
    Some(Place::Summed { step })
}

/// The place behind a `probe` line, if it may stand there.
fn with_probe(problem: &Problem, place: Place) -> Option<Place>
    ensures { result ≡ if_some (whole_step problem.now place) (λ t. Some (Probed t)) }
{
    let step = whole_step(problem, place)?;
    Some(Place::Probed { step })
}

/// The place behind the last line, if it may stand there.
fn with_end(problem: &Problem, place: Place) -> Option<Place>
    ensures { result ≡ if_some (whole_step problem.now place) (λ t. where_true (t == problem.now.steps) Ended) }
{
    let step = whole_step(problem, place)?;
    where_true(step == u64::from(problem.steps), Place::Ended)
}

/// The place behind a line, if it may stand there.
#[tactic(auto, unfolding(crate::specs::Form::behind))]
pub(crate) fn behind(problem: &Problem, place: Place, line: Line) -> Option<Place>
    ensures { result ≡ behind problem.now place line }
{
    match line {
        Line::First { .. } => if_begun(place),
        Line::Step { step } => begins_step(problem, step, place),
        Line::LevelOf { level, .. } => begins_level(problem, level, place),
        Line::BoxOf { level, .. } => with_box(level, place),
        Line::EdgeOf { level, .. } => with_edge(u64::from(level), place),
        Line::RowOf { level, .. } => with_row(level, place),
        Line::SumOf { .. } => with_sum(problem, place),
        Line::ProbeOf { .. } => with_probe(problem, place),
        Line::End => with_end(problem, place),
    }
}

/// The place behind a line of text by what it means, if it has a meaning and may stand there.
pub(crate) fn meant(problem: &Problem, place: Place, line: Option<Line>) -> Option<Place>
    ensures { result ≡ meant problem.now place line }
{
    match line {
        Some(told) => behind(problem, place, told),
        None => None,
    }
}

/// Whether a place is the end.
pub(crate) fn is_ended(place: Place) -> bool
    ensures { result ≡ is_ended place }
{
    match place {
        Place::Ended => true,
        _ => false,
    }
}
