//! Verdicts on whole texts: a report, and the same with one line or one number changed.

use samr_problem::{Problem, read_problem};
use samr_verify::{Verdict, verify_text};
use std::alloc::Global;
use std::test::Fail;

/// Four cells on one rank, one step after the first, and the report of it.
const FOUR_CELLS: &str =
    "format = 1\ndim = 2\ndomain = [2, 2]\nperiodic = [false, false]\nblock = [4, 4]\nghost = [1, 1]\nboundary = [9, \"reflect\"]\nmodulus = 1000\ninit = [1, 1, 10]\nupdate = [1, 1]\nsteps = 1\nprobe = [[0, 0, 0]]\n";

const FOUR_CELLS_TOLD: &str =
    "samr ranks 1 levels 1 width 1 1 0\nstep 0\nlevel 0 boxes 1 cells 4\nbox 0 0 0 0 0 1 1 0\nedge 0 0 0 0 0 0 1 1 0 0 0 0 0 1 1 0 0 0 0\noutside 0 0 0 0 0 1 1 0 12\nsum 0 0 0 0 0 1 1 0 26\nprobe 0 1\nstep 1\nsum 0 0 0 0 0 1 1 0 140\nprobe 0 24\nend\n";

/// What is answered where one of its numbers is greater by one, line by line: kind and line of the fault, or `ok`.
const EACH_RAISED: &str =
    "ok 2.1 2.1 2.1 2.1\n1.2\n1.3 4.3 4.3\n1.4 3.4 4.3 4.3 1.4 4.3 4.3 4.3\n1.5 1.5 6.5 6.5 6.5 1.5 6.5 6.5 6.5 6.5 6.5 6.5 1.5 6.5 6.5 6.5 6.5 6.5 6.5\n1.6 ok ok ok 1.6 ok ok ok ok\nok ok ok ok 1.7 ok ok ok ok\nok ok\n1.9\nok ok ok ok 1.10 ok ok ok ok\nok ok\n\n";

/// Two levels on two ranks, and the report of them.
const TWO_LEVELS: &str =
    "format = 1\ndim = 2\ndomain = [8, 8]\nperiodic = [false, false]\nblock = [8, 8]\nghost = [1, 1]\nlevels = 2\nnest = [1, 1]\nsmallest = 1\nmodulus = 3000\ninit = [0, 1, 8]\n[[box]]\nlo = [6, 6]\nsize = [4, 4]\n";

const TWO_LEVELS_TOLD: &str =
    "samr ranks 2 levels 2 width 1 1 0\nstep 0\nlevel 0 boxes 1 cells 64\nbox 0 0 0 0 0 7 7 0\nedge 0 0 0 0 0 0 7 7 0 0 0 0 0 7 7 0 0 0 0\nedge 0 1 0 0 0 0 7 7 0 0 8 6 0 9 9 0 0 0 0\nedge 0 1 0 0 0 0 7 7 0 1 6 6 0 7 9 0 0 0 0\noutside 0 0 0 0 0 7 7 0 36\nlevel 1 boxes 2 cells 16\nbox 1 0 8 6 0 9 9 0\nbox 1 1 6 6 0 7 9 0\nedge 1 1 0 8 6 0 9 9 0 0 8 6 0 9 9 0 0 0 0\nedge 1 1 0 8 6 0 9 9 0 1 6 6 0 7 9 0 0 0 0\nedge 1 1 1 6 6 0 7 9 0 0 8 6 0 9 9 0 0 0 0\nedge 1 1 1 6 6 0 7 9 0 1 6 6 0 7 9 0 0 0 0\nedge 1 0 0 8 6 0 9 9 0 0 0 0 0 7 7 0 0 0 0\nedge 1 0 1 6 6 0 7 9 0 0 0 0 0 7 7 0 0 0 0\ncopy 1 0 8 6 0 9 9 0 1 6 6 0 7 9 0 0 0 0 4\ncoarse 1 0 8 6 0 9 9 0 0 0 0 0 7 7 0 0 0 0 12\ncopy 1 1 6 6 0 7 9 0 0 8 6 0 9 9 0 0 0 0 4\ncoarse 1 1 6 6 0 7 9 0 0 0 0 0 7 7 0 0 0 0 12\nsum 0 0 0 0 0 7 7 0 2016\nsum 1 0 8 6 0 9 9 0 256\nsum 1 1 6 6 0 7 9 0 248\nend\n";

/// What is answered where a line of it is another: the number of the line, the line, and the answer.
const LINES_CHANGED: &str =
    "1|samr ranks 2 levels 1 width 1 1 0|2.1\n1|samr ranks 17 levels 2 width 1 1 0|2.1\n1|samr ranks 02 levels 2 width 1 1 0|1.1\n2|step 1|1.2\n4|box 0 1 0 0 0 7 7 0|3.4\n4|box 0 0 0 0 0 7 8 0|4.3\n5|edge 0 0 0 0 0 0 7 7 0 0 0 0 0 7 7 0 1 0 0|6.5\n5|edge 0 0 0 0 0 0 7 7 0 0 0 0 0 7 7 0 2 0 0|1.5\n6|edge 0 2 0 0 0 0 7 7 0 0 8 6 0 9 9 0 0 0 0|1.6\n8|fcoarse 0 0 0 0 0 0 7 7 0 36|1.8\n8|foutside 0 0 0 0 0 0 7 7 0 36|1.8\n8|foutside 1 0 0 0 0 0 7 7 0 36|ok\n9|level 1 boxes 3 cells 16|4.9\n9|level 1 boxes 2 cells 17|4.9\n10|box 1 0 8 6 0 15 9 0|6.6\n10|box 1 0 1073741823 6 0 1073741824 9 0|1.10\n10|box 1 65536 8 6 0 9 9 0|1.10\n10|box 1 0 9 6 0 8 9 0|1.10\n22|sum 0 0 0 0 0 7 7 0 -1|1.22\n22|sum 0 0 0 0 0 7 7 0 1|ok\n25|end |1.25\n";

/// The answer to a text, in short.
fn answer(alloc: Global, problem: &Problem, text: &str) -> Result<String, Fail> {
    match verify_text(alloc, problem, text.as_bytes())? {
        Verdict::Sound { .. } => Ok("ok".to_string(alloc)?),
        Verdict::Fault { kind, line } => Ok(format!(in alloc; "{kind}.{line}")?),
    }
}

/// A text with another line at a place.
fn with_line(alloc: Global, text: &str, place: usize, line: &str) -> Result<String, Fail> {
    let mut changed = String::new(alloc);
    for (i, old) in text.lines().enumerate() {
        changed.push_str(if i == place { line } else { old })?;
        changed.push('\n')?;
    }
    Ok(changed)
}

/// A line with another word at a place.
fn with_word(alloc: Global, line: &str, place: usize, word: &str) -> Result<String, Fail> {
    let mut changed = String::new(alloc);
    for (i, old) in line.split(' ').enumerate() {
        if i > 0 {
            changed.push(' ')?;
        }
        changed.push_str(if i == place { word } else { old })?;
    }
    Ok(changed)
}

/// The answers to a text where one number of one line is greater by one, number by number.
fn answers_to_line(
    alloc: Global,
    problem: &Problem,
    text: &str,
    place: usize,
    line: &str,
) -> Result<String, Fail> {
    let mut answers = String::new(alloc);
    for (i, word) in line.split(' ').enumerate() {
        let Ok(number) = word.parse::<u32>() else {
            continue;
        };
        let raised = format!(in alloc; "{}", u64::from(number) + 1)?;
        let other = with_word(alloc, line, i, raised.as_str())?;
        let changed = with_line(alloc, text, place, other.as_str())?;
        if !answers.is_empty() {
            answers.push(' ')?;
        }
        answers.push_str(answer(alloc, problem, changed.as_str())?.as_str())?;
    }
    answers.push('\n')?;
    Ok(answers)
}

/// The answers to a text where one of its numbers is greater by one, line by line.
fn answers_to_each(alloc: Global, problem: &str, text: &str) -> Result<String, Fail> {
    let mut answers = String::new(alloc);
    let Ok(problem) = read_problem(alloc, problem.as_bytes()) else {
        return Ok(answers);
    };
    for (i, line) in text.lines().enumerate() {
        let one = answers_to_line(alloc, &problem, text, i, line)?;
        answers.push_str(one.as_str())?;
    }
    Ok(answers)
}

/// Whether each row tells the answer to the text with its line.
fn tells_each(alloc: Global, problem: &str, text: &str, rows: &str) -> Result<bool, Fail> {
    let Ok(problem) = read_problem(alloc, problem.as_bytes()) else {
        return Ok(false);
    };
    for row in rows.lines() {
        let Some((number, rest)) = row.split_once('|') else {
            return Ok(false);
        };
        let Some((line, expected)) = rest.split_once('|') else {
            return Ok(false);
        };
        let Ok(number) = number.parse::<u32>() else {
            return Ok(false);
        };
        if number == 0 {
            return Ok(false);
        }
        let changed = with_line(alloc, text, (number - 1) as usize, line)?;
        if answer(alloc, &problem, changed.as_str())?.as_str() != expected {
            return Ok(false);
        }
    }
    Ok(true)
}

/// Whether a text has this verdict.
fn has(alloc: Global, problem: &str, text: &str, expected: Verdict) -> Result<bool, Fail> {
    let Ok(problem) = read_problem(alloc, problem.as_bytes()) else {
        return Ok(false);
    };
    let verdict = verify_text(alloc, &problem, text.as_bytes())?;
    Ok(verdict == expected)
}

#[test]
fn reports_are_sound_and_their_boxes_and_edges_are_counted(rt: HostRuntime) -> Result<(), Fail> {
    let alloc = rt.alloc();
    let one = Verdict::Sound {
        meshes: 1,
        boxes: 1,
        edges: 1,
    };
    let two = Verdict::Sound {
        meshes: 1,
        boxes: 3,
        edges: 9,
    };
    let missing = Verdict::Fault { kind: 1, line: 1 };
    assert!(rt; has(alloc, FOUR_CELLS, FOUR_CELLS_TOLD, one)?);
    assert!(rt; has(alloc, TWO_LEVELS, TWO_LEVELS_TOLD, two)?);
    assert!(rt; has(alloc, TWO_LEVELS, "", missing)?);
    Ok(())
}

#[test]
fn each_number_of_a_mesh_is_checked(rt: HostRuntime) -> Result<(), Fail> {
    let told = answers_to_each(rt.alloc(), FOUR_CELLS, FOUR_CELLS_TOLD)?;
    assert!(rt; told.as_str() == EACH_RAISED);
    Ok(())
}

#[test]
fn a_changed_line_is_told_by_its_kind(rt: HostRuntime) -> Result<(), Fail> {
    assert!(rt; tells_each(rt.alloc(), TWO_LEVELS, TWO_LEVELS_TOLD, LINES_CHANGED)?);
    Ok(())
}
