//! Problem texts that differ in a few lines from one that is accepted, and what is answered to them.

use samr_problem::{Unread, read_problem};
use std::alloc::{AllocError, Global};
use std::process::Abort;
use std::test::Fail;

/// The lines of a problem that is accepted, each behind its key.
const LINES: [(&str, &str); 5] = [
    ("format", "format = 1\n"),
    ("dim", "dim = 2\n"),
    ("domain", "domain = [8, 8]\n"),
    ("periodic", "periodic = [false, false]\n"),
    ("block", "block = [4, 4]\n"),
];

/// The problem text with other lines, at its end, in place of those of some keys.
pub fn text_with(alloc: Global, keys: &str, lines: &str) -> Result<String, AllocError> {
    let mut text = String::new(alloc);
    for (key, line) in LINES {
        if !keys.contains(key) {
            text.push_str(line)?;
        }
    }
    text.push_str(lines)?;
    Ok(text)
}

/// Whether a text is refused by this cause at this key.
pub fn is_refused(alloc: Global, text: &[u8], cause: u8, key: &str) -> bool {
    match read_problem(alloc, text) {
        Err(Unread::Refused(refusal)) => refusal.cause == cause && refusal.key.as_str() == key,
        Err(Unread::NoMemory) => false,
        Ok(_problem) => false,
    }
}

/// Whether a text is a problem.
pub fn is_accepted(alloc: Global, text: &[u8]) -> bool {
    match read_problem(alloc, text) {
        Ok(_problem) => true,
        Err(_unread) => false,
    }
}

/// Rows of the lines that stand in place of the given keys, and of the refusal.
pub fn check_refused(
    rt: &impl Abort,
    alloc: Global,
    rows: &[(&str, &str, u8, &str)],
) -> Result<(), Fail> {
    for (changed, lines, cause, key) in rows {
        let text = text_with(alloc, changed, lines)?;
        assert!(rt; is_refused(alloc, text.as_bytes(), *cause, key), "{lines}");
    }
    Ok(())
}

/// Rows of the lines that stand in place of the given keys, in accepted texts.
pub fn check_accepted(rt: &impl Abort, alloc: Global, rows: &[(&str, &str)]) -> Result<(), Fail> {
    for (changed, lines) in rows {
        let text = text_with(alloc, changed, lines)?;
        assert!(rt; is_accepted(alloc, text.as_bytes()), "{lines}");
    }
    Ok(())
}
