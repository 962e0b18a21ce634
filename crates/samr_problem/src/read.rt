//! The reading of a problem from its bytes.

ghost use Rattle.std.specs.Prelude.{◌≡◌};
ghost use Rattle.samr_problem.specs.Reading.{reading, text_reading, Reads};

use crate::document::read_document;
use crate::refusal::refuse;
use crate::{Problem, Unread};
use std::alloc::Global;

/// The most bytes that a problem text may have.
const MOST_BYTES: usize = 1_048_576;

/// Reads a text as a document, and the document as a problem.
#[tactic(auto, unfolding(crate::specs::Reading::text_reading))]
fn read_text(alloc: Global, text: &str) -> Result<Problem, Unread>
    ensures { Reads result (text_reading text.now) }
{
    let table = match toml::table_from_str(alloc, text) {
        Ok(table) => table,
        Err(error) => {
            if error.is_memory() {
                return Err(Unread::NoMemory);
            }
            return Err(refuse(alloc, 2, ""));
        }
    };
    read_document(alloc, &table)
}

/// Reads a problem. It is refused exactly where the text has a fault, and by its first one.
#[tactic(auto, using(crate::proofs::Texts::is_utf8_of, crate::proofs::Texts::not_utf8_of), unfolding(crate::specs::Reading::reading))]
pub fn read_problem(alloc: Global, text: &[u8]) -> Result<Problem, Unread>
    ensures { Reads result (reading text.now) }
{
    if text.len() > MOST_BYTES {
        return Err(refuse(alloc, 11, ""));
    }
    let Ok(text) = std::str::from_utf8(text) else {
        return Err(refuse(alloc, 1, ""));
    };
    read_text(alloc, text)
}
