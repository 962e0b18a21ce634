//! An example: notes of two kinds, of which one has a list of spans.

ghost use Rattle.std.specs.Prelude.{◌≤◌, Some, None, if◌then◌else◌};
ghost use Rattle.samr_formats.specs.Formats.{Gives};
ghost use Rattle.samr_formats.specs.Examples.{spell_span, FitsSpan, is_span, span_of, read_span, spell_note, FitsNote, IsWritable, read_note};
ghost use Rattle.samr_formats.specs.ExampleLaws.{span_format, note_format};

use crate::format::Format;
use crate::unread::Unread;
use crate::whole::{from_bytes, to_bytes};
use samr_box::Listed;
use std::alloc::{AllocError as NoMemory, Global};

/// The whole numbers from `first` to `last`, both of them included.
#[derive(Debug, Drop)]
pub struct Span {
    pub first: u32,
    pub last: u32,
}

/// What a worker tells: that it stops, or which numbers it has done.
#[derive(Debug, Drop)]
pub enum Note {
    Stop,
    Done(Listed<Span>),
}

/// The span of these two ends.
fn ordered(first: u32, last: u32) -> Result<Span, Unread>
    ensures { Gives (λ s. s) result (if is_span (span_of (first, last)) then Some (span_of (first, last)) else None) }
{
    if first <= last {
        Ok(Span { first, last })
    } else {
        Err(Unread::Malformed)
    }
}

impl Format for Span {
    ghost spelling = { spell_span };

    ghost fits = { FitsSpan };

    ghost writable = { λ s. s.first ≤ s.last };

    ghost reading = { read_span };

    ghost law = { span_format };

    #[tactic(auto, unfolding(crate::specs::Examples::spell_span))]
    fn spell(&self, out: &mut Vec<u8>) -> Result<(), NoMemory> {
        self.first.spell(out)?;
        self.last.spell(out)?;
        Ok(())
    }

    #[tactic(auto, unfolding(crate::specs::Examples::read_span))]
    fn read(alloc: Global, bytes: &[u8]) -> Result<(Span, &[u8]), Unread> {
        let (first, rest) = u32::read(alloc, bytes)?;
        let (last, rest) = u32::read(alloc, rest)?;
        let one = ordered(first, last)?;
        Ok((one, rest))
    }
}

impl Format for Note {
    ghost spelling = { spell_note };

    ghost fits = { FitsNote };

    ghost writable = { IsWritable };

    ghost reading = { read_note };

    ghost law = { note_format };

    #[tactic(auto, unfolding(crate::specs::Examples::spell_note))]
    fn spell(&self, out: &mut Vec<u8>) -> Result<(), NoMemory> {
        match self {
            Note::Stop => out.push(0)?,
            Note::Done(spans) => {
                out.push(1)?;
                spans.spell(out)?;
            }
        }
        Ok(())
    }

    #[tactic(auto, unfolding(crate::specs::Examples::read_note))]
    fn read(alloc: Global, bytes: &[u8]) -> Result<(Note, &[u8]), Unread> {
        match bytes {
            [0, rest @ ..] => Ok((Note::Stop, rest)),
            [1, rest @ ..] => match <Listed<Span>>::read(alloc, rest) {
                Ok((spans, rest)) => Ok((Note::Done(spans), rest)),
                Err(e) => Err(e),
            },
            _ => Err(Unread::Malformed),
        }
    }
}

/// The note that is read from the bytes of a note: the same.
///
/// # Errors
///
/// Where memory is short.
pub fn echo(alloc: Global, note: &Note) -> Result<Note, Unread>
    requires { IsWritable note.now }
    ensures { Gives (λ x. x) result (Some note.now) }
{
    let bytes = to_bytes(alloc, note)?;
    from_bytes(alloc, bytes.as_slice())
}
