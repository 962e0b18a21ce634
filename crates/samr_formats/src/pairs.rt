//! The format of a pair: the first part, then the second.

ghost use Rattle.samr_formats.specs.Formats.{spell_pair, FitsPair, read_pair};
ghost use Rattle.samr_formats.specs.Laws.{pair_format};

use crate::format::Format;
use crate::unread::Unread;
use std::alloc::{AllocError as NoMemory, Global};

impl<A: Format, B: Format> Format for (A, B) {
    ghost spelling = { spell_pair A.spelling B.spelling };

    ghost fits = { FitsPair A.fits B.fits };

    ghost writable = { FitsPair A.writable B.writable };

    ghost reading = { read_pair A.reading B.reading };

    fn spell(&self, out: &mut Vec<u8>) -> Result<(), NoMemory> {
        self.0.spell(out)?;
        self.1.spell(out)?;
        Ok(())
    }

    fn read(alloc: Global, bytes: &[u8]) -> Result<((A, B), &[u8]), Unread> {
        let (first, rest) = A::read(alloc, bytes)?;
        let (second, rest) = B::read(alloc, rest)?;
        Ok(((first, second), rest))
    }

    ghost law = { pair_format A.law B.law };
}
