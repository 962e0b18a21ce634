//! Sources of bytes, and the transfer that reads one up to a limit.

ghost use Rattle.std.specs.Prelude.{◌≡◌, ℕ, ◌≤◌, List, length, IfOk};
ghost use Rattle.std.specs.declared.option.Option.{Option};
ghost use Rattle.std.specs.Io.{ReadsAtMost};
ghost use Rattle.std.specs.Io.KnownBytes.{ReadConsumes};
ghost use Rattle.samr_io.specs.Faults.{HasCause, HasReadCause};
ghost use Rattle.samr_io.specs.Transfers.{TakesUpTo, TakesAtMost};

use super::failed::{Failed, ReadError};
use std::alloc::Global;

/// What gives bytes, and counts the reads that fail.
pub trait Source {
    // The bytes that are left to read, where they are known.
    ghost left: { Self → Option (List ℕ) };

    // How many reads have failed so far.
    ghost faults: { Self → ℕ };

    /// Puts the next bytes at the front of `buf`, and gives their number: 0 for a buffer that is not
    /// empty means that the end was reached.
    ///
    /// # Errors
    ///
    /// `Failed` raises the count of faults by one, and takes no byte. Nothing else changes
    /// the count.
    fn read(&mut self, buf: &mut [u8]) -> Result<usize, Failed>
        ensures bound { ReadsAtMost result buf.new }
        ensures bytes { ReadConsumes (left self.old) (left self.new) result buf.new }
        ensures cause { HasCause (faults self.old) (faults self.new) result };
}

/// Reads to the end, or until `limit` bytes are there. It ends at the first read that fails.
///
/// # Errors
///
/// `Failed` where a read failed: the count of faults has then risen by one. `NoMemory` where there is no
/// memory for the bytes. Either way at most `limit` bytes have been taken from the source.
pub fn read_up_to<S: Source>(
    alloc: Global,
    source: &mut S,
    limit: usize,
) -> Result<Vec<u8>, ReadError>
    ensures ok { IfOk result (λ v. TakesUpTo (S.left source.old) (S.left source.new) limit v.items) }
    ensures short { IfOk result (λ v. length v.items ≤ limit) }
    ensures most { TakesAtMost (S.left source.old) (S.left source.new) limit }
    ensures cause { HasReadCause (S.faults source.old) (S.faults source.new) result }
{
    let mut bytes = Vec::new(alloc);
    'reading: while bytes.len() < limit {
        let mut buf = [0u8; 4096];
        let room = (limit - bytes.len()).min(buf.len());
        let count = source.read(&mut buf[..room])?;
        if count == 0 {
            return Ok(bytes);
        }
        bytes.extend_from_slice(&buf[..count])?;
    }
    Ok(bytes)
}
