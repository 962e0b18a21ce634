//! Sinks of bytes, and the transfer that writes a whole text to one.

ghost use Rattle.std.specs.Prelude.{◌≡◌, ℕ, List, OnOk};
ghost use Rattle.std.specs.declared.option.Option.{Option};
ghost use Rattle.std.specs.Io.{WritesAtMost};
ghost use Rattle.std.specs.Io.KnownBytes.{WriteAppends, Appends};
ghost use Rattle.samr_io.specs.Faults.{HasCause, HasWriteCause};
ghost use Rattle.samr_io.specs.Transfers.{AppendsFront};

use super::failed::Failed;

/// What takes bytes, and counts the writes that fail or stall.
pub trait Sink {
    // The bytes that were taken, where they are known.
    ghost held: { Self → Option (List ℕ) };

    // How many writes have failed or stalled so far.
    ghost faults: { Self → ℕ };

    /// Takes bytes from the front of `piece`, and gives their number. A write that takes no byte of a
    /// piece that is not empty has stalled: it raises the count of faults by one.
    ///
    /// # Errors
    ///
    /// `Failed` raises the count by one too, and takes no byte. Nothing else changes the count.
    fn write(&mut self, piece: &[u8]) -> Result<usize, Failed>
        ensures bound { WritesAtMost result piece.now }
        ensures bytes { WriteAppends (held self.old) (held self.new) result piece.now }
        ensures cause { HasWriteCause (faults self.old) (faults self.new) result piece.now };
}

/// Writes the whole of `text`. It ends at the first write that fails or stalls.
///
/// # Errors
///
/// `Failed` where a write failed or stalled: the count of faults has then risen by one, and the sink has
/// taken some front of `text`.
#[tactic(auto, using(crate::proofs::Fronts::appends_next))]
pub fn write_whole<K: Sink>(sink: &mut K, text: &[u8]) -> Result<(), Failed>
    ensures ok { OnOk result (Appends (K.held sink.old) (K.held sink.new) text.now) }
    ensures front { AppendsFront (K.held sink.old) (K.held sink.new) text.now }
    ensures cause { HasCause (K.faults sink.old) (K.faults sink.new) result }
{
    let mut at = 0;
    'writing: while at < text.len() {
        let count = sink.write(&text[at..])?;
        if count == 0 {
            return Err(Failed);
        }
        at += count;
    }
    Ok(())
}
