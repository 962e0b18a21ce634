//! The call that does all that the program does.

ghost use Rattle.std.specs.Prelude.{◌≡◌, ◌⊎◌, List, ℕ, None, false, IfSome};
ghost use Rattle.samr_io.specs.Faults.{Rose, RoseByOne};
ghost use Rattle.samr_io.specs.Transfers.{TakesAtMost};
ghost use Rattle.samr_run.specs.Answer.{answer, bad_words, takes_input};
ghost use Rattle.samr_run.specs.Words.{command_of, texts};
ghost use Rattle.samr_run.specs.Written.{Written, status_of, status_number};

use crate::answer::Ending;
use crate::reply::reply;
use samr_io::{ReadError, Sink, Source, write_whole};
use std::alloc::Global;

/// How a run ended, and with it the exit status of the program.
#[derive(Clone, Copy, Debug, PartialEq, Eq)]
pub enum Status {
    /// The command was carried out, and the whole text was written.
    Done,
    /// The words are of no command's form; `bad words` was written.
    Words,
    /// The input is not a problem; its first fault was written.
    Refused,
    /// A read failed, and nothing was written.
    ReadFault,
    /// A write failed, and a front of the text was written.
    WriteFault,
    /// There was not enough memory, and a front of the text was written.
    Memory,
}

impl Status {
    /// The exit status of the program.
    pub fn number(self) -> u8
        ensures { result ≡ status_number self }
    {
        match self {
            Status::Done => 0,
            Status::Words => 2,
            Status::Refused => 3,
            Status::ReadFault => 4,
            Status::WriteFault => 5,
            Status::Memory => 6,
        }
    }
}

/// Does all that the program does: it reads the words, then the input where a command takes it, makes
/// the whole answer, and writes it. It always returns: it reads at most 1,048,577 bytes, each read that
/// goes on takes at least one byte, and it ends at the first failure.
///
/// The status says how it ended, and the sink then holds what it held, followed by the whole text of
/// the answer (`Done`, `Words`, `Refused`), by nothing (`ReadFault`) or by a front of the text
/// (`WriteFault`, `Memory`).
pub fn samr_plain<S: Source, K: Sink>(
    alloc: Global,
    words: &[String],
    source: &mut S,
    sink: &mut K,
) -> Status
    // The answer's status and text, where the source tells its bytes; else those of some input.
    ensures written { IfSome (S.left source.old) (λ input. Written (answer (texts words.now) input) result (K.held sink.old) (K.held sink.new)) }
    ensures of_some_input { (input : List ℕ) × Written (answer (texts words.now) input) result (K.held sink.old) (K.held sink.new) }

    // The cause of each answer.
    ensures words { result ≡ Status.Words → command_of (texts words.now) ≡ None }
    ensures bad_words { command_of (texts words.now) ≡ None → Written bad_words result (K.held sink.old) (K.held sink.new) }
    ensures unread { takes_input (texts words.now) ≡ false → source.new ≡ source.old }
    ensures read_fault { result ≡ Status.ReadFault → RoseByOne (S.faults source.old) (S.faults source.new) }
    ensures write_fault { result ≡ Status.WriteFault → RoseByOne (K.faults sink.old) (K.faults sink.new) }

    // Without a fault the status is the answer's, or want of memory; and no fault is passed over.
    ensures complete { IfSome (S.left source.old) (λ input. ¬ (Rose (S.faults source.old) (S.faults source.new)) → ¬ (Rose (K.faults sink.old) (K.faults sink.new)) → (result ≡ status_of (answer (texts words.now) input).ending) ⊎ (result ≡ Status.Memory)) }
    ensures no_read_fault { ¬ (result ≡ Status.ReadFault) → S.faults source.new ≡ S.faults source.old }
    ensures no_write_fault { ¬ (result ≡ Status.WriteFault) → K.faults sink.new ≡ K.faults sink.old }
    ensures most { TakesAtMost (S.left source.old) (S.left source.new) 1048577 }
{
    match reply(alloc, words, source) {
        Ok(made) => match write_whole(sink, made.text.as_slice()) {
            Ok(()) => match made.ending {
                Ending::Done => Status::Done,
                Ending::Words => Status::Words,
                Ending::Refused => Status::Refused,
            },
            Err(_) => Status::WriteFault,
        },
        Err(ReadError::NoMemory) => Status::Memory,
        Err(ReadError::Failed) => Status::ReadFault,
    }
}
