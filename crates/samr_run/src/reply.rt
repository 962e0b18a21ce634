//! The answer to the words and the input.

ghost use Rattle.std.specs.Prelude.{◌≡◌, ◌<◌, ◌≤◌, ◌++◌, ◌∷◌, [], List, ℕ, None, false, OnOk, IfOk, IfSome};
ghost use Rattle.samr_io.specs.Faults.{HasReadCause};
ghost use Rattle.samr_io.specs.Transfers.{TakesAtMost};
ghost use Rattle.samr_problem.specs.Reading.{reading};
ghost use Rattle.samr_run.specs.Answer.{answer_of, answer, bad_words, command_answer, reads, takes_input, behind_blank, refusal_line};
ghost use Rattle.samr_report.specs.Level0Text.{check_text};
ghost use Rattle.samr_run.specs.Words.{IsCommand, command_of, texts};

use crate::answer::{Ending, Reply};
use crate::words::{Command, command_of};
use samr_generate::make_text;
use samr_io::{ReadError, Source, read_up_to};
use samr_problem::{Refusal, Unread, read_problem};
use samr_report::{check_text, put_count, put_line};
use std::alloc::{AllocError as NoMemory, Global};

/// One byte more than a problem may have.
const MOST_BYTES: usize = 1_048_577;

/// Appends a key behind a blank, where there is one.
fn put_key(out: &mut Vec<u8>, key: &str) -> Result<(), NoMemory>
    ensures { OnOk result (out.new.items ≡ out.old.items ++ behind_blank key.now) }
{
    if key.is_empty() {
        return Ok(());
    }
    out.push(b' ')?;
    out.extend_from_slice(key.as_bytes())?;
    Ok(())
}

#[tactic(auto, unfolding(crate::specs::Answer::refusal_line))]
fn refusal_line(alloc: Global, refusal: &Refusal) -> Result<Vec<u8>, NoMemory>
    ensures { IfOk result (λ text. text.items ≡ refusal_line refusal.now) }
{
    let mut text = Vec::new(alloc);
    let cause = refusal.cause;
    put_count(&mut text, "refused", u64::from(cause))?;
    put_key(&mut text, refusal.key.as_str())?;
    text.push(b'\n')?;
    Ok(text)
}

#[tactic(auto, unfolding(crate::specs::Answer::bad_words))]
fn bad_words(alloc: Global) -> Result<Reply, NoMemory>
    ensures { IfOk result (λ reply. reply ≡ bad_words) }
{
    let mut text = Vec::new(alloc);
    put_line(&mut text, "bad words", &[])?;
    Ok(Reply {
        ending: Ending::Words,
        text,
    })
}

/// The answer to `check` on this input.
fn check_reply(alloc: Global, ranks: u16, input: &[u8]) -> Result<Reply, NoMemory>
    requires { 0 < ranks }
    ensures { IfOk result (λ reply. reply ≡ answer_of (λ p. check_text p ranks) (reading input.now)) }
{
    match read_problem(alloc, input) {
        Ok(problem) => {
            let text = check_text(alloc, &problem, ranks)?;
            Ok(Reply {
                ending: Ending::Done,
                text,
            })
        }
        Err(Unread::Refused(refusal)) => {
            let text = refusal_line(alloc, &refusal)?;
            Ok(Reply {
                ending: Ending::Refused,
                text,
            })
        }
        Err(Unread::NoMemory) => Err(NoMemory),
    }
}

/// The answer to `make`, whatever the input.
#[tactic(auto, unfolding(crate::specs::Answer::command_answer))]
fn made_reply(alloc: Global, seed: u32, size: u32) -> Result<Reply, NoMemory>
    requires some { 1 ≤ size }
    requires few { size ≤ 64 }
    ensures { (input : List ℕ) → IfOk result (λ reply. reply ≡ command_answer input (Command.Make seed size)) }
{
    let text = make_text(alloc, seed, size)?;
    Ok(Reply {
        ending: Ending::Done,
        text,
    })
}

/// The answer to `check`, with the input read.
fn read_reply<S: Source>(alloc: Global, ranks: u16, source: &mut S) -> Result<Reply, ReadError>
    requires { 0 < ranks }
    ensures told { IfOk result (λ r. IfSome (S.left source.old) (λ input. r ≡ command_answer input (Command.Check ranks))) }
    ensures some { IfOk result (λ r. (input : List ℕ) × (r ≡ command_answer input (Command.Check ranks))) }
    ensures most { TakesAtMost (S.left source.old) (S.left source.new) 1048577 }
    ensures cause { HasReadCause (S.faults source.old) (S.faults source.new) result }
{
    let input = read_up_to(alloc, source, MOST_BYTES)?;
    Ok(check_reply(alloc, ranks, input.as_slice())?)
}

/// The answer to a command, with the input read where it takes one.
fn command_reply<S: Source>(
    alloc: Global,
    command: Command,
    source: &mut S,
) -> Result<Reply, ReadError>
    requires { IsCommand command }
    ensures told { IfOk result (λ r. IfSome (S.left source.old) (λ input. r ≡ command_answer input command)) }
    ensures some { IfOk result (λ r. (input : List ℕ) × (r ≡ command_answer input command)) }
    ensures unread { reads command ≡ false → source.new ≡ source.old }
    ensures most { TakesAtMost (S.left source.old) (S.left source.new) 1048577 }
    ensures cause { HasReadCause (S.faults source.old) (S.faults source.new) result }
{
    match command {
        Command::Check(ranks) => read_reply(alloc, ranks, source),
        Command::Make { seed, size } => Ok(made_reply(alloc, seed, size)?),
    }
}

/// What is answered to the words, with the input read where a command takes it.
pub fn reply<S: Source>(alloc: Global, words: &[String], source: &mut S) -> Result<Reply, ReadError>
    ensures told { IfOk result (λ r. IfSome (S.left source.old) (λ input. r ≡ answer (texts words.now) input)) }
    ensures some { IfOk result (λ r. (input : List ℕ) × (r ≡ answer (texts words.now) input)) }
    ensures words { command_of (texts words.now) ≡ None → IfOk result (λ r. r ≡ bad_words) }
    ensures unread { takes_input (texts words.now) ≡ false → source.new ≡ source.old }
    ensures only { IfOk result (λ r. r.ending ≡ Ending.Words → command_of (texts words.now) ≡ None) }
    ensures most { TakesAtMost (S.left source.old) (S.left source.new) 1048577 }
    ensures cause { HasReadCause (S.faults source.old) (S.faults source.new) result }
{
    let Some(command) = command_of(words) else {
        return Ok(bad_words(alloc)?);
    };
    let reply = command_reply(alloc, command, source)?;
    Ok(reply)
}
