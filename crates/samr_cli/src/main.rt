//! The program `samr`: the words behind its name, standard input and standard output, and the status
//! of the top call as exit status.
#![tactic(auto)]

use samr_io::{StdSink, StdSource};
use samr_run::{Status, samr_plain};
use std::alloc::AllocError as NoMemory;
use std::process::ExitCode;
use std::rt::Env;
use std::{env, io};

/// The words behind the program's name: none where a word is not UTF-8, so that they are bad words.
fn words_of(rt: &(impl Env + AllocGlobal)) -> Result<Vec<String>, NoMemory> {
    let mut words = Vec::new(rt.alloc());
    match env::args(rt) {
        Ok(args) => {
            for word in args.skip(1) {
                words.push(word)?;
            }
        }
        Err(error) => {
            if error.kind() == io::ErrorKind::OutOfMemory {
                return Err(NoMemory);
            }
        }
    }
    Ok(words)
}

fn main(rt: HostRuntime) -> ExitCode {
    let status = match words_of(&rt) {
        Ok(words) => {
            let mut source = StdSource::new(rt.stdin());
            let mut sink = StdSink::new(rt.stdout());
            samr_plain(rt.alloc(), words.as_slice(), &mut source, &mut sink)
        }
        Err(_) => Status::Memory,
    };
    ExitCode::from(status.number())
}
