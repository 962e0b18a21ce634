//! What a machine works with, and what it does with it in a turn.

ghost use Rattle.std.specs.Prelude.{◌≡◌, ◌↔◌, [], Bool, true, false, not, IsTrue, OnOk, IfOk};
ghost use Rattle.samr_stage.specs.Machine.{IsReady, IsSound, IsIdle, IsWanted, Begins, Takes, Posts, Advances, Turned};
ghost use Rattle.samr_stage.specs.Work.{state_of};

use crate::kept::{count_of, store, take_out};
use crate::mail::Mail;
use crate::program::Program;
use crate::turn::Turn;
use std::alloc::{AllocError as NoMemory, Global};
use std::collections::VecDeque;

/// What a machine works with: the program, the letters of its label that are yet to be given out,
/// by addressee, the letters that came for this label and for later ones, by name, and whether the
/// program has left all its labels.
#[derive(Drop)]
pub struct Work<P: Program> {
    pub program: P,
    pub outbox: VecDeque<P::Mail>,
    pub kept: Vec<P::Mail>,
    pub over: bool,
}

impl<P: Program> Work<P> {
    pub fn new(alloc: Global, mut program: P) -> Result<Self, NoMemory>
        requires { P.stands program false }
        ensures sound { IfOk result (λ work. IsSound P.Program P.Mail.Mail (state_of work)) }
        ensures begins { IfOk result (λ work. Begins P.Program P.Mail.Mail program (state_of work)) }
    {
        if program.finished() {
            return Ok(Work {
                program,
                outbox: VecDeque::new(alloc),
                kept: Vec::new(alloc),
                over: true,
            });
        }
        let letters = program.enter(alloc)?;
        Ok(Work {
            program,
            outbox: VecDeque::from_vec(letters),
            kept: Vec::new(alloc),
            over: false,
        })
    }

    /// Whether all the letters that the program awaits at its label have come.
    pub fn is_ready(&self) -> bool
        requires sound { IsSound P.Program P.Mail.Mail (state_of self.now) }
        requires going_on { self.now.over ≡ false }
        ensures { IsTrue result ↔ IsReady P.Program P.Mail.Mail (state_of self.now) }
    {
        let count = count_of(&self.kept, self.program.label());
        self.program.ready(&self.kept[..count])
    }

    /// Whether a turn with no letter and with room can do nothing.
    pub fn is_idle(&self) -> bool
        requires { IsSound P.Program P.Mail.Mail (state_of self.now) }
        ensures { IsTrue result ↔ IsIdle P.Program P.Mail.Mail (state_of self.now) true }
    {
        if self.over {
            return false;
        }
        if !self.outbox.is_empty() {
            return false;
        }
        !self.is_ready()
    }

    /// Whether a letter is of the program's run, for its rank, at a label that it has not left.
    pub fn wants(&self, letter: &P::Mail) -> bool
        requires { IsSound P.Program P.Mail.Mail (state_of self.now) }
        ensures { IsTrue result ↔ IsWanted P.Program P.Mail.Mail self.now.program letter.now }
    {
        let name = letter.name();
        self.program.own_run(letter)
            && name.addressee == self.program.rank()
            && name.label >= self.program.label()
    }

    /// Keeps a letter where it is wanted and none of its name is kept, and drops it otherwise.
    pub fn take(&mut self, letter: P::Mail) -> Result<(), NoMemory>
        requires { IsSound P.Program P.Mail.Mail (state_of self.old) }
        ensures takes { OnOk result (Takes P.Program P.Mail.Mail (state_of self.old) letter (state_of self.new)) }
        ensures sound { OnOk result (IsSound P.Program P.Mail.Mail (state_of self.new)) }
    {
        if self.over || !self.wants(&letter) {
            return Ok(());
        }
        store(&mut self.kept, letter)?;
        Ok(())
    }

    /// Finishes the label with the letters kept for it, and enters the next one, if there is one.
    pub fn advance(&mut self, alloc: Global) -> Result<(), NoMemory>
        requires sound { IsSound P.Program P.Mail.Mail (state_of self.old) }
        requires going_on { self.old.over ≡ false }
        requires empty { self.old.outbox.items ≡ [] }
        requires ready { IsReady P.Program P.Mail.Mail (state_of self.old) }
        ensures advances { OnOk result (Advances P.Program P.Mail.Mail (state_of self.old) (state_of self.new)) }
        ensures sound { OnOk result (IsSound P.Program P.Mail.Mail (state_of self.new)) }
    {
        let held = take_out(&mut self.kept, self.program.label())?;
        self.program.finish(alloc, held)?;
        if self.program.finished() {
            self.kept.clear();
            self.over = true;
            return Ok(());
        }
        let letters = self.program.enter(alloc)?;
        self.outbox = VecDeque::from_vec(letters);
        Ok(())
    }

    pub fn turn(
        &mut self,
        alloc: Global,
        letter: Option<P::Mail>,
        room: bool,
    ) -> Result<Turn<P::Mail>, NoMemory>
        requires { IsSound P.Program P.Mail.Mail (state_of self.old) }
        ensures rule { IfOk result (λ turn. Turned P.Program P.Mail.Mail (state_of self.old) letter room turn (state_of self.new)) }
        ensures sound { OnOk result (IsSound P.Program P.Mail.Mail (state_of self.new)) }
    {
        if let Some(letter) = letter {
            self.take(letter)?;
            return Ok(Turn::Took);
        }
        if self.over {
            return Ok(Turn::Finished);
        }
        if !room && !self.outbox.is_empty() {
            return Ok(Turn::Idle);
        }
        if let Some(letter) = self.outbox.pop_front() {
            return Ok(Turn::Posted(letter));
        }
        if !self.is_ready() {
            return Ok(Turn::Idle);
        }
        self.advance(alloc)?;
        if self.over {
            return Ok(Turn::Finished);
        }
        Ok(Turn::Advanced)
    }
}
