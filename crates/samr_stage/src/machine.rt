//! The machine that takes a rank's program from label to label.

ghost use Rattle.std.specs.Prelude.{◌≡◌, ◌↔◌, Bool, true, false, not, IsTrue, IsNone, IsErr, IfOk, OnOk, OnErr};
ghost use Rattle.samr_stage.specs.Machine.{IsSound, IsIdle, IsDone, Begins, Turned, label_of};

use crate::label::Label;
use crate::mail::Mail;
use crate::program::Program;
use crate::turn::Turn;
use crate::work::Work;
use std::alloc::{AllocError as NoMemory, Global};
use std::marker::Model;

/// Takes a rank's program through its labels, one small step at a time.
///
/// A machine gives out the letters that its program has for others at its label, keeps those that
/// come for this label and later ones, in whatever order they come, and goes on once the awaited
/// letters of its label are there. It does no waiting: whoever drives it gives it the letters that
/// come, and says when there is room for one that it gives out.
///
/// After a call that answers `NoMemory` a machine has failed, and answers `NoMemory` from then on.
#[derive(Drop)]
pub struct Machine<P: Program> {
    work: Work<P>,
    failed: bool,
}

impl<P: Program> Model for Machine<P> {
    ghost use Rattle.std.specs.Prelude.{◌≡◌, false};
    ghost use Rattle.samr_stage.specs.Machine.{State, IsSound};
    ghost use Rattle.samr_stage.specs.Work.{state_of};

    ghost Value = { State P P.Mail };

    ghost view = { λ a. record { program = a.work.program; outbox = a.work.outbox.items; kept = a.work.kept.items; over = a.work.over; failed = a.failed } };

    ghost invariant = { λ a. a.failed ≡ false → IsSound P.Program P.Mail.Mail (state_of a.work) };
}

impl<P: Program> Machine<P> {
    /// A machine for a program that is to enter its first label, which it does, or that has no
    /// label to visit and so has finished.
    ///
    /// # Errors
    ///
    /// Where memory is short.
    pub fn new(alloc: Global, program: P) -> Result<Self, NoMemory>
        requires { P.stands program false }
        ensures begins { IfOk result (Begins P.Program P.Mail.Mail program) }
        ensures sound { IfOk result (IsSound P.Program P.Mail.Mail) }
        ensures working { IfOk result (λ machine. machine.failed ≡ false) }
    {
        let work = Work::new(alloc, program)?;
        Ok(Machine {
            work,
            failed: false,
        })
    }

    /// The rank whose program this is.
    pub fn rank(&self) -> u16
        ensures { result ≡ P.rank_of self.now.program }
    {
        self.work.program.rank()
    }

    /// The label at which the program is. After the end it is the last label that the rank
    /// visited, or all zeros where there was none.
    pub fn label(&self) -> Label
        ensures { self.now.failed ≡ false → result ≡ label_of P.Program P.Mail.Mail self.now.program }
    {
        self.work.program.label()
    }

    /// Whether the program has left all its labels.
    pub fn finished(&self) -> bool
        ensures over { result ≡ self.now.over }
        ensures done { self.now.failed ≡ false → (IsTrue result ↔ IsDone P.Program P.Mail.Mail self.now.program) }
    {
        self.work.over
    }

    /// Whether a call has answered `NoMemory`. A machine that has not failed is sound, whoever made it.
    pub fn failed(&self) -> bool
        ensures value { result ≡ self.now.failed }
        ensures sound { self.now.failed ≡ false → IsSound P.Program P.Mail.Mail self.now }
    {
        self.failed
    }

    /// Whether `turn` with no letter and with room would answer `Idle`.
    pub fn idle(&self) -> bool
        ensures { self.now.failed ≡ false → (IsTrue result ↔ IsIdle P.Program P.Mail.Mail self.now true) }
    {
        !self.failed && self.work.is_idle()
    }

    /// Takes one step.
    ///
    /// Where a letter is given the machine takes it: it keeps a letter that its program will want,
    /// unless it has one of that name, and drops any other. Otherwise it gives out its next letter
    /// where there is room, or finishes its label and enters the next one where it has given all
    /// out and every awaited letter has come, or does nothing.
    ///
    /// # Errors
    ///
    /// Where memory is short, and always once it was. The machine has then failed.
    pub fn turn(
        &mut self,
        alloc: Global,
        letter: Option<P::Mail>,
        room: bool,
    ) -> Result<Turn<P::Mail>, NoMemory>
        ensures rule { IfOk result (λ turn. Turned P.Program P.Mail.Mail self.old letter room turn self.new) }
        ensures idle { IfOk result (λ turn. (turn ≡ Turn.Idle) ↔ (IsNone letter × IsIdle P.Program P.Mail.Mail self.old room)) }
        ensures sound { OnOk result (IsSound P.Program P.Mail.Mail self.new) }
        ensures working { OnOk result (self.new.failed ≡ false) }
        ensures err { OnErr result (self.new.failed ≡ true) }
        ensures stays_failed { self.old.failed ≡ true → IsErr result }
    {
        if self.failed {
            return Err(NoMemory);
        }
        self.failed = true;
        let turn = self.work.turn(alloc, letter, room)?;
        self.failed = false;
        Ok(turn)
    }

    /// The program, as the machine has it.
    pub fn into_program(self) -> P
        ensures { result ≡ self.program }
    {
        let Machine { work, failed: _ } = self;
        let Work {
            program,
            outbox: _,
            kept: _,
            over: _,
        } = work;
        program
    }
}
