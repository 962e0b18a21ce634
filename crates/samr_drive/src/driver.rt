//! The driver of one rank.

ghost use Rattle.std.specs.Prelude.{◌≡◌, ◌<◌, ◌≤◌, ℕ, true, false, IfOk, OnOk, IfErr};
ghost use Rattle.samr_drive.specs.Driven.{Fits, IsSame, HasFinished, PostsAll, TakesAll};

use crate::halt::Alarm;
use crate::step::{Step, step_once};
use crate::stop::Stop;
use crossbeam_utils::Backoff;
use samr_link::Link;
use samr_stage::{Machine, Program};
use std::alloc::{AllocError as NoMemory, Global};
use std::sync::Wait;
use std::thread;

/// Takes a rank's machine through its run by the rank's end, and hands the end back: it gives the
/// machine what comes, and posts what the machine gives out. A letter for which there was no room
/// stays in its hand, and it goes on taking. Between tries it lets others go on, and with an empty
/// hand it soon rests until a letter may have come.
///
/// It answers the program once that has left all its labels and no letter is left in its hand.
///
/// # Errors
///
/// `NoMemory` where the machine found no memory, and then it has raised the alarm and roused all
/// ends; `Halted` where it heard the alarm of another driver.
pub fn drive<R: Wait, P: Program, L: Link<Mail = P::Mail>, A: Alarm>(
    rt: &R,
    alloc: Global,
    machine: Machine<P>,
    end: L,
    alarm: &mut A,
) -> (Result<P, Stop>, L)
    requires fits { Fits P.Program P.Mail.Mail L.Link machine end }
    ensures same_end { IsSame P.Program P.Mail.Mail L.Link end result.1 }
    ensures finished { IfOk result.0 (HasFinished P.Program P.Mail.Mail L.Link machine) }
    ensures posted { OnOk result.0 (PostsAll P.Program P.Mail.Mail L.Link machine end result.1) }
    ensures taken { OnOk result.0 (TakesAll P.Program P.Mail.Mail L.Link machine end result.1) }
    ensures short { IfErr result.0 (λ stop. stop ≡ Stop.NoMemory → A.raised alarm.new ≡ true) }
    ensures halted { IfErr result.0 (λ stop. stop ≡ Stop.Halted → A.count alarm.old < A.count alarm.new) }
    ensures never_falls { A.count alarm.old ≤ A.count alarm.new }
{
    let mut machine = machine;
    let mut end = end;
    let mut hand = None;
    if machine.failed() {
        alarm.raise();
        end.rouse();
        return (Err(Stop::NoMemory), end);
    }
    let backoff = Backoff::new();
    'turns: for _turn in rt.forever() {
        if alarm.heard() {
            return (Err(Stop::Halted), end);
        }
        match step_once(rt, alloc, &mut machine, &mut end, hand) {
            Ok(Step::Moved(left)) => {
                hand = left;
                backoff.reset();
            }
            Ok(Step::Waits(left)) => {
                hand = left;
                wait(rt, &end, hand.is_none(), &backoff);
            }
            Ok(Step::Over) => return (Ok(machine.into_program()), end),
            Err(NoMemory) => {
                alarm.raise();
                end.rouse();
                return (Err(Stop::NoMemory), end);
            }
        }
    }
    unreachable!()
}

/// Lets others go on, and after some rounds rests until a letter may have come. With a letter in
/// hand it never rests, since nobody tells when its addressee has room.
fn wait<R: Wait, L: Link>(rt: &R, end: &L, empty_handed: bool, backoff: &Backoff) {
    if backoff.is_completed() && empty_handed {
        end.rest(rt);
    } else {
        pause(backoff);
    }
}

/// Lets others go on.
pub fn pause(backoff: &Backoff) {
    if backoff.is_completed() {
        thread::yield_now();
    } else {
        backoff.snooze();
    }
}
