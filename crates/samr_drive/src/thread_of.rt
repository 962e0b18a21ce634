//! How the thread of a rank is started, and what it does.

ghost use Rattle.std.specs.Prelude.{◌≡◌, None};
ghost use Rattle.samr_drive.specs.Driven.{IsSteady};
ghost use Rattle.samr_drive.specs.Slots.{KeptBy};
ghost use Rattle.samr_drive.specs.Standing.{SlotOk, IsFit};
ghost use Rattle.samr_stage.specs.Machine.{State};

use crate::driver::drive;
use crate::gate::Gate;
use crate::halt::Halt;
use crate::slot::{Ran, Slot, Started};
use samr_link::Link;
use samr_stage::{Machine, Program};
use std::alloc::Global;
use std::snapshot::Snapshot;
use std::sync::Wait;
use std::sync::atomic::{AtomicBool, Ordering};
use std::thread::Scope;

/// Starts the thread of a rank. Where none can be started the caller keeps the rank.
pub fn start<
    's,
    E,
    R: Wait + Sync + 's,
    P: Program + Send + 's,
    L: Link<Mail = P::Mail> + Send + 's,
    G: Gate + Sync + 's,
>(
    rt: &'s R,
    alloc: Global,
    scope: &'s Scope<'s, E>,
    flag: &'s AtomicBool,
    gate: &'s G,
    halt: &'s Halt,
    rank: u16,
    machine: Machine<P>,
    end: L,
) -> Slot<P, L>
where
    P::Mail: Send + 's,
    requires { IsSteady P.Program P.Mail.Mail L.Link machine end None }
    ensures stands { SlotOk P.Program P.Mail.Mail L.Link machine end result }
    ensures fit { IsFit P.Program P.Mail.Mail L.Link result }
{
    let promise = Started {
        machine: Snapshot::of(&machine),
        end: Snapshot::of(&end),
    };
    let work = move || drive_or_back(rt, alloc, flag, gate, halt, rank, machine, end);
    match scope.spawn_with(promise, work) {
        Ok(handle) => Slot::Running(handle),
        Err(refused) => {
            flag.store(true, Ordering::SeqCst);
            slot_of((refused.value)())
        }
    }
}

/// What stands for a rank whose closure was called by the caller.
pub fn slot_of<P: Program, L: Link<Mail = P::Mail>>(ran: Ran<P, Machine<P>, L>) -> Slot<P, L>
    ensures { (s : State P P.Mail) (e : L) → IsSteady P.Program P.Mail.Mail L.Link s e None → KeptBy P.Program P.Mail.Mail L.Link s e ran
        → SlotOk P.Program P.Mail.Mail L.Link s e result × IsFit P.Program P.Mail.Mail L.Link result }
{
    match ran {
        Ran::Back(machine, end) => Slot::Kept(machine, end, None),
        Ran::Driven(answer, end) => Slot::Over(answer, end),
    }
}

/// Drives a rank, once its gate is passed, unless its flag says that its machine and its end are to
/// come back at once.
fn drive_or_back<R: Wait, P: Program, L: Link<Mail = P::Mail>, G: Gate>(
    rt: &R,
    alloc: Global,
    flag: &AtomicBool,
    gate: &G,
    halt: &Halt,
    rank: u16,
    machine: Machine<P>,
    end: L,
) -> Ran<P, Machine<P>, L>
    requires { IsSteady P.Program P.Mail.Mail L.Link machine end None }
    ensures { KeptBy P.Program P.Mail.Mail L.Link machine end result }
{
    if flag.load(Ordering::SeqCst) {
        return Ran::Back(machine, end);
    }
    gate.enter(rank);
    let mut bell = halt.bell();
    let (answer, end) = drive(rt, alloc, machine, end, &mut bell);
    Ran::Driven(answer, end)
}
