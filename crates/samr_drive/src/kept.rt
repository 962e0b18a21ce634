//! The ranks that the caller drives, together, one turn of each after the other.

ghost use Rattle.std.specs.Prelude.{◌≡◌, ◌<◌, ◌^◌, ℕ, List, length, All, IsTrue, true, false, None, Bool};
ghost use Rattle.samr_drive.specs.Driven.{IsSteady, Drove, DrivenTo};
ghost use Rattle.samr_drive.specs.Slots.{Trio};
ghost use Rattle.samr_drive.specs.Standing.{SlotOk, IsFit, IsAway};
ghost use Rattle.samr_stage.specs.Machine.{State};

use crate::driver::pause;
use crate::gate::Gate;
use crate::halt::{Alarm, Halt};
use crate::slot::Slot;
use crate::step::{Step, step_once};
use crate::stop::Stop;
use crossbeam_utils::Backoff;
use samr_link::Link;
use samr_stage::{Machine, Program};
use std::alloc::{AllocError as NoMemory, Global};
use std::mem::replace;
use std::sync::Wait;

/// Passes the gate for each rank that the caller drives.
pub fn enter_kept<P: Program, L: Link<Mail = P::Mail>, G: Gate>(gate: &G, slots: &Vec<Slot<P, L>>)
    requires { length slots.now.items < 2 ^ 16 }
{
    for rank in 0..slots.len() {
        if is_kept(&slots[rank]) {
            gate.enter(rank as u16);
        }
    }
}

/// Drives the ranks that the caller keeps until none is left.
pub fn drive_kept<R: Wait, P: Program, L: Link<Mail = P::Mail>>(
    rt: &R,
    alloc: Global,
    halt: &Halt,
    slots: &mut Vec<Slot<P, L>>,
)
    requires { All (IsFit P.Program P.Mail.Mail L.Link) slots.old.items }
    ensures fit { All (IsFit P.Program P.Mail.Mail L.Link) slots.new.items }
    ensures stand { (machines : List (State P P.Mail)) (ends : List L) → Trio (SlotOk P.Program P.Mail.Mail L.Link) machines ends slots.old.items
        → Trio (SlotOk P.Program P.Mail.Mail L.Link) machines ends slots.new.items }
    ensures away { All (IsAway P.Program P.Mail.Mail L.Link) slots.new.items }
{
    let backoff = Backoff::new();
    'turns: for _turn in rt.forever() {
        if !turn_all(rt, alloc, halt, slots) {
            return;
        }
        pause(&backoff);
    }
    unreachable!()
}

/// One turn of each rank that the caller keeps. Says whether one is left.
fn turn_all<R: Wait, P: Program, L: Link<Mail = P::Mail>>(
    rt: &R,
    alloc: Global,
    halt: &Halt,
    slots: &mut Vec<Slot<P, L>>,
) -> bool
    requires { All (IsFit P.Program P.Mail.Mail L.Link) slots.old.items }
    ensures fit { All (IsFit P.Program P.Mail.Mail L.Link) slots.new.items }
    ensures stand { (machines : List (State P P.Mail)) (ends : List L) → Trio (SlotOk P.Program P.Mail.Mail L.Link) machines ends slots.old.items
        → Trio (SlotOk P.Program P.Mail.Mail L.Link) machines ends slots.new.items }
    ensures away { result ≡ false → All (IsAway P.Program P.Mail.Mail L.Link) slots.new.items }
{
    let mut left = false;
    'slots: for place in 0..slots.len() {
        let slot = replace(&mut slots[place], Slot::Gone);
        let slot = turn_slot(rt, alloc, halt, slot);
        left = left || is_kept(&slot);
        slots[place] = slot;
    }
    left
}

/// Whether the caller drives this rank.
fn is_kept<P: Program, L: Link<Mail = P::Mail>>(slot: &Slot<P, L>) -> bool
    ensures { result ≡ false → IsAway P.Program P.Mail.Mail L.Link slot.now }
{
    match slot {
        Slot::Kept(_, _, _) => true,
        Slot::Running(_) => false,
        Slot::Over(_, _) => false,
        Slot::Gone => false,
    }
}

/// One turn of a rank, if the caller keeps it.
fn turn_slot<R: Wait, P: Program, L: Link<Mail = P::Mail>>(
    rt: &R,
    alloc: Global,
    halt: &Halt,
    slot: Slot<P, L>,
) -> Slot<P, L>
    requires { IsFit P.Program P.Mail.Mail L.Link slot }
    ensures fit { IsFit P.Program P.Mail.Mail L.Link result }
    ensures stands { (s : State P P.Mail) (e : L) → SlotOk P.Program P.Mail.Mail L.Link s e slot → SlotOk P.Program P.Mail.Mail L.Link s e result }
{
    match slot {
        Slot::Kept(machine, end, hand) => turn_kept(rt, alloc, halt, machine, end, hand),
        Slot::Running(handle) => Slot::Running(handle),
        Slot::Over(answer, end) => Slot::Over(answer, end),
        Slot::Gone => Slot::Gone,
    }
}

/// One turn of a rank that the caller keeps.
fn turn_kept<R: Wait, P: Program, L: Link<Mail = P::Mail>>(
    rt: &R,
    alloc: Global,
    halt: &Halt,
    machine: Machine<P>,
    end: L,
    hand: Option<P::Mail>,
) -> Slot<P, L>
    requires { IsSteady P.Program P.Mail.Mail L.Link machine end hand }
    ensures fit { IsFit P.Program P.Mail.Mail L.Link result }
    ensures stands { (s : State P P.Mail) (e : L) → Drove P.Program P.Mail.Mail L.Link s e None machine end hand → SlotOk P.Program P.Mail.Mail L.Link s e result }
{
    let mut machine = machine;
    let mut end = end;
    let mut bell = halt.bell();
    if bell.heard() {
        return Slot::Over(Err(Stop::Halted), end);
    }
    match step_once(rt, alloc, &mut machine, &mut end, hand) {
        Ok(Step::Moved(hand)) => Slot::Kept(machine, end, hand),
        Ok(Step::Waits(hand)) => Slot::Kept(machine, end, hand),
        Ok(Step::Over) => Slot::Over(Ok(machine.into_program()), end),
        Err(NoMemory) => {
            bell.raise();
            end.rouse();
            Slot::Over(Err(Stop::NoMemory), end)
        }
    }
}
