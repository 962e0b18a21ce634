//! The threads of all ranks of a run.

ghost use Rattle.std.specs.Prelude.{◌≡◌, ◌<◌, ◌≤◌, ◌^◌, [], ℕ, List, length, All, None};
ghost use Rattle.std.specs.Vec.{vec_capacity};
ghost use Rattle.samr_drive.specs.Driven.{IsSteady};
ghost use Rattle.samr_drive.specs.Slots.{Trio, KeptBy, IsAnswer, ArePairs};
ghost use Rattle.samr_drive.specs.Standing.{SlotOk, IsFit, IsAway};
ghost use Rattle.samr_stage.specs.Machine.{State};

use crate::driver::drive;
use crate::gate::Gate;
use crate::halt::Halt;
use crate::kept::{drive_kept, enter_kept};
use crate::slot::{Ran, Slot};
use crate::stop::Stop;
use crate::thread_of::start;
use samr_link::Link;
use samr_stage::{Machine, Program};
use std::alloc::Global;
use std::sync::Wait;
use std::sync::atomic::AtomicBool;
use std::thread::{Scope, Threads};

/// A rank's answer, with the end that its driver handed back.
pub type Answer<P, L> = (Result<P, Stop>, L);

/// Runs all ranks in the threads of a scope, and gives their answers, in order of rank, in the room
/// of the list that is given for them.
pub fn run_in<
    's,
    E,
    R: Threads + Wait + Sync + 's,
    P: Program + Send + 's,
    L: Link<Mail = P::Mail> + Send + 's,
    G: Gate + Sync + 's,
>(
    rt: &'s R,
    alloc: Global,
    scope: &'s Scope<'s, E>,
    flags: &'s Vec<AtomicBool>,
    gate: &'s G,
    halt: &'s Halt,
    machines: Vec<Machine<P>>,
    ends: Vec<L>,
    answers: Vec<Answer<P, L>>,
) -> Vec<Answer<P, L>>
where
    P::Mail: Send + 's,
    requires few { length machines.items < 2 ^ 16 }
    requires flags { length flags.now.items ≡ length machines.items }
    requires pairs { ArePairs (λ machine end. IsSteady P.Program P.Mail.Mail L.Link machine end None) machines.items ends.items }
    requires room { (answers.items ≡ []) × (length machines.items ≤ vec_capacity answers) }
    ensures { Trio (IsAnswer P.Program P.Mail.Mail L.Link) machines.items ends.items result.items }
{
    let Ok(slots) = Vec::with_capacity(alloc, machines.len()) else {
        return all_short(ends, answers);
    };
    let mut slots = start_all(rt, alloc, scope, flags, gate, halt, machines, ends, slots);
    enter_kept(gate, &slots);
    drive_kept(rt, alloc, halt, &mut slots);
    join_all(rt, alloc, halt, slots, answers)
}

/// The answers of ranks that were not started for want of memory.
fn all_short<P: Program, L: Link<Mail = P::Mail>>(
    ends: Vec<L>,
    answers: Vec<Answer<P, L>>,
) -> Vec<Answer<P, L>>
    requires room { (answers.items ≡ []) × (length ends.items ≤ vec_capacity answers) }
    ensures { (machines : List (State P P.Mail)) → length machines ≡ length ends.items → Trio (IsAnswer P.Program P.Mail.Mail L.Link) machines ends.items result.items }
{
    let mut answers = answers;
    'ends: for end in ends {
        answers.push_reserved((Err(Stop::NoMemory), end));
    }
    answers
}

/// Starts the thread of each rank.
fn start_all<
    's,
    E,
    R: Wait + Sync + 's,
    P: Program + Send + 's,
    L: Link<Mail = P::Mail> + Send + 's,
    G: Gate + Sync + 's,
>(
    rt: &'s R,
    alloc: Global,
    scope: &'s Scope<'s, E>,
    flags: &'s Vec<AtomicBool>,
    gate: &'s G,
    halt: &'s Halt,
    machines: Vec<Machine<P>>,
    ends: Vec<L>,
    slots: Vec<Slot<P, L>>,
) -> Vec<Slot<P, L>>
where
    P::Mail: Send + 's,
    requires few { length machines.items < 2 ^ 16 }
    requires flags { length flags.now.items ≡ length machines.items }
    requires pairs { ArePairs (λ machine end. IsSteady P.Program P.Mail.Mail L.Link machine end None) machines.items ends.items }
    requires room { (slots.items ≡ []) × (length machines.items ≤ vec_capacity slots) }
    ensures stand { Trio (SlotOk P.Program P.Mail.Mail L.Link) machines.items ends.items result.items }
    ensures fit { All (IsFit P.Program P.Mail.Mail L.Link) result.items }
{
    let mut slots = slots;
    let mut rank = 0;
    'ranks: for (machine, end) in machines.into_iter().zip(ends) {
        let flag = &flags[usize::from(rank)];
        slots.push_reserved(start(rt, alloc, scope, flag, gate, halt, rank, machine, end));
        rank += 1;
    }
    slots
}

/// Waits for the thread of each rank.
fn join_all<R: Threads + Wait, P: Program, L: Link<Mail = P::Mail>>(
    rt: &R,
    alloc: Global,
    halt: &Halt,
    slots: Vec<Slot<P, L>>,
    answers: Vec<Answer<P, L>>,
) -> Vec<Answer<P, L>>
    requires fit { All (IsFit P.Program P.Mail.Mail L.Link) slots.items }
    requires away { All (IsAway P.Program P.Mail.Mail L.Link) slots.items }
    requires room { (answers.items ≡ []) × (length slots.items ≤ vec_capacity answers) }
    ensures { (machines : List (State P P.Mail)) (ends : List L) → Trio (SlotOk P.Program P.Mail.Mail L.Link) machines ends slots.items
        → Trio (IsAnswer P.Program P.Mail.Mail L.Link) machines ends result.items }
{
    let mut answers = answers;
    'slots: for slot in slots {
        answers.push_reserved(join_slot(rt, alloc, halt, slot));
    }
    answers
}

/// Waits for the thread of a rank.
fn join_slot<R: Threads + Wait, P: Program, L: Link<Mail = P::Mail>>(
    rt: &R,
    alloc: Global,
    halt: &Halt,
    slot: Slot<P, L>,
) -> Answer<P, L>
    requires fit { IsFit P.Program P.Mail.Mail L.Link slot }
    requires away { IsAway P.Program P.Mail.Mail L.Link slot }
    ensures { (s : State P P.Mail) (e : L) → SlotOk P.Program P.Mail.Mail L.Link s e slot → IsAnswer P.Program P.Mail.Mail L.Link s e result }
{
    match slot {
        Slot::Running(handle) => answer_of(rt, alloc, halt, handle.join(rt)),
        Slot::Over(answer, end) => (answer, end),
        Slot::Kept(_, _, _) => unreachable!(),
        Slot::Gone => unreachable!(),
    }
}

/// What a thread answered. Where it handed its machine and its end back, the caller drives them.
fn answer_of<R: Wait, P: Program, L: Link<Mail = P::Mail>>(
    rt: &R,
    alloc: Global,
    halt: &Halt,
    ran: Ran<P, Machine<P>, L>,
) -> Answer<P, L>
    requires { (s : State P P.Mail) × (e : L) × IsSteady P.Program P.Mail.Mail L.Link s e None × KeptBy P.Program P.Mail.Mail L.Link s e ran }
    ensures { (s : State P P.Mail) (e : L) → KeptBy P.Program P.Mail.Mail L.Link s e ran → IsAnswer P.Program P.Mail.Mail L.Link s e result }
{
    match ran {
        Ran::Driven(answer, end) => (answer, end),
        Ran::Back(machine, end) => {
            let mut bell = halt.bell();
            drive(rt, alloc, machine, end, &mut bell)
        }
    }
}
