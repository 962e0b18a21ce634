//! A whole run on a fabric.

ghost use Rattle.std.specs.Prelude.{◌≡◌, ◌<◌, ◌≤◌, ◌^◌, ◌⊎◌, [], ℕ, List, length, map, All, true, false, None, Ok, IfOk, OnOk};
ghost use denote.Param.Send.{IsSend, IsSync};
ghost use Rattle.std.specs.List.{AllZip};
ghost use Rattle.std.specs.Vec.{vec_capacity};
ghost use Rattle.samr_drive.specs.Driven.{IsSteady};
ghost use Rattle.samr_drive.specs.Runs.{PostedAll, TookAll};
ghost use Rattle.samr_drive.specs.Slots.{Trio, IsAnswer, ArePairs};
ghost use Rattle.samr_world.specs.Traffic.{IsBegun};
ghost use Rattle.samr_world.specs.World.{IsTeam, HasEnded};

use crate::gate::Gate;
use crate::halt::Halt;
use crate::ranks::{Answer, run_in};
use crate::stop::Stop;
use samr_link::{Fabric, Link};
use samr_stage::{Machine, Program};
use std::alloc::{AllocError as NoMemory, Global};
use std::sync::Wait;
use std::sync::atomic::AtomicBool;
use std::thread;
use std::thread::Threads;

/// Runs one fresh program per rank of a run, in order of rank, each in a thread of its own, over
/// the ends of a fabric, and gives the programs back in order of rank, each at its end.
///
/// A rank for which no thread can be started is driven by the caller, together with all others of
/// that kind, one turn of each after the other. Each driver passes the gate once for its rank,
/// before the rank's first turn.
///
/// Where the fabric tells what was posted, each rank posted to each rank just the letters that the
/// run has for it; where it tells what was taken, that is what was posted.
///
/// # Errors
///
/// Where memory is short. The fabric is settled where its ends were made, and else as it was.
pub fn run_ranks<R: Threads + Wait + Sync, P: Program + Send, F: Fabric, G: Gate + Sync>(
    rt: &R,
    alloc: Global,
    programs: Vec<P>,
    fabric: &mut F,
    gate: &G,
) -> Result<Vec<P>, NoMemory>
where
    F::End: Link<Mail = P::Mail>,
    P::Mail: Send,
    requires { (r : P.Mail.Run) × IsTeam P.Program P.Mail.Mail r programs.items }
    ensures ended { IfOk result (λ ended. (r : P.Mail.Run) → IsTeam P.Program P.Mail.Mail r programs.items → HasEnded P.Program P.Mail.Mail r ended.items) }
    ensures posted { OnOk result (F.tells_posted fabric.old ≡ true → (r : P.Mail.Run) → IsTeam P.Program P.Mail.Mail r programs.items
        → PostedAll (P.Mail.course r) (length programs.items) (F.posted fabric.new)) }
    ensures taken { OnOk result (F.tells_taken fabric.old ≡ true → TookAll (length programs.items) (F.posted fabric.new) (F.taken fabric.new)) }
    ensures settled { (fabric.new ≡ fabric.old) ⊎ (F.is_settled fabric.new ≡ true) }
{
    let ranks = ranks_of(&programs);
    let room = usize::from(ranks);
    let machines = begin_all(alloc, programs)?;
    let flags = lowered(alloc, room)?;
    let answers = Vec::with_capacity(alloc, room)?;
    let ended = Vec::with_capacity(alloc, room)?;
    let back = Vec::with_capacity(alloc, room)?;
    let ends = fabric.make_ends(alloc, ranks)?;
    let answers = run_all(rt, alloc, &flags, gate, machines, ends, answers);
    let (ended, back) = part(answers, ended, back);
    fabric.settle(back);
    ended
}

/// How many ranks a run has, by its programs.
fn ranks_of<P: Program>(programs: &Vec<P>) -> u16
    requires { (r : P.Mail.Run) × IsTeam P.Program P.Mail.Mail r programs.now.items }
    ensures { result ≡ length programs.now.items }
{
    if programs.is_empty() {
        return 0;
    }
    programs[0].ranks()
}

/// The machines of all programs.
fn begin_all<P: Program>(alloc: Global, programs: Vec<P>) -> Result<Vec<Machine<P>>, NoMemory>
    requires { (r : P.Mail.Run) × IsTeam P.Program P.Mail.Mail r programs.items }
    ensures { IfOk result (λ machines. AllZip (IsBegun P.Program P.Mail.Mail) programs.items machines.items) }
{
    let mut machines = Vec::new(alloc);
    'programs: for program in programs {
        machines.push(Machine::new(alloc, program)?)?;
    }
    Ok(machines)
}

/// So many flags that are not raised.
fn lowered(alloc: Global, count: usize) -> Result<Vec<AtomicBool>, NoMemory>
    ensures { IfOk result (λ flags. length flags.items ≡ count) }
{
    let mut flags = Vec::new(alloc);
    'flags: for _rank in 0..count {
        flags.push(AtomicBool::new(false))?;
    }
    Ok(flags)
}

/// Runs all ranks in threads, and gives their answers, in order of rank, in the room of the list
/// that is given for them.
fn run_all<
    R: Threads + Wait + Sync,
    P: Program + Send,
    L: Link<Mail = P::Mail> + Send,
    G: Gate + Sync,
>(
    rt: &R,
    alloc: Global,
    flags: &Vec<AtomicBool>,
    gate: &G,
    machines: Vec<Machine<P>>,
    ends: Vec<L>,
    answers: Vec<Answer<P, L>>,
) -> Vec<Answer<P, L>>
where
    P::Mail: Send,
    requires few { length machines.items < 2 ^ 16 }
    requires flags { length flags.now.items ≡ length machines.items }
    requires pairs { ArePairs (λ machine end. IsSteady P.Program P.Mail.Mail L.Link machine end None) machines.items ends.items }
    requires room { (answers.items ≡ []) × (length machines.items ≤ vec_capacity answers) }
    ensures { Trio (IsAnswer P.Program P.Mail.Mail L.Link) machines.items ends.items result.items }
{
    let halt = Halt::new();
    let halt = &halt;
    thread::scope(
        thread::scope_env(),
        rt,
        move |scope| -> Vec<Answer<P, L>>
            requires threads { IsSend P.row × IsSend L.row × IsSend P.Mail.row × IsSync R.row × IsSync G.row }
            requires few { length machines.items < 2 ^ 16 }
            requires flags { length flags.now.items ≡ length machines.items }
            requires pairs { ArePairs (λ machine end. IsSteady P.Program P.Mail.Mail L.Link machine end None) machines.items ends.items }
            requires room { (answers.items ≡ []) × (length machines.items ≤ vec_capacity answers) }
            ensures { Trio (IsAnswer P.Program P.Mail.Mail L.Link) machines.items ends.items result.items }
        { run_in(rt, alloc, scope, flags, gate, halt, machines, ends, answers) },
    )
}

/// The programs, where all answers have one, and the ends.
fn part<P: Drop, L: Drop>(
    answers: Vec<Answer<P, L>>,
    ended: Vec<P>,
    back: Vec<L>,
) -> (Result<Vec<P>, NoMemory>, Vec<L>)
    requires ended { (ended.items ≡ []) × (length answers.items ≤ vec_capacity ended) }
    requires back { (back.items ≡ []) × (length answers.items ≤ vec_capacity back) }
    ensures ends { result.1.items ≡ map (λ answer. answer.1) answers.items }
    ensures programs { IfOk result.0 (λ programs. AllZip (λ answer program. answer.0 ≡ Ok program) answers.items programs.items) }
{
    let mut ended = ended;
    let mut back = back;
    let mut short = false;
    'answers: for (answer, end) in answers {
        back.push_reserved(end);
        match answer {
            Ok(program) => ended.push_reserved(program),
            Err(_) => short = true,
        }
    }
    if short {
        return (Err(NoMemory), back);
    }
    (Ok(ended), back)
}
