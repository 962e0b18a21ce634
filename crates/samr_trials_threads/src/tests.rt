//! Whole runs in threads: drivers, gates, odd letters, full inboxes, sleep, and want of memory.

ghost use Rattle.std.specs.Prelude.{◌≡◌, ◌<◌, length};
ghost use Rattle.samr_tree.specs.TreeSum.{AreSummable};

use crate::alarms::Loud;
use crate::breaking::{LateFirst, breaking_team};
use crate::gates::Meeting;
use crate::relays::{FLOOD, LONG_RING, relay_team, ring_letters, totals};
use crate::sums::{five, four, strangers, team, three};
use samr_drive::{Alarm, Halt, OpenGate, Stop, drive, run_ranks};
use samr_link::{Fabric, OddFabric, QueueFabric};
use samr_relay::RelayMail;
use samr_stage::Machine;
use samr_tree::{SumMail, TreeSum};
use std::alloc::{AllocError as NoMemory, Global};
use std::sync::{Arc, Wait};
use std::test::Fail;
use std::thread::Threads;

/// What the driver of the first rank answers in the sum of these numbers, where no other rank runs.
fn drive_first<R: Wait, A: Alarm>(
    rt: &R,
    alloc: Global,
    values: Vec<u64>,
    alarm: &mut A,
) -> Result<Result<TreeSum, Stop>, NoMemory>
    requires summable { AreSummable values.items }
    requires ranks { 0 < length values.items }
{
    let ranks = values.len() as u16;
    let run = Arc::new(alloc, values)?;
    let machine = Machine::new(alloc, TreeSum::new(alloc, run, 0)?)?;
    let mut fabric = QueueFabric::<SumMail>::new();
    let mut ends = fabric.make_ends(alloc, ranks)?;
    let end = ends.swap_remove(0);
    let (answer, _end) = drive(rt, alloc, machine, end, alarm);
    Ok(answer)
}

#[test]
fn a_rank_alone_finishes(rt: HostRuntime) -> Result<(), Fail> {
    let halt = Halt::new();
    let mut bell = halt.bell();
    let answer = drive_first(&rt, rt.alloc(), five(rt.alloc())?, &mut bell)?;
    let Ok(program) = answer else {
        return Err("the rank did not finish".into());
    };
    assert_eq!(rt; program.total(), Some(5));
    Ok(())
}

#[test]
fn an_alarm_halts_a_waiting_rank(rt: HostRuntime) -> Result<(), Fail> {
    let mut alarm = Loud::new();
    let answer = drive_first(&rt, rt.alloc(), three(rt.alloc())?, &mut alarm)?;
    let Err(stop) = answer else {
        return Err("the rank did not halt".into());
    };
    assert_eq!(rt; stop, Stop::Halted);
    Ok(())
}

#[test]
fn ranks_sum_up_in_threads(rt: HostRuntime) -> Result<(), Fail> {
    let mut fabric = QueueFabric::<SumMail>::new();
    let team = team(rt.alloc(), three(rt.alloc())?)?;
    let ended = run_ranks(&rt, rt.alloc(), team, &mut fabric, &OpenGate)?;
    assert_eq!(rt; ended.len(), 3);
    for program in &ended {
        assert_eq!(rt; program.total(), Some(21));
    }
    Ok(())
}

#[test]
fn all_ranks_run_at_once(rt: HostRuntime) -> Result<(), Fail> {
    let mut fabric = QueueFabric::<SumMail>::new();
    let team = team(rt.alloc(), four(rt.alloc())?)?;
    let gate = Meeting::new(4);
    let ended = run_ranks(&rt, rt.alloc(), team, &mut fabric, &gate)?;
    assert!(rt; !gate.missed());
    for program in &ended {
        assert_eq!(rt; program.total(), Some(10));
    }
    Ok(())
}

/// Whether the sum of 5, 7 and 9 comes to all ranks over ends that are odd after so many letters.
fn sums_up_oddly<R: Threads + Wait + Sync>(
    rt: &R,
    alloc: Global,
    every: u32,
) -> Result<bool, NoMemory>
    requires { 0 < every }
{
    let mut fabric = OddFabric::new(strangers(alloc)?, every);
    let team = team(alloc, three(alloc)?)?;
    let ended = run_ranks(rt, alloc, team, &mut fabric, &OpenGate)?;
    Ok(ended.len() == 3 && ended.iter().all(|program| program.total() == Some(21)))
}

#[test]
fn odd_letters_do_no_harm(rt: HostRuntime) -> Result<(), Fail> {
    assert!(rt; sums_up_oddly(&rt, rt.alloc(), 1)?);
    assert!(rt; sums_up_oddly(&rt, rt.alloc(), 2)?);
    assert!(rt; sums_up_oddly(&rt, rt.alloc(), 3)?);
    assert!(rt; sums_up_oddly(&rt, rt.alloc(), 7)?);
    Ok(())
}

/// What each of six ranks is told by the other five, 700 numbers each: of the numbers from 1 to
/// 4200, whose sum is 8,822,100, all but the 700 that it tells others, whose sum is 245,350
/// for the first rank and 490,000 more for each rank after it.
const TOLD: [Option<u64>; 6] = [
    Some(8_576_750),
    Some(8_086_750),
    Some(7_596_750),
    Some(7_106_750),
    Some(6_616_750),
    Some(6_126_750),
];

#[test]
fn more_letters_than_an_inbox_holds(rt: HostRuntime) -> Result<(), Fail> {
    let mut fabric = QueueFabric::<RelayMail>::new();
    let team = relay_team(rt.alloc(), FLOOD)?;
    let ended = run_ranks(&rt, rt.alloc(), team, &mut fabric, &OpenGate)?;
    assert!(rt; totals(rt.alloc(), ended)?.as_slice() == TOLD.as_slice());
    Ok(())
}

#[test]
fn many_letters_come_oddly(rt: HostRuntime) -> Result<(), Fail> {
    let mut fabric = OddFabric::new(ring_letters(rt.alloc())?, 3);
    let team = relay_team(rt.alloc(), FLOOD)?;
    let ended = run_ranks(&rt, rt.alloc(), team, &mut fabric, &OpenGate)?;
    assert!(rt; totals(rt.alloc(), ended)?.as_slice() == TOLD.as_slice());
    Ok(())
}

#[test]
fn ranks_that_sleep_go_round(rt: HostRuntime) -> Result<(), Fail> {
    let mut fabric = QueueFabric::<RelayMail>::new();
    let team = relay_team(rt.alloc(), LONG_RING)?;
    let ended = run_ranks(&rt, rt.alloc(), team, &mut fabric, &OpenGate)?;
    // Each rank is told every sixteenth number: the first rank 16, 32 and so on up to 1600, whose
    // sum is 80,800, and each other rank 100 of them, which are as much more than 0, 16 .. 1584.
    let told = totals(rt.alloc(), ended)?;
    assert_eq!(rt; told.len(), 16);
    assert_eq!(rt; told[0], Some(80_800));
    for rank in 1..16 {
        assert_eq!(rt; told[rank], Some(79_200 + 100 * rank as u64));
    }
    Ok(())
}

#[test]
fn want_of_memory_wakes_all(rt: HostRuntime) -> Result<(), Fail> {
    let mut fabric = QueueFabric::<SumMail>::new();
    let team = breaking_team(rt.alloc(), four(rt.alloc())?)?;
    assert!(rt; run_ranks(&rt, rt.alloc(), team, &mut fabric, &LateFirst).is_err());
    let mut odd = OddFabric::new(strangers(rt.alloc())?, 2);
    let team = breaking_team(rt.alloc(), four(rt.alloc())?)?;
    assert!(rt; run_ranks(&rt, rt.alloc(), team, &mut odd, &LateFirst).is_err());
    Ok(())
}
