//! Sums and rings on more and more ranks, in threads against one thread.

ghost use Rattle.std.specs.Prelude.{◌≡◌, ◌<◌};

use crate::report::{Case, Times, print_case};
use crate::stopwatch::Stopwatch;
use crate::teams::{ones, relay_team, tree_team};
use samr_drive::{OpenGate, run_ranks};
use samr_link::QueueFabric;
use samr_relay::{Pattern, RelayMail, RelayRun};
use samr_tree::SumMail;
use samr_world::{Choices, World};
use std::alloc::{AllocError as NoMemory, Global};
use std::io;
use std::rt::Clock;
use std::sync::Wait;
use std::thread::Threads;
use std::time::CpuClock;

/// How often a sum over all ranks is taken.
const SUMS: u32 = 1000;

/// How many letters go round a ring.
const LETTERS: u32 = 10_000;

/// The first of all events that may come next.
#[derive(Drop)]
struct First;

impl Choices for First {
    fn draw(&mut self, _below: u64) -> u64 {
        0
    }
}

/// How many ranks there are in each case: twice as many from one to the next.
fn ranks_at(place: u8) -> u16
    ensures { 0 < result }
{
    match place {
        0 => 1,
        1 => 2,
        2 => 4,
        3 => 8,
        _ => 16,
    }
}

/// A run in which each letter goes to the next rank.
fn ring(ranks: u16) -> RelayRun
    ensures ranks { result.ranks ≡ ranks }
    ensures ring { result.pattern ≡ Pattern.Ring }
    ensures rounds { result.rounds ≡ 10000 }
{
    RelayRun {
        ranks,
        rounds: LETTERS,
        pattern: Pattern::Ring,
    }
}

/// The sum of so many ones, with all ranks on one thread.
fn sum_in_world(alloc: Global, ranks: u16) -> Result<(), NoMemory>
    requires { 0 < ranks }
{
    let mut world = World::new(alloc, tree_team(alloc, ones(alloc, ranks)?)?)?;
    world.run_to_end(alloc, &mut First, 0)
}

/// The same with a thread for each rank.
fn sum_in_threads<R: Threads + Wait + Sync>(
    rt: &R,
    alloc: Global,
    ranks: u16,
) -> Result<(), NoMemory>
    requires { 0 < ranks }
{
    let team = tree_team(alloc, ones(alloc, ranks)?)?;
    let mut fabric = QueueFabric::<SumMail>::new();
    let _ended = run_ranks(rt, alloc, team, &mut fabric, &OpenGate)?;
    Ok(())
}

/// A ring with all ranks on one thread.
fn ring_in_world(alloc: Global, ranks: u16) -> Result<(), NoMemory>
    requires { 0 < ranks }
{
    let mut world = World::new(alloc, relay_team(alloc, ring(ranks))?)?;
    world.run_to_end(alloc, &mut First, 0)
}

/// The same with a thread for each rank.
fn ring_in_threads<R: Threads + Wait + Sync>(
    rt: &R,
    alloc: Global,
    ranks: u16,
) -> Result<(), NoMemory>
    requires { 0 < ranks }
{
    let team = relay_team(alloc, ring(ranks))?;
    let mut fabric = QueueFabric::<RelayMail>::new();
    let _ended = run_ranks(rt, alloc, team, &mut fabric, &OpenGate)?;
    Ok(())
}

/// The time of many sums with all ranks on one thread.
fn time_sums_in_world<R: Clock + CpuClock>(rt: &R, alloc: Global, ranks: u16) -> io::Result<Times>
    requires { 0 < ranks }
{
    let watch = Stopwatch::start(rt)?;
    for _ in 0..SUMS {
        sum_in_world(alloc, ranks)?;
    }
    watch.read(rt)
}

/// The time of as many with a thread for each rank.
fn time_sums_in_threads<R: Threads + Wait + Sync + Clock + CpuClock>(
    rt: &R,
    alloc: Global,
    ranks: u16,
) -> io::Result<Times>
    requires { 0 < ranks }
{
    let watch = Stopwatch::start(rt)?;
    for _ in 0..SUMS {
        sum_in_threads(rt, alloc, ranks)?;
    }
    watch.read(rt)
}

/// Sums over so many ranks: in each, every rank but the first tells its parent and is told once.
fn measure_sums<R: Threads + Wait + Sync + Clock + CpuClock>(
    rt: &R,
    alloc: Global,
    ranks: u16,
) -> io::Result<Case>
    requires { 0 < ranks }
{
    let world = time_sums_in_world(rt, alloc, ranks)?;
    let threads = time_sums_in_threads(rt, alloc, ranks)?;
    let letters = u64::from(SUMS) * 2 * u64::from(ranks - 1);
    Ok(Case {
        ranks,
        letters,
        threads,
        world,
    })
}

/// One ring of so many ranks. A rank alone has nobody to tell.
fn measure_ring<R: Threads + Wait + Sync + Clock + CpuClock>(
    rt: &R,
    alloc: Global,
    ranks: u16,
) -> io::Result<Case>
    requires { 0 < ranks }
{
    let watch = Stopwatch::start(rt)?;
    ring_in_world(alloc, ranks)?;
    let world = watch.read(rt)?;
    let watch = Stopwatch::start(rt)?;
    ring_in_threads(rt, alloc, ranks)?;
    let threads = watch.read(rt)?;
    let letters = if ranks == 1 { 0 } else { u64::from(LETTERS) };
    Ok(Case {
        ranks,
        letters,
        threads,
        world,
    })
}

/// Sums and rings on 1, 2, 4, 8 and 16 ranks, in threads against one thread.
pub fn print<R: Threads + Wait + Sync + Clock + CpuClock + Print>(
    rt: &R,
    alloc: Global,
) -> io::Result<()> {
    for place in 0..5 {
        let case = measure_sums(rt, alloc, ranks_at(place))?;
        print_case(rt, "sums", case)?;
    }
    for place in 0..5 {
        let case = measure_ring(rt, alloc, ranks_at(place))?;
        print_case(rt, "ring", case)?;
    }
    Ok(())
}
