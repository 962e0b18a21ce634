//! Sums over all ranks: machines by hand, worlds event by event, and drawn lists of events.

ghost use Rattle.std.specs.Prelude.{◌<◌, length};
ghost use Rattle.samr_tree.specs.TreeSum.{AreSummable};

use crate::draws::Draws;
use crate::sums::{five_and, numbers, three, world};
use samr_stage::{Machine, Mail, Turn};
use samr_tree::{SumMail, TreeSum};
use samr_world::Event;
use std::alloc::{AllocError as NoMemory, Global};
use std::sync::Arc;
use std::test::Fail;

/// The machine of a rank that is to add up these numbers.
fn machine(alloc: Global, values: Vec<u64>, rank: u16) -> Result<Machine<TreeSum>, NoMemory>
    requires summable { AreSummable values.items }
    requires is_rank { rank < length values.items }
{
    let run = Arc::new(alloc, values)?;
    let program = TreeSum::new(alloc, run, rank)?;
    let machine = Machine::new(alloc, program)?;
    Ok(machine)
}

/// The machines of all ranks that are to add up 5, 7 and 9.
fn machines(alloc: Global) -> Result<Vec<Machine<TreeSum>>, NoMemory> {
    let mut machines = Vec::new(alloc);
    for rank in 0..3 {
        machines.push(machine(alloc, three(alloc)?, rank)?)?;
    }
    Ok(machines)
}

/// The letter that a rank's machine gives out in a turn with this letter or with none.
fn turn(
    alloc: Global,
    machines: &mut Vec<Machine<TreeSum>>,
    rank: u16,
    letter: Option<SumMail>,
) -> Result<Option<SumMail>, NoMemory> {
    let Some(machine) = machines.get_mut(usize::from(rank)) else {
        return Ok(None);
    };
    match machine.turn(alloc, letter, true)? {
        Turn::Posted(posted) => Ok(Some(posted)),
        _ => Ok(None),
    }
}

/// The sender, the addressee and the number of each letter that three machines give out, rank after
/// rank, where each is delivered at once.
fn letters(
    alloc: Global,
    machines: &mut Vec<Machine<TreeSum>>,
) -> Result<Vec<(u16, u16, u64)>, NoMemory> {
    let mut letters = Vec::new(alloc);
    for _ in 0..20 {
        for rank in 0..3 {
            if let Some(letter) = turn(alloc, machines, rank, None)? {
                let name = letter.name();
                letters.push((name.sender, name.addressee, letter.value()))?;
                let _none = turn(alloc, machines, name.addressee, Some(letter))?;
            }
        }
    }
    Ok(letters)
}

#[test]
fn numbers_go_up_and_the_sum_comes_down(rt: HostRuntime) -> Result<(), Fail> {
    let mut machines = machines(rt.alloc())?;
    let told = letters(rt.alloc(), &mut machines)?;
    let want = [(1, 0, 7), (2, 0, 9), (0, 1, 21), (0, 2, 21)];
    assert!(rt; told.as_slice() == want.as_slice());
    for machine in machines {
        assert!(rt; machine.finished());
        assert_eq!(rt; machine.into_program().total(), Some(21));
    }
    Ok(())
}

#[test]
fn a_letter_is_given_out_where_there_is_room(rt: HostRuntime) -> Result<(), Fail> {
    let mut machine = machine(rt.alloc(), three(rt.alloc())?, 2)?;
    assert_eq!(rt; machine.rank(), 2);
    assert_eq!(rt; machine.label().phase, 5);
    assert!(rt; !machine.idle());
    assert!(rt; matches!(machine.turn(rt.alloc(), None, false)?, Turn::Idle));
    let Turn::Posted(letter) = machine.turn(rt.alloc(), None, true)? else {
        panic!(rt; "rank 2 has a letter to give out");
    };
    assert_eq!(rt; letter.name().sender, 2);
    assert_eq!(rt; letter.name().addressee, 0);
    assert_eq!(rt; letter.value(), 9);
    Ok(())
}

/// The letter that the second of two ranks has for the first, of a sum of 5 and a number.
fn letter_with(alloc: Global, number: u16) -> Result<Option<SumMail>, NoMemory> {
    let mut machine = machine(alloc, five_and(alloc, number)?, 1)?;
    match machine.turn(alloc, None, true)? {
        Turn::Posted(letter) => Ok(Some(letter)),
        _ => Ok(None),
    }
}

#[test]
fn a_strange_letter_and_a_second_one_do_no_harm(rt: HostRuntime) -> Result<(), Fail> {
    let alloc = rt.alloc();
    let mut root = machine(alloc, five_and(alloc, 7)?, 0)?;
    for (number, idle) in [(8, true), (7, false), (7, false)] {
        let letter = letter_with(alloc, number)?;
        assert!(rt; letter.is_some());
        root.turn(alloc, letter, true)?;
        assert_eq!(rt; root.idle(), idle);
    }
    for _ in 0..3 {
        root.turn(alloc, None, true)?;
    }
    assert_eq!(rt; root.into_program().total(), Some(12));
    Ok(())
}

#[test]
fn events_are_as_they_say(rt: HostRuntime) -> Result<(), Fail> {
    let alloc = rt.alloc();
    let mut world = world(alloc, three(alloc)?)?;
    let rows = [
        (Event::Turn(0), false, 0),
        (Event::Turn(3), false, 0),
        (Event::Deliver(0), false, 0),
        (Event::Turn(1), true, 1),
        (Event::Repeat(0), true, 2),
        (Event::Deliver(9), false, 2),
        (Event::Lose(1), true, 1),
        (Event::Turn(2), true, 2),
        (Event::Deliver(1), true, 1),
        (Event::Turn(0), false, 1),
        (Event::Deliver(0), true, 0),
        (Event::Turn(0), true, 0),
        (Event::Turn(0), true, 1),
    ];
    for (event, enabled, in_flight) in rows {
        assert_eq!(rt; world.apply(alloc, event)?, enabled, "{event:?}");
        assert_eq!(rt; world.in_flight(), in_flight, "{event:?}");
    }
    assert_eq!(rt; world.lost(), 1);
    assert!(rt; !world.finished());
    Ok(())
}

#[test]
fn a_world_of_three_ranks(rt: HostRuntime) -> Result<(), Fail> {
    let alloc = rt.alloc();
    let mut world = world(alloc, three(alloc)?)?;
    let events = [Event::Turn(1), Event::Turn(2), Event::Turn(0)];
    assert_eq!(rt; world.play(alloc, &events)?, 2);
    assert_eq!(rt; world.in_flight(), 2);
    assert_eq!(rt; world.apply(alloc, Event::Deliver(9))?, false);
    assert_eq!(rt; world.in_flight(), 2);
    assert_eq!(rt; world.lost(), 0);
    world.run_to_end(alloc, &mut Draws::new(20), 4)?;
    assert!(rt; world.finished());
    for program in world.into_programs() {
        assert_eq!(rt; program.total(), Some(21));
    }
    Ok(())
}

#[test]
fn every_drawn_list_ends_with_the_sum(rt: HostRuntime) -> Result<(), Fail> {
    let alloc = rt.alloc();
    let mut draws = Draws::new(1);
    for list in 0..16 * 200 {
        let ranks = 1 + list % 16;
        let values = numbers(alloc, &mut draws, ranks)?;
        let sum = values.iter().sum();
        let mut world = world(alloc, values)?;
        let events = draws.events(alloc, 8 * usize::from(ranks), ranks, false)?;
        world.play(alloc, &events)?;
        assert_eq!(rt; world.lost(), 0, "list {list}");
        world.run_to_end(alloc, &mut draws, 64)?;
        for program in world.into_programs() {
            assert_eq!(rt; program.total(), Some(sum), "list {list}");
        }
    }
    Ok(())
}

#[test]
fn after_losses_no_total_is_wrong(rt: HostRuntime) -> Result<(), Fail> {
    let alloc = rt.alloc();
    let mut draws = Draws::new(2);
    let mut some_finished = false;
    let mut some_waiting = false;
    for list in 0..16 * 200 {
        let ranks = 1 + list % 16;
        let values = numbers(alloc, &mut draws, ranks)?;
        let sum = values.iter().sum();
        let mut world = world(alloc, values)?;
        let events = draws.events(alloc, 100 * usize::from(ranks), ranks, true)?;
        world.play(alloc, &events)?;
        for program in world.into_programs() {
            match program.total() {
                Some(total) => {
                    assert_eq!(rt; total, sum, "list {list}");
                    some_finished = true;
                }
                None => some_waiting = true,
            }
        }
    }
    assert!(rt; some_finished && some_waiting);
    Ok(())
}
