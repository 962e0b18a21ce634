//! Three ranks that pass numbers on, letter by letter.

ghost use Rattle.samr_relay.specs.Relay.{HasTurns};

use samr_relay::{Pattern, Relay, RelayMail, RelayRun};
use samr_stage::{Machine, Mail, Turn};
use std::alloc::{AllocError as NoMemory, Global};
use std::sync::Arc;
use std::test::Fail;

/// The machines of the three ranks of four rounds of this pattern.
fn machines(alloc: Global, pattern: Pattern) -> Result<Vec<Machine<Relay>>, NoMemory>
    requires { HasTurns pattern }
{
    let run = RelayRun {
        ranks: 3,
        rounds: 4,
        pattern,
    };
    let shared = Arc::new(alloc, run)?;
    let mut machines = Vec::new(alloc);
    for rank in 0..3 {
        let program = Relay::new(Arc::try_clone(&shared)?, rank);
        machines.push(Machine::new(alloc, program)?)?;
    }
    Ok(machines)
}

/// The letter that a rank's machine gives out in a turn with this letter or with none.
fn turn(
    alloc: Global,
    machines: &mut Vec<Machine<Relay>>,
    rank: u16,
    letter: Option<RelayMail>,
) -> Result<Option<RelayMail>, NoMemory> {
    let Some(machine) = machines.get_mut(usize::from(rank)) else {
        return Ok(None);
    };
    match machine.turn(alloc, letter, true)? {
        Turn::Posted(posted) => Ok(Some(posted)),
        _ => Ok(None),
    }
}

/// The sender, the addressee and the number of each letter that the machines give out, rank after
/// rank, where each is delivered at once.
fn letters(
    alloc: Global,
    machines: &mut Vec<Machine<Relay>>,
) -> Result<Vec<(u16, u16, u64)>, NoMemory> {
    let mut letters = Vec::new(alloc);
    for _ in 0..20 {
        for rank in 0..3 {
            if let Some(letter) = turn(alloc, machines, rank, None)? {
                let name = letter.name();
                letters.push((name.sender, name.addressee, letter.number()))?;
                let _none = turn(alloc, machines, name.addressee, Some(letter))?;
            }
        }
    }
    Ok(letters)
}

/// What the three ranks were told in four rounds of this pattern.
fn totals(alloc: Global, pattern: Pattern) -> Result<Vec<Option<u64>>, NoMemory>
    requires { HasTurns pattern }
{
    let mut machines = machines(alloc, pattern)?;
    let _told = letters(alloc, &mut machines)?;
    let mut totals = Vec::new(alloc);
    for machine in machines {
        totals.push(machine.into_program().total())?;
    }
    Ok(totals)
}

#[test]
fn a_ring_passes_numbers_on(rt: HostRuntime) -> Result<(), Fail> {
    let alloc = rt.alloc();
    let told = letters(alloc, &mut machines(alloc, Pattern::Ring)?)?;
    let want = [(0, 1, 1), (1, 2, 2), (2, 0, 3), (0, 1, 4)];
    assert!(rt; told.as_slice() == want.as_slice());
    let totals = totals(alloc, Pattern::Ring)?;
    assert!(rt; totals.as_slice() == [Some(3), Some(5), Some(2)].as_slice());
    Ok(())
}

#[test]
fn a_flood_tells_all_others(rt: HostRuntime) -> Result<(), Fail> {
    let alloc = rt.alloc();
    let once = totals(alloc, Pattern::Flood { each: 1 })?;
    assert!(rt; once.as_slice() == [Some(5), Some(8), Some(7)].as_slice());
    let twice = totals(alloc, Pattern::Flood { each: 2 })?;
    assert!(rt; twice.as_slice() == [Some(7), Some(3), Some(10)].as_slice());
    Ok(())
}

#[test]
fn a_rank_alone_tells_nobody(rt: HostRuntime) -> Result<(), Fail> {
    let alloc = rt.alloc();
    let run = RelayRun {
        ranks: 1,
        rounds: 2,
        pattern: Pattern::Ring,
    };
    let program = Relay::new(Arc::new(alloc, run)?, 0);
    assert_eq!(rt; program.total(), None);
    let mut machine = Machine::new(alloc, program)?;
    for _ in 0..2 {
        machine.turn(alloc, None, true)?;
    }
    assert_eq!(rt; machine.into_program().total(), Some(0));
    Ok(())
}
