//! A world of two ranks, event by event.

ghost use Rattle.std.specs.Prelude.{◌≡◌, false, IfOk};

use crate::teller::{Teller, new_teller};
use samr_world::{Choices, Event, World};
use std::alloc::{AllocError as NoMemory, Global};
use std::test::Fail;

/// Draws numbers that look like chance.
#[derive(Drop)]
struct Draws(u64);

impl Choices for Draws {
    fn draw(&mut self, below: u64) -> u64 {
        self.0 = self
            .0
            .wrapping_mul(6364136223846793005)
            .wrapping_add(1442695040888963407);
        (self.0 >> 33) % below
    }
}

fn telling(alloc: Global) -> Result<World<Teller>, NoMemory>
    ensures { IfOk result (λ world. world.failed ≡ false) }
{
    let mut tellers = Vec::new(alloc);
    tellers.push(new_teller(0))?;
    tellers.push(new_teller(1))?;
    let world = World::new(alloc, tellers)?;
    Ok(world)
}

#[test]
fn events_are_as_they_say(rt: HostRuntime) -> Result<(), Fail> {
    let mut world = telling(rt.alloc())?;
    let rows = [
        (Event::Turn(1), false, 0),
        (Event::Deliver(0), false, 0),
        (Event::Turn(0), true, 1),
        (Event::Repeat(0), true, 2),
        (Event::Deliver(9), false, 2),
        (Event::Lose(1), true, 1),
        (Event::Deliver(0), true, 0),
        (Event::Turn(2), false, 0),
        (Event::Turn(0), true, 0),
        (Event::Turn(1), true, 0),
        (Event::Turn(1), false, 0),
    ];
    for (event, enabled, in_flight) in rows {
        assert_eq!(rt; world.apply(rt.alloc(), event)?, enabled);
        assert_eq!(rt; world.in_flight(), in_flight);
    }
    assert!(rt; world.finished());
    assert_eq!(rt; world.lost(), 1);
    Ok(())
}

#[test]
fn a_run_ends(rt: HostRuntime) -> Result<(), Fail> {
    let mut world = telling(rt.alloc())?;
    let events = [
        Event::Turn(0),
        Event::Turn(0),
        Event::Turn(0),
        Event::Repeat(0),
        Event::Repeat(2),
    ];
    assert_eq!(rt; world.play(rt.alloc(), &events)?, 3);
    assert_eq!(rt; world.in_flight(), 2);
    assert_eq!(rt; world.lost(), 0);
    assert_eq!(rt; world.next_event(), Some(Event::Deliver(0)));
    world.run_to_end(rt.alloc(), &mut Draws(5), 3)?;
    assert!(rt; world.finished());
    assert_eq!(rt; world.in_flight(), 0);
    let tellers = world.into_programs();
    assert_eq!(rt; tellers.len(), 2);
    assert_eq!(rt; tellers[1].rank, 1);
    assert!(rt; tellers[1].left);
    Ok(())
}
