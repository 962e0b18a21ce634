//! The programs of relays: floods of letters, and rings.

ghost use Rattle.std.specs.Prelude.{◌≡◌, IfOk};
ghost use Rattle.samr_world.specs.World.{IsTeam};
ghost use Rattle.samr_relay.specs.Relay.{IsRelay};

use samr_relay::{Pattern, Relay, RelayMail, RelayRun};
use samr_stage::{Machine, Mail, Program, Turn};
use std::alloc::{AllocError as NoMemory, Global};
use std::sync::Arc;

/// Six ranks, each of which tells each other 700 numbers.
pub const FLOOD: RelayRun = RelayRun {
    ranks: 6,
    rounds: 4200,
    pattern: Pattern::Flood { each: 700 },
};

/// The same ranks in a ring.
const RING: RelayRun = RelayRun {
    ranks: 6,
    rounds: 4200,
    pattern: Pattern::Ring,
};

/// Sixteen ranks in a ring, with one letter under way.
pub const LONG_RING: RelayRun = RelayRun {
    ranks: 16,
    rounds: 1600,
    pattern: Pattern::Ring,
};

/// The parts of all ranks in a relay.
pub fn relay_team(alloc: Global, run: RelayRun) -> Result<Vec<Relay>, NoMemory>
    requires { IsRelay run }
    ensures { IfOk result (λ team. IsTeam ⟦<Relay as Program>⟧ ⟦<RelayMail as Mail>⟧ run team.items) }
{
    let ranks = run.ranks;
    let shared = Arc::new(alloc, run)?;
    let mut team = Vec::new(alloc);
    'each: for rank in 0..ranks {
        team.push(Relay::new(Arc::try_clone(&shared)?, rank))?;
    }
    Ok(team)
}

/// The letters that the first rank of the ring gives out before it waits.
pub fn ring_letters(alloc: Global) -> Result<Vec<RelayMail>, NoMemory> {
    let run = Arc::new(alloc, RING)?;
    let mut machine = Machine::new(alloc, Relay::new(run, 0))?;
    let mut letters = Vec::new(alloc);
    if let Turn::Posted(letter) = machine.turn(alloc, None, true)? {
        letters.push(letter)?;
    }
    Ok(letters)
}

/// What the ranks were told.
pub fn totals(alloc: Global, ended: Vec<Relay>) -> Result<Vec<Option<u64>>, NoMemory> {
    let mut totals = Vec::with_capacity(alloc, ended.len())?;
    for program in &ended {
        totals.push(program.total())?;
    }
    Ok(totals)
}
