//! The programs of sums and relays.

ghost use Rattle.std.specs.Prelude.{◌≡◌, ◌<◌, length, IfOk};
ghost use Rattle.samr_world.specs.World.{IsTeam};
ghost use Rattle.samr_tree.specs.TreeSum.{AreSummable};
ghost use Rattle.samr_relay.specs.Relay.{IsRelay};

use samr_relay::{Relay, RelayMail, RelayRun};
use samr_stage::{Mail, Program};
use samr_tree::{SumMail, TreeSum};
use std::alloc::{AllocError as NoMemory, Global};
use std::sync::Arc;

/// The number 1 of so many ranks.
pub fn ones(alloc: Global, ranks: u16) -> Result<Vec<u64>, NoMemory>
    requires { 0 < ranks }
    ensures { IfOk result (λ values. (length values.items ≡ ranks) × AreSummable values.items) }
{
    let mut values = Vec::new(alloc);
    'each: for _rank in 0..ranks {
        values.push(1)?;
    }
    Ok(values)
}

/// The parts of all ranks in the sum of these numbers.
pub fn tree_team(alloc: Global, values: Vec<u64>) -> Result<Vec<TreeSum>, NoMemory>
    requires { AreSummable values.items }
    ensures { IfOk result (λ team. IsTeam ⟦<TreeSum as Program>⟧ ⟦<SumMail as Mail>⟧ values.items team.items) }
{
    let ranks = values.len() as u16;
    let run = Arc::new(alloc, values)?;
    let mut team = Vec::new(alloc);
    'each: for rank in 0..ranks {
        team.push(TreeSum::new(alloc, Arc::try_clone(&run)?, rank)?)?;
    }
    Ok(team)
}

/// The parts of all ranks in a relay.
pub fn relay_team(alloc: Global, run: RelayRun) -> Result<Vec<Relay>, NoMemory>
    requires { IsRelay run }
    ensures { IfOk result (λ team. IsTeam ⟦<Relay as Program>⟧ ⟦<RelayMail as Mail>⟧ run team.items) }
{
    let ranks = run.ranks;
    let shared = Arc::new(alloc, run)?;
    let mut team = Vec::new(alloc);
    'each: for rank in 0..ranks {
        team.push(Relay::new(Arc::try_clone(&shared)?, rank))?;
    }
    Ok(team)
}
