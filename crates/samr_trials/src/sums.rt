//! Worlds of sums over all ranks, and the numbers that they add up.

ghost use Rattle.std.specs.Prelude.{◌≡◌, ◌+◌, ◌*◌, ◌<◌, ◌≤◌, length, sum, false, IfOk};
ghost use Rattle.samr_world.specs.World.{IsTeam};
ghost use Rattle.samr_tree.specs.TreeSum.{AreSummable};

use crate::draws::Draws;
use samr_stage::{Mail, Program};
use samr_tree::{SumMail, TreeSum};
use samr_world::{Choices, World};
use std::alloc::{AllocError as NoMemory, Global};
use std::sync::Arc;

/// So many numbers, each below 1000.
pub fn numbers(alloc: Global, draws: &mut Draws, ranks: u16) -> Result<Vec<u64>, NoMemory>
    requires { 0 < ranks }
    ensures { IfOk result (λ values. (length values.items ≡ ranks) × AreSummable values.items) }
{
    let mut values = Vec::new(alloc);
    'each: for _rank in 0..ranks {
        values.push(draws.draw(1000))?;
    }
    Ok(values)
}

/// The parts of all ranks in the sum of these numbers.
fn team(alloc: Global, values: Vec<u64>) -> Result<Vec<TreeSum>, NoMemory>
    requires { AreSummable values.items }
    ensures { IfOk result (λ team. IsTeam ⟦<TreeSum as Program>⟧ ⟦<SumMail as Mail>⟧ values.items team.items) }
{
    let ranks = values.len() as u16;
    let run = Arc::new(alloc, values)?;
    let mut team = Vec::new(alloc);
    'each: for rank in 0..ranks {
        team.push(TreeSum::new(alloc, Arc::try_clone(&run)?, rank)?)?;
    }
    Ok(team)
}

/// A world of all ranks that are to add up these numbers.
pub fn world(alloc: Global, values: Vec<u64>) -> Result<World<TreeSum>, NoMemory>
    requires { AreSummable values.items }
    ensures { IfOk result (λ world. (world.failed ≡ false) × (world.shape.lost ≡ 0)) }
{
    let team = team(alloc, values)?;
    let world = World::new(alloc, team)?;
    Ok(world)
}

/// The numbers 5, 7 and 9 of three ranks.
pub fn three(alloc: Global) -> Result<Vec<u64>, NoMemory>
    ensures { IfOk result (λ values. (length values.items ≡ 3) × AreSummable values.items) }
{
    let values = vec![in alloc; 5, 7, 9]?;
    Ok(values)
}

/// The numbers 5 and another of two ranks.
pub fn five_and(alloc: Global, number: u16) -> Result<Vec<u64>, NoMemory>
    ensures { IfOk result (λ values. (length values.items ≡ 2) × AreSummable values.items) }
{
    let values = vec![in alloc; 5, u64::from(number)]?;
    Ok(values)
}
