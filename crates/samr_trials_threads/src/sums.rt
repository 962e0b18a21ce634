//! The programs of sums over all ranks, and letters of one sum that are strange to another.

ghost use Rattle.std.specs.Prelude.{◌≡◌, ◌+◌, ◌*◌, ◌<◌, ◌≤◌, [], ◌∷◌, length, sum, IfOk};
ghost use Rattle.samr_world.specs.World.{IsTeam};
ghost use Rattle.samr_tree.specs.TreeSum.{AreSummable};

use samr_stage::{Machine, Mail, Program, Turn};
use samr_tree::{SumMail, TreeSum};
use std::alloc::{AllocError as NoMemory, Global};
use std::sync::Arc;

/// The parts of all ranks in the sum of these numbers.
pub fn team(alloc: Global, values: Vec<u64>) -> Result<Vec<TreeSum>, NoMemory>
    requires { AreSummable values.items }
    ensures { IfOk result (λ team. IsTeam ⟦<TreeSum as Program>⟧ ⟦<SumMail as Mail>⟧ values.items team.items) }
{
    let ranks = values.len() as u16;
    let run = Arc::new(alloc, values)?;
    let mut team = Vec::new(alloc);
    'each: for rank in 0..ranks {
        team.push(TreeSum::new(alloc, Arc::try_clone(&run)?, rank)?)?;
    }
    Ok(team)
}

/// The numbers 5, 7 and 9 of three ranks.
pub fn three(alloc: Global) -> Result<Vec<u64>, NoMemory>
    ensures { IfOk result (λ values. (length values.items ≡ 3) × AreSummable values.items) }
{
    let values = vec![in alloc; 5, 7, 9]?;
    Ok(values)
}

/// The number 5 of one rank.
pub fn five(alloc: Global) -> Result<Vec<u64>, NoMemory>
    ensures { IfOk result (λ values. (length values.items ≡ 1) × AreSummable values.items) }
{
    let values = vec![in alloc; 5]?;
    Ok(values)
}

/// The numbers 1, 2, 3 and 4 of four ranks.
pub fn four(alloc: Global) -> Result<Vec<u64>, NoMemory>
    ensures { IfOk result (λ values. (length values.items ≡ 4) × AreSummable values.items) }
{
    let values = vec![in alloc; 1, 2, 3, 4]?;
    Ok(values)
}

/// The first letters of the two ranks that have no children, in the sum of 1, 2, 3 and 4.
pub fn strangers(alloc: Global) -> Result<Vec<SumMail>, NoMemory> {
    let run = Arc::new(alloc, four(alloc)?)?;
    let mut letters = Vec::new(alloc);
    'ranks: for rank in 2..4 {
        let program = TreeSum::new(alloc, Arc::try_clone(&run)?, rank)?;
        let mut machine = Machine::new(alloc, program)?;
        if let Turn::Posted(letter) = machine.turn(alloc, None, true)? {
            letters.push(letter)?;
        }
    }
    Ok(letters)
}
