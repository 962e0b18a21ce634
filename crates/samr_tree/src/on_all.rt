//! The sum on all ranks, round by round, on one thread.

ghost use Rattle.std.specs.Prelude.{◌≡◌, ◌+◌, length, sum, All, IfOk};
ghost use Rattle.samr_tree.specs.TreeSum.{AreSummable, rounds_up, sums_at, tellings_at};
ghost use Rattle.samr_tree.specs.OnAll.{AreNumbers};

use crate::rounds::height;
use crate::sum_up::SumUp;
use crate::tell_down::TellDown;
use samr_stage::exchange;
use std::alloc::{AllocError as NoMemory, Global};

/// The sum of these numbers, one of each rank, as it comes to each rank by the rounds of `SumUp` and
/// of `TellDown`, with all ranks on one thread.
///
/// # Errors
///
/// Where memory is short.
pub fn sum_on_all(alloc: Global, values: &[u64]) -> Result<Vec<u64>, NoMemory>
    requires { AreSummable values.now }
    ensures ranks { IfOk result (λ totals. length totals.items ≡ length values.now) }
    ensures totals { IfOk result (λ totals. All (λ total. total ≡ sum values.now) totals.items) }
{
    let sums = go_up(alloc, values)?;
    let totals = go_down(alloc, values, &sums)?;
    Ok(totals)
}

/// What each rank has after all rounds of going up.
fn go_up(alloc: Global, values: &[u64]) -> Result<Vec<u64>, NoMemory>
    requires { AreSummable values.now }
    ensures { IfOk result (λ sums. AreNumbers (sums_at values.now (rounds_up values.now)).number
        (length values.now) sums.items) }
{
    let mut numbers = values.to_vec(alloc)?;
    'each: for round in 0..height(values.len() as u16) + 1 {
        numbers = go_up_once(alloc, values, round, &numbers)?;
    }
    Ok(numbers)
}

/// What each rank has after a round of going up.
fn go_up_once(
    alloc: Global,
    values: &[u64],
    round: u32,
    numbers: &[u64],
) -> Result<Vec<u64>, NoMemory>
    requires summable { AreSummable values.now }
    requires before { AreNumbers (sums_at values.now round).number (length values.now) numbers.now }
    ensures { IfOk result (λ after. AreNumbers (sums_at values.now (round + 1)).number
        (length values.now) after.items) }
{
    let ranks = values.len() as u16;
    let mut stages = Vec::new(alloc);
    'each: for rank in 0..ranks {
        let number = numbers[usize::from(rank)];
        stages.push(SumUp::start(alloc, rank, ranks, round, number)?)?;
    }
    let after = exchange(alloc, stages)?;
    Ok(after)
}

/// What each rank has after all rounds of going down, from what it had after going up.
fn go_down(alloc: Global, values: &[u64], sums: &[u64]) -> Result<Vec<u64>, NoMemory>
    requires summable { AreSummable values.now }
    requires sums { AreNumbers (sums_at values.now (rounds_up values.now)).number
        (length values.now) sums.now }
    ensures ranks { IfOk result (λ totals. length totals.items ≡ length values.now) }
    ensures totals { IfOk result (λ totals. All (λ total. total ≡ sum values.now) totals.items) }
{
    let mut numbers = turn_down(alloc, values, sums)?;
    'each: for round in 0..height(values.len() as u16) {
        numbers = go_down_once(alloc, values, round, &numbers)?;
    }
    Ok(numbers)
}

/// What each rank goes down with: rank 0 with what came up to it, and the others with 0.
fn turn_down(alloc: Global, values: &[u64], sums: &[u64]) -> Result<Vec<u64>, NoMemory>
    requires summable { AreSummable values.now }
    requires sums { AreNumbers (sums_at values.now (rounds_up values.now)).number
        (length values.now) sums.now }
    ensures { IfOk result (λ numbers. AreNumbers (tellings_at values.now 0).number
        (length values.now) numbers.items) }
{
    let mut numbers = Vec::new(alloc);
    'each: for rank in 0..values.len() {
        numbers.push(if rank == 0 { sums[rank] } else { 0 })?;
    }
    Ok(numbers)
}

/// What each rank has after a round of going down.
fn go_down_once(
    alloc: Global,
    values: &[u64],
    round: u32,
    numbers: &[u64],
) -> Result<Vec<u64>, NoMemory>
    requires summable { AreSummable values.now }
    requires before { AreNumbers (tellings_at values.now round).number (length values.now) numbers.now }
    ensures { IfOk result (λ after. AreNumbers (tellings_at values.now (round + 1)).number
        (length values.now) after.items) }
{
    let ranks = values.len() as u16;
    let mut stages = Vec::new(alloc);
    'each: for rank in 0..ranks {
        let number = numbers[usize::from(rank)];
        stages.push(TellDown::start(alloc, rank, ranks, round, number)?)?;
    }
    let after = exchange(alloc, stages)?;
    Ok(after)
}
