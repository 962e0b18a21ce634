//! The tree of six ranks, and sums over it.

ghost use Rattle.std.specs.Prelude.{◌+◌, ◌<◌, ◌^◌, length, IfOk};
ghost use Rattle.samr_tree.specs.OnAll.{AreNumbers};
ghost use Rattle.samr_tree.specs.TreeSum.{AreSummable, sums_at};

use samr_stage::exchange;
use samr_tree::{SumUp, TellDown, children, depth, parent, sum_on_all};
use std::alloc::{AllocError as NoMemory, Global};
use std::test::Fail;

/// What each rank has after a round of a sum up the tree, where the ranks began with these values
/// and have these numbers before the round.
fn up_once(alloc: Global, values: &[u64], round: u32, numbers: &[u64]) -> Result<Vec<u64>, NoMemory>
    requires summable { AreSummable values.now }
    requires before { AreNumbers (sums_at values.now round).number (length values.now) numbers.now }
    ensures { IfOk result (λ after. AreNumbers (sums_at values.now (round + 1)).number
        (length values.now) after.items) }
{
    let ranks = values.len() as u16;
    let mut stages = Vec::new(alloc);
    'each: for rank in 0..ranks {
        let number = numbers[usize::from(rank)];
        stages.push(SumUp::start(alloc, rank, ranks, round, number)?)?;
    }
    let after = exchange(alloc, stages)?;
    Ok(after)
}

/// What each rank has after a round of telling down the tree, where the ranks have these numbers
/// before it.
fn down_once(alloc: Global, round: u32, numbers: &[u64]) -> Result<Vec<u64>, NoMemory>
    requires { length numbers.now < 2 ^ 16 }
{
    let ranks = numbers.len() as u16;
    let mut stages = Vec::new(alloc);
    'each: for rank in 0..ranks {
        let number = numbers[usize::from(rank)];
        stages.push(TellDown::start(alloc, rank, ranks, round, number)?)?;
    }
    let after = exchange(alloc, stages)?;
    Ok(after)
}

#[test]
fn six_ranks(rt: HostRuntime) {
    let rows = [
        (0, None, (Some(1), Some(2)), 0),
        (1, Some(0), (Some(3), Some(4)), 1),
        (2, Some(0), (Some(5), None), 1),
        (3, Some(1), (None, None), 2),
        (4, Some(1), (None, None), 2),
        (5, Some(2), (None, None), 2),
    ];
    for (rank, above, below, deep) in rows {
        assert_eq!(rt; parent(rank), above, "parent of {rank}");
        assert!(rt; children(rank, 6) == below, "children of {rank}");
        assert_eq!(rt; depth(rank), deep, "depth of {rank}");
    }
    assert!(rt; children(u16::MAX, u16::MAX) == (None, None));
    assert_eq!(rt; depth(u16::MAX), 16);
}

#[test]
fn six_ranks_round_by_round(rt: HostRuntime) -> Result<(), Fail> {
    let alloc = rt.alloc();
    let values = [1, 2, 3, 4, 5, 6];
    let first = up_once(alloc, &values, 0, &values)?;
    assert!(rt; first.as_slice() == [1, 11, 9, 4, 5, 6].as_slice());
    let second = up_once(alloc, &values, 1, &first)?;
    assert!(rt; second.as_slice() == [21, 11, 9, 4, 5, 6].as_slice());
    let sums = up_once(alloc, &values, 2, &second)?;
    assert!(rt; sums.as_slice() == second.as_slice());
    let next = down_once(alloc, 0, &[21, 0, 0, 0, 0, 0])?;
    assert!(rt; next.as_slice() == [21, 21, 21, 0, 0, 0].as_slice());
    Ok(())
}

#[test]
fn every_rank_has_the_sum(rt: HostRuntime) -> Result<(), Fail> {
    let totals = sum_on_all(rt.alloc(), &[5, 7, 9])?;
    assert!(rt; totals.as_slice() == [21, 21, 21].as_slice());
    let alone = sum_on_all(rt.alloc(), &[4])?;
    assert!(rt; alone.as_slice() == [4].as_slice());
    Ok(())
}
