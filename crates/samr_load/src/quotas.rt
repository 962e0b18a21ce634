//! How many cells each rank shall have.

ghost use Rattle.std.specs.Prelude.{◌≡◌, ◌<◌, ◌≤◌, ◌*◌, ◌/◌};
ghost use Rattle.samr_load.specs.Balanced.{quota_of};

/// A rank's share of so many cells: the shares of all ranks differ by one at most, and add up.
pub fn quota(total: u64, ranks: u16, rank: u16) -> u64
    requires { rank < ranks }
    ensures { result ≡ quota_of total ranks rank }
{
    part_below(total, ranks, rank + 1) - part_below(total, ranks, rank)
}

/// How many cells the ranks below one have together.
fn part_below(total: u64, ranks: u16, rank: u16) -> u64
    requires some { 0 < ranks }
    requires below { rank ≤ ranks }
    ensures { result ≡ total * rank / ranks }
{
    (u128::from(total) * u128::from(rank) / u128::from(ranks)) as u64
}
