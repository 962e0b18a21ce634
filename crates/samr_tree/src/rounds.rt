//! Which rounds of going up and of going down a rank visits.

ghost use Rattle.std.specs.Prelude.{◌≡◌, ℕ, ◌+◌, ◌<◌, false, List, length, sum};
ghost use Rattle.std.specs.Option.{ForSome, option_map_or};
ghost use Rattle.samr_tree.specs.Tree.{bottom, tells_up, told_down};
ghost use Rattle.samr_tree.specs.TreeSum.{sums_at, tellings_at, goes_up, goes_down};

use crate::tree::{children, depth, tells_up, told_down};

/// In how many rounds numbers come up the tree of so many ranks, and are told down it.
///
/// After so many rounds of `SumUp` rank 0 has the sum of what all ranks had, and after so many
/// rounds of `TellDown` from there every rank has it.
pub fn height(ranks: u16) -> u32
    requires { 0 < ranks }
    ensures bottom { result ≡ bottom ranks }
    ensures up { (values : List ℕ) → length values ≡ ranks → (sums_at values result).number 0 ≡ sum values }
    ensures down { (values : List ℕ) (rank : ℕ) → length values ≡ ranks → rank < ranks
        → (tellings_at values result).number rank ≡ sum values }
{
    depth(ranks - 1)
}

/// Whether a rank visits a round of going up: it tells its parent, or a child tells it, or it is
/// alone.
pub fn goes_up(rank: u16, ranks: u16, round: u32) -> bool
    requires { rank < ranks }
    ensures { result ≡ goes_up ranks round rank }
{
    let (first, second) = children(rank, ranks);
    tells_up(rank, ranks, round)
        || child_tells(first, ranks, round)
        || child_tells(second, ranks, round)
        || ranks == 1
}

fn child_tells(child: Option<u16>, ranks: u16, round: u32) -> bool
    requires { ForSome child (λ c. c < ranks) }
    ensures { result ≡ option_map_or (λ c. tells_up ranks round c) child false }
{
    match child {
        Some(child) => tells_up(child, ranks, round),
        None => false,
    }
}

/// Whether a rank visits a round of going down: its parent tells it, or it tells a child.
pub fn goes_down(rank: u16, ranks: u16, round: u32) -> bool
    requires { rank < ranks }
    ensures { result ≡ goes_down ranks round rank }
{
    let (first, second) = children(rank, ranks);
    told_down(rank, ranks, round)
        || child_told(first, ranks, round)
        || child_told(second, ranks, round)
}

fn child_told(child: Option<u16>, ranks: u16, round: u32) -> bool
    requires { ForSome child (λ c. c < ranks) }
    ensures { result ≡ option_map_or (λ c. told_down ranks round c) child false }
{
    match child {
        Some(child) => told_down(child, ranks, round),
        None => false,
    }
}
