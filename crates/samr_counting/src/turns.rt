//! Which rounds up and down the tree of the ranks a rank visits.

ghost use Rattle.std.specs.Prelude.{◌≡◌, ◌<◌, false};
ghost use Rattle.std.specs.Option.{ForSome, option_map_or};
ghost use Rattle.samr_tree.specs.Tree.{tells_up, told_down};
ghost use Rattle.samr_tree.specs.TreeSum.{goes_up, goes_down};

use samr_tree::{children, depth};

/// Whether a rank visits a round up the tree: it tells its parent, or a child tells it, or it is alone.
pub fn goes_up(rank: u16, ranks: u16, round: u32) -> bool
    requires { rank < ranks }
    ensures { result ≡ goes_up ranks round rank }
{
    let (first, second) = children(rank, ranks);
    tells_up(rank, ranks, round)
        || child_tells(first, ranks, round)
        || child_tells(second, ranks, round)
        || ranks == 1
}

fn tells_up(rank: u16, ranks: u16, round: u32) -> bool
    requires { rank < ranks }
    ensures { result ≡ tells_up ranks round rank }
{
    let bottom = depth(ranks - 1);
    rank > 0 && round <= bottom && depth(rank) == bottom - round
}

fn child_tells(child: Option<u16>, ranks: u16, round: u32) -> bool
    requires { ForSome child (λ c. c < ranks) }
    ensures { result ≡ option_map_or (λ c. tells_up ranks round c) child false }
{
    match child {
        Some(child) => tells_up(child, ranks, round),
        None => false,
    }
}

/// Whether a rank visits a round down the tree: its parent tells it, or it tells a child.
pub fn goes_down(rank: u16, ranks: u16, round: u32) -> bool
    requires { rank < ranks }
    ensures { result ≡ goes_down ranks round rank }
{
    let (first, second) = children(rank, ranks);
    told_down(rank, ranks, round)
        || child_told(first, ranks, round)
        || child_told(second, ranks, round)
}

fn told_down(rank: u16, ranks: u16, round: u32) -> bool
    requires { rank < ranks }
    ensures { result ≡ told_down ranks round rank }
{
    rank > 0 && depth(rank) - 1 == round
}

fn child_told(child: Option<u16>, ranks: u16, round: u32) -> bool
    requires { ForSome child (λ c. c < ranks) }
    ensures { result ≡ option_map_or (λ c. told_down ranks round c) child false }
{
    match child {
        Some(child) => told_down(child, ranks, round),
        None => false,
    }
}
