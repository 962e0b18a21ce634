//! Parents, children and depths in the tree of the ranks, and whose turn it is in a round.

ghost use Rattle.std.specs.Prelude.{◌≡◌, ◌+◌, ◌<◌, Some, None, nat_lt, if◌then◌else◌};
ghost use Rattle.samr_tree.specs.Tree.{parent, first_child, second_child, depth, tells_up, told_down};

/// The parent of a rank in the tree; rank 0 has none.
pub fn parent(rank: u16) -> Option<u16>
    ensures { result ≡ parent rank }
{
    if rank > 0 { Some((rank - 1) / 2) } else { None }
}

/// The children of a rank in the tree, where there are so many ranks.
pub fn children(rank: u16, ranks: u16) -> (Option<u16>, Option<u16>)
    ensures first { result.0 ≡ first_child ranks rank }
    ensures second { result.1 ≡ second_child ranks rank }
{
    let first = 2 * u32::from(rank) + 1;
    (below(first, ranks), below(first + 1, ranks))
}

/// A number where it is that of a rank.
fn below(number: u32, ranks: u16) -> Option<u16>
    ensures { result ≡ (if nat_lt number ranks then Some number else None) }
{
    if number < u32::from(ranks) {
        Some(number as u16)
    } else {
        None
    }
}

/// How many steps up the tree it is from a rank to rank 0.
pub fn depth(rank: u16) -> u32
    ensures { result ≡ depth rank }
{
    let mut steps = 0;
    let mut at = rank;
    'up: while let Some(above) = parent(at) {
        at = above;
        steps += 1;
    }
    steps
}

/// One where a test holds, and else none.
pub fn count_of(test: bool) -> u64
    ensures { result ≡ (if test then 1 else 0) }
{
    u64::from(test)
}

/// Whether a rank tells its parent in a round of going up.
pub fn tells_up(rank: u16, ranks: u16, round: u32) -> bool
    requires { rank < ranks }
    ensures { result ≡ tells_up ranks round rank }
{
    let bottom = depth(ranks - 1);
    rank > 0 && round <= bottom && depth(rank) == bottom - round
}

/// Whether a rank's parent tells it in a round of going down.
pub fn told_down(rank: u16, ranks: u16, round: u32) -> bool
    requires { rank < ranks }
    ensures { result ≡ told_down ranks round rank }
{
    rank > 0 && depth(rank) - 1 == round
}
