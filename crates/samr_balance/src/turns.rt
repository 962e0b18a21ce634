//! Whose turn it is in a round of the way up and of the way down.

ghost use Rattle.std.specs.Prelude.{◌≡◌, ◌<◌};
ghost use Rattle.samr_tree.specs.Tree.{tells_up, told_down};

use samr_tree::depth;

/// Whether a rank tells its parent in a round of going up.
pub fn tells_up(rank: u16, ranks: u16, round: u32) -> bool
    requires { rank < ranks }
    ensures { result ≡ tells_up ranks round rank }
{
    let bottom = depth(ranks - 1);
    rank > 0 && round <= bottom && depth(rank) == bottom - round
}

/// Whether a rank's parent tells it in a round of going down, if it needs something.
pub fn told_down(rank: u16, ranks: u16, round: u32) -> bool
    requires { rank < ranks }
    ensures { result ≡ told_down ranks round rank }
{
    rank > 0 && u64::from(depth(rank)) == u64::from(round) + 1
}
