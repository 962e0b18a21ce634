//! Which rounds of the way up and of the way down a rank visits.

ghost use Rattle.std.specs.Prelude.{◌≡◌, ◌+◌, ◌-◌, ◌<◌, ◌^◌, ◌&&◌, false, nat_eq, nat_lt};
ghost use Rattle.std.specs.Option.{ForSome, option_map_or};
ghost use Rattle.samr_tree.specs.Tree.{depth, tells_up, told_down};
ghost use Rattle.samr_tree.specs.TreeSum.{goes_up};
ghost use Rattle.samr_load.specs.Pieces.{load};
ghost use Rattle.samr_balance.specs.WayDown.{needs_any};

use samr_balance::Needs;
use samr_load::{Piece, load};
use samr_tree::{children, depth, height};

/// Whether a rank tells its parent in a round of the way up.
fn tells_up(rank: u16, ranks: u16, round: u32) -> bool
    requires { rank < ranks }
    ensures { result ≡ tells_up ranks round rank }
{
    let bottom = height(ranks);
    rank > 0 && round <= bottom && depth(rank) == bottom - round
}

/// Whether a child tells in a round of the way up, if there is one.
fn child_tells(child: Option<u16>, ranks: u16, round: u32) -> bool
    requires { ForSome child (λ c. c < ranks) }
    ensures { result ≡ option_map_or (λ c. tells_up ranks round c) child false }
{
    match child {
        Some(child) => tells_up(child, ranks, round),
        None => false,
    }
}

/// Whether a rank visits a round of the way up: it tells its parent, or a child tells it, or it is
/// alone.
pub fn goes_up(rank: u16, ranks: u16, round: u32) -> bool
    requires { rank < ranks }
    ensures { result ≡ goes_up ranks round rank }
{
    let (first, second) = children(rank, ranks);
    tells_up(rank, ranks, round)
        || child_tells(first, ranks, round)
        || child_tells(second, ranks, round)
        || ranks == 1
}

/// Whether a rank's parent tells it in a round of the way down, if it needs something.
pub fn told_down(rank: u16, ranks: u16, round: u32) -> bool
    requires { rank < ranks }
    ensures { result ≡ told_down ranks round rank }
{
    rank > 0 && u64::from(depth(rank)) == u64::from(round) + 1
}

/// Whether a rank gives something in a round of the way down: it is the round of its depth, and a child
/// needs something.
pub fn gives_down(rank: u16, round: u32, needs: Needs) -> bool
    ensures { result ≡ (nat_eq (depth rank) round && needs_any needs) }
{
    depth(rank) == round && (needs.first > 0 || needs.second > 0)
}

/// Whether a rank with this hand needs cells of its parent.
pub fn has_need(hand: &[Piece], quota: u64, needs: Needs) -> bool
    requires fits { load hand.now < 2 ^ 63 }
    requires quotas { quota + needs.first + needs.second < 2 ^ 63 }
    ensures { result ≡ nat_lt 0 ((quota + needs.first + needs.second) - load hand.now) }
{
    quota + needs.first + needs.second > load(hand)
}
