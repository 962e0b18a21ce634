//! The step of a rank up the tree: what it keeps, and what it gives its parent or asks of it.

ghost use Rattle.std.specs.Prelude.{◌≡◌, ◌<◌, ◌^◌, pos, ◌≤ℤ◌, unsigned_abs, IfOk};
ghost use Rattle.samr_load.specs.Pieces.{load};
ghost use Rattle.samr_load.specs.Ascent.{climb};

use crate::pieces::{Piece, load};
use crate::taking::{Taken, take};
use std::alloc::{AllocError as NoMemory, Global};

/// What a rank keeps on the way up, what it gives its parent, and how many cells it needs of it.
#[derive(Debug, Drop)]
pub struct Climbed {
    pub kept: Vec<Piece>,
    pub given: Vec<Piece>,
    pub need: u64,
}

/// A rank's step on the way up the tree. `hand` has its own pieces and what its children gave it, and
/// `wanted` is its quota with what they need.
///
/// # Errors
///
/// Where memory is short.
pub fn climb(
    alloc: Global,
    hand: Vec<Piece>,
    smallest: i64,
    wanted: u64,
) -> Result<Climbed, NoMemory>
    requires smallest { pos 1 ≤ℤ smallest }
    requires fits { load hand.items < 2 ^ 63 }
    ensures kept { IfOk result (λ c. c.kept.items ≡ (climb (unsigned_abs smallest) hand.items wanted).kept) }
    ensures given { IfOk result (λ c. c.given.items ≡ (climb (unsigned_abs smallest) hand.items wanted).given) }
    ensures need { IfOk result (λ c. c.need ≡ (climb (unsigned_abs smallest) hand.items wanted).need) }
{
    let has = load(hand.as_slice());
    let parts = take(alloc, hand, smallest, has.saturating_sub(wanted))?;
    let Taken { taken, rest } = parts;
    Ok(Climbed {
        kept: rest,
        given: taken,
        need: wanted.saturating_sub(has),
    })
}
