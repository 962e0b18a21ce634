//! The step of a rank down the tree: what it gives its children, and what is left.

ghost use Rattle.std.specs.Prelude.{◌≡◌, ◌+◌, ◌<◌, ◌^◌, pos, ◌≤ℤ◌, unsigned_abs, IfOk};
ghost use Rattle.samr_load.specs.Pieces.{load};
ghost use Rattle.samr_load.specs.Descent.{given, fall};

use crate::pieces::Piece;
use crate::taking::{Taken, take};
use std::alloc::{AllocError as NoMemory, Global};

/// What a rank gives its children on the way down, and what is left.
#[derive(Debug, Drop)]
pub struct Fallen {
    pub first: Vec<Piece>,
    pub second: Vec<Piece>,
    pub left: Vec<Piece>,
}

/// Gives a child what it needs of a hand. Where it needs nothing the hand stays as it is.
fn give(alloc: Global, hand: Vec<Piece>, smallest: i64, need: u64) -> Result<Taken, NoMemory>
    requires smallest { pos 1 ≤ℤ smallest }
    requires fits { load hand.items < 2 ^ 63 }
    ensures taken { IfOk result (λ t. t.taken.items ≡ (given (unsigned_abs smallest) hand.items need).taken) }
    ensures rest { IfOk result (λ t. t.rest.items ≡ (given (unsigned_abs smallest) hand.items need).rest) }
    ensures cells { IfOk result (λ t. load t.taken.items + load t.rest.items ≡ load hand.items) }
{
    if need == 0 {
        return Ok(Taken {
            taken: Vec::new(alloc),
            rest: hand,
        });
    }
    let parts = take(alloc, hand, smallest, need)?;
    Ok(parts)
}

/// A rank's step on the way down the tree. `hand` has what it kept and what its parent gave it, and
/// `first` and `second` are what its children need. Where both are 0 the hand is left as it is.
///
/// # Errors
///
/// Where memory is short.
pub fn fall(
    alloc: Global,
    hand: Vec<Piece>,
    smallest: i64,
    first: u64,
    second: u64,
) -> Result<Fallen, NoMemory>
    requires smallest { pos 1 ≤ℤ smallest }
    requires fits { load hand.items < 2 ^ 63 }
    ensures first { IfOk result (λ f. f.first.items ≡ (fall (unsigned_abs smallest) hand.items first second).first) }
    ensures second { IfOk result (λ f. f.second.items ≡ (fall (unsigned_abs smallest) hand.items first second).second) }
    ensures left { IfOk result (λ f. f.left.items ≡ (fall (unsigned_abs smallest) hand.items first second).left) }
{
    let Taken { taken, rest } = give(alloc, hand, smallest, first)?;
    let Taken {
        taken: other,
        rest: left,
    } = give(alloc, rest, smallest, second)?;
    Ok(Fallen {
        first: taken,
        second: other,
        left,
    })
}
