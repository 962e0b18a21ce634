//! How often a phase is gone through again.

ghost use Rattle.std.specs.Prelude.{◌≡◌, ℕ, ◌+◌, ◌<◌, ◌≤◌, IsOk, IfOk};
ghost use Rattle.samr_phase.specs.Going.{AreSkipped};
ghost use Rattle.samr_phase.specs.Turning.{IsTurn};

use crate::bodied::Bodied;
use crate::part::Part;
use crate::phase::Phase;
use crate::went::Went;
use std::alloc::{AllocError as NoMemory, Global};

/// How often a phase is gone through again: as often as there are turns left. A rank that has
/// nothing to do in all turns left is idle, and need not know how many they are.
///
/// `X` is the part between two turns, `Y` that with which a turn begins (which may know more: that
/// one is left), `Z` that after the last. Its writer owes that each turn leaves one less, and that an
/// idle rank visits nothing in the turns that are left and ends with what it has. Where every rank
/// knows the number, none is idle before the end. [`crate::Repeat`] is then the phase of all turns.
pub trait Turns<M: Bodied<B>, B, X: Part, Y: Part, Z: Part, A: Phase<M, B, Y, X>> {
    /// How many turns are left.
    ghost left: { X.Whole → ℕ };

    /// That a rank visits nothing in the turns that are left.
    ghost idle: { X.Whole → ℕ → Type 0 };

    /// The whole with which a turn begins.
    ghost begun: { X.Whole → Y.Whole };

    /// The whole after the last turn.
    ghost ended: { X.Whole → Z.Whole };

    /// That a value is what an idle rank has, of the whole before a turn.
    ghost rest: { Z → X.Whole → ℕ → Type 0 };

    /// That to begin a turn wants no memory.
    ghost sure: { Type 0 };

    /// A number of turns that are enough.
    fn most(now: &X) -> u32
        requires { (w : X.Whole) × (rank : ℕ) × X.holds now.now w rank }
        ensures { (w : X.Whole) (rank : ℕ) → X.holds now.now w rank → left w ≤ result };

    /// Begins one more turn, or is over where the rank is idle.
    fn turn(alloc: Global, now: X) -> Result<Went<Y, Z>, NoMemory>
        requires { (w : X.Whole) × (rank : ℕ) × X.holds now w rank }
        ensures made { sure → IsOk result }
        ensures chosen { IfOk result (λ went. (w : X.Whole) (rank : ℕ) → X.holds now w rank
            → IsTurn left idle begun rest Y.holds w rank went) };

    ghost fewer: { (w : X.Whole) → 0 < left w → left w ≡ left (A.after (begun w)) + 1 };

    ghost rests: { (w : X.Whole) (rank : ℕ) → idle w rank → 0 < left w
        → AreSkipped rank (A.fragments (begun w)) × idle (A.after (begun w)) rank };

    ghost stays: { (z : Z) (w : X.Whole) (rank : ℕ) → rest z w rank → idle w rank → 0 < left w → rest z (A.after (begun w)) rank };

    ghost ends: { (z : Z) (w : X.Whole) (rank : ℕ) → rest z w rank → idle w rank → left w ≡ 0 → Z.holds z (ended w) rank };

    ghost same_ranks: { (w : X.Whole) → (Y.ranks (begun w) ≡ X.ranks w) × (Z.ranks (ended w) ≡ X.ranks w) };
}
