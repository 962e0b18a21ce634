//! One stage in a run.

ghost use Rattle.std.specs.Prelude.{◌≡◌, ℕ, Bool, true, false, Option, Some, IsOk, IfOk};
ghost use Rattle.samr_stage.specs.declared.label.Label.{Label};
ghost use Rattle.samr_stage.specs.declared.label.Name.{Name};
ghost use Rattle.samr_phase.specs.AtOne.{Plays};

use crate::bodied::Bodied;
use crate::part::Part;
use samr_stage::{Carried, Label};
use std::alloc::{AllocError as NoMemory, Global};

/// A stage that has begun, and what the rank keeps beside it.
#[derive(Drop)]
pub struct Begun<S, K> {
    pub stage: S,
    pub kept: K,
}

/// How a stage stands in a run: at which label, who visits it, what it is begun with, and what it
/// leaves. The value is what a rank keeps beside the stage.
///
/// Its writer owes that the stage that a rank begins holds the rank's part of a whole of the stage
/// with the row and the results that the step says, and that what is left after it, or without it
/// where the rank skips it, is the rank's part of the whole after it. [`crate::One`] is then the
/// phase of it.
pub trait Step<M: Bodied<B>, B, I: Part, O: Part, S: Carried<M>>: Drop {
    /// The label of the stage.
    ghost label: { I.Whole → Label };

    /// Whether a rank visits the stage.
    ghost visits: { I.Whole → ℕ → Bool };

    /// What one rank tells another at the stage.
    ghost says: { I.Whole → ℕ → ℕ → Option S.Body };

    /// What the stage says, as the body of a letter of the run.
    ghost wrap: { S.Body → B };

    /// That the stage gives a rank a result.
    ghost gives: { I.Whole → ℕ → S.Out → Type 0 };

    /// The whole of which the ranks have parts after the stage.
    ghost after: { I.Whole → O.Whole };

    /// That a value is what a rank keeps beside the stage.
    ghost keeps: { Self → I.Whole → ℕ → Type 0 };

    /// That to begin the stage, and to skip it, wants no memory.
    ghost sure: { Type 0 };

    /// The label of the stage.
    fn label(input: &I) -> Label
        requires { (w : I.Whole) × (rank : ℕ) × I.holds input.now w rank }
        ensures { (w : I.Whole) (rank : ℕ) → I.holds input.now w rank → result ≡ label w };

    /// Whether the rank visits the stage.
    fn visits(input: &I) -> bool
        requires { (w : I.Whole) × (rank : ℕ) × I.holds input.now w rank }
        ensures { (w : I.Whole) (rank : ℕ) → I.holds input.now w rank → result ≡ visits w rank };

    /// What a rank has after the stage that does not visit it.
    fn skip(alloc: Global, input: I) -> Result<O, NoMemory>
        requires { (w : I.Whole) × (rank : ℕ) × I.holds input w rank × (visits w rank ≡ false) }
        ensures made { sure → IsOk result }
        ensures after { IfOk result (λ out. (w : I.Whole) (rank : ℕ) → I.holds input w rank → visits w rank ≡ false
            → O.holds out (after w) rank) };

    /// The stage of a rank that visits it.
    fn begin(alloc: Global, input: I) -> Result<Begun<S, Self>, NoMemory>
        requires { (w : I.Whole) × (rank : ℕ) × I.holds input w rank × (visits w rank ≡ true) }
        ensures made { sure → IsOk result }
        ensures plays { IfOk result (λ begun. (w : I.Whole) (rank : ℕ) → I.holds input w rank → visits w rank ≡ true
            → Plays S.starts S.ranks_of S.says S.gives (I.ranks w) (says w) (gives w rank) rank begun.stage) }
        ensures keeps { IfOk result (λ begun. (w : I.Whole) (rank : ℕ) → I.holds input w rank → visits w rank ≡ true
            → keeps begun.kept w rank) };

    /// What a rank has after the stage.
    fn end(self, alloc: Global, given: S::Out) -> Result<O, NoMemory>
        requires { (w : I.Whole) × (rank : ℕ) × keeps self w rank × gives w rank given }
        ensures { IfOk result (λ out. (w : I.Whole) (rank : ℕ) → keeps self w rank → gives w rank given
            → O.holds out (after w) rank) };

    ghost bodies: { (run : M.Run) (name : Name) (body : S.Body) → M.letter_of run name ≡ Some (wrap body) → S.has_body run name body };

    ghost same_ranks: { (w : I.Whole) → O.ranks (after w) ≡ I.ranks w };
}
