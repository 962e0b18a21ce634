//! What the ranks do at one label, seen from one of them.

ghost use Rattle.std.specs.Prelude.{◌≡◌, ◌≢◌, ℕ, ◌<◌, Option, Some, is_some, IsTrue, IfOk, OnOk, sum_by};
ghost use Rattle.samr_stage.specs.Row.{told, heard, column};

use std::alloc::{AllocError as NoMemory, Global};

/// A letter that a rank holds: which rank gave it out, and its body.
#[derive(Debug, Drop)]
pub struct Held<B> {
    pub sender: u16,
    pub body: B,
}

/// What the ranks do at one label, seen from one of them.
///
/// A rank starts with its part of a whole that no rank has. It gives out its letters, and once it
/// holds every letter that others have for it, it finishes with its part of the result. It holds
/// every letter exactly where the weights of those that it holds add up to its goal. A letter
/// weighs 1 but where a stage says otherwise.
///
/// Whoever writes a `Stage` says with the ghost members what is done: `Whole`, the objects of which
/// the ranks hold parts; `ranks_of`, how many ranks there are; `says`, the row, which has for a
/// sender and an addressee the body of the letter between them, or none; `gives`, the result of a
/// rank; `weight_of`, what a body weighs; and which values hold a rank's part, before the rank has
/// given out its letters (`starts`) and after (`waits`). The laws are that every letter weighs
/// something, and that letters go between two different ranks.
///
/// Of a call that answers `NoMemory` nothing is said but that the stage may be dropped.
pub trait Stage: Drop {
    type Body: Drop;

    type Out: Drop;

    ghost Whole: { Type 0 };

    ghost ranks_of: { Whole → ℕ };

    ghost says: { Whole → ℕ → ℕ → Option Self.Body };

    ghost gives: { Whole → ℕ → Self.Out → Type 0 };

    ghost weight_of: { Self.Body → ℕ };

    ghost starts: { Self → Whole → ℕ → Type 0 };

    ghost waits: { Self → Whole → ℕ → Type 0 };

    /// The letters that the rank has for others, by addressee.
    ///
    /// # Errors
    ///
    /// Where memory is short.
    fn letters(&mut self, alloc: Global) -> Result<Vec<(u16, Self::Body)>, NoMemory>
        requires { (w : Whole) × (rank : ℕ) × starts self.old w rank }
        ensures letters { IfOk result (λ letters. (w : Whole) (rank : ℕ) → starts self.old w rank
            → letters.items ≡ told (says w rank) (ranks_of w)) }
        ensures waits { OnOk result ((w : Whole) (rank : ℕ) → starts self.old w rank → waits self.new w rank) };

    /// What a letter for the rank weighs.
    fn weight(&self, body: &Self::Body) -> u64
        requires { (w : Whole) × (rank : ℕ) × (from : ℕ) × waits self.now w rank × (says w from rank ≡ Some body.now) }
        ensures { result ≡ weight_of body.now };

    /// What all letters for the rank weigh.
    fn goal(&self) -> u64
        requires { (w : Whole) × (rank : ℕ) × waits self.now w rank }
        ensures { (w : Whole) (rank : ℕ) → waits self.now w rank
            → result ≡ sum_by (λ held. weight_of held.body) (heard (column (says w) rank) (ranks_of w)) };

    /// Finishes with all the letters that others have for the rank, by sender.
    ///
    /// An impl writes clauses of its own here, under the names of these: it may ask less and say
    /// more. The clauses of the other methods it has from here.
    ///
    /// # Errors
    ///
    /// Where memory is short.
    fn finish(self, alloc: Global, held: Vec<Held<Self::Body>>) -> Result<Self::Out, NoMemory>
        requires { (w : Whole) × (rank : ℕ) × waits self w rank × (held.items ≡ heard (column (says w) rank) (ranks_of w)) }
        ensures { IfOk result (λ out. (w : Whole) (rank : ℕ) → waits self w rank
            → held.items ≡ heard (column (says w) rank) (ranks_of w) → gives w rank out) };

    ghost positive: { (w : Whole) (from to : ℕ) (body : Self.Body) → says w from to ≡ Some body → 0 < weight_of body };

    ghost between: { (w : Whole) (from to : ℕ) → IsTrue (is_some (says w from to))
        → (from < ranks_of w) × (to < ranks_of w) × (from ≢ to) };
}
