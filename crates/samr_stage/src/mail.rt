//! What a letter of a run is.

ghost use Rattle.std.specs.Prelude.{◌≡◌, ◌↔◌, IsTrue, IfOk, Some};
ghost use Rattle.samr_stage.specs.declared.label.Name.{Name};
ghost use Rattle.samr_stage.specs.Course.{Course};

use crate::label::Name;
use std::alloc::{AllocError as NoMemory, Global};

/// A letter between two ranks of a run.
///
/// A letter says which run it is of, and its name. Its body is the one that the run's course has
/// for that name, so any two letters of a run and a name have the same body, and a letter that
/// comes late, twice or out of order does no harm.
///
/// Whoever writes a letter type says with the ghost members which `run`, `name` and `body` a letter
/// has, and which `course` a run has: the labels that each rank visits and the body of the letter
/// of each name. `truth` is the law that a letter has the body of its name.
pub trait Mail: Drop {
    /// What tells one run from another.
    type Run;

    ghost Body: { Type 0 };

    ghost run: { Self → Self.Run };

    ghost name: { Self → Name };

    ghost body: { Self → Body };

    ghost course: { Self.Run → Course Body };

    /// The letter's name.
    fn name(&self) -> Name
        ensures { result ≡ name self.now };

    /// Whether the two letters are of one run.
    fn same_run(&self, other: &Self) -> bool
        ensures { IsTrue result ↔ (run self.now ≡ run other.now) };

    /// A letter of the same run and name, and so with the same body.
    ///
    /// # Errors
    ///
    /// Where memory is short.
    fn copied(&self, alloc: Global) -> Result<Self, NoMemory>
        ensures run { IfOk result (λ copy. run copy ≡ run self.now) }
        ensures name { IfOk result (λ copy. name copy ≡ name self.now) }
        ensures body { IfOk result (λ copy. body copy ≡ body self.now) };

    ghost truth: { (letter : Self) → (course (run letter)).letter (name letter) ≡ Some (body letter) };
}
