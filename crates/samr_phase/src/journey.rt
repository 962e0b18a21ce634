//! A run that is one phase.

ghost use Rattle.std.specs.Prelude.{◌≡◌, ℕ};
ghost use Rattle.samr_stage.specs.Fragments.{IsRun};
ghost use Rattle.samr_phase.specs.Journey.{IsOf};

use crate::bodied::Bodied;
use crate::part::Part;
use crate::phase::Phase;

/// A run that is one phase, which every rank starts with its part of the whole that the run begins
/// with.
///
/// Its writer says what that whole is, and shows that the run's course is that of the phase's
/// fragments, and that their labels rise and their letters go between ranks that visit them.
/// [`crate::Running`] is then the program of one rank of it.
pub trait Journey<M: Bodied<B>, B, I: Part, O: Part, P: Phase<M, B, I, O>> {
    /// The whole that a run begins with.
    ghost first: { M.Run → I.Whole };

    /// How many ranks the run has.
    fn ranks(run: &M::Run) -> u16
        ensures { result ≡ I.ranks (first run.now) };

    ghost course_is: { (run : M.Run) → IsOf (M.course run) (M.letter_of run) (I.ranks (first run)) (P.fragments (first run)) };

    ghost is_run: { (run : M.Run) → IsRun (I.ranks (first run)) (P.fragments (first run)) };
}
