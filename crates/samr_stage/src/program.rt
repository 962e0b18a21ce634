//! What one rank does in a run, label by label.

ghost use Rattle.std.specs.Prelude.{◌≡◌, ℕ, ◌+◌, ◌↔◌, Bool, true, false, map, All, IsTrue, IfOk, OnOk};
ghost use Rattle.samr_stage.specs.Course.{IsCourse, IsOver, sent, awaited, label_at};
ghost use Rattle.samr_stage.specs.Held.{IsHeld, Stays};

use crate::label::Label;
use crate::mail::Mail;
use std::alloc::{AllocError as NoMemory, Global};

/// What one rank does in a run, label by label.
///
/// At each label that it visits a rank first enters, which gives the letters that it has for
/// others at that label, and once it holds every letter that others have for it there it finishes
/// the label and goes on to the next. `Machine` makes these calls in the right order.
///
/// Whoever writes a `Program` says with the ghost members where a value of it stands: `run`, the
/// run; `rank_of`, its rank; `place`, how many labels it has left; and `stands`, that the value is
/// what the run's definition has for the rank at that place, before it enters the label (`false`)
/// or after it has (`true`). At the end of the run a program has left all its labels and stands
/// with `false`. `on_course` is the law that the run of a program that stands has a course in which
/// each rank visits its labels in ascending order and each letter's two ranks visit its label.
///
/// Of a call that answers `NoMemory` nothing is said but that the program may be dropped.
pub trait Program: Drop {
    type Mail: Mail;

    ghost run: { Self → Self.Mail.Run };

    ghost rank_of: { Self → ℕ };

    ghost place: { Self → ℕ };

    ghost stands: { Self → Bool → Type 0 };

    /// The rank whose program this is.
    fn rank(&self) -> u16
        ensures { result ≡ rank_of self.now };

    /// How many ranks the run has.
    fn ranks(&self) -> u16
        ensures { result ≡ (Self.Mail.course (run self.now)).ranks };

    /// The label at which the rank is. At the end of the run it is the last label that the rank
    /// visited, or all zeros where there was none.
    fn label(&self) -> Label
        ensures { (entered : Bool) → stands self.now entered
            → result ≡ label_at ((Self.Mail.course (run self.now)).labels (rank_of self.now)) (place self.now) };

    /// Whether the rank has left all the labels that it visits.
    fn finished(&self) -> bool
        ensures { (entered : Bool) → stands self.now entered
            → IsTrue result ↔ IsOver (Self.Mail.course (run self.now)) (rank_of self.now) (place self.now) };

    /// Whether a letter is of this program's run.
    fn own_run(&self, letter: &Self::Mail) -> bool
        ensures { IsTrue result ↔ (Self.Mail.run letter.now ≡ run self.now) };

    /// Enters the label at which the rank has arrived, and gives the letters that the rank has for
    /// others there, by addressee.
    ///
    /// # Errors
    ///
    /// Where memory is short.
    fn enter(&mut self, alloc: Global) -> Result<Vec<Self::Mail>, NoMemory>
        requires here { stands self.old false }
        requires going_on { ¬ IsOver (Self.Mail.course (run self.old)) (rank_of self.old) (place self.old) }
        ensures letters { IfOk result (λ letters. map Self.Mail.name letters.items
            ≡ sent (Self.Mail.course (run self.old))
            (label_at ((Self.Mail.course (run self.old)).labels (rank_of self.old)) (place self.old))
            (rank_of self.old)) }
        ensures own { IfOk result (λ letters. All (λ letter. Self.Mail.run letter ≡ run self.old) letters.items) }
        ensures entered { OnOk result (stands self.new true) }
        ensures stays { OnOk result (Stays run rank_of place self.old self.new) };

    /// Whether the letters held are all that others have for this rank at its label. They are of
    /// the run and the label, for the rank, and in order of sender, at most one of each.
    fn ready(&self, held: &[Self::Mail]) -> bool
        requires here { stands self.now true }
        requires going_on { ¬ IsOver (Self.Mail.course (run self.now)) (rank_of self.now) (place self.now) }
        requires held { IsHeld Self.Mail.run Self.Mail.name (run self.now)
            (label_at ((Self.Mail.course (run self.now)).labels (rank_of self.now)) (place self.now))
            (rank_of self.now) held.now }
        ensures { IsTrue result ↔ (map Self.Mail.name held.now
            ≡ awaited (Self.Mail.course (run self.now))
            (label_at ((Self.Mail.course (run self.now)).labels (rank_of self.now)) (place self.now))
            (rank_of self.now)) };

    /// Finishes the label with all the letters that others have for this rank there, and goes on
    /// to the next label.
    ///
    /// An impl writes clauses of its own here, under the names of these: it may ask less and say
    /// more. The clauses of the other methods it has from here.
    ///
    /// # Errors
    ///
    /// Where memory is short.
    fn finish(&mut self, alloc: Global, held: Vec<Self::Mail>) -> Result<(), NoMemory>
        requires here { stands self.old true }
        requires going_on { ¬ IsOver (Self.Mail.course (run self.old)) (rank_of self.old) (place self.old) }
        requires held { IsHeld Self.Mail.run Self.Mail.name (run self.old)
            (label_at ((Self.Mail.course (run self.old)).labels (rank_of self.old)) (place self.old))
            (rank_of self.old) held.items }
        requires ready { map Self.Mail.name held.items
            ≡ awaited (Self.Mail.course (run self.old))
            (label_at ((Self.Mail.course (run self.old)).labels (rank_of self.old)) (place self.old))
            (rank_of self.old) }
        ensures next { OnOk result (stands self.new false) }
        ensures run { OnOk result (run self.new ≡ run self.old) }
        ensures rank { OnOk result (rank_of self.new ≡ rank_of self.old) }
        ensures place { OnOk result (place self.new ≡ place self.old + 1) };

    ghost on_course: { (program : Self) (entered : Bool) → stands program entered
        → IsCourse (Self.Mail.course (run program)) };
}
