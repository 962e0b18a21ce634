//! The letters of a run, by their bodies.

ghost use Rattle.std.specs.Prelude.{◌≡◌, ◌↔◌, IsTrue, Option, is_some};
ghost use Rattle.samr_stage.specs.declared.label.Name.{Name};

use samr_stage::Mail;

/// Letters whose bodies are values of a type: one type for all stages of a run, as an enum with a
/// variant for each.
///
/// Its writer says which body the letter of a name has in a run, and that it is there exactly where
/// the run's course has a letter of the name.
pub trait Bodied<B>: Mail {
    /// The body of the letter of a name, where a run has one.
    ghost letter_of: { Self.Run → Name → Option B };

    /// Whether the letter is one of the run.
    fn is_of(&self, run: &Self::Run) -> bool
        ensures { IsTrue result ↔ (Self.run self.now ≡ run.now) };

    ghost same_letters: { (r : Self.Run) (name : Name) → is_some ((Self.course r).letter name) ≡ is_some (letter_of r name) };
}
