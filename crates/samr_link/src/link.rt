//! What a rank posts and takes letters by.

ghost use Rattle.std.specs.Prelude.{◌≡◌, ◌<◌, ℕ, List, [], ◌∷◌, ◌++◌, Bool, true, IfOk, OnOk, IfErr, OnErr, IfSome, IfNone};
ghost use Rattle.crossbeam_queue.specs.Fifo.{Held};
ghost use Rattle.samr_link.specs.Ends.{Making, IsSameEnd};
ghost use Rattle.samr_link.specs.Names.{addressed};
ghost use Rattle.samr_stage.specs.declared.label.Name.{Name};

use crate::inbox::ROOM;
use samr_stage::Mail;
use std::sync::Wait;
use std::thread;

/// The end of one rank, by which it posts letters into the inboxes of the ranks of its run, its own
/// too, and takes letters from its own inbox. An inbox holds at most `ROOM` letters.
///
/// Whoever writes a `Link` says with the ghost members which `rank` an end is of, how many `ends`
/// there are, and its `making`, which tells one call of `make_ends` from another. `posted` has the
/// names posted to each addressee and `taken` the names taken, in order, each only where
/// `tells_posted` and `tells_taken` say so; who tells what is taken tells what is posted
/// (`tells_both`). `sees_there e to letters` says that at a step of a post to `to` by this end the
/// inbox of `to` held just these letters, and `sees_own e letters` the same of a take and the own
/// inbox.
pub trait Link: Drop {
    type Mail: Mail;

    ghost rank: { Self → ℕ };

    ghost ends: { Self → ℕ };

    ghost making: { Self → Making };

    ghost tells_posted: { Self → Bool };

    ghost tells_taken: { Self → Bool };

    ghost posted: { Self → ℕ → List Name };

    ghost taken: { Self → List Name };

    ghost sees_there: { Self → ℕ → List Self.Mail → Type 0 };

    ghost sees_own: { Self → List Self.Mail → Type 0 };

    /// Posts a letter into the inbox of its addressee `to`. The letter comes back where that inbox
    /// was full.
    fn post<R: Wait>(&mut self, rt: &R, to: u16, letter: Self::Mail) -> Result<(), Self::Mail>
        requires to { to < ends self.old }
        requires addressee { (Self.Mail.name letter).addressee ≡ to }
        requires sender { (Self.Mail.name letter).sender ≡ rank self.old }
        ensures same { IsSameEnd rank ends making tells_posted tells_taken self.old self.new }
        ensures posted { OnOk result (tells_posted self.old ≡ true
            → (a : ℕ) → posted self.new a ≡ posted self.old a ++ addressed a (Self.Mail.name letter ∷ [])) }
        ensures back { IfErr result (λ back. back ≡ letter) }
        ensures unposted { OnErr result (tells_posted self.old ≡ true → (a : ℕ) → posted self.new a ≡ posted self.old a) }
        ensures full { OnErr result (Held ROOM (sees_there self.old to)) }
        ensures taken { tells_taken self.old ≡ true → taken self.new ≡ taken self.old };

    /// Takes the first letter out of the own inbox. `None` where the inbox was empty.
    fn take<R: Wait>(&mut self, rt: &R) -> Option<Self::Mail>
        ensures same { IsSameEnd rank ends making tells_posted tells_taken self.old self.new }
        ensures posted { tells_posted self.old ≡ true → (a : ℕ) → posted self.new a ≡ posted self.old a }
        ensures taken { IfSome result (λ letter. tells_taken self.old ≡ true → taken self.new ≡ taken self.old ++ Self.Mail.name letter ∷ []) }
        ensures untaken { IfNone result (tells_taken self.old ≡ true → taken self.new ≡ taken self.old) }
        ensures empty { IfNone result (Held 0 (sees_own self.old)) };

    /// Waits until a letter may have come to the own inbox, or an end of the same making has roused
    /// all. It may return sooner.
    ///
    /// Where an end cannot tell when a letter comes it lets others go on, and returns.
    fn rest<R: Wait>(&self, _rt: &R) {
        thread::yield_now();
    }

    /// Ends the rests of all ends of the same making, now and from now on.
    fn rouse(&self) {}

    ghost tells_both: { (end : Self) → tells_taken end ≡ true → tells_posted end ≡ true };
}
