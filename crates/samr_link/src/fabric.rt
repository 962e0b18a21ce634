//! What makes the ends of a run's ranks.

ghost use Rattle.std.specs.Prelude.{◌≡◌, ◌<◌, ℕ, List, length, Bool, true, false, All, IfOk, OnOk, OnErr};
ghost use Rattle.samr_link.specs.Ends.{Making, AreEnds, IsFresh, AreJournals};
ghost use Rattle.samr_link.specs.Names.{sent_by, Begins};
ghost use Rattle.samr_stage.specs.declared.label.Name.{Name};

use crate::link::Link;
use std::alloc::{AllocError as NoMemory, Global};

/// Makes the ends of all ranks of a run, and takes them back.
///
/// Whoever writes a `Fabric` says with the ghost members which `making` was its last one, and
/// whether no ends of it are out (`is_settled`). `tells_posted` and `tells_taken` say whether its
/// ends tell what they post and take; `tells_both` is the law that whoever tells what is taken tells
/// what is posted. `posted` has the journal of each rank and addressee, the names that the rank
/// posted to it, and `taken` the journal of each rank, the names that it took.
pub trait Fabric {
    type End: Link + Send;

    ghost making: { Self → Making };

    ghost is_settled: { Self → Bool };

    ghost tells_posted: { Self → Bool };

    ghost tells_taken: { Self → Bool };

    ghost posted: { Self → ℕ → ℕ → List Name };

    ghost taken: { Self → ℕ → List Name };

    /// The ends of so many ranks, in order of rank.
    ///
    /// # Errors
    ///
    /// Where memory is short. The fabric is as it was.
    fn make_ends(&mut self, alloc: Global, ranks: u16) -> Result<Vec<Self::End>, NoMemory>
        ensures count { IfOk result (λ ends. length ends.items ≡ ranks) }
        ensures ends { IfOk result (λ ends. AreEnds Self.End.rank Self.End.ends Self.End.making (making self.new) ends.items) }
        ensures fresh { IfOk result (λ ends. All (IsFresh Self.End.tells_posted Self.End.tells_taken Self.End.posted Self.End.taken) ends.items) }
        ensures tells_posted { IfOk result (λ ends. All (λ end. Self.End.tells_posted end ≡ tells_posted self.old) ends.items) }
        ensures tells_taken { IfOk result (λ ends. All (λ end. Self.End.tells_taken end ≡ tells_taken self.old) ends.items) }
        ensures same_tells_posted { tells_posted self.new ≡ tells_posted self.old }
        ensures same_tells_taken { tells_taken self.new ≡ tells_taken self.old }
        ensures out { OnOk result (is_settled self.new ≡ false) }
        ensures err { OnErr result (self.new ≡ self.old) };

    /// Takes back the ends that were made last, and leaves the journals, as the ends had them. It
    /// takes no memory.
    fn settle(&mut self, ends: Vec<Self::End>)
        requires { AreEnds Self.End.rank Self.End.ends Self.End.making (making self.old) ends.items }
        ensures settled { is_settled self.new ≡ true }
        ensures same_tells_posted { tells_posted self.new ≡ tells_posted self.old }
        ensures same_tells_taken { tells_taken self.new ≡ tells_taken self.old }
        ensures journals { AreJournals Self.End.tells_posted Self.End.tells_taken Self.End.posted Self.End.taken (posted self.new) (taken self.new) 0 ends.items }
        ensures begins { tells_taken self.old ≡ true → (from to : ℕ) → to < length ends.items
            → Begins (sent_by from (taken self.new to)) (posted self.new from to) };

    ghost tells_both: { (fabric : Self) → tells_taken fabric ≡ true → tells_posted fabric ≡ true };
}
