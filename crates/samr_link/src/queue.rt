//! A fabric of queues, one for the inbox of each rank.

ghost use Rattle.std.specs.Prelude.{◌≡◌, ◌<◌, ℕ, [], length, true, not, is_some, unwrap_or, None};
ghost use Rattle.samr_link.specs.Ends.{AreEnds, AreJournals};
ghost use Rattle.samr_link.specs.Names.{sent_by, Begins};
ghost use Rattle.samr_link.specs.Kept.{kept_views};
ghost use Rattle.samr_link.specs.Queue.{names_posted, names_taken};
ghost use Rattle.samr_link.specs.Settled.{posted_by, taken_of};

use crate::fabric::Fabric;
use crate::inbox::InboxPass;
use crate::making::{Desk, make_all};
use crate::queue_end::QueueEnd;
use crate::settling::close;
use samr_stage::Mail;
use std::alloc::{AllocError as NoMemory, Global};

/// A fabric over queues of 256 letters, one for the inbox of each rank.
///
/// It tells what was posted and what was taken, and what was taken of each sender begins what that
/// sender posted. Its journals are what its passes of the inboxes know, so they take no memory.
#[derive(Drop)]
pub struct QueueFabric<M: Mail> {
    desk: Option<Desk<M>>,
    kept: Option<Vec<InboxPass<M>>>,
}

impl<M: Mail> QueueFabric<M> {
    /// A fabric that has made no ends yet.
    pub fn new() -> Self
        ensures { result ≡ record { desk = None; kept = None } }
    {
        QueueFabric {
            desk: None,
            kept: None,
        }
    }
}

/// What the passes of the inboxes know, once all ends have gone back.
fn settled<M: Mail>(desk: Option<Desk<M>>, ends: Vec<QueueEnd<M>>) -> Option<Vec<InboxPass<M>>>
    requires { AreEnds (λ e. e.rank) (λ e. length e.making) (λ e. e.making) (unwrap_or desk []) ends.items }
    ensures journals { AreJournals (λ e. true) (λ e. true) (names_posted M.name) (names_taken M.name)
        (posted_by M.name (kept_views result)) (taken_of M.name (kept_views result)) 0 ends.items }
    ensures begins { (from to : ℕ) → to < length ends.items → Begins (sent_by from (taken_of M.name (kept_views result) to)) (posted_by M.name (kept_views result) from to) }
{
    match desk {
        Some(desk) => Some(close(desk, ends)),
        None => None,
    }
}

impl<M: Mail + Send> Fabric for QueueFabric<M> {
    ghost use Rattle.std.specs.Prelude.{◌≡◌, [], true, not, is_some, unwrap_or, refl};
    ghost use Rattle.samr_link.specs.Settled.{posted_by, taken_of};
    ghost use Rattle.samr_link.specs.Kept.{kept_views};

    type End = QueueEnd<M>;

    ghost making = { λ f. unwrap_or f.desk [] };

    ghost is_settled = { λ f. not (is_some f.desk) };

    ghost tells_posted = { λ f. true };

    ghost tells_taken = { λ f. true };

    ghost posted = { λ f from to. posted_by M.name (kept_views f.kept) from to };

    ghost taken = { λ f to. taken_of M.name (kept_views f.kept) to };

    fn make_ends(&mut self, alloc: Global, ranks: u16) -> Result<Vec<QueueEnd<M>>, NoMemory> {
        let (desk, ends) = make_all(alloc, ranks)?;
        self.desk = Some(desk);
        Ok(ends)
    }

    fn settle(&mut self, ends: Vec<QueueEnd<M>>)
        requires { AreEnds (λ e. e.rank) (λ e. length e.making) (λ e. e.making) (unwrap_or self.old.desk []) ends.items }
        ensures settled { not (is_some self.new.desk) ≡ true }
        ensures same_tells_posted { true ≡ true }
        ensures same_tells_taken { true ≡ true }
        ensures journals { AreJournals (λ e. true) (λ e. true) (names_posted M.name) (names_taken M.name)
            (posted_by M.name (kept_views self.new.kept)) (taken_of M.name (kept_views self.new.kept)) 0 ends.items }
        ensures begins { true ≡ true → (from to : ℕ) → to < length ends.items
            → Begins (sent_by from (taken_of M.name (kept_views self.new.kept) to)) (posted_by M.name (kept_views self.new.kept) from to) }
    {
        self.kept = settled(self.desk.take(), ends);
    }

    ghost tells_both = { λ f told. refl };
}
