//! How the passes of all ends go back to the fabric.

ghost use Rattle.std.specs.Prelude.{◌≡◌, ◌<◌, ◌≤◌, ℕ, List, length, map, All, true};
ghost use Rattle.std.specs.List.{AllZip};
ghost use Rattle.crossbeam_queue.specs.Passes.{view};
ghost use Rattle.samr_link.specs.Ends.{AreEnds};
ghost use Rattle.samr_link.specs.Queue.{inbox_id};
ghost use Rattle.samr_link.specs.Settled.{IsBack, IsPosting, IsNext, Knows, HasAll, TookOver, TookBack, AreBack};
ghost use Rattle.samr_link.specs.Inbox.{IsCompared};

use crate::inbox::{Inbox, InboxPass, compare, end_poster, end_taker};
use crate::making::Desk;
use crate::queue_end::QueueEnd;
use samr_stage::Mail;

/// Takes all ends back, and gives the passes that kept the inboxes. They know what was posted and
/// taken. It takes no memory.
pub fn close<M: Mail>(desk: Desk<M>, ends: Vec<QueueEnd<M>>) -> Vec<InboxPass<M>>
    requires { AreEnds (λ e. e.rank) (λ e. length e.making) (λ e. e.making) desk ends.items }
    ensures count { length result.items ≡ length ends.items }
    ensures back { AreBack ends.items (map view result.items) }
    ensures compared { All (IsCompared (λ x. (M.name x).sender)) (map view result.items) }
{
    let Desk {
        inboxes,
        mut keepers,
    } = desk;
    'ends: for end in ends {
        take_back(&inboxes, &mut keepers, end);
    }
    compare_all(&inboxes, &mut keepers);
    keepers
}

/// Takes back the end of the first rank whose end has not gone back.
fn take_back<M: Mail>(inboxes: &Vec<Inbox<M>>, keepers: &mut Vec<InboxPass<M>>, end: QueueEnd<M>)
    requires making { end.making ≡ map inbox_id inboxes.now.items }
    requires keepers { AllZip (IsBack (length inboxes.now.items)) (map inbox_id inboxes.now.items) keepers.old.items }
    requires next { All (Knows end.rank) keepers.old.items }
    ensures keepers { AllZip (IsBack (length inboxes.now.items)) (map inbox_id inboxes.now.items) keepers.new.items }
    ensures back { TookBack (map view keepers.old.items) end (map view keepers.new.items) }
{
    let QueueEnd {
        rank,
        inboxes: theirs,
        sleepers,
        posts,
        takes,
    } = end;
    drop((theirs, sleepers));
    end_posts(inboxes, keepers, posts);
    let own = usize::from(rank);
    end_taker(&inboxes[own], &mut keepers[own], takes);
}

/// Takes back the passes by which one rank posted.
fn end_posts<M: Mail>(
    inboxes: &Vec<Inbox<M>>,
    keepers: &mut Vec<InboxPass<M>>,
    posts: Vec<InboxPass<M>>,
)
    requires keepers { AllZip (IsBack (length inboxes.now.items)) (map inbox_id inboxes.now.items) keepers.old.items }
    requires posts { AllZip IsPosting (map inbox_id inboxes.now.items) posts.items }
    requires next { AllZip IsNext keepers.old.items posts.items }
    ensures keepers { AllZip (IsBack (length inboxes.now.items)) (map inbox_id inboxes.now.items) keepers.new.items }
    ensures over { TookOver (map view keepers.old.items) (map view posts.items) (map view keepers.new.items) }
{
    let mut place = 0;
    'posts: for post in posts {
        end_poster(&inboxes[place], &mut keepers[place], post);
        place += 1;
    }
}

/// Compares what was posted with what was taken, inbox by inbox.
fn compare_all<M: Mail>(inboxes: &Vec<Inbox<M>>, keepers: &mut Vec<InboxPass<M>>)
    requires keepers { AllZip (IsBack (length inboxes.now.items)) (map inbox_id inboxes.now.items) keepers.old.items }
    requires all { All HasAll keepers.old.items }
    ensures same { map view keepers.new.items ≡ map view keepers.old.items }
    ensures compared { All (IsCompared (λ x. (M.name x).sender)) (map view keepers.new.items) }
{
    'inboxes: for place in 0..inboxes.len() {
        compare(&inboxes[place], &mut keepers[place]);
    }
}
