//! How the ends of all ranks over queues are made.

ghost use Rattle.std.specs.Prelude.{◌≡◌, ◌<◌, ◌≤◌, ◌+◌, ◌^◌, ℕ, List, length, map, All, true, IfOk, OnOk, slice_index_or};
ghost use Rattle.std.specs.Arc.{arc_value};
ghost use Rattle.std.specs.List.{AllZip};
ghost use Rattle.atomic_table.specs.Seated.{TableId};
ghost use Rattle.samr_link.specs.Ends.{AreEnds, IsFresh};
ghost use Rattle.samr_link.specs.Queue.{IsRoomy, inbox_id, IsKeeper, IsNewPost, IsNewTake, names_posted, names_taken};

use crate::inbox::{Inbox, InboxPass, lend_poster, lend_taker, make};
use crate::queue_end::QueueEnd;
use crate::sleepers::Sleepers;
use samr_stage::Mail;
use std::alloc::{AllocError as NoMemory, Global};
use std::marker::Model;
use std::sync::Arc;

/// The inboxes of all ranks, with the passes that keep them while the ends are out.
///
/// Contracts see it as its making.
#[derive(Drop)]
pub struct Desk<M: Mail> {
    pub(crate) inboxes: Arc<Vec<Inbox<M>>>,
    pub(crate) keepers: Vec<InboxPass<M>>,
}

impl<M: Mail> Model for Desk<M> {
    ghost use Rattle.std.specs.Prelude.{map, length};
    ghost use Rattle.std.specs.Arc.{arc_value};
    ghost use Rattle.std.specs.List.{AllZip};
    ghost use Rattle.samr_link.specs.Ends.{Making};
    ghost use Rattle.samr_link.specs.Queue.{inbox_id, IsKeeper};

    ghost Value = { Making };

    ghost view = { λ s. map inbox_id (arc_value s.inboxes).items };

    ghost invariant = { λ s. AllZip (IsKeeper (length (map inbox_id (arc_value s.inboxes).items))) (map inbox_id (arc_value s.inboxes).items) s.keepers.items };
}

/// Inboxes, with the passes that keep them and those that take from them, side by side.
struct Inboxes<M: Mail> {
    inboxes: Vec<Inbox<M>>,
    keepers: Vec<InboxPass<M>>,
    takers: Vec<InboxPass<M>>,
}

/// The ends of so many ranks, in order of rank, with what the fabric keeps.
pub fn make_all<M: Mail>(alloc: Global, ranks: u16) -> Result<(Desk<M>, Vec<QueueEnd<M>>), NoMemory>
    ensures count { IfOk result (λ made. length made.1.items ≡ ranks) }
    ensures ends { IfOk result (λ made. AreEnds (λ e. e.rank) (λ e. length e.making) (λ e. e.making) made.0 made.1.items) }
    ensures fresh { IfOk result (λ made. All (IsFresh (λ e. true) (λ e. true) (names_posted M.name) (names_taken M.name)) made.1.items) }
{
    let Inboxes {
        inboxes,
        mut keepers,
        takers,
    } = make_inboxes(alloc, ranks)?;
    let inboxes = Arc::new(alloc, inboxes)?;
    let sleepers = Arc::new(alloc, Sleepers::new(alloc, ranks)?)?;
    let mut ends = Vec::new(alloc);
    let mut rank = 0;
    'ranks: for takes in takers {
        ends.push(make_end(alloc, rank, &inboxes, &sleepers, &mut keepers, takes)?)?;
        rank += 1;
    }
    Ok((Desk { inboxes, keepers }, ends))
}

fn make_inboxes<M: Mail>(alloc: Global, ranks: u16) -> Result<Inboxes<M>, NoMemory>
    ensures count { IfOk result (λ made. length made.inboxes.items ≡ ranks) }
    ensures roomy { IfOk result (λ made. All IsRoomy made.inboxes.items) }
    ensures keepers { IfOk result (λ made. AllZip (IsKeeper 0) (map inbox_id made.inboxes.items) made.keepers.items) }
    ensures takers { IfOk result (λ made. AllZip IsNewTake (map inbox_id made.inboxes.items) made.takers.items) }
{
    let mut inboxes = Vec::new(alloc);
    let mut keepers = Vec::new(alloc);
    let mut takers = Vec::new(alloc);
    'ranks: for _rank in 0..ranks {
        let (inbox, mut keeper) = make(alloc)?;
        let taker = lend_taker(&inbox, &mut keeper);
        inboxes.push(inbox)?;
        keepers.push(keeper)?;
        takers.push(taker)?;
    }
    Ok(Inboxes {
        inboxes,
        keepers,
        takers,
    })
}

/// The end of the next rank, which takes by this pass.
fn make_end<M: Mail>(
    alloc: Global,
    rank: u16,
    inboxes: &Arc<Vec<Inbox<M>>>,
    sleepers: &Arc<Sleepers>,
    keepers: &mut Vec<InboxPass<M>>,
    takes: InboxPass<M>,
) -> Result<QueueEnd<M>, NoMemory>
    requires within { rank < length (arc_value inboxes.now).items }
    requires roomy { All IsRoomy (arc_value inboxes.now).items }
    requires keepers { AllZip (IsKeeper rank) (map inbox_id (arc_value inboxes.now).items) keepers.old.items }
    requires takes { (t : TableId) → IsNewTake (slice_index_or (map inbox_id (arc_value inboxes.now).items) rank t) takes }
    ensures keepers { OnOk result (AllZip (IsKeeper (rank + 1)) (map inbox_id (arc_value inboxes.now).items) keepers.new.items) }
    ensures rank { IfOk result (λ end. end.rank ≡ rank) }
    ensures making { IfOk result (λ end. end.making ≡ map inbox_id (arc_value inboxes.now).items) }
    ensures fresh { IfOk result (λ end. IsFresh (λ e. true) (λ e. true) (names_posted M.name) (names_taken M.name) end) }
{
    let theirs = Arc::try_clone(inboxes)?;
    let sleepers = Arc::try_clone(sleepers)?;
    let posts = lend_posters(alloc, rank, &theirs, keepers)?;
    Ok(QueueEnd {
        rank,
        inboxes: theirs,
        sleepers,
        posts,
        takes,
    })
}

/// The passes by which the next rank posts into each inbox.
fn lend_posters<M: Mail>(
    alloc: Global,
    rank: u16,
    inboxes: &Vec<Inbox<M>>,
    keepers: &mut Vec<InboxPass<M>>,
) -> Result<Vec<InboxPass<M>>, NoMemory>
    requires { AllZip (IsKeeper rank) (map inbox_id inboxes.now.items) keepers.old.items }
    ensures keepers { OnOk result (AllZip (IsKeeper (rank + 1)) (map inbox_id inboxes.now.items) keepers.new.items) }
    ensures posts { IfOk result (λ posts. AllZip (IsNewPost rank) (map inbox_id inboxes.now.items) posts.items) }
{
    let mut posts = Vec::new(alloc);
    'inboxes: for place in 0..inboxes.len() {
        let post = lend_poster(&inboxes[place], &mut keepers[place]);
        posts.push(post)?;
    }
    Ok(posts)
}
