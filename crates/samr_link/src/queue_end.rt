//! The end of one rank over queues, one for the inbox of each rank.

ghost use Rattle.std.specs.Prelude.{◌≡◌, ◌<◌, ◌==◌, ℕ, [], ◌∷◌, ◌++◌, length, slice_index_or, if◌then◌else◌, OnOk, IfErr, OnErr, IfSome, IfNone};
ghost use Rattle.crossbeam_queue.specs.Fifo.{Held};
ghost use Rattle.samr_link.specs.Inbox.{IsSeen};
ghost use Rattle.samr_link.specs.Queue.{names_posted};
ghost use Rattle.samr_link.specs.Views.{spent_view, takes_more};

use crate::inbox::{Inbox, InboxPass, ROOM, pop, push};
use crate::link::Link;
use crate::sleepers::Sleepers;
use samr_stage::Mail;
use std::marker::Model;
use std::sync::{Arc, Wait};

/// The end of one rank over queues.
///
/// Contracts see it as its rank, its making, and what its passes know.
#[derive(Drop)]
pub struct QueueEnd<M: Mail> {
    pub(crate) rank: u16,
    pub(crate) inboxes: Arc<Vec<Inbox<M>>>,
    pub(crate) sleepers: Arc<Sleepers>,
    pub(crate) posts: Vec<InboxPass<M>>,
    pub(crate) takes: InboxPass<M>,
}

impl<M: Mail> Model for QueueEnd<M> {
    ghost use Rattle.std.specs.Prelude.{map, All};
    ghost use Rattle.std.specs.Arc.{arc_value};
    ghost use Rattle.samr_link.specs.Queue.{End, IsRoomy, inbox_id, end_of, IsSoundEnd};

    ghost Value = { End M };

    ghost view = { λ s. end_of s.rank (map inbox_id (arc_value s.inboxes).items) s.posts.items s.takes };

    ghost invariant = { λ s. All IsRoomy (arc_value s.inboxes).items × IsSoundEnd s.rank (map inbox_id (arc_value s.inboxes).items) s.posts.items s.takes };
}

impl<M: Mail> QueueEnd<M> {
    fn push_letter<R: Wait>(&mut self, rt: &R, to: u16, letter: M) -> Result<(), M>
        requires to { to < length self.old.making }
        requires sender { (M.name letter).sender ≡ self.old.rank }
        ensures same { (self.new.rank ≡ self.old.rank) × (self.new.making ≡ self.old.making) × (self.new.takes ≡ self.old.takes) }
        ensures posted { OnOk result ((a : ℕ) → names_posted M.name self.new a ≡ names_posted M.name self.old a ++ (if to == a then M.name letter ∷ [] else [])) }
        ensures back { IfErr result (λ back. back ≡ letter) }
        ensures unposted { OnErr result (self.new ≡ self.old) }
        ensures full { OnErr result (Held ROOM (IsSeen (λ x. (M.name x).sender) (slice_index_or self.old.posts to spent_view))) }
    {
        let to = usize::from(to);
        let inboxes: &Vec<Inbox<M>> = &self.inboxes;
        push(rt, &inboxes[to], &mut self.posts[to], letter)
    }

    fn pop_letter<R: Wait>(&mut self, rt: &R) -> Option<M>
        ensures same { (self.new.rank ≡ self.old.rank) × (self.new.making ≡ self.old.making) × (self.new.posts ≡ self.old.posts) }
        ensures taken { IfSome result (λ letter. self.new.takes ≡ takes_more self.old.takes letter) }
        ensures untaken { IfNone result (self.new ≡ self.old) }
        ensures empty { IfNone result (Held 0 (IsSeen (λ x. (M.name x).sender) self.old.takes)) }
    {
        let inboxes: &Vec<Inbox<M>> = &self.inboxes;
        pop(rt, &inboxes[usize::from(self.rank)], &mut self.takes)
    }

    pub(crate) fn post_letter<R: Wait>(&mut self, rt: &R, to: u16, letter: M) -> Result<(), M>
        requires to { to < length self.old.making }
        requires sender { (M.name letter).sender ≡ self.old.rank }
        ensures same { (self.new.rank ≡ self.old.rank) × (self.new.making ≡ self.old.making) × (self.new.takes ≡ self.old.takes) }
        ensures posted { OnOk result ((a : ℕ) → names_posted M.name self.new a ≡ names_posted M.name self.old a ++ (if to == a then M.name letter ∷ [] else [])) }
        ensures back { IfErr result (λ back. back ≡ letter) }
        ensures unposted { OnErr result (self.new ≡ self.old) }
        ensures full { OnErr result (Held ROOM (IsSeen (λ x. (M.name x).sender) (slice_index_or self.old.posts to spent_view))) }
    {
        let posted = self.push_letter(rt, to, letter);
        if posted.is_ok() {
            self.sleepers.posted(to);
        }
        posted
    }

    pub(crate) fn take_letter<R: Wait>(&mut self, rt: &R) -> Option<M>
        ensures same { (self.new.rank ≡ self.old.rank) × (self.new.making ≡ self.old.making) × (self.new.posts ≡ self.old.posts) }
        ensures taken { IfSome result (λ letter. self.new.takes ≡ takes_more self.old.takes letter) }
        ensures untaken { IfNone result (self.new ≡ self.old) }
        ensures empty { IfNone result (Held 0 (IsSeen (λ x. (M.name x).sender) self.old.takes)) }
    {
        let taken = self.pop_letter(rt);
        if taken.is_some() {
            self.sleepers.taken(self.rank);
        }
        taken
    }

    pub(crate) fn rouse_all(&self) {
        self.sleepers.rouse();
    }
}

impl<M: Mail> Link for QueueEnd<M> {
    ghost use Rattle.std.specs.Prelude.{◌≡◌, true, length, slice_index_or, refl};
    ghost use Rattle.samr_link.specs.Inbox.{IsSeen};
    ghost use Rattle.samr_link.specs.Queue.{names_posted, names_taken};
    ghost use Rattle.samr_link.specs.Views.{spent_view};

    type Mail = M;

    ghost rank = { λ e. e.rank };

    ghost ends = { λ e. length e.making };

    ghost making = { λ e. e.making };

    ghost tells_posted = { λ e. true };

    ghost tells_taken = { λ e. true };

    ghost posted = { λ e to. names_posted M.name e to };

    ghost taken = { λ e. names_taken M.name e };

    ghost sees_there = { λ e to letters. IsSeen (λ x. (M.name x).sender) (slice_index_or e.posts to spent_view) letters };

    ghost sees_own = { λ e letters. IsSeen (λ x. (M.name x).sender) e.takes letters };

    fn post<R: Wait>(&mut self, rt: &R, to: u16, letter: M) -> Result<(), M> {
        self.post_letter(rt, to, letter)
    }

    fn take<R: Wait>(&mut self, rt: &R) -> Option<M> {
        self.take_letter(rt)
    }

    fn rest<R: Wait>(&self, rt: &R) {
        self.sleepers.rest(rt, self.rank);
    }

    fn rouse(&self) {
        self.rouse_all();
    }

    ghost tells_both = { λ e told. refl };
}
