//! The end of one rank that hands letters out in odd ways.

ghost use Rattle.std.specs.Prelude.{◌≡◌, length, IfNone};
ghost use Rattle.crossbeam_queue.specs.Fifo.{Held};
ghost use Rattle.samr_link.specs.Inbox.{IsSeen};

use crate::link::Link;
use crate::queue_end::QueueEnd;
use samr_stage::Mail;
use std::alloc::Global;
use std::mem;
use std::sync::Wait;

/// The end of one rank over queues, for tests. Each letter after so many that it takes it gives
/// again later, and it swaps it with the next; in between it hands strangers in.
#[derive(Drop)]
pub struct OddEnd<M: Mail> {
    pub(crate) end: QueueEnd<M>,
    pub(crate) alloc: Global,
    pub(crate) every: u32,
    pub(crate) taken: u32,
    pub(crate) swapped: Option<M>,
    pub(crate) extra: Vec<M>,
    pub(crate) strangers: Vec<M>,
}

impl<M: Mail> OddEnd<M> {
    /// The end over queues that it is made of.
    pub(crate) fn into_end(self) -> QueueEnd<M>
        ensures { result ≡ self.end }
    {
        let OddEnd { end, .. } = self;
        end
    }

    /// A letter that was put aside.
    fn aside(&mut self) -> Option<M>
        ensures { self.new.end ≡ self.old.end }
    {
        match mem::replace(&mut self.swapped, None) {
            Some(letter) => Some(letter),
            None => self.extra.pop(),
        }
    }

    /// Puts a copy of this letter aside, and a stranger that comes before it. Where memory is
    /// short, neither.
    fn put_aside(&mut self, letter: &M)
        ensures { self.new.end ≡ self.old.end }
    {
        if let Ok(copy) = letter.copied(self.alloc) {
            let _full = self.extra.push(copy);
        }
        if let Some(stranger) = self.strangers.pop() {
            let _full = self.extra.push(stranger);
        }
    }

    /// Takes a letter out of the inbox, and puts some aside after every so many.
    fn take_counted<R: Wait>(&mut self, rt: &R) -> Option<M>
        ensures same { (self.new.end.rank ≡ self.old.end.rank) × (self.new.end.making ≡ self.old.end.making) × (self.new.end.posts ≡ self.old.end.posts) }
        ensures empty { IfNone result (Held 0 (IsSeen (λ x. (M.name x).sender) self.old.end.takes)) }
    {
        let letter = self.end.take_letter(rt)?;
        self.taken = self.taken.saturating_add(1);
        if self.taken >= self.every {
            self.taken = 0;
            self.put_aside(&letter);
        }
        Some(letter)
    }

    /// Takes a letter out of the inbox, and after every so many the one behind it first.
    fn take_next<R: Wait>(&mut self, rt: &R) -> Option<M>
        ensures same { (self.new.end.rank ≡ self.old.end.rank) × (self.new.end.making ≡ self.old.end.making) × (self.new.end.posts ≡ self.old.end.posts) }
        ensures empty { IfNone result (Held 0 (IsSeen (λ x. (M.name x).sender) self.old.end.takes)) }
    {
        let first = self.take_counted(rt)?;
        if self.taken > 0 {
            return Some(first);
        }
        match self.take_counted(rt) {
            Some(second) => {
                self.swapped = Some(first);
                Some(second)
            }
            None => Some(first),
        }
    }

    fn take_any<R: Wait>(&mut self, rt: &R) -> Option<M>
        ensures same { (self.new.end.rank ≡ self.old.end.rank) × (self.new.end.making ≡ self.old.end.making) × (self.new.end.posts ≡ self.old.end.posts) }
        ensures empty { IfNone result (Held 0 (IsSeen (λ x. (M.name x).sender) self.old.end.takes)) }
    {
        match self.aside() {
            Some(letter) => Some(letter),
            None => self.take_next(rt),
        }
    }
}

impl<M: Mail> Link for OddEnd<M> {
    ghost use Rattle.std.specs.Prelude.{◌≡◌, [], true, false, length, slice_index_or, refl};
    ghost use Rattle.samr_link.specs.Inbox.{IsSeen};
    ghost use Rattle.samr_link.specs.Queue.{names_posted};
    ghost use Rattle.samr_link.specs.Views.{spent_view};

    type Mail = M;

    ghost rank = { λ e. e.end.rank };

    ghost ends = { λ e. length e.end.making };

    ghost making = { λ e. e.end.making };

    ghost tells_posted = { λ e. true };

    ghost tells_taken = { λ e. false };

    ghost posted = { λ e to. names_posted M.name e.end to };

    ghost taken = { λ e. [] };

    ghost sees_there = { λ e to letters. IsSeen (λ x. (M.name x).sender) (slice_index_or e.end.posts to spent_view) letters };

    ghost sees_own = { λ e letters. IsSeen (λ x. (M.name x).sender) e.end.takes letters };

    fn post<R: Wait>(&mut self, rt: &R, to: u16, letter: M) -> Result<(), M> {
        self.end.post_letter(rt, to, letter)
    }

    fn take<R: Wait>(&mut self, rt: &R) -> Option<M> {
        self.take_any(rt)
    }

    fn rouse(&self) {
        self.end.rouse_all();
    }

    ghost tells_both = { λ e told. refl };
}
