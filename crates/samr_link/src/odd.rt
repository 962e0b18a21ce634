//! A fabric that hands letters out in odd ways.

ghost use Rattle.std.specs.Prelude.{◌≡◌, ◌<◌, ◌≤◌, ℕ, [], length, map, true, false, not, is_some, unwrap_or};
ghost use Rattle.std.specs.Vec.{vec_capacity};
ghost use Rattle.samr_link.specs.Ends.{AreEnds, AreJournals};
ghost use Rattle.samr_link.specs.Names.{sent_by, Begins};
ghost use Rattle.samr_link.specs.Kept.{kept_views};
ghost use Rattle.samr_link.specs.Queue.{names_posted};
ghost use Rattle.samr_link.specs.Settled.{posted_by};

use crate::fabric::Fabric;
use crate::odd_end::OddEnd;
use crate::queue::QueueFabric;
use crate::queue_end::QueueEnd;
use samr_stage::Mail;
use std::alloc::{AllocError as NoMemory, Global};
use std::mem;

/// A fabric over queues, for tests. Its ends give each `every`-th letter that they take again
/// later, swap it with the next, and hand strangers in between. A copy for which no memory is found
/// is not made.
///
/// It tells what was posted, and not what was taken.
#[derive(Drop)]
pub struct OddFabric<M: Mail> {
    inner: QueueFabric<M>,
    strangers: Vec<M>,
    every: u32,
    room: Vec<QueueEnd<M>>,
    ghost empty: { room.items ≡ [] },
    ghost roomy: { length (unwrap_or inner.desk []) ≤ vec_capacity room },
}

impl<M: Mail> OddFabric<M> {
    /// A fabric that has made no ends yet, and hands out copies of these strangers.
    pub fn new(strangers: Vec<M>, every: u32) -> Self
        requires { 0 < every }
    {
        let room = Vec::new(*strangers.allocator());
        OddFabric {
            inner: QueueFabric::new(),
            strangers,
            every,
            room,
        }
    }
}

/// Copies of these letters, as far as there is memory.
fn copies<M: Mail>(alloc: Global, letters: &Vec<M>) -> Vec<M> {
    let mut copies = Vec::new(alloc);
    for letter in letters {
        if let Ok(copy) = letter.copied(alloc) {
            let _full = copies.push(copy);
        }
    }
    copies
}

/// The ends over queues, each made odd, in the room of the list that is given for them.
fn made_odd<M: Mail>(
    alloc: Global,
    every: u32,
    strangers: &Vec<M>,
    ends: Vec<QueueEnd<M>>,
    odd: Vec<OddEnd<M>>,
) -> Vec<OddEnd<M>>
    requires { (odd.items ≡ []) × (length ends.items ≤ vec_capacity odd) }
    ensures { map (λ w. w.end) result.items ≡ ends.items }
{
    let mut odd = odd;
    'ends: for end in ends {
        odd.push_reserved(OddEnd {
            end,
            alloc,
            every,
            taken: 0,
            swapped: None,
            extra: Vec::new(alloc),
            strangers: copies(alloc, strangers),
        });
    }
    odd
}

/// The ends over queues inside odd ones, in the room of the list that is given for them.
fn made_plain<M: Mail>(ends: Vec<OddEnd<M>>, room: Vec<QueueEnd<M>>) -> Vec<QueueEnd<M>>
    requires { (room.items ≡ []) × (length ends.items ≤ vec_capacity room) }
    ensures { result.items ≡ map (λ w. w.end) ends.items }
{
    let mut room = room;
    'ends: for odd in ends {
        room.push_reserved(odd.into_end());
    }
    room
}

impl<M: Mail + Send> Fabric for OddFabric<M> {
    ghost use Rattle.std.specs.Prelude.{◌≡◌, [], true, false, not, is_some, unwrap_or, refl};
    ghost use Rattle.samr_link.specs.Settled.{posted_by};
    ghost use Rattle.samr_link.specs.Kept.{kept_views};

    type End = OddEnd<M>;

    ghost making = { λ f. unwrap_or f.inner.desk [] };

    ghost is_settled = { λ f. not (is_some f.inner.desk) };

    ghost tells_posted = { λ f. true };

    ghost tells_taken = { λ f. false };

    ghost posted = { λ f from to. posted_by M.name (kept_views f.inner.kept) from to };

    ghost taken = { λ f to. [] };

    fn make_ends(&mut self, alloc: Global, ranks: u16) -> Result<Vec<OddEnd<M>>, NoMemory> {
        let room = Vec::with_capacity(alloc, usize::from(ranks))?;
        let odd = Vec::with_capacity(alloc, usize::from(ranks))?;
        let mut inner = QueueFabric::new();
        let ends = inner.make_ends(alloc, ranks)?;
        self.inner = inner;
        self.room = room;
        Ok(made_odd(alloc, self.every, &self.strangers, ends, odd))
    }

    fn settle(&mut self, ends: Vec<OddEnd<M>>)
        requires { AreEnds (λ e. e.end.rank) (λ e. length e.end.making) (λ e. e.end.making) (unwrap_or self.old.inner.desk []) ends.items }
        ensures settled { not (is_some self.new.inner.desk) ≡ true }
        ensures same_tells_posted { true ≡ true }
        ensures same_tells_taken { false ≡ false }
        ensures journals { AreJournals (λ e. true) (λ e. false) (λ e to. names_posted M.name e.end to) (λ e. [])
            (posted_by M.name (kept_views self.new.inner.kept)) (λ to. []) 0 ends.items }
        ensures begins { false ≡ true → (from to : ℕ) → to < length ends.items → Begins (sent_by from []) (posted_by M.name (kept_views self.new.inner.kept) from to) }
    {
        let none = Vec::new(*self.strangers.allocator());
        let room = mem::replace(&mut self.room, none);
        self.inner.settle(made_plain(ends, room));
    }

    ghost tells_both = { λ f told. refl };
}
