//! One inbox: a queue of letters that many threads post into and one takes from.

ghost use Rattle.std.specs.Prelude.{◌≡◌, ◌<◌, [], ◌∷◌, ◌++◌, ℕ, true, false, length, slice_index_or, IfOk, OnOk, IfErr, OnErr, IfSome, IfNone};
ghost use Rattle.crossbeam_queue.specs.Fifo.{Held};
ghost use Rattle.crossbeam_queue.specs.Passes.{view, IsPassOf, IsSamePass, ruled_capacity};
ghost use Rattle.samr_link.specs.Inbox.{IsSeen, KeepsAll, IsCompared};
ghost use Rattle.samr_link.specs.Views.{fresh, posts_more, takes_more, lends, poster, lends_taking, taker, takes_over, takes_back};

use crossbeam_queue::protocol::{Join, Lesson, Outcome, Protocol, Split};
use crossbeam_queue::{Pass, RuledArrayQueue};
use samr_stage::Mail;
use std::alloc::{AllocError as NoMemory, Global};
use std::collections::LinkedList;
use std::sync::Wait;

/// How many letters an inbox holds at most.
pub const ROOM: usize = 256;

/// What a pass of an inbox knows. No value of it is made.
///
/// The fabric's pass keeps the inbox: it knows how many senders have been given a pass, and of each
/// sender whose pass has gone back what that sender posted. A sender's pass knows its number and
/// what it posted, the taker's pass what was taken.
pub struct View<M> {
    pub keeps: bool,
    pub given: u64,
    pub known: LinkedList<LinkedList<M>>,
    pub posts: bool,
    pub from: u16,
    pub posted: LinkedList<M>,
    pub takes: bool,
    pub taken: LinkedList<M>,
}

/// The rule of an inbox: what was taken of a sender, followed by what the inbox holds of it, is
/// what it posted.
pub struct InOrder;

impl<M: Mail> Protocol<M, View<M>> for InOrder {
    ghost use Rattle.samr_link.specs.Inbox.{Inboxed};
    ghost use Rattle.samr_link.specs.Views.{fresh};

    ghost holds = { Inboxed (λ x. (M.name x).sender) };

    ghost first = { fresh };
}

/// A push.
struct Posts;

impl<M: Mail> Outcome<M, View<M>> for Posts {
    ghost use Rattle.std.specs.Prelude.{◌≡◌};
    ghost use Rattle.samr_link.specs.Views.{posts_more};

    ghost then = { λ v x w. w ≡ posts_more v x };
}

impl<M: Mail> Lesson<M, View<M>> for Posts {
    ghost use Rattle.samr_link.specs.Inbox.{IsSeen};

    ghost fact = { λ v items. IsSeen (λ x. (M.name x).sender) v items };
}

/// A pop.
struct Takes;

impl<M: Mail> Outcome<M, View<M>> for Takes {
    ghost use Rattle.std.specs.Prelude.{◌≡◌};
    ghost use Rattle.samr_link.specs.Views.{takes_more};

    ghost then = { λ v x w. w ≡ takes_more v x };
}

impl<M: Mail> Lesson<M, View<M>> for Takes {
    ghost use Rattle.samr_link.specs.Inbox.{IsSeen};

    ghost fact = { λ v items. IsSeen (λ x. (M.name x).sender) v items };
}

/// A look at what was posted and taken, once all passes have gone back.
struct Balance;

impl<M: Mail> Lesson<M, View<M>> for Balance {
    ghost use Rattle.samr_link.specs.Inbox.{KeepsAll, IsBalanced};

    ghost fact = { λ v items. KeepsAll v → IsBalanced (λ x. (M.name x).sender) v items };
}

/// A sender's pass is cut off the fabric's.
struct Poster;

impl<M> Split<View<M>> for Poster {
    ghost use Rattle.samr_link.specs.Views.{lends, poster};

    ghost left = { λ v. lends v };

    ghost right = { λ v. poster v };
}

/// A sender's pass goes back to the fabric's.
struct PosterBack;

impl<M> Join<View<M>> for PosterBack {
    ghost use Rattle.samr_link.specs.Views.{takes_over, spent_view};

    ghost both = { λ v w. takes_over v w };

    ghost spent = { spent_view };
}

/// The taker's pass is cut off the fabric's.
struct Taker;

impl<M> Split<View<M>> for Taker {
    ghost use Rattle.samr_link.specs.Views.{lends_taking, taker};

    ghost left = { λ v. lends_taking v };

    ghost right = { λ v. taker v };
}

/// The taker's pass goes back to the fabric's.
struct TakerBack;

impl<M> Join<View<M>> for TakerBack {
    ghost use Rattle.samr_link.specs.Views.{takes_back, spent_view};

    ghost both = { λ v w. takes_back v w };

    ghost spent = { spent_view };
}

/// An inbox under its rule.
pub type Inbox<M> = RuledArrayQueue<M, View<M>, InOrder>;

/// What one thread knows of an inbox. It has no bytes.
pub type InboxPass<M> = Pass<M, View<M>>;

/// An empty inbox with the pass that keeps it.
pub fn make<M: Mail>(alloc: Global) -> Result<(Inbox<M>, InboxPass<M>), NoMemory>
    ensures fits { IfOk result (λ made. IsPassOf made.0 made.1 × (ruled_capacity made.0 ≡ ROOM)) }
    ensures fresh { IfOk result (λ made. view made.1 ≡ fresh) }
{
    let made = Inbox::ruled(alloc, ROOM)?;
    Ok(made)
}

/// Puts a letter last into the inbox. It comes back where the inbox is full.
pub fn push<M: Mail, R: Wait>(
    rt: &R,
    inbox: &Inbox<M>,
    pass: &mut InboxPass<M>,
    letter: M,
) -> Result<(), M>
    requires inbox { IsPassOf inbox.now pass.old × (ruled_capacity inbox.now ≡ ROOM) }
    requires posts { (view pass.old).posts ≡ true }
    requires sender { (M.name letter).sender ≡ (view pass.old).from }
    ensures same { IsSamePass pass.old pass.new }
    ensures role { ((view pass.new).posts ≡ (view pass.old).posts) × ((view pass.new).from ≡ (view pass.old).from) }
    ensures posted { OnOk result (view pass.new ≡ posts_more (view pass.old) letter) }
    ensures back { IfErr result (λ back. back ≡ letter) }
    ensures unposted { OnErr result (view pass.new ≡ view pass.old) }
    ensures full { OnErr result (Held ROOM (IsSeen (λ x. (M.name x).sender) (view pass.old))) }
{
    inbox.push_as::<Posts, R>(rt, pass, letter)
}

/// Takes the first letter out of the inbox, where there is one.
pub fn pop<M: Mail, R: Wait>(rt: &R, inbox: &Inbox<M>, pass: &mut InboxPass<M>) -> Option<M>
    requires inbox { IsPassOf inbox.now pass.old }
    requires takes { (view pass.old).takes ≡ true }
    ensures same { IsSamePass pass.old pass.new }
    ensures role { (view pass.new).takes ≡ (view pass.old).takes }
    ensures taken { IfSome result (λ letter. view pass.new ≡ takes_more (view pass.old) letter) }
    ensures untaken { IfNone result (view pass.new ≡ view pass.old) }
    ensures empty { IfNone result (Held 0 (IsSeen (λ x. (M.name x).sender) (view pass.old))) }
{
    inbox.pop_as::<Takes, R>(rt, pass)
}

/// Cuts off the pass of the next sender.
pub fn lend_poster<M: Mail>(inbox: &Inbox<M>, keeper: &mut InboxPass<M>) -> InboxPass<M>
    requires inbox { IsPassOf inbox.now keeper.old }
    requires keeps { (view keeper.old).keeps ≡ true }
    requires posts { (view keeper.old).posts ≡ false }
    ensures same { IsSamePass keeper.old keeper.new × IsPassOf inbox.now result }
    ensures keeper { view keeper.new ≡ lends (view keeper.old) }
    ensures poster { view result ≡ poster (view keeper.old) }
{
    inbox.another::<Poster>(keeper)
}

/// Cuts off the pass of the taker.
pub fn lend_taker<M: Mail>(inbox: &Inbox<M>, keeper: &mut InboxPass<M>) -> InboxPass<M>
    requires inbox { IsPassOf inbox.now keeper.old }
    requires keeps { (view keeper.old).keeps ≡ true }
    requires takes { (view keeper.old).takes ≡ true }
    requires posts { (view keeper.old).posts ≡ false }
    ensures same { IsSamePass keeper.old keeper.new × IsPassOf inbox.now result }
    ensures keeper { view keeper.new ≡ lends_taking (view keeper.old) }
    ensures taker { view result ≡ taker (view keeper.old) }
{
    inbox.another::<Taker>(keeper)
}

/// Takes a sender's pass back: that of the first sender whose pass has not gone back yet.
pub fn end_poster<M: Mail>(inbox: &Inbox<M>, keeper: &mut InboxPass<M>, pass: InboxPass<M>)
    requires inbox { IsPassOf inbox.now keeper.old × IsPassOf inbox.now pass }
    requires keeps { (view keeper.old).keeps ≡ true }
    requires posts { (view keeper.old).posts ≡ false }
    requires poster { (view pass).posts ≡ true }
    requires next { (view pass).from ≡ length (view keeper.old).known }
    ensures same { IsSamePass keeper.old keeper.new }
    ensures keeper { view keeper.new ≡ takes_over (view keeper.old) (view pass) }
{
    inbox.absorb::<PosterBack>(keeper, pass);
}

/// Takes the taker's pass back.
pub fn end_taker<M: Mail>(inbox: &Inbox<M>, keeper: &mut InboxPass<M>, pass: InboxPass<M>)
    requires inbox { IsPassOf inbox.now keeper.old × IsPassOf inbox.now pass }
    requires keeps { (view keeper.old).keeps ≡ true }
    requires posts { (view keeper.old).posts ≡ false }
    requires taker { (view pass).takes ≡ true }
    ensures same { IsSamePass keeper.old keeper.new }
    ensures keeper { view keeper.new ≡ takes_back (view keeper.old) (view pass) }
{
    inbox.absorb::<TakerBack>(keeper, pass);
}

/// Compares what each sender posted with what was taken of it, once their passes have gone back.
pub fn compare<M: Mail>(inbox: &Inbox<M>, keeper: &mut InboxPass<M>)
    requires inbox { IsPassOf inbox.now keeper.old }
    requires keeps { KeepsAll (view keeper.old) }
    ensures same { IsSamePass keeper.old keeper.new × (view keeper.new ≡ view keeper.old) }
    ensures compared { IsCompared (λ x. (M.name x).sender) (view keeper.old) }
{
    inbox.learn_as::<Balance>(keeper);
}
