//! What stands for a rank while it runs.

ghost use Rattle.std.specs.Prelude.{◌≡◌, None, IsTrue, true, false};
ghost use Rattle.samr_drive.specs.Slots.{KeptBy};

use crate::stop::Stop;
use samr_link::Link;
use samr_stage::{Machine, Program};
use std::snapshot::Snapshot;
use std::thread::{Promise, PromisedHandle};

/// What the thread of a rank answers: what its driver answered, with the end, or the machine and
/// the end untouched.
#[derive(Drop)]
pub enum Ran<P, S, L> {
    Driven(Result<P, Stop>, L),
    Back(S, L),
}

/// The machine and the end that the thread of a rank was given.
#[derive(Drop)]
pub struct Started<S, L> {
    pub machine: Snapshot<S>,
    pub end: Snapshot<L>,
}

impl<P: Program, L: Link<Mail = P::Mail>> Promise<Ran<P, Machine<P>, L>>
    for Started<Machine<P>, L> {
    ghost kept_by = { λ promise ran. KeptBy P.Program P.Mail.Mail L.Link promise.machine.value promise.end.value ran };
}

/// What stands for a rank: the thread that runs it, or its machine and its end, which the caller
/// drives, with the letter in hand, or what its driver answered, with the end.
#[derive(Drop)]
pub enum Slot<P: Program, L: Link<Mail = P::Mail>> {
    Running(PromisedHandle<Ran<P, Machine<P>, L>, Started<Machine<P>, L>>),
    Kept(Machine<P>, L, Option<P::Mail>),
    Over(Result<P, Stop>, L),
    Gone,
}
