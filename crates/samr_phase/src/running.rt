//! The program of one rank of a run that is one phase.

ghost use Rattle.std.specs.Prelude.{◌≡◌, ℕ, ◌+◌, Bool, true, false, List, ◌∷◌, map, length, IsOk, IfOk, OnOk, IsSome, IfSome, ◌↔◌};
ghost use Rattle.samr_stage.specs.Course.{IsOver, awaited, label_at};
ghost use Rattle.samr_stage.specs.Held.{IsHeld};
ghost use Rattle.samr_phase.specs.Journey.{place_of, StandsIn};
ghost use Rattle.samr_phase.specs.Places.{is_course};

use crate::bodied::Bodied;
use crate::journey::Journey;
use crate::part::Part;
use crate::phase::Phase;
use crate::went::Went;
use samr_stage::{Label, Program};
use std::alloc::{AllocError as NoMemory, Global};
use std::marker::PhantomData;
use std::mem;

/// Where a rank is: in its phase, or over, with what the phase gives. After want of memory it has
/// failed.
#[derive(Drop)]
pub enum State<P, O> {
    On(P),
    Over(O),
    Failed,
}

/// One rank of a run that is one phase `P`, as the journey `G` says: a program for the machine of
/// `samr_stage`, with all that the machine wants of one.
#[derive(Drop)]
pub struct Running<M: Bodied<B>, B, I, O, P, G>
where
    M::Run: Drop,
{
    run: M::Run,
    rank: u16,
    at: Label,
    state: State<P, O>,
    of: PhantomData<(B, I, G)>,
}

impl<M: Bodied<B>, B, I: Part, O: Part, P: Phase<M, B, I, O>, G: Journey<M, B, I, O, P>> Running<
    M,
    B,
    I,
    O,
    P,
    G,
>
where
    M::Run: Drop,
{
    /// The program of a rank that has its part of what the run begins with.
    pub fn new(alloc: Global, run: M::Run, rank: u16, input: I) -> Result<Self, NoMemory>
        requires { I.holds input (G.first run) rank }
        ensures made { P.sure → IsOk result }
        ensures run { IfOk result (λ x. ⟦<Running<M, B, I, O, P, G> as Program>⟧.run x ≡ run) }
        ensures rank { IfOk result (λ x. ⟦<Running<M, B, I, O, P, G> as Program>⟧.rank_of x ≡ rank) }
        ensures place { IfOk result (λ x. ⟦<Running<M, B, I, O, P, G> as Program>⟧.place x ≡ 0) }
        ensures stands { IfOk result (λ x. ⟦<Running<M, B, I, O, P, G> as Program>⟧.stands x false) }
    {
        match P::start(alloc, input)? {
            Went::On(phase) => {
                let at = phase.label();
                Ok(Running {
                    run,
                    rank,
                    at,
                    state: State::On(phase),
                    of: PhantomData,
                })
            }
            Went::Over(out) => Ok(Running {
                run,
                rank,
                at: NO_LABEL,
                state: State::Over(out),
                of: PhantomData,
            }),
        }
    }

    /// What the run gives the rank, once it has left all its labels.
    pub fn given(&self) -> Option<&O>
        ensures over { (entered : Bool) → ⟦<Running<M, B, I, O, P, G> as Program>⟧.stands self.now entered
            → IsSome result ↔ IsOver (M.course self.now.run) self.now.rank (⟦<Running<M, B, I, O, P, G> as Program>⟧.place self.now) }
        ensures given { (entered : Bool) → ⟦<Running<M, B, I, O, P, G> as Program>⟧.stands self.now entered
            → IfSome result (λ out. O.holds out.now (P.after (G.first self.now.run)) self.now.rank) }
    {
        match &self.state {
            State::Over(out) => Some(out),
            State::On(_) => None,
            State::Failed => None,
        }
    }
}

const NO_LABEL: Label = Label {
    step: 0,
    pass: 0,
    phase: 0,
    round: 0,
};

impl<M: Bodied<B>, B, I: Part, O: Part, P: Phase<M, B, I, O>, G: Journey<M, B, I, O, P>> Program
    for Running<M, B, I, O, P, G>
where
    M::Run: Drop,
{
    type Mail = M;

    ghost run = { λ x. x.run };

    ghost rank_of = { λ x. x.rank };

    ghost place = { λ x. place_of x.rank x.at (P.fragments (G.first x.run)) x.state };

    ghost stands = { λ x entered. StandsIn (λ p. P.stands p (G.first x.run) x.rank) (λ out. O.holds out (P.after (G.first x.run)) x.rank)
        x.rank x.at (P.fragments (G.first x.run)) entered x.state };

    fn rank(&self) -> u16 {
        self.rank
    }

    fn ranks(&self) -> u16 {
        G::ranks(&self.run)
    }

    fn label(&self) -> Label {
        self.at
    }

    fn finished(&self) -> bool {
        match &self.state {
            State::Over(_) => true,
            State::On(_) => false,
            State::Failed => false,
        }
    }

    fn own_run(&self, letter: &M) -> bool {
        letter.is_of(&self.run)
    }

    fn enter(&mut self, alloc: Global) -> Result<Vec<M>, NoMemory> {
        match &mut self.state {
            State::On(phase) => {
                let letters = phase.enter(alloc, &self.run, self.rank)?;
                Ok(letters)
            }
            State::Over(_) => Err(NoMemory),
            State::Failed => Err(NoMemory),
        }
    }

    fn ready(&self, held: &[M]) -> bool {
        match &self.state {
            State::On(phase) => phase.ready(held),
            State::Over(_) => false,
            State::Failed => false,
        }
    }

    fn finish(&mut self, alloc: Global, held: Vec<M>) -> Result<(), NoMemory>
        requires here { ⟦<Running<M, B, I, O, P, G> as Program>⟧.stands self.old true }
        requires going_on { ¬ IsOver (M.course self.old.run) self.old.rank (⟦<Running<M, B, I, O, P, G> as Program>⟧.place self.old) }
        requires held { IsHeld M.run M.name self.old.run
            (label_at ((M.course self.old.run).labels self.old.rank) (⟦<Running<M, B, I, O, P, G> as Program>⟧.place self.old))
            self.old.rank held.items }
        requires ready { map M.name held.items ≡ awaited (M.course self.old.run)
            (label_at ((M.course self.old.run).labels self.old.rank) (⟦<Running<M, B, I, O, P, G> as Program>⟧.place self.old))
            self.old.rank }
        ensures next { OnOk result (⟦<Running<M, B, I, O, P, G> as Program>⟧.stands self.new false) }
        ensures run { OnOk result (self.new.run ≡ self.old.run) }
        ensures rank { OnOk result (self.new.rank ≡ self.old.rank) }
        ensures place { OnOk result (⟦<Running<M, B, I, O, P, G> as Program>⟧.place self.new
            ≡ ⟦<Running<M, B, I, O, P, G> as Program>⟧.place self.old + 1) }
    {
        match mem::replace(&mut self.state, State::Failed) {
            State::On(phase) => match phase.finish(alloc, held)? {
                Went::On(next) => {
                    self.at = next.label();
                    self.state = State::On(next);
                    Ok(())
                }
                Went::Over(out) => {
                    self.state = State::Over(out);
                    Ok(())
                }
            },
            State::Over(_) => Err(NoMemory),
            State::Failed => Err(NoMemory),
        }
    }

    ghost on_course = { λ x entered at. is_course (M.course x.run) (M.letter_of x.run) (M.same_letters x.run) (I.ranks (G.first x.run))
        (P.fragments (G.first x.run)) (G.course_is x.run) (G.is_run x.run) };
}
