//! The letters of a relay.

ghost use Rattle.std.specs.Prelude.{◌≡◌, ◌+◌, ◌<◌, ℕ, Some, IfOk, IsTrue, ◌↔◌};
ghost use Rattle.std.specs.Arc.{arc_value};
ghost use Rattle.std.proofs.Props.{props};
ghost use Rattle.samr_stage.specs.Course.{name_of};
ghost use Rattle.samr_relay.specs.Relay.{round_label, relay_course};

use crate::run::RelayRun;
use samr_stage::{Label, Mail, Name};
use std::alloc::{AllocError as NoMemory, Global};
use std::sync::Arc;

/// A letter of a relay. Its number is the one that the run has for its name.
#[derive(Drop)]
pub struct RelayMail {
    run: Arc<RelayRun>,
    name: Name,
    number: u64,
    ghost true_number: { (relay_course (arc_value run)).letter name ≡ Some number } by { Prim.hlevel props },
}

impl RelayMail {
    /// The letter by which one rank tells another the number of a round.
    ///
    /// # Errors
    ///
    /// Where the run is shared by so many that no more can be counted.
    pub(crate) fn of_round(
        run: &Arc<RelayRun>,
        round: u32,
        sender: u16,
        addressee: u16,
    ) -> Result<Self, NoMemory>
        requires { (relay_course (arc_value run.now)).letter (name_of (round_label round) sender addressee) ≡ Some (round + 1) }
        ensures run { IfOk result (λ letter. ⟦<RelayMail as Mail>⟧.run letter ≡ arc_value run.now) }
        ensures name { IfOk result (λ letter. ⟦<RelayMail as Mail>⟧.name letter ≡ name_of (round_label round) sender addressee) }
    {
        Ok(RelayMail {
            run: Arc::try_clone(run)?,
            name: Name {
                label: label_of(round),
                sender,
                addressee,
            },
            number: u64::from(round) + 1,
        })
    }

    /// The number in the letter.
    pub fn number(&self) -> u64
        ensures { Some result ≡ (relay_course (⟦<RelayMail as Mail>⟧.run self.now)).letter (⟦<RelayMail as Mail>⟧.name self.now) }
    {
        self.number
    }

    /// Whether the letter is of this run.
    pub(crate) fn is_of(&self, run: &RelayRun) -> bool
        ensures { IsTrue result ↔ (⟦<RelayMail as Mail>⟧.run self.now ≡ run.now) }
    {
        *self.run == *run
    }
}

/// The label of a round.
pub(crate) fn label_of(round: u32) -> Label
    ensures { result ≡ round_label round }
{
    Label {
        step: 0,
        pass: 0,
        phase: 0,
        round,
    }
}

impl Mail for RelayMail {
    type Run = RelayRun;

    ghost Body = { ℕ };

    ghost run = { λ letter. arc_value letter.run };

    ghost name = { λ letter. letter.name };

    ghost body = { λ letter. letter.number };

    ghost course = { relay_course };

    fn name(&self) -> Name {
        self.name
    }

    fn same_run(&self, other: &Self) -> bool {
        *self.run == *other.run
    }

    fn copied(&self, _alloc: Global) -> Result<Self, NoMemory> {
        Ok(RelayMail {
            run: Arc::try_clone(&self.run)?,
            name: self.name,
            number: self.number,
        })
    }

    ghost truth = { λ letter. letter.true_number };
}
