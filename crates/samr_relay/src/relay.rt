//! The program of one rank of a relay.

ghost use Rattle.std.specs.Prelude.{◌≡◌, ◌+◌, ◌<◌, ℕ, Bool, false, ◌++◌, [], ◌∷◌, map, All, IsSome, IfSome, IfOk, OnOk, ◌↔◌, cond};
ghost use Rattle.std.specs.Arc.{arc_value};
ghost use Rattle.samr_stage.specs.Course.{IsOver, name_of, sent, awaited, label_at};
ghost use Rattle.samr_stage.specs.Held.{IsHeld};
ghost use Rattle.samr_relay.specs.Relay.{round_label, teller, hears, relay_course, told_in, told_sum, IsRelay};
ghost use Rattle.samr_relay.specs.RelayLaws.{relay_is_course};
ghost use Rattle.samr_relay.specs.Placed.{IsPlaced};

use crate::mail::{RelayMail, label_of};
use crate::run::RelayRun;
use samr_stage::{Label, Mail, Program};
use std::alloc::{AllocError as NoMemory, Global};
use std::sync::Arc;

/// One rank's part of a relay: it tells others numbers in its rounds, and adds up those that it is
/// told.
///
/// The rounds are those of phase 0 in step 0 and pass 0, and each rank visits each of them.
#[derive(Drop)]
pub struct Relay {
    run: Arc<RelayRun>,
    rank: u16,
    round: u32,
    heard: u64,
}

impl Relay {
    /// The part of a rank in a run.
    pub fn new(run: Arc<RelayRun>, rank: u16) -> Self
        requires relay { IsRelay (arc_value run) }
        requires is_rank { rank < (arc_value run).ranks }
        ensures run { ⟦<Relay as Program>⟧.run result ≡ arc_value run }
        ensures rank { ⟦<Relay as Program>⟧.rank_of result ≡ rank }
        ensures place { ⟦<Relay as Program>⟧.place result ≡ 0 }
        ensures stands { ⟦<Relay as Program>⟧.stands result false }
    {
        Relay {
            run,
            rank,
            round: 0,
            heard: 0,
        }
    }

    /// The sum of the numbers that others told this rank, once it has left all rounds.
    pub fn total(&self) -> Option<u64>
        ensures over { (entered : Bool) → ⟦<Relay as Program>⟧.stands self.now entered
            → IsSome result ↔ IsOver (relay_course (⟦<Relay as Program>⟧.run self.now))
            (⟦<Relay as Program>⟧.rank_of self.now) (⟦<Relay as Program>⟧.place self.now) }
        ensures total { (entered : Bool) → ⟦<Relay as Program>⟧.stands self.now entered
            → IfSome result (λ total. total ≡ told_sum (⟦<Relay as Program>⟧.run self.now) (⟦<Relay as Program>⟧.rank_of self.now)) }
    {
        if self.round == self.run.rounds {
            Some(self.heard)
        } else {
            None
        }
    }

    /// Adds the letter to a rank that is told one in this round, where this rank tells.
    fn tell(&self, to: u16, letters: &mut Vec<RelayMail>) -> Result<(), NoMemory>
        requires here { IsPlaced (arc_value self.now.run) self.now.rank self.now.round self.now.heard }
        requires going_on { self.now.round < (arc_value self.now.run).rounds }
        requires tells { self.now.rank ≡ teller (arc_value self.now.run) self.now.round }
        ensures letters { OnOk result (map ⟦<RelayMail as Mail>⟧.name letters.new.items
            ≡ map ⟦<RelayMail as Mail>⟧.name letters.old.items
            ++ cond (hears (arc_value self.now.run) self.now.round to)
            (name_of (round_label self.now.round) self.now.rank to ∷ []) []) }
        ensures own { OnOk result (All (λ letter. ⟦<RelayMail as Mail>⟧.run letter ≡ arc_value self.now.run) letters.old.items
            → All (λ letter. ⟦<RelayMail as Mail>⟧.run letter ≡ arc_value self.now.run) letters.new.items) }
    {
        if !self.run.hears(self.round, to) {
            return Ok(());
        }
        letters.push(RelayMail::of_round(&self.run, self.round, self.rank, to)?)?;
        Ok(())
    }

    /// The letters of the rank that tells in this round.
    fn letters(&self, alloc: Global) -> Result<Vec<RelayMail>, NoMemory>
        requires here { IsPlaced (arc_value self.now.run) self.now.rank self.now.round self.now.heard }
        requires going_on { self.now.round < (arc_value self.now.run).rounds }
        requires tells { self.now.rank ≡ teller (arc_value self.now.run) self.now.round }
        ensures letters { IfOk result (λ letters. map ⟦<RelayMail as Mail>⟧.name letters.items
            ≡ sent (relay_course (arc_value self.now.run)) (round_label self.now.round) self.now.rank) }
        ensures own { IfOk result (λ letters. All (λ letter. ⟦<RelayMail as Mail>⟧.run letter ≡ arc_value self.now.run) letters.items) }
    {
        let mut letters = Vec::new(alloc);
        'each: for to in 0..self.run.ranks {
            self.tell(to, &mut letters)?;
        }
        Ok(letters)
    }
}

/// The number in the letters that a rank holds at the end of a round, of which there is one at most.
fn number_in(held: &[RelayMail]) -> u64
    ensures { (run : RelayRun) (round rank : ℕ) → IsRelay run → round < run.rounds
        → All (λ letter. ⟦<RelayMail as Mail>⟧.run letter ≡ run) held.now
        → map ⟦<RelayMail as Mail>⟧.name held.now ≡ awaited (relay_course run) (round_label round) rank
        → result ≡ told_in run rank round }
{
    match held.first() {
        Some(letter) => letter.number(),
        None => 0,
    }
}

impl Program for Relay {
    type Mail = RelayMail;

    ghost run = { λ program. arc_value program.run };

    ghost rank_of = { λ program. program.rank };

    ghost place = { λ program. program.round };

    ghost stands = { λ program _. IsPlaced (arc_value program.run) program.rank program.round program.heard };

    fn rank(&self) -> u16 {
        self.rank
    }

    fn ranks(&self) -> u16 {
        self.run.ranks
    }

    fn label(&self) -> Label {
        label_of(self.round.min(self.run.rounds.saturating_sub(1)))
    }

    fn finished(&self) -> bool {
        self.round == self.run.rounds
    }

    fn own_run(&self, letter: &RelayMail) -> bool {
        letter.is_of(&self.run)
    }

    fn enter(&mut self, alloc: Global) -> Result<Vec<RelayMail>, NoMemory> {
        if self.rank == self.run.teller(self.round) {
            let letters = self.letters(alloc)?;
            return Ok(letters);
        }
        Ok(Vec::new(alloc))
    }

    fn ready(&self, held: &[RelayMail]) -> bool {
        held.len() == self.run.awaits(self.round, self.rank)
    }

    fn finish(&mut self, _alloc: Global, held: Vec<RelayMail>) -> Result<(), NoMemory>
        requires here { IsPlaced (arc_value self.old.run) self.old.rank self.old.round self.old.heard }
        requires going_on { ¬ IsOver (relay_course (arc_value self.old.run)) self.old.rank self.old.round }
        requires held { IsHeld ⟦<RelayMail as Mail>⟧.run ⟦<RelayMail as Mail>⟧.name (arc_value self.old.run)
            (label_at ((relay_course (arc_value self.old.run)).labels self.old.rank) self.old.round) self.old.rank held.items }
        requires ready { map ⟦<RelayMail as Mail>⟧.name held.items ≡ awaited (relay_course (arc_value self.old.run))
            (label_at ((relay_course (arc_value self.old.run)).labels self.old.rank) self.old.round) self.old.rank }
        ensures next { OnOk result (IsPlaced (arc_value self.new.run) self.new.rank self.new.round self.new.heard) }
        ensures run { OnOk result (arc_value self.new.run ≡ arc_value self.old.run) }
        ensures rank { OnOk result (self.new.rank ≡ self.old.rank) }
        ensures place { OnOk result (self.new.round ≡ self.old.round + 1) }
    {
        self.heard += number_in(&held);
        self.round += 1;
        Ok(())
    }

    ghost on_course = { λ program _ placed. relay_is_course (arc_value program.run) placed.relay };
}
