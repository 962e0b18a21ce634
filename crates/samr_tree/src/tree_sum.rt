//! The program of one rank of a sum over all ranks, put together of phases.

ghost use Rattle.std.specs.Prelude.{◌≡◌, ◌+◌, ◌<◌, Bool, true, false, length, sum, map, IsSome, IfSome, IsOk, IfOk, OnOk, ◌↔◌};
ghost use Rattle.std.specs.Arc.{arc_value};
ghost use Rattle.samr_stage.specs.Course.{IsOver, awaited, label_at};
ghost use Rattle.samr_stage.specs.Held.{IsHeld};
ghost use Rattle.samr_tree.specs.TreeSum.{AreSummable, tree_course};
ghost use Rattle.samr_tree.specs.TreeLaws.{tree_is_course};
ghost use Rattle.samr_tree.specs.TreePhases.{sum_is_of, sum_is_run, first_round};

use crate::going_down::GoingDown;
use crate::going_up::GoingUp;
use crate::numbers::Numbers;
use crate::parts::{Down, Seat, Total, Up};
use crate::sum_mail::SumMail;
use samr_phase::{Journey, Running, Then};
use samr_stage::{Label, Mail, Program};
use std::alloc::{AllocError as NoMemory, Global};
use std::sync::Arc;

/// All rounds of a sum: up the tree, and then down it.
pub type AllRounds = Then<GoingUp, Down, GoingDown>;

/// A sum over all ranks as a run.
pub struct Summing {}

impl Journey<SumMail, u64, Up, Total, AllRounds> for Summing {
    ghost first = { first_round };

    fn ranks(run: &Numbers) -> u16 {
        run.ranks()
    }

    ghost course_is = { sum_is_of };

    ghost is_run = { sum_is_run };
}

type Rounds = Running<SumMail, u64, Up, Total, AllRounds, Summing>;

/// One rank's part of a sum over all ranks: each rank has a number, and in the end each has the sum
/// of all of them.
///
/// The numbers go up the tree in phase 5 and the sum goes down it in phase 6, round by round, all in
/// step 0 and pass 0. A rank visits the rounds in which it tells or is told something; a rank that
/// is alone visits one round of phase 5.
#[derive(Drop)]
pub struct TreeSum {
    rounds: Rounds,
}

impl TreeSum {
    /// The part of a rank in the sum of these numbers, one of each rank.
    ///
    /// # Errors
    ///
    /// None: the numbers are shared, and no memory is taken.
    pub fn new(alloc: Global, run: Arc<Vec<u64>>, rank: u16) -> Result<TreeSum, NoMemory>
        requires summable { AreSummable (arc_value run).items }
        requires is_rank { rank < length (arc_value run).items }
        ensures made { IsOk result }
        ensures run { IfOk result (λ program. ⟦<TreeSum as Program>⟧.run program ≡ (arc_value run).items) }
        ensures rank { IfOk result (λ program. ⟦<TreeSum as Program>⟧.rank_of program ≡ rank) }
        ensures place { IfOk result (λ program. ⟦<TreeSum as Program>⟧.place program ≡ 0) }
        ensures stands { IfOk result (λ program. ⟦<TreeSum as Program>⟧.stands program false) }
    {
        let numbers = Numbers::new(run);
        let number = numbers.of(rank);
        let seat = Seat {
            rank,
            ranks: numbers.ranks(),
            round: 0,
        };
        let rounds = Running::new(alloc, numbers, rank, Up { seat, number })?;
        Ok(TreeSum { rounds })
    }

    /// The sum of all numbers, once the rank has left all its labels.
    pub fn total(&self) -> Option<u64>
        ensures over { (entered : Bool) → ⟦<TreeSum as Program>⟧.stands self.now entered
            → IsSome result ↔ IsOver (tree_course (⟦<TreeSum as Program>⟧.run self.now))
            (⟦<TreeSum as Program>⟧.rank_of self.now) (⟦<TreeSum as Program>⟧.place self.now) }
        ensures total { (entered : Bool) → ⟦<TreeSum as Program>⟧.stands self.now entered
            → IfSome result (λ total. total ≡ sum (⟦<TreeSum as Program>⟧.run self.now)) }
    {
        match self.rounds.given() {
            Some(end) => Some(end.total),
            None => None,
        }
    }
}

impl Program for TreeSum {
    type Mail = SumMail;

    ghost run = { λ program. ⟦<Rounds as Program>⟧.run program.rounds };

    ghost rank_of = { λ program. ⟦<Rounds as Program>⟧.rank_of program.rounds };

    ghost place = { λ program. ⟦<Rounds as Program>⟧.place program.rounds };

    ghost stands = { λ program. ⟦<Rounds as Program>⟧.stands program.rounds };

    fn rank(&self) -> u16 {
        self.rounds.rank()
    }

    fn ranks(&self) -> u16 {
        self.rounds.ranks()
    }

    fn label(&self) -> Label {
        self.rounds.label()
    }

    fn finished(&self) -> bool {
        self.rounds.finished()
    }

    fn own_run(&self, letter: &SumMail) -> bool {
        self.rounds.own_run(letter)
    }

    fn enter(&mut self, alloc: Global) -> Result<Vec<SumMail>, NoMemory> {
        let letters = self.rounds.enter(alloc)?;
        Ok(letters)
    }

    fn ready(&self, held: &[SumMail]) -> bool {
        self.rounds.ready(held)
    }

    fn finish(&mut self, alloc: Global, held: Vec<SumMail>) -> Result<(), NoMemory>
        requires here { ⟦<Rounds as Program>⟧.stands self.old.rounds true }
        requires going_on { ¬ IsOver (tree_course (⟦<Rounds as Program>⟧.run self.old.rounds)) (⟦<Rounds as Program>⟧.rank_of self.old.rounds) (⟦<Rounds as Program>⟧.place self.old.rounds) }
        requires held { IsHeld ⟦<SumMail as Mail>⟧.run ⟦<SumMail as Mail>⟧.name (⟦<Rounds as Program>⟧.run self.old.rounds)
            (label_at ((tree_course (⟦<Rounds as Program>⟧.run self.old.rounds)).labels (⟦<Rounds as Program>⟧.rank_of self.old.rounds)) (⟦<Rounds as Program>⟧.place self.old.rounds))
            (⟦<Rounds as Program>⟧.rank_of self.old.rounds) held.items }
        requires ready { map ⟦<SumMail as Mail>⟧.name held.items
            ≡ awaited (tree_course (⟦<Rounds as Program>⟧.run self.old.rounds))
            (label_at ((tree_course (⟦<Rounds as Program>⟧.run self.old.rounds)).labels (⟦<Rounds as Program>⟧.rank_of self.old.rounds)) (⟦<Rounds as Program>⟧.place self.old.rounds))
            (⟦<Rounds as Program>⟧.rank_of self.old.rounds) }
        ensures next { OnOk result (⟦<Rounds as Program>⟧.stands self.new.rounds false) }
        ensures run { OnOk result (⟦<Rounds as Program>⟧.run self.new.rounds ≡ ⟦<Rounds as Program>⟧.run self.old.rounds) }
        ensures rank { OnOk result (⟦<Rounds as Program>⟧.rank_of self.new.rounds ≡ ⟦<Rounds as Program>⟧.rank_of self.old.rounds) }
        ensures place { OnOk result (⟦<Rounds as Program>⟧.place self.new.rounds ≡ ⟦<Rounds as Program>⟧.place self.old.rounds + 1) }
    {
        self.rounds.finish(alloc, held)?;
        Ok(())
    }

    ghost on_course = { λ program _ _. tree_is_course (⟦<Rounds as Program>⟧.run program.rounds) };
}
