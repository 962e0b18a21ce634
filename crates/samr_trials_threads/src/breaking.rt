//! A sum of which one rank finds no memory while the others sleep.

ghost use Rattle.std.specs.Prelude.{◌≡◌, ◌+◌, ◌<◌, length, true, false, IfOk, OnOk, map};
ghost use Rattle.std.specs.Arc.{arc_value};
ghost use Rattle.samr_stage.specs.Course.{IsOver, awaited, label_at};
ghost use Rattle.samr_stage.specs.Held.{IsHeld};
ghost use Rattle.samr_tree.specs.TreeSum.{AreSummable, tree_course};
ghost use Rattle.samr_tree.specs.TreeLaws.{tree_is_course};
ghost use Rattle.samr_world.specs.World.{IsTeam};

use samr_drive::Gate;
use samr_stage::{Label, Mail, Program};
use samr_tree::{SumMail, TreeSum};
use std::alloc::{AllocError as NoMemory, Global};
use std::sync::Arc;
use std::thread;

/// One rank's part of a sum over all ranks. Where it breaks it finds no memory once it has the letters
/// of its first label.
#[derive(Drop)]
pub struct Breaking {
    sum: TreeSum,
    breaks: bool,
}

impl Breaking {
    fn new(alloc: Global, run: Arc<Vec<u64>>, rank: u16, breaks: bool) -> Result<Self, NoMemory>
        requires summable { AreSummable (arc_value run).items }
        requires is_rank { rank < length (arc_value run).items }
        ensures run { IfOk result (λ program. ⟦<Breaking as Program>⟧.run program ≡ (arc_value run).items) }
        ensures rank { IfOk result (λ program. ⟦<Breaking as Program>⟧.rank_of program ≡ rank) }
        ensures place { IfOk result (λ program. ⟦<Breaking as Program>⟧.place program ≡ 0) }
        ensures stands { IfOk result (λ program. ⟦<Breaking as Program>⟧.stands program false) }
    {
        Ok(Breaking {
            sum: TreeSum::new(alloc, run, rank)?,
            breaks,
        })
    }
}

impl Program for Breaking {
    type Mail = SumMail;

    ghost run = { λ program. ⟦<TreeSum as Program>⟧.run program.sum };

    ghost rank_of = { λ program. ⟦<TreeSum as Program>⟧.rank_of program.sum };

    ghost place = { λ program. ⟦<TreeSum as Program>⟧.place program.sum };

    ghost stands = { λ program entered. ⟦<TreeSum as Program>⟧.stands program.sum entered };

    fn rank(&self) -> u16 {
        self.sum.rank()
    }

    fn ranks(&self) -> u16 {
        self.sum.ranks()
    }

    fn label(&self) -> Label {
        self.sum.label()
    }

    fn finished(&self) -> bool {
        self.sum.finished()
    }

    fn own_run(&self, letter: &SumMail) -> bool {
        self.sum.own_run(letter)
    }

    fn enter(&mut self, alloc: Global) -> Result<Vec<SumMail>, NoMemory> {
        let letters = self.sum.enter(alloc)?;
        Ok(letters)
    }

    fn ready(&self, held: &[SumMail]) -> bool {
        self.sum.ready(held)
    }

    fn finish(&mut self, alloc: Global, held: Vec<SumMail>) -> Result<(), NoMemory>
        requires here { ⟦<TreeSum as Program>⟧.stands self.old.sum true }
        requires going_on { ¬ IsOver (tree_course (⟦<TreeSum as Program>⟧.run self.old.sum)) (⟦<TreeSum as Program>⟧.rank_of self.old.sum) (⟦<TreeSum as Program>⟧.place self.old.sum) }
        requires held { IsHeld ⟦<SumMail as Mail>⟧.run ⟦<SumMail as Mail>⟧.name (⟦<TreeSum as Program>⟧.run self.old.sum)
            (label_at ((tree_course (⟦<TreeSum as Program>⟧.run self.old.sum)).labels (⟦<TreeSum as Program>⟧.rank_of self.old.sum)) (⟦<TreeSum as Program>⟧.place self.old.sum))
            (⟦<TreeSum as Program>⟧.rank_of self.old.sum) held.items }
        requires ready { map ⟦<SumMail as Mail>⟧.name held.items
            ≡ awaited (tree_course (⟦<TreeSum as Program>⟧.run self.old.sum))
            (label_at ((tree_course (⟦<TreeSum as Program>⟧.run self.old.sum)).labels (⟦<TreeSum as Program>⟧.rank_of self.old.sum)) (⟦<TreeSum as Program>⟧.place self.old.sum))
            (⟦<TreeSum as Program>⟧.rank_of self.old.sum) }
        ensures next { OnOk result (⟦<TreeSum as Program>⟧.stands self.new.sum false) }
        ensures run { OnOk result (⟦<TreeSum as Program>⟧.run self.new.sum ≡ ⟦<TreeSum as Program>⟧.run self.old.sum) }
        ensures rank { OnOk result (⟦<TreeSum as Program>⟧.rank_of self.new.sum ≡ ⟦<TreeSum as Program>⟧.rank_of self.old.sum) }
        ensures place { OnOk result (⟦<TreeSum as Program>⟧.place self.new.sum ≡ ⟦<TreeSum as Program>⟧.place self.old.sum + 1) }
    {
        if self.breaks {
            return Err(NoMemory);
        }
        self.sum.finish(alloc, held)?;
        Ok(())
    }

    ghost on_course = { λ program _ _. tree_is_course (⟦<TreeSum as Program>⟧.run program.sum) };
}

/// The parts of all ranks in the sum of these numbers, of which that of the first rank breaks.
pub fn breaking_team(alloc: Global, values: Vec<u64>) -> Result<Vec<Breaking>, NoMemory>
    requires { AreSummable values.items }
    ensures { IfOk result (λ team. IsTeam ⟦<Breaking as Program>⟧ ⟦<SumMail as Mail>⟧ values.items team.items) }
{
    let ranks = values.len() as u16;
    let run = Arc::new(alloc, values)?;
    let mut team = Vec::new(alloc);
    'each: for rank in 0..ranks {
        team.push(Breaking::new(alloc, Arc::try_clone(&run)?, rank, rank == 0)?)?;
    }
    Ok(team)
}

const TURNS: u32 = 20_000;

/// A gate that holds the first rank until the others sleep, as far as so many turns are enough.
#[derive(Drop)]
pub struct LateFirst;

impl Gate for LateFirst {
    fn enter(&self, rank: u16) {
        if rank > 0 {
            return;
        }
        for _turn in 0..TURNS {
            thread::yield_now();
        }
    }
}
