//! The stage of one round of telling a number down the tree.

ghost use Rattle.std.specs.Prelude.{◌≡◌, ℕ, ◌<◌, ◌++◌, [], ◌∷◌, Some, None, IsOk, IfOk, OnOk, if◌then◌else◌};
ghost use Rattle.std.specs.Option.{ForSome, option_map_or};
ghost use Rattle.samr_stage.specs.Row.{heard, column};
ghost use Rattle.samr_tree.specs.Tree.{told_down};
ghost use Rattle.samr_tree.specs.TellDown.{Tellings, tell_row, informed, IsTelling};
ghost use Rattle.samr_tree.specs.StageLaws.{tell_between, heavy};

use crate::tree::{children, count_of, told_down};
use samr_stage::{Held, Stage};
use std::alloc::{AllocError as NoMemory, Global};

/// One round of telling a number down the tree. In the round in which it is its children's turn a
/// rank tells them its number. In the round in which it is its own turn it has its parent's number
/// from then on.
#[derive(Drop)]
pub struct TellDown {
    rank: u16,
    ranks: u16,
    round: u32,
    number: u64,
}

impl TellDown {
    /// The stage of a rank that has this number before the round.
    ///
    /// # Errors
    ///
    /// None: a stage of one number takes no memory.
    pub fn start(
        _alloc: Global,
        rank: u16,
        ranks: u16,
        round: u32,
        number: u64,
    ) -> Result<Self, NoMemory>
        ensures made { IsOk result }
        ensures starts { IfOk result (λ stage. (w : Tellings) (r : ℕ) → IsTelling rank ranks round number w r
            → ⟦<TellDown as Stage>⟧.starts stage w r) }
    {
        Ok(TellDown {
            rank,
            ranks,
            round,
            number,
        })
    }

    /// Adds the letter to a child where it is the child's turn.
    fn tell(&self, child: Option<u16>, letters: &mut Vec<(u16, u64)>) -> Result<(), NoMemory>
        requires { ForSome child (λ c. c < self.now.ranks) }
        ensures { OnOk result (letters.new.items ≡ letters.old.items
            ++ option_map_or (λ c. if told_down self.now.ranks self.now.round c then (c, self.now.number) ∷ [] else []) child []) }
    {
        if let Some(child) = child {
            if told_down(child, self.ranks, self.round) {
                letters.push((child, self.number))?;
            }
        }
        Ok(())
    }
}

impl Stage for TellDown {
    type Body = u64;

    type Out = u64;

    ghost Whole = { Tellings };

    ghost ranks_of = { λ w. w.ranks };

    ghost says = { tell_row };

    ghost gives = { λ w rank out. out ≡ informed w rank };

    ghost weight_of = { λ _. 1 };

    ghost starts = { λ s w rank. IsTelling s.rank s.ranks s.round s.number w rank };

    ghost waits = { λ s w rank. IsTelling s.rank s.ranks s.round s.number w rank };

    fn letters(&mut self, alloc: Global) -> Result<Vec<(u16, u64)>, NoMemory> {
        let (first, second) = children(self.rank, self.ranks);
        let mut letters = Vec::new(alloc);
        self.tell(first, &mut letters)?;
        self.tell(second, &mut letters)?;
        Ok(letters)
    }

    fn weight(&self, _body: &u64) -> u64 {
        1
    }

    fn goal(&self) -> u64 {
        count_of(told_down(self.rank, self.ranks, self.round))
    }

    fn finish(self, _alloc: Global, held: Vec<Held<u64>>) -> Result<u64, NoMemory>
        requires { (w : Tellings) × (rank : ℕ) × IsTelling self.rank self.ranks self.round self.number w rank
            × (held.items ≡ heard (column (tell_row w) rank) w.ranks) }
        ensures { IfOk result (λ out. (w : Tellings) (rank : ℕ) → IsTelling self.rank self.ranks self.round self.number w rank
            → held.items ≡ heard (column (tell_row w) rank) w.ranks → out ≡ informed w rank) }
    {
        let Some(letter) = held.first() else {
            return Ok(self.number);
        };
        Ok(letter.body)
    }

    ghost positive = { λ _ _ _ _ _. heavy };

    ghost between = { tell_between };
}
