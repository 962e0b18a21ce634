//! The stage of one round of a sum up the tree.

ghost use Rattle.std.specs.Prelude.{◌≡◌, ℕ, ◌<◌, ◌^◌, IsOk, IfOk, if◌then◌else◌};
ghost use Rattle.std.specs.Option.{ForSome, option_map_or};
ghost use Rattle.samr_stage.specs.declared.stage.Held.{Held};
ghost use Rattle.samr_stage.specs.Row.{heard, column};
ghost use Rattle.samr_tree.specs.Tree.{tells_up};
ghost use Rattle.samr_tree.specs.SumUp.{Sums, sum_row, summed, IsSum};
ghost use Rattle.samr_tree.specs.StageLaws.{sum_between, heavy};

use crate::tree::{children, count_of, parent, tells_up};
use samr_stage::{Held, Stage};
use std::alloc::{AllocError as NoMemory, Global};

/// One round of a sum up the tree. In the round in which it is its turn a rank tells its parent its
/// number. In the round in which it is its children's turn it adds theirs to its own.
#[derive(Drop)]
pub struct SumUp {
    rank: u16,
    ranks: u16,
    round: u32,
    number: u64,
}

impl SumUp {
    /// The stage of a rank that has this number before the round.
    ///
    /// # Errors
    ///
    /// None: a stage of one number takes no memory.
    pub fn start(
        _alloc: Global,
        rank: u16,
        ranks: u16,
        round: u32,
        number: u64,
    ) -> Result<Self, NoMemory>
        ensures made { IsOk result }
        ensures starts { IfOk result (λ stage. (w : Sums) (r : ℕ) → IsSum rank ranks round number w r
            → ⟦<SumUp as Stage>⟧.starts stage w r) }
    {
        Ok(SumUp {
            rank,
            ranks,
            round,
            number,
        })
    }
}

/// How many letters a rank tells its parent in a round.
fn count_told(rank: Option<u16>, ranks: u16, round: u32) -> u64
    requires { ForSome rank (λ r. r < ranks) }
    ensures { result ≡ option_map_or (λ r. if tells_up ranks round r then 1 else 0) rank 0 }
{
    match rank {
        Some(rank) => count_of(tells_up(rank, ranks, round)),
        None => 0,
    }
}

impl Stage for SumUp {
    type Body = u64;

    type Out = u64;

    ghost Whole = { Sums };

    ghost ranks_of = { λ w. w.ranks };

    ghost says = { sum_row };

    ghost gives = { λ w rank out. out ≡ summed w rank };

    ghost weight_of = { λ _. 1 };

    ghost starts = { λ s w rank. IsSum s.rank s.ranks s.round s.number w rank };

    ghost waits = { λ s w rank. IsSum s.rank s.ranks s.round s.number w rank };

    fn letters(&mut self, alloc: Global) -> Result<Vec<(u16, u64)>, NoMemory> {
        let mut letters = Vec::new(alloc);
        if !tells_up(self.rank, self.ranks, self.round) {
            return Ok(letters);
        }
        if let Some(above) = parent(self.rank) {
            letters.push((above, self.number))?;
        }
        Ok(letters)
    }

    fn weight(&self, _body: &u64) -> u64 {
        1
    }

    fn goal(&self) -> u64 {
        let (first, second) = children(self.rank, self.ranks);
        count_told(first, self.ranks, self.round) + count_told(second, self.ranks, self.round)
    }

    fn finish(self, _alloc: Global, held: Vec<Held<u64>>) -> Result<u64, NoMemory>
        requires { (w : Sums) × (rank : ℕ) × IsSum self.rank self.ranks self.round self.number w rank
            × (held.items ≡ heard (column (sum_row w) rank) w.ranks) }
        ensures { IfOk result (λ out. (w : Sums) (rank : ℕ) → IsSum self.rank self.ranks self.round self.number w rank
            → held.items ≡ heard (column (sum_row w) rank) w.ranks → out ≡ summed w rank) }
    {
        let mut total = self.number;
        'each: for letter in &held {
            total += letter.body;
        }
        Ok(total)
    }

    ghost positive = { λ _ _ _ _ _. heavy };

    ghost between = { sum_between };
}
