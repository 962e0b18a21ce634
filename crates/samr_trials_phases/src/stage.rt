//! The stage of which the run has thirty.
ghost use Rattle.std.specs.Prelude.{◌≡◌, ℕ, IfOk};
ghost use Rattle.samr_stage.specs.Row.{heard, column};
ghost use Rattle.samr_trials_phases.specs.Rows.{row, row_between, one_weighs};

use samr_stage::{Held, Stage};
use std::alloc::{AllocError as NoMemory, Global};

/// The first rank tells the second the number of the run.
#[derive(Drop)]
pub struct Tell {
    pub(crate) rank: u16,
    pub(crate) number: u64,
}

impl Stage for Tell {
    type Body = u64;

    type Out = u64;

    ghost Whole = { ℕ };

    ghost ranks_of = { λ _. 3 };

    ghost says = { row };

    ghost gives = { λ w rank out. out ≡ w };

    ghost weight_of = { λ _. 1 };

    ghost starts = { λ s w rank. (s.rank ≡ rank) × (s.number ≡ w) };

    ghost waits = { λ s w rank. (s.rank ≡ rank) × (s.number ≡ w) };

    #[tactic(auto, using(crate::proofs::Lines::tells, crate::proofs::Lines::is_quiet))]
    fn letters(&mut self, alloc: Global) -> Result<Vec<(u16, u64)>, NoMemory> {
        let mut letters = Vec::new(alloc);
        if self.rank == 0 {
            letters.push((1, self.number))?;
        }
        Ok(letters)
    }

    fn weight(&self, _body: &u64) -> u64 {
        1
    }

    fn goal(&self) -> u64 {
        if self.rank == 1 { 1 } else { 0 }
    }

    fn finish(self, _alloc: Global, _held: Vec<Held<u64>>) -> Result<u64, NoMemory>
        requires { (w : ℕ) × (rank : ℕ) × ((self.rank ≡ rank) × (self.number ≡ w))
            × (_held.items ≡ heard (column (row w) rank) 3) }
        ensures { IfOk result (λ out. (w : ℕ) (rank : ℕ) → (self.rank ≡ rank) × (self.number ≡ w)
            → _held.items ≡ heard (column (row w) rank) 3 → out ≡ w) }
    {
        Ok(self.number)
    }

    ghost positive = { λ _ _ _ _ _. one_weighs };

    ghost between = { row_between };
}
