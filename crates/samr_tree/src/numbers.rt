//! The numbers that the ranks of a run add up.

ghost use Rattle.std.specs.Prelude.{◌≡◌, ℕ, ◌<◌, ◌↔◌, List, length, IsTrue, IfOk, slice_index};
ghost use Rattle.std.specs.Arc.{arc_value};
ghost use Rattle.samr_tree.specs.TreeSum.{AreSummable};

use std::alloc::AllocError as NoMemory;
use std::marker::Model;
use std::sync::Arc;

/// The numbers that the ranks of a run add up, one of each rank, shared by all who know of the run.
#[derive(Drop)]
pub struct Numbers {
    values: Arc<Vec<u64>>,
}

impl Model for Numbers {
    ghost Value = { List ℕ };

    ghost view = { λ n. (arc_value n.values).items };

    ghost invariant = { λ n. AreSummable (arc_value n.values).items };
}

impl Numbers {
    /// One number of each rank.
    pub fn new(values: Arc<Vec<u64>>) -> Self
        requires { AreSummable (arc_value values).items }
        ensures { result ≡ (arc_value values).items }
    {
        Numbers { values }
    }

    /// How many ranks there are.
    pub fn ranks(&self) -> u16
        ensures ranks { result ≡ length self.now }
        ensures summable { AreSummable self.now }
    {
        self.values.len() as u16
    }

    /// The number of a rank.
    pub fn of(&self, rank: u16) -> u64
        requires { rank < length self.now }
        ensures { result ≡ slice_index self.now rank }
    {
        self.values[usize::from(rank)]
    }

    /// Whether these are the same numbers.
    pub fn same(&self, other: &Self) -> bool
        ensures { IsTrue result ↔ (self.now ≡ other.now) }
    {
        self.values.as_slice() == other.values.as_slice()
    }

    /// The same numbers.
    ///
    /// # Errors
    ///
    /// Where they are shared by so many that no more can be counted.
    pub fn share(&self) -> Result<Self, NoMemory>
        ensures { IfOk result (λ same. same ≡ self.now) }
    {
        Ok(Numbers {
            values: Arc::try_clone(&self.values)?,
        })
    }
}
