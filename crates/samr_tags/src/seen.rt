//! What ranks tell each other: tagged cells of one box that are near another.

ghost use Rattle.std.specs.Prelude.{◌≡◌, ◌++◌, IfOk, OnOk, nat_eq, filter, map};
ghost use Rattle.samr_tags.specs.Seeing.{told_to};

use samr_box::{IVec, Listed};
use samr_level::Edge;
use std::alloc::{AllocError as NoMemory, Global};

/// The tagged cells of an edge's base that lie within the tag buffer of its head's image.
#[derive(Debug, Drop)]
pub struct Seen {
    pub edge: Edge,
    pub cells: Listed<IVec>,
}

impl Seen {
    /// The same once more.
    pub fn copied(&self, alloc: Global) -> Result<Seen, NoMemory>
        ensures { IfOk result (λ one. one ≡ self.now) }
    {
        Ok(Seen {
            edge: self.edge,
            cells: self.cells.copied(alloc)?,
        })
    }
}

/// Those that are for a rank.
#[tactic(auto, unfolding(crate::specs::Seeing::told_to))]
pub fn told_to(alloc: Global, rank: u16, list: &[Seen]) -> Result<Listed<Seen>, NoMemory>
    ensures { IfOk result (λ told. told ≡ told_to rank list.now) }
{
    let mut told = Vec::new(alloc);
    for one in list {
        if one.edge.head.owner == rank {
            told.push(one.copied(alloc)?)?;
        }
    }
    Ok(Listed::from_vec(told))
}
