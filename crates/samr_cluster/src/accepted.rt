//! Accepted boxes: the clusters, with their owners and the ranks near their nodes.

ghost use Rattle.std.specs.Prelude.{◌≡◌, IfOk, map};
ghost use Rattle.samr_cluster.specs.Accepting.{cluster_of};

use samr_box::{IBox, Listed};
use samr_level::BoxRef;
use std::alloc::{AllocError as NoMemory, Global};

/// A box that was accepted as a cluster, its owner, and the ranks near its node, ascending.
#[derive(Debug, Drop)]
pub struct Accepted {
    pub bx: IBox,
    pub owner: u16,
    pub near: Listed<u16>,
}

/// The accepted boxes with their owners.
pub fn clusters_of(alloc: Global, accepted: &[Accepted]) -> Result<Vec<BoxRef>, NoMemory>
    ensures { IfOk result (λ v. v.items ≡ map (λ a. cluster_of a) accepted.now) }
{
    let mut clusters = Vec::new(alloc);
    for a in accepted {
        clusters.push(BoxRef {
            owner: a.owner,
            bx: a.bx,
        })?;
    }
    Ok(clusters)
}

/// Boxes as those of a rank.
pub fn owned_by(alloc: Global, rank: u16, boxes: &[IBox]) -> Result<Vec<BoxRef>, NoMemory>
    ensures { IfOk result (λ v. v.items ≡ map (λ b. record { owner = rank; bx = b }) boxes.now) }
{
    let mut owned = Vec::new(alloc);
    for b in boxes {
        owned.push(BoxRef {
            owner: rank,
            bx: *b,
        })?;
    }
    Ok(owned)
}

impl Accepted {
    /// The same box.
    ///
    /// # Errors
    ///
    /// Where memory is short.
    pub fn copied(&self, alloc: Global) -> Result<Accepted, NoMemory>
        ensures { IfOk result (λ a. a ≡ self.now) }
    {
        Ok(Accepted {
            bx: self.bx,
            owner: self.owner,
            near: self.near.copied(alloc)?,
        })
    }
}
