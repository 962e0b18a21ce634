//! Open nodes, as they are told, directed, counted and decided.

use crate::accepted::Accepted;
use samr_box::{IBox, Listed};
use samr_rounds::RankTags;
use samr_sign::Signature;

/// An open node that a rank was told, and the rank that directs it. At first these are all roots.
#[derive(Clone, Copy, Debug, PartialEq, Eq)]
pub struct Told {
    pub director: u16,
    pub node: IBox,
}

/// An open node that a rank directs, and the ranks that were told it, ascending.
#[derive(Debug, Drop)]
pub struct Directed {
    pub node: IBox,
    pub asked: Listed<u16>,
}

/// What a rank has before a round: the open nodes that it was told, and those that it directs.
#[derive(Debug, Drop)]
pub struct OpenNodes {
    pub told: Listed<Told>,
    pub directed: Listed<Directed>,
}

/// A directed node with the sum of the signatures that were reported, and with the number of tags of
/// each rank that reported it as near, ascending.
#[derive(Drop)]
pub struct Counted {
    pub node: IBox,
    pub sum: Signature,
    pub tags: Listed<RankTags>,
}

/// What a rank has once all have reported: the told nodes that it is near, and the counts of the
/// nodes that it directs.
#[derive(Drop)]
pub struct Reported {
    pub near: Listed<Told>,
    pub counted: Listed<Counted>,
}

/// What a rank has once all have decided: the nodes that are open after the round, and the boxes
/// accepted in it whose nodes the rank is near.
#[derive(Debug, Drop)]
pub struct Decided {
    pub told: Listed<Told>,
    pub directed: Listed<Directed>,
    pub accepted: Listed<Accepted>,
}
