//! What the letters of a run say.

ghost use Rattle.std.specs.Prelude.{◌≡◌, IfOk};

use crate::copies::{all_parcels, all_replaced, all_rulings, all_seen, all_signatures, gift};
use samr_balance::{Cutting, Gift};
use samr_box::{IBox, Listed};
use samr_cluster::Ruling;
use samr_data::Parcel;
use samr_level::Edge;
use samr_load::Piece;
use samr_modify::Replaced;
use samr_sched::Request;
use samr_sign::Signature;
use samr_tags::Seen;
use std::alloc::{AllocError as NoMemory, Global};

/// What a letter says, by the stage that it is of.
///
/// Lists that begin with an edge stand in edge order, those that begin with a box and its owner in level order, others in
/// corner order of their first part.
#[derive(Drop)]
pub enum Body {
    /// Tagged cells of the sender near the heads of its edges.
    Buffer(Listed<Seen>),
    /// What the new level two above needs of the level.
    Cover(Listed<IBox>),
    /// The signatures of the sender's tags in open nodes.
    Report(Listed<Signature>),
    /// What becomes of open nodes.
    Decide(Listed<Ruling>),
    /// Overlaps of the addressee's clusters with the sender's boxes.
    Edges(Listed<Edge>),
    /// The cells of a subtree of the ranks.
    SumUp(u64),
    /// The cells of all ranks.
    TellDown(u64),
    /// Pieces that go to a parent, or how many cells the sender needs.
    Up(Gift),
    /// Pieces that go to a child.
    Down(Listed<Piece>),
    /// Where pieces of the addressee's boxes have come to.
    Home(Listed<Cutting>),
    /// The boxes that take the place of others.
    Modify(Listed<Replaced>),
    /// Overlaps found by way of a level between.
    Bridge(Listed<Edge>),
    /// Values of old levels for a new one.
    Values(Listed<Parcel>),
    /// Cells of the level below that are asked for.
    Ask(Listed<Request>),
    /// Values of ghost cells.
    Fill(Listed<Parcel>),
    /// Values of cells under a finer level.
    Coarsen(Listed<Parcel>),
}

impl Body {
    /// The same once more.
    ///
    /// # Errors
    ///
    /// Where memory is short.
    pub fn copied(&self, alloc: Global) -> Result<Body, NoMemory>
        ensures { IfOk result (λ one. one ≡ self.now) }
    {
        match self {
            Body::Buffer(near) => Ok(Body::Buffer(all_seen(alloc, near)?)),
            Body::Cover(boxes) => Ok(Body::Cover(boxes.copied(alloc)?)),
            Body::Report(signatures) => Ok(Body::Report(all_signatures(alloc, signatures)?)),
            Body::Decide(rulings) => Ok(Body::Decide(all_rulings(alloc, rulings)?)),
            Body::Edges(edges) => Ok(Body::Edges(edges.copied(alloc)?)),
            Body::SumUp(cells) => Ok(Body::SumUp(*cells)),
            Body::TellDown(cells) => Ok(Body::TellDown(*cells)),
            Body::Up(given) => Ok(Body::Up(gift(alloc, given)?)),
            Body::Down(pieces) => Ok(Body::Down(pieces.copied(alloc)?)),
            Body::Home(cuttings) => Ok(Body::Home(cuttings.copied(alloc)?)),
            Body::Modify(entries) => Ok(Body::Modify(all_replaced(alloc, entries)?)),
            Body::Bridge(edges) => Ok(Body::Bridge(edges.copied(alloc)?)),
            Body::Values(parcels) => Ok(Body::Values(all_parcels(alloc, parcels)?)),
            Body::Ask(requests) => Ok(Body::Ask(requests.copied(alloc)?)),
            Body::Fill(parcels) => Ok(Body::Fill(all_parcels(alloc, parcels)?)),
            Body::Coarsen(parcels) => Ok(Body::Coarsen(all_parcels(alloc, parcels)?)),
        }
    }
}
