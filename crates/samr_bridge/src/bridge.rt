//! The stage of a bridge.

ghost use Rattle.std.specs.Prelude.{◌≡◌, ◌++◌, ℕ, IfOk, OnOk, map};
ghost use Rattle.std.specs.List.{flat_map};
ghost use Rattle.samr_box.specs.Vector.{InRange, greatest};
ghost use Rattle.samr_box.specs.Space.{IsSpace, finer};
ghost use Rattle.samr_stage.specs.declared.stage.Held.{Held};
ghost use Rattle.samr_stage.specs.Row.{heard, column};
ghost use Rattle.samr_bridge.specs.Bridge.{Bridging, IsBridge};
ghost use Rattle.samr_bridge.specs.Found.{bridge_pair};
ghost use Rattle.samr_bridge.specs.BridgeRow.{bridge_row};
ghost use Rattle.samr_bridge.specs.BridgeParts.{HasPairs, HasFound};
ghost use Rattle.samr_bridge.specs.StageLaws.{bridge_between, heavy};

use crate::edges::{about, based_on, gathered, other_owners, turned_on};
use crate::search::found;
use crate::window::ratio_of;
use samr_box::{Domain, IVec, Listed, Ratio};
use samr_level::{Connector, Edge, Pair, settled};
use samr_stage::{Held, Stage};
use std::alloc::{AllocError as NoMemory, Global};

/// A bridge from an east level to a west level through a centre level. The rank of a centre box tells
/// the owners of the boxes that it knows which of its east boxes overlap which of its west boxes, and
/// each rank puts together what it found and what it is told.
#[derive(Drop)]
pub struct Bridge {
    rank: u16,
    width: IVec,
    east_ratio: Ratio,
    west_ratio: Ratio,
    found: Vec<Edge>,
    addressees: Vec<u16>,
    senders: Vec<u16>,
}

impl Bridge {
    /// The bridge of a rank that has these pairs of east and centre, at any width, and of centre and
    /// west, at a width of at least the wanted one rounded up to centre cells. `d` is the frame of
    /// level 0, and `width` the wanted width in cells of the coarser of east and west.
    ///
    /// # Errors
    ///
    /// Where memory is short.
    pub fn start(
        alloc: Global,
        rank: u16,
        ranks: u16,
        d: &Domain,
        east: &Pair,
        west: &Pair,
        width: IVec,
    ) -> Result<Bridge, NoMemory>
        requires width { InRange width }
        requires frame { IsSpace (finer d.now (greatest east.now.forth.base_ratio west.now.forth.head_ratio)) }
        ensures { IfOk result (λ bridge. (w : Bridging) (r : ℕ) → HasPairs rank ranks d.now east.now west.now width w r
            → ⟦<Bridge as Stage>⟧.starts bridge w r) }
    {
        let east_ratio = east.forth.base_ratio;
        let west_ratio = west.forth.head_ratio;
        let frame = finer_frame(d, east_ratio, west_ratio);
        let to_east = east.back.edges.as_slice();
        let to_west = west.forth.edges.as_slice();
        Ok(Bridge {
            rank,
            width,
            east_ratio,
            west_ratio,
            found: found(
                alloc, width, east_ratio, west_ratio, &frame, to_east, to_west,
            )?,
            addressees: other_owners(alloc, rank, to_east, to_west)?,
            senders: other_owners(
                alloc,
                rank,
                east.forth.edges.as_slice(),
                west.back.edges.as_slice(),
            )?,
        })
    }
}

/// The frame of the finer of two levels with these ratios from level 0, whose frame is `d`.
pub fn finer_frame(d: &Domain, a: Ratio, b: Ratio) -> Domain
    requires { IsSpace (finer d.now (greatest a b)) }
    ensures { result ≡ finer d.now (greatest a b) }
{
    let finest = a.factors().greatest(b.factors());
    d.finer(ratio_of(finest))
}

impl Stage for Bridge {
    type Body = Listed<Edge>;

    type Out = Pair;

    ghost Whole = { Bridging };

    ghost ranks_of = { λ w. w.ranks };

    ghost says = { bridge_row };

    ghost gives = { λ w rank out. IsBridge w → out ≡ bridge_pair w rank };

    ghost weight_of = { λ _. 1 };

    ghost starts = { λ s w rank. HasFound s.rank s.width s.east_ratio s.west_ratio s.found.items s.addressees.items s.senders.items w rank };

    ghost waits = { λ s w rank. HasFound s.rank s.width s.east_ratio s.west_ratio s.found.items s.addressees.items s.senders.items w rank };

    fn letters(&mut self, alloc: Global) -> Result<Vec<(u16, Listed<Edge>)>, NoMemory> {
        let mut letters = Vec::new(alloc);
        'each: for to in &self.addressees {
            let body = about(alloc, *to, self.found.as_slice())?;
            letters.push((*to, body))?;
        }
        Ok(letters)
    }

    fn weight(&self, _body: &Listed<Edge>) -> u64 {
        1
    }

    fn goal(&self) -> u64 {
        self.senders.len() as u64
    }

    fn finish(self, alloc: Global, held: Vec<Held<Listed<Edge>>>) -> Result<Pair, NoMemory>
        requires { (w : Bridging) × (rank : ℕ) × HasFound self.rank self.width self.east_ratio self.west_ratio self.found.items self.addressees.items self.senders.items w rank
            × (held.items ≡ heard (column (bridge_row w) rank) w.ranks) }
        ensures { IfOk result (λ out. (w : Bridging) (rank : ℕ)
            → HasFound self.rank self.width self.east_ratio self.west_ratio self.found.items self.addressees.items self.senders.items w rank
            → held.items ≡ heard (column (bridge_row w) rank) w.ranks → IsBridge w → out ≡ bridge_pair w rank) }
    {
        let all = gathered(alloc, self.found.as_slice(), held.as_slice())?;
        let forth = based_on(alloc, self.rank, all.as_slice())?;
        let back = turned_on(alloc, self.rank, all.as_slice())?;
        Ok(Pair {
            forth: Connector {
                width: self.width,
                base_ratio: self.east_ratio,
                head_ratio: self.west_ratio,
                edges: Listed::from_vec(settled(forth)),
            },
            back: Connector {
                width: self.width,
                base_ratio: self.west_ratio,
                head_ratio: self.east_ratio,
                edges: Listed::from_vec(settled(back)),
            },
        })
    }

    ghost positive = { λ _ _ _ _ _. heavy };

    ghost between = { bridge_between };
}
