//! Boxes with their owners, and the edges between them.

ghost use Rattle.std.specs.Prelude.{◌≡◌, ◌↔◌, List};
ghost use Rattle.samr_box.specs.declared.vector.IVec.{IVec};
ghost use Rattle.samr_box.specs.Space.{Space};
ghost use Rattle.samr_box.specs.Lists.{Member};
ghost use Rattle.samr_level.specs.Refs.{Owned, turned};
ghost use Rattle.samr_level.specs.Overlaps.{scale, true_overlaps};

use samr_box::{IBox, Shift};
use std::marker::Model;

/// A box and the rank that owns it. Ordered by owner, then in corner order (level order).
#[derive(Clone, Copy, Debug, PartialEq, Eq, PartialOrd, Ord)]
pub struct BoxRef {
    pub owner: u16,
    pub bx: IBox,
}

impl Model for BoxRef {
    ghost use Rattle.samr_level.specs.Refs.{Owned};

    ghost Value = { Owned };

    ghost view = { λ b. record { owner = b.owner; bx = b.bx } };

    ghost inverse = { λ v. record { owner = v.owner; bx = v.bx } };
}

/// A base box and a head box of which an image, by the shift, lies near it. Ordered by base, then
/// head, then shift (edge order).
#[derive(Clone, Copy, Debug, PartialEq, Eq, PartialOrd, Ord)]
pub struct Edge {
    pub base: BoxRef,
    pub head: BoxRef,
    pub shift: Shift,
}

impl Model for Edge {
    ghost use Rattle.samr_level.specs.Refs.{Link};

    ghost Value = { Link };

    ghost view = { λ e. record { base = e.base; head = e.head; shift = e.shift } };

    ghost inverse = { λ v. record { base = v.base; head = v.head; shift = v.shift } };
}

impl Edge {
    /// The same edge seen from its head. It is a true overlap of head level and base level exactly
    /// where the edge is one of base level and head level.
    pub fn turned(self) -> Edge
        ensures value { result ≡ turned self }
        ensures overlaps { (frame : Space) → (width base_ratio head_ratio : IVec) → (bases heads : List Owned) → Member self (true_overlaps (scale frame width base_ratio head_ratio) bases heads) ↔ Member result (true_overlaps (scale frame width head_ratio base_ratio) heads bases) }
    {
        Edge {
            base: self.head,
            head: self.base,
            shift: self.shift.opposite(),
        }
    }
}
