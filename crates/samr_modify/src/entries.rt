//! New boxes with the owners of their old ones, and old boxes with what takes their places.

use samr_box::{IBox, Listed};
use samr_level::{BoxRef, Edge};
use std::marker::Model;

/// A new box that a rank owns, and the rank that owns the old box whose place it takes.
#[derive(Clone, Copy, Debug, PartialEq, Eq)]
pub struct NewBox {
    pub bx: IBox,
    pub old_owner: u16,
}

impl Model for NewBox {
    ghost use Rattle.samr_modify.specs.Pieces.{Piece};

    ghost Value = { Piece };

    ghost view = { λ b. record { bx = b.bx; old_owner = b.old_owner } };

    ghost inverse = { λ v. record { bx = v.bx; old_owner = v.old_owner } };
}

/// An old box, the boxes that take its place, in level order, and its edges to anchors, in edge
/// order. In a letter the edges are told only to owners of the new boxes.
#[derive(Debug, Drop)]
pub struct Replaced {
    pub old: BoxRef,
    pub news: Listed<BoxRef>,
    pub edges: Listed<Edge>,
}
