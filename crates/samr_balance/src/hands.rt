//! What a rank has in the tree, and what it gives its parent.

use samr_box::Listed;
use samr_load::Piece;

/// How many cells the children of a rank need of it, 0 where a child told of no need or is not there.
#[derive(Clone, Copy, Debug, PartialEq, Eq)]
pub struct Needs {
    pub first: u64,
    pub second: u64,
}

/// What a rank has in the tree: its pieces, and the needs of its children.
#[derive(Debug, Drop)]
pub struct Hand {
    pub pieces: Listed<Piece>,
    pub needs: Needs,
}

/// What a rank gives its parent, in the order in which it was taken, and how many cells it needs of it.
#[derive(Debug, Drop)]
pub struct Gift {
    pub pieces: Listed<Piece>,
    pub need: u64,
}
