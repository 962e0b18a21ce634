//! The balance of load over the tree of the ranks: pieces of boxes, taking cells from a list of them,
//! and the two steps of a rank, up the tree and down it.
//!
//! A rank that has more cells than it wants gives the rest to its parent; one that has fewer tells
//! what it needs, and is given it on the way down. Contracts see the balance of all ranks as one
//! definition over the whole list of boxes. Its laws are in `laws`.
#![tactic(auto)]

mod climbing;
mod falling;
mod laws;
mod pieces;
mod plain;
mod quotas;
mod taking;

pub use climbing::{Climbed, climb};
pub use falling::{Fallen, fall};
pub use laws::{cells_are_kept, levels_stay_levels, loads_are_bounded, quotas_add_up};
pub use pieces::{Piece, in_piece_order, is_countable, load};
pub use plain::balance_all;
pub use quotas::quota;
pub use taking::{Taken, take};
