//! What a rank has once its boxes are balanced.

use samr_box::Listed;
use samr_level::Mapping;
use samr_load::Piece;

/// What a rank has once its boxes are balanced: its pieces in order, and what became of the boxes that
/// it owned, each with its pieces on all ranks.
#[derive(Debug, Drop)]
pub struct Homed {
    pub pieces: Listed<Piece>,
    pub mapping: Mapping,
}
