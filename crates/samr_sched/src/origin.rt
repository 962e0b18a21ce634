//! The origin of a ghost cell.

use samr_box::Shift;
use samr_level::BoxRef;

/// Where a ghost cell gets its value: from beyond the borders, from a box of its level, or from a box of the
/// level below, each in its image by a shift.
#[derive(Clone, Copy, Debug, PartialEq, Eq)]
pub enum Origin {
    Outside,
    Copy(BoxRef, Shift),
    Coarse(BoxRef, Shift),
}
