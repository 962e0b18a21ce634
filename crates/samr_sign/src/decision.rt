//! What becomes of a box.

use samr_box::IBox;

/// What becomes of a box.
#[derive(Clone, Copy, Debug, PartialEq, Eq)]
pub enum Decision {
    /// It has no tag.
    Drop,
    /// This box, in which all its tags lie, is taken.
    Accept(IBox),
    /// It goes on as these two parts, in which all its tags lie.
    Split(IBox, IBox),
}
