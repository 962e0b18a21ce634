//! The steps that a world can take.

/// One small step of a world.
///
/// Places count the letters in flight from 0, in the order in which they came there. The last
/// three events may happen where there is a letter at the place.
#[derive(Clone, Copy, Debug, PartialEq, Eq)]
pub enum Event {
    /// The machine of this rank takes a turn with no letter and with room for one that it gives
    /// out. It may happen where there is such a rank, it has not finished, and the turn would not
    /// be idle.
    Turn(u16),
    /// The letter at this place goes to its addressee.
    Deliver(u64),
    /// The letter at this place comes once more, last in flight.
    Repeat(u64),
    /// The letter at this place is lost.
    Lose(u64),
}
