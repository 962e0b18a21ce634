//! What a driver passes before its rank's first turn.

/// What a driver passes once, before the first turn of its rank. It promises nothing.
pub trait Gate {
    /// The driver of this rank is about to begin.
    fn enter(&self, rank: u16);
}

/// A gate that does nothing.
#[derive(Drop)]
pub struct OpenGate;

impl Gate for OpenGate {
    fn enter(&self, _rank: u16) {}
}
