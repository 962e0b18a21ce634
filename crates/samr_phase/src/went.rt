//! Where a rank is after a step.

/// Where a rank is after a step: on at a label of the phase, or over with what the phase gives.
///
/// Of the writer of a loop it says which of two parts comes: that of one more turn, or that of the
/// end; of a choice, which of two phases.
#[derive(Drop)]
pub enum Went<P, O> {
    On(P),
    Over(O),
}
