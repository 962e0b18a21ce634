//! What a turn of a machine answers.

/// What a machine did in one turn.
#[derive(Debug, Drop)]
pub enum Turn<M> {
    /// It took the letter that it was given.
    Took,
    /// It gives this letter out.
    Posted(M),
    /// It finished its label and entered the next one.
    Advanced,
    /// It has left all its labels.
    Finished,
    /// It could do nothing.
    Idle,
}
