//! Labels, and the names of letters.

/// One stage of a run: the time step, the pass over the levels, the phase, and the round of the
/// phase. Labels are ordered by these fields in turn, which is the order in which a rank visits
/// them.
#[derive(Clone, Copy, Debug, PartialEq, Eq, PartialOrd, Ord)]
pub struct Label {
    pub step: u32,
    pub pass: u8,
    pub phase: u8,
    pub round: u32,
}

/// The name of a letter: the label at which it is given out and awaited, the rank that gives it
/// out and the rank that awaits it. A run has at most one letter of a name. Names are ordered by
/// label, then sender, then addressee.
#[derive(Clone, Copy, Debug, PartialEq, Eq, PartialOrd, Ord)]
pub struct Name {
    pub label: Label,
    pub sender: u16,
    pub addressee: u16,
}
