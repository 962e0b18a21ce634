//! The laws of the rounds: who is told of what.

ghost use Rattle.samr_cluster.specs.Laws.{RoundsTellTheAccepted, TheAskedWereTold};

/// The law that a rank is told in some round of each accepted box whose node it is near, and of no
/// other box: so what all rounds have told it is what the overlaps are found from.
pub fn rounds_tell_the_accepted()
    ensures { RoundsTellTheAccepted }
{}

/// The law that the ranks that a director keeps with a node are those that were told it, so that it
/// knows whose reports to wait for.
pub fn the_asked_were_told()
    ensures { TheAskedWereTold }
{}
