//! The laws of the balance: which hands stay as they are, and who tells whom at its end.

ghost use Rattle.samr_balance.specs.Laws.{HandsStayUp, HandsStayDown, LettersGoHome};

/// The law that a rank's hand stays as it is in each round that it does not visit, on the way up and on
/// the way down. It visits a round in which it has a letter to send or to wait for.
pub fn hands_stay()
    ensures up { HandsStayUp }
    ensures down { HandsStayDown }
{}

/// The law that a letter home goes to another rank exactly where a rank has a piece of a box of that
/// one.
pub fn letters_go_home()
    ensures { LettersGoHome }
{}
