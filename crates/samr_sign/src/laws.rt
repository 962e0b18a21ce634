//! The laws of decisions, each as the contract of a function without a body to speak of.

ghost use Rattle.samr_sign.specs.Laws.{EachDecisionIsAFate, ShrinkingKeepsTags, ShrinkingStaysInside};

/// The law that a decision drops exactly the boxes without a tag, accepts the shrunk box, or cuts it
/// into two boxes that have together each of its cells once.
pub fn each_decision_is_a_fate()
    ensures { EachDecisionIsAFate }
{}

/// The law that the shrunk box of a signature has all tags of the box.
pub fn shrinking_keeps_tags()
    ensures { ShrinkingKeepsTags }
{}

/// The law that the shrunk box of a signature lies in its box.
pub fn shrinking_stays_inside()
    ensures { ShrinkingStaysInside }
{}
