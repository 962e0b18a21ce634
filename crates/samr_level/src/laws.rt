//! The laws of levels, each as the contract of a function without a body to speak of.

ghost use Rattle.samr_level.specs.Refined.{RefinedLevelsAreLevels, RefinedTwice, OverlapsAreRefined};

/// A level, refined, is a level of the finer domain, and has exactly the cells over its own. Refining twice is refining
/// by the product, and refining one of two levels refines the boxes in their overlaps and changes nothing else.
pub fn refined_levels_are_levels()
    ensures levels { RefinedLevelsAreLevels }
    ensures twice { RefinedTwice }
    ensures overlaps { OverlapsAreRefined }
{}
