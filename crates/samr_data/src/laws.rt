//! The laws of patches, each as the contract of a function without a body to speak of.

ghost use Rattle.samr_data.specs.Laws.{HasItsValues, CopiesRegion, KeepsOthers, IsItsValues};

/// A patch made from a function has its value at each cell.
pub fn has_its_values()
    ensures { HasItsValues }
{}

/// After values were copied into a region, its cells have them.
pub fn copies_region()
    ensures { CopiesRegion }
{}

/// After values were copied into a region, all other cells have their old ones.
pub fn keeps_others()
    ensures { KeepsOthers }
{}

/// A patch is determined by the values of its cells.
pub fn is_its_values()
    ensures { IsItsValues }
{}
