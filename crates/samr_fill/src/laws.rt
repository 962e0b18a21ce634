//! The laws of the values of a filled level.

ghost use Rattle.samr_fill.specs.Laws.{CopiesAgree, TheLevelKeepsItsValues, ValuesFit};
ghost use Rattle.samr_fill.specs.Worked.{ValuesOfRows};

/// The law that the cells of an image of a box of the level have the values of the box.
pub fn copies_agree()
    ensures { CopiesAgree }
{}

/// The law that the cells of the level keep their values.
pub fn the_level_keeps_its_values()
    ensures { TheLevelKeepsItsValues }
{}

/// The law that the values of all cells about a box are below the modulus of the field.
pub fn values_fit()
    ensures { ValuesFit }
{}

/// The values of seven ghost cells: of the level, of the level below, beyond borders, and between parts.
pub fn values_of_rows()
    ensures { ValuesOfRows }
{}
