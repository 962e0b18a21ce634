//! The laws of new values and of merged ones.

ghost use Rattle.samr_values.specs.Laws.{NewValuesFit, MergedValuesFit, OthersKeepTheirs};
ghost use Rattle.samr_values.specs.Worked.{ValuesOfRows};

/// The law that the values of a new level are below the modulus of the field.
pub fn new_values_fit()
    ensures { NewValuesFit }
{}

/// The law that the values of cells under a finer level are.
pub fn merged_values_fit()
    ensures { MergedValuesFit }
{}

/// The law that coarsening leaves all other cells as they are.
pub fn others_keep_theirs()
    ensures { OthersKeepTheirs }
{}

/// The values of some cells of a new level, and of some under a finer one.
pub fn values_of_rows()
    ensures { ValuesOfRows }
{}
