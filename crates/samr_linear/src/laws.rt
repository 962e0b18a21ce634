//! The laws of linear refinement.

ghost use Rattle.samr_linear.specs.Laws.{OnlyRealAxesCount, LinearValuesFit, LinValsFit, TheLevelKeepsItsValues, ScratchGivesTheValue};
ghost use Rattle.samr_linear.specs.Scratches.{ScratchIsEnough};
ghost use Rattle.samr_linear.specs.Around.{AnswersAreTheRow};
ghost use Rattle.samr_linear.specs.OfHierarchies.{StageGivesLinVal, LinearFillingsHold};
ghost use Rattle.samr_linear.specs.Worked.{LinearNumbers, LinRow, rule_of_row};

/// The law that only the neighbours on real axes count.
pub fn only_real_axes_count()
    ensures { OnlyRealAxesCount }
{}

/// The law that each cell about a box of a level gets a value below the modulus, whatever stands in the level below.
pub fn linear_values_fit()
    ensures { LinearValuesFit }
{}

/// The law that over a hierarchy whose values are below the moduli, each cell about a box gets one below the modulus.
pub fn lin_vals_fit()
    ensures { LinValsFit }
{}

/// The law that what the stage gives for the first field of a hierarchy is its `lin_val`.
pub fn stage_gives_lin_val()
    ensures { StageGivesLinVal }
{}

/// The law that the stage can be run on each level of a hierarchy, where each level over level 0 has a ghost cell on each
/// real axis.
pub fn linear_fillings_hold()
    ensures { LinearFillingsHold }
{}

/// The law that the cells of the level keep their values.
pub fn the_level_keeps_its_values()
    ensures { TheLevelKeepsItsValues }
{}

/// The law that a scratch patch has all that linear refinement reads.
pub fn scratch_is_enough()
    ensures { ScratchIsEnough }
{}

/// The law that a cell of the domain that the level does not have gets its value from a scratch patch.
pub fn scratch_gives_the_value()
    ensures { ScratchGivesTheValue }
{}

/// The law that a coarse patch that has its values with its ghost cells gives the answers of the row.
pub fn answers_are_the_row()
    ensures { AnswersAreTheRow }
{}

/// The values of the four children of a cell along an axis.
pub fn a_row_of_values()
    ensures { LinRow rule_of_row }
{}

/// The sums of the ghost cells of three boxes on two levels.
pub fn linear_numbers()
    ensures { LinearNumbers }
{}
