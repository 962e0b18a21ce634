//! What holds of the text and of the ranks' rows, as functions whose contracts are the laws.

ghost use Rattle.samr_report.specs.Bounds.{RunsAreCountable};
ghost use Rattle.samr_report.specs.Merging.{BoxLinesMerge, EdgeLinesMerge, RowLinesMerge};
ghost use Rattle.samr_report.specs.Numbers.{NumbersOfTwoFields, NumbersOfTwoLevels, NumbersOfMoving};
ghost use Rattle.samr_report.specs.RankRows.{RowsGiveTheReport};
ghost use Rattle.samr_report.specs.Summaries.{RowsGiveTheSummary, RunsCanBeSummed};

/// Lines that each rank has for its own boxes of a level are together, in order of rank, those of the whole
/// level; so are the lines of its edges, and those of its schedule.
pub fn lines_merge()
    ensures boxes { BoxLinesMerge }
    ensures edges { EdgeLinesMerge }
    ensures rows { RowLinesMerge }
{}

/// What all ranks tell of a run gives the report of the run.
pub fn rows_give_the_report()
    ensures { RowsGiveTheReport }
{}

/// The boxes and cells of a run of an accepted problem can be counted.
pub fn runs_are_countable()
    ensures { RunsAreCountable }
{}

/// What all ranks tell of the last step of a run of an accepted problem gives the text of `load`, and its
/// numbers can be added up where the letters of the run can be.
pub fn rows_give_the_summary()
    ensures text { RowsGiveTheSummary }
    ensures numbers { RunsCanBeSummed }
{}

/// Numbers of three problems that were worked by hand: one with two fields, one of two levels on two ranks,
/// and one whose finer level moves.
pub fn numbers_by_hand()
    ensures two_fields { NumbersOfTwoFields }
    ensures two_levels { NumbersOfTwoLevels }
    ensures moving { NumbersOfMoving }
{}
