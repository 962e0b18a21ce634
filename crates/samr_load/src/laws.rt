//! The laws of the balance, each as the contract of a function without a body to speak of.

ghost use Rattle.samr_load.specs.Laws.{CellsAreKept, LevelIsKept, TakesFallShort, LoadsAreBounded, QuotasAddUp};
ghost use Rattle.samr_load.specs.LevelLaws.{LevelsStayLevels};

/// The law that a balance keeps all cells: each cell lies in as many pieces as boxes, each piece is a
/// part of its origin, and the pieces of one box have its cells.
pub fn cells_are_kept()
    ensures pieces { CellsAreKept }
    ensures level { LevelIsKept }
{}

/// The law that a balanced level is a level, of which each rank has its pieces.
pub fn levels_stay_levels()
    ensures { LevelsStayLevels }
{}

/// The law that a rank ends with at most three grains more than its quota, a grain being twice the
/// cells of `smallest` planes of the widest box. One take falls short by less than a grain.
pub fn loads_are_bounded()
    ensures takes { TakesFallShort }
    ensures ranks { LoadsAreBounded }
{}

/// The law that the quotas of all ranks are all cells.
pub fn quotas_add_up()
    ensures { QuotasAddUp }
{}
