//! The laws of the origins of ghost cells.

ghost use Rattle.samr_sched.specs.Laws.{EachHasOneOrigin, PlansTellOrigins};

/// The law that each ghost cell has one origin, where each in the domain has a cell to take its value from.
pub fn each_has_one_origin()
    ensures { EachHasOneOrigin }
{}

/// The law that of each ghost cell a plan tells its origins by the whole levels.
pub fn plans_tell_origins()
    ensures { PlansTellOrigins }
{}
