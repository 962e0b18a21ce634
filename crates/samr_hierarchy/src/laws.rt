//! The laws of hierarchies, each as the contract of a function: what levels rest on, what holds of one step, of all
//! steps, of a rank's part, and of every accepted problem.

ghost use Rattle.samr_hierarchy.specs.Grounds.{ProblemsHaveGround};
ghost use Rattle.samr_hierarchy.specs.Laws.{SchedulesHold, EachCellHasOneOrigin, FillsHold, RenewalsHold, CoarseningsHold, FirstRenewalsHold, FirstValuesFit, StepsFit, EachStepIsSound};
ghost use Rattle.samr_hierarchy.specs.Parts.{PatchesHaveValues, NewPatches, FirstNewPatches, CoarsePatches, CoarsenRounds, OthersKeepTheirPatches, Level0KeepsItsPatches};
ghost use Rattle.samr_hierarchy.specs.Beginnings.{AsksBegin, FillsBegin, RenewalsBegin, FirstRenewalsBegin, CoarseningsBegin};
ghost use Rattle.samr_hierarchy.specs.Updates.{FilledCanBeUpdated, UpdatesPatches};
ghost use Rattle.samr_hierarchy.specs.Agreements.{StepsAgree, HierarchiesAgree};
ghost use Rattle.samr_hierarchy.specs.Sources.{ValuesComeFromSources};
ghost use Rattle.samr_hierarchy.specs.OfProblems.{ProblemsHaveMeshes, HierarchiesAreSound, EachGhostCellOnce, RanksDoNotMatterToValues};
ghost use Rattle.samr_hierarchy.specs.Sound.{ProblemsAreSound};

/// An accepted problem gives what its levels rest on: domains, ratios and widths in range, room for ghost cells, and
/// fields whose rules are in range and whose ghost cells lie within the nest width.
pub fn problems_have_ground()
    ensures { ProblemsHaveGround }
{}

/// The schedule of each level of a mesh can be made, and each of its ghost cells inside the borders has a cell to take
/// its value from.
pub fn schedules_hold()
    ensures { SchedulesHold }
{}

/// Each ghost cell of each box of a mesh has exactly one origin: beyond the borders, a box of its level, or a box of the
/// level below.
pub fn each_cell_has_one_origin()
    ensures { EachCellHasOneOrigin }
{}

/// A fill gives each cell that has a source the value of this.
pub fn values_come_from_sources()
    ensures { ValuesComeFromSources }
{}

/// Each level of a mesh whose values are below the moduli can be filled.
pub fn fills_hold()
    ensures { FillsHold }
{}

/// The values of each level that a regrid made can be taken from the old levels.
pub fn renewals_hold()
    ensures { RenewalsHold }
{}

/// At step 0 the values of each level over level 0 can be taken from the level below it.
pub fn first_renewals_hold()
    ensures { FirstRenewalsHold }
{}

/// Each level under a finer one can be coarsened.
pub fn coarsenings_hold()
    ensures { CoarseningsHold }
{}

/// The values of step 0 are below the moduli.
pub fn first_values_fit()
    ensures { FirstValuesFit }
{}

/// Where the values of a hierarchy are below the moduli, so are those after a step, and those that the step fills.
pub fn steps_fit()
    ensures { StepsFit }
{}

/// After each step the hierarchy has the mesh of this step, and its values are below the moduli.
pub fn each_step_is_sound()
    ensures { EachStepIsSound }
{}

/// Two hierarchies with the same cells and values have the same values after a step, whoever owns the boxes and however
/// the cells are cut into them.
pub fn steps_agree()
    ensures { StepsAgree }
{}

/// So it is after all steps, where the meshes of each step have the same cells.
pub fn hierarchies_agree()
    ensures { HierarchiesAgree }
{}

/// A rank's patches have the values of its boxes.
pub fn patches_have_values()
    ensures { PatchesHaveValues }
{}

/// A rank that asks for the schedule of a level has what asking begins with.
pub fn asks_begin()
    ensures { AsksBegin }
{}

/// A rank that fills a level has what a fill begins with.
pub fn fills_begin()
    ensures { FillsBegin }
{}

/// A rank that takes the values of a new level has what this begins with.
pub fn renewals_begin()
    ensures { RenewalsBegin }
{}

/// So it has at step 0, where there are no old levels.
pub fn first_renewals_begin()
    ensures { FirstRenewalsBegin }
{}

/// A rank that coarsens a level has what coarsening begins with.
pub fn coarsenings_begin()
    ensures { CoarseningsBegin }
{}

/// A rank's new patches of a level that a regrid made are its patches in the hierarchy after the regrid.
pub fn new_patches()
    ensures { NewPatches }
{}

/// So they are at step 0.
pub fn first_new_patches()
    ensures { FirstNewPatches }
{}

/// A regrid leaves a rank's patches of level 0 as they are.
pub fn level_0_keeps_its_patches()
    ensures { Level0KeepsItsPatches }
{}

/// What a fill gives can be updated: the values that count lie in the patches and are below the moduli.
pub fn filled_can_be_updated()
    ensures { FilledCanBeUpdated }
{}

/// What a fill gives, updated, are a rank's patches in the hierarchy after the update.
pub fn updates_patches()
    ensures { UpdatesPatches }
{}

/// A rank's coarsened patches of a level are its patches in the hierarchy with this level coarsened.
pub fn coarse_patches()
    ensures { CoarsePatches }
{}

/// So it is round by round, from the second finest level down.
pub fn coarsen_rounds()
    ensures { CoarsenRounds }
{}

/// Each round leaves a rank's patches of all other levels as they are.
pub fn others_keep_their_patches()
    ensures { OthersKeepTheirPatches }
{}

/// The meshes of an accepted problem are what values rest on: each is a mesh, a regrid makes levels over the old ones,
/// and where none is due the mesh stays.
pub fn problems_have_meshes()
    ensures { ProblemsHaveMeshes }
{}

/// The hierarchy of an accepted problem after each step has the mesh of this step, and values below the moduli.
pub fn hierarchies_are_sound()
    ensures { HierarchiesAreSound }
{}

/// Each ghost cell of each field of it has exactly one origin, and its source is there.
pub fn each_ghost_cell_once()
    ensures { EachGhostCellOnce }
{}

/// Its cells and values are the same on any number of ranks.
pub fn ranks_do_not_matter_to_values()
    ensures { RanksDoNotMatterToValues }
{}

/// Every accepted problem is sound on any number of ranks. After every step each level is one of its domain, and is
/// nested in the next coarser one; in every clustering of the step the clusters contain the tags, and the level made
/// there contains the refinement of each tag whose surroundings within the nest width lie in the tag level; every ghost
/// cell has exactly one origin and its source; and levels, cells and values are those of one rank.
pub fn soundness()
    ensures { ProblemsAreSound }
{}
