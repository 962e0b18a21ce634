//! The laws of the mesh, each as the contract of a function: of levels and their boxes, of a problem, of one pass, of
//! whole meshes, and rows worked out by computation.

ghost use Rattle.samr_mesh.specs.PassLists.{RegridsArePasses, FirstRegridIsPasses, PassesOfStepsRun, PassesMakeTheMesh, CellsTellLevels, RunsGoOn};
ghost use Rattle.samr_mesh.specs.Grounds.{ProblemsHaveDomains, ProblemsCanPass, ProblemsHaveLevel0};
ghost use Rattle.samr_mesh.specs.Independence.{CellsStayTheSame, RanksDoNotMatter};
ghost use Rattle.samr_mesh.specs.Rows.{LevelsGoWithTheirShape, TwoRanksShareALevel, CoverKeepsTheFinest, OverParts, Drifting};
ghost use Rattle.samr_mesh.specs.Sources.{GhostsFit, GhostsLieOver, Level0HasAll};
ghost use Rattle.samr_mesh.specs.Stages.{TagsCanBeMade, CoversCanBeMade, LevelsHaveFewCells, RulesAreOne};
ghost use Rattle.samr_mesh.specs.Soundness.{PassesAreSound, TagsAreRefined, CoversKeepNesting, NoLevelIsLost, MeshesHaveLevels, MeshesStayMeshes, FreshMeshesAreMeshes, RegridsLieOver, NoHoles};

/// Each level that an accepted problem may have has a domain; a pass can be made over each but the finest; level 0 can
/// be cut into blocks. A level has at most 4,194,304 cells, and there is one cut rule with the problem's numbers.
pub fn problems_have_domains()
    ensures domains { ProblemsHaveDomains }
    ensures passes { ProblemsCanPass }
    ensures level0 { ProblemsHaveLevel0 }
    ensures cells { LevelsHaveFewCells }
    ensures rules { RulesAreOne }
{}

/// The ghost widths of a problem reach no further than its levels nest; each ghost cell inside the domain lies over a
/// cell of the level below; level 0 has all cells of its domain.
pub fn ghosts_have_sources()
    ensures widths { GhostsFit }
    ensures over { GhostsLieOver }
    ensures level0 { Level0HasAll }
{}

/// The clusters of a pass cover the tags. Its new level is a level, made of refined boxes, with exactly the cells over
/// those of the clusters that are deep in the tag level; so it has the cells over each tag that is. What the stages of
/// the tags need is there.
pub fn passes_are_sound()
    ensures passes { PassesAreSound }
    ensures tags { TagsAreRefined }
    ensures tagging { TagsCanBeMade }
    ensures covering { CoversCanBeMade }
{}

/// The new level two above a level nests in the new level that is made over it, which has a box where that one has.
pub fn covers_keep_nesting()
    ensures nested { CoversKeepNesting }
    ensures kept { NoLevelIsLost }
{}

/// Each level of a mesh is a level of its domain. From any mesh all later ones are meshes, and those of a fresh run
/// are; no level is missing between the levels that a regrid makes.
pub fn meshes_are_sound()
    ensures levels { MeshesHaveLevels }
    ensures later { MeshesStayMeshes }
    ensures fresh { FreshMeshesAreMeshes }
    ensures no_holes { NoHoles }
{}

/// A regrid leaves level 0 as it is, and each new level lies over the old level below it.
pub fn regrids_lie_over()
    ensures { RegridsLieOver }
{}

/// The cells of all levels are the same on any number of ranks: of a fresh run, and of any two meshes that had the same
/// cells before.
pub fn ranks_do_not_matter()
    ensures later { CellsStayTheSame }
    ensures fresh { RanksDoNotMatter }
{}

/// A regrid is its passes, of which each can run; the new level two above that a pass has is what the pass before it
/// has made. What the passes of a step make is, with level 0, its mesh. There is a new level where the cut leaves cells,
/// and a run goes on from any of its steps.
pub fn regrids_are_passes()
    ensures later { RegridsArePasses }
    ensures first { FirstRegridIsPasses }
    ensures steps { PassesOfStepsRun }
    ensures made { PassesMakeTheMesh }
    ensures cells { CellsTellLevels }
    ensures runs { RunsGoOn }
{}

/// Meshes worked out: of up to three levels, on up to three ranks, in parts and round a periodic border.
pub fn worked_rows()
    ensures leaving { LevelsGoWithTheirShape }
    ensures shared { TwoRanksShareALevel }
    ensures moving { CoverKeepsTheFinest }
    ensures over_parts { OverParts }
    ensures drifting { Drifting }
{}
