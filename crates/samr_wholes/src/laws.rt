//! The laws of the wholes of stages, each as the contract of a function.

ghost use Rattle.samr_wholes.specs.Laws.{ClustersCanBeMade, BalanceCanBeMade, ModifyingCanBeMade, BridgesCanBeMade, BridgesGoDown};
ghost use Rattle.samr_wholes.specs.Passing.{TagsPassOn, CoversHaveRoom, ClustersCanBeCut, PairsPassOn, PairsAreRefined};

/// What a pass clusters can be clustered, and the clusters that the stages make are those of the pass.
pub fn clusterings()
    ensures { ClustersCanBeMade }
{}

/// What the cut of a pass leaves can be balanced and brought home, and each rank gets the pieces of the pass that it
/// owns.
pub fn balances()
    ensures { BalanceCanBeMade }
{}

/// The pieces of a pass take the places of its clusters by a modification.
pub fn modifications()
    ensures { ModifyingCanBeMade }
{}

/// The bridges of a pass can be made: from the new level to the old one of its number, to itself, to the new level above
/// it, and to the level two below it.
pub fn bridges()
    ensures pass { BridgesCanBeMade }
    ensures below { BridgesGoDown }
{}

/// The stages of a pass hand on what the next ones need: new boxes two levels above to the cover, tags to the clustering, overlaps with clusters to the cut and
/// the modification, and overlaps with the pieces, refined, to the bridges.
pub fn handing_on()
    ensures rooms { CoversHaveRoom }
    ensures tags { TagsPassOn }
    ensures edges { PairsPassOn }
    ensures cuts { ClustersCanBeCut }
    ensures pairs { PairsAreRefined }
{}
