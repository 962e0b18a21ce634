//! The laws of clusters and rounds, each as the contract of a function without a body to speak of.

ghost use Rattle.samr_rounds.specs.Laws.{ClustersCoverTags, ClustersStayApart, ClustersHaveTags, CutsEnd, RoundsTakeTheClusters, RoundsEnd, OpenNodesAreNodes, RootsAreDirected};
ghost use Rattle.samr_rounds.specs.Ranks.{NearGoesDown, TheNearAreTold, NearClustersAreTold, NearWhereTagged, TheFarHaveNone, OwnCountsAddUp, NearSignaturesAddUp, CountsStayWhenShrunk, OwnersHaveMost, NearCountsTellTheOwner, TheLevelHasTheClusters, ClustersMakeALevel};
ghost use Rattle.samr_rounds.specs.Roots.{BlocksAreRoots};

/// The law that each tag of a root lies in a cluster.
pub fn clusters_cover_tags()
    ensures { ClustersCoverTags }
{}

/// The law that a cell lies in at most as many clusters as roots.
pub fn clusters_stay_apart()
    ensures { ClustersStayApart }
{}

/// The law that each cluster is a box and has a tag.
pub fn clusters_have_tags()
    ensures { ClustersHaveTags }
{}

/// The law that a box is cut at most as often as its depth says.
pub fn cuts_end()
    ensures { CutsEnd }
{}

/// The law that the rounds accept the clusters, and no other boxes.
pub fn rounds_take_the_clusters()
    ensures { RoundsTakeTheClusters }
{}

/// The law that nothing is open in the round of the greatest depth of a root.
pub fn rounds_end()
    ensures { RoundsEnd }
{}

/// The law that the open nodes are boxes, where the roots are.
pub fn open_nodes_are_nodes()
    ensures { OpenNodesAreNodes }
{}

/// The law that each root is directed by one of the ranks.
pub fn roots_are_directed()
    ensures { RootsAreDirected }
{}

/// The law that who is near a part of a node, or near the box accepted of it, is near the node.
pub fn near_goes_down()
    ensures { NearGoesDown }
{}

/// The law that a rank that is told the parts of its near nodes alone is told all its near nodes.
pub fn the_near_are_told()
    ensures { TheNearAreTold }
{}

/// The law that such a rank is told each cluster that it is near, and no box that is no cluster.
pub fn near_clusters_are_told()
    ensures { NearClustersAreTold }
{}

/// The law that a rank with a tag in a node is near it.
pub fn near_where_tagged()
    ensures { NearWhereTagged }
{}

/// The law that a rank that is not near a node has no tag in it.
pub fn the_far_have_none()
    ensures { TheFarHaveNone }
{}

/// The law that the counts of all ranks add up to those of all tags.
pub fn own_counts_add_up()
    ensures { OwnCountsAddUp }
{}

/// The law that the signatures of the near ranks add up to that of all tags.
pub fn near_signatures_add_up()
    ensures { NearSignaturesAddUp }
{}

/// The law that a rank has as many tags in the shrunk box of a node as in the node.
pub fn counts_stay_when_shrunk()
    ensures { CountsStayWhenShrunk }
{}

/// The law that no rank has more tags in a box than its owner, and that those before it have fewer.
pub fn owners_have_most()
    ensures { OwnersHaveMost }
{}

/// The law that what the near ranks count in a node tells the owner of the box accepted of it.
pub fn near_counts_tell_the_owner()
    ensures { NearCountsTellTheOwner }
{}

/// The law that the level of the clusters has each cluster with its owner, and no other box.
pub fn the_level_has_the_clusters()
    ensures { TheLevelHasTheClusters }
{}

/// The law that it is a level, where the roots are disjoint and lie in the domain.
pub fn clusters_make_a_level()
    ensures { ClustersMakeALevel }
{}

/// The blocks of a box have its cells, each once, and their cells can be counted.
pub fn blocks_are_roots()
    ensures { BlocksAreRoots }
{}
