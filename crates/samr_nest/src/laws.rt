//! The laws of the nest cut, each as the contract of a function without a body to speak of.

ghost use Rattle.samr_nest.specs.Worked.{AtBothEnds, OverTwoParts};
ghost use Rattle.samr_nest.specs.Laws.{StartsInTheFrame, StartsInParts, EdgesOfOneCluster, SmallFramesLeaveRoom};
ghost use Rattle.samr_nest.specs.CutLevels.{CutsMakeALevel};

/// The law that in a domain without parts the cut begins with the grown cluster, clipped to the frame
/// on physical axes, and with the cluster itself.
pub fn starts_in_the_frame()
    ensures { StartsInTheFrame }
{}

/// The law that in a domain of parts without periodic axes the cut begins with what the grown cluster
/// and the cluster have in common with each part, in the order of the parts.
pub fn starts_in_parts()
    ensures { StartsInParts }
{}

/// The law that of a rank's connector from clusters to a level the edges that begin at a cluster are
/// all edges of that cluster, in edge order.
pub fn edges_of_one_cluster()
    ensures { EdgesOfOneCluster }
{}

/// The law that in a frame of at most 2^29 cells on each axis a cluster, grown by a nest width, is a
/// box.
pub fn small_frames_leave_room()
    ensures { SmallFramesLeaveRoom }
{}

/// Two worked rows of the definition: a level at both ends of a periodic frame, and a cluster over two
/// parts of a domain.
pub fn worked_rows()
    ensures at_both_ends { AtBothEnds }
    ensures over_two_parts { OverTwoParts }
{}

/// What the nest cut leaves of a level of clusters is a level, and has exactly those of their cells about which all
/// cells of the domain within the nest width lie in the tag level.
pub fn cuts_make_a_level()
    ensures { CutsMakeALevel }
{}
