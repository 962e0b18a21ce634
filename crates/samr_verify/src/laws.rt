//! What holds of a mesh without fault, as functions whose contracts are the laws.

ghost use Rattle.samr_verify.specs.Soundness.{NoFaultIsSound, FirstIsFirst};
ghost use Rattle.samr_verify.specs.Worked.{WorkedFaults};

/// The law that a printed mesh without fault is a mesh of the problem, and that its edges are the true overlaps
/// of its levels.
pub fn no_fault_is_sound()
    ensures { NoFaultIsSound }
{}

/// The law that the first of some faults is the one with the least line, and of these with the least
/// kind.
pub fn first_is_first()
    ensures { FirstIsFirst }
{}

/// The faults of the meshes of two small problems, worked by hand.
pub fn worked_rows()
    ensures { WorkedFaults }
{}
