//! The laws of rules and walks, each as the contract of a function without a body to speak of.

ghost use Rattle.samr_ops.specs.Laws.{GrownCellsAreNear, WalksStayNear, WalksEndInside, WalksStayInside, FixedValuesFit, RefinedValuesFit, UpdatedValuesFit, CoarsenedValuesFit, ClampMovesToTheNearest, ReflectMirrors, MaxIsTheGreatest};
ghost use Rattle.samr_ops.specs.Worked.{WalksOfRows};

/// The law that the cells of a domain grown by the width are near enough for a walk.
pub fn grown_cells_are_near()
    ensures { GrownCellsAreNear }
{}

/// The law that no step of a walk leads further beyond a border than the width.
pub fn walks_stay_near()
    ensures { WalksStayNear }
{}

/// The law that a walk ends inside all physical borders, where the width is at most the domain's
/// length.
pub fn walks_end_inside()
    ensures { WalksEndInside }
{}

/// The law that a cell inside all physical borders stays where it is.
pub fn walks_stay_inside()
    ensures { WalksStayInside }
{}

/// The law that a fixed value that a walk ends with is below the modulus.
pub fn fixed_values_fit()
    ensures { FixedValuesFit }
{}

/// The law that refined values are below the modulus.
pub fn refined_values_fit()
    ensures { RefinedValuesFit }
{}

/// The law that updated values are below the modulus.
pub fn updated_values_fit()
    ensures { UpdatedValuesFit }
{}

/// The law that coarsened values are below the modulus.
pub fn coarsened_values_fit()
    ensures { CoarsenedValuesFit }
{}

/// Where the walks of five cells end.
pub fn walks_of_rows()
    ensures { WalksOfRows }
{}

/// The law that a clamped cell goes to the nearest cell of its axis.
pub fn clamp_moves_to_the_nearest()
    ensures { ClampMovesToTheNearest }
{}

/// The law that a reflected cell goes to its mirror image in the border.
pub fn reflect_mirrors()
    ensures { ReflectMirrors }
{}

/// The law that `max` gives the greatest of the children.
pub fn max_is_the_greatest()
    ensures { MaxIsTheGreatest }
{}
