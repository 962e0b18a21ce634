//! The laws of wrapping, each as the contract of a function without a body to speak of.

ghost use Rattle.samr_border.specs.Laws.{TurnsLeadHome, OneImageHasACell, ImagesHaveWrappedCells, WrappingTwiceIsOnce, CellsOfTheFrameStay, NeighboursAreNear, WrapsOfLevelsAgree};

/// The law that a cell near the frame, less its turns, is the cell to which it wraps.
pub fn turns_lead_home()
    ensures { TurnsLeadHome }
{}

/// The law that an image of a box has a cell exactly where the box has the wrapped cell and the
/// image lies by the cell's turns.
pub fn one_image_has_a_cell()
    ensures { OneImageHasACell }
{}

/// The law that an image of a box of a list has a cell exactly where a box of the list has the
/// wrapped cell.
pub fn images_have_wrapped_cells()
    ensures { ImagesHaveWrappedCells }
{}

/// The law that wrapping twice is wrapping once.
pub fn wrapping_twice_is_once()
    ensures { WrappingTwiceIsOnce }
{}

/// The law that a cell of the frame wraps to itself.
pub fn cells_of_the_frame_stay()
    ensures { CellsOfTheFrameStay }
{}

/// The law that the cells within at most a length of a cell of the frame are near the frame.
pub fn neighbours_are_near()
    ensures { NeighboursAreNear }
{}

/// The law that a cell wraps on a finer level as the cell in which it lies does on the coarser one.
pub fn wraps_of_levels_agree()
    ensures { WrapsOfLevelsAgree }
{}
