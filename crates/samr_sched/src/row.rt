//! A row of a schedule: how many ghost cells of a box have one origin.

use samr_box::Shift;
use samr_level::BoxRef;

/// How many ghost cells of a box have one origin: a box of its level, a box of the level below, or the boundary.
#[derive(Clone, Copy, Debug, PartialEq, Eq)]
pub enum Row {
    Copy {
        field: u8,
        base: BoxRef,
        head: BoxRef,
        shift: Shift,
        cells: u64,
    },
    Coarse {
        field: u8,
        base: BoxRef,
        head: BoxRef,
        shift: Shift,
        cells: u64,
    },
    Outside {
        field: u8,
        base: BoxRef,
        cells: u64,
    },
}
