//! A line of a report, by what it tells.

use samr_box::{IVec, Shift};
use samr_level::{BoxRef, Edge};

/// A line of a schedule as a report prints it: how many ghost cells of a box have one origin, which is a box of
/// its level, a box of the level below, or the boundary.
#[derive(Clone, Copy, Drop)]
pub(crate) enum PrintedRow {
    FromLevel {
        field: u64,
        base: BoxRef,
        head: BoxRef,
        shift: Shift,
        cells: u64,
    },
    FromBelow {
        field: u64,
        base: BoxRef,
        head: BoxRef,
        shift: Shift,
        cells: u64,
    },
    FromOutside {
        field: u64,
        base: BoxRef,
        cells: u64,
    },
}

/// A line of a report.
#[derive(Clone, Copy, Drop)]
pub(crate) enum Line {
    /// The first line: the numbers of ranks and of levels, and the width of the connectors.
    First {
        ranks: u64,
        levels: u64,
        width: IVec,
    },
    /// The beginning of a step.
    Step {
        step: u64,
    },
    /// The beginning of a level: its number, and the numbers of its boxes and of their cells.
    LevelOf {
        level: u64,
        boxes: u64,
        cells: u64,
    },
    /// A box of a level.
    BoxOf {
        level: u64,
        at: BoxRef,
    },
    /// An edge of a level to a level.
    EdgeOf {
        level: u8,
        to_level: u8,
        edge: Edge,
    },
    /// A line of a level's schedule.
    RowOf {
        level: u64,
        origin: PrintedRow,
    },
    /// The sum of a field over a box of a level.
    SumOf {
        field: u64,
        level: u64,
        base: BoxRef,
        sum: u64,
    },
    /// The value of a field at a probe, where a level has its cell.
    ProbeOf {
        field: u64,
        probe: u64,
        value: Option<u64>,
    },
    /// The last line.
    End,
}
