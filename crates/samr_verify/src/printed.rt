//! The lines of a report that print a mesh.

use samr_box::Listed;
use samr_level::{BoxRef, Edge};

/// A `box` line: its number in the report, and its box.
#[derive(Clone, Copy, Drop)]
pub struct PrintedBox {
    pub line: u64,
    pub at: BoxRef,
}

/// An `edge` line: its number in the report, the level of the heads, and its edge.
#[derive(Clone, Copy, Drop)]
pub struct PrintedEdge {
    pub line: u64,
    pub to_level: u8,
    pub edge: Edge,
}

/// The lines of a level: where its `level` line stands, the numbers of boxes and of cells that it tells, the
/// boxes, the edges, and the number of the line behind the last of these.
#[derive(Drop)]
pub struct PrintedLevel {
    pub line: u64,
    pub boxes_told: u64,
    pub cells_told: u64,
    pub boxes: Listed<PrintedBox>,
    pub edges: Listed<PrintedEdge>,
    pub after: u64,
}

/// A mesh as a step of a report prints it: its levels, from level 0 up.
#[derive(Drop)]
pub struct PrintedMesh {
    pub levels: Listed<PrintedLevel>,
}
