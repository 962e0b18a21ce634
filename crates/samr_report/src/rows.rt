//! What the ranks tell of a run, each of its own boxes.

use samr_box::Listed;
use samr_level::{BoxRef, Edge};
use samr_sched::Row;

/// What a rank tells of its boxes of a level: the boxes, their edges to the level, to the level below and
/// to the level above, and the rows of their schedule.
#[derive(Drop)]
pub struct LevelRows {
    pub boxes: Listed<BoxRef>,
    pub selves: Listed<Edge>,
    pub downs: Listed<Edge>,
    pub ups: Listed<Edge>,
    pub rows: Listed<Row>,
}

/// The sum of the values of a box, not reduced.
#[derive(Clone, Copy, Drop)]
pub struct BoxSum {
    pub base: BoxRef,
    pub sum: u64,
}

/// What a rank tells of a step: how many levels there are, its rows of each where the mesh is told, by field
/// and level the sums of its boxes, and by field what stands at each probe whose cell it owns.
#[derive(Drop)]
pub struct StepRows {
    pub levels: u8,
    pub mesh: Listed<LevelRows>,
    pub sums: Listed<Listed<Listed<BoxSum>>>,
    pub probes: Listed<Listed<Option<u32>>>,
}

/// What a rank tells of a whole run: of each step from 0 on, and how many letters it sent.
#[derive(Drop)]
pub struct RankRows {
    pub steps: Listed<StepRows>,
    pub letters: u64,
}
