//! Whether a `level` line tells the right numbers of boxes and cells.

ghost use Rattle.std.specs.Prelude.{◌≡◌, ◌==◌, ◌<◌, ◌^◌, sum_by};
ghost use Rattle.samr_box.specs.Corners.{cells_of};
ghost use Rattle.samr_verify.specs.MeshFaults.{tells, has_counts};
ghost use Rattle.samr_verify.specs.Printed.{boxes_in};

use crate::PrintedLevel;
use samr_box::{Axis, IBox};
use samr_level::BoxRef;

/// The number of cells of a box.
fn cells_of(b: IBox) -> u128
    ensures value { result ≡ cells_of b }
    ensures small { result < 2 ^ 96 }
{
    let i = u128::from(b.length(Axis::I));
    let j = u128::from(b.length(Axis::J));
    let k = u128::from(b.length(Axis::K));
    i * j * k
}

/// Whether a number is that of all cells of some boxes.
fn are_cells(told: u64, boxes: &[BoxRef]) -> bool
    ensures { result ≡ (told == sum_by (λ b. cells_of b.bx) boxes.now) }
{
    let mut rest = u128::from(told);
    for b in boxes {
        let cells = cells_of(b.bx);
        if rest < cells {
            return false;
        }
        rest -= cells;
    }
    rest == 0
}

/// Whether a level's line tells the number of some boxes and of their cells.
fn tells(level: &PrintedLevel, boxes: &[BoxRef]) -> bool
    ensures { result ≡ tells level.now boxes.now }
{
    if level.boxes_told != boxes.len() as u64 {
        return false;
    }
    are_cells(level.cells_told, boxes)
}

/// Whether it tells the counts of the level's boxes, and on level 0 those of level 0's.
pub(crate) fn has_counts(
    number: u64,
    base: &[BoxRef],
    level: &PrintedLevel,
    boxes: &[BoxRef],
) -> bool
    requires { boxes.now ≡ boxes_in level.now }
    ensures { result ≡ has_counts number base.now level.now }
{
    if !tells(level, boxes) {
        return false;
    }
    if number > 0 {
        return true;
    }
    tells(level, base)
}
