//! Where a cell stands in the row order of a box.

ghost use Rattle.std.specs.Prelude.{◌≡◌, ◌<◌, ◌^◌, pos};
ghost use Rattle.samr_box.specs.declared.vector.Axis.TheVariants.{I, J, K};
ghost use Rattle.samr_box.specs.Vector.{plus};
ghost use Rattle.samr_box.specs.Corners.{Holds, span, cells_of};
ghost use Rattle.samr_data.specs.Places.{offset, place_at, place, cell_at, slice};

use samr_box::{Axis, IBox, IVec};

/// Column `i` of row `j` of plane `k`, where a plane has so many rows and a row so many columns.
fn place_at(k: usize, j: usize, i: usize, rows: usize, columns: usize) -> usize
    requires some { 0 < columns }
    requires few { place_at k j i rows columns < 2 ^ 63 }
    ensures { result ≡ place_at k j i rows columns }
{
    (k * rows + j) * columns + i
}

/// The distance of a cell from the lowest plane of a box.
fn offset(bx: IBox, axis: Axis, x: IVec) -> usize
    ensures { result ≡ offset axis bx x }
{
    x.at(axis).abs_diff(bx.lo.at(axis)) as usize
}

/// The place of a cell in the row order of a box.
#[tactic(auto, unfolding(crate::specs::Places::place))]
pub fn place(bx: IBox, x: IVec) -> usize
    requires inside { Holds bx x }
    requires few { cells_of bx < 2 ^ 62 }
    ensures value { result ≡ place bx x }
    ensures below { result < cells_of bx }
{
    let k = offset(bx, Axis::K, x);
    let j = offset(bx, Axis::J, x);
    let i = offset(bx, Axis::I, x);
    place_at(
        k,
        j,
        i,
        bx.length(Axis::J) as usize,
        bx.length(Axis::I) as usize,
    )
}

/// The cell so many columns, rows and planes above the lower corner of a box.
fn cell_above(bx: IBox, column: u64, row: u64, plane: u64) -> IVec
    requires column { column < span I bx }
    requires row { row < span J bx }
    requires plane { plane < span K bx }
    ensures { result ≡ plus bx.lo (record { k = pos plane; j = pos row; i = pos column }) }
{
    bx.lo.plus(IVec {
        k: plane as i64,
        j: row as i64,
        i: column as i64,
    })
}

/// The cell at a place in the row order of a box.
#[tactic(auto, unfolding(crate::specs::Places::cell_at))]
pub fn cell_at(bx: IBox, n: u64) -> IVec
    requires { n < cells_of bx }
    ensures value { result ≡ cell_at bx n }
    ensures inside { Holds bx result }
{
    let columns = bx.length(Axis::I);
    let rows = bx.length(Axis::J);
    let row = n / columns;
    cell_above(bx, n % columns, row % rows, row / rows)
}

/// The plane of a box that lies so many planes above its lowest.
pub fn slice(b: IBox, axis: Axis, place: u64) -> IBox
    requires { place < span axis b }
    ensures { result ≡ slice axis b place }
{
    let lo = b.lo.ahead(axis, place);
    IBox {
        lo,
        hi: b.hi.put(axis, lo.at(axis)),
    }
}
