//! The cells of a box, and tag fields that have some of them.

ghost use Rattle.std.specs.Prelude.{◌≡◌, ◌++◌, ◌<◌, OnOk, IfOk};
ghost use Rattle.std.specs.List.{All, list_any};
ghost use Rattle.samr_box.specs.declared.vector.IVec.{IVec as Cell};
ghost use Rattle.samr_box.specs.declared.vector.Axis.TheVariants.{I, J, K};
ghost use Rattle.samr_box.specs.Corners.{IsBox, Holds, holds, span};
ghost use Rattle.samr_find.specs.Cells.{cell_at, row, plane, cells_in};
ghost use Rattle.samr_sign.specs.Fields.{tagged};
ghost use Rattle.samr_mesh_plain.specs.Making.{one_cell};

use samr_box::{Axis, IBox, IVec, contains};
use samr_sign::TagField;
use std::alloc::{AllocError as NoMemory, Global};

/// The cell so many planes above the lower corner of a box.
fn cell_at(b: IBox, x: u64, y: u64, z: u64) -> IVec
    requires x { x < span I b }
    requires y { y < span J b }
    requires z { z < span K b }
    ensures { result ≡ cell_at b x y z }
{
    b.lo.plus(IVec {
        k: z as i64,
        j: y as i64,
        i: x as i64,
    })
}

/// Adds the cells of a row.
#[tactic(auto, unfolding(samr_find::specs::Cells::row))]
fn push_row(out: &mut Vec<IVec>, b: IBox, y: u64, z: u64) -> Result<(), NoMemory>
    requires y { y < span J b }
    requires z { z < span K b }
    ensures { OnOk result (out.new.items ≡ out.old.items ++ row b y z) }
{
    for x in 0..b.length(Axis::I) {
        out.push(cell_at(b, x, y, z))?;
    }
    Ok(())
}

/// Adds the cells of a plane.
#[tactic(auto, unfolding(samr_find::specs::Cells::plane))]
fn push_plane(out: &mut Vec<IVec>, b: IBox, z: u64) -> Result<(), NoMemory>
    requires { z < span K b }
    ensures { OnOk result (out.new.items ≡ out.old.items ++ plane b z) }
{
    for y in 0..b.length(Axis::J) {
        push_row(out, b, y, z)?;
    }
    Ok(())
}

/// The cells of a box, `i` fastest, then `j`, then `k`.
#[tactic(auto, unfolding(samr_find::specs::Cells::cells_in))]
pub(crate) fn cells_in(alloc: Global, b: IBox) -> Result<Vec<IVec>, NoMemory>
    ensures value { IfOk result (λ v. v.items ≡ cells_in b) }
    ensures whole { IsBox b }
{
    let mut out = Vec::new(alloc);
    for z in 0..b.length(Axis::K) {
        push_plane(&mut out, b, z)?;
    }
    Ok(out)
}

/// A field of a box that has these cells of it.
pub(crate) fn field_of(alloc: Global, b: IBox, cells: &[IVec]) -> Result<TagField, NoMemory>
    requires { All (λ x. Holds b x) cells.now }
    ensures bx { IfOk result (λ f. f.bx ≡ b) }
    ensures cells { IfOk result (λ f. (y : Cell) → tagged f y ≡ list_any (λ x. holds (one_cell x) y) cells.now) }
{
    let mut field = TagField::new(alloc, b)?;
    for x in cells {
        field.set(*x);
    }
    Ok(field)
}

/// Whether a field has a cell.
pub(crate) fn has(field: &TagField, x: IVec) -> bool
    ensures { result ≡ tagged field.now x }
{
    if !contains(field.bx(), x) {
        return false;
    }
    field.get(x)
}
