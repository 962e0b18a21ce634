//! The cells of a box as a list.

ghost use Rattle.std.specs.Prelude.{◌≡◌, ◌++◌, OnOk, IfOk, ◌<◌};
ghost use Rattle.samr_box.specs.Corners.{IsBox, span};
ghost use Rattle.samr_box.specs.declared.vector.Axis.TheVariants.{I, J, K};
ghost use Rattle.samr_find.specs.Cells.{cell_at, row, plane, cells_in};

use samr_box::{Axis, IBox, IVec};
use std::alloc::{AllocError as NoMemory, Global};

/// The cell so many planes above the lower corner of a box.
fn cell_at(b: IBox, x: u64, y: u64, z: u64) -> IVec
    requires x { x < span I b }
    requires y { y < span J b }
    requires z { z < span K b }
    ensures { result ≡ cell_at b x y z }
{
    b.lo.plus(IVec {
        k: z as i64,
        j: y as i64,
        i: x as i64,
    })
}

#[tactic(auto, unfolding(crate::specs::Cells::row))]
fn push_row(out: &mut Vec<IVec>, b: IBox, y: u64, z: u64) -> Result<(), NoMemory>
    requires y { y < span J b }
    requires z { z < span K b }
    ensures { OnOk result (out.new.items ≡ out.old.items ++ row b y z) }
{
    for x in 0..b.length(Axis::I) {
        out.push(cell_at(b, x, y, z))?;
    }
    Ok(())
}

#[tactic(auto, unfolding(crate::specs::Cells::plane))]
fn push_plane(out: &mut Vec<IVec>, b: IBox, z: u64) -> Result<(), NoMemory>
    requires { z < span K b }
    ensures { OnOk result (out.new.items ≡ out.old.items ++ plane b z) }
{
    for y in 0..b.length(Axis::J) {
        push_row(out, b, y, z)?;
    }
    Ok(())
}

/// The cells of a box, `i` fastest, then `j`, then `k`.
#[tactic(auto, unfolding(crate::specs::Cells::cells_in))]
pub fn cells_in(alloc: Global, b: IBox) -> Result<Vec<IVec>, NoMemory>
    ensures value { IfOk result (λ v. v.items ≡ cells_in b) }
    ensures whole { IsBox b }
{
    let mut out = Vec::new(alloc);
    for z in 0..b.length(Axis::K) {
        push_plane(&mut out, b, z)?;
    }
    Ok(out)
}
