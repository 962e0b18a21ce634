//! The cells of a box that a shape tags.

ghost use Rattle.std.specs.Prelude.{◌≡◌, ◌++◌, ◌<◌, [], ◌∷◌, cond, OnOk, IfOk, filter};
ghost use Rattle.samr_box.specs.declared.vector.IVec.{IVec as Cell};
ghost use Rattle.samr_box.specs.declared.vector.Axis.TheVariants.{I, J, K};
ghost use Rattle.samr_box.specs.Corners.{Holds, span};
ghost use Rattle.samr_find.specs.Cells.{cell_at, row, plane, cells_in};

use crate::given::Given;
use samr_box::{Axis, IBox, IVec};
use std::alloc::{AllocError as NoMemory, Global};

/// The cell so many planes above the lower corner of a box.
fn cell_at(b: IBox, x: u64, y: u64, z: u64) -> IVec
    requires x { x < span I b }
    requires y { y < span J b }
    requires z { z < span K b }
    ensures { result ≡ cell_at b x y z }
{
    b.lo.plus(IVec {
        k: z as i64,
        j: y as i64,
        i: x as i64,
    })
}

/// Adds a cell, if a shape tags it.
fn push_tagged<T: Given>(
    given: &T,
    level: u8,
    step: u32,
    cell: IVec,
    out: &mut Vec<IVec>,
) -> Result<(), NoMemory>
    requires { T.may_tell given.now level step cell }
    ensures { OnOk result (out.new.items ≡ out.old.items ++ cond (T.is_tagged given.now level step cell) (cell ∷ []) []) }
{
    if given.tagged(level, step, cell) {
        out.push(cell)?;
    }
    Ok(())
}

/// Adds the tagged cells of a row of a box.
#[tactic(auto, unfolding(samr_find::specs::Cells::row))]
fn push_row<T: Given>(
    given: &T,
    level: u8,
    step: u32,
    b: IBox,
    y: u64,
    z: u64,
    out: &mut Vec<IVec>,
) -> Result<(), NoMemory>
    requires y { y < span J b }
    requires z { z < span K b }
    requires told { (x : Cell) → Holds b x → T.may_tell given.now level step x }
    ensures { OnOk result (out.new.items ≡ out.old.items ++ filter (T.is_tagged given.now level step) (row b y z)) }
{
    for x in 0..b.length(Axis::I) {
        push_tagged(given, level, step, cell_at(b, x, y, z), out)?;
    }
    Ok(())
}

/// Adds the tagged cells of a plane of a box.
#[tactic(auto, unfolding(samr_find::specs::Cells::plane))]
fn push_plane<T: Given>(
    given: &T,
    level: u8,
    step: u32,
    b: IBox,
    z: u64,
    out: &mut Vec<IVec>,
) -> Result<(), NoMemory>
    requires z { z < span K b }
    requires told { (x : Cell) → Holds b x → T.may_tell given.now level step x }
    ensures { OnOk result (out.new.items ≡ out.old.items ++ filter (T.is_tagged given.now level step) (plane b z)) }
{
    for y in 0..b.length(Axis::J) {
        push_row(given, level, step, b, y, z, out)?;
    }
    Ok(())
}

/// The cells of a box that a shape tags, `i` fastest, then `j`, then `k`.
#[tactic(auto, unfolding(samr_find::specs::Cells::cells_in))]
pub fn tagged_in<T: Given>(
    alloc: Global,
    given: &T,
    level: u8,
    step: u32,
    b: IBox,
) -> Result<Vec<IVec>, NoMemory>
    requires told { (x : Cell) → Holds b x → T.may_tell given.now level step x }
    ensures { IfOk result (λ v. v.items ≡ filter (T.is_tagged given.now level step) (cells_in b)) }
{
    let mut out = Vec::new(alloc);
    for z in 0..b.length(Axis::K) {
        push_plane(given, level, step, b, z, &mut out)?;
    }
    Ok(out)
}
