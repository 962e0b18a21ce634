//! A level in the index space of the next finer one.

ghost use Rattle.std.specs.Prelude.{◌≡◌, IfOk};
ghost use Rattle.std.specs.List.{All};
ghost use Rattle.samr_box.specs.Corners.{IsBox};
ghost use Rattle.samr_box.specs.Ratios.{refined};
ghost use Rattle.samr_level.specs.Refined.{refined_box, refined_level};

use samr_box::{Ratio, refine};
use samr_level::BoxRef;
use std::alloc::{AllocError as NoMemory, Global};

/// A box refined, with its owner.
fn refined_box(b: BoxRef, r: Ratio) -> BoxRef
    requires { IsBox (refined b.bx r) }
    ensures { result ≡ refined_box r b }
{
    BoxRef {
        owner: b.owner,
        bx: refine(b.bx, r),
    }
}

/// Each box of a level refined, with its owner.
pub(crate) fn refined_level(
    alloc: Global,
    level: &[BoxRef],
    r: Ratio,
) -> Result<Vec<BoxRef>, NoMemory>
    requires { All (λ b. IsBox (refined b.bx r)) level.now }
    ensures { IfOk result (λ v. v.items ≡ refined_level r level.now) }
{
    level.iter().map(|b| refined_box(*b, r)).collect(alloc)
}
