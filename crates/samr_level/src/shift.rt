//! The shifts at which a box has images.

ghost use Rattle.std.specs.Prelude.{◌≡◌, ◌++◌, ◌∷◌, [], negsuc, pos, IfOk, if◌then◌else◌};
ghost use Rattle.std.specs.List.{flat_map};
ghost use Rattle.samr_box.specs.Vector.{put};
ghost use Rattle.samr_box.specs.Space.{flag};
ghost use Rattle.samr_level.specs.Overlaps.{shifts};

use samr_box::{Axis, Flags, Shift};
use std::alloc::{AllocError as NoMemory, Global};

/// The shift that moves nothing.
const HERE: Shift = Shift { k: 0, j: 0, i: 0 };

/// The shifts at which a box has images, in shift order: -1, 0 and 1 on periodic axes and 0 on the
/// others.
pub fn shifts(alloc: Global, periodic: Flags) -> Result<Vec<Shift>, NoMemory>
    ensures { IfOk result (λ v. v.items ≡ shifts periodic) }
{
    let here = Vec::from_slice(alloc, [HERE].as_slice())?;
    let along_k = spread(alloc, here, Axis::K, periodic)?;
    let along_j = spread(alloc, along_k, Axis::J, periodic)?;
    let all = spread(alloc, along_j, Axis::I, periodic)?;
    Ok(all)
}

/// Each shift with its neighbours on an axis, where that is periodic.
fn spread(
    alloc: Global,
    shifts: Vec<Shift>,
    axis: Axis,
    periodic: Flags,
) -> Result<Vec<Shift>, NoMemory>
    ensures { IfOk result (λ v. v.items ≡ (if flag axis periodic then flat_map (λ s. put axis s (negsuc 0) ∷ s ∷ put axis s (pos 1) ∷ []) shifts.items else shifts.items)) }
{
    if !periodic.at(axis) {
        return Ok(shifts);
    }
    let wider = with_neighbours(alloc, shifts.as_slice(), axis)?;
    Ok(wider)
}

fn with_neighbours(alloc: Global, shifts: &[Shift], axis: Axis) -> Result<Vec<Shift>, NoMemory>
    ensures { IfOk result (λ v. v.items ≡ flat_map (λ s. put axis s (negsuc 0) ∷ s ∷ put axis s (pos 1) ∷ []) shifts.now) }
{
    let mut wider = Vec::new(alloc);
    for s in shifts {
        wider.push(back(*s, axis))?;
        wider.push(*s)?;
        wider.push(ahead(*s, axis))?;
    }
    Ok(wider)
}

fn back(s: Shift, axis: Axis) -> Shift
    ensures { result ≡ put axis s (negsuc 0) }
{
    match axis {
        Axis::I => Shift { i: -1, ..s },
        Axis::J => Shift { j: -1, ..s },
        Axis::K => Shift { k: -1, ..s },
    }
}

fn ahead(s: Shift, axis: Axis) -> Shift
    ensures { result ≡ put axis s (pos 1) }
{
    match axis {
        Axis::I => Shift { i: 1, ..s },
        Axis::J => Shift { j: 1, ..s },
        Axis::K => Shift { k: 1, ..s },
    }
}
