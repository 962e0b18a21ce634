//! The parts of a box that lie in the domain.

ghost use Rattle.std.specs.Prelude.{◌≡◌, IfOk};
ghost use Rattle.std.specs.List.{filter_map};
ghost use Rattle.samr_box.specs.declared.vector.IVec.{IVec};
ghost use Rattle.samr_box.specs.Vector.{AtMost};
ghost use Rattle.samr_box.specs.Corners.{Corners, met};
ghost use Rattle.samr_level.specs.Regions.{IsArea};
ghost use Rattle.samr_nest.specs.Starts.{picked, stretched, needed};

use samr_box::{Domain, Flags, IBox, IVec};
use samr_level::Region;
use std::alloc::{AllocError as NoMemory, Global};

/// The parts of a box that lie in the domain, in the order of the boxes of the domain: on physical axes
/// they end at the borders, on periodic axes they reach as far as the box does.
///
/// # Errors
///
/// Where memory is short.
pub fn needed(alloc: Global, b: IBox, region: &Region) -> Result<Vec<IBox>, NoMemory>
    ensures parts { IfOk result (λ v. v.items ≡ needed region.now b) }
    ensures area { IfOk result (λ v. IsArea region.now) }
{
    let boxes = region.boxes(alloc)?;
    let parts = needed_of(alloc, region.frame(), boxes.as_slice(), b)?;
    Ok(parts)
}

/// The parts of a box that lie in a box of a list on physical axes.
fn needed_of(alloc: Global, d: &Domain, boxes: &[IBox], b: IBox) -> Result<Vec<IBox>, NoMemory>
    ensures { IfOk result (λ v. v.items ≡ filter_map (λ p. met (stretched d.now b p) b) boxes.now) }
{
    boxes
        .iter()
        .filter_map(|p| needed_in(d, *p, b))
        .collect(alloc)
}

/// The part of a box that lies in a box of the domain on physical axes, if there is one.
fn needed_in(d: &Domain, p: IBox, b: IBox) -> Option<IBox>
    ensures { result ≡ met (stretched d.now b p) b }
{
    let lo = picked(d.periodic, b.lo, p.lo);
    let hi = picked(d.periodic, b.hi, p.hi);
    part_between(lo, hi, b)
}

/// On the axes that are marked the numbers of the first triple, on the others those of the second.
fn picked(marks: Flags, x: IVec, y: IVec) -> IVec
    ensures { result ≡ picked marks x y }
{
    IVec {
        k: if marks.k { x.k } else { y.k },
        j: if marks.j { x.j } else { y.j },
        i: if marks.i { x.i } else { y.i },
    }
}

/// The part of a box that lies between two corners, if there is one.
pub(crate) fn part_between(lo: IVec, hi: IVec, b: IBox) -> Option<IBox>
    requires { AtMost lo hi }
    ensures { result ≡ met (record { lo = lo; hi = hi }) b }
{
    if !lo.at_most(b.hi) {
        return None;
    }
    if !b.lo.at_most(hi) {
        return None;
    }
    Some(IBox {
        lo: lo.greatest(b.lo),
        hi: hi.least(b.hi),
    })
}
