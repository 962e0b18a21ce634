//! The planes of a box.

ghost use Rattle.std.specs.Prelude.{◌≡◌, ◌<◌};
ghost use Rattle.samr_box.specs.Corners.{span};
ghost use Rattle.samr_sign.specs.Counts.{slice};

use samr_box::{Axis, IBox};

/// The plane of a box that lies so many planes above its lowest.
pub fn slice(b: IBox, axis: Axis, place: u64) -> IBox
    requires { place < span axis b }
    ensures { result ≡ slice axis b place }
{
    let lo = b.lo.ahead(axis, place);
    IBox {
        lo,
        hi: b.hi.put(axis, lo.at(axis)),
    }
}
