//! The values that one rank sends to another.

ghost use Rattle.std.specs.Prelude.{◌≡◌, IfOk, IsTrue};
ghost use Rattle.samr_box.specs.Corners.{holds_box};
ghost use Rattle.samr_data.specs.Grids.{over, packed};

use crate::Patch;
use samr_box::{IBox, Listed};
use samr_level::Edge;
use std::alloc::{AllocError as NoMemory, Global};

/// Values that one rank sends to another: those of a region, for a field of the box at the head of an edge. Where
/// `is_coarse`, the region is one of cells of the level below the head's.
#[derive(Debug, Drop)]
pub struct Parcel {
    pub edge: Edge,
    pub is_coarse: bool,
    pub field: u8,
    pub region: IBox,
    pub values: Listed<u32>,
}

impl Parcel {
    /// The values of a region of a patch.
    ///
    /// # Errors
    ///
    /// Where memory is short.
    pub fn of_patch(
        alloc: Global,
        edge: Edge,
        is_coarse: bool,
        field: u8,
        patch: &Patch,
        region: IBox,
    ) -> Result<Parcel, NoMemory>
        requires { IsTrue (holds_box (over patch.now) region) }
        ensures { IfOk result (λ q. q ≡ record { edge = edge; is_coarse = is_coarse; field = field; region = region; values = packed patch.now region }) }
    {
        let values = patch.pack(alloc, region)?;
        Ok(Parcel {
            edge,
            is_coarse,
            field,
            region,
            values: Listed::from_vec(values),
        })
    }
}
