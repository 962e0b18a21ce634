//! Fills of level 0 of more and more boxes.

ghost use Rattle.std.specs.Prelude.{pos, ◌≤ℤ◌};
ghost use Rattle.samr_ops.specs.Rules.{IsRules};

use crate::report::{Sample, print_sample};
use samr_box::{Axis, Domain, Flags, IBox, IVec, Listed};
use samr_data::Patch;
use samr_ops::{Border, RefineRule, Rule, Rules};
use samr_trials_fills::{fill, prepare};
use std::alloc::Global;
use std::io;
use std::rt::Clock;
use std::time::Instant;

/// Blocks of 4 cells a side.
const BLOCK: IVec = IVec { k: 1, j: 4, i: 4 };

/// How far ghost cells reach, and overlaps are known.
const WIDTH: IVec = IVec { k: 0, j: 2, i: 2 };

/// All values lie below it.
const MODULUS: u32 = 1_000_003;

/// One field with two rows of ghost cells about each box, whose values are mirrored in the borders.
fn rules() -> Rules
    ensures { IsRules result }
{
    Rules {
        modulus: MODULUS,
        width: WIDTH,
        centre: 1,
        face: 1,
        refine: RefineRule::Same,
        boundary: Border {
            i: Rule::Reflect,
            j: Rule::Reflect,
            k: Rule::Clamp,
        },
    }
}

/// A square domain of so many blocks a side.
fn square(side: i64) -> Domain
    requires low { pos 1 ≤ℤ side }
    requires high { side ≤ℤ pos 1024 }
{
    Domain {
        size: IVec {
            k: 1,
            j: 4 * side,
            i: 4 * side,
        },
        periodic: Flags {
            k: false,
            j: false,
            i: false,
        },
    }
}

/// The cells of a box, up to the greatest number.
fn cells_of(b: IBox) -> u64 {
    b.length(Axis::I)
        .saturating_mul(b.length(Axis::J))
        .saturating_mul(b.length(Axis::K))
}

/// The ghost cells of some patches.
fn ghost_cells(patches: &[Patch]) -> u64 {
    let mut cells = 0u64;
    for patch in patches {
        let own = cells_of(patch.bx);
        cells = cells.saturating_add(cells_of(patch.over()).saturating_sub(own));
    }
    cells
}

/// The ghost cells of all fields of a rank.
fn all_ghost_cells(fields: &[Listed<Patch>]) -> u64 {
    let mut cells = 0u64;
    for field in fields {
        cells = cells.saturating_add(ghost_cells(field.as_slice()));
    }
    cells
}

/// How long it takes to fill the ghost cells of level 0 of a domain, on one rank.
fn measure<R: Clock>(rt: &R, alloc: Global, frame: Domain) -> io::Result<Option<Sample>> {
    let fields = [rules()];
    let none = Vec::new(alloc);
    let nothing = Vec::new(alloc);
    let made = prepare(
        alloc,
        frame,
        none.as_slice(),
        BLOCK,
        1,
        WIDTH,
        MODULUS,
        nothing.as_slice(),
        fields.as_slice(),
    )?;
    let Some(ready) = made else {
        return Ok(None);
    };
    let start = Instant::now(rt)?;
    let outs = fill(alloc, ready, fields.as_slice())?;
    let time = start.elapsed(rt)?;
    let mut cells = 0u64;
    for out in outs.as_slice() {
        cells = cells.saturating_add(all_ghost_cells(out.as_slice()));
    }
    Ok(Some(Sample::new(cells as usize, time)))
}

/// Fills of levels of 1,024 and 4,096 boxes.
pub fn print<R: Clock + Print>(rt: &R, alloc: Global) -> io::Result<()> {
    let mut before = None;
    for side in [32, 64] {
        let sample = measure(rt, alloc, square(side))?;
        if let Some(sample) = sample {
            print_sample(rt, "fill ghost cells", sample, before)?;
        }
        before = sample;
    }
    Ok(())
}
