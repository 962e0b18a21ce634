//! Level 0 of more and more boxes, bridged with itself.

ghost use Rattle.std.specs.Prelude.{pos, ◌≤ℤ◌};
ghost use Rattle.samr_box.specs.Space.{IsSpace};

use crate::report::{Sample, print_sample};
use samr_box::{Domain, Flags, IVec};
use samr_bridge::bridge_all;
use samr_level::{Region, level0_pair, whole_level0};
use std::alloc::Global;
use std::io;
use std::rt::Clock;
use std::time::Instant;

/// Blocks of 4 cells a side.
const BLOCK: IVec = IVec { k: 1, j: 4, i: 4 };

/// What lies within one cell.
const WIDTH: IVec = IVec { k: 0, j: 1, i: 1 };

/// A square domain of so many blocks a side, periodic on both axes.
fn square(alloc: Global, side: i64) -> Region
    requires low { pos 1 ≤ℤ side }
    requires high { side ≤ℤ pos 1024 }
    ensures { IsSpace result.frame }
{
    let frame = Domain {
        size: IVec {
            k: 1,
            j: 4 * side,
            i: 4 * side,
        },
        periodic: Flags {
            k: false,
            j: true,
            i: true,
        },
    };
    Region::whole(alloc, frame)
}

/// How long it takes to bridge level 0 of a domain with itself through itself, on one rank.
fn measure<R: Clock>(rt: &R, alloc: Global, region: &Region) -> io::Result<Option<Sample>>
    requires { IsSpace region.now.frame }
{
    if !region.can_block(BLOCK) {
        return Ok(None);
    }
    if !region.can_compare(WIDTH) {
        return Ok(None);
    }
    let level = whole_level0(alloc, region, BLOCK, 1)?;
    let mut pairs = Vec::new(alloc);
    pairs.push(level0_pair(alloc, region, BLOCK, 1, 0, WIDTH)?)?;
    let start = Instant::now(rt)?;
    let found = bridge_all(
        alloc,
        region.frame(),
        pairs.as_slice(),
        pairs.as_slice(),
        WIDTH,
    )?;
    let time = start.elapsed(rt)?;
    drop(found);
    Ok(Some(Sample::new(level.len(), time)))
}

/// Bridges of levels of 1,024, 4,096 and 16,384 boxes.
pub fn print<R: Clock + Print>(rt: &R, alloc: Global) -> io::Result<()> {
    let mut before = None;
    for side in [32, 64, 128] {
        let sample = measure(rt, alloc, &square(alloc, side))?;
        if let Some(sample) = sample {
            print_sample(rt, "bridge boxes", sample, before)?;
        }
        before = sample;
    }
    Ok(())
}
