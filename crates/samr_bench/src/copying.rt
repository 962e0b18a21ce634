//! Copies and packs of a patch's cells against a plain copy of as many values.

use crate::report::{Sample, print_race};
use samr_box::{IBox, IVec, holds_box};
use samr_data::Patch;
use std::alloc::{AllocError as NoMemory, Global};
use std::io;
use std::rt::Clock;
use std::time::Instant;

/// How often all values are copied.
const COPIES: usize = 200;

/// A patch of 256 x 256 cells with two ghost cells on each side.
const SQUARE: IBox = IBox {
    lo: IVec { k: 0, j: 0, i: 0 },
    hi: IVec {
        k: 0,
        j: 255,
        i: 255,
    },
};

const GHOSTS: IVec = IVec { k: 0, j: 2, i: 2 };

const STILL: IVec = IVec { k: 0, j: 0, i: 0 };

/// Copies the cells of one patch to another, row by row, where both have them.
fn copy(to: &mut Patch, from: &Patch) {
    if !holds_box(to.over(), SQUARE) {
        return;
    }
    if holds_box(from.over(), SQUARE) {
        to.copy_region(from, SQUARE, STILL);
    }
}

/// How long it takes to copy them.
fn copies<R: Clock>(rt: &R, to: &mut Patch, from: &Patch) -> io::Result<Sample> {
    let start = Instant::now(rt)?;
    for _ in 0..COPIES {
        copy(to, from);
    }
    Ok(Sample::new(COPIES, start.elapsed(rt)?))
}

/// The values of the cells of a patch, where it has them.
fn packed(alloc: Global, from: &Patch) -> Result<Vec<u32>, NoMemory> {
    if holds_box(from.over(), SQUARE) {
        return from.pack(alloc, SQUARE);
    }
    Ok(Vec::new(alloc))
}

/// How long it takes to pack them.
fn packs<R: Clock>(rt: &R, alloc: Global, from: &Patch) -> io::Result<Sample> {
    let start = Instant::now(rt)?;
    for _ in 0..COPIES {
        drop(packed(alloc, from)?);
    }
    Ok(Sample::new(COPIES, start.elapsed(rt)?))
}

/// Copies values to another list of as many.
fn copy_values(to: &mut [u32], from: &[u32]) {
    if to.len() == from.len() {
        to.copy_from_slice(from);
    }
}

/// How long it takes to copy as many values from one list to another.
fn plain<R: Clock>(rt: &R, to: &mut [u32], from: &[u32]) -> io::Result<Sample> {
    let start = Instant::now(rt)?;
    for _ in 0..COPIES {
        copy_values(to, from);
    }
    Ok(Sample::new(COPIES, start.elapsed(rt)?))
}

/// Copies and packs of a patch's cells against a plain copy of as many values.
pub fn print<R: Clock + Print>(rt: &R, alloc: Global) -> io::Result<()> {
    let mut to = Patch::new(alloc, SQUARE, GHOSTS)?;
    let from = Patch::new(alloc, SQUARE, GHOSTS)?;
    let values = packed(alloc, &from)?;
    let mut list = packed(alloc, &from)?;
    let base = plain(rt, list.as_mut_slice(), values.as_slice())?;
    print_race(rt, "copy of a patch", copies(rt, &mut to, &from)?, base)?;
    print_race(rt, "pack of a patch", packs(rt, alloc, &from)?, base)
}
