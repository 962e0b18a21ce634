//! Tags and clusters of larger and larger fields, and counts by words against counts by cells.

ghost use Rattle.std.specs.Prelude.{pos, ◌≤ℤ◌, ◌<ℤ◌, ◌<◌, ◌^◌, IfOk};
ghost use Rattle.samr_box.specs.Corners.{cells_of};

use crate::report::{Sample, print_race, print_sample};
use samr_box::{IBox, IVec, cells, contains};
use samr_rounds::clusters_of;
use samr_sign::{CutRule, TagField};
use std::alloc::{AllocError as NoMemory, Global};
use std::rt::Clock;
use std::time::Instant;
use std::{io, slice};

/// How many times a field is counted.
const COUNTS: usize = 100;

/// How wide the ring of tags is, in cells.
const RING: u64 = 4;

/// Boxes of at most 4 planes are not cut, and boxes with 70 tags of 100 cells are taken.
const RULE: CutRule = CutRule {
    efficiency: 70,
    smallest: 4,
};

/// A square box of so many cells a side.
fn square(side: i64) -> IBox
    requires low { pos 1 ≤ℤ side }
    requires high { side ≤ℤ pos 1024 }
    ensures { cells_of result < 2 ^ 63 }
{
    IBox {
        lo: IVec { k: 0, j: 0, i: 0 },
        hi: IVec {
            k: 0,
            j: side - 1,
            i: side - 1,
        },
    }
}

/// Whether a cell lies in the ring about the middle of a square.
fn is_tagged(i: i64, j: i64, side: i64) -> bool {
    let middle = side / 2;
    let apart = i.abs_diff(middle).saturating_add(j.abs_diff(middle));
    let inner = side.unsigned_abs() / 4;
    inner <= apart && apart < inner.saturating_add(RING)
}

/// Tags a cell, if the field has it.
fn tag(field: &mut TagField, x: IVec) {
    let bx = field.bx();
    if contains(bx, x) {
        field.set(x);
    }
}

/// Whether a field has a cell, and it is tagged.
fn is_set(field: &TagField, x: IVec) -> bool {
    let bx = field.bx();
    if contains(bx, x) {
        return field.get(x);
    }
    false
}

/// Tags the cells of a row that lie in the ring.
fn tag_row(field: &mut TagField, j: i64, side: i64) {
    for i in 0..side {
        if is_tagged(i, j, side) {
            tag(field, IVec { k: 0, j, i });
        }
    }
}

/// The field of a square with a ring of tags.
fn tagged(alloc: Global, bx: IBox, side: i64) -> Result<TagField, NoMemory> {
    let mut field = TagField::new(alloc, bx)?;
    for j in 0..side {
        tag_row(&mut field, j, side);
    }
    Ok(field)
}

/// How long it takes to tag a square and to cluster the tags, on one rank.
fn measure<R: Clock>(rt: &R, alloc: Global, side: i64) -> io::Result<Sample>
    requires low { pos 1 ≤ℤ side }
    requires high { side ≤ℤ pos 1024 }
{
    let bx = square(side);
    let start = Instant::now(rt)?;
    let field = tagged(alloc, bx, side)?;
    let clusters = clusters_of(alloc, bx, slice::from_ref(&field), &RULE)?;
    let time = start.elapsed(rt)?;
    drop(clusters);
    Ok(Sample::new(cells(bx) as usize, time))
}

/// How many cells of a row of a field are tagged, cell by cell.
fn count_row(field: &TagField, j: i64, side: i64) -> u64 {
    let mut count: u64 = 0;
    for i in 0..side {
        if is_set(field, IVec { k: 0, j, i }) {
            count = count.saturating_add(1);
        }
    }
    count
}

/// How many cells of a field are tagged, cell by cell.
fn count_cells(field: &TagField, side: i64) -> u64 {
    let mut count: u64 = 0;
    for j in 0..side {
        count = count.saturating_add(count_row(field, j, side));
    }
    count
}

/// The counts of a field, word by word and cell by cell.
fn race<R: Clock + Print>(rt: &R, alloc: Global, side: i64) -> io::Result<()>
    requires low { pos 1 ≤ℤ side }
    requires high { side ≤ℤ pos 1024 }
{
    let bx = square(side);
    let field = tagged(alloc, bx, side)?;
    let start = Instant::now(rt)?;
    let mut words: u64 = 0;
    for _ in 0..COUNTS {
        words = words.saturating_add(field.count(bx));
    }
    let by_words = Sample::new(COUNTS, start.elapsed(rt)?);
    let start = Instant::now(rt)?;
    let mut plain: u64 = 0;
    for _ in 0..COUNTS {
        plain = plain.saturating_add(count_cells(&field, side));
    }
    let by_cells = Sample::new(COUNTS, start.elapsed(rt)?);
    if words != plain {
        println!(rt; "the counts differ")?;
    }
    print_race(rt, "count of tags", by_words, by_cells)
}

/// Tags and clusters of 512 x 512 and of 1,024 x 1,024 cells, and counts by words against counts by
/// cells.
pub fn print<R: Clock + Print>(rt: &R, alloc: Global) -> io::Result<()> {
    let less = measure(rt, alloc, 512)?;
    print_sample(rt, "tags and clusters, cells", less, None)?;
    let more = measure(rt, alloc, 1024)?;
    print_sample(rt, "tags and clusters, cells", more, Some(less))?;
    race(rt, alloc, 1024)
}
