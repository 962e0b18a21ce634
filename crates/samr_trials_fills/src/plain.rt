//! The value of each cell about a level by a plain look: from the boxes of the level and the parts of the domain, as lists.

use samr_box::{Domain, IBox, IVec, Listed, contains};
use samr_data::Patch;
use samr_trials_levels::{COARSE_START, FINE_START, first_value};

/// All first values lie below it.
pub(crate) const BOUND: u32 = 997;

/// A level as a plain look has it: its frame, its boxes, and the parts of its domain, none where that is the whole frame.
#[derive(Clone, Copy)]
pub(crate) struct Plain<'a> {
    pub frame: Domain,
    pub boxes: &'a [IBox],
    pub parts: &'a [IBox],
}

/// Where a cell on a line of so many cells lies when the border is a mirror.
fn mirrored(x: i64, length: i64) -> i64 {
    if x < 0 {
        return (-1i64).saturating_sub(x);
    }
    if x < length {
        return x;
    }
    length.saturating_mul(2).saturating_sub(1).saturating_sub(x)
}

/// Where a cell on a line of so many cells lies when the line is a ring.
fn turned(x: i64, length: i64) -> i64 {
    if x < 0 {
        return x.saturating_add(length);
    }
    if x < length {
        return x;
    }
    x.saturating_sub(length)
}

/// Half of a number, rounded down, and what is left.
fn half(n: i64) -> i64 {
    n.div_euclid(2)
}

fn odd(n: i64) -> u32 {
    if n.rem_euclid(2) == 1 { 1 } else { 0 }
}

/// Whether some box has a cell.
fn is_in(boxes: &[IBox], x: IVec) -> bool {
    for b in boxes {
        if contains(*b, x) {
            return true;
        }
    }
    false
}

/// The value of a cell of the domain: its own in the level, else that of the coarse cell over it, to which the second
/// field adds the cell's place in it.
fn inner_value(look: &Plain, field: u64, x: IVec) -> u32 {
    if is_in(look.boxes, x) {
        return first_value(BOUND, FINE_START, field, x);
    }
    let over = IVec::new(half(x.i), half(x.j), 0);
    let coarse = first_value(BOUND, COARSE_START, field, over);
    if field == 0 {
        return coarse;
    }
    coarse.saturating_add(odd(x.i)).saturating_add(odd(x.j)) % 997
}

/// The value of a cell by a plain walk in a whole frame: along `i` to a value or a cell inside, then round `j`.
fn walked_value(look: &Plain, field: u64, x: IVec) -> u32 {
    let size = look.frame.size;
    if field == 0 && (x.i < 0 || x.i >= size.i) {
        return 9;
    }
    let inside = IVec::new(mirrored(x.i, size.i), turned(x.j, size.j), x.k);
    inner_value(look, field, inside)
}

/// The value of a cell in a domain of parts: beyond them the fixed one of the field.
fn value_by_parts(look: &Plain, field: u64, x: IVec) -> u32 {
    if is_in(look.parts, x) {
        return inner_value(look, field, x);
    }
    if field == 0 { 9 } else { 5 }
}

/// The value of a cell.
fn plain_value(look: &Plain, field: u64, x: IVec) -> u32 {
    if look.parts.is_empty() {
        return walked_value(look, field, x);
    }
    value_by_parts(look, field, x)
}

/// The value that a patch has of a cell.
fn value_in(patch: &Patch, x: IVec) -> Option<u32> {
    if contains(patch.over(), x) {
        return Some(patch.get(x));
    }
    None
}

/// How many cells of a row a patch has, where each has its value.
fn right_row(look: &Plain, field: u64, patch: &Patch, j: i64) -> Option<u64> {
    let mut cells = 0u64;
    for i in patch.over().lo.i..patch.over().hi.i.saturating_add(1) {
        let x = IVec::new(i, j, 0);
        if value_in(patch, x) != Some(plain_value(look, field, x)) {
            return None;
        }
        cells = cells.saturating_add(1);
    }
    Some(cells)
}

/// How many cells a patch has, where each has its value.
fn right_cells(look: &Plain, field: u64, patch: &Patch) -> Option<u64> {
    let mut cells = 0u64;
    for j in patch.over().lo.j..patch.over().hi.j.saturating_add(1) {
        cells = cells.saturating_add(right_row(look, field, patch, j)?);
    }
    Some(cells)
}

/// How many cells the patches of a field have in all.
fn right_field(look: &Plain, field: u64, patches: &[Patch]) -> Option<u64> {
    let mut cells = 0u64;
    for patch in patches {
        cells = cells.saturating_add(right_cells(look, field, patch)?);
    }
    Some(cells)
}

/// How many cells the patches of both fields of all ranks have in all, where each has its value.
pub(crate) fn right_fill(look: &Plain, outs: &[Listed<Listed<Patch>>]) -> Option<u64> {
    let mut cells = 0u64;
    for out in outs {
        let fields = out.as_slice();
        if fields.len() != 2 {
            return None;
        }
        for field in 0..2u8 {
            if let Some(patches) = fields.get(usize::from(field)) {
                let more = right_field(look, u64::from(field), patches.as_slice())?;
                cells = cells.saturating_add(more);
            }
        }
    }
    Some(cells)
}
