//! Meshes of small problems, beside boxes that were found by hand.

use samr_box::{IVec, Listed};
use samr_level::BoxRef;
use samr_mesh_plain::mesh_of;
use samr_problem::read_problem;
use std::alloc::{AllocError as NoMemory, Global};
use std::test::Fail;

/// A box of a level in the plane, with its owner.
#[derive(Clone, Copy)]
struct Row {
    level: usize,
    owner: u16,
    lo: (i64, i64),
    hi: (i64, i64),
}

/// The number of boxes above level 0.
fn count_above(levels: &[Listed<BoxRef>]) -> usize {
    let mut count = 0usize;
    for level in levels {
        count = count.saturating_add(level.as_slice().len());
    }
    match levels.first() {
        Some(base) => count.saturating_sub(base.as_slice().len()),
        None => 0,
    }
}

/// Whether a level has this box.
fn has(levels: &[Listed<BoxRef>], row: Row) -> bool {
    let Some(level) = levels.get(row.level) else {
        return false;
    };
    for b in level.as_slice() {
        if b.owner == row.owner
            && b.bx.lo == IVec::new(row.lo.0, row.lo.1, 0)
            && b.bx.hi == IVec::new(row.hi.0, row.hi.1, 0)
        {
            return true;
        }
    }
    false
}

/// Whether the levels above level 0 have these boxes and no others.
fn are(levels: &[Listed<BoxRef>], rows: &[Row]) -> bool {
    for row in rows {
        if !has(levels, *row) {
            return false;
        }
    }
    count_above(levels) == rows.len()
}

/// Whether a problem has these boxes above level 0 after a step.
fn makes(alloc: Global, text: &str, ranks: u16, step: u32, rows: &[Row]) -> Result<bool, NoMemory> {
    if ranks == 0 {
        return Ok(false);
    }
    let Ok(problem) = read_problem(alloc, text.as_bytes()) else {
        return Ok(false);
    };
    let levels = mesh_of(alloc, &problem, ranks, step)?;
    Ok(are(levels.as_slice(), rows))
}

fn at(level: usize, owner: u16, lo: (i64, i64), hi: (i64, i64)) -> Row {
    Row {
        level,
        owner,
        lo,
        hi,
    }
}

const NESTED: &str =
    "format = 1\ndim = 2\ndomain = [16, 16]\nperiodic = [false, false]\nblock = [16, 16]\nlevels = 3\nratio = [[2, 2], [2, 2]]\nghost = [1, 1]\nnest = [2, 2]\ntag_buffer = [1, 1]\nefficiency = 80\nsmallest = 1\nlargest = 64\nsteps = 1\nregrid = 1\n[[box]]\nlo = [28, 28]\nsize = [4, 4]\nvelocity = [4, 0]\n";

const LEAVING: &str =
    "format = 1\ndim = 2\ndomain = [8, 8]\nperiodic = [false, false]\nblock = [8, 8]\nlevels = 2\nratio = [[2, 2]]\nghost = [1, 1]\nnest = [1, 1]\ntag_buffer = [0, 0]\nsmallest = 1\nsteps = 2\nregrid = 1\n[[box]]\nlo = [6, 6]\nsize = [4, 4]\nvelocity = [8, 0]\n";

const SHARED: &str =
    "format = 1\ndim = 2\ndomain = [8, 8]\nperiodic = [false, false]\nblock = [8, 8]\nlevels = 2\nratio = [[2, 2]]\nghost = [1, 1]\nnest = [1, 1]\nsmallest = 1\nmodulus = 3000\ninit = [0, 1, 8]\n[[box]]\nlo = [6, 6]\nsize = [4, 4]\n";

const IN_PARTS: &str =
    "format = 2\ndim = 2\ndomain = [8, 8]\nperiodic = [false, false]\nblock = [4, 4]\nlevels = 2\nratio = [[2, 2]]\nghost = [1, 1]\nboundary = [9, 9]\n[[part]]\nlo = [0, 0]\nhi = [3, 7]\n[[part]]\nlo = [4, 0]\nhi = [7, 3]\n[[box]]\nlo = [7, 7]\nsize = [2, 2]\n";

#[test]
fn nested_levels(rt: HostRuntime) -> Result<(), Fail> {
    let first = [at(1, 0, (12, 12), (17, 17)), at(2, 0, (28, 28), (31, 31))];
    let second = [at(1, 0, (12, 12), (19, 17)), at(2, 0, (30, 28), (31, 31))];
    assert!(&rt; makes(rt.alloc(), NESTED, 1, 0, first.as_slice())?);
    assert!(&rt; makes(rt.alloc(), NESTED, 1, 1, second.as_slice())?);
    Ok(())
}

#[test]
fn leaving(rt: HostRuntime) -> Result<(), Fail> {
    let first = [at(1, 0, (6, 6), (9, 9))];
    let second = [at(1, 0, (14, 6), (15, 9))];
    assert!(&rt; makes(rt.alloc(), LEAVING, 1, 0, first.as_slice())?);
    assert!(&rt; makes(rt.alloc(), LEAVING, 1, 1, second.as_slice())?);
    assert!(&rt; makes(rt.alloc(), LEAVING, 1, 2, [].as_slice())?);
    Ok(())
}

#[test]
fn shared(rt: HostRuntime) -> Result<(), Fail> {
    let rows = [at(1, 0, (8, 6), (9, 9)), at(1, 1, (6, 6), (7, 9))];
    assert!(&rt; makes(rt.alloc(), SHARED, 2, 0, rows.as_slice())?);
    Ok(())
}

#[test]
fn in_parts(rt: HostRuntime) -> Result<(), Fail> {
    let rows = [at(1, 0, (6, 6), (7, 9)), at(1, 0, (8, 6), (9, 7))];
    assert!(&rt; makes(rt.alloc(), IN_PARTS, 1, 0, rows.as_slice())?);
    Ok(())
}
