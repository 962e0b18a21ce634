//! New levels and coarsened ones, each cell against a plain look.

ghost use Rattle.std.specs.Prelude.{IfOk};
ghost use Rattle.std.specs.List.{All};
ghost use Rattle.samr_ops.specs.Rules.{IsRules};

use crate::{coarsen, renew_by_rules};
use samr_box::{Domain, Flags, IBox, IVec, Listed, Ratio, contains};
use samr_data::Patch;
use samr_ops::{Border, CoarsenRule, RefineRule, Rule, Rules};
use samr_trials_levels::first_value;
use std::alloc::{AllocError as NoMemory, Global};
use std::process::Abort;
use std::test::Fail;

/// Blocks of level 0, which has 8 x 6 cells.
const BLOCK: IVec = IVec { k: 1, j: 3, i: 4 };

/// Blocks of the level over it, with 16 x 12 cells: two along `i`, three along `j`.
const FINE_BLOCK: IVec = IVec { k: 1, j: 4, i: 8 };

const BY_TWO: Ratio = Ratio { k: 1, j: 2, i: 2 };

const WIDTH: IVec = IVec { k: 0, j: 1, i: 1 };

const BOUND: u32 = 997;

/// Blocks 0, 1, 3 and 4.
const NEWS: u64 = 27;

/// Blocks 1 and 2.
const OLDS: u64 = 6;

/// The levels over level 0 as a plain look has them: the boxes of the new one, or of the one that is coarsened, and of the old one.
#[derive(Clone, Copy)]
struct Plain<'a> {
    news: &'a [IBox],
    olds: &'a [IBox],
}

/// Which run the patches are of.
#[derive(Clone, Copy)]
enum Run {
    /// The new level.
    Renewed,
    /// Level 0 after coarsening.
    Coarsened,
}

const CLAMPS: Border = Border {
    i: Rule::Clamp,
    j: Rule::Clamp,
    k: Rule::Clamp,
};

/// The rules of a field that is refined by copies.
fn same_rules() -> Rules
    ensures { IsRules result }
{
    Rules {
        modulus: 1_000,
        width: IVec { k: 0, j: 1, i: 1 },
        centre: 1,
        face: 1,
        refine: RefineRule::Same,
        boundary: CLAMPS,
    }
}

/// The rules of a field that is refined by a ramp.
fn ramp_rules() -> Rules
    ensures { IsRules result }
{
    Rules {
        modulus: 997,
        width: IVec { k: 0, j: 2, i: 2 },
        centre: 1,
        face: 1,
        refine: RefineRule::Ramp,
        boundary: CLAMPS,
    }
}

/// The rules of both fields.
fn both_rules(alloc: Global) -> Result<Vec<Rules>, NoMemory>
    ensures { IfOk result (λ v. All IsRules v.items) }
{
    let mut list = Vec::new(alloc);
    list.push(same_rules())?;
    list.push(ramp_rules())?;
    Ok(list)
}

/// Whether some box has a cell.
fn is_in(boxes: &[IBox], x: IVec) -> bool {
    for b in boxes {
        if contains(*b, x) {
            return true;
        }
    }
    false
}

/// Half of a number, rounded down, and what is left.
fn half(n: i64) -> i64 {
    n.div_euclid(2)
}

fn odd(n: i64) -> u32 {
    if n.rem_euclid(2) == 1 { 1 } else { 0 }
}

/// The value of a cell of the new level by a plain look.
fn renewed_value(look: &Plain, field: u64, x: IVec) -> u32 {
    if is_in(look.olds, x) {
        return first_value(BOUND, 0, field, x);
    }
    let coarse = first_value(BOUND, 500, field, IVec::new(half(x.i), half(x.j), 0));
    if field == 0 {
        return coarse;
    }
    coarse.saturating_add(odd(x.i)).saturating_add(odd(x.j)) % 997
}

/// The first value of one of the four cells over a coarse one.
fn child_value(field: u64, x: IVec, i: i64, j: i64) -> u32 {
    let over = IVec::new(
        x.i.saturating_mul(2).saturating_add(i),
        x.j.saturating_mul(2).saturating_add(j),
        0,
    );
    first_value(BOUND, 0, field, over)
}

/// The value of a cell of level 0 after coarsening by a plain look: the first of four, the greatest, or their sum modulo 500.
fn coarsened_value(look: &Plain, field: u64, x: IVec) -> u32 {
    let corner = IVec::new(x.i.saturating_mul(2), x.j.saturating_mul(2), 0);
    if !is_in(look.news, corner) {
        return first_value(BOUND, 500, field, x);
    }
    let first = child_value(field, x, 0, 0);
    let second = child_value(field, x, 1, 0);
    let third = child_value(field, x, 0, 1);
    let fourth = child_value(field, x, 1, 1);
    if field == 0 {
        return first;
    }
    if field == 1 {
        return first.max(second).max(third).max(fourth);
    }
    first
        .saturating_add(second)
        .saturating_add(third)
        .saturating_add(fourth)
        % 500
}

/// The value that a patch of a box should have of a cell; `None` where it should not have the cell.
fn wanted(look: &Plain, run: Run, bx: IBox, field: u64, x: IVec) -> Option<u32> {
    if !contains(bx, x) {
        return Some(0);
    }
    match run {
        Run::Renewed => {
            if is_in(look.news, x) {
                return Some(renewed_value(look, field, x));
            }
            None
        }
        Run::Coarsened => Some(coarsened_value(look, field, x)),
    }
}

/// The value that a patch has of a cell.
fn value_in(patch: &Patch, x: IVec) -> Option<u32> {
    if contains(patch.over(), x) {
        return Some(patch.get(x));
    }
    None
}

/// Whether a patch has what it should have of a cell.
fn is_right(look: &Plain, run: Run, field: u64, patch: &Patch, x: IVec) -> bool {
    match wanted(look, run, patch.bx, field, x) {
        Some(value) => value_in(patch, x) == Some(value),
        None => false,
    }
}

/// How many cells of a row a patch has, where each is right.
fn right_row(look: &Plain, run: Run, field: u64, patch: &Patch, j: i64) -> Option<u64> {
    let mut cells = 0u64;
    for i in patch.over().lo.i..patch.over().hi.i.saturating_add(1) {
        if !is_right(look, run, field, patch, IVec::new(i, j, 0)) {
            return None;
        }
        cells = cells.saturating_add(1);
    }
    Some(cells)
}

/// How many cells a patch has.
fn right_cells(look: &Plain, run: Run, field: u64, patch: &Patch) -> Option<u64> {
    let mut cells = 0u64;
    for j in patch.over().lo.j..patch.over().hi.j.saturating_add(1) {
        cells = cells.saturating_add(right_row(look, run, field, patch, j)?);
    }
    Some(cells)
}

/// How many cells the patches of a field have in all.
fn right_field(look: &Plain, run: Run, field: u64, patches: &[Patch]) -> Option<u64> {
    let mut cells = 0u64;
    for patch in patches {
        cells = cells.saturating_add(right_cells(look, run, field, patch)?);
    }
    Some(cells)
}

/// How many cells the patches of a rank have in all.
fn right_fields(look: &Plain, run: Run, fields: &[Listed<Patch>], number: usize) -> Option<u64> {
    if fields.len() != number {
        return None;
    }
    let mut cells = 0u64;
    let mut field = 0u64;
    for patches in fields {
        cells = cells.saturating_add(right_field(look, run, field, patches.as_slice())?);
        field = field.saturating_add(1);
    }
    Some(cells)
}

/// A frame of 8 x 6 cells that is periodic along `j`, or on no axis.
fn frame(rt: &impl Abort, round: bool) -> Domain {
    let periodic = Flags {
        k: false,
        j: round,
        i: false,
    };
    Domain::new(IVec::new(8, 6, 1), periodic).expect(rt, "a domain")
}

/// A box of the plane k = 0.
fn plane(rt: &impl Abort, i: i64, j: i64, last_i: i64, last_j: i64) -> IBox {
    IBox::new(IVec::new(i, j, 0), IVec::new(last_i, last_j, 0)).expect(rt, "a box")
}

/// How many cells the patches of all ranks have, where each is right.
fn right_run(look: &Plain, run: Run, all: &[Listed<Listed<Patch>>]) -> Option<u64> {
    let mut cells = 0u64;
    for fields in all {
        cells = cells.saturating_add(right_fields(look, run, fields.as_slice(), 2)?);
    }
    Some(cells)
}

/// How many cells a new level on so many ranks has, where each is right.
fn renewed_cells(
    alloc: Global,
    look: &Plain,
    d: Domain,
    parts: &[IBox],
    ranks: u16,
    olds: u64,
) -> Result<Option<u64>, NoMemory> {
    let rules = both_rules(alloc)?;
    let made = renew_by_rules(
        alloc,
        d,
        parts,
        BLOCK,
        BY_TWO,
        FINE_BLOCK,
        NEWS,
        olds,
        ranks,
        WIDTH,
        BOUND,
        rules.as_slice(),
    )?;
    let Some(outs) = made else {
        return Ok(None);
    };
    Ok(right_run(look, Run::Renewed, outs.as_slice()))
}

/// How many cells level 0 on so many ranks has after coarsening, where each is right.
fn coarsened_cells(
    alloc: Global,
    look: &Plain,
    d: Domain,
    parts: &[IBox],
    ranks: u16,
) -> Result<Option<u64>, NoMemory> {
    let rules = [CoarsenRule::First, CoarsenRule::Max, CoarsenRule::Sum];
    let moduli = [1_000, 997, 500];
    let widths = [WIDTH, IVec { k: 0, j: 2, i: 2 }, IVec { k: 0, j: 0, i: 0 }];
    let made = coarsen(
        alloc,
        d,
        parts,
        BLOCK,
        BY_TWO,
        FINE_BLOCK,
        NEWS,
        ranks,
        WIDTH,
        BOUND,
        rules.as_slice(),
        moduli.as_slice(),
        widths.as_slice(),
    )?;
    let Some(outs) = made else {
        return Ok(None);
    };
    let mut cells = 0u64;
    for out in outs.as_slice() {
        let Some(more) = right_fields(look, Run::Coarsened, out.as_slice(), 3) else {
            return Ok(None);
        };
        cells = cells.saturating_add(more);
    }
    Ok(Some(cells))
}

/// Blocks 0, 1, 3 and 4 of the frame of 16 x 12 cells, in three boxes.
fn blocks_of_frame(rt: &impl Abort) -> [IBox; 3] {
    [
        plane(rt, 0, 0, 15, 3),
        plane(rt, 8, 4, 15, 7),
        plane(rt, 0, 8, 7, 11),
    ]
}

/// Two parts of a frame of 8 x 6 cells, one upon the other.
fn two_parts(rt: &impl Abort) -> [IBox; 2] {
    [plane(rt, 0, 0, 7, 2), plane(rt, 0, 3, 3, 5)]
}

/// Blocks 0, 1, 3 and 4 of the same parts, refined: block 3 has only two rows.
fn blocks_of_parts(rt: &impl Abort) -> [IBox; 3] {
    [
        plane(rt, 0, 0, 15, 3),
        plane(rt, 8, 4, 15, 5),
        plane(rt, 0, 6, 7, 9),
    ]
}

#[test]
fn a_new_level_over_an_old_one_on_one_to_three_ranks(rt: HostRuntime) -> Result<(), Fail> {
    let alloc = rt.alloc();
    let parts: Vec<IBox> = Vec::new(alloc);
    let news = blocks_of_frame(&rt);
    let olds = [plane(&rt, 8, 0, 15, 3), plane(&rt, 0, 4, 7, 7)];
    let look = Plain {
        news: news.as_slice(),
        olds: olds.as_slice(),
    };
    let d = frame(&rt, true);
    for ranks in 1..4u16 {
        let cells = renewed_cells(alloc, &look, d, parts.as_slice(), ranks, OLDS)?;
        assert!(rt; cells == Some(624));
    }
    Ok(())
}

#[test]
fn a_new_level_over_none_on_five_ranks(rt: HostRuntime) -> Result<(), Fail> {
    let alloc = rt.alloc();
    let parts: Vec<IBox> = Vec::new(alloc);
    let news = blocks_of_frame(&rt);
    let olds: Vec<IBox> = Vec::new(alloc);
    let look = Plain {
        news: news.as_slice(),
        olds: olds.as_slice(),
    };
    let d = frame(&rt, true);
    let cells = renewed_cells(alloc, &look, d, parts.as_slice(), 5, 0)?;
    assert!(rt; cells == Some(624));
    Ok(())
}

#[test]
fn a_new_level_in_two_parts_on_one_to_four_ranks(rt: HostRuntime) -> Result<(), Fail> {
    let alloc = rt.alloc();
    let parts = two_parts(&rt);
    let news = blocks_of_parts(&rt);
    let olds = [plane(&rt, 8, 0, 15, 3), plane(&rt, 0, 4, 7, 5)];
    let look = Plain {
        news: news.as_slice(),
        olds: olds.as_slice(),
    };
    let d = frame(&rt, false);
    for ranks in 1..5u16 {
        let cells = renewed_cells(alloc, &look, d, parts.as_slice(), ranks, OLDS)?;
        assert!(rt; cells == Some(580));
    }
    Ok(())
}

#[test]
fn level_0_after_coarsening_on_one_to_three_ranks(rt: HostRuntime) -> Result<(), Fail> {
    let alloc = rt.alloc();
    let parts: Vec<IBox> = Vec::new(alloc);
    let news = blocks_of_frame(&rt);
    let olds: Vec<IBox> = Vec::new(alloc);
    let look = Plain {
        news: news.as_slice(),
        olds: olds.as_slice(),
    };
    let d = frame(&rt, true);
    for ranks in 1..4u16 {
        let cells = coarsened_cells(alloc, &look, d, parts.as_slice(), ranks)?;
        assert!(rt; cells == Some(392));
    }
    Ok(())
}

#[test]
fn two_parts_after_coarsening_on_one_to_four_ranks(rt: HostRuntime) -> Result<(), Fail> {
    let alloc = rt.alloc();
    let parts = two_parts(&rt);
    let news = blocks_of_parts(&rt);
    let olds: Vec<IBox> = Vec::new(alloc);
    let look = Plain {
        news: news.as_slice(),
        olds: olds.as_slice(),
    };
    let d = frame(&rt, false);
    for ranks in 1..5u16 {
        let cells = coarsened_cells(alloc, &look, d, parts.as_slice(), ranks)?;
        assert!(rt; cells == Some(294));
    }
    Ok(())
}
