//! Fills of level 0 and of levels over it, each cell against a plain look.

ghost use Rattle.std.specs.List.{All};
ghost use Rattle.std.specs.Prelude.{IfOk, IfSome};
ghost use Rattle.samr_ops.specs.Rules.{IsRules};
ghost use Rattle.samr_fill.specs.Fill.{Filling};
ghost use Rattle.samr_trials_fills.specs.Ready.{AreReady};

use crate::plain::{BOUND, Plain, right_fill};
use crate::{Prepared, fill, prepare, prepare_over, rows};
use samr_box::{Domain, Flags, IBox, IVec, Ratio};
use samr_ops::{Border, RefineRule, Rule, Rules};
use samr_sched::Row;
use std::alloc::{AllocError as NoMemory, Global};
use std::process::Abort;
use std::test::Fail;

const BLOCK: IVec = IVec { k: 1, j: 4, i: 4 };

/// Blocks of a level over level 0.
const FINE_BLOCK: IVec = IVec { k: 1, j: 4, i: 8 };

const BY_TWO: Ratio = Ratio { k: 1, j: 2, i: 2 };

const WIDTH: IVec = IVec { k: 0, j: 2, i: 2 };

/// What a run has: cells in all, and ghost cells by their origins.
#[derive(Clone, Copy)]
struct Counts {
    cells: u64,
    copies: u64,
    coarse: u64,
    outside: u64,
}

/// The rules of a field with a fixed value beyond the borders of `i`.
fn fixed_rules() -> Rules
    ensures { IsRules result }
{
    Rules {
        modulus: 1_000,
        width: IVec { k: 0, j: 1, i: 1 },
        centre: 1,
        face: 1,
        refine: RefineRule::Same,
        boundary: Border {
            i: Rule::Fixed(9),
            j: Rule::Clamp,
            k: Rule::Clamp,
        },
    }
}

/// The rules of a field whose values are mirrored in the borders of `i`.
fn mirrored_rules() -> Rules
    ensures { IsRules result }
{
    Rules {
        modulus: 997,
        width: IVec { k: 0, j: 2, i: 2 },
        centre: 1,
        face: 1,
        refine: RefineRule::Ramp,
        boundary: Border {
            i: Rule::Reflect,
            j: Rule::Clamp,
            k: Rule::Clamp,
        },
    }
}

/// The rules of both fields.
fn both_rules(alloc: Global) -> Result<Vec<Rules>, NoMemory>
    ensures { IfOk result (λ v. All IsRules v.items) }
{
    let mut list = Vec::new(alloc);
    list.push(fixed_rules())?;
    list.push(mirrored_rules())?;
    Ok(list)
}

/// A row more.
fn with_row(sum: Counts, row: Row) -> Counts {
    let mut more = sum;
    match row {
        Row::Copy { cells, .. } => more.copies = sum.copies.saturating_add(cells),
        Row::Coarse { cells, .. } => more.coarse = sum.coarse.saturating_add(cells),
        Row::Outside { cells, .. } => more.outside = sum.outside.saturating_add(cells),
    }
    more
}

/// The rows of a rank more.
fn with_rows(sum: Counts, list: &[Row]) -> Counts {
    let mut more = sum;
    for row in list {
        more = with_row(more, *row);
    }
    more
}

/// The ghost cells in the rows of all ranks.
fn counted(all: &[Vec<Row>]) -> Counts {
    let mut sum = Counts {
        cells: 0,
        copies: 0,
        coarse: 0,
        outside: 0,
    };
    for list in all {
        sum = with_rows(sum, list.as_slice());
    }
    sum
}

/// Whether as many ghost cells have each origin.
fn same_origins(a: Counts, b: Counts) -> bool {
    a.copies == b.copies && a.coarse == b.coarse && a.outside == b.outside
}

/// How many cells the patches have after the fill, where each has what the plain look finds.
fn filled_cells(
    alloc: Global,
    look: &Plain,
    ready: Prepared,
    ranks: u16,
    rules: &[Rules],
) -> Result<Option<u64>, NoMemory>
    requires ranges { All IsRules rules.now }
    requires ready { (w : Filling) × AreReady ready rules.now w }
{
    let outs = fill(alloc, ready, rules)?;
    if outs.len() != usize::from(ranks) {
        return Ok(None);
    }
    Ok(right_fill(look, outs.as_slice()))
}

/// Whether a run has these numbers of cells, and each cell what the plain look finds.
fn is_right(
    alloc: Global,
    look: &Plain,
    ready: Prepared,
    ranks: u16,
    rules: &[Rules],
    counts: Counts,
) -> Result<bool, NoMemory>
    requires ranges { All IsRules rules.now }
    requires ready { (w : Filling) × AreReady ready rules.now w }
{
    let all = rows(alloc, &ready)?;
    if !same_origins(counted(all.as_slice()), counts) {
        return Ok(false);
    }
    let cells = filled_cells(alloc, look, ready, ranks, rules)?;
    Ok(cells == Some(counts.cells))
}

/// The same of a fill of level 0 of a domain, whose boxes the plain look has.
fn is_right0(
    alloc: Global,
    look: &Plain,
    ranks: u16,
    fixed: &[u32],
    counts: Counts,
) -> Result<bool, NoMemory> {
    let list = both_rules(alloc)?;
    let rules = list.as_slice();
    let made = prepare(
        alloc, look.frame, look.parts, BLOCK, ranks, WIDTH, BOUND, fixed, rules,
    )?;
    let Some(ready) = made else {
        return Ok(false);
    };
    is_right(alloc, look, ready, ranks, rules, counts)
}

/// What is ready for a fill of some blocks over level 0 of a domain.
fn made_over(
    alloc: Global,
    frame: Domain,
    parts: &[IBox],
    over: u64,
    ranks: u16,
    fixed: &[u32],
    rules: &[Rules],
) -> Result<Option<Prepared>, NoMemory>
    requires { All IsRules rules.now }
    ensures { IfOk result (λ made. IfSome made (λ p. (w : Filling) × AreReady p rules.now w)) }
{
    let made = prepare_over(
        alloc, frame, parts, BLOCK, BY_TWO, FINE_BLOCK, over, ranks, WIDTH, BOUND, fixed, rules,
    )?;
    Ok(made)
}

/// Whether a fill of such blocks has these numbers of cells, and each cell what the plain look finds.
fn is_right_over(
    alloc: Global,
    look: &Plain,
    frame: Domain,
    parts: &[IBox],
    over: u64,
    ranks: u16,
    fixed: &[u32],
    counts: Counts,
) -> Result<bool, NoMemory> {
    let list = both_rules(alloc)?;
    let rules = list.as_slice();
    let made = made_over(alloc, frame, parts, over, ranks, fixed, rules)?;
    let Some(ready) = made else {
        return Ok(false);
    };
    is_right(alloc, look, ready, ranks, rules, counts)
}

/// How many cells a fill of such blocks has, where each has what the plain look finds.
fn cells_over(
    alloc: Global,
    look: &Plain,
    frame: Domain,
    over: u64,
    ranks: u16,
) -> Result<Option<u64>, NoMemory> {
    let list = both_rules(alloc)?;
    let rules = list.as_slice();
    let none = Vec::new(alloc);
    let nothing = Vec::new(alloc);
    let made = made_over(
        alloc,
        frame,
        none.as_slice(),
        over,
        ranks,
        nothing.as_slice(),
        rules,
    )?;
    let Some(ready) = made else {
        return Ok(None);
    };
    filled_cells(alloc, look, ready, ranks, rules)
}

/// A frame of these lengths that is periodic along `j`, or on no axis.
fn frame(rt: &impl Abort, i: i64, j: i64, round: bool) -> Domain {
    let periodic = Flags {
        k: false,
        j: round,
        i: false,
    };
    Domain::new(IVec::new(i, j, 1), periodic).expect(rt, "a domain")
}

/// A box of the plane k = 0.
fn plane(rt: &impl Abort, i: i64, j: i64, last_i: i64, last_j: i64) -> IBox {
    IBox::new(IVec::new(i, j, 0), IVec::new(last_i, last_j, 0)).expect(rt, "a box")
}

#[test]
fn fills_a_frame_on_one_to_five_ranks(rt: HostRuntime) -> Result<(), Fail> {
    let alloc = rt.alloc();
    let boxes = [plane(&rt, 0, 0, 11, 7)];
    let parts: Vec<IBox> = Vec::new(alloc);
    let fixed: Vec<u32> = Vec::new(alloc);
    let look = Plain {
        frame: frame(&rt, 12, 8, true),
        boxes: boxes.as_slice(),
        parts: parts.as_slice(),
    };
    let counts = Counts {
        cells: 600,
        copies: 320,
        coarse: 0,
        outside: 88,
    };
    for ranks in 1..6u16 {
        assert!(rt; is_right0(alloc, &look, ranks, fixed.as_slice(), counts)?);
    }
    Ok(())
}

#[test]
fn fills_two_parts_on_one_to_three_ranks(rt: HostRuntime) -> Result<(), Fail> {
    let alloc = rt.alloc();
    let parts = [plane(&rt, 0, 0, 3, 7), plane(&rt, 4, 0, 7, 3)];
    let fixed = [9u32, 5];
    let look = Plain {
        frame: frame(&rt, 8, 8, false),
        boxes: parts.as_slice(),
        parts: parts.as_slice(),
    };
    let counts = Counts {
        cells: 300,
        copies: 58,
        coarse: 0,
        outside: 146,
    };
    for ranks in 1..4u16 {
        assert!(rt; is_right0(alloc, &look, ranks, fixed.as_slice(), counts)?);
    }
    Ok(())
}

#[test]
fn fills_four_blocks_over_a_frame_on_one_to_five_ranks(rt: HostRuntime) -> Result<(), Fail> {
    let alloc = rt.alloc();
    let boxes = [
        plane(&rt, 0, 0, 15, 3),
        plane(&rt, 8, 4, 15, 7),
        plane(&rt, 0, 8, 7, 11),
    ];
    let parts: Vec<IBox> = Vec::new(alloc);
    let fixed: Vec<u32> = Vec::new(alloc);
    let look = Plain {
        frame: frame(&rt, 16, 12, true),
        boxes: boxes.as_slice(),
        parts: parts.as_slice(),
    };
    let d = frame(&rt, 8, 6, true);
    let counts = Counts {
        cells: 624,
        copies: 150,
        coarse: 130,
        outside: 88,
    };
    for ranks in 1..6u16 {
        let right = is_right_over(
            alloc,
            &look,
            d,
            parts.as_slice(),
            0b01_1011,
            ranks,
            fixed.as_slice(),
            counts,
        )?;
        assert!(rt; right);
    }
    Ok(())
}

#[test]
fn fills_three_blocks_over_two_parts_on_one_to_four_ranks(rt: HostRuntime) -> Result<(), Fail> {
    let alloc = rt.alloc();
    let coarse_parts = [plane(&rt, 0, 0, 7, 3), plane(&rt, 0, 4, 3, 7)];
    let parts = [plane(&rt, 0, 0, 15, 7), plane(&rt, 0, 8, 7, 15)];
    let boxes = [
        plane(&rt, 8, 0, 15, 3),
        plane(&rt, 0, 4, 7, 7),
        plane(&rt, 0, 8, 7, 11),
    ];
    let fixed = [9u32, 5];
    let look = Plain {
        frame: frame(&rt, 16, 16, false),
        boxes: boxes.as_slice(),
        parts: parts.as_slice(),
    };
    let d = frame(&rt, 8, 8, false);
    let counts = Counts {
        cells: 468,
        copies: 58,
        coarse: 101,
        outside: 117,
    };
    for ranks in 1..5u16 {
        let right = is_right_over(
            alloc,
            &look,
            d,
            coarse_parts.as_slice(),
            0b01_0110,
            ranks,
            fixed.as_slice(),
            counts,
        )?;
        assert!(rt; right);
    }
    Ok(())
}

/// Those of the six blocks of a frame of 16 x 12 cells whose digits are 1, and how many they are.
fn blocks_of(rt: &impl Abort, alloc: Global, digits: u64) -> Result<Vec<IBox>, NoMemory> {
    let mut boxes = Vec::new(alloc);
    let mut rest = digits;
    for n in 0..6i64 {
        if rest % 2 == 1 {
            let i = n.rem_euclid(2).saturating_mul(8);
            let j = n.div_euclid(2).saturating_mul(4);
            boxes.push(plane(rt, i, j, i.saturating_add(7), j.saturating_add(3)))?;
        }
        rest /= 2;
    }
    Ok(boxes)
}

/// Each block of 8 x 4 cells has 60 with ghost cells one wide, and 96 with such two wide.
fn cells_of_blocks(boxes: &[IBox]) -> u64 {
    (boxes.len() as u64).saturating_mul(156)
}

#[test]
fn fills_any_blocks_over_a_frame_on_one_to_five_ranks(rt: HostRuntime) -> Result<(), Fail> {
    let alloc = rt.alloc();
    let parts: Vec<IBox> = Vec::new(alloc);
    let d = frame(&rt, 8, 6, true);
    let fine = frame(&rt, 16, 12, true);
    for digits in 0..64u8 {
        let boxes = blocks_of(&rt, alloc, u64::from(digits))?;
        let look = Plain {
            frame: fine,
            boxes: boxes.as_slice(),
            parts: parts.as_slice(),
        };
        let ranks = u16::from(digits % 5).saturating_add(1);
        let cells = cells_over(alloc, &look, d, u64::from(digits), ranks)?;
        assert!(rt; cells == Some(cells_of_blocks(boxes.as_slice())));
    }
    Ok(())
}
