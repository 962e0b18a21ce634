//! Whole texts of small runs, from rows that were written by hand.

use samr_box::{IBox, IVec, Listed, Shift};
use samr_level::{BoxRef, Edge};
use samr_problem::read_problem;
use samr_report::{BoxSum, LevelRows, RankRows, StepRows, can_sum, is_countable, report, summary};
use samr_sched::Row;
use std::alloc::Global;
use std::test::Fail;

/// The box from `lo` to `hi` in the plane `k = 0`.
fn plane(owner: u16, lo: (i64, i64), hi: (i64, i64)) -> Result<BoxRef, Fail> {
    let bx = IBox::new(IVec::new(lo.0, lo.1, 0), IVec::new(hi.0, hi.1, 0)).ok_or("no box")?;
    Ok(BoxRef { owner, bx })
}

fn here() -> Result<Shift, Fail> {
    Ok(Shift::new(0, 0, 0).ok_or("no shift")?)
}

/// The edges from each base to each head, at no shift.
fn edges(alloc: Global, bases: &[BoxRef], heads: &[BoxRef]) -> Result<Listed<Edge>, Fail> {
    let shift = here()?;
    let mut all = Vec::new(alloc);
    for base in bases {
        for head in heads {
            all.push(Edge {
                base: *base,
                head: *head,
                shift,
            })?;
        }
    }
    Ok(Listed::from_vec(all))
}

fn copy(base: BoxRef, head: BoxRef, cells: u64) -> Result<Row, Fail> {
    let shift = here()?;
    Ok(Row::Copy {
        field: 0,
        base,
        head,
        shift,
        cells,
    })
}

fn coarse(base: BoxRef, head: BoxRef, cells: u64) -> Result<Row, Fail> {
    let shift = here()?;
    Ok(Row::Coarse {
        field: 0,
        base,
        head,
        shift,
        cells,
    })
}

fn outside(field: u8, base: BoxRef, cells: u64) -> Row {
    Row::Outside { field, base, cells }
}

/// The rows of a level: a rank's boxes, the boxes of all ranks on this level, below and above, and its schedule.
fn level(
    alloc: Global,
    boxes: &[BoxRef],
    all: &[BoxRef],
    below: &[BoxRef],
    above: &[BoxRef],
    rows: &[Row],
) -> Result<LevelRows, Fail> {
    Ok(LevelRows {
        boxes: Listed::from_vec(Vec::from_slice(alloc, boxes)?),
        selves: edges(alloc, boxes, all)?,
        downs: edges(alloc, boxes, below)?,
        ups: edges(alloc, boxes, above)?,
        rows: Listed::from_vec(Vec::from_slice(alloc, rows)?),
    })
}

/// The sums of the boxes of each level, for a field.
fn field(alloc: Global, levels: &[&[(BoxRef, u64)]]) -> Result<Listed<Listed<BoxSum>>, Fail> {
    let mut all = Vec::new(alloc);
    for level in levels {
        let mut sums = Vec::new(alloc);
        for (base, sum) in *level {
            sums.push(BoxSum {
                base: *base,
                sum: *sum,
            })?;
        }
        all.push(Listed::from_vec(sums))?;
    }
    Ok(Listed::from_vec(all))
}

/// A step: its levels where the mesh is told, and by field the sums and what stands at the probes.
fn step(
    alloc: Global,
    levels: u8,
    mesh: Vec<LevelRows>,
    sums: Vec<Listed<Listed<BoxSum>>>,
    probes: &[&[Option<u32>]],
) -> Result<StepRows, Fail> {
    let mut all = Vec::new(alloc);
    for values in probes {
        all.push(Listed::from_vec(Vec::from_slice(alloc, *values)?))?;
    }
    Ok(StepRows {
        levels,
        mesh: Listed::from_vec(mesh),
        sums: Listed::from_vec(sums),
        probes: Listed::from_vec(all),
    })
}

fn rank(letters: u64, steps: Vec<StepRows>) -> RankRows {
    RankRows {
        steps: Listed::from_vec(steps),
        letters,
    }
}

/// Whether the rows give this text.
fn tells(alloc: Global, problem: &str, rows: &[RankRows], text: &str) -> Result<bool, Fail> {
    let Ok(problem) = read_problem(alloc, problem.as_bytes()) else {
        return Ok(false);
    };
    if rows.len() > 16 {
        return Ok(false);
    }
    if !is_countable(rows) {
        return Ok(false);
    }
    let told = report(alloc, &problem, rows)?;
    Ok(told.as_slice() == text.as_bytes())
}

/// Whether the rows give these lines on the last step.
fn sums_up(alloc: Global, problem: &str, rows: &[RankRows], text: &str) -> Result<bool, Fail> {
    let Ok(problem) = read_problem(alloc, problem.as_bytes()) else {
        return Ok(false);
    };
    if rows.len() > 16 {
        return Ok(false);
    }
    if !can_sum(&problem, rows) {
        return Ok(false);
    }
    let told = summary(alloc, &problem, 1, 8, rows)?;
    Ok(told.as_slice() == text.as_bytes())
}

/// Four cells on one rank, one step after the first.
fn four_cells(alloc: Global) -> Result<bool, Fail> {
    let four = plane(0, (0, 0), (1, 1))?;
    let mesh = vec![in alloc; level(alloc, &[four], &[four], &[], &[], &[outside(0, four, 12)])?]?;
    let first = vec![in alloc; field(alloc, &[&[(four, 26)]])?]?;
    let second = vec![in alloc; field(alloc, &[&[(four, 140)]])?]?;
    let begun = step(alloc, 1, mesh, first, &[&[Some(1)]])?;
    let next = step(alloc, 1, Vec::new(alloc), second, &[&[Some(24)]])?;
    let rows = vec![in alloc; rank(5, vec![in alloc; begun, next]?)]?;
    let problem =
        "format = 1\ndim = 2\ndomain = [2, 2]\nperiodic = [false, false]\nblock = [4, 4]\nghost = [1, 1]\nboundary = [9, \"reflect\"]\nmodulus = 1000\ninit = [1, 1, 10]\nupdate = [1, 1]\nsteps = 1\nprobe = [[0, 0, 0]]\n";
    let text =
        "samr ranks 1 levels 1 width 1 1 0\nstep 0\nlevel 0 boxes 1 cells 4\nbox 0 0 0 0 0 1 1 0\nedge 0 0 0 0 0 0 1 1 0 0 0 0 0 1 1 0 0 0 0\noutside 0 0 0 0 0 1 1 0 12\nsum 0 0 0 0 0 1 1 0 26\nprobe 0 1\nstep 1\nsum 0 0 0 0 0 1 1 0 140\nprobe 0 24\nend\n";
    tells(alloc, problem, rows.as_slice(), text)
}

/// The same cells with a second field.
fn two_fields(alloc: Global) -> Result<bool, Fail> {
    let four = plane(0, (0, 0), (1, 1))?;
    let mesh = vec![in alloc;
        level(
            alloc,
            &[four],
            &[four],
            &[],
            &[],
            &[outside(0, four, 12), outside(1, four, 4)]
        )?,
    ]?;
    let first = vec![in alloc;
        field(alloc, &[&[(four, 26)]])?,
        field(alloc, &[&[(four, 30)]])?,
    ]?;
    let second = vec![in alloc;
        field(alloc, &[&[(four, 140)]])?,
        field(alloc, &[&[(four, 60)]])?,
    ]?;
    let begun = step(alloc, 1, mesh, first, &[&[Some(1)], &[Some(7)]])?;
    let next = step(
        alloc,
        1,
        Vec::new(alloc),
        second,
        &[&[Some(24)], &[Some(14)]],
    )?;
    let rows = vec![in alloc; rank(5, vec![in alloc; begun, next]?)]?;
    let problem =
        "format = 1\ndim = 2\ndomain = [2, 2]\nperiodic = [false, false]\nblock = [4, 4]\nghost = [1, 1]\nboundary = [9, \"reflect\"]\nmodulus = 1000\ninit = [1, 1, 10]\nupdate = [1, 1]\nsteps = 1\nprobe = [[0, 0, 0]]\n[[field]]\nghost = [1, 0]\ninit = [7, 1, 0]\nupdate = [2, 0]\n";
    let text =
        "samr ranks 1 levels 1 width 1 1 0\nstep 0\nlevel 0 boxes 1 cells 4\nbox 0 0 0 0 0 1 1 0\nedge 0 0 0 0 0 0 1 1 0 0 0 0 0 1 1 0 0 0 0\noutside 0 0 0 0 0 1 1 0 12\nfoutside 1 0 0 0 0 0 1 1 0 4\nsum 0 0 0 0 0 1 1 0 26\nfsum 1 0 0 0 0 0 1 1 0 30\nprobe 0 1\nfprobe 1 0 7\nstep 1\nsum 0 0 0 0 0 1 1 0 140\nfsum 1 0 0 0 0 0 1 1 0 60\nprobe 0 24\nfprobe 1 0 14\nend\n";
    tells(alloc, problem, rows.as_slice(), text)
}

/// A step of the first of two ranks, which has level 0 whole and a box of level 1.
fn first_of_two(alloc: Global, sum: u64) -> Result<StepRows, Fail> {
    let base = plane(0, (0, 0), (7, 7))?;
    let east = plane(0, (8, 6), (9, 9))?;
    let west = plane(1, (6, 6), (7, 9))?;
    let lower = level(
        alloc,
        &[base],
        &[base],
        &[],
        &[east, west],
        &[outside(0, base, 36)],
    )?;
    let upper = level(
        alloc,
        &[east],
        &[east, west],
        &[base],
        &[],
        &[copy(east, west, 4)?, coarse(east, base, 12)?],
    )?;
    let sums = vec![in alloc; field(alloc, &[&[(base, sum)], &[(east, 256)]])?]?;
    step(
        alloc,
        2,
        vec![in alloc; lower, upper]?,
        sums,
        &[&[None, Some(28)]],
    )
}

/// The same step of the second, which has the other box of level 1 alone.
fn second_of_two(alloc: Global) -> Result<StepRows, Fail> {
    let base = plane(0, (0, 0), (7, 7))?;
    let east = plane(0, (8, 6), (9, 9))?;
    let west = plane(1, (6, 6), (7, 9))?;
    let lower = level(alloc, &[], &[], &[], &[], &[])?;
    let upper = level(
        alloc,
        &[west],
        &[east, west],
        &[base],
        &[],
        &[copy(west, east, 4)?, coarse(west, base, 12)?],
    )?;
    let sums = vec![in alloc; field(alloc, &[&[], &[(west, 248)]])?]?;
    step(
        alloc,
        2,
        vec![in alloc; lower, upper]?,
        sums,
        &[&[None, None]],
    )
}

/// Two levels on two ranks, whose mesh is made anew at each step; a probe lies in no box of its level.
fn two_levels(alloc: Global) -> Result<bool, Fail> {
    let first = rank(
        5,
        vec![in alloc; first_of_two(alloc, 2016)?, first_of_two(alloc, 2394)?]?,
    );
    let second = rank(
        5,
        vec![in alloc; second_of_two(alloc)?, second_of_two(alloc)?]?,
    );
    let rows = vec![in alloc; first, second]?;
    let problem =
        "format = 1\ndim = 2\ndomain = [8, 8]\nperiodic = [false, false]\nblock = [8, 8]\nghost = [1, 1]\nlevels = 2\nnest = [1, 1]\nsmallest = 1\nsteps = 1\nmodulus = 3000\ninit = [0, 1, 8]\ncoarsen = \"sum\"\nprobe = [[1, 0, 0], [1, 8, 6]]\n[[box]]\nlo = [6, 6]\nsize = [4, 4]\n";
    let mesh =
        "level 0 boxes 1 cells 64\nbox 0 0 0 0 0 7 7 0\nedge 0 0 0 0 0 0 7 7 0 0 0 0 0 7 7 0 0 0 0\nedge 0 1 0 0 0 0 7 7 0 0 8 6 0 9 9 0 0 0 0\nedge 0 1 0 0 0 0 7 7 0 1 6 6 0 7 9 0 0 0 0\noutside 0 0 0 0 0 7 7 0 36\nlevel 1 boxes 2 cells 16\nbox 1 0 8 6 0 9 9 0\nbox 1 1 6 6 0 7 9 0\nedge 1 1 0 8 6 0 9 9 0 0 8 6 0 9 9 0 0 0 0\nedge 1 1 0 8 6 0 9 9 0 1 6 6 0 7 9 0 0 0 0\nedge 1 1 1 6 6 0 7 9 0 0 8 6 0 9 9 0 0 0 0\nedge 1 1 1 6 6 0 7 9 0 1 6 6 0 7 9 0 0 0 0\nedge 1 0 0 8 6 0 9 9 0 0 0 0 0 7 7 0 0 0 0\nedge 1 0 1 6 6 0 7 9 0 0 0 0 0 7 7 0 0 0 0\ncopy 1 0 8 6 0 9 9 0 1 6 6 0 7 9 0 0 0 0 4\ncoarse 1 0 8 6 0 9 9 0 0 0 0 0 7 7 0 0 0 0 12\ncopy 1 1 6 6 0 7 9 0 0 8 6 0 9 9 0 0 0 0 4\ncoarse 1 1 6 6 0 7 9 0 0 0 0 0 7 7 0 0 0 0 12\n";
    let upper = "sum 1 0 8 6 0 9 9 0 256\nsum 1 1 6 6 0 7 9 0 248\nprobe 0 none\nprobe 1 28\n";
    let text = format!(in alloc;
        "samr ranks 2 levels 2 width 1 1 0\nstep 0\n{mesh}sum 0 0 0 0 0 7 7 0 2016\n{upper}step 1\n{mesh}sum 0 0 0 0 0 7 7 0 2394\n{upper}end\n"
    )?;
    tells(alloc, problem, rows.as_slice(), text.as_str())
}

/// The last of these steps in numbers: of 3 boxes, 64 + 16 cells and 1 + 2 + 4 + 2 edges, with the sum of all
/// values, 2394 + 256 + 248, reduced by the modulus.
fn last_of_two_levels(alloc: Global) -> Result<bool, Fail> {
    let first = rank(
        5,
        vec![in alloc; first_of_two(alloc, 2016)?, first_of_two(alloc, 2394)?]?,
    );
    let second = rank(
        7,
        vec![in alloc; second_of_two(alloc)?, second_of_two(alloc)?]?,
    );
    let rows = vec![in alloc; first, second]?;
    let problem =
        "format = 1\ndim = 2\ndomain = [8, 8]\nperiodic = [false, false]\nblock = [8, 8]\nghost = [1, 1]\nlevels = 2\nnest = [1, 1]\nsmallest = 1\nsteps = 1\nmodulus = 1000\n";
    let text =
        "load ranks 2 seed 1 size 8\nfinal levels 2 boxes 3 cells 80 edges 9\nletters 12 values 898\n";
    sums_up(alloc, problem, rows.as_slice(), text)
}

/// A domain of two parts on two ranks.
fn two_parts(alloc: Global) -> Result<bool, Fail> {
    let low = plane(0, (0, 0), (3, 3))?;
    let high = plane(0, (0, 4), (3, 7))?;
    let east = plane(1, (4, 0), (7, 3))?;
    let schedule = [
        copy(low, high, 4)?,
        copy(low, east, 4)?,
        outside(0, low, 12),
        copy(high, low, 4)?,
        copy(high, east, 1)?,
        outside(0, high, 15),
    ];
    let of_first = level(alloc, &[low, high], &[low, high, east], &[], &[], &schedule)?;
    let of_second = level(
        alloc,
        &[east],
        &[low, high, east],
        &[],
        &[],
        &[
            copy(east, low, 4)?,
            copy(east, high, 1)?,
            outside(0, east, 15),
        ],
    )?;
    let first = step(
        alloc,
        1,
        vec![in alloc; of_first]?,
        vec![in alloc; field(alloc, &[&[(low, 0), (high, 0)]])?]?,
        &[],
    )?;
    let second = step(
        alloc,
        1,
        vec![in alloc; of_second]?,
        vec![in alloc; field(alloc, &[&[(east, 0)]])?]?,
        &[],
    )?;
    let rows = vec![in alloc;
        rank(5, vec![in alloc; first]?),
        rank(5, vec![in alloc; second]?),
    ]?;
    let problem =
        "format = 2\ndim = 2\ndomain = [8, 8]\nperiodic = [false, false]\nblock = [4, 4]\nghost = [1, 1]\nboundary = [9, 9]\n[[part]]\nlo = [0, 0]\nhi = [3, 7]\n[[part]]\nlo = [4, 0]\nhi = [7, 3]\n";
    let text =
        "samr ranks 2 levels 1 width 1 1 0\nstep 0\nlevel 0 boxes 3 cells 48\nbox 0 0 0 0 0 3 3 0\nbox 0 0 0 4 0 3 7 0\nbox 0 1 4 0 0 7 3 0\nedge 0 0 0 0 0 0 3 3 0 0 0 0 0 3 3 0 0 0 0\nedge 0 0 0 0 0 0 3 3 0 0 0 4 0 3 7 0 0 0 0\nedge 0 0 0 0 0 0 3 3 0 1 4 0 0 7 3 0 0 0 0\nedge 0 0 0 0 4 0 3 7 0 0 0 0 0 3 3 0 0 0 0\nedge 0 0 0 0 4 0 3 7 0 0 0 4 0 3 7 0 0 0 0\nedge 0 0 0 0 4 0 3 7 0 1 4 0 0 7 3 0 0 0 0\nedge 0 0 1 4 0 0 7 3 0 0 0 0 0 3 3 0 0 0 0\nedge 0 0 1 4 0 0 7 3 0 0 0 4 0 3 7 0 0 0 0\nedge 0 0 1 4 0 0 7 3 0 1 4 0 0 7 3 0 0 0 0\ncopy 0 0 0 0 0 3 3 0 0 0 4 0 3 7 0 0 0 0 4\ncopy 0 0 0 0 0 3 3 0 1 4 0 0 7 3 0 0 0 0 4\noutside 0 0 0 0 0 3 3 0 12\ncopy 0 0 0 4 0 3 7 0 0 0 0 0 3 3 0 0 0 0 4\ncopy 0 0 0 4 0 3 7 0 1 4 0 0 7 3 0 0 0 0 1\noutside 0 0 0 4 0 3 7 0 15\ncopy 0 1 4 0 0 7 3 0 0 0 0 0 3 3 0 0 0 0 4\ncopy 0 1 4 0 0 7 3 0 0 0 4 0 3 7 0 0 0 0 1\noutside 0 1 4 0 0 7 3 0 15\nsum 0 0 0 0 0 3 3 0 0\nsum 0 0 0 4 0 3 7 0 0\nsum 0 1 4 0 0 7 3 0 0\nend\n";
    tells(alloc, problem, rows.as_slice(), text)
}

#[test]
fn rows_of_all_ranks_give_the_whole_text(rt: HostRuntime) -> Result<(), Fail> {
    assert!(rt; four_cells(rt.alloc())?, "one rank, two steps");
    assert!(rt; two_fields(rt.alloc())?, "two fields");
    assert!(rt; two_levels(rt.alloc())?, "two levels on two ranks");
    assert!(rt; two_parts(rt.alloc())?, "two parts on two ranks");
    Ok(())
}

#[test]
fn the_last_step_is_told_in_numbers(rt: HostRuntime) -> Result<(), Fail> {
    assert!(rt; last_of_two_levels(rt.alloc())?);
    Ok(())
}

#[test]
fn rows_of_too_many_cells_are_not_countable(rt: HostRuntime) -> Result<(), Fail> {
    let alloc = rt.alloc();
    let far = 1 << 30;
    let bx = IBox::new(IVec::alike(-far + 1), IVec::alike(far)).ok_or("no box")?;
    let huge = BoxRef { owner: 0, bx };
    let mesh = vec![in alloc; level(alloc, &[huge], &[], &[], &[], &[])?]?;
    let begun = step(alloc, 1, mesh, Vec::new(alloc), &[])?;
    let rows = vec![in alloc; rank(5, vec![in alloc; begun]?)]?;
    assert!(rt; !is_countable(rows.as_slice()));
    Ok(())
}
