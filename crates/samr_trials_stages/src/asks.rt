//! Schedules on all ranks: two levels and a domain of parts by hand, and drawn levels by a look at all boxes at all shifts.

use crate::levels::{ALONG_I_AND_J, NO_AXIS, blocks, domain, drawn, owned, ratio};
use crate::planned::{asked_alone, asked_over};
use samr_box::{Domain, IBox, IVec, Ratio, Shift, coarsen_cell, contains};
use samr_level::{BoxRef, Edge, Region};
use samr_sched::{BoxPlan, FieldPlan, Origin, Plan, Request};
use std::alloc::{AllocError as NoMemory, Global};
use std::process::Abort;
use std::test::Fail;

/// Whether the image of a box has a cell.
fn has(d: &Domain, b: IBox, s: Shift, x: IVec) -> bool {
    let y = IVec::new(
        x.i.saturating_sub(i64::from(s.i).saturating_mul(d.size.i)),
        x.j.saturating_sub(i64::from(s.j).saturating_mul(d.size.j)),
        x.k.saturating_sub(i64::from(s.k).saturating_mul(d.size.k)),
    );
    contains(b, y)
}

fn any_has(boxes: &[IBox], x: IVec) -> bool {
    boxes.iter().any(|b| contains(*b, x))
}

/// Whether a shift moves along periodic axes alone.
fn may_move(d: &Domain, s: Shift) -> bool {
    (d.periodic.k || s.k == 0) && (d.periodic.j || s.j == 0) && (d.periodic.i || s.i == 0)
}

/// All boxes of a level and shifts by which an image has a cell.
fn all_having(
    alloc: Global,
    d: &Domain,
    level: &[BoxRef],
    x: IVec,
) -> Result<Vec<(BoxRef, Shift)>, NoMemory> {
    let mut found = Vec::new(alloc);
    for b in level {
        for place in 0..27i8 {
            if let Some(s) = Shift::new(place % 3 - 1, place / 3 % 3 - 1, place / 9 - 1) {
                if may_move(d, s) && has(d, b.bx, s, x) {
                    found.push((*b, s))?;
                }
            }
        }
    }
    Ok(found)
}

/// A level with its domain, and the one below it.
#[derive(Drop)]
struct Mesh {
    domain: Region,
    level: Vec<BoxRef>,
    below: Domain,
    coarser: Vec<BoxRef>,
    step: Ratio,
}

/// The origins of a ghost cell by a look at all boxes at all shifts.
fn slow_origins(alloc: Global, mesh: &Mesh, x: IVec) -> Result<Vec<Origin>, NoMemory> {
    let mut origins = Vec::new(alloc);
    if !mesh.domain.inside(x) {
        origins.push(Origin::Outside)?;
        return Ok(origins);
    }
    let copies = all_having(alloc, mesh.domain.frame(), mesh.level.as_slice(), x)?;
    for copy in copies.as_slice() {
        origins.push(Origin::Copy(copy.0, copy.1))?;
    }
    if copies.len() == 0 {
        let over = coarsen_cell(x, mesh.step);
        let coarse = all_having(alloc, &mesh.below, mesh.coarser.as_slice(), over)?;
        for c in coarse.as_slice() {
            origins.push(Origin::Coarse(c.0, c.1))?;
        }
    }
    Ok(origins)
}

/// Whether a request is the first along its edge.
fn is_first(asked: &[Request], place: usize) -> bool {
    match (asked.get(place), asked.get(place.wrapping_sub(1))) {
        (Some(one), Some(before)) => one.edge != before.edge,
        _ => true,
    }
}

/// Whether the image of an edge's head has a cell.
fn head_has(d: &Domain, e: Edge, x: IVec) -> bool {
    has(d, e.head.bx, e.shift, x)
}

fn copy_of(e: Edge) -> Origin {
    Origin::Copy(e.head, e.shift)
}

fn coarse_of(e: Edge) -> Origin {
    Origin::Coarse(e.head, e.shift)
}

/// The origins of a ghost cell by its plan.
fn plan_origins(
    alloc: Global,
    plan: &Plan,
    field: &FieldPlan,
    x: IVec,
) -> Result<Vec<Origin>, NoMemory> {
    let mut origins = Vec::new(alloc);
    if !any_has(field.inside.as_slice(), x) {
        origins.push(Origin::Outside)?;
        return Ok(origins);
    }
    for e in field.copies.as_slice() {
        if head_has(&plan.frame, *e, x) {
            origins.push(copy_of(*e))?;
        }
    }
    if any_has(field.rest.as_slice(), x) {
        let over = coarsen_cell(x, plan.step);
        let asked = field.asked.as_slice();
        for place in 0..asked.len() {
            if let Some(q) = asked.get(place) {
                if is_first(asked, place) && head_has(&plan.below, q.edge, over) {
                    origins.push(coarse_of(q.edge))?;
                }
            }
        }
    }
    Ok(origins)
}

/// The ghost cells of a box.
fn ghost_cells(alloc: Global, b: IBox, width: IVec) -> Result<Vec<IVec>, NoMemory> {
    let mut cells = Vec::new(alloc);
    for k in b.lo.k.saturating_sub(width.k)..b.hi.k.saturating_add(width.k).saturating_add(1) {
        for j in b.lo.j.saturating_sub(width.j)..b.hi.j.saturating_add(width.j).saturating_add(1) {
            for i in b.lo.i.saturating_sub(width.i)..b
                .hi
                .i
                .saturating_add(width.i)
                .saturating_add(1)
            {
                let x = IVec::new(i, j, k);
                if !contains(b, x) {
                    cells.push(x)?;
                }
            }
        }
    }
    Ok(cells)
}

/// How many ghost cells of a box have an origin by its plan.
fn count(
    alloc: Global,
    plan: &Plan,
    b: &BoxPlan,
    field: &FieldPlan,
    origin: Origin,
) -> Result<usize, NoMemory> {
    let mut found = 0usize;
    for x in ghost_cells(alloc, b.base.bx, field.width)?.as_slice() {
        let origins = plan_origins(alloc, plan, field, *x)?;
        if origins.iter().any(|o| *o == origin) {
            found = found.saturating_add(1);
        }
    }
    Ok(found)
}

/// Whether plans tell of each ghost cell what the slow program says, and how many cells they are.
fn same_origins(alloc: Global, mesh: &Mesh, plans: &[Plan]) -> Result<Option<usize>, NoMemory> {
    let mut cells = 0usize;
    for plan in plans {
        for b in plan.boxes.as_slice() {
            for field in b.fields.as_slice() {
                for x in ghost_cells(alloc, b.base.bx, field.width)?.as_slice() {
                    let told = plan_origins(alloc, plan, field, *x)?;
                    let wanted = slow_origins(alloc, mesh, *x)?;
                    if told.as_slice() != wanted.as_slice() {
                        return Ok(None);
                    }
                    cells = cells.saturating_add(1);
                }
            }
        }
    }
    Ok(Some(cells))
}

/// Whether a rank's plan asks for this.
fn asks(plan: &Plan, q: Request) -> bool {
    plan.boxes.as_slice().iter().any(|b| {
        b.fields
            .as_slice()
            .iter()
            .any(|f| f.asked.as_slice().iter().any(|p| *p == q))
    })
}

/// How many requests for a rank a plan has.
fn requests_for(plan: &Plan, rank: u16) -> usize {
    let mut found = 0usize;
    for b in plan.boxes.as_slice() {
        for f in b.fields.as_slice() {
            for q in f.asked.as_slice() {
                if q.edge.head.owner == rank {
                    found = found.saturating_add(1);
                }
            }
        }
    }
    found
}

/// Whether each rank knows exactly what each other asks of it.
fn know_others(plans: &[Plan]) -> bool {
    for plan in plans {
        let mut known = 0usize;
        for other in plan.others.as_slice() {
            let Some(asker) = plans.get(usize::from(other.rank)) else {
                return false;
            };
            for q in other.requests.as_slice() {
                if q.edge.head.owner != plan.rank || !asks(asker, *q) {
                    return false;
                }
                known = known.saturating_add(1);
            }
        }
        let mut wanted = 0usize;
        for asker in plans {
            if asker.rank != plan.rank {
                wanted = wanted.saturating_add(requests_for(asker, plan.rank));
            }
        }
        if known != wanted {
            return false;
        }
    }
    true
}

const NO_SHIFT: Shift = Shift { k: 0, j: 0, i: 0 };

/// The plan of the field of the box, which a rank has, and how many of its cells have an origin.
fn counted(
    alloc: Global,
    plans: &[Plan],
    base: BoxRef,
    origin: Origin,
) -> Result<Option<usize>, NoMemory> {
    for plan in plans {
        for b in plan.boxes.as_slice() {
            if b.base == base {
                if let Some(field) = b.fields.as_slice().first() {
                    return Ok(Some(count(alloc, plan, b, field, origin)?));
                }
            }
        }
    }
    Ok(None)
}

/// Whether so many cells of a box have each of these origins.
fn has_rows(
    alloc: Global,
    plans: &[Plan],
    base: BoxRef,
    rows: &[(Origin, usize)],
) -> Result<bool, NoMemory> {
    for row in rows {
        if counted(alloc, plans, base, row.0)? != Some(row.1) {
            return Ok(false);
        }
    }
    Ok(true)
}

/// A copy of a box where it lies, and coarse cells of one.
fn copied(b: BoxRef) -> Origin {
    Origin::Copy(b, NO_SHIFT)
}

fn coarsened(b: BoxRef) -> Origin {
    Origin::Coarse(b, NO_SHIFT)
}

/// The plans of one box of level 0, and of two boxes above it, on two ranks.
fn two_levels(
    rt: &impl Abort,
    alloc: Global,
    bottom: BoxRef,
    above: &[BoxRef],
) -> Result<(Vec<Plan>, Vec<Plan>), NoMemory> {
    let region = Region::whole(alloc, domain(rt, IVec::new(8, 8, 1), NO_AXIS));
    let rim = IVec::new(1, 1, 0);
    let level0 = Vec::from_slice(alloc, [bottom].as_slice())?;
    let alone = asked_alone(
        alloc,
        2,
        &region,
        level0,
        rim,
        [rim].as_slice(),
        [].as_slice(),
    )?;
    let over = asked_over(
        alloc,
        2,
        &region,
        Vec::from_slice(alloc, above)?,
        ratio(rt, 2, 2, 1),
        ratio(rt, 1, 1, 1),
        Vec::from_slice(alloc, [bottom].as_slice())?,
        rim,
        rim,
        [rim].as_slice(),
    )?;
    Ok((alone.expect(rt, "fit"), over.expect(rt, "fit")))
}

#[test]
fn two_levels_on_two_ranks(rt: HostRuntime) -> Result<(), Fail> {
    let alloc = rt.alloc();
    let bottom = owned(&rt, 0, IVec::new(0, 0, 0), IVec::new(7, 7, 0));
    let left = owned(&rt, 1, IVec::new(6, 6, 0), IVec::new(7, 9, 0));
    let right = owned(&rt, 0, IVec::new(8, 6, 0), IVec::new(9, 9, 0));
    let plans = two_levels(&rt, alloc, bottom, [right, left].as_slice())?;
    let alone = [(Origin::Outside, 36)];
    assert!(rt; has_rows(alloc, plans.0.as_slice(), bottom, alone.as_slice())?);
    let of_left = [
        (copied(right), 4),
        (coarsened(bottom), 12),
        (Origin::Outside, 0),
    ];
    assert!(rt; has_rows(alloc, plans.1.as_slice(), left, of_left.as_slice())?);
    let of_right = [
        (copied(left), 4),
        (coarsened(bottom), 12),
        (Origin::Outside, 0),
    ];
    assert!(rt; has_rows(alloc, plans.1.as_slice(), right, of_right.as_slice())?);
    assert!(rt; know_others(plans.1.as_slice()));
    Ok(())
}

/// The plans of three boxes on two parts of a domain, on two ranks.
fn in_parts(
    rt: &impl Abort,
    alloc: Global,
    boxes: &[BoxRef],
    low: IBox,
    high: IBox,
) -> Result<Vec<Plan>, NoMemory> {
    let d = domain(rt, IVec::new(8, 8, 1), NO_AXIS);
    let parts = Vec::from_slice(alloc, [low, high].as_slice())?;
    let region = Region::new(d, parts).expect(rt, "a region");
    let rim = IVec::new(1, 1, 0);
    let boxes = Vec::from_slice(alloc, boxes)?;
    let made = asked_alone(
        alloc,
        2,
        &region,
        boxes,
        rim,
        [rim].as_slice(),
        [9].as_slice(),
    )?;
    Ok(made.expect(rt, "fit"))
}

/// Whether copies of plans have as many boxes, and the fixed value.
fn same_copies(alloc: Global, plans: &[Plan]) -> Result<bool, NoMemory> {
    for plan in plans {
        let again = plan.copied(alloc)?;
        if again.boxes.as_slice().len() != plan.boxes.as_slice().len() {
            return Ok(false);
        }
        if again.fixed.as_slice() != [9].as_slice() {
            return Ok(false);
        }
    }
    Ok(true)
}

#[test]
fn three_boxes_on_two_parts(rt: HostRuntime) -> Result<(), Fail> {
    let alloc = rt.alloc();
    let first = owned(&rt, 0, IVec::new(0, 0, 0), IVec::new(3, 3, 0));
    let second = owned(&rt, 0, IVec::new(0, 4, 0), IVec::new(3, 7, 0));
    let third = owned(&rt, 1, IVec::new(4, 0, 0), IVec::new(7, 3, 0));
    let tall = owned(&rt, 0, IVec::new(0, 0, 0), IVec::new(3, 7, 0));
    let plans = in_parts(
        &rt,
        alloc,
        [first, second, third].as_slice(),
        tall.bx,
        third.bx,
    )?;
    let plans = plans.as_slice();
    let of_first = [
        (copied(second), 4),
        (copied(third), 4),
        (Origin::Outside, 12),
    ];
    assert!(rt; has_rows(alloc, plans, first, of_first.as_slice())?);
    let of_second = [
        (copied(first), 4),
        (copied(third), 1),
        (Origin::Outside, 15),
    ];
    assert!(rt; has_rows(alloc, plans, second, of_second.as_slice())?);
    let of_third = [
        (copied(first), 4),
        (copied(second), 1),
        (Origin::Outside, 15),
    ];
    assert!(rt; has_rows(alloc, plans, third, of_third.as_slice())?);
    assert!(rt; same_copies(alloc, plans)?);
    Ok(())
}

/// A drawn level over drawn blocks of level 0, on so many ranks.
fn draw(
    rt: &impl Abort,
    alloc: Global,
    ranks: u16,
    seed: u32,
    step: Ratio,
    ghosts: &[IVec],
) -> Result<bool, NoMemory> {
    let d = domain(rt, IVec::new(8, 4, 1), ALONG_I_AND_J);
    let region = Region::whole(alloc, d);
    let one = ratio(rt, 1, 1, 1);
    let size = IVec::new(2, 2, 1);
    let under = blocks(rt, alloc, ranks, seed, seed >> 3 | 0b1001_0110, size, one)?;
    let level = blocks(
        rt,
        alloc,
        ranks,
        seed ^ 5,
        seed >> 9 | 0b0100_0001,
        size,
        step,
    )?;
    let fine = domain(
        rt,
        IVec::new(step.i.saturating_mul(8), step.j.saturating_mul(4), step.k),
        ALONG_I_AND_J,
    );
    let made = asked_over(
        alloc,
        ranks,
        &region,
        Vec::from_slice(alloc, level.boxes.as_slice())?,
        step,
        one,
        Vec::from_slice(alloc, under.boxes.as_slice())?,
        IVec::new(3, 3, 1),
        IVec::new(2, 2, 1),
        ghosts,
    )?;
    let plans = made.expect(rt, "fit");
    let mesh = Mesh {
        domain: Region::whole(alloc, fine),
        level: level.boxes,
        below: d,
        coarser: under.boxes,
        step,
    };
    let same = same_origins(alloc, &mesh, plans.as_slice())?;
    Ok(same.unwrap_or(0) > 40 && know_others(plans.as_slice()))
}

#[test]
fn drawn_levels_on_one_to_five_ranks(rt: HostRuntime) -> Result<(), Fail> {
    let alloc = rt.alloc();
    let narrow = IVec::new(1, 1, 0);
    let wide = IVec::new(3, 2, 1);
    for ranks in 1..6u16 {
        let seed = drawn(47, u32::from(ranks));
        let step = ratio(&rt, 2, 2, 1);
        assert!(rt; draw(&rt, alloc, ranks, seed, step, [narrow].as_slice())?);
        let step = ratio(&rt, 2, 3, 1);
        assert!(rt;
            draw(
                &rt,
                alloc,
                ranks,
                seed >> 1,
                step,
                [wide, narrow].as_slice()
            )?
        );
    }
    Ok(())
}
