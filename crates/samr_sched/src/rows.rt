//! The rows of plans.

ghost use Rattle.std.specs.Prelude.{◌≡◌, ℕ, ◌*◌, ◌<◌, ◌^◌, IfOk, length, sum_by, map, filter};
ghost use Rattle.std.specs.List.{All, flat_map, enumerate_from};
ghost use Rattle.samr_box.specs.Corners.{IsBox, grown, met, cells_of};
ghost use Rattle.samr_box.specs.Ratios.{refined};
ghost use Rattle.samr_level.specs.RefOrders.{edge_cmp, in_order};
ghost use Rattle.samr_sched.specs.declared.row.Row.TheVariants.{Copy, Coarse, Outside};
ghost use Rattle.samr_sched.specs.Ask.{Scheduling, IsScheduling};
ghost use Rattle.samr_sched.specs.Plans.{plan_of};
ghost use Rattle.samr_sched.specs.PlanRows.{rows_of, cells_in, has_cells, capped, size_of, in_image, under_asked, under_image, asked_edges, copy_by, coarse_by, outside_by, field_rows_by, box_rows_by, rows_by, HasRoom, HaveRoom};

use crate::asking::in_head;
use crate::plan::{BoxPlan, FieldPlan, Plan, Request};
use crate::row::Row;
use samr_box::{Axis, Domain, IBox, IVec, Ratio, Shift, coarsen, grow};
use samr_level::{BoxRef, Edge};
use std::alloc::{AllocError as NoMemory, Global};

/// The product of three numbers, up to the greatest number.
fn product(i: u64, j: u64, k: u64) -> u64
    ensures { result ≡ capped (i * j * k) }
{
    let layer = i.saturating_mul(j);
    layer.saturating_mul(k)
}

/// The cells of a box, up to the greatest number.
fn cells_of(b: IBox) -> u64
    ensures { result ≡ capped (cells_of b) }
{
    product(b.length(Axis::I), b.length(Axis::J), b.length(Axis::K))
}

/// The cells of a box, if there is one.
fn size_of(b: Option<IBox>) -> u64
    ensures { result ≡ capped (size_of b) }
{
    match b {
        Some(b) => cells_of(b),
        None => 0,
    }
}

/// The cells of a wide box in the image of an edge's head.
fn in_image(d: &Domain, wide: IBox, e: Edge) -> u64
    ensures { result ≡ capped (in_image d.now wide e) }
{
    size_of(in_head(d, e, wide))
}

/// The part of a box that lies in a coarse box, if there is one.
fn part_under(p: IBox, over: IBox, r: Ratio) -> Option<IBox>
    ensures { result ≡ met p (refined over r) }
{
    let factors = r.factors();
    let lo = over.lo.times(factors);
    let hi = over.hi.times(factors).plus(factors.minus(IVec::alike(1)));
    if !p.lo.at_most(hi) {
        return None;
    }
    if !lo.at_most(p.hi) {
        return None;
    }
    Some(IBox {
        lo: p.lo.greatest(lo),
        hi: p.hi.least(hi),
    })
}

/// The cells of a piece of the rest under cells that are asked for.
fn under_asked(step: Ratio, p: IBox, c: Option<IBox>) -> u64
    ensures { result ≡ capped (under_asked step p c) }
{
    match c {
        Some(c) => size_of(part_under(p, c, step)),
        None => 0,
    }
}

/// The cells of a piece of the rest under the image of an edge's head.
fn under_image(below: &Domain, step: Ratio, e: Edge, p: IBox) -> u64
    ensures { result ≡ capped (under_image below.now step e p) }
{
    under_asked(step, p, in_head(below, e, coarsen(p, step)))
}

/// The cells of all pieces of the rest under the image of an edge's head.
#[tactic(auto, using(crate::proofs::Counted::sum_step))]
fn all_under(below: &Domain, step: Ratio, e: Edge, rest: &[IBox]) -> u64
    ensures { result ≡ capped (sum_by (λ p. under_image below.now step e p) rest.now) }
{
    let mut cells = 0u64;
    for p in rest {
        cells = cells.saturating_add(under_image(below, step, e, *p));
    }
    cells
}

/// The cells of all boxes of a list.
#[tactic(auto, using(crate::proofs::Counted::sum_step))]
fn all_cells(boxes: &[IBox]) -> u64
    ensures { result ≡ capped (sum_by (λ p. cells_of p) boxes.now) }
{
    let mut cells = 0u64;
    for p in boxes {
        cells = cells.saturating_add(cells_of(*p));
    }
    cells
}

fn copied(field: u8, base: BoxRef, head: BoxRef, shift: Shift, cells: u64) -> Row
    ensures { result ≡ Copy field base head shift cells }
{
    Row::Copy {
        field,
        base,
        head,
        shift,
        cells,
    }
}

fn coarser(field: u8, base: BoxRef, head: BoxRef, shift: Shift, cells: u64) -> Row
    ensures { result ≡ Coarse field base head shift cells }
{
    Row::Coarse {
        field,
        base,
        head,
        shift,
        cells,
    }
}

/// How many cells are copied along an edge.
fn copy_row(d: &Domain, field: u8, base: BoxRef, wide: IBox, e: Edge) -> Row
    ensures { result ≡ copy_by d.now field base wide e }
{
    copied(field, base, e.head, e.shift, in_image(d, wide, e))
}

/// How many lie under the image of the head of an edge to the level below.
fn coarse_row(below: &Domain, step: Ratio, field: u8, base: BoxRef, rest: &[IBox], e: Edge) -> Row
    ensures { result ≡ coarse_by below.now step field base rest.now e }
{
    coarser(
        field,
        base,
        e.head,
        e.shift,
        all_under(below, step, e, rest),
    )
}

/// How many lie beyond the borders.
fn outside_row(field: u8, base: BoxRef, wide: IBox, inside: &[IBox]) -> Row
    ensures { result ≡ outside_by field base wide inside.now }
{
    let cells = cells_of(wide).saturating_sub(all_cells(inside));
    Row::Outside { field, base, cells }
}

/// The rows of the copies of a box.
fn copy_rows(
    alloc: Global,
    d: &Domain,
    field: u8,
    base: BoxRef,
    wide: IBox,
    copies: &[Edge],
) -> Result<Vec<Row>, NoMemory>
    ensures { IfOk result (λ v. v.items ≡ map (λ e. copy_by d.now field base wide e) copies.now) }
{
    let mut rows = Vec::new(alloc);
    for e in copies {
        rows.push(copy_row(d, field, base, wide, *e))?;
    }
    Ok(rows)
}

fn edge_of(q: Request) -> Edge
    ensures { result ≡ q.edge }
{
    q.edge
}

/// The edges of requests, one after another.
fn edges_of(alloc: Global, asked: &[Request]) -> Result<Vec<Edge>, NoMemory>
    ensures { IfOk result (λ v. v.items ≡ map (λ q. q.edge) asked.now) }
{
    let mut edges = Vec::new(alloc);
    for q in asked {
        edges.push(edge_of(*q))?;
    }
    Ok(edges)
}

/// Edges in order, each once.
fn each_once(mut edges: Vec<Edge>) -> Vec<Edge>
    ensures { result.items ≡ in_order edge_cmp edges.items }
{
    edges.sort_unstable();
    edges.dedup();
    edges
}

/// The edges along which a plan asks.
#[tactic(auto, unfolding(crate::specs::PlanRows::asked_edges))]
fn asked_edges(alloc: Global, asked: &[Request]) -> Result<Vec<Edge>, NoMemory>
    ensures { IfOk result (λ v. v.items ≡ asked_edges asked.now) }
{
    let edges = edges_of(alloc, asked)?;
    Ok(each_once(edges))
}

/// The rows of the edges of a box to the level below.
fn coarse_rows(
    alloc: Global,
    below: &Domain,
    step: Ratio,
    field: u8,
    base: BoxRef,
    rest: &[IBox],
    edges: &[Edge],
) -> Result<Vec<Row>, NoMemory>
    ensures { IfOk result (λ v. v.items ≡ map (λ e. coarse_by below.now step field base rest.now e) edges.now) }
{
    let mut rows = Vec::new(alloc);
    for e in edges {
        rows.push(coarse_row(below, step, field, base, rest, *e))?;
    }
    Ok(rows)
}

fn cells_in(row: Row) -> u64
    ensures { result ≡ cells_in row }
{
    match row {
        Row::Copy { cells, .. } => cells,
        Row::Coarse { cells, .. } => cells,
        Row::Outside { cells, .. } => cells,
    }
}

fn has_cells(row: Row) -> bool
    ensures { result ≡ has_cells row }
{
    cells_in(row) != 0
}

/// The rows that have cells.
fn with_cells(alloc: Global, rows: &[Row]) -> Result<Vec<Row>, NoMemory>
    ensures { IfOk result (λ v. v.items ≡ filter (λ row. has_cells row) rows.now) }
{
    let mut kept = Vec::new(alloc);
    for row in rows {
        if has_cells(*row) {
            kept.push(*row)?;
        }
    }
    Ok(kept)
}

/// The rows of a field of a box.
#[tactic(auto, unfolding(crate::specs::PlanRows::field_rows_by))]
fn field_rows(
    alloc: Global,
    frame: &Domain,
    below: &Domain,
    step: Ratio,
    base: BoxRef,
    field: u8,
    p: &FieldPlan,
) -> Result<Vec<Row>, NoMemory>
    requires { IsBox (grown base.bx p.now.width) }
    ensures { IfOk result (λ v. v.items ≡ field_rows_by frame.now below.now step base field p.now) }
{
    let wide = grow(base.bx, p.width);
    let mut rows = copy_rows(alloc, frame, field, base, wide, p.copies.as_slice())?;
    let edges = asked_edges(alloc, p.asked.as_slice())?;
    let coarse = coarse_rows(
        alloc,
        below,
        step,
        field,
        base,
        p.rest.as_slice(),
        edges.as_slice(),
    )?;
    rows.extend_from_slice(coarse.as_slice())?;
    rows.push(outside_row(field, base, wide, p.inside.as_slice()))?;
    let kept = with_cells(alloc, rows.as_slice())?;
    Ok(kept)
}

/// The rows of a box.
#[tactic(auto, unfolding(crate::specs::PlanRows::box_rows_by))]
fn box_rows(
    alloc: Global,
    frame: &Domain,
    below: &Domain,
    step: Ratio,
    b: &BoxPlan,
) -> Result<Vec<Row>, NoMemory>
    requires { HasRoom b.now }
    ensures { IfOk result (λ v. v.items ≡ box_rows_by frame.now below.now step b.now) }
{
    let rows = rows_of_fields(alloc, frame, below, step, b.base, b.fields.as_slice())?;
    Ok(rows)
}

/// The rows of the fields of a box.
#[tactic(auto, using(crate::proofs::Counted::numbered_flat))]
fn rows_of_fields(
    alloc: Global,
    frame: &Domain,
    below: &Domain,
    step: Ratio,
    base: BoxRef,
    fields: &[FieldPlan],
) -> Result<Vec<Row>, NoMemory>
    requires few { length fields.now < 2 ^ 8 }
    requires room { All (λ p. IsBox (grown base.bx p.width)) fields.now }
    ensures { IfOk result (λ v. v.items ≡ flat_map (λ f. field_rows_by frame.now below.now step base f.0 f.1) (enumerate_from 0 fields.now)) }
{
    let mut rows = Vec::new(alloc);
    for (field, p) in fields.iter().enumerate() {
        let some = field_rows(alloc, frame, below, step, base, field as u8, p)?;
        rows.extend_from_slice(some.as_slice())?;
    }
    Ok(rows)
}

/// The rows of boxes that can be grown.
fn rows_of_boxes(
    alloc: Global,
    frame: &Domain,
    below: &Domain,
    step: Ratio,
    boxes: &[BoxPlan],
) -> Result<Vec<Row>, NoMemory>
    requires { HaveRoom boxes.now }
    ensures { IfOk result (λ v. v.items ≡ flat_map (λ b. box_rows_by frame.now below.now step b) boxes.now) }
{
    let mut rows = Vec::new(alloc);
    for b in boxes {
        let some = box_rows(alloc, frame, below, step, b)?;
        rows.extend_from_slice(some.as_slice())?;
    }
    Ok(rows)
}

/// The rows of a plan whose boxes can be grown.
#[tactic(auto, unfolding(crate::specs::PlanRows::rows_by))]
pub fn all_rows(alloc: Global, plan: &Plan) -> Result<Vec<Row>, NoMemory>
    requires { HaveRoom plan.now.boxes }
    ensures { IfOk result (λ v. v.items ≡ rows_by plan.now) }
{
    let rows = rows_of_boxes(
        alloc,
        &plan.frame,
        &plan.below,
        plan.step,
        plan.boxes.as_slice(),
    )?;
    Ok(rows)
}

/// How many ghost cells of each box of a plan have which origin: box by box and field by field, first the copies and
/// then the coarse cells in edge order, and at last those beyond the borders. Origins without cells are left out. There
/// are fewer than 256 fields.
///
/// # Errors
///
/// Where memory is short.
pub fn plan_rows(alloc: Global, plan: &Plan) -> Result<Vec<Row>, NoMemory>
    requires { (w : Scheduling) × (r : ℕ) × IsScheduling w × (length w.ghosts < 2 ^ 8) × (plan.now ≡ plan_of w r) }
    ensures { IfOk result (λ v. (w : Scheduling) (r : ℕ) → IsScheduling w → plan.now ≡ plan_of w r → v.items ≡ rows_of w r) }
{
    let rows = all_rows(alloc, plan)?;
    Ok(rows)
}
