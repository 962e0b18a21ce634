//! The plans of boxes, from their edges.

ghost use Rattle.std.specs.Prelude.{◌≡◌, ◌<◌, ◌^◌, ◌&&◌, IfOk, length, map, filter, not};
ghost use Rattle.std.specs.List.{All, enumerate_from};
ghost use Rattle.std.specs.Ordering.{is_eq};
ghost use Rattle.samr_box.specs.Corners.{IsBox, meets, grown};
ghost use Rattle.samr_box.specs.Space.{image};
ghost use Rattle.samr_level.specs.RefOrders.{ref_cmp};
ghost use Rattle.samr_sched.specs.PlansOfParts.{edges_at, has_ghosts, field_by, plan_by};

use crate::asking::asked;
use crate::plan::{BoxPlan, FieldPlan};
use samr_box::{Domain, IBox, IVec, Listed, Ratio, Shift, grow, images_meet};
use samr_level::{BoxRef, Edge, Region};
use samr_nest::{holes, needed};
use std::alloc::{AllocError as NoMemory, Global};

/// The domain of a level, the frame of the level below, and the ratio between the two.
#[derive(Debug, Drop)]
pub struct Ground {
    pub domain: Region,
    pub below: Domain,
    pub step: Ratio,
}

/// Whether an edge begins at a box.
fn starts_at(b: BoxRef, e: Edge) -> bool
    ensures { result ≡ is_eq (ref_cmp e.base b) }
{
    e.base == b
}

/// The edges that begin at a box.
#[tactic(auto, unfolding(crate::specs::PlansOfParts::edges_at))]
fn edges_at(alloc: Global, b: BoxRef, edges: &[Edge]) -> Result<Vec<Edge>, NoMemory>
    ensures { IfOk result (λ v. v.items ≡ edges_at b edges.now) }
{
    let mut found = Vec::new(alloc);
    for e in edges {
        if starts_at(b, *e) {
            found.push(*e)?;
        }
    }
    Ok(found)
}

/// Whether an image of a box meets another box.
fn image_meets(d: &Domain, h: IBox, s: Shift, b: IBox) -> bool
    ensures { result ≡ meets (image d.now h s) b }
{
    images_meet(d, b, h, s)
}

/// Whether the image of an edge's head meets a box.
fn head_meets(d: &Domain, e: Edge, b: IBox) -> bool
    ensures { result ≡ meets (image d.now e.head.bx e.shift) b }
{
    image_meets(d, e.head.bx, e.shift, b)
}

/// Whether the image of an edge's head has cells of a wider box, and none of the box.
fn has_ghosts(d: &Domain, b: IBox, wide: IBox, e: Edge) -> bool
    ensures { result ≡ has_ghosts d.now b wide e }
{
    if head_meets(d, e, b) {
        return false;
    }
    head_meets(d, e, wide)
}

/// The edges to images that have cells of a wider box, and none of the box.
fn copies(
    alloc: Global,
    d: &Domain,
    b: IBox,
    wide: IBox,
    near: &[Edge],
) -> Result<Vec<Edge>, NoMemory>
    ensures { IfOk result (λ v. v.items ≡ filter (λ e. has_ghosts d.now b wide e) near.now) }
{
    let mut found = Vec::new(alloc);
    for e in near {
        if has_ghosts(d, b, wide, *e) {
            found.push(*e)?;
        }
    }
    Ok(found)
}

/// The plan of a field of a box, from the box's edges to its level and to the level below.
fn field_plan(
    alloc: Global,
    ground: &Ground,
    b: BoxRef,
    field: u8,
    width: IVec,
    near: &[Edge],
    under: &[Edge],
) -> Result<FieldPlan, NoMemory>
    requires { IsBox (grown b.bx width) }
    ensures { IfOk result (λ p. p ≡ field_by ground.now near.now under.now b (field, width)) }
{
    let wide = grow(b.bx, width);
    let inside = needed(alloc, wide, &ground.domain)?;
    let copies = copies(alloc, ground.domain.frame(), b.bx, wide, near)?;
    let rest = holes(alloc, b, near, width, &ground.domain)?;
    let asked = asked(
        alloc,
        &ground.below,
        ground.step,
        field,
        under,
        rest.as_slice(),
    )?;
    Ok(FieldPlan {
        width,
        inside: Listed::from_vec(inside),
        copies: Listed::from_vec(copies),
        rest: Listed::from_vec(rest),
        asked: Listed::from_vec(asked),
    })
}

/// The plans of the fields of a box, from the box's edges.
fn field_plans(
    alloc: Global,
    ground: &Ground,
    b: BoxRef,
    ghosts: &[IVec],
    near: &[Edge],
    under: &[Edge],
) -> Result<Vec<FieldPlan>, NoMemory>
    requires few { length ghosts.now < 2 ^ 8 }
    requires room { All (λ width. IsBox (grown b.bx width)) ghosts.now }
    ensures { IfOk result (λ v. v.items ≡ map (λ f. field_by ground.now near.now under.now b f) (enumerate_from 0 ghosts.now)) }
{
    let mut plans = Vec::new(alloc);
    let mut field = 0u8;
    for width in ghosts {
        let plan = field_plan(alloc, ground, b, field, *width, near, under)?;
        plans.push(plan)?;
        field += 1;
    }
    Ok(plans)
}

/// The plan of a box, from the edges of all boxes of its rank.
#[tactic(auto, unfolding(crate::specs::PlansOfParts::plan_by))]
fn box_plan(
    alloc: Global,
    ground: &Ground,
    b: BoxRef,
    ghosts: &[IVec],
    selves: &[Edge],
    downs: &[Edge],
) -> Result<BoxPlan, NoMemory>
    requires few { length ghosts.now < 2 ^ 8 }
    requires room { All (λ width. IsBox (grown b.bx width)) ghosts.now }
    ensures { IfOk result (λ p. p ≡ plan_by ground.now ghosts.now selves.now downs.now b) }
{
    let near = edges_at(alloc, b, selves)?;
    let under = edges_at(alloc, b, downs)?;
    let fields = field_plans(alloc, ground, b, ghosts, near.as_slice(), under.as_slice())?;
    Ok(BoxPlan {
        base: b,
        fields: Listed::from_vec(fields),
    })
}

/// The plans of the boxes of a rank.
pub fn box_plans(
    alloc: Global,
    ground: &Ground,
    rank: u16,
    boxes: &[IBox],
    ghosts: &[IVec],
    selves: &[Edge],
    downs: &[Edge],
) -> Result<Vec<BoxPlan>, NoMemory>
    requires few { length ghosts.now < 2 ^ 8 }
    requires room { All (λ b. All (λ width. IsBox (grown b width)) ghosts.now) boxes.now }
    ensures { IfOk result (λ v. v.items ≡ map (λ b. plan_by ground.now ghosts.now selves.now downs.now (record { owner = rank; bx = b })) boxes.now) }
{
    let mut plans = Vec::new(alloc);
    for bx in boxes {
        let b = BoxRef {
            owner: rank,
            bx: *bx,
        };
        let plan = box_plan(alloc, ground, b, ghosts, selves, downs)?;
        plans.push(plan)?;
    }
    Ok(plans)
}
