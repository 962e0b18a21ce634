//! Tests of merged values for a rank, and of bases of edges.

ghost use Rattle.std.specs.Prelude.{◌≡◌, ◌<◌, ◌∷◌, [], pos, IsTrue, map};
ghost use Rattle.std.specs.List.{All};
ghost use Rattle.samr_box.specs.Vector.{alike, AtMost};
ghost use Rattle.samr_box.specs.Corners.{IsBox};
ghost use Rattle.samr_box.specs.Lists.{Member};
ghost use Rattle.samr_values.specs.Patches.{IsBased, AreBased};
ghost use Rattle.samr_values.specs.Parcels.{same_box};
ghost use Rattle.samr_values.specs.Coarsen.{IsRefinement};
ghost use Rattle.samr_values.specs.Merging.{CanMerge};

use crate::merging::{Merge, merged_to};
use crate::packing::base_of;
use crate::sending::parcels_for;
use samr_box::{IBox, IVec, Listed, Ratio, Shift, coarsen, coarsen_cell, holds_box, refine};
use samr_data::{Parcel, Patch};
use samr_level::{BoxRef, Edge};
use samr_ops::CoarsenRule;
use std::alloc::{AllocError as NoMemory, Global};
use std::process::Abort;
use std::test::Fail;

/// A box of the plane k = 0.
fn plane(rt: &impl Abort, i: i64, j: i64, last_i: i64, last_j: i64) -> IBox {
    IBox::new(IVec::new(i, j, 0), IVec::new(last_i, last_j, 0)).expect(rt, "a box")
}

fn owned(rt: &impl Abort, owner: u16, i: i64, j: i64, last_i: i64, last_j: i64) -> BoxRef {
    BoxRef {
        owner,
        bx: plane(rt, i, j, last_i, last_j),
    }
}

/// The box of level 0.
fn below(rt: &impl Abort) -> BoxRef {
    owned(rt, 0, 0, 0, 7, 7)
}

/// The box of rank 0 of the level over it.
fn right(rt: &impl Abort) -> BoxRef {
    owned(rt, 0, 8, 6, 9, 9)
}

/// The box of rank 1 beside that.
fn left(rt: &impl Abort) -> BoxRef {
    owned(rt, 1, 6, 6, 7, 9)
}

fn joined(rt: &impl Abort, base: BoxRef, head: BoxRef) -> Edge {
    Edge {
        base,
        head,
        shift: Shift::new(0, 0, 0).expect(rt, "a shift"),
    }
}

fn by_two(rt: &impl Abort) -> Ratio {
    Ratio::new(2, 2, 1).expect(rt, "a ratio")
}

fn by_one(rt: &impl Abort) -> Ratio {
    Ratio::new(1, 1, 1).expect(rt, "a ratio")
}

const WIDTH: IVec = IVec { k: 0, j: 1, i: 1 };

const NOTHING: IVec = IVec { k: 0, j: 0, i: 0 };

/// No test has a cell or a width beyond these.
const LEAST: IVec = IVec {
    k: -1_000,
    j: -1_000,
    i: -1_000,
};

const GREATEST: IVec = IVec {
    k: 1_000,
    j: 1_000,
    i: 1_000,
};

/// A number from 0 to 999, counted upwards from 0.
fn number(n: i64) -> u32
    ensures { result < 1000 }
{
    (n.abs_diff(0) % 1000) as u32
}

/// A value that tells the cell.
fn told(x: IVec) -> u32 {
    number(x.i) + 8 * number(x.j)
}

/// A patch of zeros.
fn zeros(rt: &impl Abort, alloc: Global, bx: IBox) -> Patch {
    assert!(rt; LEAST.at_most(bx.lo));
    assert!(rt; bx.hi.at_most(GREATEST));
    Patch::new(alloc, bx, WIDTH).expect(rt, "memory")
}

/// A patch of a box whose cells tell the cell under them, at a ratio.
fn patch(rt: &impl Abort, alloc: Global, bx: IBox, step: Ratio) -> Patch {
    let mut patch = zeros(rt, alloc, bx);
    assert!(rt; holds_box(patch.over(), bx));
    patch.write_cells(bx, |x| told(coarsen_cell(x, step)));
    patch
}

/// One field of a patch.
fn field_of(alloc: Global, patch: Patch) -> Result<Vec<Listed<Patch>>, NoMemory> {
    let mut patches = Vec::new(alloc);
    patches.push(patch)?;
    let mut fields = Vec::new(alloc);
    fields.push(Listed::from_vec(patches))?;
    Ok(fields)
}

/// One field without patches.
fn empty_field(alloc: Global) -> Result<Vec<Listed<Patch>>, NoMemory> {
    let mut fields = Vec::new(alloc);
    fields.push(Listed::new(alloc))?;
    Ok(fields)
}

fn is_same(a: IBox, b: IBox) -> bool
    ensures { result ≡ same_box a b }
{
    holds_box(a, b) && holds_box(b, a)
}

/// Whether the base of an edge is the box of a patch.
fn starts_at(e: Edge, patch: &Patch) -> bool
    ensures { IsTrue result → e.base.bx ≡ patch.now.bx }
{
    is_same(base_of(e), patch.bx)
}

/// Whether the base of an edge is the box of the first patch.
fn starts_first(e: Edge, patches: &[Patch]) -> bool
    ensures { IsTrue result → Member e.base.bx (map (λ p. p.bx) patches.now) }
{
    if patches.len() == 0 {
        return false;
    }
    starts_at(e, &patches[0])
}

/// Whether the bases of all edges are the box of the first patch.
fn all_start(edges: &[Edge], patches: &[Patch]) -> bool
    ensures { IsTrue result → All (λ e. Member e.base.bx (map (λ p. p.bx) patches.now)) edges.now }
{
    for e in edges {
        if !starts_first(*e, patches) {
            return false;
        }
    }
    true
}

/// Whether a field has at most one patch, and all edges start at that.
fn is_based(edges: &[Edge], patches: &[Patch]) -> bool
    ensures { IsTrue result → IsBased edges.now patches.now }
{
    if patches.len() > 1 {
        return false;
    }
    all_start(edges, patches)
}

/// Whether this is so of each field.
fn all_based(edges: &[Edge], fields: &[Listed<Patch>]) -> bool
    ensures { IsTrue result → AreBased edges.now fields.now }
{
    for field in fields {
        if !is_based(edges, field.as_slice()) {
            return false;
        }
    }
    true
}

/// Whether a parcel has these values of a region.
fn has_values(parcel: &Parcel, is_coarse: bool, region: IBox, values: &[u32]) -> bool {
    if parcel.is_coarse != is_coarse {
        return false;
    }
    if parcel.region != region {
        return false;
    }
    parcel.values.as_slice() == values
}

/// Whether there is one parcel, and it has these values of a region.
fn is_one(parcels: &[Parcel], is_coarse: bool, region: IBox, values: &[u32]) -> bool {
    if parcels.len() == 1 {
        return has_values(&parcels[0], is_coarse, region, values);
    }
    false
}

/// The parcels for a rank, where all edges start at the patches; `None` where one does not.
fn parcels_where_based(
    alloc: Global,
    to: u16,
    step: Ratio,
    olds: &[Edge],
    coarser: &[Edge],
    patches: &[Listed<Patch>],
    coarse_patches: &[Listed<Patch>],
) -> Result<Option<Vec<Parcel>>, NoMemory> {
    if patches.len() > 255 {
        return Ok(None);
    }
    if patches.len() != coarse_patches.len() {
        return Ok(None);
    }
    if !all_based(olds, patches) {
        return Ok(None);
    }
    if !all_based(coarser, coarse_patches) {
        return Ok(None);
    }
    let parcels = parcels_for(alloc, to, step, olds, coarser, patches, coarse_patches)?;
    Ok(Some(parcels))
}

/// Whether the owner of level 0 sends a rank these values of a region and no others.
fn sends(
    rt: &impl Abort,
    alloc: Global,
    to: u16,
    region: IBox,
    values: &[u32],
) -> Result<bool, NoMemory> {
    let base = below(rt);
    let coarser = [joined(rt, base, right(rt)), joined(rt, base, left(rt))];
    let olds = Vec::new(alloc);
    let patches = empty_field(alloc)?;
    let coarse_patches = field_of(alloc, patch(rt, alloc, base.bx, by_one(rt)))?;
    let parcels = parcels_where_based(
        alloc,
        to,
        by_two(rt),
        olds.as_slice(),
        coarser.as_slice(),
        patches.as_slice(),
        coarse_patches.as_slice(),
    )?;
    Ok(is_one(parcels.expect(rt, "based").as_slice(), true, region, values))
}

#[test]
fn coarse_values_for_a_new_level(rt: HostRuntime) -> Result<(), Fail> {
    let alloc = rt.alloc();
    let under_left = plane(&rt, 3, 3, 3, 4);
    let under_right = plane(&rt, 4, 3, 4, 4);
    assert!(rt; sends(&rt, alloc, 1, under_left, [27, 35].as_slice())?);
    assert!(rt; sends(&rt, alloc, 0, under_right, [28, 36].as_slice())?);
    Ok(())
}

/// Whether a box has only cells from 0 to 1,000 on each axis.
fn is_small(b: IBox) -> bool
    ensures whole { IsTrue result → IsBox b }
    ensures low { IsTrue result → AtMost (alike (pos 0)) b.lo }
    ensures high { IsTrue result → AtMost b.hi (alike (pos 1000)) }
{
    if !NOTHING.at_most(b.lo) {
        return false;
    }
    b.hi.at_most(GREATEST)
}

/// Whether a box consists of all cells over coarse ones.
fn is_refinement(b: IBox, step: Ratio) -> bool
    ensures { IsTrue result → IsRefinement step b }
{
    let _ = step.factors();
    let under = coarsen(b, step);
    if !is_small(under) {
        return false;
    }
    is_same(refine(under, step), b)
}

/// Whether the base of an edge is such a box.
fn starts_over(e: Edge, step: Ratio) -> bool
    ensures { IsTrue result → IsRefinement step e.base.bx }
{
    is_refinement(base_of(e), step)
}

/// Whether the bases of all edges are.
fn all_start_over(edges: &[Edge], step: Ratio) -> bool
    ensures { IsTrue result → All (λ e. IsRefinement step e.base.bx) edges.now }
{
    for e in edges {
        if !starts_over(*e, step) {
            return false;
        }
    }
    true
}

/// Whether a field can be merged along edges.
fn can_merge(m: &Merge, edges: &[Edge], fine: &[Listed<Patch>]) -> bool
    ensures { IsTrue result → CanMerge (m.now ∷ []) edges.now fine.now }
{
    let modulus = m.modulus;
    let field = m.field;
    if modulus == 0 {
        return false;
    }
    if usize::from(field) >= fine.len() {
        return false;
    }
    if !all_based(edges, fine) {
        return false;
    }
    all_start_over(edges, m.step)
}

/// The merged values of a field for a rank; `None` where the field cannot be merged.
fn merged_where_based(
    alloc: Global,
    m: &Merge,
    fine: &[Listed<Patch>],
    edges: &[Edge],
    to: u16,
) -> Result<Option<Vec<Parcel>>, NoMemory> {
    if !can_merge(m, edges, fine) {
        return Ok(None);
    }
    let parcels = merged_to(alloc, std::slice::from_ref(m), fine, edges, to)?;
    Ok(Some(parcels))
}

/// Whether rank 1 sends the owner of level 0 these values of the cells under its box and no others.
fn merges_to(
    rt: &impl Abort,
    alloc: Global,
    rule: CoarsenRule,
    modulus: u32,
    values: &[u32],
) -> Result<bool, NoMemory> {
    let step = by_two(rt);
    let base = left(rt);
    let edges = [joined(rt, base, below(rt))];
    let fine = field_of(alloc, patch(rt, alloc, base.bx, step))?;
    let m = Merge {
        field: 0,
        rule,
        modulus,
        step,
    };
    let parcels = merged_where_based(alloc, &m, fine.as_slice(), edges.as_slice(), 0)?;
    let under = plane(rt, 3, 3, 3, 4);
    Ok(is_one(parcels.expect(rt, "based").as_slice(), false, under, values))
}

#[test]
fn merged_values_of_a_finer_box(rt: HostRuntime) -> Result<(), Fail> {
    let alloc = rt.alloc();
    assert!(rt; merges_to(&rt, alloc, CoarsenRule::First, 3_000, [27, 35].as_slice())?);
    assert!(rt; merges_to(&rt, alloc, CoarsenRule::Sum, 100, [8, 40].as_slice())?);
    Ok(())
}
