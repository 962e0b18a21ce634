//! Clusterings on all ranks: clusters by hand, a level without boxes, and drawn levels against a plain program.

ghost use Rattle.std.specs.Prelude.{◌≡◌, ◌<◌, ◌^◌, ◌&&◌, ◌||◌, ℕ, IsTrue, IfOk, List, Some, length, map, slice_get};
ghost use Rattle.std.specs.List.{All, list_any};
ghost use Rattle.samr_box.specs.declared.vector.IVec.{IVec as Cell};
ghost use Rattle.samr_box.specs.Corners.{IsBox, cells_of, holds};
ghost use Rattle.samr_level.specs.Regions.{IsArea};
ghost use Rattle.samr_sign.specs.Fields.{Field, tagged, AreTags};
ghost use Rattle.samr_level.specs.Levels.{own_boxes};

use crate::levels::{
    ALONG_I, ALONG_I_AND_J, NO_AXIS, all_fit, block, domain, drawn, drawn_owner, flat, has_space,
};
use samr_box::{Axis, Domain, IBox, IVec, Listed, Ratio, Shift, meet};
use samr_cluster::cluster_all;
use samr_level::{BoxRef, Edge, Pair, Region, in_level_order, true_overlaps_of};
use samr_rounds::clusters_of;
use samr_sign::{CutRule, TagField};
use samr_trials_levels::is_width;
use std::alloc::{AllocError as NoMemory, Global};
use std::process::Abort;
use std::test::Fail;

/// The ratio of level 0 to itself.
const SAME: Ratio = Ratio { k: 1, j: 1, i: 1 };

/// Whether a box has at most 1,000 planes on each axis.
#[tactic(auto, using(samr_sign::proofs::Rows::few_cells))]
fn is_small(bx: IBox) -> bool
    ensures { IsTrue result → IsBox bx × (cells_of bx < 2 ^ 63) }
{
    if bx.length(Axis::I) > 1_000 {
        return false;
    }
    if bx.length(Axis::J) > 1_000 {
        return false;
    }
    bx.length(Axis::K) <= 1_000
}

fn all_small(boxes: &[IBox]) -> bool
    ensures { IsTrue result → All (λ b. IsBox b × (cells_of b < 2 ^ 63)) boxes.now }
{
    for b in boxes {
        if !is_small(*b) {
            return false;
        }
    }
    true
}

/// The boxes of a level without their owners.
fn boxes_in(alloc: Global, level: &[BoxRef]) -> Result<Vec<IBox>, NoMemory>
    ensures { IfOk result (λ v. v.items ≡ map (λ b. b.bx) level.now) }
{
    let mut boxes = Vec::new(alloc);
    for b in level {
        boxes.push(b.bx)?;
    }
    Ok(boxes)
}

/// Whether the boxes of a level lie in a frame, and no two have a common cell.
fn are_apart(alloc: Global, frame: Domain, level: &[BoxRef]) -> Result<bool, NoMemory>
    ensures { IfOk result (λ t. IsTrue t → IsArea (record { frame = frame; parts = map (λ b. b.bx) level.now })) }
{
    let boxes = boxes_in(alloc, level)?;
    let apart = Region::new(frame, boxes).is_some();
    Ok(apart)
}

/// The boxes that a rank owns.
#[tactic(auto, unfolding(samr_level::specs::Levels::own))]
fn owned_by(alloc: Global, rank: u16, level: &[BoxRef]) -> Result<Vec<IBox>, NoMemory>
    ensures { IfOk result (λ v. v.items ≡ own_boxes rank level.now) }
{
    let mut boxes = Vec::new(alloc);
    for b in level {
        if b.owner == rank {
            boxes.push(b.bx)?;
        }
    }
    Ok(boxes)
}

/// Tags the cells that a field has of a box.
fn mark_part(field: &mut TagField, spot: IBox)
    ensures bx { field.new.bx ≡ field.old.bx }
    ensures cells { (x : Cell) → tagged field.new x ≡ ((holds field.old.bx x && holds spot x) || tagged field.old x) }
{
    if let Some(part) = meet(field.bx(), spot) {
        field.mark(part);
    }
}

/// Tags the cells that a field has of boxes.
fn mark_parts(field: &mut TagField, spots: &[IBox])
    ensures bx { field.new.bx ≡ field.old.bx }
    ensures cells { (x : Cell) → tagged field.new x ≡ ((holds field.old.bx x && list_any (λ s. holds s x) spots.now) || tagged field.old x) }
{
    for spot in spots {
        mark_part(field, *spot);
    }
}

/// A field on a box in which the cells of some boxes are tagged.
fn field_on(alloc: Global, bx: IBox, spots: &[IBox]) -> Result<TagField, NoMemory>
    ensures bx { IfOk result (λ f. f.bx ≡ bx) }
    ensures cells { IfOk result (λ f. (x : Cell) → tagged f x ≡ (holds f.bx x && list_any (λ s. holds s x) spots.now)) }
{
    let mut field = TagField::new(alloc, bx)?;
    mark_parts(&mut field, spots);
    Ok(field)
}

/// Fields on boxes in which the cells of some boxes are tagged.
fn fields_on(alloc: Global, boxes: &[IBox], spots: &[IBox]) -> Result<Vec<TagField>, NoMemory>
    ensures { IfOk result (λ v. AreTags boxes.now (λ x. list_any (λ s. holds s x) spots.now) v.items) }
{
    let mut fields = Vec::new(alloc);
    for bx in boxes {
        fields.push(field_on(alloc, *bx, spots)?)?;
    }
    Ok(fields)
}

/// The fields of all ranks on the boxes that they own.
fn all_fields(
    alloc: Global,
    ranks: u16,
    level: &[BoxRef],
    spots: &[IBox],
) -> Result<Vec<Listed<TagField>>, NoMemory>
    ensures length { IfOk result (λ v. length v.items ≡ ranks) }
    ensures each { IfOk result (λ v. (rank : ℕ) (own : List Field) → slice_get v.items rank ≡ Some own → AreTags (own_boxes rank level.now) (λ x. list_any (λ s. holds s x) spots.now) own) }
{
    let mut all = Vec::new(alloc);
    'each: for rank in 0..ranks {
        let boxes = owned_by(alloc, rank, level)?;
        let fields = fields_on(alloc, boxes.as_slice(), spots)?;
        all.push(Listed::from_vec(fields))?;
    }
    Ok(all)
}

/// The clustering of a level in which the cells of some boxes are tagged: `None` where a number, a
/// frame or a level is not fit for it.
fn clustered(
    alloc: Global,
    ranks: u16,
    d: &Domain,
    boxes: Vec<BoxRef>,
    spots: &[IBox],
    roots: &[IBox],
    rule: CutRule,
    width: IVec,
    to_level: Ratio,
) -> Result<Option<Vec<Pair>>, NoMemory> {
    let _ = to_level.factors();
    if ranks == 0 {
        return Ok(None);
    }
    if !is_width(width) {
        return Ok(None);
    }
    if !has_space(d, to_level) {
        return Ok(None);
    }
    if !all_small(roots) {
        return Ok(None);
    }
    let level = in_level_order(boxes);
    if !all_fit(ranks, level.as_slice()) {
        return Ok(None);
    }
    if !are_apart(alloc, d.finer(to_level), level.as_slice())? {
        return Ok(None);
    }
    let fields = all_fields(alloc, ranks, level.as_slice(), spots)?;
    let pairs = cluster_all(alloc, d, fields.as_slice(), roots, rule, width, to_level)?;
    Ok(Some(pairs))
}

/// The edge between two boxes.
fn edge(base: BoxRef, head: BoxRef) -> Edge {
    let shift = Shift { k: 0, j: 0, i: 0 };
    Edge { base, head, shift }
}

/// The pairs of a level of width 1 from one root.
fn pairs_of(
    rt: &impl Abort,
    alloc: Global,
    ranks: u16,
    d: &Domain,
    level: &[BoxRef],
    spots: &[IBox],
    efficiency: u32,
) -> Result<Vec<Pair>, NoMemory> {
    let rule = CutRule {
        efficiency,
        smallest: 1,
    };
    let root = d.whole();
    let boxes = Vec::from_slice(alloc, level)?;
    let made = clustered(
        alloc,
        ranks,
        d,
        boxes,
        spots,
        std::slice::from_ref(&root),
        rule,
        IVec::new(1, 1, 0),
        SAME,
    )?;
    Ok(made.expect(rt, "fit"))
}

/// Whether the tags of two boxes of a domain that is one box of one rank become two clusters, each
/// with one edge.
fn gives_two(
    rt: &impl Abort,
    alloc: Global,
    d: &Domain,
    efficiency: u32,
    first: IBox,
    second: IBox,
) -> Result<bool, NoMemory> {
    let owner = 0;
    let bx = BoxRef {
        owner,
        bx: d.whole(),
    };
    let level = std::slice::from_ref(&bx);
    let spots = [first, second];
    let pairs = pairs_of(rt, alloc, 1, d, level, spots.as_slice(), efficiency)?;
    assert!(rt; pairs.len() == 1);
    let one = BoxRef { owner, bx: first };
    let two = BoxRef { owner, bx: second };
    let forth = [edge(bx, one), edge(bx, two)];
    let back = [edge(one, bx), edge(two, bx)];
    let same = pairs[0].forth.edges.as_slice() == forth.as_slice();
    Ok(same && pairs[0].back.edges.as_slice() == back.as_slice())
}

#[test]
fn two_clusters_of_one_rank(rt: HostRuntime) -> Result<(), Fail> {
    let alloc = rt.alloc();
    let gap = domain(&rt, IVec::new(5, 2, 1), NO_AXIS);
    let left = flat(&rt, (0, 0), (1, 1));
    let right = flat(&rt, (4, 0), (4, 1));
    assert!(rt; gives_two(&rt, alloc, &gap, 70, left, right)?);
    let corner = domain(&rt, IVec::new(6, 4, 1), NO_AXIS);
    let block = flat(&rt, (0, 0), (2, 3));
    let row = flat(&rt, (3, 0), (5, 0));
    assert!(rt; gives_two(&rt, alloc, &corner, 80, block, row)?);
    Ok(())
}

/// Whether the tags of a box become one cluster, which a rank owns, with an edge to the box of each of two ranks.
fn gives_one(rt: &impl Abort, alloc: Global, spot: IBox, owner: u16) -> Result<bool, NoMemory> {
    let d = domain(rt, IVec::new(8, 4, 1), NO_AXIS);
    let left = BoxRef {
        owner: 0,
        bx: flat(rt, (0, 0), (3, 3)),
    };
    let right = BoxRef {
        owner: 1,
        bx: flat(rt, (4, 0), (7, 3)),
    };
    let level = [left, right];
    let spots = std::slice::from_ref(&spot);
    let pairs = pairs_of(rt, alloc, 2, &d, level.as_slice(), spots, 80)?;
    assert!(rt; pairs.len() == 2);
    let cluster = BoxRef { owner, bx: spot };
    let back = [edge(cluster, left), edge(cluster, right)];
    let first = [edge(left, cluster)];
    let second = [edge(right, cluster)];
    let told = edges_back(pairs.as_slice(), usize::from(owner)) == back.as_slice();
    let alone = edges_back(pairs.as_slice(), 1 - usize::from(owner).min(1)).is_empty();
    let there = pairs[0].forth.edges.as_slice() == first.as_slice();
    Ok(told && alone && there && pairs[1].forth.edges.as_slice() == second.as_slice())
}

/// The edges back of a rank.
fn edges_back(pairs: &[Pair], rank: usize) -> &[Edge] {
    match pairs.get(rank) {
        Some(pair) => pair.back.edges.as_slice(),
        None => &[],
    }
}

#[test]
fn one_cluster_of_two_ranks(rt: HostRuntime) -> Result<(), Fail> {
    let alloc = rt.alloc();
    // more tags in the box of rank 0, as many in each, and more in that of rank 1
    assert!(rt; gives_one(&rt, alloc, flat(&rt, (2, 0), (4, 1)), 0)?);
    assert!(rt; gives_one(&rt, alloc, flat(&rt, (3, 0), (4, 1)), 0)?);
    assert!(rt; gives_one(&rt, alloc, flat(&rt, (3, 0), (5, 1)), 1)?);
    Ok(())
}

#[test]
fn a_cluster_across_a_periodic_border(rt: HostRuntime) -> Result<(), Fail> {
    let alloc = rt.alloc();
    let d = domain(&rt, IVec::new(8, 4, 1), ALONG_I);
    let home = BoxRef {
        owner: 0,
        bx: flat(&rt, (0, 0), (5, 3)),
    };
    let far = BoxRef {
        owner: 1,
        bx: flat(&rt, (6, 0), (7, 3)),
    };
    let spot = flat(&rt, (0, 0), (1, 1));
    let level = [home, far];
    let spots = std::slice::from_ref(&spot);
    let pairs = pairs_of(&rt, alloc, 2, &d, level.as_slice(), spots, 80)?;
    assert!(rt; pairs.len() == 2);
    let cluster = BoxRef { owner: 0, bx: spot };
    let across = Edge {
        base: far,
        head: cluster,
        shift: Shift { k: 0, j: 0, i: 1 },
    };
    let back = [edge(cluster, home), across.turned()];
    assert!(rt; pairs[0].forth.edges.as_slice() == [edge(home, cluster)].as_slice());
    assert!(rt; pairs[0].back.edges.as_slice() == back.as_slice());
    assert!(rt; pairs[1].forth.edges.as_slice() == [across].as_slice());
    assert!(rt; pairs[1].back.edges.as_slice().is_empty());
    Ok(())
}

#[test]
fn a_level_without_boxes(rt: HostRuntime) -> Result<(), Fail> {
    let alloc = rt.alloc();
    let d = domain(&rt, IVec::new(8, 4, 1), ALONG_I);
    let none: Vec<BoxRef> = Vec::new(alloc);
    let nothing: Vec<IBox> = Vec::new(alloc);
    let pairs = pairs_of(&rt, alloc, 2, &d, none.as_slice(), nothing.as_slice(), 70)?;
    assert!(rt; pairs.len() == 2);
    assert!(rt; pairs[0].forth.edges.as_slice().is_empty());
    assert!(rt; pairs[1].back.edges.as_slice().is_empty());
    Ok(())
}

/// Block n of the eight blocks of 4 x 4 cells of a domain of 16 x 8 cells.
fn block_at(rt: &impl Abort, n: u32) -> IBox {
    block(rt, n, IVec::new(4, 4, 1), SAME)
}

/// Some of the eight blocks, with drawn owners.
fn drawn_level(
    rt: &impl Abort,
    alloc: Global,
    ranks: u16,
    seed: u32,
) -> Result<Vec<BoxRef>, NoMemory> {
    let mut level = Vec::new(alloc);
    for n in 0..8u32 {
        if drawn(seed, n + 100) % 5 != 0 {
            let owner = drawn_owner(seed, n, ranks);
            let bx = block_at(rt, n);
            level.push(BoxRef { owner, bx })?;
        }
    }
    Ok(in_level_order(level))
}

/// Twelve drawn cells.
fn drawn_spots(rt: &impl Abort, alloc: Global, seed: u32) -> Result<Vec<IBox>, NoMemory> {
    let mut spots = Vec::new(alloc);
    for n in 0..12u32 {
        let i = i64::from(drawn(seed, n + 200) % 16);
        let j = i64::from(drawn(seed, n + 300) % 8);
        spots.push(flat(rt, (i, j), (i, j)))?;
    }
    Ok(spots)
}

/// The domain of 16 x 8 cells as one root, or each of its eight blocks as one.
fn some_roots(rt: &impl Abort, alloc: Global, one: bool) -> Result<Vec<IBox>, NoMemory> {
    let mut roots = Vec::new(alloc);
    if one {
        roots.push(flat(rt, (0, 0), (15, 7)))?;
        return Ok(roots);
    }
    for n in 0..8u32 {
        roots.push(block_at(rt, n))?;
    }
    Ok(roots)
}

/// Tags the cells that a box has of others.
fn mark_in(field: &mut TagField, bx: IBox, spots: &[IBox]) {
    for spot in spots {
        if let Some(part) = meet(*spot, bx) {
            mark_part(field, part);
        }
    }
}

/// The tags of a whole level in one field.
fn whole_field(
    alloc: Global,
    d: &Domain,
    level: &[BoxRef],
    spots: &[IBox],
) -> Result<TagField, NoMemory> {
    let mut field = TagField::new(alloc, d.whole())?;
    for b in level {
        mark_in(&mut field, b.bx, spots);
    }
    Ok(field)
}

/// How many tags of a box lie in a rank's boxes.
fn tags_of(field: &TagField, level: &[BoxRef], rank: u16, bx: IBox) -> u64 {
    let mut count = 0u64;
    for b in level {
        if b.owner == rank {
            if let Some(part) = meet(b.bx, bx) {
                count = count.saturating_add(field.count(part));
            }
        }
    }
    count
}

/// The first of the ranks with the most tags of a box.
fn plain_owner(field: &TagField, level: &[BoxRef], ranks: u16, bx: IBox) -> u16 {
    let mut most = 0;
    let mut owner = 0;
    for rank in 0..ranks {
        let count = tags_of(field, level, rank, bx);
        if count > most {
            most = count;
            owner = rank;
        }
    }
    owner
}

/// The clusters of a root, from all tags at once.
#[tactic(auto, using(samr_sign::proofs::Rows::one_apart))]
fn plain_boxes(
    alloc: Global,
    root: IBox,
    field: &TagField,
    rule: &CutRule,
) -> Result<Vec<IBox>, NoMemory> {
    if !is_small(root) {
        return Ok(Vec::new(alloc));
    }
    let boxes = clusters_of(alloc, root, std::slice::from_ref(field), rule)?;
    Ok(boxes)
}

/// Adds the boxes of a root with their owners.
fn push_owned(
    field: &TagField,
    level: &[BoxRef],
    ranks: u16,
    boxes: &[IBox],
    all: &mut Vec<BoxRef>,
) -> Result<(), NoMemory> {
    for bx in boxes {
        let owner = plain_owner(field, level, ranks, *bx);
        all.push(BoxRef { owner, bx: *bx })?;
    }
    Ok(())
}

/// All clusters with their owners, from all tags at once.
fn plain_clusters(
    alloc: Global,
    ranks: u16,
    level: &[BoxRef],
    field: &TagField,
    roots: &[IBox],
    rule: &CutRule,
) -> Result<Vec<BoxRef>, NoMemory> {
    let mut all = Vec::new(alloc);
    for root in roots {
        let boxes = plain_boxes(alloc, *root, field, rule)?;
        push_owned(field, level, ranks, boxes.as_slice(), &mut all)?;
    }
    Ok(in_level_order(all))
}

/// The edges of which a rank owns the base.
fn on_base(alloc: Global, rank: u16, edges: &[Edge]) -> Result<Vec<Edge>, NoMemory> {
    let mut kept = Vec::new(alloc);
    for e in edges {
        if e.base.owner == rank {
            kept.push(*e)?;
        }
    }
    Ok(kept)
}

/// Whether each rank's pair has that rank's edges.
fn have_edges(
    alloc: Global,
    ranks: u16,
    pairs: &[Pair],
    forth: &[Edge],
    back: &[Edge],
) -> Result<bool, NoMemory> {
    for rank in 0..ranks {
        let Some(pair) = pairs.get(usize::from(rank)) else {
            return Ok(false);
        };
        let there = on_base(alloc, rank, forth)?;
        if pair.forth.edges.as_slice() != there.as_slice() {
            return Ok(false);
        }
        let here = on_base(alloc, rank, back)?;
        if pair.back.edges.as_slice() != here.as_slice() {
            return Ok(false);
        }
    }
    Ok(true)
}

const BESIDE: IVec = IVec { k: 0, j: 1, i: 1 };

const RULE: CutRule = CutRule {
    efficiency: 70,
    smallest: 1,
};

/// The pairs of all ranks by the stages.
fn pairs_by_stages(
    rt: &impl Abort,
    alloc: Global,
    ranks: u16,
    d: &Domain,
    level: &[BoxRef],
    spots: &[IBox],
    roots: &[IBox],
) -> Result<Vec<Pair>, NoMemory> {
    let boxes = Vec::from_slice(alloc, level)?;
    let made = clustered(alloc, ranks, d, boxes, spots, roots, RULE, BESIDE, SAME)?;
    Ok(made.expect(rt, "fit"))
}

/// All clusters of a level with their owners, from the whole level.
fn clusters_by_all(
    alloc: Global,
    ranks: u16,
    d: &Domain,
    level: &[BoxRef],
    spots: &[IBox],
    roots: &[IBox],
) -> Result<Vec<BoxRef>, NoMemory> {
    let field = whole_field(alloc, d, level, spots)?;
    plain_clusters(alloc, ranks, level, &field, roots, &RULE)
}

/// The overlaps of one list of boxes with another.
fn edges_by_all(
    alloc: Global,
    d: &Domain,
    bases: &[BoxRef],
    heads: &[BoxRef],
) -> Result<Vec<Edge>, NoMemory> {
    true_overlaps_of(alloc, bases, heads, BESIDE, SAME, SAME, d)
}

/// Whether pairs are those of a level and its clusters, by a plain program that sees the whole level.
fn are_pairs_of(
    alloc: Global,
    ranks: u16,
    d: &Domain,
    level: &[BoxRef],
    clusters: &[BoxRef],
    pairs: &[Pair],
) -> Result<bool, NoMemory> {
    let forth = edges_by_all(alloc, d, level, clusters)?;
    let back = edges_by_all(alloc, d, clusters, level)?;
    if forth.is_empty() {
        return Ok(false);
    }
    have_edges(alloc, ranks, pairs, forth.as_slice(), back.as_slice())
}

/// Whether the clustering of a drawn level is that of the plain program.
fn same_as_plain(
    rt: &impl Abort,
    alloc: Global,
    ranks: u16,
    d: &Domain,
    seed: u32,
    roots: &[IBox],
) -> Result<bool, NoMemory> {
    let level = drawn_level(rt, alloc, ranks, seed)?;
    let spots = drawn_spots(rt, alloc, seed)?;
    let (level, spots) = (level.as_slice(), spots.as_slice());
    let pairs = pairs_by_stages(rt, alloc, ranks, d, level, spots, roots)?;
    let clusters = clusters_by_all(alloc, ranks, d, level, spots, roots)?;
    are_pairs_of(
        alloc,
        ranks,
        d,
        level,
        clusters.as_slice(),
        pairs.as_slice(),
    )
}

/// The same on one to five ranks.
fn same_on_all(
    rt: &impl Abort,
    alloc: Global,
    d: &Domain,
    seed: u32,
    roots: &[IBox],
) -> Result<bool, NoMemory> {
    for ranks in 1..6u16 {
        if !same_as_plain(rt, alloc, ranks, d, seed, roots)? {
            return Ok(false);
        }
    }
    Ok(true)
}

#[test]
fn drawn_clusters_of_one_root(rt: HostRuntime) -> Result<(), Fail> {
    let alloc = rt.alloc();
    let d = domain(&rt, IVec::new(16, 8, 1), ALONG_I_AND_J);
    let roots = some_roots(&rt, alloc, true)?;
    assert!(rt; same_on_all(&rt, alloc, &d, 3, roots.as_slice())?);
    Ok(())
}

#[test]
fn drawn_clusters_of_eight_roots(rt: HostRuntime) -> Result<(), Fail> {
    let alloc = rt.alloc();
    let d = domain(&rt, IVec::new(16, 8, 1), NO_AXIS);
    let roots = some_roots(&rt, alloc, false)?;
    assert!(rt; same_on_all(&rt, alloc, &d, 8, roots.as_slice())?);
    Ok(())
}
