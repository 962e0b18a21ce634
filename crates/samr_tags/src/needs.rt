//! What fine boxes need of the level two below them, and its marking.

ghost use Rattle.std.specs.Prelude.{◌≡◌, ◌&&◌, ◌||◌, nat_eq, IfOk, map, filter};
ghost use Rattle.std.specs.List.{All, list_any};
ghost use Rattle.samr_box.specs.declared.vector.IVec.{IVec as Cell};
ghost use Rattle.samr_box.specs.Corners.{holds, meets};
ghost use Rattle.samr_sign.specs.Fields.{tagged};
ghost use Rattle.samr_tags.specs.CoverRow.{below_head, is_below, needed_of, HasRoom};
ghost use Rattle.samr_tags.specs.CoverParts.{is_needed, AreAdded};

use samr_box::{Domain, IBox, IVec, Listed, Ratio, boxes_meet, coarsen, grow, meet, shifted};
use samr_level::Edge;
use samr_sign::TagField;
use samr_stage::Held;
use std::alloc::{AllocError as NoMemory, Global};

/// How a fine box needs cells of the level two below it: coarsened by `upper`, grown by `nest` and
/// coarsened by `lower`. `frame` is the frame of that level.
#[derive(Drop)]
pub struct Needs {
    pub frame: Domain,
    pub upper: Ratio,
    pub nest: IVec,
    pub lower: Ratio,
}

/// What the base of an edge needs, where its head stands.
fn below_head(needs: &Needs, e: Edge) -> IBox
    requires { HasRoom needs.now e }
    ensures { result ≡ below_head needs.now e }
{
    let wide = grow(coarsen(e.base.bx, needs.upper), needs.nest);
    shifted(coarsen(wide, needs.lower), &needs.frame, e.shift.opposite())
}

/// Whether it needs cells of a head that a rank owns.
fn is_below(needs: &Needs, rank: u16, e: Edge) -> bool
    requires { HasRoom needs.now e }
    ensures { result ≡ is_below needs.now rank e }
{
    if e.head.owner == rank {
        return boxes_meet(below_head(needs, e), e.head.bx);
    }
    false
}

/// What edges need of the boxes of a rank, one after another.
fn all_needs(alloc: Global, needs: &Needs, rank: u16, edges: &[Edge]) -> Result<Vec<IBox>, NoMemory>
    requires { All (HasRoom needs.now) edges.now }
    ensures { IfOk result (λ v. v.items ≡ map (λ e. below_head needs.now e) (filter (λ e. is_below needs.now rank e) edges.now)) }
{
    let mut all = Vec::new(alloc);
    for e in edges {
        if is_below(needs, rank, *e) {
            all.push(below_head(needs, *e))?;
        }
    }
    Ok(all)
}

/// What edges need of the boxes of a rank, in corner order, each once.
pub fn needed_of(
    alloc: Global,
    needs: &Needs,
    rank: u16,
    edges: &[Edge],
) -> Result<Vec<IBox>, NoMemory>
    requires { All (HasRoom needs.now) edges.now }
    ensures { IfOk result (λ v. v.items ≡ needed_of needs.now rank edges.now) }
{
    let mut all = all_needs(alloc, needs, rank, edges)?;
    all.sort_unstable();
    all.dedup();
    Ok(all)
}

/// Marks what a field has of a box.
fn mark_part(field: &mut TagField, b: IBox)
    ensures bx { field.new.bx ≡ field.old.bx }
    ensures cells { (x : Cell) → tagged field.new x ≡ ((holds field.old.bx x && holds b x) || tagged field.old x) }
{
    if let Some(part) = meet(field.bx(), b) {
        field.mark(part);
    }
}

/// Marks what a field has of boxes.
fn mark_parts(field: &mut TagField, boxes: &[IBox])
    ensures bx { field.new.bx ≡ field.old.bx }
    ensures cells { (x : Cell) → tagged field.new x ≡ ((holds field.old.bx x && list_any (λ b. holds b x) boxes.now) || tagged field.old x) }
{
    for b in boxes {
        mark_part(field, *b);
    }
}

/// Marks what a field has of the boxes that letters tell.
fn mark_told(field: &mut TagField, held: &[Held<Listed<IBox>>])
    ensures bx { field.new.bx ≡ field.old.bx }
    ensures cells { (x : Cell) → tagged field.new x ≡ ((holds field.old.bx x && list_any (λ letter. list_any (λ b. holds b x) letter.body) held.now) || tagged field.old x) }
{
    for letter in held {
        mark_parts(field, letter.body.as_slice());
    }
}

/// A field with what it has of own boxes and of those that letters tell.
fn mark_field(mut field: TagField, own: &[IBox], held: &[Held<Listed<IBox>>]) -> TagField
    ensures bx { result.bx ≡ field.bx }
    ensures cells { (x : Cell) → tagged result x ≡ ((holds field.bx x && is_needed own.now held.now x) || tagged field x) }
{
    mark_parts(&mut field, own);
    mark_told(&mut field, held);
    field
}

/// The fields with what they have of own boxes and of those that letters tell.
pub fn mark_fields(
    alloc: Global,
    fields: Vec<TagField>,
    own: &[IBox],
    held: &[Held<Listed<IBox>>],
) -> Result<Vec<TagField>, NoMemory>
    ensures { IfOk result (λ v. AreAdded fields.items v.items (is_needed own.now held.now)) }
{
    let mut marked = Vec::new(alloc);
    for field in fields {
        marked.push(mark_field(field, own, held))?;
    }
    Ok(marked)
}
