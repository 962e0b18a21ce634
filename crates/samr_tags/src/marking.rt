//! Marking of the cells within the tag buffer of tagged ones.

ghost use Rattle.std.specs.Prelude.{◌≡◌, Bool, ◌&&◌, ◌||◌, pos, IfOk};
ghost use Rattle.std.specs.List.{All, list_any};
ghost use Rattle.samr_box.specs.declared.vector.IVec.{IVec as Cell};
ghost use Rattle.samr_box.specs.Vector.{alike, AtMost, InRange};
ghost use Rattle.samr_box.specs.Corners.{holds};
ghost use Rattle.std.specs.Ordering.{is_eq};
ghost use Rattle.samr_level.specs.RefOrders.{ref_cmp};
ghost use Rattle.samr_sign.specs.Fields.{tagged};
ghost use Rattle.samr_tags.specs.Seeing.{spread, marks, is_for, marked_by};
ghost use Rattle.samr_tags.specs.Marking.{marked_at, AreMarked};

use crate::region::spread_region;
use crate::seen::Seen;
use samr_box::{Domain, IBox, IVec, Listed, Shift};
use samr_level::{BoxRef, Edge};
use samr_sign::TagField;
use samr_stage::Held;
use std::alloc::{AllocError as NoMemory, Global};

/// Marks the cells within a buffer of a cell that is seen at a shift.
fn mark_cell(field: &mut TagField, cell: IVec, s: Shift, frame: &Domain, buffer: IVec)
    requires cell { InRange cell }
    requires low { AtMost (alike (pos 0)) buffer }
    requires range { InRange buffer }
    ensures bx { field.new.bx ≡ field.old.bx }
    ensures cells { (x : Cell) → tagged field.new x ≡ ((holds field.old.bx x && holds (spread frame.now buffer s cell) x) || tagged field.old x) }
{
    if let Some(region) = spread_region(field.bx(), cell, s, frame, buffer) {
        field.mark(region);
    }
}

/// Marks the cells within a buffer of cells that are seen at a shift.
fn mark_cells(field: &mut TagField, cells: &[IVec], s: Shift, frame: &Domain, buffer: IVec)
    requires cells { All InRange cells.now }
    requires low { AtMost (alike (pos 0)) buffer }
    requires range { InRange buffer }
    ensures bx { field.new.bx ≡ field.old.bx }
    ensures cells { (x : Cell) → tagged field.new x ≡ ((holds field.old.bx x && list_any (λ c. holds (spread frame.now buffer s c) x) cells.now) || tagged field.old x) }
{
    for cell in cells {
        mark_cell(field, *cell, s, frame, buffer);
    }
}

/// Marks what a box has for another.
fn mark_seen(field: &mut TagField, one: &Seen, frame: &Domain, buffer: IVec)
    requires cells { All InRange one.now.cells }
    requires low { AtMost (alike (pos 0)) buffer }
    requires range { InRange buffer }
    ensures bx { field.new.bx ≡ field.old.bx }
    ensures cells { (x : Cell) → tagged field.new x ≡ ((holds field.old.bx x && marks frame.now buffer one.now x) || tagged field.old x) }
{
    mark_cells(field, one.cells.as_slice(), one.edge.shift, frame, buffer);
}

/// Whether an edge leads to a box.
fn leads_to(e: Edge, a: BoxRef) -> bool
    ensures { result ≡ is_eq (ref_cmp e.head a) }
{
    e.head == a
}

/// Marks what a box has for another, if that is the one looked for.
fn mark_for(field: &mut TagField, a: BoxRef, one: &Seen, frame: &Domain, buffer: IVec)
    requires cells { All InRange one.now.cells }
    requires low { AtMost (alike (pos 0)) buffer }
    requires range { InRange buffer }
    ensures bx { field.new.bx ≡ field.old.bx }
    ensures cells { (x : Cell) → tagged field.new x ≡ ((holds field.old.bx x && (is_for a one.now && marks frame.now buffer one.now x)) || tagged field.old x) }
{
    if leads_to(one.edge, a) {
        mark_seen(field, one, frame, buffer);
    }
}

/// Marks what is for a box.
fn mark_list(field: &mut TagField, a: BoxRef, list: &[Seen], frame: &Domain, buffer: IVec)
    requires cells { All (λ one. All InRange one.cells) list.now }
    requires low { AtMost (alike (pos 0)) buffer }
    requires range { InRange buffer }
    ensures bx { field.new.bx ≡ field.old.bx }
    ensures cells { (x : Cell) → tagged field.new x ≡ ((holds field.old.bx x && marked_by frame.now buffer a list.now x) || tagged field.old x) }
{
    for one in list {
        mark_for(field, a, one, frame, buffer);
    }
}

/// Marks what letters have for a box.
fn mark_held(
    field: &mut TagField,
    a: BoxRef,
    held: &[Held<Listed<Seen>>],
    frame: &Domain,
    buffer: IVec,
)
    requires cells { All (λ letter. All (λ one. All InRange one.cells) letter.body) held.now }
    requires low { AtMost (alike (pos 0)) buffer }
    requires range { InRange buffer }
    ensures bx { field.new.bx ≡ field.old.bx }
    ensures cells { (x : Cell) → tagged field.new x ≡ ((holds field.old.bx x && list_any (λ letter. marked_by frame.now buffer a letter.body x) held.now) || tagged field.old x) }
{
    for letter in held {
        mark_list(field, a, letter.body.as_slice(), frame, buffer);
    }
}

/// The tag field of a box: what the rank's own boxes have for it and what letters have.
fn marked(
    alloc: Global,
    a: BoxRef,
    own: &[Seen],
    held: &[Held<Listed<Seen>>],
    frame: &Domain,
    buffer: IVec,
) -> Result<TagField, NoMemory>
    requires own { All (λ one. All InRange one.cells) own.now }
    requires held { All (λ letter. All (λ one. All InRange one.cells) letter.body) held.now }
    requires low { AtMost (alike (pos 0)) buffer }
    requires range { InRange buffer }
    ensures bx { IfOk result (λ field. field.bx ≡ a.bx) }
    ensures cells { IfOk result (λ field. (x : Cell) → tagged field x ≡ (holds a.bx x && marked_at frame.now buffer a own.now held.now x)) }
{
    let mut field = TagField::new(alloc, a.bx)?;
    mark_list(&mut field, a, own, frame, buffer);
    mark_held(&mut field, a, held, frame, buffer);
    Ok(field)
}

/// The tag fields of a rank's boxes.
pub fn all_marked(
    alloc: Global,
    rank: u16,
    boxes: &[IBox],
    own: &[Seen],
    held: &[Held<Listed<Seen>>],
    frame: &Domain,
    buffer: IVec,
) -> Result<Vec<TagField>, NoMemory>
    requires own { All (λ one. All InRange one.cells) own.now }
    requires held { All (λ letter. All (λ one. All InRange one.cells) letter.body) held.now }
    requires low { AtMost (alike (pos 0)) buffer }
    requires range { InRange buffer }
    ensures { IfOk result (λ v. AreMarked frame.now buffer rank own.now held.now boxes.now v.items) }
{
    let mut fields = Vec::new(alloc);
    for bx in boxes {
        let a = BoxRef {
            owner: rank,
            bx: *bx,
        };
        fields.push(marked(alloc, a, own, held, frame, buffer)?)?;
    }
    Ok(fields)
}
