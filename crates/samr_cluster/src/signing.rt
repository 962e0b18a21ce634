//! The signatures of near nodes that a rank tells their directors.

ghost use Rattle.std.specs.Prelude.{◌≡◌, ◌<◌, ◌^◌, ◌++◌, IfOk, OnOk, map, filter};
ghost use Rattle.std.specs.List.{All};
ghost use Rattle.samr_box.specs.Vector.{InRange};
ghost use Rattle.samr_box.specs.Corners.{cells_of};
ghost use Rattle.samr_sign.specs.Fields.{AreApart};
ghost use Rattle.samr_rounds.specs.Near.{is_near};
ghost use Rattle.samr_cluster.specs.ReportRow.{sign_for, signs_for};

use crate::nodes::Told;
use samr_box::{Domain, IBox, IVec, Listed};
use samr_rounds::is_near;
use samr_sign::{Signature, TagField};
use std::alloc::{AllocError as NoMemory, Global};

/// The boxes of tag fields.
pub fn boxes_of(alloc: Global, fields: &[TagField]) -> Result<Vec<IBox>, NoMemory>
    ensures { IfOk result (λ v. v.items ≡ map (λ f. f.bx) fields.now) }
{
    let mut boxes = Vec::new(alloc);
    for f in fields {
        boxes.push(f.bx())?;
    }
    Ok(boxes)
}

/// Those of the told nodes that are near one of these boxes.
pub fn near_nodes(
    alloc: Global,
    told: &[Told],
    boxes: &[IBox],
    width: IVec,
    frame: &Domain,
) -> Result<Vec<Told>, NoMemory>
    requires { InRange width }
    ensures { IfOk result (λ v. v.items ≡ filter (λ t. is_near frame.now width boxes.now t.node) told.now) }
{
    let mut near = Vec::new(alloc);
    for t in told {
        if is_near(boxes, t.node, width, frame) {
            near.push(*t)?;
        }
    }
    Ok(near)
}

/// Adds the signature of a node, where it is one of a director.
fn push_signature(
    alloc: Global,
    director: u16,
    fields: &[TagField],
    t: Told,
    signs: &mut Vec<Signature>,
) -> Result<(), NoMemory>
    requires apart { AreApart fields.now }
    requires few { cells_of t.node < 2 ^ 63 }
    ensures { OnOk result (signs.new.items ≡ signs.old.items ++ sign_for director fields.now t) }
{
    if t.director == director {
        signs.push(Signature::of(alloc, t.node, fields)?)?;
    }
    Ok(())
}

/// The signatures of the nodes of a director.
#[tactic(auto, unfolding(crate::specs::ReportRow::signs_for))]
pub fn signatures_for(
    alloc: Global,
    director: u16,
    fields: &[TagField],
    near: &[Told],
) -> Result<Listed<Signature>, NoMemory>
    requires apart { AreApart fields.now }
    requires few { All (λ t. cells_of t.node < 2 ^ 63) near.now }
    ensures { IfOk result (λ l. l ≡ signs_for director fields.now near.now) }
{
    let mut signs = Vec::new(alloc);
    for t in near {
        push_signature(alloc, director, fields, *t, &mut signs)?;
    }
    Ok(Listed::from_vec(signs))
}

/// The letters with these signatures, one for each director.
pub fn letters_to(
    alloc: Global,
    directors: &[u16],
    fields: &[TagField],
    near: &[Told],
) -> Result<Vec<(u16, Listed<Signature>)>, NoMemory>
    requires apart { AreApart fields.now }
    requires few { All (λ t. cells_of t.node < 2 ^ 63) near.now }
    ensures { IfOk result (λ v. v.items ≡ map (λ to. (to, signs_for to fields.now near.now)) directors.now) }
{
    let mut letters = Vec::new(alloc);
    for to in directors {
        let body = signatures_for(alloc, *to, fields, near)?;
        letters.push((*to, body))?;
    }
    Ok(letters)
}
