//! What a list of boxes covers: common parts with a box, grown members, and whether members meet.

ghost use Rattle.std.specs.Prelude.{◌≡◌, ◌↔◌, ℕ, pos, List, map, if◌then◌else◌, IfOk, IsTrue, true, not};
ghost use Rattle.std.specs.List.{All, filter_map, list_any};
ghost use Rattle.samr_box.specs.declared.vector.IVec.{IVec};
ghost use Rattle.samr_box.specs.Vector.{alike, AtMost, Within};
ghost use Rattle.samr_box.specs.Corners.{IsBox, Holds, holds, meets, met, grown};
ghost use Rattle.samr_boxlist.specs.Covers.{cover, held, IsNear, IsDisjoint, NoneMeet};

use crate::cuts::{push_some, subtract_each};
use samr_box::{IBox, IVec, boxes_meet, grow, meet};
use std::alloc::{AllocError as NoMemory, Global};

/// The parts of the members that lie in a box, in the order of the list.
pub fn intersect(alloc: Global, list: &[IBox], b: IBox) -> Result<Vec<IBox>, NoMemory>
    ensures value { IfOk result (λ v. v.items ≡ filter_map (λ a. met a b) list.now) }
    ensures cells { IfOk result (λ v. (x : IVec) → cover x v.items ≡ (if holds b x then cover x list.now else 0)) }
    ensures boxes { IfOk result (λ v. All IsBox v.items) }
{
    let mut parts = Vec::new(alloc);
    for a in list {
        push_some(meet(*a, b), &mut parts)?;
    }
    Ok(parts)
}

/// The members grown by a width, in the order of the list.
pub fn grown(alloc: Global, list: &[IBox], w: IVec) -> Result<Vec<IBox>, NoMemory>
    requires { All (λ a. IsBox (grown a w)) list.now }
    ensures value { IfOk result (λ v. v.items ≡ map (λ a. grown a w) list.now) }
    ensures cells { IfOk result (λ v. AtMost (alike (pos 0)) w → (x : IVec) → IsTrue (held x v.items) ↔ IsNear w x list.now) }
{
    let mut wider = Vec::new(alloc);
    for a in list {
        wider.push(grow(*a, w))?;
    }
    Ok(wider)
}

/// Whether every cell of a box lies in a member.
pub fn covers(alloc: Global, list: &[IBox], b: IBox) -> Result<bool, NoMemory>
    ensures { IfOk result (λ r. IsTrue r ↔ ((x : IVec) → Holds b x → IsTrue (held x list.now))) }
{
    let left = subtract_each(alloc, Vec::from_slice(alloc, [b].as_slice())?, list)?;
    Ok(left.as_slice().is_empty())
}

/// Whether no two members meet.
pub fn disjoint(list: &[IBox]) -> bool
    ensures pairs { IsTrue result ↔ NoneMeet list.now }
    ensures cells { IsTrue result ↔ IsDisjoint list.now }
{
    let mut rest = list;
    while let Some((first, others)) = rest.split_first() {
        if meets_any(others, *first) {
            return false;
        }
        rest = others;
    }
    true
}

/// Whether a box meets a member.
fn meets_any(list: &[IBox], b: IBox) -> bool
    ensures value { result ≡ list_any (λ a. meets a b) list.now }
    ensures cell { IsTrue result → (x : IVec) × IsTrue (holds b x) × IsTrue (held x list.now) }
{
    for a in list {
        if boxes_meet(*a, b) {
            return true;
        }
    }
    false
}
