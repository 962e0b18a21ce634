//! What the boxes of a rank have for the boxes near them, by a look at their cells.

ghost use Rattle.std.specs.Prelude.{◌≡◌, List, [], IfOk, filter, map};
ghost use Rattle.std.specs.List.{All};
ghost use Rattle.samr_box.specs.declared.vector.IVec.{IVec as Cell};
ghost use Rattle.samr_box.specs.Vector.{alike, AtMost, InRange};
ghost use Rattle.samr_box.specs.Corners.{Holds};
ghost use Rattle.samr_tags.specs.Seeing.{seen_cells, seen};
ghost use Rattle.std.specs.Prelude.{pos};

use crate::cells::tagged_in;
use crate::given::Given;
use crate::region::seen_region;
use crate::seen::Seen;
use samr_box::{Domain, IBox, IVec, Listed};
use samr_level::Edge;
use std::alloc::{AllocError as NoMemory, Global};

/// The cells of an edge's base that a shape tags and that lie about its head.
fn seen_cells<T: Given>(
    alloc: Global,
    given: &T,
    level: u8,
    step: u32,
    e: Edge,
    frame: &Domain,
    buffer: IVec,
) -> Result<Listed<IVec>, NoMemory>
    requires told { (x : Cell) → Holds e.base.bx x → T.may_tell given.now level step x }
    requires low { AtMost (alike (pos 0)) buffer }
    requires range { InRange buffer }
    ensures { IfOk result (λ v. v ≡ seen_cells frame.now buffer (T.is_tagged given.now level step) e) }
{
    let Some(region) = seen_region(e, frame, buffer) else {
        return Ok(Listed::new(alloc));
    };
    let tagged = tagged_in(alloc, given, level, step, region)?;
    Ok(Listed::from_vec(tagged))
}

/// What the base of an edge has for its head.
#[tactic(auto, unfolding(crate::specs::Seeing::seen))]
fn seen_by<T: Given>(
    alloc: Global,
    given: &T,
    level: u8,
    step: u32,
    e: Edge,
    frame: &Domain,
    buffer: IVec,
) -> Result<Seen, NoMemory>
    requires told { (x : Cell) → Holds e.base.bx x → T.may_tell given.now level step x }
    requires low { AtMost (alike (pos 0)) buffer }
    requires range { InRange buffer }
    ensures { IfOk result (λ v. v ≡ seen frame.now buffer (T.is_tagged given.now level step) e) }
{
    let cells = seen_cells(alloc, given, level, step, e, frame, buffer)?;
    Ok(Seen { edge: e, cells })
}

/// What the bases of edges have for their heads.
pub fn all_seen<T: Given>(
    alloc: Global,
    given: &T,
    level: u8,
    step: u32,
    edges: &[Edge],
    frame: &Domain,
    buffer: IVec,
) -> Result<Vec<Seen>, NoMemory>
    requires told { All (λ e. (x : Cell) → Holds e.base.bx x → T.may_tell given.now level step x) edges.now }
    requires low { AtMost (alike (pos 0)) buffer }
    requires range { InRange buffer }
    ensures { IfOk result (λ v. v.items ≡ map (λ e. seen frame.now buffer (T.is_tagged given.now level step) e) edges.now) }
{
    let mut all = Vec::new(alloc);
    for e in edges {
        all.push(seen_by(alloc, given, level, step, *e, frame, buffer)?)?;
    }
    Ok(all)
}
