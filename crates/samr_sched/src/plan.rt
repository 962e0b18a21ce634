//! Plans and requests: what a rank knows of the origins of its ghost cells.

ghost use Rattle.std.specs.Prelude.{◌≡◌, IfOk};

use samr_box::{Domain, IBox, IVec, Listed, Ratio};
use samr_level::{BoxRef, Edge};
use std::alloc::{AllocError as NoMemory, Global};

/// Coarse cells that a rank asks for: `bx` lies in the image of the head of an edge from one of its boxes
/// to a box of the level below.
#[derive(Clone, Copy, Debug, PartialEq, Eq, PartialOrd, Ord)]
pub struct Request {
    pub edge: Edge,
    pub field: u8,
    pub bx: IBox,
}

/// Where the ghost cells of a box get the values of a field from.
///
/// `inside` are the parts of the box and its ghost cells that lie in the domain. Of these cells each that lies in
/// an image of a box of the level is copied: `copies` are the edges to such boxes. `rest` has all others, and
/// `asked` what they need of the level below.
#[derive(Debug, Drop)]
pub struct FieldPlan {
    pub width: IVec,
    pub inside: Listed<IBox>,
    pub copies: Listed<Edge>,
    pub rest: Listed<IBox>,
    pub asked: Listed<Request>,
}

/// The plans of the fields of a box.
#[derive(Debug, Drop)]
pub struct BoxPlan {
    pub base: BoxRef,
    pub fields: Listed<FieldPlan>,
}

/// What another rank asks of this one.
#[derive(Debug, Drop)]
pub struct Asked {
    pub rank: u16,
    pub requests: Listed<Request>,
}

/// A rank's schedule of a level: where the ghost cells of each of its boxes get their values from, and what
/// other ranks ask of its boxes of the level below.
///
/// `frame` and `below` are the frames of the level and of the one below it, `step` the ratio between the two.
/// `near` are the other owners of boxes near its own, and `under` those of boxes below its own: of the latter it asks.
#[derive(Debug, Drop)]
pub struct Plan {
    pub rank: u16,
    pub frame: Domain,
    pub below: Domain,
    pub step: Ratio,
    pub near: Listed<u16>,
    pub under: Listed<u16>,
    pub boxes: Listed<BoxPlan>,
    pub others: Listed<Asked>,
    pub fixed: Listed<u32>,
}

impl FieldPlan {
    /// The same once more.
    pub fn copied(&self, alloc: Global) -> Result<FieldPlan, NoMemory>
        ensures { IfOk result (λ p. p ≡ self.now) }
    {
        Ok(FieldPlan {
            width: self.width,
            inside: self.inside.copied(alloc)?,
            copies: self.copies.copied(alloc)?,
            rest: self.rest.copied(alloc)?,
            asked: self.asked.copied(alloc)?,
        })
    }
}

impl BoxPlan {
    /// The same once more.
    pub fn copied(&self, alloc: Global) -> Result<BoxPlan, NoMemory>
        ensures { IfOk result (λ p. p ≡ self.now) }
    {
        let fields = copied_fields(alloc, self.fields.as_slice())?;
        Ok(BoxPlan {
            base: self.base,
            fields: Listed::from_vec(fields),
        })
    }
}

impl Asked {
    /// The same once more.
    pub fn copied(&self, alloc: Global) -> Result<Asked, NoMemory>
        ensures { IfOk result (λ p. p ≡ self.now) }
    {
        Ok(Asked {
            rank: self.rank,
            requests: self.requests.copied(alloc)?,
        })
    }
}

impl Plan {
    /// The same once more.
    ///
    /// # Errors
    ///
    /// Where memory is short.
    pub fn copied(&self, alloc: Global) -> Result<Plan, NoMemory>
        ensures { IfOk result (λ p. p ≡ self.now) }
    {
        let boxes = copied_boxes(alloc, self.boxes.as_slice())?;
        let others = copied_others(alloc, self.others.as_slice())?;
        Ok(Plan {
            rank: self.rank,
            frame: self.frame,
            below: self.below,
            step: self.step,
            near: self.near.copied(alloc)?,
            under: self.under.copied(alloc)?,
            boxes: Listed::from_vec(boxes),
            others: Listed::from_vec(others),
            fixed: self.fixed.copied(alloc)?,
        })
    }
}

fn copied_fields(alloc: Global, list: &[FieldPlan]) -> Result<Vec<FieldPlan>, NoMemory>
    ensures { IfOk result (λ v. v.items ≡ list.now) }
{
    let mut all = Vec::new(alloc);
    for one in list {
        all.push(one.copied(alloc)?)?;
    }
    Ok(all)
}

fn copied_boxes(alloc: Global, list: &[BoxPlan]) -> Result<Vec<BoxPlan>, NoMemory>
    ensures { IfOk result (λ v. v.items ≡ list.now) }
{
    let mut all = Vec::new(alloc);
    for one in list {
        all.push(one.copied(alloc)?)?;
    }
    Ok(all)
}

fn copied_others(alloc: Global, list: &[Asked]) -> Result<Vec<Asked>, NoMemory>
    ensures { IfOk result (λ v. v.items ≡ list.now) }
{
    let mut all = Vec::new(alloc);
    for one in list {
        all.push(one.copied(alloc)?)?;
    }
    Ok(all)
}
