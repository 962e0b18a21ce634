//! The rules of a field: how values are refined, what stands beyond borders, and updates.

ghost use Rattle.std.specs.Prelude.{◌≡◌, ◌*◌, ◌<◌, ℤ, pos, ◌≤ℤ◌};
ghost use Rattle.samr_box.specs.Vector.{at};
ghost use Rattle.samr_ops.specs.Rules.{IsRules, IsOffset, rule_on, refined_value, edge_of, updated_value};

use samr_box::{Axis, IVec};

/// What a fine cell has of the coarse cell over it.
#[derive(Clone, Copy, Debug, PartialEq, Eq)]
pub enum RefineRule {
    /// The coarse value.
    Same,
    /// The coarse value and the offsets of the fine cell in it, modulo the modulus.
    Ramp,
}

/// What a coarse cell has of the fine cells in it.
#[derive(Clone, Copy, Debug, PartialEq, Eq)]
pub enum CoarsenRule {
    /// The value of the fine cell with the lowest corner.
    First,
    /// The greatest value.
    Max,
    /// The sum of the values, modulo the modulus.
    Sum,
}

/// What stands beyond a physical border, on one axis.
#[derive(Clone, Copy, Debug, PartialEq, Eq)]
pub enum Rule {
    /// One value everywhere.
    Fixed(u32),
    /// The value of the border cell.
    Clamp,
    /// The value of the cell as far inside as the cell is outside.
    Reflect,
}

/// What stands beyond the physical borders of each axis.
#[derive(Clone, Copy, Debug, PartialEq, Eq)]
pub struct Border {
    pub i: Rule,
    pub j: Rule,
    pub k: Rule,
}

impl Border {
    /// The rule of an axis.
    pub fn at(self, axis: Axis) -> Rule
        ensures { result ≡ rule_on axis self }
    {
        match axis {
            Axis::I => self.i,
            Axis::J => self.j,
            Axis::K => self.k,
        }
    }
}

/// What a boundary answers for a cell beyond a border.
#[derive(Clone, Copy, Debug, PartialEq, Eq)]
pub enum Edgewise {
    /// This value.
    Value(u32),
    /// The value of the cell at this depth inside, 1 being the border cell.
    Depth(i64),
}

/// The rules of a field.
#[derive(Clone, Copy, Debug, PartialEq, Eq)]
pub struct Rules {
    /// Values are below it.
    pub modulus: u32,
    /// How many ghost cells stand about a box, on each axis.
    pub width: IVec,
    /// The factor of the cell's own value in an update.
    pub centre: u32,
    /// The factor of the values of the cells at its faces.
    pub face: u32,
    pub refine: RefineRule,
    pub boundary: Border,
}

/// The refine operator of some rules: the value of a fine cell at an offset in a coarse cell of this
/// value.
pub fn refined(rules: &Rules, v: u32, offset: IVec) -> u32
    requires rules { IsRules rules.now }
    requires value { v < rules.now.modulus }
    requires offset { IsOffset offset }
    ensures { result ≡ refined_value rules.now v offset }
{
    match rules.refine {
        RefineRule::Same => v,
        RefineRule::Ramp => {
            let i = offset.i as u32;
            let j = offset.j as u32;
            let k = offset.k as u32;
            (v + i + j + k) % rules.modulus
        }
    }
}

/// The boundary of some rules: what stands at a depth beyond a border of an axis.
pub fn edge(rules: &Rules, axis: Axis, depth: i64) -> Edgewise
    ensures { result ≡ edge_of rules.now axis depth }
{
    match rules.boundary.at(axis) {
        Rule::Fixed(v) => Edgewise::Value(v),
        Rule::Clamp => Edgewise::Depth(1),
        Rule::Reflect => Edgewise::Depth(depth),
    }
}

/// The update of some rules: the value of a cell after a step, from its own and the sum of those of
/// the cells at its faces.
pub fn updated(rules: &Rules, v: u32, sum: u64) -> u32
    requires rules { IsRules rules.now }
    requires value { v < rules.now.modulus }
    requires sum { sum < 6 * rules.now.modulus }
    ensures { result ≡ updated_value rules.now v sum }
{
    let own = u64::from(rules.centre) * u64::from(v);
    let others = u64::from(rules.face) * sum;
    ((own + others) % u64::from(rules.modulus)) as u32
}
