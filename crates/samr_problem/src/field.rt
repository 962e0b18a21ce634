//! The fields of a problem, each from its table.

ghost use Rattle.std.specs.Prelude.{◌≡◌, option_map};
ghost use Rattle.toml.specs.View.{view, table_view};
ghost use Rattle.samr_problem.specs.Fields.{init_of, rule_of, border_of, refine_of, coarsen_of, field_of};

use crate::lookup::{
    entry_number, entry_of, is_text, number_at, value_at, vector_at, vector_from, word,
};
use samr_box::IVec;
use samr_ops::{Border, CoarsenRule, RefineRule, Rule};
use toml::{Table, Value};

/// The first values of a field: at a cell of level 0, `first` plus each slope times the cell's
/// coordinate on that axis, modulo the modulus.
#[derive(Clone, Copy, Debug, PartialEq, Eq)]
pub struct Init {
    pub first: u32,
    pub i: u32,
    pub j: u32,
    pub k: u32,
}

/// A field: a value in each cell of each level.
#[derive(Clone, Copy, Debug, PartialEq, Eq)]
pub struct Field {
    /// How many cells about a box have ghost values, on each axis.
    pub ghosts: IVec,
    /// Values are below it.
    pub modulus: u32,
    pub init: Init,
    /// The factor of the cell's own value in an update.
    pub centre: u32,
    /// The factor of the values of the cells at its faces.
    pub face: u32,
    pub refine: RefineRule,
    pub coarsen: CoarsenRule,
    pub boundary: Border,
}

#[tactic(auto, unfolding(crate::specs::Fields::init_of))]
fn init_of(dim: usize, value: Option<&Value>) -> Init
    ensures { result ≡ init_of dim (option_map (λ v. view v.now) value.entry) }
{
    let slopes = vector_from(1, dim, value, 0, 0);
    Init {
        first: word(entry_number(0, value, 0)),
        i: word(slopes.i),
        j: word(slopes.j),
        k: word(slopes.k),
    }
}

#[tactic(auto, unfolding(crate::specs::Fields::rule_of))]
fn rule_of(value: Option<&Value>) -> Rule
    ensures { result ≡ rule_of (option_map (λ v. view v.now) value.entry) }
{
    if is_text("reflect", value) {
        return Rule::Reflect;
    }
    let Some(value) = value else {
        return Rule::Clamp;
    };
    match value.as_integer() {
        Some(number) => Rule::Fixed(word(number)),
        None => Rule::Clamp,
    }
}

#[tactic(auto, unfolding(crate::specs::Fields::border_of))]
fn border_of(dim: usize, value: Option<&Value>) -> Border
    ensures { result ≡ border_of dim (option_map (λ v. view v.now) value.entry) }
{
    let k = if dim == 2 {
        Rule::Clamp
    } else {
        rule_of(entry_of(2, value))
    };
    let j = rule_of(entry_of(1, value));
    let i = rule_of(entry_of(0, value));
    Border { i, j, k }
}

#[tactic(auto, unfolding(crate::specs::Fields::refine_of))]
fn refine_of(value: Option<&Value>) -> RefineRule
    ensures { result ≡ refine_of (option_map (λ v. view v.now) value.entry) }
{
    if is_text("ramp", value) {
        return RefineRule::Ramp;
    }
    RefineRule::Same
}

#[tactic(auto, unfolding(crate::specs::Fields::coarsen_of))]
fn coarsen_of(value: Option<&Value>) -> CoarsenRule
    ensures { result ≡ coarsen_of (option_map (λ v. view v.now) value.entry) }
{
    if is_text("max", value) {
        return CoarsenRule::Max;
    }
    if is_text("sum", value) {
        return CoarsenRule::Sum;
    }
    CoarsenRule::First
}

/// The field that a table is, or the top of the document.
#[tactic(auto, unfolding(crate::specs::Fields::field_of))]
pub fn field_of(dim: usize, table: &Table) -> Field
    ensures { result ≡ field_of dim (table_view table.now) }
{
    let update = value_at(table, "update");
    Field {
        ghosts: vector_at(dim, table, "ghost", 0, 0),
        modulus: word(number_at(table, "modulus", 1_000_000)),
        init: init_of(dim, value_at(table, "init")),
        centre: word(entry_number(0, update, 1)),
        face: word(entry_number(1, update, 0)),
        refine: refine_of(value_at(table, "refine")),
        coarsen: coarsen_of(value_at(table, "coarsen")),
        boundary: border_of(dim, value_at(table, "boundary")),
    }
}
