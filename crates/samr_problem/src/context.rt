//! What the test of a key looks at beside its own value: the whole document, and the key's own table.

ghost use Rattle.std.specs.Prelude.{◌≡◌, map, option_map, IfOk, take};
ghost use Rattle.std.specs.List.{list_any};
ghost use Rattle.toml.specs.View.{view, table_view};
ghost use Rattle.samr_box.specs.Corners.{meets};
ghost use Rattle.samr_problem.specs.Contexts.{corners_of, document_of, dim_of, finer, meets_any, own_of, ratio_of, ratios_of};

use crate::lookup::{entry_of, items_of, number_at, value_at, vector_at, vector_of};
use crate::ranges::is_within;
use samr_box::{IVec, Listed};
use std::alloc::{AllocError as NoMemory, Global};
use toml::{Table, Value};

/// What the tests of a key look at of the whole document.
#[derive(Debug, Drop)]
pub struct Document {
    /// How many axes are real.
    pub dim: usize,
    pub levels: i64,
    pub domain: IVec,
    /// The ratios of each level to the next one; none where `levels` is out of range.
    pub ratios: Listed<IVec>,
    pub has_parts: bool,
    /// How many `box` tables there are.
    pub boxes: usize,
}

/// What the tests of a key look at of the key's own table.
#[derive(Clone, Copy, Debug)]
pub struct Own {
    pub modulus: i64,
    pub ghosts: IVec,
    pub lo: IVec,
    pub hi: IVec,
    /// Whether the part meets an earlier one.
    pub meets: bool,
}

#[tactic(auto, unfolding(crate::specs::Contexts::ratio_of))]
fn ratio_of(dim: usize, value: Option<&Value>, n: usize) -> IVec
    ensures { result ≡ ratio_of dim (option_map (λ v. view v.now) value.entry) n }
{
    vector_of(dim, entry_of(n, value), 2, 1)
}

/// How many levels lie above level 0.
#[tactic(auto, unfolding(crate::specs::Contexts::finer))]
fn finer(levels: i64) -> usize
    ensures { result ≡ finer levels }
{
    if is_within(1, 5, levels) {
        return levels.unsigned_abs().saturating_sub(1) as usize;
    }
    0
}

#[tactic(auto, unfolding(crate::specs::Contexts::ratios_of))]
fn ratios_of(
    alloc: Global,
    dim: usize,
    value: Option<&Value>,
    count: usize,
) -> Result<Listed<IVec>, NoMemory>
    ensures { IfOk result (λ r. r ≡ ratios_of dim (option_map (λ v. view v.now) value.entry) count) }
{
    let mut ratios = Vec::new(alloc);
    for n in 0..count {
        ratios.push(ratio_of(dim, value, n))?;
    }
    Ok(Listed::from_vec(ratios))
}

#[tactic(auto, unfolding(crate::specs::Contexts::dim_of))]
fn dim_of(doc: &Table) -> usize
    ensures { result ≡ dim_of (table_view doc.now) }
{
    number_at(doc, "dim", 0).unsigned_abs() as usize
}

impl Document {
    ghost use Rattle.std.specs.Prelude.{◌≡◌, IfOk};
    ghost use Rattle.toml.specs.View.{table_view};
    ghost use Rattle.samr_problem.specs.Contexts.{document_of};

    /// What the tests look at of a document.
    #[tactic(auto, unfolding(crate::specs::Contexts::document_of))]
    pub fn of(alloc: Global, doc: &Table) -> Result<Document, NoMemory>
        ensures { IfOk result (λ d. d ≡ document_of (table_view doc.now)) }
    {
        let dim = dim_of(doc);
        let levels = number_at(doc, "levels", 1);
        let ratios = ratios_of(alloc, dim, value_at(doc, "ratio"), finer(levels))?;
        Ok(Document {
            dim,
            levels,
            domain: vector_at(dim, doc, "domain", 1, 1),
            ratios,
            has_parts: value_at(doc, "part").is_some(),
            boxes: items_of(value_at(doc, "box")).len(),
        })
    }
}

/// Whether the box of a table has a cell of the box with these corners.
#[tactic(auto, unfolding(crate::specs::Contexts::corners_of))]
fn meets_table(dim: usize, table: &Table, lo: IVec, hi: IVec) -> bool
    ensures { result ≡ meets (corners_of dim (table_view table.now)) (record { lo = lo; hi = hi }) }
{
    vector_at(dim, table, "lo", 0, 0).at_most(hi) && lo.at_most(vector_at(dim, table, "hi", 0, 0))
}

/// Whether the box of one of some tables has a cell of the box with these corners.
#[tactic(auto, unfolding(crate::specs::Contexts::meets_any))]
fn meets_any(dim: usize, earlier: &[&Table], lo: IVec, hi: IVec) -> bool
    ensures { result ≡ meets_any dim (map (λ t. table_view t.now) earlier.now) (record { lo = lo; hi = hi }) }
{
    for table in earlier {
        if meets_table(dim, table, lo, hi) {
            return true;
        }
    }
    false
}

/// What the tests look at of a table behind these earlier ones.
#[tactic(auto, unfolding(crate::specs::Contexts::own_of, crate::specs::Contexts::corners_of))]
pub fn own_of(dim: usize, earlier: &[&Table], table: &Table) -> Own
    ensures { result ≡ own_of dim (map (λ t. table_view t.now) earlier.now) (table_view table.now) }
{
    let lo = vector_at(dim, table, "lo", 0, 0);
    let hi = vector_at(dim, table, "hi", 0, 0);
    Own {
        modulus: number_at(table, "modulus", 1_000_000),
        ghosts: vector_at(dim, table, "ghost", 0, 0),
        lo,
        hi,
        meets: meets_any(dim, earlier, lo, hi),
    }
}
