//! Whether a value has the length and lies in the range that its key asks for.

ghost use Rattle.std.specs.Prelude.{◌≡◌, ◌+◌, ◌-◌, ◌<◌, ◌^◌, ◌||◌, pos, codes, is_none, nat_le, option_map, take, unsigned_abs, if◌then◌else◌};
ghost use Rattle.std.specs.Ordering.{int_eq};
ghost use Rattle.std.specs.List.{list_all};
ghost use Rattle.toml.specs.View.{view};
ghost use Rattle.samr_problem.specs.Ranges.{has_items, has_ratios, has_probes, has_length, is_any, values_fit, face_fits, factors_fit, is_fit_rule, rule_fits, rules_fit, rule_number, is_one_number, probe_fits, high_fits, low_fits, in_range};
ghost use Rattle.samr_problem.specs.Values.{is_within, axes_within, is_text, items_in, items_of};

use crate::context::{Document, Own};
use crate::keys::Kind;
use crate::lengths::{fits_in_level, is_cell, is_level_cell};
use crate::lookup::{
    entry_number, entry_of, flags_of, is_text, items_of, number_of, vector_from, vector_of,
};
use samr_box::{Flags, IVec};
use toml::Value;

/// Whether a number lies between two others, both included.
#[tactic(auto, unfolding(crate::specs::Values::is_within))]
pub fn is_within(low: i64, high: i64, number: i64) -> bool
    ensures { result ≡ is_within low high number }
{
    low <= number && number <= high
}

#[tactic(auto, unfolding(crate::specs::Values::axes_within))]
fn axes_within(dim: usize, low: i64, high: i64, vector: IVec) -> bool
    ensures { result ≡ axes_within dim low high vector }
{
    is_within(low, high, vector.i)
        && is_within(low, high, vector.j)
        && (dim == 2 || is_within(low, high, vector.k))
}

fn has_items(count: usize, value: &Value) -> bool
    ensures { result ≡ has_items count (view value.now) }
{
    items_of(Some(value)).len() == count
}

/// Whether a list has one item more than this.
fn has_one_more(count: usize, value: &Value) -> bool
    ensures { result ≡ has_items (count + 1) (view value.now) }
{
    let items = items_of(Some(value)).len();
    items > 0 && items - 1 == count
}

fn all_have_items(count: usize, items: &[Value]) -> bool
    ensures { result ≡ list_all (λ v. has_items count (view v)) items.now }
{
    items.iter().all(|item| has_items(count, item))
}

/// Whether each item of a list is a list of this length.
#[tactic(auto, using(crate::proofs::Items::list_all_view))]
fn items_have(count: usize, value: &Value) -> bool
    ensures { result ≡ list_all (has_items count) (items_in (view value.now)) }
{
    all_have_items(count, items_of(Some(value)))
}

fn all_have_one_more(count: usize, items: &[Value]) -> bool
    ensures { result ≡ list_all (λ v. has_items (count + 1) (view v)) items.now }
{
    items.iter().all(|item| has_one_more(count, item))
}

/// Whether each item of a list is a list of one item more than this.
#[tactic(auto, using(crate::proofs::Items::list_all_view))]
fn items_have_one_more(count: usize, value: &Value) -> bool
    ensures { result ≡ list_all (has_items (count + 1)) (items_in (view value.now)) }
{
    all_have_one_more(count, items_of(Some(value)))
}

#[tactic(auto, unfolding(crate::specs::Ranges::has_ratios))]
fn has_ratios(document: &Document, value: &Value) -> bool
    ensures { result ≡ has_ratios document.now (view value.now) }
{
    let count = items_of(Some(value)).len() as u64 + 1;
    (!is_within(1, 5, document.levels) || count == document.levels.unsigned_abs())
        && items_have(document.dim, value)
}

#[tactic(auto, unfolding(crate::specs::Ranges::has_probes))]
fn has_probes(document: &Document, value: &Value) -> bool
    ensures { result ≡ has_probes document.now (view value.now) }
{
    items_of(Some(value)).len() <= 64 && items_have_one_more(document.dim, value)
}

/// Whether a list has the length that a kind asks for.
#[tactic(auto, unfolding(crate::specs::Ranges::has_length))]
pub fn has_length(document: &Document, kind: Kind, value: &Value) -> bool
    ensures { result ≡ has_length document.now kind (view value.now) }
{
    match kind {
        Kind::Vector(_, _, _) | Kind::Flags | Kind::Rules => has_items(document.dim, value),
        Kind::Size | Kind::Low | Kind::High => has_items(document.dim, value),
        Kind::Values => has_one_more(document.dim, value),
        Kind::Factors => has_items(2, value),
        Kind::Ratios => has_ratios(document, value),
        Kind::Probes => has_probes(document, value),
        Kind::Tables(fewest, most) => {
            fewest <= items_of(Some(value)).len() && items_of(Some(value)).len() <= most
        }
        Kind::Balls => fits_beside(items_of(Some(value)).len(), document.boxes),
        Kind::Format | Kind::Number(_, _, _) | Kind::Tile => true,
        Kind::Refine | Kind::Coarsen => true,
    }
}

/// Whether there are at most 32 shapes of both kinds together.
fn fits_beside(balls: usize, boxes: usize) -> bool
    ensures { result ≡ nat_le (balls + boxes) 32 }
{
    balls.saturating_add(boxes) <= 32
}

fn is_any(flags: Flags) -> bool
    ensures { result ≡ is_any flags }
{
    flags.i || flags.j || flags.k
}

#[tactic(auto, unfolding(crate::specs::Ranges::values_fit))]
fn values_fit(dim: usize, value: Option<&Value>) -> bool
    ensures { result ≡ values_fit dim (option_map (λ v. view v.now) value.entry) }
{
    is_within(0, 2_147_483_646, entry_number(0, value, 0))
        && axes_within(dim, 0, 2_147_483_646, vector_from(1, dim, value, 0, 0))
}

fn face_fits(dim: usize, ghosts: IVec, face: i64) -> bool
    ensures { result ≡ face_fits dim ghosts face }
{
    is_within(0, 1_000, face) && (face <= 0 || axes_within(dim, 1, 8, ghosts))
}

#[tactic(auto, unfolding(crate::specs::Ranges::factors_fit))]
fn factors_fit(dim: usize, ghosts: IVec, value: Option<&Value>) -> bool
    ensures { result ≡ factors_fit dim ghosts (option_map (λ v. view v.now) value.entry) }
{
    is_within(0, 1_000, entry_number(0, value, 1))
        && face_fits(dim, ghosts, entry_number(1, value, 0))
}

#[tactic(auto, unfolding(crate::specs::Ranges::is_fit_rule))]
fn is_fit_rule(modulus: i64, value: &Value) -> bool
    ensures { result ≡ is_fit_rule modulus (view value.now) }
{
    match value.as_integer() {
        Some(number) => 0 <= number && number < modulus,
        None => is_text("clamp", Some(value)) || is_text("reflect", Some(value)),
    }
}

fn rule_fits(modulus: i64, value: Option<&Value>) -> bool
    ensures { result ≡ rule_fits modulus (option_map (λ v. view v.now) value.entry) }
{
    match value {
        Some(value) => is_fit_rule(modulus, value),
        None => true,
    }
}

#[tactic(auto, unfolding(crate::specs::Ranges::rules_fit))]
fn rules_fit(dim: usize, modulus: i64, value: Option<&Value>) -> bool
    ensures { result ≡ rules_fit dim modulus (option_map (λ v. view v.now) value.entry) }
{
    rule_fits(modulus, entry_of(0, value))
        && rule_fits(modulus, entry_of(1, value))
        && (dim == 2 || rule_fits(modulus, entry_of(2, value)))
}

fn rule_number(place: usize, value: Option<&Value>) -> i64
    ensures { result ≡ rule_number place (option_map (λ v. view v.now) value.entry) }
{
    entry_number(place, value, -1)
}

#[tactic(auto, unfolding(crate::specs::Ranges::is_one_number))]
fn is_one_number(dim: usize, value: Option<&Value>) -> bool
    ensures { result ≡ is_one_number dim (option_map (λ v. view v.now) value.entry) }
{
    0 <= rule_number(0, value)
        && rule_number(0, value) == rule_number(1, value)
        && (dim == 2 || rule_number(0, value) == rule_number(2, value))
}

/// The ratios of the levels below a level.
fn ratios_below(level: i64, ratios: &[IVec]) -> &[IVec]
    ensures { result.now ≡ take (unsigned_abs level) ratios.now }
{
    let level = level.unsigned_abs() as usize;
    if level < ratios.len() {
        &ratios[..level]
    } else {
        ratios
    }
}

#[tactic(auto, unfolding(crate::specs::Ranges::probe_fits))]
fn probe_fits(document: &Document, value: &Value) -> bool
    ensures { result ≡ probe_fits document.now (view value.now) }
{
    let level = entry_number(0, Some(value), 0);
    let cell = vector_from(1, document.dim, Some(value), 0, 0);
    is_within(0, 4, level)
        && level < document.levels
        && is_level_cell(
            document.domain,
            ratios_below(level, document.ratios.as_slice()),
            cell,
        )
}

fn all_probes_fit(document: &Document, items: &[Value]) -> bool
    ensures { result ≡ list_all (λ v. probe_fits document.now (view v)) items.now }
{
    items.iter().all(|item| probe_fits(document, item))
}

#[tactic(auto, using(crate::proofs::Items::list_all_view))]
fn probes_fit(document: &Document, value: Option<&Value>) -> bool
    ensures { result ≡ list_all (probe_fits document.now) (items_of (option_map (λ v. view v.now) value.entry)) }
{
    all_probes_fit(document, items_of(value))
}

#[tactic(auto, unfolding(crate::specs::Ranges::high_fits))]
fn high_fits(document: &Document, own: Own) -> bool
    ensures { result ≡ high_fits document.now own }
{
    own.lo.at_most(own.hi) && is_cell(document.domain, own.hi)
}

#[tactic(auto, unfolding(crate::specs::Ranges::low_fits))]
fn low_fits(document: &Document, own: Own) -> bool
    ensures { result ≡ low_fits document.now own }
{
    is_cell(document.domain, own.lo) && !(high_fits(document, own) && own.meets)
}

fn are_ratios(dim: usize, ratios: &[IVec]) -> bool
    ensures { result ≡ list_all (axes_within dim (pos 2) (pos 4)) ratios.now }
{
    ratios.iter().all(|ratio| axes_within(dim, 2, 4, *ratio))
}

fn format_fits(has_parts: bool, format: i64) -> bool
    ensures { result ≡ is_within (if has_parts then pos 2 else pos 1) (pos 2) format }
{
    let least = if has_parts { 2 } else { 1 };
    is_within(least, 2, format)
}

fn is_refine(value: Option<&Value>) -> bool
    ensures { result ≡ (is_none (option_map (λ v. view v.now) value.entry) || (is_text (codes "copy") (option_map (λ v. view v.now) value.entry) || is_text (codes "ramp") (option_map (λ v. view v.now) value.entry))) }
{
    value.is_none() || is_text("copy", value) || is_text("ramp", value)
}

fn is_coarsen(value: Option<&Value>) -> bool
    ensures { result ≡ (is_none (option_map (λ v. view v.now) value.entry) || (is_text (codes "first") (option_map (λ v. view v.now) value.entry) || (is_text (codes "max") (option_map (λ v. view v.now) value.entry) || is_text (codes "sum") (option_map (λ v. view v.now) value.entry)))) }
{
    value.is_none() || is_text("first", value) || is_text("max", value) || is_text("sum", value)
}

/// Whether a value, or the default where there is none, is in the range that a kind asks for.
#[tactic(auto, unfolding(crate::specs::Ranges::in_range))]
pub fn in_range(document: &Document, own: Own, kind: Kind, value: Option<&Value>) -> bool
    ensures { result ≡ in_range document.now own kind (option_map (λ v. view v.now) value.entry) }
{
    let dim = document.dim;
    match kind {
        Kind::Format => format_fits(document.has_parts, number_of(value, 0)),
        Kind::Number(low, high, otherwise) => is_within(low, high, number_of(value, otherwise)),
        Kind::Vector(low, high, otherwise) => {
            axes_within(dim, low, high, vector_of(dim, value, otherwise, 0))
        }
        Kind::Flags => !(document.has_parts && is_any(flags_of(dim, value))),
        Kind::Ratios => are_ratios(dim, document.ratios.as_slice()),
        Kind::Tile => is_tile(number_of(value, 0)),
        Kind::Values => values_fit(dim, value),
        Kind::Factors => factors_fit(dim, own.ghosts, value),
        Kind::Refine => is_refine(value),
        Kind::Coarsen => is_coarsen(value),
        Kind::Rules => {
            rules_fit(dim, own.modulus, value) && (!document.has_parts || is_one_number(dim, value))
        }
        Kind::Probes => probes_fit(document, value),
        Kind::Tables(_, _) | Kind::Balls => true,
        Kind::Size => fits_in_level(
            document.domain,
            document.ratios.as_slice(),
            vector_of(dim, value, 1, 1),
        ),
        Kind::Low => low_fits(document, own),
        Kind::High => high_fits(document, own),
    }
}

fn is_tile(number: i64) -> bool
    ensures { result ≡ (int_eq number (pos 0) || is_within (pos 8) (pos 4194304) number) }
{
    number == 0 || is_within(8, 4_194_304, number)
}
