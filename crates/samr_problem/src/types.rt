//! Whether a value is of the type that its key asks for.

ghost use Rattle.std.specs.Prelude.{◌≡◌, map};
ghost use Rattle.std.specs.List.{list_all};
ghost use Rattle.toml.specs.View.{view};
ghost use Rattle.samr_problem.specs.Types.{is_number, is_flag, is_table, is_rule, is_vector, is_array_of, has_type};

use crate::keys::Kind;
use crate::lookup::items_of;
use toml::Value;

fn all_numbers(items: &[Value]) -> bool
    ensures { result ≡ list_all (λ v. is_number (view v)) items.now }
{
    items.iter().all(|item| item.is_integer())
}

fn all_flags(items: &[Value]) -> bool
    ensures { result ≡ list_all (λ v. is_flag (view v)) items.now }
{
    items.iter().all(|item| item.is_bool())
}

fn is_rule(value: &Value) -> bool
    ensures { result ≡ is_rule (view value.now) }
{
    value.is_integer() || value.is_str()
}

fn all_rules(items: &[Value]) -> bool
    ensures { result ≡ list_all (λ v. is_rule (view v)) items.now }
{
    items.iter().all(|item| is_rule(item))
}

fn all_tables(items: &[Value]) -> bool
    ensures { result ≡ list_all (λ v. is_table (view v)) items.now }
{
    items.iter().all(|item| item.is_table())
}

/// Whether a value is a list of numbers.
#[tactic(auto, using(crate::proofs::Items::list_all_view))]
fn is_vector(value: &Value) -> bool
    ensures { result ≡ is_vector (view value.now) }
{
    value.is_array() && all_numbers(items_of(Some(value)))
}

fn all_vectors(items: &[Value]) -> bool
    ensures { result ≡ list_all (λ v. is_vector (view v)) items.now }
{
    items.iter().all(|item| is_vector(item))
}

#[tactic(auto, using(crate::proofs::Items::list_all_view))]
fn are_flags(value: &Value) -> bool
    ensures { result ≡ is_array_of is_flag (view value.now) }
{
    value.is_array() && all_flags(items_of(Some(value)))
}

#[tactic(auto, using(crate::proofs::Items::list_all_view))]
fn are_rules(value: &Value) -> bool
    ensures { result ≡ is_array_of is_rule (view value.now) }
{
    value.is_array() && all_rules(items_of(Some(value)))
}

#[tactic(auto, using(crate::proofs::Items::list_all_view))]
fn are_tables(value: &Value) -> bool
    ensures { result ≡ is_array_of is_table (view value.now) }
{
    value.is_array() && all_tables(items_of(Some(value)))
}

#[tactic(auto, using(crate::proofs::Items::list_all_view))]
fn are_vectors(value: &Value) -> bool
    ensures { result ≡ is_array_of is_vector (view value.now) }
{
    value.is_array() && all_vectors(items_of(Some(value)))
}

/// Whether a value is of the type that a kind asks for.
#[tactic(auto, unfolding(crate::specs::Types::has_type))]
pub fn has_type(kind: Kind, value: &Value) -> bool
    ensures { result ≡ has_type kind (view value.now) }
{
    match kind {
        Kind::Format | Kind::Number(_, _, _) | Kind::Tile => value.is_integer(),
        Kind::Vector(_, _, _) | Kind::Values | Kind::Factors => is_vector(value),
        Kind::Size | Kind::Low | Kind::High => is_vector(value),
        Kind::Flags => are_flags(value),
        Kind::Ratios | Kind::Probes => are_vectors(value),
        Kind::Refine | Kind::Coarsen => value.is_str(),
        Kind::Rules => are_rules(value),
        Kind::Tables(_, _) | Kind::Balls => are_tables(value),
    }
}
