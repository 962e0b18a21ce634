//! Numbers, truth values, texts, lists and tables of a document, with what stands for one that is not there.

ghost use Rattle.std.specs.Prelude.{◌≡◌, ◌++◌, ◌<◌, option_map, option_to_list, map, IfOk, OnOk};
ghost use Rattle.toml.specs.Data.{get_member, as_table};
ghost use Rattle.std.specs.List.{filter_map};
ghost use Rattle.toml.specs.View.{view, table_view};
ghost use Rattle.samr_problem.specs.Contexts.{number_at};
ghost use Rattle.samr_problem.specs.Fields.{vector_at};
ghost use Rattle.samr_problem.specs.Values.{number_of, flag_of, is_text, entry_of, vector_from, vector_of, flags_of, items_of, tables_of, word, small};

use samr_box::{Flags, IVec};
use std::alloc::{AllocError as NoMemory, Global};
use toml::{Table, Value};

/// The value at a key.
pub fn value_at<'a>(table: &'a Table, key: &str) -> Option<&'a Value>
    ensures { option_map (λ v. view v.now) result ≡ get_member key.now (table_view table.now) }
{
    table.get(key)
}

/// The whole number that a value is.
pub fn number_of(value: Option<&Value>, otherwise: i64) -> i64
    ensures { result ≡ number_of (option_map (λ v. view v.now) value.entry) otherwise }
{
    let Some(value) = value else {
        return otherwise;
    };
    let Some(number) = value.as_integer() else {
        return otherwise;
    };
    number
}

fn flag_of(value: Option<&Value>) -> bool
    ensures { result ≡ flag_of (option_map (λ v. view v.now) value.entry) }
{
    let Some(value) = value else {
        return false;
    };
    let Some(flag) = value.as_bool() else {
        return false;
    };
    flag
}

/// Whether a value is this text.
pub fn is_text(text: &str, value: Option<&Value>) -> bool
    ensures { result ≡ is_text text.now (option_map (λ v. view v.now) value.entry) }
{
    let Some(value) = value else {
        return false;
    };
    let Some(found) = value.as_str() else {
        return false;
    };
    found == text
}

/// The item at a place of the list that a value is.
pub fn entry_of<'a>(place: usize, value: Option<&'a Value>) -> Option<&'a Value>
    ensures { option_map (λ v. view v.now) result ≡ entry_of place (option_map (λ v. view v.now) value.entry) }
{
    value?.get(place)
}

/// The number at a place of the list that a value is.
pub fn entry_number(place: usize, value: Option<&Value>, otherwise: i64) -> i64
    ensures { result ≡ number_of (entry_of place (option_map (λ v. view v.now) value.entry)) otherwise }
{
    number_of(entry_of(place, value), otherwise)
}

fn entry_flag(place: usize, value: Option<&Value>) -> bool
    ensures { result ≡ flag_of (entry_of place (option_map (λ v. view v.now) value.entry)) }
{
    flag_of(entry_of(place, value))
}

/// The numbers of a list from a place on, with what stands for a number that is not there, and for the
/// third number of a two-dimensional problem.
#[tactic(auto, unfolding(crate::specs::Values::vector_from))]
pub fn vector_from(
    place: usize,
    dim: usize,
    value: Option<&Value>,
    otherwise: i64,
    third: i64,
) -> IVec
    requires { place < 9 }
    ensures { result ≡ vector_from place dim (option_map (λ v. view v.now) value.entry) otherwise third }
{
    let k = if dim == 2 {
        third
    } else {
        entry_number(place + 2, value, otherwise)
    };
    let j = entry_number(place + 1, value, otherwise);
    let i = entry_number(place, value, otherwise);
    IVec { k, j, i }
}

/// The numbers of a list, one for each real axis.
pub fn vector_of(dim: usize, value: Option<&Value>, otherwise: i64, third: i64) -> IVec
    ensures { result ≡ vector_of dim (option_map (λ v. view v.now) value.entry) otherwise third }
{
    vector_from(0, dim, value, otherwise, third)
}

/// The truth values of a list; a third axis that is not real has `false`.
#[tactic(auto, unfolding(crate::specs::Values::flags_of))]
pub fn flags_of(dim: usize, value: Option<&Value>) -> Flags
    ensures { result ≡ flags_of dim (option_map (λ v. view v.now) value.entry) }
{
    let k = if dim == 2 {
        false
    } else {
        entry_flag(2, value)
    };
    let j = entry_flag(1, value);
    let i = entry_flag(0, value);
    Flags { k, j, i }
}

/// The whole number at a key.
pub fn number_at(table: &Table, key: &str, otherwise: i64) -> i64
    ensures { result ≡ number_at (table_view table.now) key.now otherwise }
{
    number_of(value_at(table, key), otherwise)
}

/// The numbers at a key.
pub fn vector_at(dim: usize, table: &Table, key: &str, otherwise: i64, third: i64) -> IVec
    ensures { result ≡ vector_at dim (table_view table.now) key.now otherwise third }
{
    vector_of(dim, value_at(table, key), otherwise, third)
}

/// A number as it is kept in 32 bits.
pub fn word(number: i64) -> u32
    ensures { result ≡ word number }
{
    number.unsigned_abs().min(4_294_967_295) as u32
}

/// A number as it is kept in 8 bits.
pub fn small(number: i64) -> u8
    ensures { result ≡ small number }
{
    number.unsigned_abs().min(255) as u8
}

/// The number at a key, as it is kept in 32 bits.
pub fn word_at(table: &Table, key: &str, otherwise: i64) -> u32
    ensures { result ≡ word (number_at (table_view table.now) key.now otherwise) }
{
    word(number_at(table, key, otherwise))
}

/// The number at a key, as it is kept in 8 bits.
pub fn small_at(table: &Table, key: &str, otherwise: i64) -> u8
    ensures { result ≡ small (number_at (table_view table.now) key.now otherwise) }
{
    small(number_at(table, key, otherwise))
}

/// The truth values at a key.
pub fn flags_at(dim: usize, table: &Table, key: &str) -> Flags
    ensures { result ≡ flags_of dim (get_member key.now (table_view table.now)) }
{
    flags_of(dim, value_at(table, key))
}

/// The items of an array, none of another value.
#[tactic(auto, using(crate::proofs::Items::list_of_items))]
pub fn items_of(value: Option<&Value>) -> &[Value]
    ensures { map view result.now ≡ items_of (option_map (λ v. view v.now) value.entry) }
{
    let Some(value) = value else {
        return &[];
    };
    match value.as_array() {
        Some(items) => items.as_slice(),
        None => &[],
    }
}

/// Appends the table that an item is, if it is one.
fn push_table<'a>(tables: &mut Vec<&'a Table>, item: &'a Value) -> Result<(), NoMemory>
    ensures { OnOk result (map (λ t. table_view t.now) tables.new.items ≡ map (λ t. table_view t.now) tables.old.items ++ option_to_list (as_table (view item.now))) }
{
    let Some(table) = item.as_table() else {
        return Ok(());
    };
    tables.push(table)?;
    Ok(())
}

/// The tables among some items.
#[tactic(auto, using(crate::proofs::Items::tables_more))]
fn tables_in<'a>(alloc: Global, items: &'a [Value]) -> Result<Vec<&'a Table>, NoMemory>
    ensures { IfOk result (λ v. map (λ t. table_view t.now) v.items ≡ filter_map as_table (map view items.now)) }
{
    let mut tables = Vec::new(alloc);
    for item in items {
        push_table(&mut tables, item)?;
    }
    Ok(tables)
}

/// The tables of the list at a key.
#[tactic(auto, unfolding(crate::specs::Values::tables_of))]
pub fn tables_at<'a>(alloc: Global, doc: &'a Table, key: &str) -> Result<Vec<&'a Table>, NoMemory>
    ensures { IfOk result (λ v. map (λ t. table_view t.now) v.items ≡ tables_of (get_member key.now (table_view doc.now))) }
{
    tables_in(alloc, items_of(value_at(doc, key)))
}
