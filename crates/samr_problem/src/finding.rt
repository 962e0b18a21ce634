//! The first fault of the keys of a table, and the refusal at its key.

ghost use Rattle.std.specs.Prelude.{◌≡◌, ◌++◌, ℕ, List, map, option_map, string_bytes, IfOk, OnOk};
ghost use Rattle.std.specs.Fmt.{decimal};
ghost use Rattle.toml.specs.View.{view, table_view};
ghost use Rattle.samr_problem.specs.Faults.{all_faults, fails_at};
ghost use Rattle.samr_problem.specs.Findings.{found_of, found_at, or_worse, least, rank_from, shown_in};
ghost use Rattle.samr_problem.specs.Keys.{key_of};
ghost use Rattle.samr_problem.specs.Refusals.{IsRefusal, refusal_at};
ghost use Rattle.samr_problem.specs.Slots.{slot, path};

use crate::Unread;
use crate::context::{Document, Own};
use crate::keys::{Fault, Row};
use crate::lookup::value_at;
use crate::ranges::{has_length, in_range};
use crate::refusal::refuse;
use crate::types::has_type;
use itoa::Buffer;
use std::alloc::{AllocError as NoMemory, Global};
use toml::{Table, Value};

/// The table that a key stands in: the document, or the table of a list with a number.
#[derive(Clone, Copy)]
pub enum Place {
    Top,
    Table(&'static str, usize),
}

/// A fault, and the key at which it is.
#[derive(Clone, Copy)]
pub struct Finding {
    /// The number of the fault in the order in which faults are told.
    pub rank: u8,
    pub place: Place,
    pub name: &'static str,
}

/// A name that its table does not have.
#[derive(Clone, Copy)]
pub struct Unknown<'a> {
    pub place: Place,
    pub name: &'a str,
}

/// Whether a key has the fault.
#[tactic(auto, unfolding(crate::specs::Faults::fails_at))]
fn has_fault(fault: Fault, document: &Document, own: Own, row: &Row, value: Option<&Value>) -> bool
    ensures { result ≡ fails_at fault document.now own (key_of row.now) (option_map (λ v. view v.now) value.entry) }
{
    match (fault, value) {
        (Fault::Missing, _) => row.required && value.is_none(),
        (Fault::Mistyped, Some(value)) => !has_type(row.kind, value),
        (Fault::Early, _) => row.early && !in_range(document, own, row.kind, value),
        (Fault::Mislong, Some(value)) => !has_length(document, row.kind, value),
        (Fault::Outside, _) => !in_range(document, own, row.kind, value),
        (_, None) => false,
    }
}

/// The number of the first fault that a key has.
#[tactic(auto, unfolding(crate::specs::Faults::all_faults))]
fn rank_at(document: &Document, own: Own, row: &Row, value: Option<&Value>) -> Option<u8>
    ensures { (shown : List ℕ) → result ≡ rank_from 0 all_faults (record { shown = shown; key = key_of row.now; document = document.now; own = own; value = option_map (λ v. view v.now) value.entry }) }
{
    if has_fault(Fault::Missing, document, own, row, value) {
        return Some(0);
    }
    if has_fault(Fault::Mistyped, document, own, row, value) {
        return Some(1);
    }
    if has_fault(Fault::Early, document, own, row, value) {
        return Some(2);
    }
    if has_fault(Fault::Mislong, document, own, row, value) {
        return Some(3);
    }
    if has_fault(Fault::Outside, document, own, row, value) {
        return Some(4);
    }
    None
}

/// What is found at a key of a table.
#[tactic(auto, unfolding(crate::specs::Findings::found_at))]
pub fn find_at(
    place: Place,
    document: &Document,
    own: Own,
    row: &Row,
    table: &Table,
) -> Option<Finding>
    ensures { option_map found_of result ≡ found_at (slot (shown_in place) document.now own (table_view table.now) (key_of row.now)) }
{
    let rank = rank_at(document, own, row, value_at(table, row.name))?;
    Some(Finding {
        rank,
        place,
        name: row.name,
    })
}

/// The one of two findings that is told first.
pub fn or_worse(earlier: Option<Finding>, later: Option<Finding>) -> Option<Finding>
    ensures { option_map found_of result ≡ or_worse (option_map found_of earlier) (option_map found_of later) }
{
    let Some(first) = earlier else {
        return later;
    };
    let Some(second) = later else {
        return earlier;
    };
    if first.rank <= second.rank {
        return earlier;
    }
    later
}

/// What is told first of the keys of a table.
pub fn find_in_rows(
    place: Place,
    document: &Document,
    own: Own,
    rows: &[Row],
    table: &Table,
) -> Option<Finding>
    ensures { option_map found_of result ≡ least (map (slot (shown_in place) document.now own (table_view table.now)) (map key_of rows.now)) }
{
    let mut worst = None;
    for row in rows {
        worst = or_worse(worst, find_at(place, document, own, row, table));
    }
    worst
}

fn put_number(text: &mut String, number: usize) -> Result<(), NoMemory>
    ensures { OnOk result (string_bytes text.new ≡ string_bytes text.old ++ decimal number) }
{
    let mut buffer = Buffer::new();
    text.push_str(buffer.format(number))?;
    Ok(())
}

#[tactic(auto, unfolding(crate::specs::Slots::path))]
fn path(alloc: Global, list: &str, number: usize, name: &str) -> Result<String, NoMemory>
    ensures { IfOk result (λ t. string_bytes t ≡ path list.now number name.now) }
{
    let mut text = String::from_str(alloc, list)?;
    text.push_str(".")?;
    put_number(&mut text, number)?;
    text.push_str(".")?;
    text.push_str(name)?;
    Ok(text)
}

/// The refusal by a cause at a name of a table.
pub fn refuse_in(alloc: Global, cause: u8, place: Place, name: &str) -> Unread
    ensures { IsRefusal result (refusal_at cause (shown_in place name.now)) }
{
    match place {
        Place::Top => refuse(alloc, cause, name),
        Place::Table(list, number) => match path(alloc, list, number, name) {
            Ok(text) => refuse(alloc, cause, text.as_str()),
            Err(_) => Unread::NoMemory,
        },
    }
}
