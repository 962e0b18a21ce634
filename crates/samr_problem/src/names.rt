//! Names that a table does not have: the first one of a document, and how it is shown.

ghost use Rattle.std.specs.Prelude.{◌≡◌, ◌<◌, ◌||◌, ◌++◌, [], codes, not, find, length, map, option_map, string_bytes};
ghost use Rattle.std.specs.BTreeMap.{keys};
ghost use Rattle.std.specs.List.{list_all, list_any};
ghost use Rattle.std.specs.Option.{option_copied};
ghost use Rattle.std.specs.Str.{bytes_eq};
ghost use Rattle.toml.specs.Data.{get_member};
ghost use Rattle.toml.specs.View.{table_view};
ghost use Rattle.samr_problem.specs.Faults.{all_top_keys, is_known, is_name_byte, is_plain_name, shown, unknown, unknown_in, unknown_in_list, unknown_names, unknown_of};
ghost use Rattle.samr_problem.specs.Findings.{or_else, shown_in, unknown_text};
ghost use Rattle.samr_problem.specs.Keys.{key_of, fields_list, parts_list, boxes_list, balls_list};
ghost use Rattle.samr_problem.specs.Refusals.{first, refusal_at, refusals, Refuses};
ghost use Rattle.samr_problem.specs.Tables.{AreTables};
ghost use Rattle.samr_problem.specs.Values.{tables_of};

use crate::Unread;
use crate::finding::{Place, Unknown, refuse_in};
use crate::keys::{BALL_ROWS, BOX_ROWS, FIELD_ROWS, LIST_ROWS, PART_ROWS, Row, TOP_ROWS};
use crate::tables::Tables;
use std::alloc::Global;
use toml::Table;

/// How long an unknown name may be to be shown.
const LONGEST_SHOWN: usize = 64;

fn has_row(rows: &[Row], name: &str) -> bool
    ensures { result ≡ list_any (λ r. bytes_eq r.name.now name.now) rows.now }
{
    rows.iter().any(|row| row.name == name)
}

/// Whether one of these rows or of those has the name.
#[tactic(auto, using(crate::proofs::UnknownNames::known_rows))]
fn is_known(rows: &[Row], more: &[Row], name: &str) -> bool
    ensures { result ≡ is_known (map key_of rows.now ++ map key_of more.now) name.now }
{
    has_row(rows, name) || has_row(more, name)
}

fn unknown_key<'a>(rows: &[Row], more: &[Row], table: &'a Table) -> Option<&'a String>
    ensures { option_copied result ≡ find (λ k. not (is_known (map key_of rows.now ++ map key_of more.now) (string_bytes k))) (keys table.now) }
{
    table.keys().find(|key| !is_known(rows, more, key.as_str()))
}

/// The least name of a table, by its bytes, that none of these rows has.
#[tactic(auto, using(crate::proofs::UnknownNames::first_unknown))]
fn unknown_name<'a>(rows: &[Row], more: &[Row], table: &'a Table) -> Option<&'a str>
    ensures { option_copied result ≡ first (unknown_names (map key_of rows.now ++ map key_of more.now) (table_view table.now)) }
{
    let key = unknown_key(rows, more, table)?;
    Some(key.as_str())
}

fn is_name_byte(byte: u8) -> bool
    ensures { result ≡ is_name_byte byte }
{
    byte.is_ascii_alphanumeric() || byte == b'_' || byte == b'-'
}

#[tactic(auto, unfolding(crate::specs::Faults::is_plain_name))]
fn is_plain_name(name: &str) -> bool
    ensures { result ≡ is_plain_name name.now }
{
    !name.is_empty() && name.len() <= LONGEST_SHOWN && has_name_bytes(name.as_bytes())
}

fn has_name_bytes(name: &[u8]) -> bool
    ensures { result ≡ list_all is_name_byte name.now }
{
    name.iter().all(|byte| is_name_byte(*byte))
}

/// How an unknown name is shown.
#[tactic(auto, unfolding(crate::specs::Faults::shown))]
fn shown(name: &str) -> &str
    ensures { result.now ≡ shown name.now }
{
    if is_plain_name(name) { name } else { "?" }
}

/// The first unknown name of a table, as it is shown.
#[tactic(auto, using(crate::proofs::Firsts::first_map))]
fn find_unknown<'a>(
    place: Place,
    rows: &[Row],
    more: &[Row],
    table: &'a Table,
) -> Option<Unknown<'a>>
    ensures { option_map unknown_text result ≡ first (map (λ name. shown_in place (shown name)) (unknown_names (map key_of rows.now ++ map key_of more.now) (table_view table.now))) }
{
    let name = unknown_name(rows, more, table)?;
    Some(Unknown {
        place,
        name: shown(name),
    })
}

/// The first of two unknown names, or else the second.
fn or_else<'a>(first: Option<Unknown<'a>>, second: Option<Unknown<'a>>) -> Option<Unknown<'a>>
    ensures { option_map unknown_text result ≡ or_else (option_map unknown_text first.entry) (option_map unknown_text second.entry) }
{
    match first {
        Some(unknown) => Some(unknown),
        None => second,
    }
}

fn unknown_in<'a>(
    list: &'static str,
    rows: &[Row],
    tables: &[&'a Table],
    number: usize,
) -> Option<Unknown<'a>>
    requires { number < length tables.now }
    ensures { option_map unknown_text result ≡ first (unknown_in list.now (map key_of rows.now) (map (λ t. table_view t.now) tables.now) number) }
{
    let table = tables[number];
    find_unknown(Place::Table(list, number), rows, &[], table)
}

/// The first unknown name of the tables of a list.
#[tactic(auto, unfolding(crate::specs::Faults::unknown_in_list))]
fn unknown_in_list<'a>(
    list: &'static str,
    rows: &[Row],
    tables: &[&'a Table],
) -> Option<Unknown<'a>>
    ensures { option_map unknown_text result ≡ first (unknown_in_list list.now (map key_of rows.now) (map (λ t. table_view t.now) tables.now)) }
{
    let mut found = None;
    for number in 0..tables.len() {
        found = or_else(found, unknown_in(list, rows, tables, number));
    }
    found
}

#[tactic(auto, unfolding(crate::specs::Keys::top_keys, crate::specs::Faults::all_top_keys))]
fn unknown_at_top(doc: &Table) -> Option<Unknown<'_>>
    ensures { option_map unknown_text result ≡ first (map shown (unknown_names all_top_keys (table_view doc.now))) }
{
    find_unknown(Place::Top, &TOP_ROWS, &LIST_ROWS, doc)
}

#[tactic(auto, unfolding(crate::specs::Keys::field_keys))]
fn unknown_in_fields<'a>(tables: &[&'a Table]) -> Option<Unknown<'a>>
    ensures { option_map unknown_text result ≡ first (unknown_in_list fields_list.list.name fields_list.keys (map (λ t. table_view t.now) tables.now)) }
{
    unknown_in_list("field", &FIELD_ROWS, tables)
}

#[tactic(auto, unfolding(crate::specs::Keys::part_keys))]
fn unknown_in_parts<'a>(tables: &[&'a Table]) -> Option<Unknown<'a>>
    ensures { option_map unknown_text result ≡ first (unknown_in_list parts_list.list.name parts_list.keys (map (λ t. table_view t.now) tables.now)) }
{
    unknown_in_list("part", &PART_ROWS, tables)
}

#[tactic(auto, unfolding(crate::specs::Keys::box_keys))]
fn unknown_in_boxes<'a>(tables: &[&'a Table]) -> Option<Unknown<'a>>
    ensures { option_map unknown_text result ≡ first (unknown_in_list boxes_list.list.name boxes_list.keys (map (λ t. table_view t.now) tables.now)) }
{
    unknown_in_list("box", &BOX_ROWS, tables)
}

#[tactic(auto, unfolding(crate::specs::Keys::ball_keys))]
fn unknown_in_balls<'a>(tables: &[&'a Table]) -> Option<Unknown<'a>>
    ensures { option_map unknown_text result ≡ first (unknown_in_list balls_list.list.name balls_list.keys (map (λ t. table_view t.now) tables.now)) }
{
    unknown_in_list("ball", &BALL_ROWS, tables)
}

/// The first unknown name of a document: at the top, then in the tables of each list.
#[tactic(auto, using(crate::proofs::UnknownNames::five), unfolding(crate::specs::Faults::unknown))]
fn first_unknown<'a>(doc: &'a Table, tables: &Tables<'a>) -> Option<Unknown<'a>>
    requires { AreTables tables.now (table_view doc.now) }
    ensures { option_map unknown_text result ≡ first (unknown (table_view doc.now)) }
{
    let top = unknown_at_top(doc);
    let fields = or_else(top, unknown_in_fields(tables.fields.as_slice()));
    let parts = or_else(fields, unknown_in_parts(tables.parts.as_slice()));
    let boxes = or_else(parts, unknown_in_boxes(tables.boxes.as_slice()));
    or_else(boxes, unknown_in_balls(tables.balls.as_slice()))
}

/// Refuses by an unknown name, where there is one.
fn refuse_unknown(alloc: Global, unknown: Option<Unknown>) -> Result<(), Unread>
    ensures { Refuses result (option_map (refusal_at 3) (option_map unknown_text unknown.entry)) }
{
    let Some(unknown) = unknown else {
        return Ok(());
    };
    Err(refuse_in(alloc, 3, unknown.place, unknown.name))
}

/// Refuses by the first unknown name of a document.
#[tactic(auto, using(crate::proofs::Firsts::first_map))]
pub fn check_names(alloc: Global, doc: &Table, tables: &Tables) -> Result<(), Unread>
    requires { AreTables tables.now (table_view doc.now) }
    ensures { Refuses result (first (refusals 3 (unknown (table_view doc.now)))) }
{
    refuse_unknown(alloc, first_unknown(doc, tables))
}
