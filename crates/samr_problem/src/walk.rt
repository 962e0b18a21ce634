//! The first fault of all keys of a document, at the top and in the tables of its lists.

ghost use Rattle.std.specs.Prelude.{◌≡◌, ◌<◌, [], ◌∷◌, codes, length, map, option_map};
ghost use Rattle.std.specs.List.{flat_map};
ghost use Rattle.toml.specs.Data.{get_member};
ghost use Rattle.toml.specs.View.{table_view};
ghost use Rattle.samr_problem.specs.Contexts.{document_of, own_of};
ghost use Rattle.samr_problem.specs.Faults.{all_faults, refusals_by};
ghost use Rattle.samr_problem.specs.Findings.{cause_at, found_of, least, refusal_of};
ghost use Rattle.samr_problem.specs.Keys.{key_of, fields_list, parts_list, boxes_list, balls_list, top_keys};
ghost use Rattle.samr_problem.specs.Refusals.{first, Refuses};
ghost use Rattle.samr_problem.specs.Slots.{list_slots, slots, table_slots, tables_slots, top_slot};
ghost use Rattle.samr_problem.specs.Values.{tables_of};
ghost use Rattle.samr_problem.specs.Tables.{AreTables};

use crate::Unread;
use crate::context::{Document, Own, own_of};
use crate::finding::{Finding, Place, find_at, find_in_rows, or_worse, refuse_in};
use crate::keys::{BALL_ROWS, BOX_ROWS, FIELD_ROWS, LIST_ROWS, PART_ROWS, Row, TOP_ROWS};
use crate::tables::Tables;
use std::alloc::Global;
use toml::Table;

/// What is told first of the keys of the table with a number.
fn find_in_table(
    document: &Document,
    list: &'static str,
    rows: &[Row],
    tables: &[&Table],
    number: usize,
) -> Option<Finding>
    requires { number < length tables.now }
    ensures { option_map found_of result ≡ least (table_slots document.now list.now (map key_of rows.now) (map (λ t. table_view t.now) tables.now) number) }
{
    let table = tables[number];
    let own = own_of(document.dim, &tables[..number], table);
    find_in_rows(Place::Table(list, number), document, own, rows, table)
}

/// What is told first of the keys of all tables of a list.
#[tactic(auto, unfolding(crate::specs::Slots::tables_slots))]
fn find_in_tables(
    document: &Document,
    list: &'static str,
    rows: &[Row],
    tables: &[&Table],
) -> Option<Finding>
    ensures { option_map found_of result ≡ least (tables_slots document.now list.now (map key_of rows.now) (map (λ t. table_view t.now) tables.now)) }
{
    let mut worst = None;
    for number in 0..tables.len() {
        worst = or_worse(worst, find_in_table(document, list, rows, tables, number));
    }
    worst
}

/// What is told first of a list of tables and of the keys of its tables.
fn find_in_list(
    document: &Document,
    own: Own,
    doc: &Table,
    list: &Row,
    rows: &[Row],
    tables: &[&Table],
) -> Option<Finding>
    requires { own ≡ own_of document.now.dim [] (table_view doc.now) }
    ensures { option_map found_of result ≡ least (top_slot document.now (table_view doc.now) (key_of list.now) ∷ tables_slots document.now list.now.name.now (map key_of rows.now) (map (λ t. table_view t.now) tables.now)) }
{
    let at_list = find_at(Place::Top, document, own, list, doc);
    or_worse(at_list, find_in_tables(document, list.name, rows, tables))
}

#[tactic(auto, unfolding(crate::specs::Keys::field_keys))]
fn find_fields(document: &Document, own: Own, doc: &Table, tables: &[&Table]) -> Option<Finding>
    requires own { own ≡ own_of document.now.dim [] (table_view doc.now) }
    requires tables { map (λ t. table_view t.now) tables.now ≡ tables_of (get_member (codes "field") (table_view doc.now)) }
    ensures { option_map found_of result ≡ least (list_slots document.now (table_view doc.now) fields_list) }
{
    find_in_list(document, own, doc, &LIST_ROWS[0], &FIELD_ROWS, tables)
}

#[tactic(auto, unfolding(crate::specs::Keys::part_keys))]
fn find_parts(document: &Document, own: Own, doc: &Table, tables: &[&Table]) -> Option<Finding>
    requires own { own ≡ own_of document.now.dim [] (table_view doc.now) }
    requires tables { map (λ t. table_view t.now) tables.now ≡ tables_of (get_member (codes "part") (table_view doc.now)) }
    ensures { option_map found_of result ≡ least (list_slots document.now (table_view doc.now) parts_list) }
{
    find_in_list(document, own, doc, &LIST_ROWS[1], &PART_ROWS, tables)
}

#[tactic(auto, unfolding(crate::specs::Keys::box_keys))]
fn find_boxes(document: &Document, own: Own, doc: &Table, tables: &[&Table]) -> Option<Finding>
    requires own { own ≡ own_of document.now.dim [] (table_view doc.now) }
    requires tables { map (λ t. table_view t.now) tables.now ≡ tables_of (get_member (codes "box") (table_view doc.now)) }
    ensures { option_map found_of result ≡ least (list_slots document.now (table_view doc.now) boxes_list) }
{
    find_in_list(document, own, doc, &LIST_ROWS[2], &BOX_ROWS, tables)
}

#[tactic(auto, unfolding(crate::specs::Keys::ball_keys))]
fn find_balls(document: &Document, own: Own, doc: &Table, tables: &[&Table]) -> Option<Finding>
    requires own { own ≡ own_of document.now.dim [] (table_view doc.now) }
    requires tables { map (λ t. table_view t.now) tables.now ≡ tables_of (get_member (codes "ball") (table_view doc.now)) }
    ensures { option_map found_of result ≡ least (list_slots document.now (table_view doc.now) balls_list) }
{
    find_in_list(document, own, doc, &LIST_ROWS[3], &BALL_ROWS, tables)
}

#[tactic(auto, unfolding(crate::specs::Keys::top_keys))]
fn find_top(document: &Document, own: Own, doc: &Table) -> Option<Finding>
    requires { own ≡ own_of document.now.dim [] (table_view doc.now) }
    ensures { option_map found_of result ≡ least (map (top_slot document.now (table_view doc.now)) top_keys) }
{
    find_in_rows(Place::Top, document, own, &TOP_ROWS, doc)
}

/// What is told first of all keys of a document.
#[tactic(auto, using(crate::proofs::Worst::five), unfolding(crate::specs::Slots::slots))]
fn find_first(document: &Document, doc: &Table, tables: &Tables) -> Option<Finding>
    requires document { document.now ≡ document_of (table_view doc.now) }
    requires tables { AreTables tables.now (table_view doc.now) }
    ensures { option_map found_of result ≡ least (slots (table_view doc.now)) }
{
    let own = own_of(document.dim, &[], doc);
    let top = find_top(document, own, doc);
    let fields = or_worse(
        top,
        find_fields(document, own, doc, tables.fields.as_slice()),
    );
    let parts = or_worse(
        fields,
        find_parts(document, own, doc, tables.parts.as_slice()),
    );
    let boxes = or_worse(
        parts,
        find_boxes(document, own, doc, tables.boxes.as_slice()),
    );
    or_worse(
        boxes,
        find_balls(document, own, doc, tables.balls.as_slice()),
    )
}

/// The cause that the number of a fault is.
fn cause_at(rank: u8) -> u8
    ensures { result ≡ cause_at rank }
{
    if rank == 0 {
        return 4;
    }
    if rank == 1 {
        return 5;
    }
    if rank == 2 {
        return 6;
    }
    if rank == 3 {
        return 7;
    }
    6
}

/// Refuses by a finding, where there is one.
fn refuse_finding(alloc: Global, finding: Option<Finding>) -> Result<(), Unread>
    ensures { Refuses result (option_map refusal_of (option_map found_of finding)) }
{
    let Some(finding) = finding else {
        return Ok(());
    };
    Err(refuse_in(alloc, cause_at(finding.rank), finding.place, finding.name))
}

/// Refuses a document by the first fault of its keys.
#[tactic(auto, using(crate::proofs::Worst::least_told))]
pub fn check_keys(
    alloc: Global,
    document: &Document,
    doc: &Table,
    tables: &Tables,
) -> Result<(), Unread>
    requires document { document.now ≡ document_of (table_view doc.now) }
    requires tables { AreTables tables.now (table_view doc.now) }
    ensures { Refuses result (first (flat_map (refusals_by (slots (table_view doc.now))) all_faults)) }
{
    refuse_finding(alloc, find_first(document, doc, tables))
}
