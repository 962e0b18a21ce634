//! From a document to the problem that it is, or to its first fault.

ghost use Rattle.std.specs.Prelude.{◌≡◌, None, min};
ghost use Rattle.std.specs.List.{flat_map};
ghost use Rattle.toml.specs.View.{table_view};
ghost use Rattle.samr_problem.specs.Faults.{all_faults, faults, field_faults, refusals_by};
ghost use Rattle.samr_problem.specs.Fields.{fields_from, fields_of};
ghost use Rattle.samr_problem.specs.Lists.{HasLists};
ghost use Rattle.samr_problem.specs.Problems.{IsProblem};
ghost use Rattle.samr_problem.specs.Reading.{document_reading, together_reading, Reads};
ghost use Rattle.samr_problem.specs.Refusals.{first, Refuses};
ghost use Rattle.samr_problem.specs.Slots.{slots};
ghost use Rattle.samr_problem.specs.Tables.{AreTables};
ghost use Rattle.samr_problem.specs.Values.{small};
ghost use Rattle.samr_problem.specs.Contexts.{document_of};

use crate::context::Document;
use crate::lists::Lists;
use crate::lookup::{flags_at, number_at, small, small_at, vector_at, word_at};
use crate::names::check_names;
use crate::tables::Tables;
use crate::walk::check_keys;
use crate::width::{check_together, width_of};
use crate::{Problem, Unread};
use std::alloc::Global;
use toml::Table;

/// Refuses by what the fields of a problem say together.
#[tactic(auto, unfolding(crate::specs::Fields::fields_from, crate::specs::Faults::field_faults))]
fn check_lists(alloc: Global, document: &Document, doc: &Table, lists: &Lists) -> Result<(), Unread>
    requires { HasLists lists.now document.now (table_view doc.now) }
    ensures { Refuses result (first (field_faults (fields_from document.now (table_view doc.now)))) }
{
    let nest = vector_at(document.dim, doc, "nest", 1, 0);
    let tag_buffer = vector_at(document.dim, doc, "tag_buffer", 0, 0);
    let fields = lists.fields.as_slice();
    let width = width_of(levels_of(document), nest, tag_buffer, fields);
    check_together(
        alloc,
        document.domain,
        document.ratios.as_slice(),
        nest,
        fields,
        width,
    )
}

/// How many levels there may be.
fn levels_of(document: &Document) -> u8
    ensures { result ≡ small document.now.levels }
{
    small(document.levels)
}

fn small_dim(dim: usize) -> u8
    ensures { result ≡ min dim 255 }
{
    dim.min(255) as u8
}

/// The problem that a document without a fault is.
#[tactic(auto)]
fn problem_of(document: &Document, doc: &Table, lists: Lists) -> Problem
    requires lists { HasLists lists document.now (table_view doc.now) }
    requires sound { IsProblem (fields_from document.now (table_view doc.now)) }
    ensures { result ≡ fields_from document.now (table_view doc.now) }
{
    let dim = document.dim;
    let levels = levels_of(document);
    let nest = vector_at(dim, doc, "nest", 1, 0);
    let tag_buffer = vector_at(dim, doc, "tag_buffer", 0, 0);
    let width = width_of(levels, nest, tag_buffer, lists.fields.as_slice());
    let Lists {
        ratio,
        fields,
        probes,
        parts,
        shapes,
    } = lists;
    Problem {
        format: small_at(doc, "format", 0),
        dim: small_dim(dim),
        domain: document.domain,
        periodic: flags_at(dim, doc, "periodic"),
        block: vector_at(dim, doc, "block", 1, 1),
        levels,
        ratio,
        nest,
        tag_buffer,
        efficiency: word_at(doc, "efficiency", 80),
        smallest: number_at(doc, "smallest", 2),
        largest: number_at(doc, "largest", 64),
        tile: number_at(doc, "tile", 0),
        regrid: word_at(doc, "regrid", 1),
        steps: word_at(doc, "steps", 0),
        fields,
        probes,
        parts,
        shapes,
        width,
    }
}

/// The problem that a document is whose keys have no fault, or the first fault of its fields together.
#[tactic(auto, unfolding(crate::specs::Reading::together_reading))]
fn read_fields(
    alloc: Global,
    document: &Document,
    doc: &Table,
    tables: &Tables,
) -> Result<Problem, Unread>
    requires document { document.now ≡ document_of (table_view doc.now) }
    requires tables { AreTables tables.now (table_view doc.now) }
    requires passed { first (flat_map (refusals_by (slots (table_view doc.now))) all_faults) ≡ None }
    ensures { Reads result (together_reading (fields_of (table_view doc.now))) }
{
    let lists = Lists::of(alloc, document, doc, tables)?;
    check_lists(alloc, document, doc, &lists)?;
    Ok(problem_of(document, doc, lists))
}

/// Reads a document: the problem that it is, or its first fault.
#[tactic(auto, using(crate::proofs::Firsts::first_append), unfolding(crate::specs::Reading::document_reading, crate::specs::Reading::together_reading, crate::specs::Faults::faults))]
pub fn read_document(alloc: Global, doc: &Table) -> Result<Problem, Unread>
    ensures { Reads result (document_reading (table_view doc.now)) }
{
    let tables = Tables::of(alloc, doc)?;
    let document = Document::of(alloc, doc)?;
    check_names(alloc, doc, &tables)?;
    check_keys(alloc, &document, doc, &tables)?;
    read_fields(alloc, &document, doc, &tables)
}
