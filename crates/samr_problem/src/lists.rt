//! The lists of a problem: ratios, fields, probes, parts and shapes.

ghost use Rattle.std.specs.Prelude.{◌≡◌, ◌++◌, ◌∷◌, true, IfOk, OnOk, map};
ghost use Rattle.std.specs.List.{list_all};
ghost use Rattle.toml.specs.View.{table_view};
ghost use Rattle.samr_box.specs.Vector.{IsRatio};
ghost use Rattle.samr_problem.specs.Contexts.{corners_of};
ghost use Rattle.samr_problem.specs.Fields.{field_of, slab_of, ball_of, fields_in, shapes_in, is_ratio, is_box};
ghost use Rattle.samr_problem.specs.Tables.{AreTables};

use crate::context::Document;
use crate::field::{Field, field_of};
use crate::lookup::{items_of, number_at, value_at, vector_at};
use crate::probe::{Probe, probes_of};
use crate::tables::Tables;
use samr_box::{IBox, IVec, Listed, Ratio};
use samr_shape::Shape;
use std::alloc::{AllocError as NoMemory, Global};
use toml::Table;

/// The lists of a problem.
#[derive(Debug, Drop)]
pub struct Lists {
    pub ratio: Listed<Ratio>,
    pub fields: Listed<Field>,
    pub probes: Listed<Probe>,
    pub parts: Listed<IBox>,
    pub shapes: Listed<Shape>,
}

impl Lists {
    ghost use Rattle.std.specs.Prelude.{◌≡◌, true, IfOk};
    ghost use Rattle.std.specs.List.{list_all};
    ghost use Rattle.toml.specs.View.{table_view};
    ghost use Rattle.samr_problem.specs.Fields.{is_ratio, is_box, parts_in};
    ghost use Rattle.samr_problem.specs.Lists.{HasLists};
    ghost use Rattle.samr_problem.specs.Tables.{AreTables};

    /// The lists that a document gives.
    #[tactic(auto, unfolding(crate::specs::Fields::parts_in, crate::specs::Fields::probes_in))]
    pub fn of(
        alloc: Global,
        document: &Document,
        doc: &Table,
        tables: &Tables,
    ) -> Result<Lists, NoMemory>
        requires tables { AreTables tables.now (table_view doc.now) }
        requires ratios { list_all is_ratio document.now.ratios ≡ true }
        requires parts { list_all is_box (parts_in document.now.dim (table_view doc.now)) ≡ true }
        ensures { IfOk result (λ l. HasLists l document.now (table_view doc.now)) }
    {
        let dim = document.dim;
        let ratio = ratios_of(alloc, document.ratios.as_slice())?;
        let fields = fields_of(alloc, dim, doc, tables)?;
        let probes = probes_of(alloc, dim, items_of(value_at(doc, "probe")))?;
        let parts = parts_of(alloc, dim, tables.parts.as_slice())?;
        let shapes = shapes_of(alloc, dim, doc, tables)?;
        Ok(Lists {
            ratio,
            fields,
            probes,
            parts,
            shapes,
        })
    }
}

/// The ratio with these factors.
fn ratio_of(factors: IVec) -> Ratio
    requires { IsRatio factors }
    ensures { result ≡ factors }
{
    Ratio {
        k: factors.k,
        j: factors.j,
        i: factors.i,
    }
}

/// The ratios of the levels.
fn ratios_of(alloc: Global, vectors: &[IVec]) -> Result<Listed<Ratio>, NoMemory>
    requires { list_all is_ratio vectors.now ≡ true }
    ensures { IfOk result (λ r. r ≡ vectors.now) }
{
    let mut ratios = Vec::new(alloc);
    for vector in vectors {
        ratios.push(ratio_of(*vector))?;
    }
    Ok(Listed::from_vec(ratios))
}

/// The fields: those at the top first, then those of the `field` tables.
#[tactic(auto, unfolding(crate::specs::Fields::fields_in))]
fn fields_of(
    alloc: Global,
    dim: usize,
    doc: &Table,
    tables: &Tables,
) -> Result<Listed<Field>, NoMemory>
    requires { AreTables tables.now (table_view doc.now) }
    ensures { IfOk result (λ f. f ≡ fields_in dim (table_view doc.now)) }
{
    let mut fields = Vec::new(alloc);
    fields.push(field_of(dim, doc))?;
    push_fields(&mut fields, dim, tables.fields.as_slice())?;
    Ok(Listed::from_vec(fields))
}

fn push_fields(fields: &mut Vec<Field>, dim: usize, tables: &[&Table]) -> Result<(), NoMemory>
    ensures { OnOk result (fields.new.items ≡ fields.old.items ++ map (field_of dim) (map (λ t. table_view t.now) tables.now)) }
{
    for table in tables {
        fields.push(field_of(dim, table))?;
    }
    Ok(())
}

/// The part that a table is.
#[tactic(auto, unfolding(crate::specs::Contexts::corners_of))]
fn part_of(dim: usize, table: &Table) -> IBox
    requires { is_box (corners_of dim (table_view table.now)) ≡ true }
    ensures { result ≡ corners_of dim (table_view table.now) }
{
    IBox {
        lo: vector_at(dim, table, "lo", 0, 0),
        hi: vector_at(dim, table, "hi", 0, 0),
    }
}

/// The parts of the domain.
fn parts_of(alloc: Global, dim: usize, tables: &[&Table]) -> Result<Listed<IBox>, NoMemory>
    requires { list_all is_box (map (corners_of dim) (map (λ t. table_view t.now) tables.now)) ≡ true }
    ensures { IfOk result (λ p. p ≡ map (corners_of dim) (map (λ t. table_view t.now) tables.now)) }
{
    let mut parts = Vec::new(alloc);
    for table in tables {
        parts.push(part_of(dim, table))?;
    }
    Ok(Listed::from_vec(parts))
}

#[tactic(auto, unfolding(crate::specs::Fields::slab_of))]
fn slab_of(dim: usize, table: &Table) -> Shape
    ensures { result ≡ slab_of dim (table_view table.now) }
{
    let lo = vector_at(dim, table, "lo", 0, 0);
    let size = vector_at(dim, table, "size", 1, 1);
    let velocity = vector_at(dim, table, "velocity", 0, 0);
    Shape::Slab { lo, size, velocity }
}

#[tactic(auto, unfolding(crate::specs::Fields::ball_of))]
fn ball_of(dim: usize, table: &Table) -> Shape
    ensures { result ≡ ball_of dim (table_view table.now) }
{
    let at = vector_at(dim, table, "at", 0, 0);
    let radius = number_at(table, "radius", 0);
    let velocity = vector_at(dim, table, "velocity", 0, 0);
    Shape::Ball {
        at,
        radius,
        velocity,
    }
}

fn push_slabs(shapes: &mut Vec<Shape>, dim: usize, tables: &[&Table]) -> Result<(), NoMemory>
    ensures { OnOk result (shapes.new.items ≡ shapes.old.items ++ map (slab_of dim) (map (λ t. table_view t.now) tables.now)) }
{
    for table in tables {
        shapes.push(slab_of(dim, table))?;
    }
    Ok(())
}

fn push_balls(shapes: &mut Vec<Shape>, dim: usize, tables: &[&Table]) -> Result<(), NoMemory>
    ensures { OnOk result (shapes.new.items ≡ shapes.old.items ++ map (ball_of dim) (map (λ t. table_view t.now) tables.now)) }
{
    for table in tables {
        shapes.push(ball_of(dim, table))?;
    }
    Ok(())
}

/// The shapes: those of the `box` tables, then those of the `ball` tables.
#[tactic(auto, unfolding(crate::specs::Fields::shapes_in))]
fn shapes_of(
    alloc: Global,
    dim: usize,
    doc: &Table,
    tables: &Tables,
) -> Result<Listed<Shape>, NoMemory>
    requires { AreTables tables.now (table_view doc.now) }
    ensures { IfOk result (λ s. s ≡ shapes_in dim (table_view doc.now)) }
{
    let mut shapes = Vec::new(alloc);
    push_slabs(&mut shapes, dim, tables.boxes.as_slice())?;
    push_balls(&mut shapes, dim, tables.balls.as_slice())?;
    Ok(Listed::from_vec(shapes))
}
