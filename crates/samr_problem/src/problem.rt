//! The problem that a text is read to.

use crate::{Field, Probe};
use samr_box::{Flags, IBox, IVec, Listed, Ratio};
use samr_shape::Shape;
use std::marker::Model;

/// An accepted problem, one field for each key with its default filled in. Vectors of a two-dimensional
/// problem are widened by a third axis: of length 1 and not periodic for the domain, blocks, ratios and
/// the sizes of shapes, and 0 elsewhere.
#[derive(Debug, Drop)]
pub struct Problem {
    /// The version of the format.
    pub format: u8,
    /// How many axes are real.
    pub dim: u8,
    /// The lengths of the domain of level 0, in cells.
    pub domain: IVec,
    /// Which axes are periodic.
    pub periodic: Flags,
    /// The lengths of a block of level 0, in cells.
    pub block: IVec,
    /// How many levels there may be.
    pub levels: u8,
    /// The ratio of each level to the next one.
    pub ratio: Listed<Ratio>,
    /// How far a level lies inside the next coarser one, in cells of that one.
    pub nest: IVec,
    /// How far about a tagged cell cells are tagged too, in cells.
    pub tag_buffer: IVec,
    /// How many percent of a box's cells are to be tagged.
    pub efficiency: u32,
    /// The shortest length of a box that is cut, in cells.
    pub smallest: i64,
    /// The greatest length of a box, in cells.
    pub largest: i64,
    /// The length of the tiles that boxes keep to, in cells; 0 for none.
    pub tile: i64,
    /// After how many steps the levels are made anew.
    pub regrid: u32,
    /// How many steps are made.
    pub steps: u32,
    /// The fields: that of the top keys, then those of the `field` tables.
    pub fields: Listed<Field>,
    pub probes: Listed<Probe>,
    /// The boxes that the domain of level 0 is made of; none where it is the whole frame.
    pub parts: Listed<IBox>,
    /// The shapes that tag cells: those of the `box` tables, then those of the `ball` tables.
    pub shapes: Listed<Shape>,
    /// The width of all connectors, in cells of the coarser level.
    pub width: IVec,
}

impl Model for Problem {
    ghost use Rattle.samr_problem.specs.Fields.{Fields};
    ghost use Rattle.samr_problem.specs.Problems.{IsProblem};

    ghost Value = { Fields };

    ghost view = { λ p. record { format = p.format; dim = p.dim; domain = p.domain; periodic = p.periodic; block = p.block; levels = p.levels; ratio = p.ratio; nest = p.nest; tag_buffer = p.tag_buffer; efficiency = p.efficiency; smallest = p.smallest; largest = p.largest; tile = p.tile; regrid = p.regrid; steps = p.steps; fields = p.fields; probes = p.probes; parts = p.parts; shapes = p.shapes; width = p.width } };

    ghost invariant = { λ p. IsProblem (record { format = p.format; dim = p.dim; domain = p.domain; periodic = p.periodic; block = p.block; levels = p.levels; ratio = p.ratio; nest = p.nest; tag_buffer = p.tag_buffer; efficiency = p.efficiency; smallest = p.smallest; largest = p.largest; tile = p.tile; regrid = p.regrid; steps = p.steps; fields = p.fields; probes = p.probes; parts = p.parts; shapes = p.shapes; width = p.width }) };
}
