//! What a run is of: a problem, and how many ranks solve it.

ghost use Rattle.std.specs.Prelude.{◌≡◌, ◌↔◌, IsTrue, IfOk};
ghost use Rattle.std.specs.Arc.{arc_value};
ghost use Rattle.samr_problem.specs.Problems.{IsProblem};
ghost use Rattle.samr_mesh.specs.Domains.{area_of, step_of};
ghost use Rattle.samr_msg.specs.Runs.{Setting, AreSameNumbers, AreSameVectors, AreSameLists, IsSameFormat, IsSameSpace, IsSameWidths, IsSameLengths, IsSameCounts, IsSameTables, IsSameShapes};

use samr_box::{Domain, Flags, IBox, IVec, Ratio};
use samr_problem::{Field, Probe, Problem};
use samr_shape::Shape;
use std::alloc::AllocError as NoMemory;
use std::marker::Model;
use std::sync::Arc;

/// A problem and how many ranks solve it, shared by all who know of the run.
#[derive(Drop)]
pub struct Run {
    problem: Arc<Problem>,
    ranks: u16,
}

impl Model for Run {
    ghost use Rattle.std.specs.Arc.{arc_value};
    ghost use Rattle.samr_msg.specs.Runs.{Setting};

    ghost Value = { Setting };

    ghost view = { λ r. record { problem = arc_value r.problem; ranks = r.ranks } };
}

impl Run {
    pub fn new(problem: Arc<Problem>, ranks: u16) -> Run
        ensures { result ≡ record { problem = arc_value problem; ranks = ranks } }
    {
        Run { problem, ranks }
    }

    /// How many ranks there are.
    pub fn ranks(&self) -> u16
        ensures { result ≡ self.now.ranks }
    {
        self.ranks
    }

    /// The problem that is solved.
    pub fn problem(&self) -> &Problem
        ensures { result.now ≡ self.now.problem }
    {
        &self.problem
    }

    /// How far about a tagged cell cells are tagged too.
    pub fn tag_buffer(&self) -> IVec
        ensures { result ≡ self.now.problem.tag_buffer }
    {
        self.problem.tag_buffer
    }

    /// How far a level lies inside the next coarser one.
    pub fn nest(&self) -> IVec
        ensures { result ≡ self.now.problem.nest }
    {
        self.problem.nest
    }

    /// The frame of level 0.
    pub fn frame(&self) -> Domain
        ensures { result ≡ (area_of self.now.problem).frame }
    {
        Domain {
            size: self.problem.domain,
            periodic: self.problem.periodic,
        }
    }

    /// The width of all overlaps, in cells of the coarser level.
    pub fn width(&self) -> IVec
        ensures { result ≡ self.now.problem.width }
    {
        self.problem.width
    }

    /// The shortest length of a box that is cut, in cells.
    pub fn smallest(&self) -> i64
        ensures { result ≡ self.now.problem.smallest }
    {
        self.problem.smallest
    }

    /// The greatest length of a box, in cells.
    pub fn largest(&self) -> i64
        ensures { result ≡ self.now.problem.largest }
    {
        self.problem.largest
    }

    /// The ratio of a level to the next finer one; 1 where there can be none.
    pub fn step_above(&self, level: u8) -> Ratio
        ensures { result ≡ step_of self.now.problem level }
    {
        match self.problem.ratio.as_slice().get(usize::from(level)) {
            Some(ratio) => *ratio,
            None => Ratio { k: 1, j: 1, i: 1 },
        }
    }

    /// The same run.
    ///
    /// # Errors
    ///
    /// Where it is shared by so many that no more can be counted.
    pub fn share(&self) -> Result<Run, NoMemory>
        ensures { IfOk result (λ same. same ≡ self.now) }
    {
        Ok(Run {
            problem: Arc::try_clone(&self.problem)?,
            ranks: self.ranks,
        })
    }

    /// Whether these are the same run.
    pub fn same(&self, other: &Run) -> bool
        ensures { IsTrue result ↔ (self.now ≡ other.now) }
    {
        self.ranks == other.ranks && same_problem(&self.problem, &other.problem)
    }
}

/// Whether two problems are the same.
fn same_problem(a: &Problem, b: &Problem) -> bool
    ensures { IsTrue result ↔ (a.now ≡ b.now) }
{
    same_numbers(a, b) && same_vectors(a, b) && same_lists(a, b)
}

fn same_numbers(a: &Problem, b: &Problem) -> bool
    ensures { IsTrue result ↔ AreSameNumbers a.now b.now }
{
    same_format(a, b) && same_lengths(a, b) && same_counts(a, b)
}

fn same_vectors(a: &Problem, b: &Problem) -> bool
    ensures { IsTrue result ↔ AreSameVectors a.now b.now }
{
    same_space(a, b) && same_widths(a, b)
}

fn same_lists(a: &Problem, b: &Problem) -> bool
    ensures { IsTrue result ↔ AreSameLists a.now b.now }
{
    same_tables(a, b) && same_shapes(a, b)
}

fn same_format(a: &Problem, b: &Problem) -> bool
    ensures { IsTrue result ↔ IsSameFormat a.now b.now }
{
    a.format == b.format && a.dim == b.dim && a.levels == b.levels
}

fn same_space(a: &Problem, b: &Problem) -> bool
    ensures { IsTrue result ↔ IsSameSpace a.now b.now }
{
    same_vector(a.domain, b.domain)
        && same_flags(a.periodic, b.periodic)
        && same_vector(a.block, b.block)
}

fn same_widths(a: &Problem, b: &Problem) -> bool
    ensures { IsTrue result ↔ IsSameWidths a.now b.now }
{
    same_vector(a.nest, b.nest)
        && same_vector(a.tag_buffer, b.tag_buffer)
        && same_vector(a.width, b.width)
}

fn same_lengths(a: &Problem, b: &Problem) -> bool
    ensures { IsTrue result ↔ IsSameLengths a.now b.now }
{
    a.smallest == b.smallest && a.largest == b.largest && a.tile == b.tile
}

fn same_counts(a: &Problem, b: &Problem) -> bool
    ensures { IsTrue result ↔ IsSameCounts a.now b.now }
{
    a.efficiency == b.efficiency && a.regrid == b.regrid && a.steps == b.steps
}

fn same_tables(a: &Problem, b: &Problem) -> bool
    ensures { IsTrue result ↔ IsSameTables a.now b.now }
{
    same_ratios(a.ratio.as_slice(), b.ratio.as_slice())
        && same_all_fields(a.fields.as_slice(), b.fields.as_slice())
        && same_all_probes(a.probes.as_slice(), b.probes.as_slice())
}

fn same_shapes(a: &Problem, b: &Problem) -> bool
    ensures { IsTrue result ↔ IsSameShapes a.now b.now }
{
    same_boxes(a.parts.as_slice(), b.parts.as_slice())
        && same_all_shapes(a.shapes.as_slice(), b.shapes.as_slice())
}

fn same_vector(a: IVec, b: IVec) -> bool
    ensures { IsTrue result ↔ (a ≡ b) }
{
    a == b
}

fn same_flags(a: Flags, b: Flags) -> bool
    ensures { IsTrue result ↔ (a ≡ b) }
{
    a == b
}

fn same_ratios(a: &[Ratio], b: &[Ratio]) -> bool
    ensures { IsTrue result ↔ (a.now ≡ b.now) }
{
    a == b
}

fn same_all_fields(a: &[Field], b: &[Field]) -> bool
    ensures { IsTrue result ↔ (a.now ≡ b.now) }
{
    a == b
}

fn same_all_probes(a: &[Probe], b: &[Probe]) -> bool
    ensures { IsTrue result ↔ (a.now ≡ b.now) }
{
    a == b
}

fn same_boxes(a: &[IBox], b: &[IBox]) -> bool
    ensures { IsTrue result ↔ (a.now ≡ b.now) }
{
    a == b
}

fn same_all_shapes(a: &[Shape], b: &[Shape]) -> bool
    ensures { IsTrue result ↔ (a.now ≡ b.now) }
{
    a == b
}
