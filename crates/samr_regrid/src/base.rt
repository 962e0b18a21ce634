//! What a rank has before a pass, and through it.

ghost use Rattle.std.specs.Prelude.{ℕ, suc, ◌≡◌, ◌<◌, slice_get, option_map, length, Some, IfOk};
ghost use Rattle.samr_mesh.specs.Domains.{area_of, area_at, step_of};
ghost use Rattle.samr_hierarchy.specs.Scales.{all_rules};
ghost use Rattle.samr_msg.specs.Places.{AtPass};
ghost use Rattle.samr_regrid.specs.Asking.{IsServed};
ghost use Rattle.samr_regrid.specs.Books.{book_before};
ghost use Rattle.samr_regrid.specs.Ranks.{level_part, level_parts};
ghost use Rattle.samr_regrid.specs.Standing.{IsSeat, IsPassOf, HasLevels, standing, above_before};

use crate::book::Book;
use crate::level::{Above, Level};
use crate::places::PassPlace;
use crate::tools::Tools;
use samr_box::{Domain, IVec, Listed, Ratio};
use samr_level::Region;
use samr_msg::Run;
use samr_phase::Part;
use samr_problem::Problem;
use samr_stage::Label;
use std::alloc::{AllocError as NoMemory, Global};

/// What a rank has before a pass of a regrid, and through it.
#[derive(Drop)]
pub struct Base<G: Tools> {
    pub(crate) run: Run,
    pub(crate) rank: u16,
    pub(crate) step: u32,
    /// The number of the pass in its regrid.
    pub(crate) pass: u8,
    /// The number of the level over which the pass makes a new one.
    pub(crate) level: u8,
    pub(crate) tools: G,
    /// The levels with which the regrid begins; at step 0 those that are made.
    pub(crate) olds: Listed<Level>,
    /// The new level two above.
    pub(crate) above: Option<Above>,
    /// The new levels above that one, from the finest down.
    pub(crate) news: Listed<Level>,
    pub(crate) book: Book,
}

impl<G: Tools> Part for Base<G> {
    type Whole = PassPlace;

    ghost ranks = { λ w. w.pass.ranks };

    ghost holds = { λ x w r. IsSeat x.run x.rank x.step w.at r × IsPassOf w
        × IsServed (G.may_tell x.tools) (G.is_tagged x.tools) (G.may_tell_first x.tools) (G.first_value x.tools) w.at.setting r
        × (G.rules_of x.tools ≡ all_rules w.at.setting.problem)
        × HasLevels x.pass x.level x.olds x.above x.news w r
        × (x.book ≡ book_before w.at r) };
}

impl<G: Tools> Base<G> {
    /// Which rank it is.
    pub fn rank(&self) -> u16
        ensures { (w : AtPass) (r : ℕ) → ⟦<Base<G> as Part>⟧.holds self.now w r → result ≡ r }
    {
        self.rank
    }

    /// How many ranks there are.
    pub fn ranks(&self) -> u16
        ensures { (w : AtPass) (r : ℕ) → ⟦<Base<G> as Part>⟧.holds self.now w r → result ≡ w.pass.ranks }
    {
        self.run.ranks()
    }

    /// The problem that is solved.
    pub fn problem(&self) -> &Problem
        ensures { (w : AtPass) (r : ℕ) → ⟦<Base<G> as Part>⟧.holds self.now w r → result.now ≡ w.at.setting.problem }
    {
        self.run.problem()
    }

    /// The label of a round of a phase of the pass.
    pub fn label(&self, phase: u8, round: u32) -> Label
        ensures { (w : AtPass) (r : ℕ) → ⟦<Base<G> as Part>⟧.holds self.now w r → result ≡ record { step = w.at.step; pass = w.number; phase = phase; round = round } }
    {
        Label {
            step: self.step,
            pass: self.pass,
            phase,
            round,
        }
    }

    /// The step of the run.
    pub fn step(&self) -> u32
        ensures { (w : AtPass) (r : ℕ) → ⟦<Base<G> as Part>⟧.holds self.now w r → result ≡ w.at.step }
    {
        self.step
    }

    /// The number of the level over which a new one is made.
    pub fn level(&self) -> u8
        ensures { (w : AtPass) (r : ℕ) → ⟦<Base<G> as Part>⟧.holds self.now w r → result ≡ w.pass.number }
    {
        self.level
    }

    /// The frame of level 0.
    pub fn frame(&self) -> Domain
        ensures { (w : AtPass) (r : ℕ) → ⟦<Base<G> as Part>⟧.holds self.now w r → result ≡ (area_of w.at.setting.problem).frame }
    {
        self.run.frame()
    }

    /// The domain of the level.
    ///
    /// # Errors
    ///
    /// Where memory is short.
    pub fn region(&self, alloc: Global) -> Result<Region, NoMemory>
        requires { (w : AtPass) × (r : ℕ) × ⟦<Base<G> as Part>⟧.holds self.now w r }
        ensures { IfOk result (λ region. (w : AtPass) (r : ℕ) → ⟦<Base<G> as Part>⟧.holds self.now w r → region ≡ area_at w.at.setting.problem w.pass.number) }
    {
        let base = first_region(alloc, self.run.problem())?;
        let region = base.refined(alloc, ratio_of(self.old()))?;
        Ok(region)
    }

    /// The width of all overlaps, in cells of the coarser level.
    pub fn width(&self) -> IVec
        ensures { (w : AtPass) (r : ℕ) → ⟦<Base<G> as Part>⟧.holds self.now w r → result ≡ w.at.setting.problem.width }
    {
        self.run.width()
    }

    /// How far about a tagged cell cells are tagged too.
    pub fn tag_buffer(&self) -> IVec
        ensures { (w : AtPass) (r : ℕ) → ⟦<Base<G> as Part>⟧.holds self.now w r → result ≡ w.at.setting.problem.tag_buffer }
    {
        self.run.tag_buffer()
    }

    /// How far a level lies inside the next coarser one.
    pub fn nest(&self) -> IVec
        ensures { (w : AtPass) (r : ℕ) → ⟦<Base<G> as Part>⟧.holds self.now w r → result ≡ w.at.setting.problem.nest }
    {
        self.run.nest()
    }

    /// The shortest length of a box that is cut.
    pub fn smallest(&self) -> i64
        ensures { (w : AtPass) (r : ℕ) → ⟦<Base<G> as Part>⟧.holds self.now w r → result ≡ w.at.setting.problem.smallest }
    {
        self.run.smallest()
    }

    /// The greatest length of a box.
    pub fn largest(&self) -> i64
        ensures { (w : AtPass) (r : ℕ) → ⟦<Base<G> as Part>⟧.holds self.now w r → result ≡ w.at.setting.problem.largest }
    {
        self.run.largest()
    }

    /// The ratio of the level to the new one.
    pub fn lower(&self) -> Ratio
        ensures { (w : AtPass) (r : ℕ) → ⟦<Base<G> as Part>⟧.holds self.now w r → result ≡ step_of w.at.setting.problem w.pass.number }
    {
        self.run.step_above(self.level)
    }

    /// The ratio of the new level to the one above it.
    pub fn upper(&self) -> Ratio
        requires { (w : AtPass) × (r : ℕ) × ⟦<Base<G> as Part>⟧.holds self.now w r }
        ensures { (w : AtPass) (r : ℕ) → ⟦<Base<G> as Part>⟧.holds self.now w r → result ≡ step_of w.at.setting.problem (suc w.pass.number) }
    {
        self.run.step_above(self.level + 1)
    }

    /// What the rank is given from outside.
    pub fn tools(&self) -> &G
        ensures { (w : AtPass) (r : ℕ) → ⟦<Base<G> as Part>⟧.holds self.now w r → IsServed (G.may_tell result.now) (G.is_tagged result.now) (G.may_tell_first result.now) (G.first_value result.now) w.at.setting r × (G.rules_of result.now ≡ all_rules w.at.setting.problem) }
    {
        &self.tools
    }

    /// What the rank has of the level.
    pub fn old(&self) -> &Level
        requires { (w : AtPass) × (r : ℕ) × ⟦<Base<G> as Part>⟧.holds self.now w r }
        ensures { (w : AtPass) (r : ℕ) → ⟦<Base<G> as Part>⟧.holds self.now w r → result.now ≡ level_part w.at.setting.problem (standing w.at w.number) r w.pass.number }
    {
        one_of(self.olds.as_slice(), usize::from(self.level))
    }

    /// What the rank has of the old level above, if there is one.
    pub fn old_above(&self) -> Option<&Level>
        ensures { (w : AtPass) (r : ℕ) → ⟦<Base<G> as Part>⟧.holds self.now w r → option_map (λ p. p.now) result ≡ slice_get (level_parts w.at.setting.problem (standing w.at w.number) r) (suc w.pass.number) }
    {
        at(self.olds.as_slice(), usize::from(self.level) + 1)
    }

    /// What the rank has of the new level two above, if there is one.
    pub fn above(&self) -> Option<&Above>
        ensures { (w : AtPass) (r : ℕ) → ⟦<Base<G> as Part>⟧.holds self.now w r → option_map (λ p. p.now) result ≡ above_before w.at r w.pass.number }
    {
        self.above.as_ref()
    }
}

/// One of some levels.
fn one_of(levels: &[Level], place: usize) -> &Level
    requires { place < length levels.now }
    ensures { slice_get levels.now place ≡ Some result.now }
{
    &levels[place]
}

/// One of some levels, if they have it.
fn at(levels: &[Level], place: usize) -> Option<&Level>
    ensures { option_map (λ p. p.now) result ≡ slice_get levels.now place }
{
    levels.get(place)
}

/// The ratio from level 0 to a level.
fn ratio_of(level: &Level) -> Ratio
    ensures { result ≡ level.now.selves.forth.base_ratio }
{
    level.selves.forth.base_ratio
}

/// The domain of level 0.
fn first_region(alloc: Global, problem: &Problem) -> Result<Region, NoMemory>
    ensures { IfOk result (λ region. region ≡ area_of problem.now) }
{
    let frame = Domain {
        size: problem.domain,
        periodic: problem.periodic,
    };
    let parts = problem.parts.copied(alloc)?;
    let region = Region::new(frame, parts.into_vec());
    Ok(region.unwrap())
}
