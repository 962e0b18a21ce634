//! The levels of a run after each step.

ghost use Rattle.std.specs.Prelude.{◌≡◌, ◌+◌, ◌<◌, ◌≤◌, [], ◌∷◌, suc, take, IfOk};
ghost use Rattle.samr_level.specs.Levels.{IsLevel};
ghost use Rattle.samr_mesh.specs.Domains.{level0_of, area_at};
ghost use Rattle.samr_mesh.specs.Meshes.{stacked, lowest, grown_over, renewed_over, regridded, is_due, stepped, first_mesh, mesh};
ghost use Rattle.samr_mesh.specs.Passes.{new_level};
ghost use Rattle.samr_mesh.specs.Soundness.{IsMesh};
ghost use Rattle.samr_mesh_plain.specs.Making.{CanMake, AreFrom};

use crate::domains::{accepted, region_of};
use crate::pass::Pass;
use crate::passes::new_level;
use samr_box::Listed;
use samr_level::{BoxRef, whole_level0};
use samr_problem::Problem;
use std::alloc::{AllocError as NoMemory, Global};

/// A level and those above it; where it has no box there are none.
fn stacked(
    alloc: Global,
    level: Listed<BoxRef>,
    mut above: Vec<Listed<BoxRef>>,
) -> Result<Vec<Listed<BoxRef>>, NoMemory>
    ensures { IfOk result (λ v. v.items ≡ stacked level above.items) }
{
    if level.as_slice().is_empty() {
        return Ok(Vec::new(alloc));
    }
    above.insert(0, level)?;
    Ok(above)
}

/// A copy of the lowest of some levels, if there is one.
fn lowest(alloc: Global, levels: &[Listed<BoxRef>]) -> Result<Listed<BoxRef>, NoMemory>
    ensures { IfOk result (λ level. level ≡ lowest levels.now) }
{
    match levels.first() {
        Some(level) => level.copied(alloc),
        None => Ok(Listed::new(alloc)),
    }
}

/// A new level over a level, with the new level two above it as the lowest of those that are there.
fn renewed(
    alloc: Global,
    problem: &Problem,
    ranks: u16,
    step: u32,
    number: u8,
    level: &Listed<BoxRef>,
    above: &[Listed<BoxRef>],
) -> Result<Listed<BoxRef>, NoMemory>
    requires { CanMake problem.now (record { ranks = ranks; step = step; number = number; level = level.now; above = lowest above.now }) }
    ensures { IfOk result (λ new. new ≡ new_level problem.now (record { ranks = ranks; step = step; number = number; level = level.now; above = lowest above.now })) }
{
    let w = Pass {
        ranks,
        step,
        number,
        level: level.copied(alloc)?,
        above: lowest(alloc, above)?,
    };
    let new = new_level(alloc, problem, &w)?;
    Ok(new)
}

/// A new level over a level, with nothing above it, at step 0.
fn grown(
    alloc: Global,
    problem: &Problem,
    ranks: u16,
    number: u8,
    level: &Listed<BoxRef>,
) -> Result<Listed<BoxRef>, NoMemory>
    requires { CanMake problem.now (record { ranks = ranks; step = 0; number = number; level = level.now; above = [] }) }
    ensures { IfOk result (λ new. new ≡ new_level problem.now (record { ranks = ranks; step = 0; number = number; level = level.now; above = [] })) }
{
    let w = Pass {
        ranks,
        step: 0,
        number,
        level: level.copied(alloc)?,
        above: Listed::new(alloc),
    };
    let new = new_level(alloc, problem, &w)?;
    Ok(new)
}

/// A regrid of step 0: upwards, from the level with this number at most so many more.
fn grown_over(
    alloc: Global,
    problem: &Problem,
    ranks: u16,
    more: u8,
    number: u8,
    level: &Listed<BoxRef>,
) -> Result<Vec<Listed<BoxRef>>, NoMemory>
    requires ranks { 0 < ranks }
    requires room { suc (number + more) ≤ problem.now.levels }
    requires level { IsLevel (area_at problem.now number) ranks level.now }
    ensures { IfOk result (λ v. v.items ≡ grown_over problem.now ranks more number level.now) }
{
    accepted(problem);
    if more == 0 {
        return Ok(Vec::new(alloc));
    }
    let new = grown(alloc, problem, ranks, number, level)?;
    let above = grown_over(alloc, problem, ranks, more - 1, number + 1, &new)?;
    let levels = stacked(alloc, new, above)?;
    Ok(levels)
}

/// A regrid of a later step: downwards, over each of some levels, of which the first has this number.
fn renewed_over(
    alloc: Global,
    problem: &Problem,
    ranks: u16,
    step: u32,
    number: u8,
    levels: &[Listed<BoxRef>],
) -> Result<Vec<Listed<BoxRef>>, NoMemory>
    requires ranks { 0 < ranks }
    requires levels { AreFrom problem.now ranks number levels.now }
    ensures { IfOk result (λ v. v.items ≡ renewed_over problem.now ranks step number levels.now) }
{
    accepted(problem);
    let Some((level, finer)) = levels.split_first() else {
        return Ok(Vec::new(alloc));
    };
    let above = renewed_over(alloc, problem, ranks, step, number + 1, finer)?;
    let new = renewed(alloc, problem, ranks, step, number, level, above.as_slice())?;
    let levels = stacked(alloc, new, above)?;
    Ok(levels)
}

/// A level and those above it.
fn with_base(
    base: Listed<BoxRef>,
    mut news: Vec<Listed<BoxRef>>,
) -> Result<Vec<Listed<BoxRef>>, NoMemory>
    ensures { IfOk result (λ v. v.items ≡ base ∷ news.items) }
{
    news.insert(0, base)?;
    Ok(news)
}

/// The first of some levels, at most so many.
fn coarsest(levels: &[Listed<BoxRef>], most: u8) -> &[Listed<BoxRef>]
    ensures { result.now ≡ take most levels.now }
{
    &levels[..usize::from(most).min(levels.len())]
}

/// The levels after a regrid of a later step.
#[tactic(auto, unfolding(samr_mesh::specs::Meshes::regridded))]
fn regridded(
    alloc: Global,
    problem: &Problem,
    ranks: u16,
    step: u32,
    levels: &[Listed<BoxRef>],
) -> Result<Vec<Listed<BoxRef>>, NoMemory>
    requires ranks { 0 < ranks }
    requires mesh { IsMesh problem.now ranks levels.now }
    ensures { IfOk result (λ v. v.items ≡ regridded problem.now ranks step levels.now) }
{
    accepted(problem);
    let coarsest = coarsest(levels, problem.levels - 1);
    let news = renewed_over(alloc, problem, ranks, step, 0, coarsest)?;
    let base = lowest(alloc, levels)?;
    let levels = with_base(base, news)?;
    Ok(levels)
}

/// Whether a regrid is due.
fn is_due(problem: &Problem, step: u32) -> bool
    ensures { result ≡ is_due problem.now step }
{
    accepted(problem);
    if problem.levels < 2 {
        return false;
    }
    step % problem.regrid == 0
}

/// The levels after a step, from those before it.
fn stepped(
    alloc: Global,
    problem: &Problem,
    ranks: u16,
    step: u32,
    levels: Vec<Listed<BoxRef>>,
) -> Result<Vec<Listed<BoxRef>>, NoMemory>
    requires ranks { 0 < ranks }
    requires mesh { IsMesh problem.now ranks levels.items }
    ensures { IfOk result (λ v. v.items ≡ stepped problem.now ranks step levels.items) }
{
    if is_due(problem, step) {
        let levels = regridded(alloc, problem, ranks, step, levels.as_slice())?;
        return Ok(levels);
    }
    Ok(levels)
}

/// Level 0, which never changes.
fn level0_of(alloc: Global, problem: &Problem, ranks: u16) -> Result<Listed<BoxRef>, NoMemory>
    ensures { IfOk result (λ level. level ≡ level0_of problem.now ranks) }
{
    accepted(problem);
    let region = region_of(alloc, problem)?;
    let level = whole_level0(alloc, &region, problem.block, ranks)?;
    Ok(Listed::from_vec(level))
}

/// The levels after step 0.
#[tactic(auto, unfolding(samr_mesh::specs::Meshes::first_mesh))]
fn first_mesh(alloc: Global, problem: &Problem, ranks: u16) -> Result<Vec<Listed<BoxRef>>, NoMemory>
    requires { 0 < ranks }
    ensures { IfOk result (λ v. v.items ≡ first_mesh problem.now ranks) }
{
    accepted(problem);
    let base = level0_of(alloc, problem, ranks)?;
    let news = grown_over(alloc, problem, ranks, problem.levels - 1, 0, &base)?;
    let levels = with_base(base, news)?;
    Ok(levels)
}

/// The levels of a run after a step, on so many ranks: a plain and slow program that sees whole levels, for
/// comparisons and as a help to read the definition.
///
/// # Errors
///
/// Where memory is short.
pub fn mesh_of(
    alloc: Global,
    problem: &Problem,
    ranks: u16,
    step: u32,
) -> Result<Vec<Listed<BoxRef>>, NoMemory>
    requires { 0 < ranks }
    ensures { IfOk result (λ levels. levels.items ≡ mesh problem.now ranks step) }
{
    accepted(problem);
    let mut levels = first_mesh(alloc, problem, ranks)?;
    for before in 0..step {
        levels = stepped(alloc, problem, ranks, before + 1, levels)?;
    }
    Ok(levels)
}
