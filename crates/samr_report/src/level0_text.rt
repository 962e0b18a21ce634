//! The text of level 0 alone.

ghost use Rattle.std.specs.Prelude.{◌≡◌, ◌++◌, ◌∷◌, [], ◌<◌, ◌^◌, OnOk, IfOk, sum_by};
ghost use Rattle.samr_box.specs.Corners.{cells_of};
ghost use Rattle.samr_level.specs.Levels.{IsLevel};
ghost use Rattle.samr_level.specs.Overlaps.{of_rank};
ghost use Rattle.samr_report.specs.LevelLines.{edge_lines};
ghost use Rattle.samr_mesh.specs.Domains.{area_of, level0_of};
ghost use Rattle.samr_mesh.specs.Grounds.{HasLevel0};
ghost use Rattle.samr_report.specs.Report.{told_edges};
ghost use Rattle.samr_report.specs.Level0Text.{edges0_of, check_text};

use crate::level_lines::{put_boxes, put_edges, put_level_line};
use crate::lines::put_line;
use crate::step_text::is_zero;
use crate::whole_text::put_first_line;
use samr_box::Domain;
use samr_level::{BoxRef, Region, level0_pair, whole_level0};
use samr_problem::Problem;
use std::alloc::{AllocError as NoMemory, Global};

/// The domain of level 0 of a problem.
fn region_of(alloc: Global, problem: &Problem) -> Result<Region, NoMemory>
    ensures region { IfOk result (λ region. region ≡ area_of problem.now) }
    ensures level0 { HasLevel0 problem.now }
{
    let frame = Domain {
        size: problem.domain,
        periodic: problem.periodic,
    };
    let parts = problem.parts.copied(alloc)?;
    let region = Region::new(frame, parts.into_vec());
    Ok(region.unwrap())
}

/// Appends the edges of one rank's boxes of level 0 to level 0.
#[tactic(auto, unfolding(crate::specs::Level0Text::edges0_of))]
fn put_edges_of_rank(
    alloc: Global,
    out: &mut Vec<u8>,
    problem: &Problem,
    region: &Region,
    ranks: u16,
    rank: u16,
) -> Result<(), NoMemory>
    requires region { region.now ≡ area_of problem.now }
    requires level0 { HasLevel0 problem.now }
    ensures { OnOk result (out.new.items ≡ out.old.items ++ edge_lines 0 0 (of_rank rank (edges0_of problem.now ranks))) }
{
    let pair = level0_pair(alloc, region, problem.block, ranks, rank, problem.width)?;
    put_edges(out, 0, 0, pair.forth.edges.as_slice())?;
    Ok(())
}

/// Appends the edges of level 0 to itself, rank by rank.
fn put_all_edges(
    alloc: Global,
    out: &mut Vec<u8>,
    problem: &Problem,
    region: &Region,
    ranks: u16,
) -> Result<(), NoMemory>
    requires ranks { 0 < ranks }
    requires region { region.now ≡ area_of problem.now }
    requires level0 { HasLevel0 problem.now }
    requires level { IsLevel (area_of problem.now) ranks (level0_of problem.now ranks) }
    ensures { OnOk result (out.new.items ≡ out.old.items ++ edge_lines 0 0 (edges0_of problem.now ranks)) }
{
    for rank in 0..ranks {
        put_edges_of_rank(alloc, out, problem, region, ranks, rank)?;
    }
    Ok(())
}

/// Appends the edges of level 0 to itself, where the width has a number that is not 0.
#[tactic(auto, unfolding(crate::specs::Report::told_edges, crate::specs::Level0Text::edges0_of))]
fn put_told_edges(
    alloc: Global,
    out: &mut Vec<u8>,
    problem: &Problem,
    region: &Region,
    ranks: u16,
) -> Result<(), NoMemory>
    requires ranks { 0 < ranks }
    requires region { region.now ≡ area_of problem.now }
    requires level0 { HasLevel0 problem.now }
    requires level { IsLevel (area_of problem.now) ranks (level0_of problem.now ranks) }
    ensures { OnOk result (out.new.items ≡ out.old.items ++ told_edges problem.now (level0_of problem.now ranks ∷ []) 0 0) }
{
    if is_zero(problem.width) {
        return Ok(());
    }
    put_all_edges(alloc, out, problem, region, ranks)?;
    Ok(())
}

/// Level 0 of a problem, whose boxes have all together fewer than 2^63 cells.
fn level0_of(
    alloc: Global,
    problem: &Problem,
    region: &Region,
    ranks: u16,
) -> Result<Vec<BoxRef>, NoMemory>
    requires ranks { 0 < ranks }
    requires region { region.now ≡ area_of problem.now }
    requires level0 { HasLevel0 problem.now }
    ensures value { IfOk result (λ v. v.items ≡ level0_of problem.now ranks) }
    ensures level { IfOk result (λ v. IsLevel (area_of problem.now) ranks (level0_of problem.now ranks)) }
    ensures few { IfOk result (λ v. sum_by (λ b. cells_of b.bx) v.items < 2 ^ 63) }
{
    let level = whole_level0(alloc, region, problem.block, ranks)?;
    Ok(level)
}

/// The text that `check` prints of a problem: level 0 with its owners, and its edges to itself.
#[tactic(auto, unfolding(crate::specs::Level0Text::check_text))]
pub fn check_text(alloc: Global, problem: &Problem, ranks: u16) -> Result<Vec<u8>, NoMemory>
    requires { 0 < ranks }
    ensures { IfOk result (λ text. text.items ≡ check_text problem.now ranks) }
{
    let region = region_of(alloc, problem)?;
    let level = level0_of(alloc, problem, &region, ranks)?;
    let mut out = Vec::new(alloc);
    put_first_line(&mut out, problem, ranks)?;
    put_level_line(&mut out, 0, level.as_slice())?;
    put_boxes(&mut out, 0, level.as_slice())?;
    put_told_edges(alloc, &mut out, problem, &region, ranks)?;
    put_line(&mut out, "end", &[])?;
    Ok(out)
}
