//! The domains of the levels of a problem, and the ratios between them.

ghost use Rattle.std.specs.Prelude.{◌≡◌, ◌+◌, ◌-◌, ◌<◌, IfOk};
ghost use Rattle.samr_box.specs.Vector.{IsRatio, times};
ghost use Rattle.samr_box.specs.Ratios.{coarse};
ghost use Rattle.samr_problem.specs.Problems.{IsProblem};
ghost use Rattle.samr_mesh.specs.Domains.{area_of, step_of, ratio_to, area_at, frame_at, to_finest};

use samr_box::{Domain, Ratio, coarsen_cell};
use samr_level::Region;
use samr_problem::Problem;
use std::alloc::{AllocError as NoMemory, Global};

/// The ratio of a level to itself.
pub(crate) const SAME: Ratio = Ratio { k: 1, j: 1, i: 1 };

/// What is true of each accepted problem; nothing runs.
pub(crate) fn accepted(problem: &Problem)
    ensures { IsProblem problem.now }
{
    let _ = &problem.levels;
}

/// The domain of level 0.
pub(crate) fn region_of(alloc: Global, problem: &Problem) -> Result<Region, NoMemory>
    ensures { IfOk result (λ region. region ≡ area_of problem.now) }
{
    let frame = Domain {
        size: problem.domain,
        periodic: problem.periodic,
    };
    let parts = problem.parts.copied(alloc)?;
    let region = Region::new(frame, parts.into_vec());
    Ok(region.unwrap())
}

/// The ratio of a level to the next finer one.
pub(crate) fn step_of(problem: &Problem, level: u8) -> Ratio
    ensures { result ≡ step_of problem.now level }
{
    match problem.ratio.as_slice().get(usize::from(level)) {
        Some(ratio) => *ratio,
        None => SAME,
    }
}

/// The ratio that two ratios make one after the other.
fn product(a: Ratio, b: Ratio) -> Ratio
    requires { IsRatio (times a b) }
    ensures { result ≡ times a b }
{
    let factors = a.factors().times(b.factors());
    Ratio {
        k: factors.k,
        j: factors.j,
        i: factors.i,
    }
}

/// The ratio that is left of one after another.
fn quotient(a: Ratio, b: Ratio) -> Ratio
    requires { IsRatio (coarse a b) }
    ensures { result ≡ coarse a b }
{
    let factors = coarsen_cell(a.factors(), b);
    Ratio {
        k: factors.k,
        j: factors.j,
        i: factors.i,
    }
}

/// The ratio from level 0 to a level.
pub(crate) fn ratio_to(problem: &Problem, level: u8) -> Ratio
    requires { level < problem.now.levels }
    ensures { result ≡ ratio_to problem.now level }
{
    accepted(problem);
    let mut ratio = SAME;
    for below in 0..level {
        ratio = product(ratio, step_of(problem, below));
    }
    ratio
}

/// The number of the finest level that there may be.
fn finest_of(problem: &Problem) -> u8
    ensures { result + 1 ≡ problem.now.levels }
{
    problem.levels - 1
}

/// The ratio from a level to the finest one that there may be.
pub(crate) fn to_finest(problem: &Problem, level: u8) -> Ratio
    requires { level < problem.now.levels }
    ensures { result ≡ to_finest problem.now level }
{
    accepted(problem);
    quotient(
        ratio_to(problem, finest_of(problem)),
        ratio_to(problem, level),
    )
}

/// The domain of a level.
///
/// # Errors
///
/// Where memory is short.
pub(crate) fn region_at(alloc: Global, problem: &Problem, level: u8) -> Result<Region, NoMemory>
    requires { level < problem.now.levels }
    ensures { IfOk result (λ region. region ≡ area_at problem.now level) }
{
    accepted(problem);
    let region = region_of(alloc, problem)?;
    let finer = region.refined(alloc, ratio_to(problem, level))?;
    Ok(finer)
}

/// The frame of a level.
pub(crate) fn frame_at(problem: &Problem, level: u8) -> Domain
    requires { level < problem.now.levels }
    ensures { result ≡ frame_at problem.now level }
{
    accepted(problem);
    let frame = Domain {
        size: problem.domain,
        periodic: problem.periodic,
    };
    frame.finer(ratio_to(problem, level))
}

/// The frame of the finest level that there may be.
pub(crate) fn finest_frame(problem: &Problem) -> Domain
    ensures { result ≡ frame_at problem.now (problem.now.levels - 1) }
{
    accepted(problem);
    frame_at(problem, finest_of(problem))
}
