//! Ratios, frames and widths of the levels of a problem.

ghost use Rattle.std.specs.Prelude.{◌≡◌, ◌<◌};
ghost use Rattle.samr_box.specs.Vector.{IsRatio, times, greatest};
ghost use Rattle.samr_box.specs.Space.{finer};
ghost use Rattle.samr_problem.specs.Problems.{IsProblem};
ghost use Rattle.samr_mesh.specs.Domains.{area_of, step_of, ratio_to};
ghost use Rattle.samr_verify.specs.MeshFaults.{step_below};

use samr_box::{Domain, IVec, Ratio};
use samr_problem::Problem;

/// The ratio of a level to itself.
const SAME: Ratio = Ratio { k: 1, j: 1, i: 1 };

/// The law that a problem is one.
pub(crate) fn is_problem(problem: &Problem)
    ensures { IsProblem problem.now }
{
    let _ = &problem.levels;
}

/// The ratio with these factors.
pub(crate) fn ratio_from(factors: IVec) -> Ratio
    requires { IsRatio factors }
    ensures { result ≡ factors }
{
    Ratio {
        k: factors.k,
        j: factors.j,
        i: factors.i,
    }
}

/// One ratio after another.
fn product(a: Ratio, b: Ratio) -> Ratio
    requires { IsRatio (times a b) }
    ensures { result ≡ times a b }
{
    ratio_from(a.factors().times(b.factors()))
}

/// The greater factor of two ratios on each axis.
fn greatest(a: Ratio, b: Ratio) -> Ratio
    ensures { result ≡ greatest a b }
{
    ratio_from(a.factors().greatest(b.factors()))
}

/// The ratio of a level to the next finer one.
pub(crate) fn step_of(problem: &Problem, l: usize) -> Ratio
    ensures { result ≡ step_of problem.now l }
{
    match problem.ratio.as_slice().get(l) {
        Some(r) => *r,
        None => SAME,
    }
}

/// The ratio of the level below a level to it.
pub(crate) fn step_below(problem: &Problem, l: usize) -> Ratio
    ensures { result ≡ step_below problem.now l }
{
    if l == 0 {
        return SAME;
    }
    step_of(problem, l - 1)
}

/// The ratio from level 0 to a level.
pub(crate) fn ratio_to(problem: &Problem, l: usize) -> Ratio
    requires is { IsProblem problem.now }
    requires few { l < problem.now.levels }
    ensures { result ≡ ratio_to problem.now l }
{
    let mut r = SAME;
    for i in 0..l {
        r = product(r, step_of(problem, i));
    }
    r
}

/// The frame of level 0.
pub(crate) fn frame_of(problem: &Problem) -> Domain
    ensures { result ≡ (area_of problem.now).frame }
{
    Domain {
        size: problem.domain,
        periodic: problem.periodic,
    }
}

/// The width of all connectors.
pub(crate) fn width_of(problem: &Problem) -> IVec
    ensures { result ≡ problem.now.width }
{
    problem.width
}

/// The frame of the finer of two levels.
pub(crate) fn finer_frame(problem: &Problem, a: Ratio, b: Ratio, l: usize, m: usize) -> Domain
    requires is { IsProblem problem.now }
    requires l { l < problem.now.levels }
    requires m { m < problem.now.levels }
    requires a { a ≡ ratio_to problem.now l }
    requires b { b ≡ ratio_to problem.now m }
    ensures { result ≡ finer (area_of problem.now).frame (greatest a b) }
{
    frame_of(problem).finer(greatest(a, b))
}
