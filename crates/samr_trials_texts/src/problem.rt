//! The problem that a text with every key is read to, field by field.

use samr_box::{Flags, IBox, IVec, Ratio};
use samr_ops::{CoarsenRule, RefineRule, Rule};
use samr_problem::{Field, Probe, Problem, read_problem};
use samr_shape::Shape;

fn vector(i: i64, j: i64, k: i64) -> IVec {
    IVec { k, j, i }
}

/// A problem with every key.
const WHOLE: &str =
    "format = 2\ndim = 2\ndomain = [8, 9]\nperiodic = [false, false]\nblock = [4, 5]\nghost = [1, 2]\nlevels = 3\nratio = [[2, 3], [4, 2]]\nnest = [2, 3]\ntag_buffer = [4, 1]\nefficiency = 75\nsmallest = 4\nlargest = 32\ntile = 8\nregrid = 2\nsteps = 20\nmodulus = 1000003\ninit = [5, 1, 7]\nupdate = [3, 2]\nrefine = \"ramp\"\ncoarsen = \"sum\"\nboundary = [9, 9]\nprobe = [[0, 7, 8], [2, 63, 53]]\n[[field]]\nghost = [2, 0]\nboundary = [0, 0]\ncoarsen = \"max\"\n[[part]]\nlo = [0, 0]\nhi = [3, 8]\n[[part]]\nlo = [4, 0]\nhi = [7, 4]\n[[box]]\nlo = [-1, 6]\nsize = [4, 5]\n[[ball]]\nat = [3, 4]\nradius = 2\nvelocity = [1, -2]\n";

fn has_numbers(problem: &Problem) -> bool {
    problem.format == 2
        && problem.dim == 2
        && problem.domain == vector(8, 9, 1)
        && problem.periodic
            == Flags {
                k: false,
                j: false,
                i: false,
            }
        && problem.block == vector(4, 5, 1)
        && problem.levels == 3
        && problem.nest == vector(2, 3, 0)
        && problem.tag_buffer == vector(4, 1, 0)
        && problem.efficiency == 75
        && problem.smallest == 4
        && problem.largest == 32
        && problem.tile == 8
        && problem.regrid == 2
        && problem.steps == 20
        && problem.width == vector(4, 3, 0)
}

fn has_ratios(ratios: &[Ratio]) -> bool {
    if ratios.len() != 2 {
        return false;
    }
    let first = ratios[0];
    let second = ratios[1];
    (first.i == 2 && first.j == 3 && first.k == 1)
        && (second.i == 4 && second.j == 2 && second.k == 1)
}

fn is_first_field(field: &Field) -> bool {
    let init = field.init;
    let boundary = field.boundary;
    field.ghosts == vector(1, 2, 0)
        && field.modulus == 1_000_003
        && (init.first == 5 && init.i == 1 && init.j == 7 && init.k == 0)
        && (field.centre == 3 && field.face == 2)
        && field.refine == RefineRule::Ramp
        && field.coarsen == CoarsenRule::Sum
        && (boundary.i == Rule::Fixed(9) && boundary.j == Rule::Fixed(9))
}

fn is_second_field(field: &Field) -> bool {
    let init = field.init;
    field.ghosts == vector(2, 0, 0)
        && field.modulus == 1_000_000
        && (init.first == 0 && init.i == 0 && init.j == 0 && init.k == 0)
        && (field.centre == 1 && field.face == 0)
        && field.refine == RefineRule::Same
        && field.coarsen == CoarsenRule::Max
        && field.boundary.i == Rule::Fixed(0)
}

fn has_fields(fields: &[Field]) -> bool {
    fields.len() == 2 && is_first_field(&fields[0]) && is_second_field(&fields[1])
}

fn has_probes(probes: &[Probe]) -> bool {
    probes.len() == 2 && probes[1].level == 2 && probes[1].cell == vector(63, 53, 0)
}

fn has_parts(parts: &[IBox]) -> bool {
    if parts.len() != 2 {
        return false;
    }
    let part = parts[1];
    part.lo == vector(4, 0, 0) && part.hi == vector(7, 4, 0)
}

fn has_shapes(shapes: &[Shape]) -> bool {
    let slab = Shape::Slab {
        lo: vector(-1, 6, 0),
        size: vector(4, 5, 1),
        velocity: vector(0, 0, 0),
    };
    let ball = Shape::Ball {
        at: vector(3, 4, 0),
        radius: 2,
        velocity: vector(1, -2, 0),
    };
    shapes.len() == 2 && shapes[0] == slab && shapes[1] == ball
}

#[test]
fn every_key_has_its_field(rt: HostRuntime) {
    match read_problem(rt.alloc(), WHOLE.as_bytes()) {
        Ok(problem) => {
            assert!(rt; has_numbers(&problem), "numbers");
            assert!(rt; has_ratios(problem.ratio.as_slice()), "ratio");
            assert!(rt; has_fields(problem.fields.as_slice()), "fields");
            assert!(rt; has_probes(problem.probes.as_slice()), "probes");
            assert!(rt; has_parts(problem.parts.as_slice()), "parts");
            assert!(rt; has_shapes(problem.shapes.as_slice()), "shapes");
        }
        Err(_unread) => {
            assert!(rt; false, "refused");
        }
    }
}
