//! The tables of a problem's lists one by one, which of two faults is told, and how many tables there may be.

use crate::problem_texts::{check_refused, is_accepted, is_refused, text_with};
use std::test::Fail;

#[test]
fn tables_are_looked_into_one_by_one(rt: HostRuntime) -> Result<(), Fail> {
    let rows = [
        ("", "[[box]]", 4, "box.0.lo"),
        ("", "[[box]]\n\"a b\" = 1", 3, "box.0.?"),
        ("", "[[box]]\nlo = [0, 0]", 4, "box.0.size"),
        (
            "",
            "[[box]]\nlo = [0, 0]\nsize = [1, 1]\n[[box]]\nlo = [0, 0]\nsize = [0, 1]",
            6,
            "box.1.size",
        ),
        (
            "",
            "[[box]]\nlo = [-8388609, 0]\nsize = [1, 1]",
            6,
            "box.0.lo",
        ),
        ("", "[[box]]\nlo = [0, 0]\nsize = [1, 9]", 6, "box.0.size"),
        (
            "",
            "levels = 2\n[[box]]\nlo = [0, 0]\nsize = [16, 17]",
            6,
            "box.0.size",
        ),
        (
            "",
            "[[box]]\nlo = [0, 0]\nsize = [1, 1]\nvelocity = [4097, 0]",
            6,
            "box.0.velocity",
        ),
        ("", "[[box]]\nlo = [0]\nsize = [1, 1]", 7, "box.0.lo"),
        ("", "[[box]]\nlo = 0\nsize = [1, 1]", 5, "box.0.lo"),
        ("", "box = [1, { lo = [0, 0] }]", 4, "box.0.size"),
        ("", "[[ball]]", 4, "ball.0.at"),
        ("", "[[ball]]\nat = [0, 0]", 4, "ball.0.radius"),
        ("", "[[ball]]\nat = [0, 0]\nradius = -1", 6, "ball.0.radius"),
        (
            "",
            "[[ball]]\nat = [0, 0]\nradius = 4194305",
            6,
            "ball.0.radius",
        ),
        (
            "",
            "[[ball]]\nat = [8388609, 0]\nradius = 1",
            6,
            "ball.0.at",
        ),
        (
            "",
            "[[ball]]\nat = [0, 0]\nradius = 1\nvelocity = [0, -4097]",
            6,
            "ball.0.velocity",
        ),
        (
            "",
            "[[ball]]\nat = [0, 0]\nradius = 1\nlo = [0, 0]",
            3,
            "ball.0.lo",
        ),
        ("", "[[field]]\ncolour = 1", 3, "field.0.colour"),
        ("", "[[field]]\nmodulus = 1", 6, "field.0.modulus"),
        (
            "",
            "[[field]]\n[[field]]\nupdate = [1, 1]",
            6,
            "field.1.update",
        ),
        (
            "",
            "ghost = [1, 1]\n[[field]]\nupdate = [1, 1]",
            6,
            "field.0.update",
        ),
        (
            "",
            "modulus = 5\n[[field]]\nboundary = [1000000, 0]",
            6,
            "field.0.boundary",
        ),
        (
            "",
            "levels = 2\n[[field]]\n[[field]]\nghost = [3, 3]",
            8,
            "field.1.ghost",
        ),
        ("", "[[box]]\n\"b\" = 1\n[[field]]\nzz = 1", 3, "field.0.zz"),
        (
            "format",
            "format = 2\n[[part]]\nlo = [0, 0]",
            4,
            "part.0.hi",
        ),
        (
            "format",
            "format = 2\nboundary = [0, 0]\n[[part]]\nlo = [8, 0]\nhi = [8, 0]",
            6,
            "part.0.lo",
        ),
        (
            "format",
            "format = 2\nboundary = [0, 0]\n[[part]]\nlo = [0, 0]\nhi = [8, 0]",
            6,
            "part.0.hi",
        ),
        (
            "format",
            "format = 2\nboundary = [0, 0]\n[[part]]\nlo = [1, 0]\nhi = [0, 0]",
            6,
            "part.0.hi",
        ),
        (
            "format",
            "format = 2\nboundary = [0, 0]\n[[part]]\nlo = [0, 0]\nhi = [3, 3]\n[[part]]\nlo = [3, 3]\nhi = [4, 4]",
            6,
            "part.1.lo",
        ),
        (
            "format",
            "format = 2\n[[part]]\nlo = [0, 0]\nhi = [3, 3]",
            6,
            "boundary",
        ),
        (
            "format",
            "format = 2\nboundary = [0, 1]\n[[part]]\nlo = [0, 0]\nhi = [3, 3]",
            6,
            "boundary",
        ),
        (
            "format",
            "format = 2\nboundary = [1, 1]\n[[field]]\n[[part]]\nlo = [0, 0]\nhi = [3, 3]",
            6,
            "field.0.boundary",
        ),
        ("", "[[part]]\nlo = [0, 0]\nhi = [3, 3]", 6, "format"),
        (
            "format periodic",
            "format = 2\nperiodic = [false, true]\n[[part]]\nlo = [0, 0]\nhi = [3, 3]",
            6,
            "periodic",
        ),
    ];
    check_refused(&rt, rt.alloc(), &rows)
}

#[test]
fn the_first_of_two_faults_is_told(rt: HostRuntime) -> Result<(), Fail> {
    let rows = [
        ("format", "colour = 1", 3, "colour"),
        ("", "zz = 1\n[[box]]\na = 1", 3, "zz"),
        ("format block", "block = 4", 4, "format"),
        ("domain", "domain = 8\n[[box]]", 4, "box.0.lo"),
        ("dim domain", "dim = 5\ndomain = 8", 5, "domain"),
        ("dim domain", "dim = 4\ndomain = [8]", 6, "dim"),
        ("format dim", "format = 9\ndim = 9", 6, "format"),
        (
            "domain block",
            "domain = [8]\nblock = [4, \"x\"]",
            5,
            "block",
        ),
        ("domain block", "domain = [8, 0]\nblock = [4]", 7, "block"),
        ("", "levels = 2\nghost = [3, 3]\nsteps = -1", 6, "steps"),
        (
            "domain",
            "domain = [2, 8]\nlevels = 2\nghost = [3, 3]",
            8,
            "ghost",
        ),
        ("", "levels = 2\nghost = [3, 3]", 8, "ghost"),
        (
            "domain periodic",
            "domain = [4, 8]\nperiodic = [true, false]\nghost = [5, 0]",
            9,
            "domain",
        ),
        (
            "domain block",
            "domain = [4194304, 2]\nblock = [3, 4]",
            6,
            "block",
        ),
        ("", "levels = 6\nratio = [[2, 2]]", 6, "levels"),
        (
            "",
            "levels = 2\nnest = [9, 1]\nprobe = [[2, 0, 0]]",
            6,
            "nest",
        ),
    ];
    check_refused(&rt, rt.alloc(), &rows)
}

#[test]
fn at_most_32_shapes_and_64_probes(rt: HostRuntime) -> Result<(), Fail> {
    let alloc = rt.alloc();
    for (boxes, balls, cause, key) in [
        (32, 0, 0, ""),
        (33, 0, 7, "box"),
        (20, 12, 0, ""),
        (20, 13, 7, "ball"),
    ] {
        let mut text = text_with(alloc, "", "")?;
        for _ in 0..boxes {
            text.push_str("[[box]]\nlo = [0, 0]\nsize = [1, 1]\n")?;
        }
        for _ in 0..balls {
            text.push_str("[[ball]]\nat = [0, 0]\nradius = 0\n")?;
        }
        let refused = is_refused(alloc, text.as_bytes(), cause, key);
        assert!(rt;
            refused || (cause == 0 && is_accepted(alloc, text.as_bytes())),
            "{boxes} {balls}"
        );
    }
    for (probes, accepted) in [(64, true), (65, false)] {
        let mut text = text_with(alloc, "", "probe = [")?;
        for _ in 0..probes {
            text.push_str("[0, 0, 0],")?;
        }
        text.push_str("]")?;
        assert_eq!(rt; is_accepted(alloc, text.as_bytes()), accepted);
        assert_eq!(rt; is_refused(alloc, text.as_bytes(), 7, "probe"), !accepted);
    }
    Ok(())
}
