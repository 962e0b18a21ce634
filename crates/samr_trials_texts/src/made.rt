//! The problems that are made of a seed and a size, as texts and read back.

ghost use Rattle.std.specs.Prelude.{◌≤◌};

use samr_generate::{make_problem, make_text};
use samr_problem::read_problem;
use std::alloc::Global;
use std::test::Fail;

/// The text of seed 1 and size 1.
const FIRST: &str = "format = 1
dim = 2
domain = [8, 8]
periodic = [true, true]
block = [8, 8]
ghost = [1, 1]
levels = 3
nest = [1, 1]
tag_buffer = [1, 1]
efficiency = 70
smallest = 2
largest = 32
regrid = 2
steps = 8
modulus = 1000000
init = [0, 1, 3]
update = [1, 1]

[[ball]]
at = [14, 17]
radius = 1
velocity = [-2, 4]
";

#[test]
fn the_text_of_seed_1_and_size_1(rt: HostRuntime) -> Result<(), Fail> {
    let text = make_text(rt.alloc(), 1, 1)?;
    assert!(rt; text.as_slice() == FIRST.as_bytes());
    Ok(())
}

/// Whether the text of a seed and a size reads back as the problem that is made of them.
fn reads_back(alloc: Global, seed: u32, size: u32) -> Result<bool, Fail>
    requires some { 1 ≤ size }
    requires few { size ≤ 64 }
{
    let text = make_text(alloc, seed, size)?;
    let made = make_problem(alloc, seed, size)?;
    let Ok(read) = read_problem(alloc, text.as_slice()) else {
        return Ok(false);
    };
    let one = format!(in alloc; "{made:?}")?;
    let other = format!(in alloc; "{read:?}")?;
    Ok(one == other)
}

#[test]
fn made_texts_read_back(rt: HostRuntime) -> Result<(), Fail> {
    for seed in 0..21 {
        assert!(rt; reads_back(rt.alloc(), seed, 1)?);
        assert!(rt; reads_back(rt.alloc(), seed, 8)?);
        assert!(rt; reads_back(rt.alloc(), seed, 64)?);
    }
    Ok(())
}
