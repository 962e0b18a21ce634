//! The problem that is made of a seed and a size.

ghost use Rattle.std.specs.Prelude.{◌≡◌, ◌∷◌, [], ◌≤◌, ◌<◌, ◌+◌, ◌*◌, ◌-ℤ◌, pos, ℕ, IfOk};
ghost use Rattle.samr_generate.specs.Draws.{generator, draw};
ghost use Rattle.samr_generate.specs.Made.{flat, ball, balls, square, ratios, field, made};

use crate::draws::{draw, seeded};
use rand_pcg::Lcg64Xsh32;
use samr_box::{Flags, IVec, Listed, Ratio};
use samr_ops::{Border, CoarsenRule, RefineRule, Rule};
use samr_problem::{Field, Init, Problem};
use samr_shape::Shape;
use std::alloc::{AllocError as NoMemory, Global};

/// A place of the plane.
fn flat(i: i64, j: i64) -> IVec
    ensures { result ≡ flat i j }
{
    IVec { k: 0, j, i }
}

/// The next velocity along an axis, from -4 to 4.
fn speed(words: &mut Lcg64Xsh32) -> i64
    ensures value { (seed n : ℕ) → words.old ≡ generator seed n → result ≡ pos (draw seed n 9) -ℤ pos 4 }
    ensures next { (seed n : ℕ) → words.old ≡ generator seed n → words.new ≡ generator seed (n + 1) }
{
    i64::from(draw(words, 9)) - 4
}

/// The next radius, from 1.
fn radius(words: &mut Lcg64Xsh32, size: u32) -> i64
    requires some { 1 ≤ size }
    requires few { size ≤ 64 }
    ensures value { (seed n : ℕ) → words.old ≡ generator seed n → result ≡ pos (draw seed n (2 * size) + 1) }
    ensures next { (seed n : ℕ) → words.old ≡ generator seed n → words.new ≡ generator seed (n + 1) }
{
    i64::from(draw(words, 2 * size)) + 1
}

/// The next coordinate of a place in the finest domain.
fn coordinate(words: &mut Lcg64Xsh32, size: u32) -> i64
    requires some { 1 ≤ size }
    requires few { size ≤ 64 }
    ensures value { (seed n : ℕ) → words.old ≡ generator seed n → result ≡ pos (draw seed n (32 * size)) }
    ensures next { (seed n : ℕ) → words.old ≡ generator seed n → words.new ≡ generator seed (n + 1) }
{
    i64::from(draw(words, 32 * size))
}

/// The next ball: the cell that its centre begins at, its radius and its velocity.
#[tactic(auto, unfolding(crate::specs::Made::ball))]
fn next_ball(words: &mut Lcg64Xsh32, size: u32) -> Shape
    requires some { 1 ≤ size }
    requires few { size ≤ 64 }
    ensures value { (seed n : ℕ) → words.old ≡ generator seed n → result ≡ ball seed size n }
    ensures next { (seed n : ℕ) → words.old ≡ generator seed n → words.new ≡ generator seed (n + 5) }
{
    let i = coordinate(words, size);
    let j = coordinate(words, size);
    let radius = radius(words, size);
    let along_i = speed(words);
    let along_j = speed(words);
    Shape::Ball {
        at: flat(i, j),
        radius,
        velocity: flat(along_i, along_j),
    }
}

/// The balls of a problem.
#[tactic(auto, unfolding(crate::specs::Made::balls))]
pub fn balls(alloc: Global, seed: u32, size: u32) -> Result<Vec<Shape>, NoMemory>
    requires some { 1 ≤ size }
    requires few { size ≤ 64 }
    ensures { IfOk result (λ v. v.items ≡ balls seed size) }
{
    let mut words = seeded(seed);
    let count = draw(&mut words, 3) + 1;
    let mut balls = Vec::new(alloc);
    for _number in 0..count {
        balls.push(next_ball(&mut words, size))?;
    }
    Ok(balls)
}

/// The field of the problem.
fn field() -> Field
    ensures { result ≡ field }
{
    Field {
        ghosts: flat(1, 1),
        modulus: 1_000_000,
        init: Init {
            first: 0,
            i: 1,
            j: 3,
            k: 0,
        },
        centre: 1,
        face: 1,
        refine: RefineRule::Same,
        coarsen: CoarsenRule::First,
        boundary: Border {
            i: Rule::Clamp,
            j: Rule::Clamp,
            k: Rule::Clamp,
        },
    }
}

/// The domain: a square.
fn square(size: u32) -> IVec
    requires { size ≤ 64 }
    ensures { result ≡ square size }
{
    let side = i64::from(8 * size);
    IVec {
        k: 1,
        j: side,
        i: side,
    }
}

/// Its one field, in a list.
fn fields(alloc: Global) -> Result<Listed<Field>, NoMemory>
    ensures { IfOk result (λ list. list ≡ field ∷ []) }
{
    let mut fields = Vec::new(alloc);
    fields.push(field())?;
    Ok(Listed::from_vec(fields))
}

/// The ratio of a level to the next one.
const RATIO: Ratio = Ratio { k: 1, j: 2, i: 2 };

/// The ratios of its levels.
fn ratios(alloc: Global) -> Result<Listed<Ratio>, NoMemory>
    ensures { IfOk result (λ list. list ≡ ratios) }
{
    let mut ratios = Vec::new(alloc);
    ratios.push(RATIO)?;
    ratios.push(RATIO)?;
    Ok(Listed::from_vec(ratios))
}

/// The balls, in a list.
fn shapes(alloc: Global, seed: u32, size: u32) -> Result<Listed<Shape>, NoMemory>
    requires some { 1 ≤ size }
    requires few { size ≤ 64 }
    ensures { IfOk result (λ list. list ≡ balls seed size) }
{
    let balls = balls(alloc, seed, size)?;
    Ok(Listed::from_vec(balls))
}

/// The problem of a seed and a size, from 1 to 64: one to three balls that move over a periodic square of
/// `8 * size` cells a side, with three levels and one field, for eight steps.
///
/// # Errors
///
/// Want of memory.
pub fn make_problem(alloc: Global, seed: u32, size: u32) -> Result<Problem, NoMemory>
    requires some { 1 ≤ size }
    requires few { size ≤ 64 }
    ensures { IfOk result (λ p. p ≡ made seed size) }
{
    let ratio = ratios(alloc)?;
    let fields = fields(alloc)?;
    let shapes = shapes(alloc, seed, size)?;
    Ok(Problem {
        format: 1,
        dim: 2,
        domain: square(size),
        periodic: Flags {
            k: false,
            j: true,
            i: true,
        },
        block: IVec { k: 1, j: 8, i: 8 },
        levels: 3,
        ratio,
        nest: flat(1, 1),
        tag_buffer: flat(1, 1),
        efficiency: 70,
        smallest: 2,
        largest: 32,
        tile: 0,
        regrid: 2,
        steps: 8,
        fields,
        probes: Listed::new(alloc),
        parts: Listed::new(alloc),
        shapes,
        width: flat(1, 1),
    })
}
