//! The text of the problem that is made of a seed and a size.

ghost use Rattle.std.specs.Prelude.{◌≡◌, ◌≤◌, ◌++◌, ◌∷◌, IfOk, OnOk};
ghost use Rattle.std.specs.List.{flat_map};
ghost use Rattle.std.specs.Fmt.{signed_decimal};
ghost use Rattle.samr_generate.specs.Text.{words, number_line, pair_line, ball_table, shape_table, first_lines, key_lines, made_text};

use crate::problem::balls;
use itoa::Buffer;
use samr_box::IVec;
use samr_shape::Shape;
use std::alloc::{AllocError as NoMemory, Global};

/// Appends words.
fn put(out: &mut Vec<u8>, text: &str) -> Result<(), NoMemory>
    ensures { OnOk result (out.new.items ≡ out.old.items ++ text.now) }
{
    out.extend_from_slice(text.as_bytes())?;
    Ok(())
}

/// Appends a line of words.
fn put_words(out: &mut Vec<u8>, text: &str) -> Result<(), NoMemory>
    ensures { OnOk result (out.new.items ≡ out.old.items ++ words text.now) }
{
    put(out, text)?;
    out.push(b'\n')?;
    Ok(())
}

/// Appends a number.
fn put_number(out: &mut Vec<u8>, number: i64) -> Result<(), NoMemory>
    ensures { OnOk result (out.new.items ≡ out.old.items ++ signed_decimal number) }
{
    let mut buffer = Buffer::new();
    put(out, buffer.format(number))?;
    Ok(())
}

/// Appends a key with a number.
#[tactic(auto, unfolding(crate::specs::Text::number_line))]
fn put_number_line(out: &mut Vec<u8>, key: &str, number: i64) -> Result<(), NoMemory>
    ensures { OnOk result (out.new.items ≡ out.old.items ++ number_line key.now number) }
{
    put(out, key)?;
    put(out, " = ")?;
    put_number(out, number)?;
    out.push(b'\n')?;
    Ok(())
}

/// Appends a key with a list of two numbers.
#[tactic(auto, using(crate::proofs::Pieces::six_pieces), unfolding(crate::specs::Text::pair_line))]
fn put_pair_line(out: &mut Vec<u8>, key: &str, i: i64, j: i64) -> Result<(), NoMemory>
    ensures { OnOk result (out.new.items ≡ out.old.items ++ pair_line key.now i j) }
{
    put(out, key)?;
    put(out, " = [")?;
    put_number(out, i)?;
    put(out, ", ")?;
    put_number(out, j)?;
    put_words(out, "]")?;
    Ok(())
}

/// Appends lines of words.
fn put_lines(out: &mut Vec<u8>, lines: &[&str]) -> Result<(), NoMemory>
    ensures { OnOk result (out.new.items ≡ out.old.items ++ flat_map (λ line. words line.now) lines.now) }
{
    for line in lines {
        put_words(out, line)?;
    }
    Ok(())
}

/// Appends a key with the numbers of a place of the plane.
fn put_plane_line(out: &mut Vec<u8>, key: &str, at: IVec) -> Result<(), NoMemory>
    ensures { OnOk result (out.new.items ≡ out.old.items ++ pair_line key.now at.i at.j) }
{
    put_pair_line(out, key, at.i, at.j)?;
    Ok(())
}

/// Appends the table of a ball.
fn put_ball(out: &mut Vec<u8>, at: IVec, radius: i64, velocity: IVec) -> Result<(), NoMemory>
    ensures { OnOk result (out.new.items ≡ out.old.items ++ ball_table at radius velocity) }
{
    put_words(out, "")?;
    put_words(out, "[[ball]]")?;
    put_plane_line(out, "at", at)?;
    put_number_line(out, "radius", radius)?;
    put_plane_line(out, "velocity", velocity)?;
    Ok(())
}

/// Appends the table of a shape, where it is a ball.
fn put_shape(out: &mut Vec<u8>, shape: Shape) -> Result<(), NoMemory>
    ensures { OnOk result (out.new.items ≡ out.old.items ++ shape_table shape) }
{
    match shape {
        Shape::Ball {
            at,
            radius,
            velocity,
        } => put_ball(out, at, radius, velocity),
        Shape::Slab { .. } => Ok(()),
    }
}

/// Appends the tables of some shapes.
fn put_shapes(out: &mut Vec<u8>, shapes: &[Shape]) -> Result<(), NoMemory>
    ensures { OnOk result (out.new.items ≡ out.old.items ++ flat_map shape_table shapes.now) }
{
    for shape in shapes {
        put_shape(out, *shape)?;
    }
    Ok(())
}

/// The lines before that of the domain.
const FIRST_LINES: [&str; 2] = ["format = 1", "dim = 2"];

/// The lines behind that of the domain.
const KEY_LINES: [&str; 14] = [
    "periodic = [true, true]",
    "block = [8, 8]",
    "ghost = [1, 1]",
    "levels = 3",
    "nest = [1, 1]",
    "tag_buffer = [1, 1]",
    "efficiency = 70",
    "smallest = 2",
    "largest = 32",
    "regrid = 2",
    "steps = 8",
    "modulus = 1000000",
    "init = [0, 1, 3]",
    "update = [1, 1]",
];

/// Appends the lines that are the same for each seed and size, but for that of the domain.
fn put_first_lines(out: &mut Vec<u8>) -> Result<(), NoMemory>
    ensures { OnOk result (out.new.items ≡ out.old.items ++ flat_map words first_lines) }
{
    put_lines(out, &FIRST_LINES)?;
    Ok(())
}

fn put_key_lines(out: &mut Vec<u8>) -> Result<(), NoMemory>
    ensures { OnOk result (out.new.items ≡ out.old.items ++ flat_map words key_lines) }
{
    put_lines(out, &KEY_LINES)?;
    Ok(())
}

/// The text of the problem that [`make_problem`] makes of this seed and size: it reads back as that problem.
///
/// # Errors
///
/// Want of memory.
#[tactic(auto, using(crate::proofs::Pieces::four_pieces), unfolding(crate::specs::Text::made_text))]
pub fn make_text(alloc: Global, seed: u32, size: u32) -> Result<Vec<u8>, NoMemory>
    requires some { 1 ≤ size }
    requires few { size ≤ 64 }
    ensures { IfOk result (λ text. text.items ≡ made_text seed size) }
{
    let balls = balls(alloc, seed, size)?;
    let side = i64::from(8 * size);
    let mut out = Vec::new(alloc);
    put_first_lines(&mut out)?;
    put_pair_line(&mut out, "domain", side, side)?;
    put_key_lines(&mut out)?;
    put_shapes(&mut out, balls.as_slice())?;
    Ok(out)
}
