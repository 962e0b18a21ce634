//! Lines of words and numbers.

ghost use Rattle.std.specs.Prelude.{◌≡◌, ◌∷◌, [], ◌++◌, pos, OnOk};
ghost use Rattle.std.specs.Fmt.{signed_decimal};
ghost use Rattle.samr_box.specs.declared.vector.IVec.{IVec};
ghost use Rattle.samr_report.specs.Lines.{blank_numbers, part, line};

use itoa::Buffer;
use samr_box::IVec;
use std::alloc::AllocError as NoMemory;

/// Appends a blank and a number.
fn put_number(out: &mut Vec<u8>, number: i64) -> Result<(), NoMemory>
    ensures { OnOk result (out.new.items ≡ out.old.items ++ 32 ∷ signed_decimal number) }
{
    out.push(b' ')?;
    let mut buffer = Buffer::new();
    out.extend_from_slice(buffer.format(number).as_bytes())
}

#[tactic(auto, unfolding(crate::specs::Lines::blank_numbers))]
fn put_numbers(out: &mut Vec<u8>, numbers: &[i64]) -> Result<(), NoMemory>
    ensures { OnOk result (out.new.items ≡ out.old.items ++ blank_numbers numbers.now) }
{
    for number in numbers {
        put_number(out, *number)?;
    }
    Ok(())
}

/// Appends words, and numbers behind them.
#[tactic(auto, unfolding(crate::specs::Lines::part))]
pub fn put_part(out: &mut Vec<u8>, words: &str, numbers: &[i64]) -> Result<(), NoMemory>
    ensures { OnOk result (out.new.items ≡ out.old.items ++ part words.now numbers.now) }
{
    out.extend_from_slice(words.as_bytes())?;
    put_numbers(out, numbers)?;
    Ok(())
}

/// Appends a line of words, and numbers behind them.
#[tactic(auto, unfolding(crate::specs::Lines::line))]
pub fn put_line(out: &mut Vec<u8>, words: &str, numbers: &[i64]) -> Result<(), NoMemory>
    ensures { OnOk result (out.new.items ≡ out.old.items ++ line words.now numbers.now) }
{
    put_part(out, words, numbers)?;
    out.push(b'\n')?;
    Ok(())
}

/// Appends a blank and a count.
fn put_blank_count(out: &mut Vec<u8>, count: u64) -> Result<(), NoMemory>
    ensures { OnOk result (out.new.items ≡ out.old.items ++ 32 ∷ signed_decimal (pos count)) }
{
    out.push(b' ')?;
    let mut buffer = Buffer::new();
    out.extend_from_slice(buffer.format(count).as_bytes())
}

/// Appends words and a count behind them.
#[tactic(auto, using(crate::proofs::Pieces::one_number))]
pub fn put_count(out: &mut Vec<u8>, words: &str, count: u64) -> Result<(), NoMemory>
    ensures { OnOk result (out.new.items ≡ out.old.items ++ part words.now (pos count ∷ [])) }
{
    out.extend_from_slice(words.as_bytes())?;
    put_blank_count(out, count)?;
    Ok(())
}

/// Appends a line of words and a count behind them.
#[tactic(auto, unfolding(crate::specs::Lines::line))]
pub fn put_count_line(out: &mut Vec<u8>, words: &str, count: u64) -> Result<(), NoMemory>
    ensures { OnOk result (out.new.items ≡ out.old.items ++ line words.now (pos count ∷ [])) }
{
    put_count(out, words, count)?;
    out.push(b'\n')?;
    Ok(())
}

/// Appends a line of words and the three numbers behind them, `i` first.
pub fn put_vector_line(out: &mut Vec<u8>, words: &str, v: IVec) -> Result<(), NoMemory>
    ensures { OnOk result (out.new.items ≡ out.old.items ++ line words.now (v.i ∷ v.j ∷ v.k ∷ [])) }
{
    put_line(out, words, &[v.i, v.j, v.k])?;
    Ok(())
}
