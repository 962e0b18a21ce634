//! What the numbers of a line tell: counts, boxes, shifts and edges.

ghost use Rattle.std.specs.Prelude.{◌≡◌, ◌≤ℤ◌, ℕ, ℤ, pos, negsuc, List, Some, IfSome, option_map, get_or};
ghost use Rattle.samr_box.specs.declared.vector.IVec.{IVec};
ghost use Rattle.samr_box.specs.Vector.{IsShift};
ghost use Rattle.samr_level.specs.Refs.{Owned};
ghost use Rattle.samr_verify.specs.ReportLines.{IsPrinted};
ghost use Rattle.samr_verify.specs.Words.{Reads};
ghost use Rattle.samr_verify.specs.Reading.{behind_word, count, level, triple, wide, boxed, shift, joined, heading};

use crate::words::{behind, number_first};
use samr_box::{IBox, IVec, Shift};
use samr_level::BoxRef;

/// The least and the greatest coordinate of a printed box, on each axis.
const LEAST: IVec = IVec {
    k: -1_073_741_823,
    j: -1_073_741_823,
    i: -1_073_741_823,
};

const GREATEST: IVec = IVec {
    k: 1_073_741_823,
    j: 1_073_741_823,
    i: 1_073_741_823,
};

/// A width of 0 on each axis.
const NO_WIDTH: IVec = IVec { k: 0, j: 0, i: 0 };

/// A number that is not below 0, and the text behind it.
pub(crate) fn count_first(text: &[u8]) -> Option<(u64, &[u8])>
    ensures { Reads count text.now (option_map {U = ℕ × List ℕ} (λ r. (r.0, r.1.now)) result) }
{
    let (number, rest) = number_first(text)?;
    if number < 0 {
        return None;
    }
    Some((number as u64, rest))
}

/// A count behind a word, and the text behind it.
pub(crate) fn count_behind<'a>(text: &'a [u8], word: &[u8]) -> Option<(u64, &'a [u8])>
    ensures { Reads (behind_word word.now count) text.now (option_map {U = ℕ × List ℕ} (λ r. (r.0, r.1.now)) result) }
{
    let others = behind(text, word)?;
    let (count, rest) = count_first(others)?;
    Some((count, rest))
}

/// Three numbers, and the text behind them.
pub(crate) fn triple_first(text: &[u8]) -> Option<(IVec, &[u8])>
    ensures { Reads triple text.now (option_map {U = IVec × List ℕ} (λ r. (r.0, r.1.now)) result) }
{
    let (i, behind_i) = number_first(text)?;
    let (j, behind_j) = number_first(behind_i)?;
    let (k, rest) = number_first(behind_j)?;
    Some((IVec { k, j, i }, rest))
}

/// A width behind a word, and the text behind it.
pub(crate) fn width_behind<'a>(text: &'a [u8], word: &[u8]) -> Option<(IVec, &'a [u8])>
    ensures { Reads (behind_word word.now wide) text.now (option_map {U = IVec × List ℕ} (λ r. (r.0, r.1.now)) result) }
{
    let others = behind(text, word)?;
    width_first(others)
}

/// A width, and the text behind it.
fn width_first(text: &[u8]) -> Option<(IVec, &[u8])>
    ensures { Reads wide text.now (option_map {U = IVec × List ℕ} (λ r. (r.0, r.1.now)) result) }
{
    let width = triple_first(text)?;
    if NO_WIDTH.at_most(width.0) {
        return Some(width);
    }
    None
}

/// The box of a rank with these corners, if it is a printed box.
fn box_at(owner: u64, lo: IVec, hi: IVec) -> Option<BoxRef>
    ensures some { IfSome result (λ b. IsPrinted b × (b.owner ≡ owner) × (b.bx.lo ≡ lo) × (b.bx.hi ≡ hi)) }
    ensures each { (b : Owned) → IsPrinted b → b.owner ≡ owner → b.bx.lo ≡ lo → b.bx.hi ≡ hi → result ≡ Some b }
{
    if owner > 65_535 {
        return None;
    }
    if !LEAST.at_most(lo) {
        return None;
    }
    if !lo.at_most(hi) {
        return None;
    }
    if !hi.at_most(GREATEST) {
        return None;
    }
    let bx = IBox::new(lo, hi)?;
    Some(BoxRef {
        owner: owner as u16,
        bx,
    })
}

/// A box of a rank, and the text behind it.
pub(crate) fn box_first(text: &[u8]) -> Option<(BoxRef, &[u8])>
    ensures { Reads boxed text.now (option_map {U = Owned × List ℕ} (λ r. (r.0, r.1.now)) result) }
{
    let (owner, behind_owner) = count_first(text)?;
    let (lo, behind_lo) = triple_first(behind_owner)?;
    let (hi, rest) = triple_first(behind_lo)?;
    let at = box_at(owner, lo, hi)?;
    Some((at, rest))
}

/// A number of lengths of the domain on an axis, as a shift has it.
fn turn_at(number: i64) -> Option<i8>
    ensures some { IfSome result (λ n. (n ≡ number) × (negsuc 0 ≤ℤ n) × (n ≤ℤ pos 1)) }
    ensures each { negsuc 0 ≤ℤ number → number ≤ℤ pos 1 → result ≡ Some number }
{
    if number < -1 {
        return None;
    }
    if number > 1 {
        return None;
    }
    Some(number as i8)
}

/// The shift by these numbers of lengths, if it is one.
fn shift_at(numbers: IVec) -> Option<Shift>
    ensures some { IfSome result (λ s. IsShift s × (s ≡ numbers)) }
    ensures each { IsShift numbers → result ≡ Some numbers }
{
    let i = turn_at(numbers.i)?;
    let j = turn_at(numbers.j)?;
    let k = turn_at(numbers.k)?;
    Shift::new(i, j, k)
}

/// A shift, and the text behind it.
pub(crate) fn shift_first(text: &[u8]) -> Option<(Shift, &[u8])>
    ensures { Reads shift text.now (option_map {U = IVec × List ℕ} (λ r. (r.0, r.1.now)) result) }
{
    let (numbers, rest) = triple_first(text)?;
    let shift = shift_at(numbers)?;
    Some((shift, rest))
}

/// Two boxes and a shift, and the text behind them.
pub(crate) fn joined_first(text: &[u8]) -> Option<(BoxRef, BoxRef, Shift, &[u8])>
    ensures { Reads joined text.now (option_map {U = (Owned × (Owned × IVec)) × List ℕ} (λ r. ((r.0, (r.1, r.2)), r.3.now)) result) }
{
    let Some(base) = box_first(text) else {
        return None;
    };
    let Some(head) = box_first(base.1) else {
        return None;
    };
    let Some(shift) = shift_first(head.1) else {
        return None;
    };
    Some((base.0, head.0, shift.0, shift.1))
}

/// A number of a level below so many, and the text behind it.
pub(crate) fn level_first(text: &[u8], most: u8) -> Option<(u8, &[u8])>
    ensures { Reads (level most) text.now (option_map {U = ℕ × List ℕ} (λ r. (r.0, r.1.now)) result) }
{
    let (level, rest) = count_first(text)?;
    if level >= u64::from(most) {
        return None;
    }
    Some((level as u8, rest))
}

/// A number of a level behind a word, and the text behind it.
pub(crate) fn level_behind<'a>(text: &'a [u8], word: &[u8], most: u8) -> Option<(u8, &'a [u8])>
    ensures { Reads (behind_word word.now (level most)) text.now (option_map {U = ℕ × List ℕ} (λ r. (r.0, r.1.now)) result) }
{
    let others = behind(text, word)?;
    level_first(others, most)
}

/// A field and a number behind a word, and the text behind them: that of field 0 is not told, and that of a further
/// field stands behind the word, which then begins with an `f`.
pub(crate) fn headed_first<'a>(text: &'a [u8], word: &[u8]) -> Option<((u64, u64), &'a [u8])>
    requires { get_or word.now 0 102 ≡ 102 → ⊥ }
    ensures { Reads (heading word.now) text.now (option_map {U = (ℕ × ℕ) × List ℕ} (λ r. (r.0, r.1.now)) result) }
{
    let Some(others) = behind(text, b"f") else {
        let (number, rest) = count_behind(text, word)?;
        return Some(((0, number), rest));
    };
    let (field, behind_field) = count_behind(others, word)?;
    if field == 0 {
        return None;
    }
    let (number, rest) = count_first(behind_field)?;
    Some(((field, number), rest))
}
