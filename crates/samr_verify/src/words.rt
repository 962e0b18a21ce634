//! Words of a line: a word that is known, and the number behind a blank.

ghost use Rattle.std.specs.Prelude.{◌≡◌, ◌≤◌, ℕ, ℤ, ◌∷◌, ◌++◌, List, Some, IfSome, option_map, length};
ghost use Rattle.std.specs.Fmt.{signed_decimal};
ghost use Rattle.samr_verify.specs.Words.{Reads, word_len};
ghost use Rattle.samr_verify.specs.Reading.{bare, number};

use crate::number::number_in;

/// The least number of a line: its size is below 2^63.
const LEAST: i64 = -9_223_372_036_854_775_807;

/// How many bytes stand before the first blank or line feed.
fn word_len(text: &[u8]) -> usize
    ensures value { result ≡ word_len text.now }
    ensures within { result ≤ length text.now }
{
    for (i, byte) in text.iter().enumerate() {
        if *byte <= 32 {
            return i;
        }
    }
    text.len()
}

/// The text behind a word, if it begins with the word.
pub(crate) fn behind<'a>(text: &'a [u8], word: &[u8]) -> Option<&'a [u8]>
    ensures some { IfSome result (λ r. word.now ++ r.now ≡ text.now) }
    ensures each { (rest : List ℕ) → word.now ++ rest ≡ text.now → option_map {U = List ℕ} (λ r. r.now) result ≡ Some rest }
{
    if text.len() < word.len() {
        return None;
    }
    let (front, rest) = text.split_at(word.len());
    if front == word { Some(rest) } else { None }
}

/// The number at the front of a text, if a blank or a line feed stands behind it, and the text behind it.
fn bare_first(text: &[u8]) -> Option<(i64, &[u8])>
    ensures { Reads bare text.now (option_map {U = ℤ × List ℕ} (λ r. (r.0, r.1.now)) result) }
{
    let (word, rest) = text.split_at(word_len(text));
    let number = number_in(word)?;
    if number < LEAST {
        return None;
    }
    Some((number, rest))
}

/// The number behind a blank at the front of a text, and the text behind the number, if one stands there and a blank
/// or a line feed behind it.
pub(crate) fn number_first(text: &[u8]) -> Option<(i64, &[u8])>
    ensures { Reads number text.now (option_map {U = ℤ × List ℕ} (λ r. (r.0, r.1.now)) result) }
{
    let others = behind(text, b" ")?;
    bare_first(others)
}
