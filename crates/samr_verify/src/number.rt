//! Numbers as a report prints them.

ghost use Rattle.std.specs.Prelude.{◌≡◌, ℤ, ◌<◌, ◌^◌, Some, IfSome, FitsSigned};
ghost use Rattle.std.specs.Int.{w64};
ghost use Rattle.std.specs.Fmt.{signed_decimal};
ghost use Rattle.samr_verify.specs.Words.{IsNumber};

use itoa::Buffer;

/// The number that a word prints: digits without needless zeros, with a minus before a number below 0. A word
/// that prints none of 64 bits with a sign has none.
pub(crate) fn number_in(word: &[u8]) -> Option<i64>
    ensures some { IfSome result (λ n. signed_decimal n ≡ word.now) }
    ensures fits { IfSome result (λ n. FitsSigned w64 n) }
    ensures each { (n : ℤ) → IsNumber n → signed_decimal n ≡ word.now → result ≡ Some n }
{
    let Ok(text) = std::str::from_utf8(word) else {
        return None;
    };
    let Ok(number) = text.parse::<i64>() else {
        return None;
    };
    let mut buffer = Buffer::new();
    if buffer.format(number) == text {
        return Some(number);
    }
    None
}
