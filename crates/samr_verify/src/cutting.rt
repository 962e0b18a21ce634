//! The cut of a text in lines.

ghost use Rattle.std.specs.Prelude.{◌≡◌, ◌<◌, ◌≤◌, ◌∷◌, [], IfSome, IsSome, length, take, drop};
ghost use Rattle.samr_verify.specs.Cutting.{lines_of};

/// How many bytes the first line of a text has, its line feed with them.
fn line_len(text: &[u8]) -> usize
    ensures line { 0 < length text.now → lines_of text.now ≡ take result text.now ∷ lines_of (drop result text.now) }
    ensures some { 0 < length text.now → 0 < result }
    ensures within { result ≤ length text.now }
{
    for (i, byte) in text.iter().enumerate() {
        if *byte == b'\n' {
            return i + 1;
        }
    }
    text.len()
}

/// The first line of a text, and the text behind it: none exactly of the empty text.
pub(crate) fn line_first(text: &[u8]) -> Option<(&[u8], &[u8])>
    ensures some { IfSome result (λ r. (lines_of text.now ≡ r.0.now ∷ lines_of r.1.now) × (length r.1.now < length text.now)) }
    ensures none { ¬ (IsSome result) → text.now ≡ [] }
{
    if text.is_empty() {
        return None;
    }
    Some(text.split_at(line_len(text)))
}
