//! Bits that are read and set, one at a time or as a run.

ghost use Rattle.std.specs.Prelude.{◌≡◌, ℕ, ◌+◌, ◌*◌, ◌^◌, ◌<◌, ◌≤◌, ◌||◌, ◌&&◌, nat_eq, nat_le, nat_lt, length};
ghost use Rattle.samr_bits.specs.Bits.{is_set};

/// Whether a bit is set.
pub fn get_bit(words: &[u64], p: usize) -> bool
    requires { p < 64 * length words.now }
    ensures { result ≡ is_set words.now p }
{
    words[p / 64] >> (p % 64) & 1 == 1
}

/// Sets a bit, and leaves all others.
pub fn set_bit(words: &mut [u64], p: usize)
    requires { p < 64 * length words.old }
    ensures { (q : ℕ) → is_set words.new q ≡ (nat_eq q p || is_set words.old q) }
{
    words[p / 64] |= 1 << (p % 64);
}

/// Sets the bits of a run, `n` bits from bit `from` on, and leaves all others.
pub fn set_run(words: &mut [u64], from: usize, n: usize)
    requires inside { from + n ≤ 64 * length words.old }
    requires few { length words.old < 2 ^ 57 }
    ensures { (q : ℕ) → is_set words.new q ≡ ((nat_le from q && nat_lt q (from + n)) || is_set words.old q) }
{
    for p in from..from + n {
        set_bit(words, p);
    }
}
