//! How many bits of a row or of a run are set.

ghost use Rattle.std.specs.Prelude.{◌≡◌, ◌+◌, ◌*◌, ◌%◌, ◌/◌, ◌<◌, ◌≤◌, ◌^◌, length, slice_index};
ghost use Rattle.samr_bits.specs.Bits.{ones_of, bits_of, set_among};

use std::simd::prelude::*;

/// How many bits are set in four words.
fn count_four(words: &[u64]) -> u64
    requires { length words.now ≡ 4 }
    ensures value { result ≡ ones_of words.now }
    ensures small { result ≤ 64 * 4 }
{
    u64x4::from_slice(words).count_ones().strict_reduce_sum()
}

/// How many bits are set in all words.
pub fn count_bits(words: &[u64]) -> u64
    requires { length words.now < 2 ^ 57 }
    ensures value { result ≡ ones_of words.now }
    ensures bits { result ≡ set_among words.now 0 (64 * length words.now) }
{
    let mut count = 0;
    for i in 0..words.len() / 4 {
        count += count_four(&words[4 * i..4 * i + 4]);
    }
    for i in words.len() / 4 * 4..words.len() {
        count += u64::from(words[i].count_ones());
    }
    count
}

/// How many of so many bits of a word are set, from one of them on.
fn count_part(word: u64, from: usize, n: usize) -> u64
    requires within { from + n ≤ 64 }
    requires short { n < 64 }
    requires some { 0 < n }
    ensures value { result ≡ bits_of word from n }
    ensures small { result ≤ 64 }
{
    u64::from((word >> from & ((1 << n) - 1)).count_ones())
}

/// How many bits of a run are set that lies in one word and is shorter.
fn count_inside(words: &[u64], from: usize, n: usize) -> u64
    requires within { from % 64 + n ≤ 64 }
    requires short { n < 64 }
    requires inside { from + n ≤ 64 * length words.now }
    ensures value { result ≡ set_among words.now from n }
    ensures small { result ≤ 64 }
{
    if n == 0 {
        return 0;
    }
    count_part(words[from / 64], from % 64, n)
}

/// How many bits of a run are set: `n` bits from bit `from` on.
pub fn count_run(words: &[u64], from: usize, n: usize) -> u64
    requires inside { from + n ≤ 64 * length words.now }
    requires few { length words.now < 2 ^ 57 }
    ensures { result ≡ set_among words.now from n }
{
    let first = from.div_ceil(64);
    let last = (from + n) / 64;
    if last < first {
        return count_inside(words, from, n);
    }
    let before = count_inside(words, from, 64 * first - from);
    let after = count_inside(words, 64 * last, from + n - 64 * last);
    before + count_bits(&words[first..last]) + after
}
