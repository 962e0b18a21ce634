//! Worked rows of bits: counted, and set one at a time and as runs.

use samr_bits::{count_bits, count_run, get_bit, set_bit, set_run};
use std::process::Abort;
use std::test::Fail;

/// Words and how many of their bits are set.
fn counts(rt: &impl Abort) {
    let none: [u64; 0] = [];
    let rows: [(&[u64], u64); 4] = [
        (&none, 0),
        (&[1, 3, u64::MAX], 67),
        (&[u64::MAX; 4], 256),
        (&[1, 2, 4, 8, 16, 32, 64, 128, 129], 10),
    ];
    for (words, count) in rows {
        if words.len() < 100 {
            assert_eq!(rt; count_bits(words), count);
        }
    }
}

/// Runs of the bits 60 to 199 and how many bits of each are set.
fn runs(rt: &impl Abort) {
    let mut words = [0u64; 4];
    set_run(&mut words, 60, 140);
    assert_eq!(rt; words, [15 << 60, u64::MAX, u64::MAX, 255]);
    let rows = [
        (0, 60, 0),
        (0, 61, 1),
        (61, 2, 2),
        (60, 140, 140),
        (0, 256, 140),
        (64, 128, 128),
        (199, 57, 1),
        (256, 0, 0),
    ];
    for (from, n, count) in rows {
        if from <= 256 && n <= 256 - from {
            assert_eq!(rt;
                count_run(&words, from, n),
                count,
                "{n} bits from {from} on"
            );
        }
    }
}

#[test]
fn words_of_bits(rt: HostRuntime) -> Result<(), Fail> {
    counts(&rt);
    runs(&rt);
    let mut words = [0u64; 2];
    set_bit(&mut words, 65);
    assert_eq!(rt; words, [0, 2]);
    assert!(rt; get_bit(&words, 65));
    assert!(rt; !get_bit(&words, 1));
    Ok(())
}
