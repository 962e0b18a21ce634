//! The value of a coarse cell from the values of its fine cells.

ghost use Rattle.std.specs.Prelude.{◌≡◌, ◌<◌, ◌^◌, length, max, fold, sum, slice_index};
ghost use Rattle.samr_ops.specs.Rules.{coarsened_value};

use crate::CoarsenRule;

/// The first value; 0 where there is none.
fn first(values: &[u32]) -> u32
    ensures { result ≡ slice_index values.now 0 }
{
    match values.first() {
        Some(value) => *value,
        None => 0,
    }
}

/// The greatest value; 0 where there is none.
fn greatest(values: &[u32]) -> u32
    ensures { result ≡ fold max 0 values.now }
{
    let mut most = 0;
    for value in values {
        most = most.max(*value);
    }
    most
}

/// The sum of the values.
fn total(values: &[u32]) -> u64
    requires { length values.now < 2 ^ 32 }
    ensures { result ≡ sum values.now }
{
    values.iter().map(|value| u64::from(*value)).sum()
}

/// The value of a coarse cell, from those of the fine cells in it, the one with the lowest corner
/// first.
pub fn coarsen_values(rule: CoarsenRule, modulus: u32, values: &[u32]) -> u32
    requires some { 0 < modulus }
    requires few { length values.now < 2 ^ 32 }
    ensures { result ≡ coarsened_value rule modulus values.now }
{
    match rule {
        CoarsenRule::First => first(values),
        CoarsenRule::Max => greatest(values),
        CoarsenRule::Sum => (total(values) % u64::from(modulus)) as u32,
    }
}
