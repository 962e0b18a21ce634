//! What one rank has between two labels of a run.

ghost use Rattle.std.specs.Prelude.{ℕ};

/// What one rank has between two labels: its part of a whole that no rank has.
///
/// Its writer says of which whole it is a part, how many ranks have a part of it, and when a value
/// holds the part of a rank. Phases take a part of one type to a part of another.
pub trait Part: Drop {
    /// Stands for the whole in proofs. No value of it is ever made.
    type Whole;

    /// How many ranks have a part of the whole.
    ghost ranks: { Self.Whole → ℕ };

    /// That a value holds the part that a rank has of a whole.
    ghost holds: { Self → Self.Whole → ℕ → Type 0 };
}
