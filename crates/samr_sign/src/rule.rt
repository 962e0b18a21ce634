//! When a box is accepted, and how small its parts may be.

ghost use Rattle.std.specs.Prelude.{pos, ◌≤ℤ◌};

/// When a box is worth its cells, and how small a part may be.
#[derive(Clone, Copy, Debug, PartialEq, Eq)]
pub struct CutRule {
    /// A box is accepted where at least so many of a hundred of its cells are tagged.
    pub efficiency: u32,
    /// The least number of planes that a cut may leave on either side.
    pub smallest: i64,
    pub ghost positive: { pos 1 ≤ℤ smallest },
}
