//! What a rank is told of its problem: tags and first values of its own cells.

ghost use Rattle.std.specs.Prelude.{◌≡◌, ℕ, Bool};
ghost use Rattle.samr_box.specs.declared.vector.IVec.{IVec as Cell};

use samr_box::IVec;

/// What a rank is told of its problem: tags and first values, of its own cells alone.
///
/// Whoever writes a `Given` says of which cells it may be asked (`may_tell`, `may_tell_first`) and what
/// its answers are (`is_tagged`, `first_value`).
pub trait Given {
    ghost may_tell: { Self → ℕ → ℕ → Cell → Type 0 };

    ghost is_tagged: { Self → ℕ → ℕ → Cell → Bool };

    ghost may_tell_first: { Self → ℕ → Cell → Type 0 };

    ghost first_value: { Self → ℕ → Cell → ℕ };

    /// Whether a shape tags a cell of a level at a step.
    fn tagged(&self, level: u8, step: u32, cell: IVec) -> bool
        requires { may_tell self.now level step cell }
        ensures { result ≡ is_tagged self.now level step cell };

    /// The first value of a cell of level 0, of a field.
    fn first(&self, field: u8, cell: IVec) -> u32
        requires { may_tell_first self.now field cell }
        ensures { result ≡ first_value self.now field cell };
}
