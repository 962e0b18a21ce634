//! Why a reader has no value to give.

ghost use Rattle.std.specs.Prelude.{◌≡◌};
ghost use Rattle.samr_formats.specs.declared.unread.Unread.TheVariants.{Memory};

use std::alloc::{AllocError, AllocFailed};

/// Why a reader gives no value.
#[derive(Debug, Drop)]
pub enum Unread {
    /// Memory is short, so nothing is said of the bytes.
    Memory,
    /// The bytes do not begin with the spelling of a value.
    Malformed,
}

impl From<AllocError> for Unread {
    ghost from_gives = { λ _ e. e ≡ Memory };

    fn from(_e: AllocError) -> Unread {
        Unread::Memory
    }
}

impl<T: Drop> From<AllocFailed<T>> for Unread {
    ghost from_gives = { λ _ e. e ≡ Memory };

    fn from(_e: AllocFailed<T>) -> Unread {
        Unread::Memory
    }
}
