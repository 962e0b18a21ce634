//! What a read or a write that failed answers, and why a transfer gave no bytes.

ghost use Rattle.std.specs.Prelude.{◌≡◌};

use std::alloc::AllocError as NoMemory;
use thiserror::Error;

/// A read or a write failed. The source or the sink has counted it.
#[derive(Clone, Copy, Debug, PartialEq, Eq, Error)]
#[error("a read or a write failed")]
pub struct Failed;

/// Why a transfer gave no bytes.
#[derive(Clone, Copy, Debug, PartialEq, Eq, Error)]
pub enum ReadError {
    /// There was no memory for the bytes.
    #[error("out of memory")]
    NoMemory,
    /// A read failed.
    #[error("a read failed")]
    Failed,
}

impl From<Failed> for ReadError {
    ghost use Rattle.samr_io.specs.declared.failed.ReadError.TheVariants.{Failed};

    ghost from_gives = { λ _ error. error ≡ Failed };

    fn from(_failed: Failed) -> ReadError {
        ReadError::Failed
    }
}

impl From<NoMemory> for ReadError {
    ghost use Rattle.samr_io.specs.declared.failed.ReadError.TheVariants.{NoMemory};

    ghost from_gives = { λ _ error. error ≡ NoMemory };

    fn from(_no_memory: NoMemory) -> ReadError {
        ReadError::NoMemory
    }
}
