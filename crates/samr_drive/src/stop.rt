//! Why a driver ended early.

use thiserror::Error;

/// Why a driver ended before its rank had finished.
#[derive(Clone, Copy, Debug, PartialEq, Eq, Error)]
pub enum Stop {
    /// Its machine found no memory.
    #[error("out of memory")]
    NoMemory,
    /// Another driver raised the alarm.
    #[error("halted")]
    Halted,
}
