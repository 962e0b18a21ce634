//! Why a text was not read: its first fault, or want of memory.

ghost use Rattle.std.specs.Prelude.{◌≡◌};
ghost use Rattle.samr_problem.specs.Refusals.{refusal_at, IsRefusal};

use crate::Text;
use std::alloc::{AllocError as NoMemory, Global};

/// Why a text is not a problem: the number of the cause, and the key at which it holds (empty where
/// the cause shows none).
#[derive(Debug, Drop)]
pub struct Refusal {
    pub cause: u8,
    pub key: Text,
}

/// Why a text was not read.
#[derive(Debug, Drop)]
pub enum Unread {
    /// The text is not a problem, and this is its first fault.
    Refused(Refusal),
    /// There was not enough memory.
    NoMemory,
}

impl From<NoMemory> for Unread {
    ghost use Rattle.std.specs.Prelude.{◌≡◌};
    ghost use Rattle.samr_problem.specs.declared.refusal.Unread.TheVariants.{NoMemory};

    ghost from_gives = { λ _ unread. unread ≡ NoMemory };

    fn from(_error: NoMemory) -> Unread {
        Unread::NoMemory
    }
}

/// The refusal by a cause at a key.
pub fn refuse(alloc: Global, cause: u8, key: &str) -> Unread
    ensures { IsRefusal result (refusal_at cause key.now) }
{
    match String::from_str(alloc, key) {
        Ok(key) => Unread::Refused(Refusal {
            cause,
            key: Text::from_string(key),
        }),
        Err(_) => Unread::NoMemory,
    }
}
