//! What a type with a format has: a spelling of its values, and a reader of what was spelled.

ghost use Rattle.std.specs.Prelude.{◌≡◌, ◌++◌, ℕ, List, Option, OnOk};
ghost use Rattle.samr_formats.specs.Formats.{IsFormat, Gives};

use crate::unread::Unread;
use std::alloc::{AllocError as NoMemory, Global};

/// A type whose values are spelled as bytes, each in one way, so that no spelling begins another one.
///
/// The writer of an implementation says how a value is spelled and how one is read, in contracts
/// (`spelling`, `reading`) and in code (`spell`, `read`), and owes `law`, which `specs/Laws.antt` puts
/// together from the laws of the parts. A user needs no law of a type: what `spell` wrote reads back,
/// and what `read` accepts was spelled so.
pub trait Format: Drop {
    /// The bytes of a value.
    ghost spelling: { Self → List ℕ };

    /// The values that read back.
    ghost fits: { Self → Type 0 };

    /// What a caller of `spell` owes: of `fits`, what the type alone does not give.
    ghost writable: { Self → Type 0 };

    /// The value at the front of bytes and the bytes behind it, or none.
    ghost reading: { List ℕ → Option (Self × List ℕ) };

    /// What is read was spelled so and fits, and what fits is read back, whatever follows it.
    ghost law: { IsFormat spelling fits reading };

    /// Adds the value's bytes to `out`. Where memory is short, `out` may end with some of them.
    fn spell(&self, out: &mut Vec<u8>) -> Result<(), NoMemory>
        requires { writable self.now }
        ensures spelled { OnOk result (out.new.items ≡ out.old.items ++ spelling self.now) }
        ensures fits { OnOk result (fits self.now) };

    /// The value at the front of `bytes`, and the bytes behind it.
    fn read(alloc: Global, bytes: &[u8]) -> Result<(Self, &[u8]), Unread>
        ensures { Gives (λ x. (x.0, x.1.now)) result (reading bytes.now) };
}
