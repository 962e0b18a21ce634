//! Values that are all of some bytes.

ghost use Rattle.std.specs.Prelude.{◌≡◌, IfOk, Some};
ghost use Rattle.samr_formats.specs.Formats.{Gives};
ghost use Rattle.samr_formats.specs.Wholes.{read_whole};

use crate::format::Format;
use crate::unread::Unread;
use std::alloc::{AllocError as NoMemory, Global};

/// The bytes of a value.
///
/// # Errors
///
/// Where memory is short.
pub fn to_bytes<T: Format>(alloc: Global, value: &T) -> Result<Vec<u8>, NoMemory>
    requires { T.writable value.now }
    ensures { IfOk result (λ v. (v.items ≡ T.spelling value.now) × T.fits value.now) }
{
    let mut out = Vec::new(alloc);
    value.spell(&mut out)?;
    Ok(out)
}

/// The value at the front of `bytes`, where nothing is behind it.
fn whole<T: Format>(alloc: Global, bytes: &[u8]) -> Result<T, Unread>
    ensures { Gives (λ x. x) result (read_whole T.reading bytes.now) }
{
    let (value, rest) = T::read(alloc, bytes)?;
    if rest.len() != 0 {
        return Err(Unread::Malformed);
    }
    Ok(value)
}

/// The value that all of `bytes` spell.
///
/// # Errors
///
/// `Malformed` where they spell none, `Memory` where memory is short.
pub fn from_bytes<T: Format>(alloc: Global, bytes: &[u8]) -> Result<T, Unread>
    // What is read was spelled so.
    ensures found { IfOk result (λ x. (bytes.now ≡ T.spelling x) × T.fits x) }
    // What was spelled is read, unless memory is short.
    ensures only { (x : T) → T.fits x → bytes.now ≡ T.spelling x → Gives (λ y. y) result (Some x) }
    ensures exact { Gives (λ x. x) result (read_whole T.reading bytes.now) }
{
    whole(alloc, bytes)
}
