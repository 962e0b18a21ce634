//! The format of a list: its length in eight bytes, then its items.

ghost use Rattle.std.specs.Prelude.{◌≡◌, ◌++◌, OnOk};
ghost use Rattle.std.specs.List.{flat_map, AllByRecursion};
ghost use Rattle.samr_formats.specs.Formats.{Gives, read_many, spell_list, FitsList, read_list};
ghost use Rattle.samr_formats.specs.Laws.{list_format};

use crate::format::Format;
use crate::unread::Unread;
use samr_box::Listed;
use std::alloc::{AllocError as NoMemory, Global};

/// Adds the bytes of some values, one after another.
fn spell_each<T: Format>(list: &[T], out: &mut Vec<u8>) -> Result<(), NoMemory>
    requires { AllByRecursion T.writable list.now }
    ensures spelled { OnOk result (out.new.items ≡ out.old.items ++ flat_map T.spelling list.now) }
    ensures fits { OnOk result (AllByRecursion T.fits list.now) }
{
    for one in list {
        one.spell(out)?;
    }
    Ok(())
}

/// So many values at the front of `bytes`, and the bytes behind them.
#[tactic(auto, using(crate::proofs::Loops::starts))]
fn take_many<T: Format>(alloc: Global, count: u64, bytes: &[u8]) -> Result<(Vec<T>, &[u8]), Unread>
    ensures { Gives (λ x. (x.0.items, x.1.now)) result (read_many T.reading count bytes.now) }
{
    let mut list = Vec::new(alloc);
    let mut rest = bytes;
    for _ in 0..count {
        let (one, after) = T::read(alloc, rest)?;
        list.push(one)?;
        rest = after;
    }
    Ok((list, rest))
}

impl<T: Format> Format for Listed<T> {
    ghost spelling = { spell_list T.spelling };

    ghost fits = { FitsList T.fits };

    ghost writable = { AllByRecursion T.writable };

    ghost reading = { read_list T.reading };

    fn spell(&self, out: &mut Vec<u8>) -> Result<(), NoMemory> {
        let list = self.as_slice();
        (list.len() as u64).spell(out)?;
        spell_each(list, out)?;
        Ok(())
    }

    fn read(alloc: Global, bytes: &[u8]) -> Result<(Listed<T>, &[u8]), Unread> {
        let (count, rest) = u64::read(alloc, bytes)?;
        let (list, rest) = take_many(alloc, count, rest)?;
        Ok((Listed::from_vec(list), rest))
    }

    ghost law = { list_format T.law };
}
