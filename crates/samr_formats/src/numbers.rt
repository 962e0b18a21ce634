//! The formats of numbers: so many bytes, the greatest place first.

ghost use Rattle.std.specs.Prelude.{◌<◌, ◌^◌, [], ◌∷◌};
ghost use Rattle.std.specs.Int.{w16, w32, w64, to_be_bytes};
ghost use Rattle.samr_formats.specs.Formats.{read_byte, read_number};
ghost use Rattle.samr_formats.specs.Laws.{byte_format, format16, format32, format64};

use crate::format::Format;
use crate::unread::Unread;
use std::alloc::{AllocError as NoMemory, Global};

impl Format for u8 {
    ghost spelling = { λ n. n ∷ [] };

    ghost fits = { λ n. n < 256 };

    ghost writable = { λ _. Unit {0} };

    ghost reading = { read_byte };

    fn spell(&self, out: &mut Vec<u8>) -> Result<(), NoMemory> {
        out.push(*self)?;
        Ok(())
    }

    fn read(_alloc: Global, bytes: &[u8]) -> Result<(u8, &[u8]), Unread> {
        match bytes {
            [] => Err(Unread::Malformed),
            [first, rest @ ..] => Ok((*first, rest)),
        }
    }

    ghost law = { byte_format };
}

impl Format for u16 {
    ghost spelling = { to_be_bytes w16 };

    ghost fits = { λ n. n < 2 ^ 16 };

    ghost writable = { λ _. Unit {0} };

    ghost reading = { read_number w16 };

    fn spell(&self, out: &mut Vec<u8>) -> Result<(), NoMemory> {
        out.extend_from_slice(&self.to_be_bytes())?;
        Ok(())
    }

    fn read(_alloc: Global, bytes: &[u8]) -> Result<(u16, &[u8]), Unread> {
        if bytes.len() < 2 {
            return Err(Unread::Malformed);
        }
        let (front, rest) = bytes.split_at(2);
        Ok((u16::from_be_bytes([front[0], front[1]]), rest))
    }

    ghost law = { format16 };
}

impl Format for u32 {
    ghost spelling = { to_be_bytes w32 };

    ghost fits = { λ n. n < 2 ^ 32 };

    ghost writable = { λ _. Unit {0} };

    ghost reading = { read_number w32 };

    fn spell(&self, out: &mut Vec<u8>) -> Result<(), NoMemory> {
        out.extend_from_slice(&self.to_be_bytes())?;
        Ok(())
    }

    fn read(_alloc: Global, bytes: &[u8]) -> Result<(u32, &[u8]), Unread> {
        if bytes.len() < 4 {
            return Err(Unread::Malformed);
        }
        let (front, rest) = bytes.split_at(4);
        let number = u32::from_be_bytes([front[0], front[1], front[2], front[3]]);
        Ok((number, rest))
    }

    ghost law = { format32 };
}

impl Format for u64 {
    ghost spelling = { to_be_bytes w64 };

    ghost fits = { λ n. n < 2 ^ 64 };

    ghost writable = { λ _. Unit {0} };

    ghost reading = { read_number w64 };

    fn spell(&self, out: &mut Vec<u8>) -> Result<(), NoMemory> {
        out.extend_from_slice(&self.to_be_bytes())?;
        Ok(())
    }

    fn read(_alloc: Global, bytes: &[u8]) -> Result<(u64, &[u8]), Unread> {
        if bytes.len() < 8 {
            return Err(Unread::Malformed);
        }
        let (front, rest) = bytes.split_at(8);
        let number = u64::from_be_bytes([
            front[0], front[1], front[2], front[3], front[4], front[5], front[6], front[7],
        ]);
        Ok((number, rest))
    }

    ghost law = { format64 };
}
