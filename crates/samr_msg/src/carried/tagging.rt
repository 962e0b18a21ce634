//! How the bodies of the stages of the tags stand in the letters of a run.

ghost use Rattle.std.specs.Prelude.{◌≡◌, Some};
ghost use Rattle.samr_msg.specs.WholeRun.{letter_of};
ghost use Rattle.samr_msg.specs.declared.body.Body.TheVariants.{Buffer as BufferBody, Cover as CoverBody};

use crate::body::Body;
use crate::letter::Letter;
use crate::run::Run;
use samr_box::{IBox, Listed};
use samr_stage::{Carried, Name};
use samr_tags::{Buffer, Cover, Seen};
use std::alloc::{AllocError as NoMemory, Global};

impl Carried<Letter> for Buffer {
    ghost has_body = { λ run name body. letter_of run name ≡ Some (BufferBody body) };

    fn to_letter(
        _alloc: Global,
        run: &Run,
        name: Name,
        body: Listed<Seen>,
    ) -> Result<Letter, NoMemory> {
        let letter = Letter::new(run, name, Body::Buffer(body))?;
        Ok(letter)
    }

    fn into_body(letter: Letter) -> Listed<Seen> {
        match letter.into_body() {
            Body::Buffer(body) => body,
            _ => unreachable!(),
        }
    }

    fn weigh(&self, _letter: &Letter) -> u64 {
        1
    }
}

impl Carried<Letter> for Cover {
    ghost has_body = { λ run name body. letter_of run name ≡ Some (CoverBody body) };

    fn to_letter(
        _alloc: Global,
        run: &Run,
        name: Name,
        body: Listed<IBox>,
    ) -> Result<Letter, NoMemory> {
        let letter = Letter::new(run, name, Body::Cover(body))?;
        Ok(letter)
    }

    fn into_body(letter: Letter) -> Listed<IBox> {
        match letter.into_body() {
            Body::Cover(body) => body,
            _ => unreachable!(),
        }
    }

    fn weigh(&self, _letter: &Letter) -> u64 {
        1
    }
}
