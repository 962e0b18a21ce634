//! How the bodies of the stages of the overlaps stand in the letters of a run.

ghost use Rattle.std.specs.Prelude.{◌≡◌, Some};
ghost use Rattle.samr_msg.specs.WholeRun.{letter_of};
ghost use Rattle.samr_msg.specs.declared.body.Body.TheVariants.{Modify as ModifyBody, Bridge as BridgeBody};

use crate::body::Body;
use crate::letter::Letter;
use crate::run::Run;
use samr_box::Listed;
use samr_bridge::Bridge;
use samr_level::Edge;
use samr_modify::{Modify, Replaced};
use samr_stage::{Carried, Name};
use std::alloc::{AllocError as NoMemory, Global};

impl Carried<Letter> for Modify {
    ghost has_body = { λ run name body. letter_of run name ≡ Some (ModifyBody body) };

    fn to_letter(
        _alloc: Global,
        run: &Run,
        name: Name,
        body: Listed<Replaced>,
    ) -> Result<Letter, NoMemory> {
        let letter = Letter::new(run, name, Body::Modify(body))?;
        Ok(letter)
    }

    fn into_body(letter: Letter) -> Listed<Replaced> {
        match letter.into_body() {
            Body::Modify(body) => body,
            _ => unreachable!(),
        }
    }

    fn weigh(&self, _letter: &Letter) -> u64 {
        1
    }
}

impl Carried<Letter> for Bridge {
    ghost has_body = { λ run name body. letter_of run name ≡ Some (BridgeBody body) };

    fn to_letter(
        _alloc: Global,
        run: &Run,
        name: Name,
        body: Listed<Edge>,
    ) -> Result<Letter, NoMemory> {
        let letter = Letter::new(run, name, Body::Bridge(body))?;
        Ok(letter)
    }

    fn into_body(letter: Letter) -> Listed<Edge> {
        match letter.into_body() {
            Body::Bridge(body) => body,
            _ => unreachable!(),
        }
    }

    fn weigh(&self, _letter: &Letter) -> u64 {
        1
    }
}
