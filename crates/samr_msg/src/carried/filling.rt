//! How the bodies of the stages of the values stand in the letters of a run.

ghost use Rattle.std.specs.Prelude.{◌≡◌, Some};
ghost use Rattle.samr_msg.specs.WholeRun.{letter_of};
ghost use Rattle.samr_msg.specs.declared.body.Body.TheVariants.{Ask as AskBody, Coarsen as CoarsenBody, Fill as FillBody, Values as ValuesBody};

use crate::body::Body;
use crate::letter::Letter;
use crate::run::Run;
use samr_box::Listed;
use samr_data::Parcel;
use samr_fill::Fill;
use samr_ops::{Bounds, Refines, Updates};
use samr_sched::{Ask, Request};
use samr_stage::{Carried, Name};
use samr_values::{Coarsen, Values};
use std::alloc::{AllocError as NoMemory, Global};

impl Carried<Letter> for Ask {
    ghost has_body = { λ run name body. letter_of run name ≡ Some (AskBody body) };

    fn to_letter(
        _alloc: Global,
        run: &Run,
        name: Name,
        body: Listed<Request>,
    ) -> Result<Letter, NoMemory> {
        let letter = Letter::new(run, name, Body::Ask(body))?;
        Ok(letter)
    }

    fn into_body(letter: Letter) -> Listed<Request> {
        match letter.into_body() {
            Body::Ask(body) => body,
            _ => unreachable!(),
        }
    }

    fn weigh(&self, _letter: &Letter) -> u64 {
        1
    }
}

impl Carried<Letter> for Coarsen {
    ghost has_body = { λ run name body. letter_of run name ≡ Some (CoarsenBody body) };

    fn to_letter(
        _alloc: Global,
        run: &Run,
        name: Name,
        body: Listed<Parcel>,
    ) -> Result<Letter, NoMemory> {
        let letter = Letter::new(run, name, Body::Coarsen(body))?;
        Ok(letter)
    }

    fn into_body(letter: Letter) -> Listed<Parcel> {
        match letter.into_body() {
            Body::Coarsen(body) => body,
            _ => unreachable!(),
        }
    }

    fn weigh(&self, _letter: &Letter) -> u64 {
        1
    }
}

impl<'a, R: Refines, B: Bounds, U: Updates> Carried<Letter> for Values<'a, R, B, U> {
    ghost has_body = { λ run name body. letter_of run name ≡ Some (ValuesBody body) };

    fn to_letter(
        _alloc: Global,
        run: &Run,
        name: Name,
        body: Listed<Parcel>,
    ) -> Result<Letter, NoMemory> {
        let letter = Letter::new(run, name, Body::Values(body))?;
        Ok(letter)
    }

    fn into_body(letter: Letter) -> Listed<Parcel> {
        match letter.into_body() {
            Body::Values(body) => body,
            _ => unreachable!(),
        }
    }

    fn weigh(&self, _letter: &Letter) -> u64 {
        1
    }
}

impl<'a, R: Refines, B: Bounds, U: Updates> Carried<Letter> for Fill<'a, R, B, U> {
    ghost has_body = { λ run name body. letter_of run name ≡ Some (FillBody body) };

    fn to_letter(
        _alloc: Global,
        run: &Run,
        name: Name,
        body: Listed<Parcel>,
    ) -> Result<Letter, NoMemory> {
        let letter = Letter::new(run, name, Body::Fill(body))?;
        Ok(letter)
    }

    fn into_body(letter: Letter) -> Listed<Parcel> {
        match letter.into_body() {
            Body::Fill(body) => body,
            _ => unreachable!(),
        }
    }

    fn weigh(&self, _letter: &Letter) -> u64 {
        1
    }
}
