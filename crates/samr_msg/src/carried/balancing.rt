//! How the bodies of the stages of the totals and of the balance stand in the letters of a run.

ghost use Rattle.std.specs.Prelude.{◌≡◌, Some};
ghost use Rattle.samr_msg.specs.WholeRun.{letter_of};
ghost use Rattle.samr_msg.specs.declared.body.Body.TheVariants.{SumUp as SumUpBody, TellDown as TellDownBody, Up as UpBody, Down as DownBody, Home as HomeBody};

use crate::body::Body;
use crate::letter::Letter;
use crate::run::Run;
use samr_balance::{Cutting, Down, Gift, Home, Up};
use samr_box::Listed;
use samr_load::Piece;
use samr_stage::{Carried, Name, Stage};
use samr_tree::{SumUp, TellDown};
use std::alloc::{AllocError as NoMemory, Global};

impl Carried<Letter> for SumUp {
    ghost has_body = { λ run name body. letter_of run name ≡ Some (SumUpBody body) };

    fn to_letter(_alloc: Global, run: &Run, name: Name, body: u64) -> Result<Letter, NoMemory> {
        let letter = Letter::new(run, name, Body::SumUp(body))?;
        Ok(letter)
    }

    fn into_body(letter: Letter) -> u64 {
        match letter.into_body() {
            Body::SumUp(body) => body,
            _ => unreachable!(),
        }
    }

    fn weigh(&self, _letter: &Letter) -> u64 {
        1
    }
}

impl Carried<Letter> for TellDown {
    ghost has_body = { λ run name body. letter_of run name ≡ Some (TellDownBody body) };

    fn to_letter(_alloc: Global, run: &Run, name: Name, body: u64) -> Result<Letter, NoMemory> {
        let letter = Letter::new(run, name, Body::TellDown(body))?;
        Ok(letter)
    }

    fn into_body(letter: Letter) -> u64 {
        match letter.into_body() {
            Body::TellDown(body) => body,
            _ => unreachable!(),
        }
    }

    fn weigh(&self, _letter: &Letter) -> u64 {
        1
    }
}

impl Carried<Letter> for Up {
    ghost has_body = { λ run name body. letter_of run name ≡ Some (UpBody body) };

    fn to_letter(_alloc: Global, run: &Run, name: Name, body: Gift) -> Result<Letter, NoMemory> {
        let letter = Letter::new(run, name, Body::Up(body))?;
        Ok(letter)
    }

    fn into_body(letter: Letter) -> Gift {
        match letter.into_body() {
            Body::Up(body) => body,
            _ => unreachable!(),
        }
    }

    fn weigh(&self, _letter: &Letter) -> u64 {
        1
    }
}

impl Carried<Letter> for Down {
    ghost has_body = { λ run name body. letter_of run name ≡ Some (DownBody body) };

    fn to_letter(
        _alloc: Global,
        run: &Run,
        name: Name,
        body: Listed<Piece>,
    ) -> Result<Letter, NoMemory> {
        let letter = Letter::new(run, name, Body::Down(body))?;
        Ok(letter)
    }

    fn into_body(letter: Letter) -> Listed<Piece> {
        match letter.into_body() {
            Body::Down(body) => body,
            _ => unreachable!(),
        }
    }

    fn weigh(&self, _letter: &Letter) -> u64 {
        1
    }
}

impl Carried<Letter> for Home {
    ghost has_body = { λ run name body. letter_of run name ≡ Some (HomeBody body) };

    fn to_letter(
        _alloc: Global,
        run: &Run,
        name: Name,
        body: Listed<Cutting>,
    ) -> Result<Letter, NoMemory> {
        let letter = Letter::new(run, name, Body::Home(body))?;
        Ok(letter)
    }

    fn into_body(letter: Letter) -> Listed<Cutting> {
        match letter.into_body() {
            Body::Home(body) => body,
            _ => unreachable!(),
        }
    }

    fn weigh(&self, letter: &Letter) -> u64 {
        match letter.body() {
            Body::Home(body) => self.weight(body),
            _ => unreachable!(),
        }
    }
}
