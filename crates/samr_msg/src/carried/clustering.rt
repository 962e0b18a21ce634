//! How the bodies of the stages of a clustering stand in the letters of a run.

ghost use Rattle.std.specs.Prelude.{◌≡◌, Some};
ghost use Rattle.samr_msg.specs.WholeRun.{letter_of};
ghost use Rattle.samr_msg.specs.declared.body.Body.TheVariants.{Report as ReportBody, Decide as DecideBody, Edges as EdgesBody};

use crate::body::Body;
use crate::letter::Letter;
use crate::run::Run;
use samr_box::Listed;
use samr_cluster::{Decide, Edges, Report, Ruling};
use samr_level::Edge;
use samr_sign::Signature;
use samr_stage::{Carried, Name};
use std::alloc::{AllocError as NoMemory, Global};

impl Carried<Letter> for Report {
    ghost has_body = { λ run name body. letter_of run name ≡ Some (ReportBody body) };

    fn to_letter(
        _alloc: Global,
        run: &Run,
        name: Name,
        body: Listed<Signature>,
    ) -> Result<Letter, NoMemory> {
        let letter = Letter::new(run, name, Body::Report(body))?;
        Ok(letter)
    }

    fn into_body(letter: Letter) -> Listed<Signature> {
        match letter.into_body() {
            Body::Report(body) => body,
            _ => unreachable!(),
        }
    }

    fn weigh(&self, _letter: &Letter) -> u64 {
        1
    }
}

impl Carried<Letter> for Decide {
    ghost has_body = { λ run name body. letter_of run name ≡ Some (DecideBody body) };

    fn to_letter(
        _alloc: Global,
        run: &Run,
        name: Name,
        body: Listed<Ruling>,
    ) -> Result<Letter, NoMemory> {
        let letter = Letter::new(run, name, Body::Decide(body))?;
        Ok(letter)
    }

    fn into_body(letter: Letter) -> Listed<Ruling> {
        match letter.into_body() {
            Body::Decide(body) => body,
            _ => unreachable!(),
        }
    }

    fn weigh(&self, _letter: &Letter) -> u64 {
        1
    }
}

impl Carried<Letter> for Edges {
    ghost has_body = { λ run name body. letter_of run name ≡ Some (EdgesBody body) };

    fn to_letter(
        _alloc: Global,
        run: &Run,
        name: Name,
        body: Listed<Edge>,
    ) -> Result<Letter, NoMemory> {
        let letter = Letter::new(run, name, Body::Edges(body))?;
        Ok(letter)
    }

    fn into_body(letter: Letter) -> Listed<Edge> {
        match letter.into_body() {
            Body::Edges(body) => body,
            _ => unreachable!(),
        }
    }

    fn weigh(&self, _letter: &Letter) -> u64 {
        1
    }
}
