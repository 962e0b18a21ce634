//! An answer: how a run ends, and its text.

use std::marker::Model;

/// How a run ends where nothing outside fails.
#[derive(Clone, Copy, Debug, PartialEq, Eq)]
pub enum Ending {
    /// The command was carried out.
    Done,
    /// The words are of no command's form.
    Words,
    /// The input is not a problem.
    Refused,
}

/// An answer that is ready to be written: how the run ends, and the whole text.
#[derive(Debug, Drop)]
pub struct Reply {
    pub ending: Ending,
    pub text: Vec<u8>,
}

impl Model for Reply {
    ghost use Rattle.samr_run.specs.Answer.{Answer};

    ghost Value = { Answer };

    ghost view = { λ r. record { ending = r.ending; text = r.text.items } };
}
