//! The letters of a run.

ghost use Rattle.std.specs.Prelude.{◌≡◌, ◌↔◌, Some, IsTrue, IfOk, refl};
ghost use Rattle.std.proofs.Props.{props};
ghost use Rattle.samr_msg.specs.declared.body.Body as bodies;
ghost use Rattle.samr_msg.specs.WholeRun.{course_of, letter_of};

use crate::body::Body;
use crate::run::Run;
use samr_phase::Bodied;
use samr_stage::{Mail, Name};
use std::alloc::{AllocError as NoMemory, Global};

/// A letter of a run. Its body is the one that the run has for its name.
#[derive(Drop)]
pub struct Letter {
    run: Run,
    name: Name,
    body: Body,
    ghost true_body: { letter_of run name ≡ Some body } by { Prim.hlevel props },
}

impl Letter {
    /// The letter of a run with this name and body.
    ///
    /// # Errors
    ///
    /// Where the run is shared by so many that no more can be counted.
    pub fn new(run: &Run, name: Name, body: Body) -> Result<Letter, NoMemory>
        requires { letter_of run.now name ≡ Some body }
        ensures run { IfOk result (λ letter. ⟦<Letter as Mail>⟧.run letter ≡ run.now) }
        ensures name { IfOk result (λ letter. ⟦<Letter as Mail>⟧.name letter ≡ name) }
    {
        Ok(Letter {
            run: run.share()?,
            name,
            body,
        })
    }

    /// What the letter says.
    pub fn body(&self) -> &Body
        ensures { letter_of (⟦<Letter as Mail>⟧.run self.now) (⟦<Letter as Mail>⟧.name self.now) ≡ Some result.now }
    {
        &self.body
    }

    /// What the letter said.
    pub fn into_body(self) -> Body
        ensures { letter_of (⟦<Letter as Mail>⟧.run self) (⟦<Letter as Mail>⟧.name self) ≡ Some result }
    {
        self.body
    }
}

impl Mail for Letter {
    type Run = Run;

    ghost Body = { bodies.Body };

    ghost run = { λ letter. letter.run };

    ghost name = { λ letter. letter.name };

    ghost body = { λ letter. letter.body };

    ghost course = { course_of };

    fn name(&self) -> Name {
        self.name
    }

    fn same_run(&self, other: &Self) -> bool {
        self.run.same(&other.run)
    }

    fn copied(&self, alloc: Global) -> Result<Self, NoMemory> {
        Ok(Letter {
            run: self.run.share()?,
            name: self.name,
            body: self.body.copied(alloc)?,
        })
    }

    ghost truth = { λ letter. letter.true_body };
}

impl Bodied<Body> for Letter {
    ghost letter_of = { letter_of };

    fn is_of(&self, run: &Run) -> bool {
        self.run.same(run)
    }

    ghost same_letters = { λ run name. refl };
}
