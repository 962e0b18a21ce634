//! How a program does the step of a stage at a label of its run.

ghost use Rattle.std.specs.Prelude.{◌≡◌, ℕ, ◌↔◌, Some, map, All, IsTrue, IfOk, OnOk};
ghost use Rattle.samr_stage.specs.declared.label.Label.{Label};
ghost use Rattle.samr_stage.specs.declared.label.Name.{Name};
ghost use Rattle.samr_stage.specs.Course.{sent, awaited};
ghost use Rattle.samr_stage.specs.Held.{IsHeld};
ghost use Rattle.samr_stage.specs.Carried.{CarriesRow};

use crate::label::{Label, Name};
use crate::mail::Mail;
use crate::stage::{Held, Stage};
use std::alloc::{AllocError as NoMemory, Global};

/// How the bodies of a stage stand in the letters of a run.
///
/// Whoever writes it says with `has_body` which body of the stage a run's letter of a name has.
pub trait Carried<M: Mail>: Stage {
    ghost has_body: { M.Run → Name → Self.Body → Type 0 };

    /// The run's letter of a name, with its body.
    ///
    /// # Errors
    ///
    /// Where memory is short.
    fn to_letter(alloc: Global, run: &M::Run, name: Name, body: Self::Body) -> Result<M, NoMemory>
        requires { has_body run.now name body }
        ensures run { IfOk result (λ letter. M.run letter ≡ run.now) }
        ensures name { IfOk result (λ letter. M.name letter ≡ name) };

    /// The body of a letter.
    fn into_body(letter: M) -> Self::Body
        requires { (body : Self.Body) × has_body (M.run letter) (M.name letter) body }
        ensures { (body : Self.Body) → has_body (M.run letter) (M.name letter) body → result ≡ body };

    /// What a letter for the rank weighs.
    fn weigh(&self, letter: &M) -> u64
        requires { (w : Self.Whole) × (rank : ℕ) × (from : ℕ) × (body : Self.Body) × Self.waits self.now w rank
            × (Self.says w from rank ≡ Some body) × has_body (M.run letter.now) (M.name letter.now) body }
        ensures { (body : Self.Body) → has_body (M.run letter.now) (M.name letter.now) body → result ≡ Self.weight_of body };
}

/// Enters a stage at a label of a run, and gives the letters that the rank has for others there, by
/// addressee.
///
/// # Errors
///
/// Where memory is short.
pub fn enter_stage<M: Mail, S: Carried<M>>(
    alloc: Global,
    run: &M::Run,
    at: Label,
    rank: u16,
    stage: &mut S,
) -> Result<Vec<M>, NoMemory>
    requires { (w : S.Whole) × S.starts stage.old w rank
        × CarriesRow (M.course run.now) (S.has_body run.now) at (S.ranks_of w) (S.says w) }
    ensures letters { IfOk result (λ letters. map M.name letters.items ≡ sent (M.course run.now) at rank) }
    ensures own { IfOk result (λ letters. All (λ letter. M.run letter ≡ run.now) letters.items) }
    ensures waits { OnOk result ((w : S.Whole) → S.starts stage.old w rank → S.waits stage.new w rank) }
{
    let told = stage.letters(alloc)?;
    let mut letters = Vec::with_capacity(alloc, told.len())?;
    'each: for (to, body) in told {
        let name = Name {
            label: at,
            sender: rank,
            addressee: to,
        };
        letters.push(S::to_letter(alloc, run, name, body)?)?;
    }
    Ok(letters)
}

/// Whether the letters held are all that others have for the rank: their weights add up to the
/// stage's goal. They are of one run and one label, for the rank, and in order of sender, at most
/// one of each.
pub fn ready_stage<M: Mail, S: Carried<M>>(stage: &S, held: &[M]) -> bool
    requires { (run : M.Run) × (at : Label) × (w : S.Whole) × (rank : ℕ) × S.waits stage.now w rank
        × CarriesRow (M.course run) (S.has_body run) at (S.ranks_of w) (S.says w)
        × IsHeld M.run M.name run at rank held.now }
    ensures { (run : M.Run) (at : Label) (w : S.Whole) (rank : ℕ) → S.waits stage.now w rank
        → CarriesRow (M.course run) (S.has_body run) at (S.ranks_of w) (S.says w)
        → IsHeld M.run M.name run at rank held.now
        → IsTrue result ↔ (map M.name held.now ≡ awaited (M.course run) at rank) }
{
    let goal = stage.goal();
    let mut sum = 0;
    'each: for letter in held {
        sum += stage.weigh(letter);
    }
    sum == goal
}

/// Finishes a stage with all the letters that others have for the rank at its label.
///
/// # Errors
///
/// Where memory is short.
pub fn finish_stage<M: Mail, S: Carried<M>>(
    alloc: Global,
    stage: S,
    held: Vec<M>,
) -> Result<S::Out, NoMemory>
    requires { (run : M.Run) × (at : Label) × (w : S.Whole) × (rank : ℕ) × S.waits stage w rank
        × CarriesRow (M.course run) (S.has_body run) at (S.ranks_of w) (S.says w)
        × IsHeld M.run M.name run at rank held.items
        × (map M.name held.items ≡ awaited (M.course run) at rank) }
    ensures { IfOk result (λ out. (run : M.Run) (at : Label) (w : S.Whole) (rank : ℕ) → S.waits stage w rank
        → CarriesRow (M.course run) (S.has_body run) at (S.ranks_of w) (S.says w)
        → IsHeld M.run M.name run at rank held.items
        → map M.name held.items ≡ awaited (M.course run) at rank → S.gives w rank out) }
{
    let mut bodies = Vec::with_capacity(alloc, held.len())?;
    'each: for letter in held {
        let sender = letter.name().sender;
        let body = S::into_body(letter);
        bodies.push(Held { sender, body })?;
    }
    stage.finish(alloc, bodies)
}
