//! A stretch of a run, as one rank goes through it.

ghost use Rattle.std.specs.Prelude.{◌≡◌, ℕ, ◌↔◌, Bool, true, false, List, map, All, IsTrue, IsOk, IfOk, OnOk};
ghost use Rattle.samr_stage.specs.declared.label.Label.{Label};
ghost use Rattle.samr_stage.specs.Course.{sent, awaited};
ghost use Rattle.samr_stage.specs.Fragments.{Fragment};
ghost use Rattle.samr_phase.specs.Going.{Carries, Hears, HearsAll, Goes};

use crate::bodied::Bodied;
use crate::part::Part;
use crate::went::Went;
use samr_stage::Label;
use std::alloc::{AllocError as NoMemory, Global};

/// A stretch of a run, as one rank goes through it: from its part of a whole before the stretch to
/// its part of a whole after it.
///
/// One stage is a phase by [`crate::One`]; phases are put together by [`crate::Then`],
/// [`crate::Repeat`], [`crate::Either`] and [`crate::Made`], and a whole run is one phase of which
/// [`crate::Running`] makes a program. Who uses them writes no `impl` of this trait, but for a phase
/// that gets a name of its own: a struct around a phase put together of a few others, which hands on
/// each call. A long run is put together of such named phases, so that no type grows deep.
pub trait Phase<M: Bodied<B>, B, I: Part, O: Part>: Drop {
    /// The stretch: its labels, who visits them, and the letters there.
    ghost fragments: { I.Whole → List (Fragment B) };

    /// The whole of which the ranks have parts after the stretch.
    ghost after: { I.Whole → O.Whole };

    /// That to start the phase, and to skip a label of it then, wants no memory.
    ghost sure: { Type 0 };

    /// That a rank of a whole is at a fragment of the stretch, with the fragments that are left of it
    /// after that one, and whether it has entered.
    ghost stands: { Self → I.Whole → ℕ → Fragment B → List (Fragment B) → Bool → Type 0 };

    /// Goes to the first label of the phase that the rank visits, or is over where there is none.
    fn start(alloc: Global, input: I) -> Result<Went<Self, O>, NoMemory>
        requires { (w : I.Whole) × (rank : ℕ) × I.holds input w rank }
        ensures made { sure → IsOk result }
        ensures goes { IfOk result (λ went. (w : I.Whole) (rank : ℕ) → I.holds input w rank
            → Goes (λ p. stands p w rank) (λ out. O.holds out (after w) rank) rank (fragments w) went) };

    /// The label at which the rank is.
    fn label(&self) -> Label
        ensures { (w : I.Whole) (rank : ℕ) (here : Fragment B) (rest : List (Fragment B)) (entered : Bool)
            → stands self.now w rank here rest entered → result ≡ here.label };

    /// Enters the label, and gives the letters that the rank has for others there.
    fn enter(&mut self, alloc: Global, run: &M::Run, rank: u16) -> Result<Vec<M>, NoMemory>
        requires { (w : I.Whole) × (here : Fragment B) × (rest : List (Fragment B))
            × stands self.old w rank here rest false × Carries (M.course run.now) (M.letter_of run.now) (I.ranks w) here }
        ensures letters { IfOk result (λ letters. (w : I.Whole) (here : Fragment B) (rest : List (Fragment B))
            → stands self.old w rank here rest false → Carries (M.course run.now) (M.letter_of run.now) (I.ranks w) here
            → map M.name letters.items ≡ sent (M.course run.now) here.label rank) }
        ensures own { IfOk result (λ letters. All (λ letter. M.run letter ≡ run.now) letters.items) }
        ensures entered { OnOk result ((w : I.Whole) (here : Fragment B) (rest : List (Fragment B))
            → stands self.old w rank here rest false → stands self.new w rank here rest true) };

    /// Whether the letters held are all that others have for the rank.
    fn ready(&self, held: &[M]) -> bool
        requires { (run : M.Run) × (w : I.Whole) × (rank : ℕ) × (here : Fragment B) × (rest : List (Fragment B))
            × stands self.now w rank here rest true × Hears M.run M.name M.course M.letter_of run (I.ranks w) rank here held.now }
        ensures { (run : M.Run) (w : I.Whole) (rank : ℕ) (here : Fragment B) (rest : List (Fragment B))
            → stands self.now w rank here rest true → Hears M.run M.name M.course M.letter_of run (I.ranks w) rank here held.now
            → IsTrue result ↔ (map M.name held.now ≡ awaited (M.course run) here.label rank) };

    /// Finishes the label and goes to the next one of the phase that the rank visits, or is over where
    /// there is none.
    fn finish(self, alloc: Global, held: Vec<M>) -> Result<Went<Self, O>, NoMemory>
        requires { (run : M.Run) × (w : I.Whole) × (rank : ℕ) × (here : Fragment B) × (rest : List (Fragment B))
            × stands self w rank here rest true × HearsAll M.run M.name M.course M.letter_of run (I.ranks w) rank here held.items }
        ensures { IfOk result (λ went. (run : M.Run) (w : I.Whole) (rank : ℕ) (here : Fragment B) (rest : List (Fragment B))
            → stands self w rank here rest true → HearsAll M.run M.name M.course M.letter_of run (I.ranks w) rank here held.items
            → Goes (λ p. stands p w rank) (λ out. O.holds out (after w) rank) rank rest went) };

    ghost same_ranks: { (w : I.Whole) → O.ranks (after w) ≡ I.ranks w };
}
