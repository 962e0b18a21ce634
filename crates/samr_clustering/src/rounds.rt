//! How often a rank goes through a round.

ghost use Rattle.std.specs.Prelude.{◌≡◌, ℕ, ◌||◌, true, refl};
ghost use Rattle.std.specs.List.{list_any};
ghost use Rattle.samr_msg.specs.PassStops.{rounds_open};
ghost use Rattle.samr_clustering.specs.Rounds.{whole_of, accepted_in, IsIdle};
ghost use Rattle.samr_clustering.specs.RoundLaws.{fewer, rests, stays, ends};

use crate::any::has_any;
use crate::deciding::DecideStep;
use crate::parts::{Found, Heard, Open, Turn};
use crate::reporting::ReportStep;
use samr_cluster::{Decide, Directed, Report, Told};
use samr_msg::{Body, Letter};
use samr_phase::{One, Part, Repeat, Then, Turns, Went};
use samr_regrid::{Base, Tools};
use std::alloc::{AllocError as NoMemory, Global};

/// A round: reports, and then decisions.
pub type Round<G> = Then<One<Report, ReportStep<G>>, Heard<G>, One<Decide, DecideStep<G>>>;

/// All rounds in which a node is open.
pub type Rounds<G> = Repeat<Round<G>, Turn<G>, RoundTurns>;

/// A rank goes through rounds as long as it is told a node or directs one. One that has none will
/// have none in any later round.
pub struct RoundTurns {}

/// Whether a rank was told a node or directs one.
fn goes_on(told: &[Told], directed: &[Directed]) -> bool
    ensures { result ≡ (list_any (λ x. true) told.now || list_any (λ x. true) directed.now) }
{
    has_any(told) || has_any(directed)
}

impl<G: Tools> Turns<Letter, Body, Open<G>, Turn<G>, Found<G>, Round<G>> for RoundTurns {
    ghost left = { rounds_open };

    ghost idle = { λ w r. IsIdle w r };

    ghost begun = { λ w. w };

    ghost ended = { λ w. w.at };

    ghost rest = { λ z w r. ⟦<Base<G> as Part>⟧.holds z.base w.at r × (z.accepted ≡ accepted_in (whole_of w.at) w.round r) };

    ghost sure = { ⊥ };

    fn most(_now: &Open<G>) -> u32 {
        u32::MAX
    }

    fn turn(_alloc: Global, now: Open<G>) -> Result<Went<Turn<G>, Found<G>>, NoMemory> {
        if goes_on(now.told.as_slice(), now.directed.as_slice()) {
            return Ok(Went::On(Turn {
                kept: now.kept,
                told: now.told,
                directed: now.directed,
            }));
        }
        Ok(Went::Over(Found {
            base: now.kept.base,
            accepted: now.kept.accepted,
        }))
    }

    ghost fewer = { fewer };

    ghost rests = { λ w r idle left. rests w r idle left };

    ghost stays = { λ z w r there idle left. (there.0, stays w r z.accepted there.1 idle) };

    ghost ends = { λ z w r there idle none. (there.0, ends w r z.accepted there.1 idle none) };

    ghost same_ranks = { λ w. (refl, refl) };
}
