//! The overlaps of the clusters with the level.

ghost use Rattle.std.specs.Prelude.{◌≡◌, ℕ, true, IfOk, refl};
ghost use Rattle.samr_modify.specs.Modify.{old_pair};
ghost use Rattle.samr_msg.specs.declared.body.Body.TheVariants.{Edges as EdgesBody};
ghost use Rattle.samr_msg.specs.Places.{AtPass};
ghost use Rattle.samr_msg.specs.PassStops.{edges_told};
ghost use Rattle.samr_wholes.specs.Wholes.{modifying};
ghost use Rattle.samr_clustering.specs.Rounds.{whole_of, HasAllAccepted};

use crate::parts::Found;
use crate::ratio::ratio_of;
use samr_cluster::{Accepted, Edges};
use samr_level::Pair;
use samr_msg::{Body, Letter};
use samr_phase::{Begun, Part, Step};
use samr_regrid::{Base, Clustered, Tools};
use samr_stage::{Label, Stage};
use std::alloc::{AllocError as NoMemory, Global};

/// What a rank keeps beside the overlaps that it finds.
#[derive(Drop)]
pub struct EdgesStep<G: Tools> {
    base: Base<G>,
}

/// The overlaps that a rank finds.
fn edges<G: Tools>(alloc: Global, base: &Base<G>, accepted: &[Accepted]) -> Result<Edges, NoMemory>
    requires { (w : AtPass) × (r : ℕ) × ⟦<Base<G> as Part>⟧.holds base.now w r }
    ensures { IfOk result (λ stage. (w : AtPass) (r : ℕ) → ⟦<Base<G> as Part>⟧.holds base.now w r
        → HasAllAccepted accepted.now w r → ⟦<Edges as Stage>⟧.starts stage (whole_of w) r) }
{
    let stage = Edges::start(
        alloc,
        base.rank(),
        base.ranks(),
        &base.frame(),
        base.old().boxes.as_slice(),
        accepted,
        base.width(),
        ratio_of(base),
    )?;
    Ok(stage)
}

impl<G: Tools> Step<Letter, Body, Found<G>, Clustered<G>, Edges> for EdgesStep<G> {
    ghost label = { edges_told.label };

    ghost visits = { edges_told.visits };

    ghost says = { edges_told.says };

    ghost wrap = { EdgesBody };

    ghost gives = { λ w r out. out ≡ old_pair (modifying w.at.setting.problem w.pass) r };

    ghost after = { edges_told.after };

    ghost keeps = { λ k w r. ⟦<Base<G> as Part>⟧.holds k.base w r };

    ghost sure = { ⊥ };

    fn label(input: &Found<G>) -> Label {
        input.base.label(4, 0)
    }

    fn visits(_input: &Found<G>) -> bool {
        true
    }

    fn skip(_alloc: Global, _input: Found<G>) -> Result<Clustered<G>, NoMemory> {
        Err(NoMemory)
    }

    fn begin(alloc: Global, input: Found<G>) -> Result<Begun<Edges, EdgesStep<G>>, NoMemory> {
        let Found { base, accepted } = input;
        let stage = edges(alloc, &base, accepted.as_slice())?;
        Ok(Begun {
            stage,
            kept: EdgesStep { base },
        })
    }

    fn end(self, _alloc: Global, given: Pair) -> Result<Clustered<G>, NoMemory> {
        Ok(Clustered {
            base: self.base,
            clusters: given,
        })
    }

    ghost bodies = { λ run name body there. there };

    ghost same_ranks = { λ w. refl };
}
