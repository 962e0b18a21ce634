//! The decisions of a round.

ghost use Rattle.std.specs.Prelude.{◌≡◌, ℕ, ◌<◌, ◌||◌, true, IfOk, refl};
ghost use Rattle.std.specs.List.{list_any};
ghost use Rattle.samr_cluster.specs.DecideParts.{reported_state, decided_state};
ghost use Rattle.samr_mesh.specs.Passes.{rule_of};
ghost use Rattle.samr_msg.specs.declared.body.Body.TheVariants.{Decide as DecideBody};
ghost use Rattle.samr_msg.specs.Places.{AtRound};
ghost use Rattle.samr_msg.specs.PassStops.{clusters_at, open_rounds, decisions_told};

use crate::any::has_any;
use crate::parts::{Heard, Kept, Open};
use samr_box::Listed;
use samr_cluster::{Counted, Decide, Decided, Reported, Told};
use samr_msg::{Body, Letter};
use samr_phase::{Begun, Part, Step};
use samr_regrid::{Base, Tools};
use samr_sign::CutRule;
use samr_stage::{Label, Stage};
use std::alloc::{AllocError as NoMemory, Global};

/// What a rank keeps beside its decisions.
#[derive(Drop)]
pub struct DecideStep<G: Tools> {
    kept: Kept<G>,
}

/// Whether a rank has anything to do in the decisions of a round.
fn decides(counted: &[Counted], near: &[Told]) -> bool
    ensures { result ≡ (list_any (λ x. true) counted.now || list_any (λ x. true) near.now) }
{
    has_any(counted) || has_any(near)
}

/// The decisions of a rank.
fn decide<G: Tools>(
    alloc: Global,
    base: &Base<G>,
    reported: Reported,
    rule: CutRule,
) -> Result<Decide, NoMemory>
    ensures { IfOk result (λ stage. (w : AtRound) (r : ℕ) → ⟦<Base<G> as Part>⟧.holds base.now w.at r
        → rule ≡ rule_of w.at.at.setting.problem → reported ≡ reported_state (clusters_at w) r
        → ⟦<Decide as Stage>⟧.starts stage (clusters_at w) r) }
{
    let stage = Decide::start(
        alloc,
        base.rank(),
        base.ranks(),
        &base.frame(),
        reported,
        rule,
    )?;
    Ok(stage)
}

impl<G: Tools> Step<Letter, Body, Heard<G>, Open<G>, Decide> for DecideStep<G> {
    ghost label = { decisions_told.label };

    ghost visits = { decisions_told.visits };

    ghost says = { decisions_told.says };

    ghost wrap = { DecideBody };

    ghost gives = { λ w r out. out ≡ decided_state (clusters_at w) r };

    ghost after = { decisions_told.after };

    ghost keeps = { λ k w r. ⟦<Kept<G> as Part>⟧.holds k.kept w r × (w.round < open_rounds w.at) };

    ghost sure = { ⊥ };

    fn label(input: &Heard<G>) -> Label {
        input.kept.base.label(3, 2 * input.kept.round + 1)
    }

    fn visits(input: &Heard<G>) -> bool {
        decides(
            input.reported.counted.as_slice(),
            input.reported.near.as_slice(),
        )
    }

    fn skip(alloc: Global, input: Heard<G>) -> Result<Open<G>, NoMemory> {
        let Kept {
            base,
            fields,
            accepted,
            rule,
            round,
        } = input.kept;
        Ok(Open {
            kept: Kept {
                base,
                fields,
                accepted,
                rule,
                round: round + 1,
            },
            told: Listed::new(alloc),
            directed: Listed::new(alloc),
        })
    }

    fn begin(alloc: Global, input: Heard<G>) -> Result<Begun<Decide, DecideStep<G>>, NoMemory> {
        let Heard { kept, reported } = input;
        let stage = decide(alloc, &kept.base, reported, kept.rule)?;
        Ok(Begun {
            stage,
            kept: DecideStep { kept },
        })
    }

    fn end(self, _alloc: Global, given: Decided) -> Result<Open<G>, NoMemory> {
        let Kept {
            base,
            fields,
            accepted,
            rule,
            round,
        } = self.kept;
        let mut all = accepted.into_vec();
        let mut more = given.accepted.into_vec();
        all.append(&mut more)?;
        Ok(Open {
            kept: Kept {
                base,
                fields,
                accepted: Listed::from_vec(all),
                rule,
                round: round + 1,
            },
            told: given.told,
            directed: given.directed,
        })
    }

    ghost bodies = { λ run name body there. there };

    ghost same_ranks = { λ w. refl };
}
