//! The reports of a round.

ghost use Rattle.std.specs.Prelude.{◌≡◌, ℕ, ◌<◌, ◌||◌, nat_eq, true, IfOk, refl};
ghost use Rattle.std.specs.List.{list_any};
ghost use Rattle.samr_level.specs.Levels.{own_boxes};
ghost use Rattle.samr_sign.specs.Fields.{AreTags};
ghost use Rattle.samr_cluster.specs.DecideParts.{reported_state};
ghost use Rattle.samr_mesh.specs.Passes.{tags_in};
ghost use Rattle.samr_msg.specs.declared.body.Body.TheVariants.{Report as ReportBody};
ghost use Rattle.samr_msg.specs.Places.{AtRound};
ghost use Rattle.samr_msg.specs.PassStops.{clusters_at, open_rounds, reports_told};
ghost use Rattle.samr_clustering.specs.Rounds.{HasOpen};

use crate::any::has_any;
use crate::parts::{Heard, Kept, Turn};
use crate::ratio::ratio_of;
use samr_box::Listed;
use samr_cluster::{Directed, Report, Reported, Told};
use samr_msg::{Body, Letter};
use samr_phase::{Begun, Part, Step};
use samr_regrid::{Base, Tools};
use samr_sign::TagField;
use samr_stage::{Label, Stage};
use std::alloc::{AllocError as NoMemory, Global};

/// What a rank keeps beside its reports.
#[derive(Drop)]
pub struct ReportStep<G: Tools> {
    kept: Kept<G>,
}

/// Whether a rank has anything to do in the reports of a round: all have in the first one.
fn reports(round: u32, directed: &[Directed], told: &[Told]) -> bool
    ensures { result ≡ (nat_eq round 0 || list_any (λ x. true) directed.now || list_any (λ x. true) told.now) }
{
    round == 0 || has_any(directed) || has_any(told)
}

/// The reports of a rank.
fn report<G: Tools>(
    alloc: Global,
    base: &Base<G>,
    fields: &[TagField],
    told: Vec<Told>,
    directed: Vec<Directed>,
) -> Result<Report, NoMemory>
    requires { (w : AtRound) × (r : ℕ) × ⟦<Base<G> as Part>⟧.holds base.now w.at r
        × AreTags (own_boxes r w.at.pass.level) (tags_in w.at.at.setting.problem w.at.pass) fields.now × HasOpen told.items directed.items w r }
    ensures { IfOk result (λ stage. (w : AtRound) (r : ℕ) → ⟦<Base<G> as Part>⟧.holds base.now w.at r
        → AreTags (own_boxes r w.at.pass.level) (tags_in w.at.at.setting.problem w.at.pass) fields.now → HasOpen told.items directed.items w r
        → ⟦<Report as Stage>⟧.starts stage (clusters_at w) r) }
{
    let stage = Report::start(
        alloc,
        base.rank(),
        base.ranks(),
        &base.frame(),
        fields,
        told,
        directed,
        base.width(),
        ratio_of(base),
    )?;
    Ok(stage)
}

impl<G: Tools> Step<Letter, Body, Turn<G>, Heard<G>, Report> for ReportStep<G> {
    ghost label = { reports_told.label };

    ghost visits = { reports_told.visits };

    ghost says = { reports_told.says };

    ghost wrap = { ReportBody };

    ghost gives = { λ w r out. out ≡ reported_state (clusters_at w) r };

    ghost after = { reports_told.after };

    ghost keeps = { λ k w r. ⟦<Kept<G> as Part>⟧.holds k.kept w r × (w.round < open_rounds w.at) };

    ghost sure = { ⊥ };

    fn label(input: &Turn<G>) -> Label {
        input.kept.base.label(3, 2 * input.kept.round)
    }

    fn visits(input: &Turn<G>) -> bool {
        reports(
            input.kept.round,
            input.directed.as_slice(),
            input.told.as_slice(),
        )
    }

    fn skip(alloc: Global, input: Turn<G>) -> Result<Heard<G>, NoMemory> {
        Ok(Heard {
            kept: input.kept,
            reported: Reported {
                near: Listed::new(alloc),
                counted: Listed::new(alloc),
            },
        })
    }

    fn begin(alloc: Global, input: Turn<G>) -> Result<Begun<Report, ReportStep<G>>, NoMemory> {
        let Turn {
            kept,
            told,
            directed,
        } = input;
        let stage = report(
            alloc,
            &kept.base,
            kept.fields.as_slice(),
            told.into_vec(),
            directed.into_vec(),
        )?;
        Ok(Begun {
            stage,
            kept: ReportStep { kept },
        })
    }

    fn end(self, _alloc: Global, given: Reported) -> Result<Heard<G>, NoMemory> {
        Ok(Heard {
            kept: self.kept,
            reported: given,
        })
    }

    ghost bodies = { λ run name body there. there };

    ghost same_ranks = { λ w. refl };
}
