//! The bridge from the new level to the old level two below it, by way of the level between them.

ghost use Rattle.std.specs.Prelude.{◌≡◌, ℕ, ◌-◌, true, ◌&&◌, nat_lt, Some, refl, IfOk};
ghost use Rattle.samr_mesh.specs.Passes.{new_level};
ghost use Rattle.samr_msg.specs.declared.body.Body.TheVariants.{Bridge as Bridged};
ghost use Rattle.samr_msg.specs.Places.{AtPass, old_below};
ghost use Rattle.samr_msg.specs.PassStops.{bridged_to_below};
ghost use Rattle.samr_wholes.specs.Bridges.{to_below};
ghost use Rattle.samr_regrid.specs.Making.{new_part};

use crate::bridging::{bridge, down_of};
use crate::parts::{Compared, Covered, Joined, Meeting};
use samr_bridge::Bridge;
use samr_level::Pair;
use samr_msg::{Body, Letter};
use samr_phase::{Begun, Part, Step};
use samr_regrid::{Connected, Fresh, Tools};
use samr_stage::{Label, Stage};
use std::alloc::{AllocError as NoMemory, Global};

/// What a rank keeps beside the stage.
#[derive(Drop)]
pub(crate) struct ToBelowStep<G: Tools> {
    covered: Covered<G>,
}

/// The stage of a rank.
fn to_below<G: Tools>(alloc: Global, joined: &Joined<G>) -> Result<Bridge, NoMemory>
    requires { (w : AtPass) × (r : ℕ) × ⟦<Joined<G> as Part>⟧.holds joined.now w r × ((nat_lt 0 w.pass.number && nat_lt 0 w.at.step) ≡ true) }
    ensures { IfOk result (λ stage. (w : AtPass) (r : ℕ) → ⟦<Joined<G> as Part>⟧.holds joined.now w r
        → (nat_lt 0 w.pass.number && nat_lt 0 w.at.step) ≡ true
        → ⟦<Bridge as Stage>⟧.starts stage (to_below w.at.setting.problem w.pass.ranks (w.pass.number - 1) (new_level w.at.setting.problem w.pass) w.pass.level (old_below w)) r) }
{
    let level = joined.base.old();
    let west = down_of(level);
    let stage = bridge(alloc, &joined.base, &joined.under, west)?;
    Ok(stage)
}

/// All that a rank has of the new level.
fn connected<G: Tools>(covered: Covered<G>, cover: Option<Pair>) -> Connected<G>
    ensures { (w : AtPass) (r : ℕ) → ⟦<Covered<G> as Part>⟧.holds covered w r → cover ≡ (new_part w r).cover
        → ⟦<Connected<G> as Part>⟧.holds result w r }
{
    let Covered { meeting, down } = covered;
    let Meeting { compared, selves } = meeting;
    let Compared { joined, same } = compared;
    let Joined { base, boxes, under } = joined;
    Connected {
        base,
        new: Fresh {
            boxes,
            selves,
            under,
            same,
            cover,
        },
        down,
    }
}

impl<G: Tools> Step<Letter, Body, Covered<G>, Connected<G>, Bridge> for ToBelowStep<G> {
    ghost label = { bridged_to_below.label };

    ghost visits = { bridged_to_below.visits };

    ghost says = { bridged_to_below.says };

    ghost wrap = { Bridged };

    ghost gives = { λ w r out. Some out ≡ (new_part w r).cover };

    ghost after = { bridged_to_below.after };

    ghost keeps = { λ k w r. ⟦<Covered<G> as Part>⟧.holds k.covered w r };

    ghost sure = { ⊥ };

    fn label(input: &Covered<G>) -> Label {
        input.meeting.compared.joined.base.label(11, 3)
    }

    fn visits(input: &Covered<G>) -> bool {
        let base = &input.meeting.compared.joined.base;
        base.level() > 0 && base.step() > 0
    }

    fn skip(_alloc: Global, input: Covered<G>) -> Result<Connected<G>, NoMemory> {
        Ok(connected(input, None))
    }

    fn begin(alloc: Global, input: Covered<G>) -> Result<Begun<Bridge, Self>, NoMemory> {
        let stage = to_below(alloc, &input.meeting.compared.joined)?;
        Ok(Begun {
            stage,
            kept: ToBelowStep { covered: input },
        })
    }

    fn end(self, _alloc: Global, given: Pair) -> Result<Connected<G>, NoMemory> {
        Ok(connected(self.covered, Some(given)))
    }

    ghost bodies = { λ run name body there. there };

    ghost same_ranks = { λ w. refl };
}
