//! The bridge from the new level to the old level of its number, by way of the level below.

ghost use Rattle.std.specs.Prelude.{◌≡◌, ℕ, suc, true, Some, refl, IfOk};
ghost use Rattle.samr_msg.specs.declared.body.Body.TheVariants.{Bridge as Bridged};
ghost use Rattle.samr_msg.specs.Places.{AtPass, old_above};
ghost use Rattle.samr_msg.specs.PassStops.{bridged_to_old, is_some_level};
ghost use Rattle.samr_wholes.specs.Bridges.{to_old};
ghost use Rattle.samr_regrid.specs.Making.{new_part};
ghost use Rattle.samr_regrid.specs.Ranks.{pair_at};

use crate::bridging::{bridge, down_of};
use crate::pairs::turned;
use crate::parts::{Compared, Joined};
use samr_bridge::Bridge;
use samr_level::Pair;
use samr_msg::{Body, Letter};
use samr_phase::{Begun, Part, Step};
use samr_regrid::{Base, Tools};
use samr_stage::{Label, Stage};
use std::alloc::{AllocError as NoMemory, Global};

/// What a rank keeps beside the stage.
#[derive(Drop)]
pub(crate) struct ToOldStep<G: Tools> {
    joined: Joined<G>,
}

/// The overlaps of the old level above with the level.
fn old_down<G: Tools>(base: &Base<G>) -> &Pair
    requires { (w : AtPass) × (r : ℕ) × ⟦<Base<G> as Part>⟧.holds base.now w r × (is_some_level (old_above w) ≡ true) }
    ensures { (w : AtPass) (r : ℕ) → ⟦<Base<G> as Part>⟧.holds base.now w r → is_some_level (old_above w) ≡ true
        → result.now ≡ pair_at w.at.setting.problem (old_above w) (suc w.pass.number) w.pass.level w.pass.number r }
{
    match base.old_above() {
        Some(level) => down_of(level),
        None => unreachable!(),
    }
}

/// The stage of a rank.
fn to_old<G: Tools>(alloc: Global, joined: &Joined<G>) -> Result<Bridge, NoMemory>
    requires { (w : AtPass) × (r : ℕ) × ⟦<Joined<G> as Part>⟧.holds joined.now w r × (is_some_level (old_above w) ≡ true) }
    ensures { IfOk result (λ stage. (w : AtPass) (r : ℕ) → ⟦<Joined<G> as Part>⟧.holds joined.now w r
        → is_some_level (old_above w) ≡ true → ⟦<Bridge as Stage>⟧.starts stage (to_old w.at.setting.problem w.pass (old_above w)) r) }
{
    let down = old_down(&joined.base);
    let west = turned(alloc, down)?;
    let stage = bridge(alloc, &joined.base, &joined.under, &west)?;
    Ok(stage)
}

impl<G: Tools> Step<Letter, Body, Joined<G>, Compared<G>, Bridge> for ToOldStep<G> {
    ghost label = { bridged_to_old.label };

    ghost visits = { bridged_to_old.visits };

    ghost says = { bridged_to_old.says };

    ghost wrap = { Bridged };

    ghost gives = { λ w r out. Some out ≡ (new_part w r).same };

    ghost after = { bridged_to_old.after };

    ghost keeps = { λ k w r. ⟦<Joined<G> as Part>⟧.holds k.joined w r };

    ghost sure = { ⊥ };

    fn label(input: &Joined<G>) -> Label {
        input.base.label(11, 0)
    }

    fn visits(input: &Joined<G>) -> bool {
        input.base.old_above().is_some()
    }

    fn skip(_alloc: Global, input: Joined<G>) -> Result<Compared<G>, NoMemory> {
        Ok(Compared {
            joined: input,
            same: None,
        })
    }

    fn begin(alloc: Global, input: Joined<G>) -> Result<Begun<Bridge, Self>, NoMemory> {
        let stage = to_old(alloc, &input)?;
        Ok(Begun {
            stage,
            kept: ToOldStep { joined: input },
        })
    }

    fn end(self, _alloc: Global, given: Pair) -> Result<Compared<G>, NoMemory> {
        Ok(Compared {
            joined: self.joined,
            same: Some(given),
        })
    }

    ghost bodies = { λ run name body there. there };

    ghost same_ranks = { λ w. refl };
}
