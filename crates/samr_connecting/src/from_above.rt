//! The bridge from the new level two above to the new level, by way of the old level of its number.

ghost use Rattle.std.specs.Prelude.{◌≡◌, ℕ, suc, true, Some, IsSome, refl, IfOk};
ghost use Rattle.samr_msg.specs.declared.body.Body.TheVariants.{Bridge as Bridged};
ghost use Rattle.samr_msg.specs.Places.{AtPass, old_above};
ghost use Rattle.samr_msg.specs.PassStops.{bridged_from_above, is_some_level};
ghost use Rattle.samr_wholes.specs.Bridges.{from_above};
ghost use Rattle.samr_regrid.specs.Making.{above_down};
ghost use Rattle.samr_regrid.specs.Ranks.{pair_at};

use crate::bridging::bridge;
use crate::pairs::turned;
use crate::parts::{Compared, Covered, Meeting};
use samr_bridge::Bridge;
use samr_level::Pair;
use samr_msg::{Body, Letter};
use samr_phase::{Begun, Part, Step};
use samr_regrid::{Base, Tools};
use samr_stage::{Label, Stage};
use std::alloc::{AllocError as NoMemory, Global};

/// What a rank keeps beside the stage.
#[derive(Drop)]
pub(crate) struct FromAboveStep<G: Tools> {
    meeting: Meeting<G>,
}

/// The overlaps of the new level two above with the old level below it.
fn above_under<G: Tools>(base: &Base<G>) -> &Pair
    requires { (w : AtPass) × (r : ℕ) × ⟦<Base<G> as Part>⟧.holds base.now w r × (is_some_level w.pass.above ≡ true) }
    ensures { (w : AtPass) (r : ℕ) → ⟦<Base<G> as Part>⟧.holds base.now w r → is_some_level w.pass.above ≡ true
        → result.now ≡ pair_at w.at.setting.problem w.pass.above (suc (suc w.pass.number)) (old_above w) (suc w.pass.number) r }
{
    match base.above() {
        Some(above) => &above.under,
        None => unreachable!(),
    }
}

/// The overlaps of the new level with the old level of its number.
fn same_of<G: Tools>(compared: &Compared<G>) -> &Pair
    requires { IsSome compared.now.same }
    ensures { compared.now.same ≡ Some result.now }
{
    match &compared.same {
        Some(same) => same,
        None => unreachable!(),
    }
}

/// The stage of a rank.
fn from_above<G: Tools>(alloc: Global, compared: &Compared<G>) -> Result<Bridge, NoMemory>
    requires { (w : AtPass) × (r : ℕ) × ⟦<Compared<G> as Part>⟧.holds compared.now w r × (is_some_level w.pass.above ≡ true) }
    ensures { IfOk result (λ stage. (w : AtPass) (r : ℕ) → ⟦<Compared<G> as Part>⟧.holds compared.now w r
        → is_some_level w.pass.above ≡ true → ⟦<Bridge as Stage>⟧.starts stage (from_above w.at.setting.problem w.pass (old_above w)) r) }
{
    let same = same_of(compared);
    let west = turned(alloc, same)?;
    let base = &compared.joined.base;
    let east = above_under(base);
    let stage = bridge(alloc, base, east, &west)?;
    Ok(stage)
}

impl<G: Tools> Step<Letter, Body, Meeting<G>, Covered<G>, Bridge> for FromAboveStep<G> {
    ghost label = { bridged_from_above.label };

    ghost visits = { bridged_from_above.visits };

    ghost says = { bridged_from_above.says };

    ghost wrap = { Bridged };

    ghost gives = { λ w r out. Some out ≡ above_down w r };

    ghost after = { bridged_from_above.after };

    ghost keeps = { λ k w r. ⟦<Meeting<G> as Part>⟧.holds k.meeting w r };

    ghost sure = { ⊥ };

    fn label(input: &Meeting<G>) -> Label {
        input.compared.joined.base.label(11, 2)
    }

    fn visits(input: &Meeting<G>) -> bool {
        input.compared.joined.base.above().is_some()
    }

    fn skip(_alloc: Global, input: Meeting<G>) -> Result<Covered<G>, NoMemory> {
        Ok(Covered {
            meeting: input,
            down: None,
        })
    }

    fn begin(alloc: Global, input: Meeting<G>) -> Result<Begun<Bridge, Self>, NoMemory> {
        let stage = from_above(alloc, &input.compared)?;
        Ok(Begun {
            stage,
            kept: FromAboveStep { meeting: input },
        })
    }

    fn end(self, _alloc: Global, given: Pair) -> Result<Covered<G>, NoMemory> {
        Ok(Covered {
            meeting: self.meeting,
            down: Some(given),
        })
    }

    ghost bodies = { λ run name body there. there };

    ghost same_ranks = { λ w. refl };
}
