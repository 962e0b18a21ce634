//! The bridge from the new level to itself, by way of the level below.

ghost use Rattle.std.specs.Prelude.{◌≡◌, ℕ, true, refl, IfOk};
ghost use Rattle.samr_msg.specs.declared.body.Body.TheVariants.{Bridge as Bridged};
ghost use Rattle.samr_msg.specs.Places.{AtPass};
ghost use Rattle.samr_msg.specs.PassStops.{bridged_to_itself};
ghost use Rattle.samr_wholes.specs.Bridges.{to_itself};
ghost use Rattle.samr_regrid.specs.Making.{new_part};

use crate::bridging::bridge;
use crate::pairs::turned;
use crate::parts::{Compared, Joined, Meeting};
use samr_bridge::Bridge;
use samr_level::Pair;
use samr_msg::{Body, Letter};
use samr_phase::{Begun, Part, Step};
use samr_regrid::Tools;
use samr_stage::{Label, Stage};
use std::alloc::{AllocError as NoMemory, Global};

/// What a rank keeps beside the stage.
#[derive(Drop)]
pub(crate) struct ToItselfStep<G: Tools> {
    compared: Compared<G>,
}

/// The stage of a rank.
fn to_itself<G: Tools>(alloc: Global, joined: &Joined<G>) -> Result<Bridge, NoMemory>
    requires { (w : AtPass) × (r : ℕ) × ⟦<Joined<G> as Part>⟧.holds joined.now w r }
    ensures { IfOk result (λ stage. (w : AtPass) (r : ℕ) → ⟦<Joined<G> as Part>⟧.holds joined.now w r
        → ⟦<Bridge as Stage>⟧.starts stage (to_itself w.at.setting.problem w.pass) r) }
{
    let west = turned(alloc, &joined.under)?;
    let stage = bridge(alloc, &joined.base, &joined.under, &west)?;
    Ok(stage)
}

impl<G: Tools> Step<Letter, Body, Compared<G>, Meeting<G>, Bridge> for ToItselfStep<G> {
    ghost label = { bridged_to_itself.label };

    ghost visits = { bridged_to_itself.visits };

    ghost says = { bridged_to_itself.says };

    ghost wrap = { Bridged };

    ghost gives = { λ w r out. out ≡ (new_part w r).selves };

    ghost after = { bridged_to_itself.after };

    ghost keeps = { λ k w r. ⟦<Compared<G> as Part>⟧.holds k.compared w r };

    ghost sure = { ⊥ };

    fn label(input: &Compared<G>) -> Label {
        input.joined.base.label(11, 1)
    }

    fn visits(_input: &Compared<G>) -> bool {
        true
    }

    fn skip(_alloc: Global, _input: Compared<G>) -> Result<Meeting<G>, NoMemory> {
        unreachable!()
    }

    fn begin(alloc: Global, input: Compared<G>) -> Result<Begun<Bridge, Self>, NoMemory> {
        let stage = to_itself(alloc, &input.joined)?;
        Ok(Begun {
            stage,
            kept: ToItselfStep { compared: input },
        })
    }

    fn end(self, _alloc: Global, given: Pair) -> Result<Meeting<G>, NoMemory> {
        Ok(Meeting {
            compared: self.compared,
            selves: given,
        })
    }

    ghost bodies = { λ run name body there. there };

    ghost same_ranks = { λ w. refl };
}
