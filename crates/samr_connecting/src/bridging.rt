//! The stage of any of the bridges of a pass.

ghost use Rattle.std.specs.Prelude.{◌≡◌, ℕ, Some, IsSome, IfOk};
ghost use Rattle.samr_box.specs.Vector.{greatest};
ghost use Rattle.samr_box.specs.Space.{IsSpace, finer};
ghost use Rattle.samr_bridge.specs.Bridge.{Bridging};
ghost use Rattle.samr_mesh.specs.Domains.{area_of};
ghost use Rattle.samr_msg.specs.Places.{AtPass};
ghost use Rattle.samr_connecting.specs.Joining.{HasSides};

use samr_bridge::Bridge;
use samr_level::Pair;
use samr_phase::Part;
use samr_regrid::{Base, Level, Tools};
use samr_stage::Stage;
use std::alloc::{AllocError as NoMemory, Global};

/// The stage of a rank that has the pairs of east and centre, and of centre and west.
pub(crate) fn bridge<G: Tools>(
    alloc: Global,
    base: &Base<G>,
    east: &Pair,
    west: &Pair,
) -> Result<Bridge, NoMemory>
    requires { (w : AtPass) × (r : ℕ) × ⟦<Base<G> as Part>⟧.holds base.now w r
        × IsSpace (finer (area_of w.at.setting.problem).frame (greatest east.now.forth.base_ratio west.now.forth.head_ratio)) }
    ensures { IfOk result (λ stage. (w : AtPass) (r : ℕ) (b : Bridging) → ⟦<Base<G> as Part>⟧.holds base.now w r
        → HasSides east.now west.now w r b → ⟦<Bridge as Stage>⟧.starts stage b r) }
{
    let stage = Bridge::start(
        alloc,
        base.rank(),
        base.ranks(),
        &base.frame(),
        east,
        west,
        base.width(),
    )?;
    Ok(stage)
}

/// The overlaps of a level with the one below it.
pub(crate) fn down_of(level: &Level) -> &Pair
    requires { IsSome level.now.down }
    ensures { level.now.down ≡ Some result.now }
{
    match &level.down {
        Some(down) => down,
        None => unreachable!(),
    }
}
