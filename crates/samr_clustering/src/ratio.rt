//! The ratio of a level.

ghost use Rattle.std.specs.Prelude.{◌≡◌, ℕ};
ghost use Rattle.samr_mesh.specs.Domains.{ratio_to};
ghost use Rattle.samr_msg.specs.Places.{AtPass};

use samr_box::Ratio;
use samr_phase::Part;
use samr_regrid::{Base, Tools};

/// The ratio from level 0 to the level of a pass.
pub fn ratio_of<G: Tools>(base: &Base<G>) -> Ratio
    requires { (w : AtPass) × (r : ℕ) × ⟦<Base<G> as Part>⟧.holds base.now w r }
    ensures { (w : AtPass) (r : ℕ) → ⟦<Base<G> as Part>⟧.holds base.now w r → result ≡ ratio_to w.at.setting.problem w.pass.number }
{
    base.old().selves.forth.base_ratio
}
