//! Where a rank is in the tree of the ranks of a pass.

ghost use Rattle.std.specs.Prelude.{◌≡◌, ℕ, ◌+◌, ◌<◌, ◌^◌, nat_lt, if◌then◌else◌};
ghost use Rattle.samr_tree.specs.TreeSum.{rounds_up, rounds_down, goes_up as wanted_up, goes_down as wanted_down};
ghost use Rattle.samr_msg.specs.Places.{AtPass};
ghost use Rattle.samr_msg.specs.PassStops.{loads_of};

use crate::turns::{goes_down, goes_up};
use samr_phase::Part;
use samr_regrid::{Base, Tools};
use samr_tree::height;

/// In how many rounds the sum goes down the tree; it takes one more up.
pub fn height_of<G: Tools>(base: &Base<G>) -> u32
    requires { (w : AtPass) × (r : ℕ) × ⟦<Base<G> as Part>⟧.holds base.now w r }
    ensures down { (w : AtPass) (r : ℕ) → ⟦<Base<G> as Part>⟧.holds base.now w r → result ≡ rounds_down (loads_of w) }
    ensures up { (w : AtPass) (r : ℕ) → ⟦<Base<G> as Part>⟧.holds base.now w r → result + 1 ≡ rounds_up (loads_of w) }
    ensures small { result + 1 < 2 ^ 32 }
{
    height(base.ranks())
}

/// Whether the rank visits a round up the tree.
pub fn climbs<G: Tools>(base: &Base<G>, round: u32) -> bool
    requires { (w : AtPass) × (r : ℕ) × ⟦<Base<G> as Part>⟧.holds base.now w r }
    ensures { (w : AtPass) (r : ℕ) → ⟦<Base<G> as Part>⟧.holds base.now w r → result ≡ wanted_up w.pass.ranks round r }
{
    goes_up(base.rank(), base.ranks(), round)
}

/// Whether the rank visits a round down the tree.
pub fn falls<G: Tools>(base: &Base<G>, round: u32) -> bool
    requires { (w : AtPass) × (r : ℕ) × ⟦<Base<G> as Part>⟧.holds base.now w r }
    ensures { (w : AtPass) (r : ℕ) → ⟦<Base<G> as Part>⟧.holds base.now w r → result ≡ wanted_down w.pass.ranks round r }
{
    goes_down(base.rank(), base.ranks(), round)
}

/// What rank 0 has, and nothing elsewhere.
pub fn at_root<G: Tools>(base: &Base<G>, number: u64) -> u64
    ensures { (w : AtPass) (r : ℕ) → ⟦<Base<G> as Part>⟧.holds base.now w r → result ≡ (if nat_lt 0 r then 0 else number) }
{
    if base.rank() > 0 { 0 } else { number }
}
