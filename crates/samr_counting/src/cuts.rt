//! The nest cuts that a rank makes by itself before the count.

ghost use Rattle.std.specs.Prelude.{◌≡◌, ℕ, refl, IfOk};
ghost use Rattle.samr_modify.specs.Entries.{moves_of};
ghost use Rattle.samr_modify.specs.Modify.{old_pair};
ghost use Rattle.samr_mesh.specs.Passes.{cuts_of};
ghost use Rattle.samr_wholes.specs.Wholes.{modifying};
ghost use Rattle.samr_msg.specs.Places.{AtPass};
ghost use Rattle.samr_counting.specs.Cutting.{IsKnife};

use crate::cutting::{Knife, own_cuts};
use samr_box::Listed;
use samr_level::{Move, Pair};
use samr_phase::{Making, Part};
use samr_regrid::{Base, Clustered, Cut, Tools};
use std::alloc::{AllocError as NoMemory, Global};

/// Makes the cuts.
pub struct Cuts {}

impl<G: Tools> Making<Clustered<G>, Cut<G>> for Cuts {
    ghost after = { λ w. w };

    ghost sure = { ⊥ };

    fn make(alloc: Global, input: Clustered<G>) -> Result<Cut<G>, NoMemory> {
        let Clustered { base, clusters } = input;
        let cuts = cuts_by(alloc, &base, &clusters)?;
        Ok(Cut {
            base,
            clusters,
            cuts,
        })
    }

    ghost same_ranks = { λ w. refl };
}

/// What the nest cut leaves of each cluster of a rank.
fn cuts_by<G: Tools>(
    alloc: Global,
    base: &Base<G>,
    clusters: &Pair,
) -> Result<Listed<Move>, NoMemory>
    requires { (w : AtPass) × (r : ℕ) × ⟦<Base<G> as Part>⟧.holds base.now w r × (clusters.now ≡ old_pair (modifying w.at.setting.problem w.pass) r) }
    ensures { IfOk result (λ v. (w : AtPass) (r : ℕ) → ⟦<Base<G> as Part>⟧.holds base.now w r
        → clusters.now ≡ old_pair (modifying w.at.setting.problem w.pass) r → v ≡ moves_of r (cuts_of w.at.setting.problem w.pass)) }
{
    let knife = knife_of(alloc, base)?;
    let cuts = own_cuts(alloc, clusters.back.edges.as_slice(), &knife)?;
    Ok(Listed::from_vec(cuts))
}

/// How the clusters of the level are cut.
fn knife_of<G: Tools>(alloc: Global, base: &Base<G>) -> Result<Knife, NoMemory>
    requires { (w : AtPass) × (r : ℕ) × ⟦<Base<G> as Part>⟧.holds base.now w r }
    ensures { IfOk result (λ knife. (w : AtPass) (r : ℕ) → ⟦<Base<G> as Part>⟧.holds base.now w r → IsKnife knife.region knife.nest knife.largest w) }
{
    let region = base.region(alloc)?;
    Ok(Knife {
        region,
        nest: base.nest(),
        largest: base.largest(),
    })
}
