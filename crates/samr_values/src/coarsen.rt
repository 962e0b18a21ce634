//! The stage that gives a level the values of the finer one above it.

ghost use Rattle.std.specs.Prelude.{◌≡◌, ℕ, ◌<◌, ◌^◌, List, length, map, IfOk};
ghost use Rattle.std.specs.List.{All};
ghost use Rattle.samr_box.specs.declared.vector.IVec.{IVec as Cell};
ghost use Rattle.samr_box.specs.Vector.{IsRatio};
ghost use Rattle.samr_box.specs.Corners.{Corners};
ghost use Rattle.samr_box.specs.Lists.{Member};
ghost use Rattle.samr_stage.specs.declared.stage.Held.{Held};
ghost use Rattle.samr_stage.specs.Row.{heard, column};
ghost use Rattle.samr_level.specs.Refs.{Link};
ghost use Rattle.samr_peers.specs.PeerLaws.{heavy};
ghost use Rattle.samr_values.specs.Patches.{HaveFields, AreBased, poured};
ghost use Rattle.samr_values.specs.Parcels.{IsParcel, is_told, Tell};
ghost use Rattle.samr_values.specs.Coarsen.{Coarsening, IsRefinement, coarsened_patches};
ghost use Rattle.samr_values.specs.CoarsenRow.{coarsen_row};
ghost use Rattle.samr_values.specs.CoarsenParts.{HasFine, HasOwn, HasMerged};
ghost use Rattle.samr_values.specs.Merging.{merged_to, step_of, CanMerge, parcels_with};
ghost use Rattle.samr_values.specs.CoarsenLaws.{coarsen_between};

use crate::coarsened::poured_fields;
use crate::merging::{Merge, merged_to, merges_of};
use samr_box::{Listed, Ratio, coarsen_cell};
use samr_data::{Parcel, Patch};
use samr_level::{Edge, Pair};
use samr_ops::CoarsenRule;
use samr_peers::other_owners;
use samr_stage::{Held, Stage};
use std::alloc::{AllocError as NoMemory, Global};
use std::mem;

/// The values of a level under a finer one: the rank of a fine box merges its values and sends them to the owners of
/// the boxes under it, and each rank writes them into its patches.
#[derive(Drop)]
pub struct Coarsen {
    letters: Vec<(u16, Listed<Parcel>)>,
    own: Vec<Parcel>,
    senders: Vec<u16>,
    coarse: Listed<Listed<Patch>>,
}

/// How many fine cells lie along a coarse one.
fn step_of(pair: &Pair) -> Ratio
    requires { IsRatio (step_of pair.now) }
    ensures { result ≡ step_of pair.now }
{
    let step = coarsen_cell(pair.forth.base_ratio.factors(), pair.forth.head_ratio);
    match Ratio::new(step.i, step.j, step.k) {
        Some(ratio) => ratio,
        None => unreachable!(),
    }
}

/// What a rank sends to each of some others.
fn letters_to(
    alloc: Global,
    merges: &[Merge],
    fine: &[Listed<Patch>],
    edges: &[Edge],
    addressees: &[u16],
) -> Result<Vec<(u16, Listed<Parcel>)>, NoMemory>
    requires { CanMerge merges.now edges.now fine.now }
    ensures { IfOk result (λ v. (values : ℕ → Cell → ℕ) → HaveFields values fine.now
        → v.items ≡ map (λ to. (to, merged_to merges.now values edges.now to)) addressees.now) }
{
    let mut letters = Vec::new(alloc);
    'each: for to in addressees {
        let body = merged_to(alloc, merges, fine, edges, *to)?;
        letters.push((*to, Listed::from_vec(body)))?;
    }
    Ok(letters)
}

impl Coarsen {
    /// For a rank with these patches of its boxes of a fine level and of the level below, field by field and box by box in corner
    /// order, and these overlaps of the fine level with the other. Each field has a rule and a modulus.
    ///
    /// # Errors
    ///
    /// Where memory is short.
    pub fn start(
        alloc: Global,
        rank: u16,
        ranks: u16,
        pair: &Pair,
        fine: &[Listed<Patch>],
        coarse: Listed<Listed<Patch>>,
        rules: &[CoarsenRule],
        moduli: &[u32],
    ) -> Result<Coarsen, NoMemory>
        requires same { length rules.now ≡ length moduli.now }
        requires few { length rules.now < 2 ^ 8 }
        requires some { All (λ m. 0 < m) moduli.now }
        requires fields { length fine.now ≡ length rules.now }
        requires step { IsRatio (step_of pair.now) }
        requires based { AreBased pair.now.forth.edges fine.now }
        requires refinements { (e : Link) → Member e pair.now.forth.edges → IsRefinement (step_of pair.now) e.base.bx }
        ensures { IfOk result (λ stage. (w : Coarsening) (r : ℕ) → HasFine rank ranks pair.now fine.now coarse rules.now moduli.now w r
            → ⟦<Coarsen as Stage>⟧.starts stage w r) }
    {
        let edges = pair.forth.edges.as_slice();
        let merges = merges_of(alloc, rules, moduli, step_of(pair))?;
        let merges = merges.as_slice();
        let addressees = other_owners(alloc, rank, edges)?;
        Ok(Coarsen {
            letters: letters_to(alloc, merges, fine, edges, addressees.as_slice())?,
            own: merged_to(alloc, merges, fine, edges, rank)?,
            senders: other_owners(alloc, rank, pair.back.edges.as_slice())?,
            coarse,
        })
    }
}

impl Stage for Coarsen {
    type Body = Listed<Parcel>;

    type Out = Listed<Listed<Patch>>;

    ghost Whole = { Coarsening };

    ghost ranks_of = { λ w. w.ranks };

    ghost says = { coarsen_row };

    ghost gives = { λ w rank out. out ≡ coarsened_patches w rank };

    ghost weight_of = { λ _. 1 };

    ghost starts = { λ s w rank. HasMerged s.letters.items s.own.items s.senders.items s.coarse w rank };

    ghost waits = { λ s w rank. HasOwn s.own.items s.senders.items s.coarse w rank };

    fn letters(&mut self, alloc: Global) -> Result<Vec<(u16, Listed<Parcel>)>, NoMemory> {
        Ok(mem::replace(&mut self.letters, Vec::new(alloc)))
    }

    fn weight(&self, _body: &Listed<Parcel>) -> u64 {
        1
    }

    fn goal(&self) -> u64 {
        self.senders.len() as u64
    }

    fn finish(
        self,
        alloc: Global,
        held: Vec<Held<Listed<Parcel>>>,
    ) -> Result<Listed<Listed<Patch>>, NoMemory>
        requires { (w : Coarsening) × (rank : ℕ) × HasOwn self.own.items self.senders.items self.coarse w rank
            × (held.items ≡ heard (column (coarsen_row w) rank) w.ranks) }
        ensures { IfOk result (λ out. (w : Coarsening) (rank : ℕ) → HasOwn self.own.items self.senders.items self.coarse w rank
            → held.items ≡ heard (column (coarsen_row w) rank) w.ranks → out ≡ coarsened_patches w rank) }
    {
        let fields = poured_fields(
            alloc,
            self.coarse.into_vec(),
            self.own.as_slice(),
            held.as_slice(),
        )?;
        Ok(Listed::from_vec(fields))
    }

    ghost positive = { λ _ _ _ _ _. heavy };

    ghost between = { coarsen_between };
}
