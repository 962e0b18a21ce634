//! The stage of a linear fill.

ghost use Rattle.std.specs.Prelude.{◌≡◌, ◌++◌, ℕ, [], ◌∷◌, IfOk, OnOk};
ghost use Rattle.std.specs.List.{flat_map};
ghost use Rattle.samr_stage.specs.declared.stage.Held.{Held};
ghost use Rattle.samr_stage.specs.Row.{heard, column};
ghost use Rattle.samr_peers.specs.PeerLaws.{heavy};
ghost use Rattle.samr_linear.specs.LinearFill.{LinearFilling};
ghost use Rattle.samr_linear.specs.LinearFillParts.{HasPatches, linear_filled};
ghost use Rattle.samr_linear.specs.LinearFillRow.{linear_row};
ghost use Rattle.samr_linear.specs.Staging.{IsReady, HasLetters};
ghost use Rattle.samr_linear.specs.StageLaws.{linear_between};

use crate::filling::fill_field;
use crate::letters::{asked_of_itself, letters_for, ranks_of, united};
use crate::sending::parcels_for;
use crate::sorting::in_order;
use crate::stencil::{RefinesLinearly, Stencil};
use samr_box::Listed;
use samr_data::{Parcel, Patch};
use samr_ops::{Bounds, Refines, Strategy, Updates};
use samr_sched::Plan;
use samr_stage::{Held, Stage};
use std::alloc::{AllocError as NoMemory, Global};
use std::mem;

/// One field of a list.
fn one_field(alloc: Global, patches: Listed<Patch>) -> Result<Vec<Listed<Patch>>, NoMemory>
    ensures { IfOk result (λ v. v.items ≡ patches ∷ []) }
{
    let mut fields = Vec::new(alloc);
    fields.push(patches)?;
    Ok(fields)
}

/// All cells of all patches of a field of a level get their values, those over the level below by linear refinement: the
/// ranks tell each other what ghost cells have of their patches, and what was asked of the level below with one cell about.
#[derive(Drop)]
pub struct LinearFill<'a, R: Refines, B: Bounds, U: Updates, L: RefinesLinearly> {
    plan: Plan,
    fields: Listed<Listed<Patch>>,
    strategy: &'a Strategy<R, B, U>,
    stencil: &'a Stencil<L>,
    letters: Vec<(u16, Listed<Parcel>)>,
    parcels: Vec<Parcel>,
    senders: Vec<u16>,
}

impl<'a, R: Refines, B: Bounds, U: Updates, L: RefinesLinearly> LinearFill<'a, R, B, U, L> {
    /// For a rank with this plan for the field. `own` are its patches of the level by place in its part, and `coarser` those
    /// of the level below with all their values, ghost cells too.
    ///
    /// # Errors
    ///
    /// Where memory is short.
    pub fn start(
        alloc: Global,
        rank: u16,
        ranks: u16,
        plan: &Plan,
        own: Listed<Patch>,
        coarser: &[Patch],
        strategy: &'a Strategy<R, B, U>,
        stencil: &'a Stencil<L>,
    ) -> Result<LinearFill<'a, R, B, U, L>, NoMemory>
        ensures { IfOk result (λ stage. (w : LinearFilling) (r : ℕ) → HasPatches rank ranks plan.now own coarser.now strategy.now stencil.now w r
            → ⟦<LinearFill<'a, R, B, U, L> as Stage>⟧.starts stage w r) }
    {
        let real = stencil.real();
        let fields = one_field(alloc, own)?;
        let asking = ranks_of(alloc, plan.others.as_slice())?;
        let addressees = united(alloc, plan.near.as_slice(), asking.as_slice())?;
        let letters = letters_for(
            alloc,
            plan,
            real,
            fields.as_slice(),
            coarser,
            addressees.as_slice(),
        )?;
        let requests = asked_of_itself(alloc, rank, plan.boxes.as_slice())?;
        let parcels = parcels_for(
            alloc,
            plan,
            real,
            fields.as_slice(),
            coarser,
            rank,
            requests.as_slice(),
        )?;
        let senders = united(alloc, plan.near.as_slice(), plan.under.as_slice())?;
        Ok(LinearFill {
            plan: plan.copied(alloc)?,
            fields: Listed::from_vec(fields),
            strategy,
            stencil,
            letters,
            parcels,
            senders,
        })
    }
}

/// Adds parcels.
fn push_parcels(parcels: &mut Vec<Parcel>, more: Vec<Parcel>) -> Result<(), NoMemory>
    ensures { OnOk result (parcels.new.items ≡ parcels.old.items ++ more.items) }
{
    for parcel in more {
        parcels.push(parcel)?;
    }
    Ok(())
}

/// Parcels, and those of letters.
fn all_parcels(own: Vec<Parcel>, held: Vec<Held<Listed<Parcel>>>) -> Result<Vec<Parcel>, NoMemory>
    ensures { IfOk result (λ v. v.items ≡ own.items ++ flat_map (λ letter. letter.body) held.items) }
{
    let mut all = own;
    for letter in held {
        push_parcels(&mut all, letter.body.into_vec())?;
    }
    Ok(all)
}

impl<'a, R: Refines, B: Bounds, U: Updates, L: RefinesLinearly> Stage
    for LinearFill<'a, R, B, U, L> {
    type Body = Listed<Parcel>;

    type Out = Listed<Patch>;

    ghost Whole = { LinearFilling };

    ghost ranks_of = { λ w. w.filling.schedule.ranks };

    ghost says = { linear_row };

    ghost gives = { λ w rank out. out ≡ linear_filled w rank };

    ghost weight_of = { λ _. 1 };

    ghost starts = { λ s w rank. HasLetters s.plan s.fields s.strategy.now s.stencil.now s.letters.items s.parcels.items s.senders.items w rank };

    ghost waits = { λ s w rank. IsReady s.plan s.fields s.strategy.now s.stencil.now s.parcels.items s.senders.items w rank };

    fn letters(&mut self, alloc: Global) -> Result<Vec<(u16, Listed<Parcel>)>, NoMemory> {
        Ok(mem::replace(&mut self.letters, Vec::new(alloc)))
    }

    fn weight(&self, _body: &Listed<Parcel>) -> u64 {
        1
    }

    fn goal(&self) -> u64 {
        self.senders.len() as u64
    }

    fn finish(
        self,
        alloc: Global,
        held: Vec<Held<Listed<Parcel>>>,
    ) -> Result<Listed<Patch>, NoMemory>
        requires { (w : LinearFilling) × (rank : ℕ) × IsReady self.plan self.fields self.strategy.now self.stencil.now self.parcels.items self.senders.items w rank
            × (held.items ≡ heard (column (linear_row w) rank) w.filling.schedule.ranks) }
        ensures { IfOk result (λ out. (w : LinearFilling) (rank : ℕ)
            → IsReady self.entry.plan self.entry.fields self.entry.strategy.now self.entry.stencil.now self.entry.parcels.items self.entry.senders.items w rank
            → held.items ≡ heard (column (linear_row w) rank) w.filling.schedule.ranks → out ≡ linear_filled w rank) }
    {
        let parcels = all_parcels(self.parcels, held)?;
        let all = in_order(parcels);
        let fields = self.fields.as_slice();
        let patches = &fields[0];
        let done = fill_field(
            alloc,
            &self.plan,
            patches.as_slice(),
            all.as_slice(),
            self.strategy,
            self.stencil,
            self.stencil.real(),
        )?;
        Ok(Listed::from_vec(done))
    }

    ghost positive = { λ _ _ _ _ _. heavy };

    ghost between = { linear_between };
}
