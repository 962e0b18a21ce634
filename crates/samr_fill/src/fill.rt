//! The stage of a fill.

ghost use Rattle.std.specs.Prelude.{◌≡◌, ◌++◌, ℕ, ◌<◌, ◌^◌, length, IfOk, OnOk};
ghost use Rattle.std.specs.List.{flat_map};
ghost use Rattle.samr_stage.specs.declared.stage.Held.{Held};
ghost use Rattle.samr_stage.specs.Row.{heard, column};
ghost use Rattle.samr_peers.specs.PeerLaws.{heavy};
ghost use Rattle.samr_fill.specs.Fill.{Filling};
ghost use Rattle.samr_fill.specs.FillParts.{HasPatches, filled};
ghost use Rattle.samr_fill.specs.FillRow.{fill_row};
ghost use Rattle.samr_fill.specs.Staging.{IsReady, HasLetters};
ghost use Rattle.samr_fill.specs.StageLaws.{fill_between};

use crate::filling::fill_fields;
use crate::letters::{asked_of_itself, letters_for, ranks_of, united};
use crate::sending::parcels_for;
use crate::sorting::in_order;
use samr_box::Listed;
use samr_data::{Parcel, Patch};
use samr_ops::{Bounds, Refines, Strategy, Updates};
use samr_sched::Plan;
use samr_stage::{Held, Stage};
use std::alloc::{AllocError as NoMemory, Global};
use std::mem;

/// All cells of all patches of a level get their values: the ranks tell each other what ghost cells have of
/// their patches, of the level and of the one below it.
#[derive(Drop)]
pub struct Fill<'a, R: Refines, B: Bounds, U: Updates> {
    plan: Plan,
    own: Listed<Listed<Patch>>,
    strategies: &'a [Strategy<R, B, U>],
    letters: Vec<(u16, Listed<Parcel>)>,
    parcels: Vec<Parcel>,
    senders: Vec<u16>,
}

impl<'a, R: Refines, B: Bounds, U: Updates> Fill<'a, R, B, U> {
    /// For a rank with this plan. `own` are its patches of the level, by field and then by place in its part of the
    /// level, and `coarser` those of the level below; where that has no boxes, `coarser` may have no fields.
    ///
    /// # Errors
    ///
    /// Where memory is short.
    pub fn start(
        alloc: Global,
        rank: u16,
        ranks: u16,
        plan: &Plan,
        own: Listed<Listed<Patch>>,
        coarser: &[Listed<Patch>],
        strategies: &'a [Strategy<R, B, U>],
    ) -> Result<Fill<'a, R, B, U>, NoMemory>
        requires few { length own < 2 ^ 8 }
        ensures { IfOk result (λ stage. (w : Filling) (r : ℕ) → HasPatches rank ranks plan.now own coarser.now strategies.now w r
            → ⟦<Fill<'a, R, B, U> as Stage>⟧.starts stage w r) }
    {
        let asking = ranks_of(alloc, plan.others.as_slice())?;
        let addressees = united(alloc, plan.near.as_slice(), asking.as_slice())?;
        let letters = letters_for(alloc, plan, own.as_slice(), coarser, addressees.as_slice())?;
        let requests = asked_of_itself(alloc, rank, plan.boxes.as_slice())?;
        let parcels = parcels_for(
            alloc,
            plan,
            own.as_slice(),
            coarser,
            rank,
            requests.as_slice(),
        )?;
        let senders = united(alloc, plan.near.as_slice(), plan.under.as_slice())?;
        Ok(Fill {
            plan: plan.copied(alloc)?,
            own,
            strategies,
            letters,
            parcels,
            senders,
        })
    }
}

/// Adds parcels.
fn push_parcels(parcels: &mut Vec<Parcel>, more: Vec<Parcel>) -> Result<(), NoMemory>
    ensures { OnOk result (parcels.new.items ≡ parcels.old.items ++ more.items) }
{
    for parcel in more {
        parcels.push(parcel)?;
    }
    Ok(())
}

/// Parcels, and those of letters.
fn all_parcels(own: Vec<Parcel>, held: Vec<Held<Listed<Parcel>>>) -> Result<Vec<Parcel>, NoMemory>
    ensures { IfOk result (λ v. v.items ≡ own.items ++ flat_map (λ letter. letter.body) held.items) }
{
    let mut all = own;
    for letter in held {
        push_parcels(&mut all, letter.body.into_vec())?;
    }
    Ok(all)
}

impl<'a, R: Refines, B: Bounds, U: Updates> Stage for Fill<'a, R, B, U> {
    type Body = Listed<Parcel>;

    type Out = Listed<Listed<Patch>>;

    ghost Whole = { Filling };

    ghost ranks_of = { λ w. w.schedule.ranks };

    ghost says = { fill_row };

    ghost gives = { λ w rank out. out ≡ filled w rank };

    ghost weight_of = { λ _. 1 };

    ghost starts = { λ s w rank. HasLetters s.plan s.own s.strategies.now s.letters.items s.parcels.items s.senders.items w rank };

    ghost waits = { λ s w rank. IsReady s.plan s.own s.strategies.now s.parcels.items s.senders.items w rank };

    fn letters(&mut self, alloc: Global) -> Result<Vec<(u16, Listed<Parcel>)>, NoMemory> {
        Ok(mem::replace(&mut self.letters, Vec::new(alloc)))
    }

    fn weight(&self, _body: &Listed<Parcel>) -> u64 {
        1
    }

    fn goal(&self) -> u64 {
        self.senders.len() as u64
    }

    fn finish(
        self,
        alloc: Global,
        held: Vec<Held<Listed<Parcel>>>,
    ) -> Result<Listed<Listed<Patch>>, NoMemory>
        requires { (w : Filling) × (rank : ℕ) × IsReady self.plan self.own self.strategies.now self.parcels.items self.senders.items w rank
            × (held.items ≡ heard (column (fill_row w) rank) w.schedule.ranks) }
        ensures { IfOk result (λ out. (w : Filling) (rank : ℕ)
            → IsReady self.entry.plan self.entry.own self.entry.strategies.now self.entry.parcels.items self.entry.senders.items w rank
            → held.items ≡ heard (column (fill_row w) rank) w.schedule.ranks → out ≡ filled w rank) }
    {
        let parcels = all_parcels(self.parcels, held)?;
        let all = in_order(parcels);
        let done = fill_fields(
            alloc,
            &self.plan,
            self.own.as_slice(),
            all.as_slice(),
            self.strategies,
        )?;
        Ok(Listed::from_vec(done))
    }

    ghost positive = { λ _ _ _ _ _. heavy };

    ghost between = { fill_between };
}
