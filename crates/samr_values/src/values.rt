//! The stage that gives a new level its values.

ghost use Rattle.std.specs.Prelude.{◌≡◌, ℕ, ◌++◌, ◌<◌, [], IfOk, length, map};
ghost use Rattle.std.specs.List.{All, flat_map};
ghost use Rattle.std.specs.Option.{option_map};
ghost use Rattle.samr_box.specs.declared.vector.IVec.{IVec as Cell};
ghost use Rattle.samr_stage.specs.declared.stage.Held.{Held};
ghost use Rattle.samr_stage.specs.Row.{heard, column};
ghost use Rattle.samr_peers.specs.PeerLaws.{heavy};
ghost use Rattle.samr_values.specs.Patches.{HaveFields, AreBased, HaveNumber};
ghost use Rattle.samr_values.specs.Values.{Renewing, renewed};
ghost use Rattle.samr_values.specs.ValuesRow.{values_row, parcels_by};
ghost use Rattle.samr_values.specs.ValuesParts.{HasOld, HasEdges, HasPacked, Waits};
ghost use Rattle.samr_values.specs.OldLevelEdges.{back_edges};
ghost use Rattle.samr_values.specs.StageLaws.{values_between};

use crate::renewing::renewed_fields;
use crate::sending::parcels_for;
use samr_box::{IBox, Listed, Ratio};
use samr_data::{Parcel, Patch};
use samr_level::{Edge, Pair};
use samr_ops::{Bounds, Refines, Strategy, Updates};
use samr_peers::other_owners;
use samr_stage::{Held, Stage};
use std::alloc::{AllocError as NoMemory, Global};
use std::mem;

/// The values of a new level: the ranks of old boxes, of the level's number and of the level below, send theirs
/// to the ranks of new boxes.
#[derive(Drop)]
pub struct Values<'a, R: Refines, B: Bounds, U: Updates> {
    rank: u16,
    step: Ratio,
    boxes: Vec<IBox>,
    letters: Vec<(u16, Listed<Parcel>)>,
    own: Vec<Parcel>,
    senders: Vec<u16>,
    strategies: &'a [Strategy<R, B, U>],
}

/// Two lists of edges as one.
fn joined(alloc: Global, first: &[Edge], second: &[Edge]) -> Result<Vec<Edge>, NoMemory>
    ensures { IfOk result (λ v. v.items ≡ first.now ++ second.now) }
{
    let mut all = Vec::from_slice(alloc, first)?;
    all.extend_from_slice(second)?;
    Ok(all)
}

/// All parcels: own ones, and those of the letters.
fn gathered(
    alloc: Global,
    own: Vec<Parcel>,
    held: Vec<Held<Listed<Parcel>>>,
) -> Result<Vec<Parcel>, NoMemory>
    ensures { IfOk result (λ v. v.items ≡ own.items ++ flat_map (λ letter. letter.body) held.items) }
{
    let mut all = own;
    'each: for letter in held {
        let mut more = letter.body.into_vec();
        all.append(&mut more)?;
    }
    Ok(all)
}

/// The letters to some ranks.
fn letters_for(
    alloc: Global,
    addressees: &[u16],
    step: Ratio,
    olds: &[Edge],
    coarser: &[Edge],
    patches: &[Listed<Patch>],
    coarse_patches: &[Listed<Patch>],
) -> Result<Vec<(u16, Listed<Parcel>)>, NoMemory>
    requires few { length patches.now < 256 }
    requires same { length patches.now ≡ length coarse_patches.now }
    requires based { AreBased olds.now patches.now }
    requires coarse_based { AreBased coarser.now coarse_patches.now }
    ensures { IfOk result (λ v. (values coarse_values : ℕ → Cell → ℕ) → HaveFields values patches.now → HaveFields coarse_values coarse_patches.now
        → v.items ≡ map (λ to. (to, parcels_by step values coarse_values olds.now coarser.now (length patches.now) to)) addressees.now) }
{
    let mut letters = Vec::new(alloc);
    'each: for to in addressees {
        let body = parcels_for(alloc, *to, step, olds, coarser, patches, coarse_patches)?;
        letters.push((*to, Listed::from_vec(body)))?;
    }
    Ok(letters)
}

/// Fields without patches.
fn empty_fields(alloc: Global, count: usize) -> Result<Vec<Listed<Patch>>, NoMemory>
    ensures count { IfOk result (λ v. length v.items ≡ count) }
    ensures empty { IfOk result (λ v. All (λ field. field ≡ []) v.items) }
{
    let mut fields = Vec::new(alloc);
    'each: for _field in 0..count {
        fields.push(Listed::new(alloc))?;
    }
    Ok(fields)
}

/// The first list, where it has members; else the second.
fn either<'b>(some: &'b [Listed<Patch>], none: &'b [Listed<Patch>]) -> &'b [Listed<Patch>]
    ensures some { 0 < length some.now → result.now ≡ some.now }
    ensures none { some.now ≡ [] → result.now ≡ none.now }
{
    if some.is_empty() {
        return none;
    }
    some
}

impl<'a, R: Refines, B: Bounds, U: Updates> Values<'a, R, B, U> {
    /// For a rank with these boxes of a new level, these overlaps of it with the old level of its number, where there was one, and
    /// with the level below, from which `step` leads to the new one. It has these patches of the old level and of the one below, field
    /// by field and box by box in corner order; where there was no old level, its patches of it may have no fields. Each field has a
    /// strategy.
    ///
    /// # Errors
    ///
    /// Where memory is short.
    pub fn start(
        alloc: Global,
        rank: u16,
        news: &[IBox],
        same: Option<&Pair>,
        coarser: &Pair,
        step: Ratio,
        patches: &[Listed<Patch>],
        coarse_patches: &[Listed<Patch>],
        strategies: &'a [Strategy<R, B, U>],
    ) -> Result<Values<'a, R, B, U>, NoMemory>
        requires few { length strategies.now < 256 }
        requires fields { HaveNumber (back_edges (option_map (λ p. p.now) same)) patches.now (length strategies.now) }
        requires coarse_fields { length coarse_patches.now ≡ length strategies.now }
        requires based { AreBased (back_edges (option_map (λ p. p.now) same)) patches.now }
        requires coarse_based { AreBased coarser.now.back.edges coarse_patches.now }
        ensures { IfOk result (λ stage. (w : Renewing) (r : ℕ)
            → HasOld rank news.now (option_map (λ p. p.now) same.entry) coarser.now step patches.now coarse_patches.now strategies.now w r
            → ⟦<Values<'a, R, B, U> as Stage>⟧.starts stage w r) }
    {
        let none = empty_fields(alloc, strategies.len())?;
        let olds = either(patches, none.as_slice());
        let stage = Values::begun(
            alloc,
            rank,
            news,
            same,
            coarser,
            step,
            olds,
            coarse_patches,
            strategies,
        )?;
        Ok(stage)
    }

    /// The same where the old patches have all fields.
    fn begun(
        alloc: Global,
        rank: u16,
        news: &[IBox],
        same: Option<&Pair>,
        coarser: &Pair,
        step: Ratio,
        patches: &[Listed<Patch>],
        coarse_patches: &[Listed<Patch>],
        strategies: &'a [Strategy<R, B, U>],
    ) -> Result<Values<'a, R, B, U>, NoMemory>
        requires few { length strategies.now < 256 }
        requires fields { length patches.now ≡ length strategies.now }
        requires coarse_fields { length coarse_patches.now ≡ length strategies.now }
        requires based { AreBased (back_edges (option_map (λ p. p.now) same)) patches.now }
        requires coarse_based { AreBased coarser.now.back.edges coarse_patches.now }
        ensures { IfOk result (λ stage. (w : Renewing) (r : ℕ)
            → HasOld rank news.now (option_map (λ p. p.now) same.entry) coarser.now step patches.now coarse_patches.now strategies.now w r
            → ⟦<Values<'a, R, B, U> as Stage>⟧.starts stage w r) }
    {
        match same {
            Some(pair) => {
                let stage = made(
                    alloc,
                    rank,
                    news,
                    pair.forth.edges.as_slice(),
                    pair.back.edges.as_slice(),
                    coarser.forth.edges.as_slice(),
                    coarser.back.edges.as_slice(),
                    step,
                    patches,
                    coarse_patches,
                    strategies,
                )?;
                Ok(stage)
            }
            None => {
                let none: Vec<Edge> = Vec::new(alloc);
                let stage = made(
                    alloc,
                    rank,
                    news,
                    none.as_slice(),
                    none.as_slice(),
                    coarser.forth.edges.as_slice(),
                    coarser.back.edges.as_slice(),
                    step,
                    patches,
                    coarse_patches,
                    strategies,
                )?;
                Ok(stage)
            }
        }
    }
}

/// The stage of a rank with these edges to the old level and back, and to the level below and back.
fn made<'a, R: Refines, B: Bounds, U: Updates>(
    alloc: Global,
    rank: u16,
    news: &[IBox],
    olds: &[Edge],
    old_back: &[Edge],
    coarser: &[Edge],
    coarse_back: &[Edge],
    step: Ratio,
    patches: &[Listed<Patch>],
    coarse_patches: &[Listed<Patch>],
    strategies: &'a [Strategy<R, B, U>],
) -> Result<Values<'a, R, B, U>, NoMemory>
    requires few { length strategies.now < 256 }
    requires fields { length patches.now ≡ length strategies.now }
    requires coarse_fields { length coarse_patches.now ≡ length strategies.now }
    requires based { AreBased old_back.now patches.now }
    requires coarse_based { AreBased coarse_back.now coarse_patches.now }
    ensures { IfOk result (λ s. (w : Renewing) (r : ℕ)
        → HasEdges rank news.now olds.now old_back.now coarser.now coarse_back.now step patches.now coarse_patches.now strategies.now w r
        → HasPacked s.rank s.step s.boxes.items s.letters.items s.own.items s.senders.items s.strategies.now w r × (length s.strategies.now < 256)) }
{
    let sent = joined(alloc, old_back, coarse_back)?;
    let heard = joined(alloc, olds, coarser)?;
    let addressees = other_owners(alloc, rank, sent.as_slice())?;
    let letters = letters_for(
        alloc,
        addressees.as_slice(),
        step,
        old_back,
        coarse_back,
        patches,
        coarse_patches,
    )?;
    let own = parcels_for(
        alloc,
        rank,
        step,
        old_back,
        coarse_back,
        patches,
        coarse_patches,
    )?;
    let senders = other_owners(alloc, rank, heard.as_slice())?;
    let boxes = Vec::from_slice(alloc, news)?;
    Ok(Values {
        rank,
        step,
        boxes,
        letters,
        own,
        senders,
        strategies,
    })
}

impl<'a, R: Refines, B: Bounds, U: Updates> Stage for Values<'a, R, B, U> {
    type Body = Listed<Parcel>;

    type Out = Listed<Listed<Patch>>;

    ghost Whole = { Renewing };

    ghost ranks_of = { λ w. w.ranks };

    ghost says = { values_row };

    ghost gives = { λ w rank out. out ≡ renewed w rank };

    ghost weight_of = { λ _. 1 };

    ghost starts = { λ s w rank. HasPacked s.rank s.step s.boxes.items s.letters.items s.own.items s.senders.items s.strategies.now w rank
        × (length s.strategies.now < 256) };

    ghost waits = { λ s w rank. Waits s.rank s.step s.boxes.items s.own.items s.senders.items s.strategies.now w rank × (length s.strategies.now < 256) };

    fn letters(&mut self, alloc: Global) -> Result<Vec<(u16, Listed<Parcel>)>, NoMemory> {
        Ok(mem::replace(&mut self.letters, Vec::new(alloc)))
    }

    fn weight(&self, _body: &Listed<Parcel>) -> u64 {
        1
    }

    fn goal(&self) -> u64 {
        self.senders.len() as u64
    }

    fn finish(
        self,
        alloc: Global,
        held: Vec<Held<Listed<Parcel>>>,
    ) -> Result<Listed<Listed<Patch>>, NoMemory>
        requires { (w : Renewing) × (rank : ℕ)
            × (Waits self.rank self.step self.boxes.items self.own.items self.senders.items self.strategies.now w rank × (length self.strategies.now < 256))
            × (held.items ≡ heard (column (values_row w) rank) w.ranks) }
        ensures { IfOk result (λ out. (w : Renewing) (rank : ℕ)
            → Waits self.entry.rank self.entry.step self.entry.boxes.items self.entry.own.items self.entry.senders.items self.entry.strategies.now w rank
            × (length self.entry.strategies.now < 256)
            → held.items ≡ heard (column (values_row w) rank) w.ranks → out ≡ renewed w rank) }
    {
        let all = gathered(alloc, self.own, held)?;
        let fields = renewed_fields(
            alloc,
            self.boxes.as_slice(),
            self.step,
            all.as_slice(),
            self.strategies,
        )?;
        Ok(Listed::from_vec(fields))
    }

    ghost positive = { λ _ _ _ _ _. heavy };

    ghost between = { values_between };
}
