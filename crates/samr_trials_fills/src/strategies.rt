//! A fill on all ranks, by the rules of the fields.

ghost use Rattle.std.specs.Prelude.{◌≡◌, ◌*◌, ◌<◌, IfOk, length};
ghost use Rattle.std.specs.List.{All};
ghost use Rattle.samr_stage.specs.Exchange.{AreResults};
ghost use Rattle.samr_ops.specs.declared.rules.Rules.{Rules as RulesOf};
ghost use Rattle.samr_ops.specs.Rules.{IsRules, IsOffset, refined_value, edge_of, updated_value};
ghost use Rattle.samr_ops.specs.Kept.{KeepsRefine, KeepsBoundary, KeepsUpdate};
ghost use Rattle.samr_fill.specs.Fill.{Filling};
ghost use Rattle.samr_fill.specs.FillParts.{filled};
ghost use Rattle.samr_trials_fills.specs.Ready.{AreReady};

use crate::prepared::Prepared;
use samr_box::{Axis, IVec, Listed};
use samr_data::Patch;
use samr_fill::fill_all;
use samr_ops::{Bounds, Edgewise, Refines, Rules, Strategy, Updates, edge, refined, updated};
use samr_trials_levels::strategies;
use std::alloc::{AllocError as NoMemory, Global};

/// The patches of all ranks after the fill.
fn fill_prepared<R: Refines, B: Bounds, U: Updates>(
    alloc: Global,
    ready: Prepared,
    strategies: &[Strategy<R, B, U>],
) -> Result<Vec<Listed<Listed<Patch>>>, NoMemory>
    requires { (w : Filling) × AreReady ready strategies.now w }
    ensures { IfOk result (λ outs. (w : Filling) → AreReady ready strategies.now w → (length outs.items ≡ w.schedule.ranks) × AreResults (λ w rank out. out ≡ filled w rank) w outs.items) }
{
    let plans = ready.plans;
    let own = ready.own;
    let below = ready.below;
    let outs = fill_all(alloc, plans.as_slice(), own, below.as_slice(), strategies)?;
    Ok(outs)
}

/// The fill with closures that are made for the rules of each field.
fn fill_made<
    R: Refines + Drop,
    B: Bounds + Drop,
    U: Updates + Drop,
    M: Fn(Rules) -> R,
    N: Fn(Rules) -> B,
    O: Fn(Rules) -> U,
>(
    alloc: Global,
    ready: Prepared,
    rules: &[Rules],
    refine: M,
    boundary: N,
    update: O,
) -> Result<Vec<Listed<Listed<Patch>>>, NoMemory>
    requires ranges { All IsRules rules.now }
    requires ready { (w : Filling) × AreReady ready rules.now w }
    requires makes_refine { M.IsAlwaysCallable refine }
    requires makes_boundary { N.IsAlwaysCallable boundary }
    requires makes_update { O.IsAlwaysCallable update }
    requires refine { (r : RulesOf) (f : R) → IsRules r → M.post refine r f → KeepsRefine r (R.can_refine f) (R.refine_gives f) }
    requires boundary { (r : RulesOf) (f : B) → IsRules r → N.post boundary r f → KeepsBoundary r (B.can_bound f) (B.bound_gives f) }
    requires update { (r : RulesOf) (f : U) → IsRules r → O.post update r f → KeepsUpdate r (U.can_update f) (U.update_gives f) }
    ensures { IfOk result (λ outs. (w : Filling) → AreReady ready rules.now w → (length outs.items ≡ w.schedule.ranks) × AreResults (λ w rank out. out ≡ filled w rank) w outs.items) }
{
    let list = strategies(alloc, rules, refine, boundary, update)?;
    let outs = fill_prepared(alloc, ready, list.as_slice())?;
    Ok(outs)
}

/// The patches of all ranks after a fill by closures that give what the rules of the fields say, by rank, field and box.
///
/// # Errors
///
/// Where memory is short.
pub fn fill(
    alloc: Global,
    ready: Prepared,
    rules: &[Rules],
) -> Result<Vec<Listed<Listed<Patch>>>, NoMemory>
    requires ranges { All IsRules rules.now }
    requires ready { (w : Filling) × AreReady ready rules.now w }
    ensures { IfOk result (λ outs. (w : Filling) → AreReady ready rules.now w → (length outs.items ≡ w.schedule.ranks) × AreResults (λ w rank out. out ≡ filled w rank) w outs.items) }
{
    let outs = fill_made(
        alloc,
        ready,
        rules,
        |r: Rules| {
            move |v: u32, offset: IVec| -> u32
                requires rules { IsRules r }
                requires value { v < r.modulus }
                requires offset { IsOffset offset }
                ensures { result ≡ refined_value r v offset }
            { refined(&r, v, offset) }
        },
        |r: Rules| {
            move |axis: Axis, depth: i64| -> Edgewise
                ensures { result ≡ edge_of r axis depth }
            { edge(&r, axis, depth) }
        },
        |r: Rules| {
            move |v: u32, sum: u64| -> u32
                requires rules { IsRules r }
                requires value { v < r.modulus }
                requires sum { sum < 6 * r.modulus }
                ensures { result ≡ updated_value r v sum }
            { updated(&r, v, sum) }
        },
    )?;
    Ok(outs)
}
