//! The values of a new level on all ranks, by the rules of the fields.

ghost use Rattle.std.specs.Prelude.{◌≡◌, ◌*◌, ◌<◌, IfOk, IfSome, length};
ghost use Rattle.std.specs.List.{All};
ghost use Rattle.samr_stage.specs.Exchange.{AreResults};
ghost use Rattle.samr_ops.specs.declared.rules.Rules.{Rules as RulesOf};
ghost use Rattle.samr_ops.specs.Rules.{IsRules, IsOffset, refined_value, edge_of, updated_value};
ghost use Rattle.samr_ops.specs.Kept.{KeepsRefine, KeepsBoundary, KeepsUpdate};
ghost use Rattle.samr_values.specs.Values.{renewed};
ghost use Rattle.samr_trials_values.specs.Renewals.{renewing};

use crate::renewals::renew;
use samr_box::{Axis, Domain, IBox, IVec, Listed, Ratio};
use samr_data::Patch;
use samr_ops::{Bounds, Edgewise, Refines, Rules, Updates, edge, refined, updated};
use samr_trials_levels::strategies;
use std::alloc::{AllocError as NoMemory, Global};

/// The values of a new level with closures that are made for the rules of each field.
fn renew_made<
    R: Refines + Drop,
    B: Bounds + Drop,
    U: Updates + Drop,
    M: Fn(Rules) -> R,
    N: Fn(Rules) -> B,
    O: Fn(Rules) -> U,
>(
    alloc: Global,
    frame: Domain,
    parts: &[IBox],
    block: IVec,
    step: Ratio,
    fine_block: IVec,
    news: u64,
    olds: u64,
    ranks: u16,
    width: IVec,
    bound: u32,
    rules: &[Rules],
    refine: M,
    boundary: N,
    update: O,
) -> Result<Option<Vec<Listed<Listed<Patch>>>>, NoMemory>
    requires ranges { All IsRules rules.now }
    requires makes_refine { M.IsAlwaysCallable refine }
    requires makes_boundary { N.IsAlwaysCallable boundary }
    requires makes_update { O.IsAlwaysCallable update }
    requires refine { (r : RulesOf) (f : R) → IsRules r → M.post refine r f → KeepsRefine r (R.can_refine f) (R.refine_gives f) }
    requires boundary { (r : RulesOf) (f : B) → IsRules r → N.post boundary r f → KeepsBoundary r (B.can_bound f) (B.bound_gives f) }
    requires update { (r : RulesOf) (f : U) → IsRules r → O.post update r f → KeepsUpdate r (U.can_update f) (U.update_gives f) }
    ensures { IfOk result (λ made. IfSome made (λ outs. (length outs.items ≡ ranks)
        × AreResults (λ w rank out. out ≡ renewed w rank) (renewing (record { frame = frame; parts = parts.now }) block step fine_block news olds ranks width bound rules.now) outs.items)) }
{
    let list = strategies(alloc, rules, refine, boundary, update)?;
    let made = renew(
        alloc,
        frame,
        parts,
        block,
        step,
        fine_block,
        news,
        olds,
        ranks,
        width,
        bound,
        list.as_slice(),
    )?;
    Ok(made)
}

/// The values of a new level on all ranks, as `renew` gives them, by closures that give what the rules of the fields say.
/// `None` where a number is not fit for it.
///
/// # Errors
///
/// Where memory is short.
pub fn renew_by_rules(
    alloc: Global,
    frame: Domain,
    parts: &[IBox],
    block: IVec,
    step: Ratio,
    fine_block: IVec,
    news: u64,
    olds: u64,
    ranks: u16,
    width: IVec,
    bound: u32,
    rules: &[Rules],
) -> Result<Option<Vec<Listed<Listed<Patch>>>>, NoMemory>
    requires { All IsRules rules.now }
    ensures { IfOk result (λ made. IfSome made (λ outs. (length outs.items ≡ ranks)
        × AreResults (λ w rank out. out ≡ renewed w rank) (renewing (record { frame = frame; parts = parts.now }) block step fine_block news olds ranks width bound rules.now) outs.items)) }
{
    let made = renew_made(
        alloc,
        frame,
        parts,
        block,
        step,
        fine_block,
        news,
        olds,
        ranks,
        width,
        bound,
        rules,
        |r: Rules| {
            move |v: u32, offset: IVec| -> u32
                requires rules { IsRules r }
                requires value { v < r.modulus }
                requires offset { IsOffset offset }
                ensures { result ≡ refined_value r v offset }
            { refined(&r, v, offset) }
        },
        |r: Rules| {
            move |axis: Axis, depth: i64| -> Edgewise
                ensures { result ≡ edge_of r axis depth }
            { edge(&r, axis, depth) }
        },
        |r: Rules| {
            move |v: u32, sum: u64| -> u32
                requires rules { IsRules r }
                requires value { v < r.modulus }
                requires sum { sum < 6 * r.modulus }
                ensures { result ≡ updated_value r v sum }
            { updated(&r, v, sum) }
        },
    )?;
    Ok(made)
}
