//! The strategies of fields, from their rules.

ghost use Rattle.std.specs.Prelude.{◌≡◌, IfOk};
ghost use Rattle.std.specs.List.{All};
ghost use Rattle.samr_ops.specs.declared.rules.Rules.{Rules as RulesOf};
ghost use Rattle.samr_ops.specs.Rules.{IsRules};
ghost use Rattle.samr_ops.specs.Kept.{KeepsRefine, KeepsBoundary, KeepsUpdate};

use samr_ops::{Bounds, Refines, Rules, Strategy, Updates};
use std::alloc::{AllocError as NoMemory, Global};

/// The strategies of fields, with closures that are made for the rules of each.
///
/// # Errors
///
/// Where memory is short.
pub fn strategies<
    R: Refines + Drop,
    B: Bounds + Drop,
    U: Updates + Drop,
    M: Fn(Rules) -> R,
    N: Fn(Rules) -> B,
    O: Fn(Rules) -> U,
>(
    alloc: Global,
    fields: &[Rules],
    refine: M,
    boundary: N,
    update: O,
) -> Result<Vec<Strategy<R, B, U>>, NoMemory>
    requires ranges { All IsRules fields.now }
    requires makes_refine { M.IsAlwaysCallable refine }
    requires makes_boundary { N.IsAlwaysCallable boundary }
    requires makes_update { O.IsAlwaysCallable update }
    requires refine { (r : RulesOf) (f : R) → IsRules r → M.post refine r f → KeepsRefine r (R.can_refine f) (R.refine_gives f) }
    requires boundary { (r : RulesOf) (f : B) → IsRules r → N.post boundary r f → KeepsBoundary r (B.can_bound f) (B.bound_gives f) }
    requires update { (r : RulesOf) (f : U) → IsRules r → O.post update r f → KeepsUpdate r (U.can_update f) (U.update_gives f) }
    ensures { IfOk result (λ v. v.items ≡ fields.now) }
{
    let mut list = Vec::new(alloc);
    for r in fields {
        list.push(Strategy::new(*r, refine(*r), boundary(*r), update(*r)))?;
    }
    Ok(list)
}
