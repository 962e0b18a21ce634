//! The clusters of a root, by a plain and slow search.

ghost use Rattle.std.specs.Prelude.{◌≡◌, ◌<◌, ◌^◌, [], ◌∷◌, ◌++◌, IfOk, OnOk};
ghost use Rattle.samr_box.specs.Corners.{cells_of};
ghost use Rattle.samr_sign.specs.Fields.{tagged_in, AreApart};
ghost use Rattle.samr_rounds.specs.Clusters.{decided, clusters_in};

use samr_box::IBox;
use samr_sign::{CutRule, Decision, Signature, TagField, decide};
use std::alloc::{AllocError as NoMemory, Global};

/// The decision on a box.
#[tactic(auto, unfolding(crate::specs::Clusters::decided))]
fn decision_on(
    alloc: Global,
    bx: IBox,
    fields: &[TagField],
    rule: &CutRule,
) -> Result<Decision, NoMemory>
    requires apart { AreApart fields.now }
    requires few { cells_of bx < 2 ^ 63 }
    ensures { IfOk result (λ d. d ≡ decided (tagged_in fields.now) rule.now bx) }
{
    let s = Signature::of(alloc, bx, fields)?;
    Ok(decide(&s, rule))
}

/// Adds a box that is accepted.
fn accept(out: &mut Vec<IBox>, b: IBox) -> Result<(), NoMemory>
    ensures { OnOk result (out.new.items ≡ out.old.items ++ b ∷ []) }
{
    out.push(b)?;
    Ok(())
}

/// Adds the clusters of a box.
fn push_clusters(
    alloc: Global,
    bx: IBox,
    fields: &[TagField],
    rule: &CutRule,
    out: &mut Vec<IBox>,
) -> Result<(), NoMemory>
    requires apart { AreApart fields.now }
    requires few { cells_of bx < 2 ^ 63 }
    ensures { OnOk result (out.new.items ≡ out.old.items ++ clusters_in (tagged_in fields.now) rule.now bx) }
{
    let _ = &bx.lo;
    match decision_on(alloc, bx, fields, rule)? {
        Decision::Drop => Ok(()),
        Decision::Accept(b) => {
            accept(out, b)?;
            Ok(())
        }
        Decision::Split(first, second) => {
            push_clusters(alloc, first, fields, rule, out)?;
            push_clusters(alloc, second, fields, rule, out)?;
            Ok(())
        }
    }
}

/// The clusters of a root for the tags of all fields, whose boxes have no cell in common: a plain
/// and slow search, with all tags in one place.
///
/// # Errors
///
/// Where there is not enough memory.
pub fn clusters_of(
    alloc: Global,
    root: IBox,
    fields: &[TagField],
    rule: &CutRule,
) -> Result<Vec<IBox>, NoMemory>
    requires apart { AreApart fields.now }
    requires few { cells_of root < 2 ^ 63 }
    ensures { IfOk result (λ v. v.items ≡ clusters_in (tagged_in fields.now) rule.now root) }
{
    let mut out = Vec::new(alloc);
    push_clusters(alloc, root, fields, rule, &mut out)?;
    Ok(out)
}
