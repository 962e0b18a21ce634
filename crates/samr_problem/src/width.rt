//! The width of all connectors, and what the fields of a problem say together.

ghost use Rattle.std.specs.Prelude.{◌≡◌, ◌++◌, codes, not};
ghost use Rattle.std.specs.List.{position_from};
ghost use Rattle.samr_box.specs.Vector.{at_most};
ghost use Rattle.samr_problem.specs.Faults.{ghost_fits, ghosts_fit, is_nested, ghost_name, unnested, domain_if, is_large};
ghost use Rattle.samr_problem.specs.Fields.{widest, width_of};
ghost use Rattle.samr_problem.specs.Findings.{shown_in};
ghost use Rattle.samr_problem.specs.Refusals.{first, refusals, Refuses};

use crate::Unread;
use crate::field::Field;
use crate::finding::{Place, refuse_in};
use crate::lengths::is_large;
use crate::refusal::refuse;
use samr_box::IVec;
use std::alloc::Global;

/// The greatest ghost widths of some fields.
#[tactic(auto, unfolding(crate::specs::Fields::widest))]
fn widest(fields: &[Field]) -> IVec
    ensures { result ≡ widest fields.now }
{
    let mut width = IVec::alike(0);
    for field in fields {
        width = width.greatest(field.ghosts);
    }
    width
}

/// The width of all connectors.
#[tactic(auto, unfolding(crate::specs::Fields::width_of))]
pub fn width_of(levels: u8, nest: IVec, tag_buffer: IVec, fields: &[Field]) -> IVec
    ensures { result ≡ width_of levels nest tag_buffer fields.now }
{
    if levels == 1 {
        return widest(fields);
    }
    widest(fields).greatest(nest.greatest(tag_buffer))
}

#[tactic(auto, using(crate::proofs::Capping::same_le_64), unfolding(crate::specs::Faults::ghost_fits))]
fn ghost_fits(ghost_width: i64, nest: i64, ratio: i64) -> bool
    ensures { result ≡ ghost_fits ghost_width nest ratio }
{
    ghost_width.unsigned_abs() <= nest.unsigned_abs().saturating_mul(ratio.unsigned_abs())
}

#[tactic(auto, unfolding(crate::specs::Faults::ghosts_fit))]
fn ghosts_fit(nest: IVec, ghosts: IVec, ratio: IVec) -> bool
    ensures { result ≡ ghosts_fit nest ghosts ratio }
{
    if !ghost_fits(ghosts.i, nest.i, ratio.i) {
        return false;
    }
    if !ghost_fits(ghosts.j, nest.j, ratio.j) {
        return false;
    }
    ghost_fits(ghosts.k, nest.k, ratio.k)
}

/// Whether the ghosts of a field lie in the nest of each level above 0.
#[tactic(auto, unfolding(crate::specs::Faults::is_nested))]
fn is_nested(ratios: &[IVec], nest: IVec, field: &Field) -> bool
    ensures { result ≡ is_nested ratios.now nest field.now }
{
    let ghosts = field.ghosts;
    ratios.iter().all(|ratio| ghosts_fit(nest, ghosts, *ratio))
}

fn first_unnested(ratios: &[IVec], nest: IVec, fields: &[Field]) -> Option<usize>
    ensures { result ≡ position_from (λ f. not (is_nested ratios.now nest f)) 0 fields.now }
{
    fields
        .iter()
        .position(|field| !is_nested(ratios, nest, field))
}

#[tactic(auto, unfolding(crate::specs::Faults::ghost_name))]
fn ghost_place(number: usize) -> Place
    ensures { shown_in result (codes "ghost") ≡ ghost_name number }
{
    if number == 0 {
        return Place::Top;
    }
    Place::Table("field", number - 1)
}

/// Refuses by the first field whose ghosts do not lie in the nest.
#[tactic(auto, using(crate::proofs::Positions::first_unnested))]
fn check_nest(alloc: Global, ratios: &[IVec], nest: IVec, fields: &[Field]) -> Result<(), Unread>
    ensures { Refuses result (first (refusals 8 (unnested ratios.now nest fields.now))) }
{
    let Some(number) = first_unnested(ratios, nest, fields) else {
        return Ok(());
    };
    Err(refuse_in(alloc, 8, ghost_place(number), "ghost"))
}

/// Refuses a domain that is shorter than the width.
fn check_width(alloc: Global, width: IVec, domain: IVec) -> Result<(), Unread>
    ensures { Refuses result (first (refusals 9 (domain_if (not (at_most width domain))))) }
{
    if width.at_most(domain) {
        return Ok(());
    }
    Err(refuse(alloc, 9, "domain"))
}

/// Refuses a domain whose finest level has more cells than a problem may have.
fn check_size(alloc: Global, domain: IVec, ratios: &[IVec]) -> Result<(), Unread>
    ensures { Refuses result (first (refusals 10 (domain_if (is_large domain ratios.now)))) }
{
    if is_large(domain, ratios) {
        return Err(refuse(alloc, 10, "domain"));
    }
    Ok(())
}

/// Refuses by what the fields of a problem say together.
#[tactic(auto, using(crate::proofs::Firsts::first_append))]
pub fn check_together(
    alloc: Global,
    domain: IVec,
    ratios: &[IVec],
    nest: IVec,
    fields: &[Field],
    width: IVec,
) -> Result<(), Unread>
    ensures { Refuses result (first (refusals 8 (unnested ratios.now nest fields.now) ++ refusals 9 (domain_if (not (at_most width domain))) ++ refusals 10 (domain_if (is_large domain ratios.now)))) }
{
    check_nest(alloc, ratios, nest, fields)?;
    check_width(alloc, width, domain)?;
    check_size(alloc, domain, ratios)
}
