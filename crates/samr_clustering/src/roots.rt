//! The roots of a level, with which the rounds begin.

ghost use Rattle.std.specs.Prelude.{◌≡◌, refl};
ghost use Rattle.samr_msg.specs.Places.{first_round};
ghost use Rattle.samr_mesh.specs.Passes.{rule_of};

use crate::parts::{Kept, Open};
use samr_box::Listed;
use samr_cluster::{first_directed, first_told};
use samr_mesh_plain::roots;
use samr_phase::Making;
use samr_problem::Problem;
use samr_regrid::{Tagged, Tools};
use samr_sign::CutRule;
use std::alloc::{AllocError as NoMemory, Global};

/// The roots of a level, each with the rank that directs it.
pub struct Roots {}

/// When a box is worth its cells.
fn rule_of(problem: &Problem) -> CutRule
    ensures { result ≡ rule_of problem.now }
{
    CutRule {
        efficiency: problem.efficiency,
        smallest: problem.smallest,
    }
}

impl<G: Tools> Making<Tagged<G>, Open<G>> for Roots {
    ghost after = { first_round };

    ghost sure = { ⊥ };

    fn make(alloc: Global, input: Tagged<G>) -> Result<Open<G>, NoMemory> {
        let Tagged { base, fields } = input;
        let rule = rule_of(base.problem());
        let roots = roots(alloc, base.problem(), base.level())?;
        let told = first_told(alloc, base.rank(), base.ranks(), roots.as_slice())?;
        let directed = first_directed(alloc, base.rank(), base.ranks(), roots.as_slice())?;
        Ok(Open {
            kept: Kept {
                base,
                fields,
                accepted: Listed::new(alloc),
                rule,
                round: 0,
            },
            told: Listed::from_vec(told),
            directed: Listed::from_vec(directed),
        })
    }

    ghost same_ranks = { λ w. refl };
}
