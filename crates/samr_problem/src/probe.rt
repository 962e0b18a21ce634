//! The probes of a problem, each from its list of numbers.

ghost use Rattle.std.specs.Prelude.{◌≡◌, IfOk, map};
ghost use Rattle.toml.specs.View.{view};
ghost use Rattle.samr_problem.specs.Fields.{probe_of};

use crate::lookup::{entry_number, small, vector_from};
use samr_box::{IVec, Listed};
use std::alloc::{AllocError as NoMemory, Global};
use toml::Value;

/// A cell whose value is reported after each step.
#[derive(Clone, Copy, Debug, PartialEq, Eq)]
pub struct Probe {
    pub level: u8,
    pub cell: IVec,
}

#[tactic(auto, unfolding(crate::specs::Fields::probe_of))]
fn probe_of(dim: usize, value: &Value) -> Probe
    ensures { result ≡ probe_of dim (view value.now) }
{
    Probe {
        level: small(entry_number(0, Some(value), 0)),
        cell: vector_from(1, dim, Some(value), 0, 0),
    }
}

/// The probes that some lists are.
pub fn probes_of(alloc: Global, dim: usize, items: &[Value]) -> Result<Listed<Probe>, NoMemory>
    ensures { IfOk result (λ p. p ≡ map (probe_of dim) (map view items.now)) }
{
    let mut probes = Vec::new(alloc);
    for item in items {
        probes.push(probe_of(dim, item))?;
    }
    Ok(Listed::from_vec(probes))
}
