//! What a rank is given for a run from outside.

ghost use Rattle.std.specs.Prelude.{ℕ, List};
ghost use Rattle.samr_ops.specs.declared.rules.Rules.{Rules};

use samr_box::IVec;
use samr_ops::{Bounds, Refines, Strategy, Updates};
use samr_tags::Given;

/// What a rank is given for a run from outside: its share of the problem, and operators by the rules
/// of each field.
pub trait Tools: Given + Drop {
    /// The rules of the operators, field by field.
    ghost rules_of: { Self → List Rules };
}

/// A rank's share of the problem, and the operators of each field.
#[derive(Drop)]
pub struct Kit<'a, T: Given, R: Refines, B: Bounds, U: Updates> {
    pub given: T,
    pub strategies: &'a [Strategy<R, B, U>],
}

impl<'a, T: Given, R: Refines, B: Bounds, U: Updates> Given for Kit<'a, T, R, B, U> {
    ghost may_tell = { λ k. T.may_tell k.given };

    ghost is_tagged = { λ k. T.is_tagged k.given };

    ghost may_tell_first = { λ k. T.may_tell_first k.given };

    ghost first_value = { λ k. T.first_value k.given };

    fn tagged(&self, level: u8, step: u32, cell: IVec) -> bool {
        self.given.tagged(level, step, cell)
    }

    fn first(&self, field: u8, cell: IVec) -> u32 {
        self.given.first(field, cell)
    }
}

impl<'a, T: Given + Drop, R: Refines, B: Bounds, U: Updates> Tools for Kit<'a, T, R, B, U> {
    ghost rules_of = { λ k. k.strategies.now };
}
