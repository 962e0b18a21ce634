//! The wholes that ranks have parts of: they stand in proofs, and no value of them is ever made.

use samr_msg::Run;
use std::marker::Model;

/// Stands for a step of a run.
#[derive(Drop)]
pub struct StepPlace {
    run: Run,
}

impl Model for StepPlace {
    ghost use Rattle.samr_msg.specs.Places.{AtStep};
    ghost use Rattle.samr_msg.specs.WholeRun.{beginning};

    ghost Value = { AtStep };

    ghost view = { λ x. beginning x.run };
}

/// Stands for a regrid on its way.
#[derive(Drop)]
pub struct RegridPlace {
    at: StepPlace,
}

impl Model for RegridPlace {
    ghost use Rattle.samr_msg.specs.Places.{AtRegrid, regrid_of};

    ghost Value = { AtRegrid };

    ghost view = { λ x. regrid_of x.at };
}

/// Stands for a pass of a regrid.
#[derive(Drop)]
pub struct PassPlace {
    at: RegridPlace,
}

impl Model for PassPlace {
    ghost use Rattle.samr_msg.specs.Places.{AtPass, next_pass};

    ghost Value = { AtPass };

    ghost view = { λ x. next_pass x.at };
}

/// Stands for a round of a phase of a pass.
#[derive(Drop)]
pub struct RoundPlace {
    at: PassPlace,
}

impl Model for RoundPlace {
    ghost use Rattle.samr_msg.specs.Places.{AtRound, first_round};

    ghost Value = { AtRound };

    ghost view = { λ x. first_round x.at };
}

/// Stands for a part of a pass that may be absent.
#[derive(Drop)]
pub struct TurnPlace {
    at: PassPlace,
}

impl Model for TurnPlace {
    ghost use Rattle.samr_msg.specs.Places.{AtPart, not_made};

    ghost Value = { AtPart };

    ghost view = { λ x. not_made x.at };
}
