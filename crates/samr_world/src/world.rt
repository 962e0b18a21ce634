//! All ranks of a run in one value, with whether memory was short.

ghost use Rattle.std.specs.Prelude.{◌≡◌, ◌+◌, ◌*◌, ◌↔◌, ◌<◌, ◌≤◌, [], map, length, Bool, true, false, IsTrue, IsErr, IfOk, OnOk, OnErr, IfSome, IfNone};
ghost use Rattle.samr_world.specs.Events.{IsEnabled, Happens, IsUsual};
ghost use Rattle.samr_world.specs.Plays.{Played, Runs};
ghost use Rattle.samr_world.specs.Weight.{weight, visits, letters};
ghost use Rattle.samr_world.specs.World.{Stands, StandsIn, Keeps, IsFinished, IsTeam, HasEnded};

use crate::choices::Choices;
use crate::event::Event;
use crate::traffic::Traffic;
use samr_stage::{Machine, Program};
use std::alloc::{AllocError as NoMemory, Global};
use std::marker::Model;

/// The machines of all ranks of a run, with the letters in flight between them.
///
/// A world takes one event after another: a turn of a rank's machine, or that a letter in flight
/// is delivered, comes once more, or is lost. Whatever the events each rank is where the run's
/// definition has it, and as long as nothing was lost a turn or a delivery is enabled until all
/// ranks have finished.
///
/// After a call that answers `NoMemory` a world has failed, and answers `NoMemory` from then on.
#[derive(Drop)]
pub struct World<P: Program> {
    traffic: Traffic<P>,
    room: Vec<P>,
    failed: bool,
}

impl<P: Program> Model for World<P> {
    ghost use Rattle.std.specs.Prelude.{◌≡◌, ◌≤◌, [], length, false};
    ghost use Rattle.std.specs.Vec.{vec_capacity};
    ghost use Rattle.samr_world.specs.World.{Whole, Stands};
    ghost use Rattle.samr_world.specs.Traffic.{shape_of};

    ghost Value = { Whole P P.Mail };

    ghost view = { λ a. record { shape = record { machines = a.traffic.machines.items; flight = a.traffic.flight.items; lost = a.traffic.lost }; failed = a.failed } };

    ghost invariant = { λ a. record { stands : a.failed ≡ false → Stands P.Program P.Mail.Mail (shape_of a.traffic); empty : a.room.items ≡ []; room : length a.traffic.machines.items ≤ vec_capacity a.room } };
}

impl<P: Program> World<P> {
    /// A world for one fresh program per rank of a run, in order of rank, each of which is to enter
    /// its first label, or has none to visit and so has finished.
    ///
    /// # Errors
    ///
    /// Where memory is short.
    pub fn new(alloc: Global, programs: Vec<P>) -> Result<Self, NoMemory>
        requires { (r : P.Mail.Run) × IsTeam P.Program P.Mail.Mail r programs.items }
        ensures stands { IfOk result (λ world. (r : P.Mail.Run) → IsTeam P.Program P.Mail.Mail r programs.items → StandsIn P.Program P.Mail.Mail r world.shape) }
        ensures weighs { IfOk result (λ world. (r : P.Mail.Run) → IsTeam P.Program P.Mail.Mail r programs.items
            → weight P.Program P.Mail.Mail world.shape ≡ visits (P.Mail.course r) + 2 * letters (P.Mail.course r)) }
        ensures none_flying { IfOk result (λ world. world.shape.flight ≡ []) }
        ensures none_lost { IfOk result (λ world. world.shape.lost ≡ 0) }
        ensures working { IfOk result (λ world. world.failed ≡ false) }
    {
        let mut programs = programs;
        let mut machines = Vec::new(alloc);
        while let Some(program) = programs.pop() {
            machines.push(Machine::new(alloc, program)?)?;
        }
        machines.reverse();
        let traffic = Traffic {
            machines,
            flight: Vec::new(alloc),
            lost: 0,
        };
        Ok(World {
            traffic,
            room: programs,
            failed: false,
        })
    }

    /// How many letters are in flight.
    pub fn in_flight(&self) -> u64
        ensures { result ≡ length self.now.shape.flight }
    {
        self.traffic.flight.len() as u64
    }

    /// How many letters were lost, as far as 64 bits count.
    pub fn lost(&self) -> u64
        ensures { result ≡ self.now.shape.lost }
    {
        self.traffic.lost
    }

    /// Whether every rank has left all its labels.
    pub fn finished(&self) -> bool
        ensures { IsTrue result ↔ IsFinished P.Program P.Mail.Mail self.now.shape }
    {
        self.traffic.finished()
    }

    /// The programs, as the machines have them, in order of rank. They stand in the room of the
    /// list from which the world was made.
    pub fn into_programs(self) -> Vec<P>
        ensures programs { result.items ≡ map (λ s. s.program) self.shape.machines }
        ensures ended { IsFinished P.Program P.Mail.Mail self.shape → (r : P.Mail.Run) → StandsIn P.Program P.Mail.Mail r self.shape → HasEnded P.Program P.Mail.Mail r result.items }
    {
        let World {
            traffic,
            mut room,
            failed: _,
        } = self;
        let Traffic {
            mut machines,
            flight: _,
            lost: _,
        } = traffic;
        while let Some(machine) = machines.pop() {
            room.push_reserved(machine.into_program());
        }
        room.reverse();
        room
    }

    /// What an event makes of the world, where it is enabled, and whether it was.
    ///
    /// A turn is enabled where there is a machine of the rank, it has not finished, and the turn
    /// would not be idle. The other events are enabled where there is a letter at the place.
    ///
    /// # Errors
    ///
    /// Where memory is short, and always once it was. The world has then failed.
    pub fn apply(&mut self, alloc: Global, event: Event) -> Result<bool, NoMemory>
        ensures enabled { IfOk result (λ enabled. IsTrue enabled ↔ IsEnabled P.Program P.Mail.Mail self.old.shape event) }
        ensures disabled { IfOk result (λ enabled. enabled ≡ false → self.new ≡ self.old) }
        ensures happens { IfOk result (λ enabled. enabled ≡ true → Happens P.Program P.Mail.Mail self.old.shape event self.new.shape) }
        ensures stands { OnOk result (Stands P.Program P.Mail.Mail self.new.shape) }
        ensures keeps { OnOk result (Keeps P.Program P.Mail.Mail self.old.shape self.new.shape) }
        ensures working { OnOk result (self.new.failed ≡ false) }
        ensures err { OnErr result (self.new.failed ≡ true) }
        ensures stays_failed { self.old.failed ≡ true → IsErr result }
    {
        if self.failed {
            return Err(NoMemory);
        }
        self.failed = true;
        let enabled = self.traffic.apply(alloc, event)?;
        self.failed = false;
        Ok(enabled)
    }

    /// Applies events one after another, and counts those that were enabled.
    ///
    /// # Errors
    ///
    /// Where memory is short, and always once it was. The world has then failed.
    pub fn play(&mut self, alloc: Global, events: &[Event]) -> Result<u64, NoMemory>
        ensures played { IfOk result (λ count. Played P.Program P.Mail.Mail self.old.shape events.now count self.new.shape) }
        ensures stands { OnOk result (Stands P.Program P.Mail.Mail self.new.shape) }
        ensures keeps { OnOk result (Keeps P.Program P.Mail.Mail self.old.shape self.new.shape) }
        ensures working { OnOk result (self.new.failed ≡ false) }
        ensures err { OnErr result (self.new.failed ≡ true) }
        ensures stays_failed { self.old.failed ≡ true → IsErr result }
    {
        if self.failed {
            return Err(NoMemory);
        }
        self.failed = true;
        let count = self.traffic.play(alloc, events)?;
        self.failed = false;
        Ok(count)
    }

    /// A turn or a delivery that is enabled. There is one until all ranks have finished.
    pub fn next_event(&self) -> Option<Event>
        requires working { self.now.failed ≡ false }
        requires none_lost { self.now.shape.lost ≡ 0 }
        ensures usual { IfSome result IsUsual }
        ensures enabled { IfSome result (IsEnabled P.Program P.Mail.Mail self.now.shape) }
        ensures none { IfNone result (IsFinished P.Program P.Mail.Mail self.now.shape) }
    {
        self.traffic.next_event()
    }

    /// Applies enabled turns, deliveries and repeats, `repeats` repeats at most, as `choices` draws
    /// them, until there is none. All ranks have then finished.
    ///
    /// Each draw is among the turns by rank, the deliveries by place, and the repeats by place as
    /// long as fewer than `repeats` were drawn.
    ///
    /// # Errors
    ///
    /// Where memory is short, and always once it was. The world has then failed, and `choices` has
    /// made the draws so far.
    pub fn run_to_end<C: Choices>(
        &mut self,
        alloc: Global,
        choices: &mut C,
        repeats: u32,
    ) -> Result<(), NoMemory>
        requires { self.old.shape.lost ≡ 0 }
        ensures finished { OnOk result (IsFinished P.Program P.Mail.Mail self.new.shape) }
        ensures ran { OnOk result (Runs P.Program P.Mail.Mail self.old.shape repeats self.new.shape) }
        ensures stands { OnOk result (Stands P.Program P.Mail.Mail self.new.shape) }
        ensures keeps { OnOk result (Keeps P.Program P.Mail.Mail self.old.shape self.new.shape) }
        ensures none_lost { OnOk result (self.new.shape.lost ≡ 0) }
        ensures working { OnOk result (self.new.failed ≡ false) }
        ensures err { OnErr result (self.new.failed ≡ true) }
        ensures stays_failed { self.old.failed ≡ true → IsErr result }
    {
        if self.failed {
            return Err(NoMemory);
        }
        self.failed = true;
        self.traffic.run_to_end(alloc, choices, repeats)?;
        self.failed = false;
        Ok(())
    }
}
