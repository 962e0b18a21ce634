//! The machines and the letters in flight, and what each event makes of them.

ghost use Rattle.std.specs.Prelude.{◌≡◌, ℕ, ◌↔◌, ◌++◌, [], map, All, Bool, true, false, if◌then◌else◌, IsTrue, Some, IfOk, OnOk, IfSome, IfNone, length};
ghost use Rattle.std.specs.List.{slice_get, range_with_len};
ghost use Rattle.samr_stage.specs.Machine.{State};
ghost use Rattle.samr_world.specs.Events.{CanTurn, IsEnabled, Happens, IsUsual, is_repeat};
ghost use Rattle.samr_world.specs.Plays.{Played, Runs};
ghost use Rattle.samr_world.specs.Traffic.{shape_of, Offers};
ghost use Rattle.samr_world.specs.World.{Stands, Keeps, IsFinished};

use crate::choices::Choices;
use crate::event::Event;
use samr_stage::{Machine, Mail, Program, Turn};
use std::alloc::{AllocError as NoMemory, Global};

/// What a world works with: the machines of all ranks, in order of rank, the letters in flight, in
/// the order in which they came there, and how many were lost.
#[derive(Drop)]
pub struct Traffic<P: Program> {
    pub machines: Vec<Machine<P>>,
    pub flight: Vec<P::Mail>,
    pub lost: u64,
}

impl<P: Program> Traffic<P> {
    /// The machine of a rank takes a turn, and a letter that it gives out comes last in flight.
    fn turn(&mut self, alloc: Global, rank: u16) -> Result<bool, NoMemory>
        requires { Stands P.Program P.Mail.Mail (shape_of self.old) }
        ensures enabled { IfOk result (λ enabled. IsTrue enabled ↔ IsEnabled P.Program P.Mail.Mail (shape_of self.old) (Event.Turn rank)) }
        ensures disabled { IfOk result (λ enabled. enabled ≡ false → shape_of self.new ≡ shape_of self.old) }
        ensures happens { IfOk result (λ enabled. enabled ≡ true → Happens P.Program P.Mail.Mail (shape_of self.old) (Event.Turn rank) (shape_of self.new)) }
        ensures ranks { length self.new.machines.items ≡ length self.old.machines.items }
    {
        let rank = usize::from(rank);
        if rank >= self.machines.len() {
            return Ok(false);
        }
        let machine = &mut self.machines[rank];
        if !can_turn(machine) {
            return Ok(false);
        }
        if let Turn::Posted(letter) = machine.turn(alloc, None, true)? {
            self.flight.push(letter)?;
            return Ok(true);
        }
        Ok(true)
    }

    /// The letter at a place goes to the machine of its addressee.
    fn deliver(&mut self, alloc: Global, place: u64) -> Result<bool, NoMemory>
        requires { Stands P.Program P.Mail.Mail (shape_of self.old) }
        ensures enabled { IfOk result (λ enabled. IsTrue enabled ↔ IsEnabled P.Program P.Mail.Mail (shape_of self.old) (Event.Deliver place)) }
        ensures disabled { IfOk result (λ enabled. enabled ≡ false → shape_of self.new ≡ shape_of self.old) }
        ensures happens { IfOk result (λ enabled. enabled ≡ true → Happens P.Program P.Mail.Mail (shape_of self.old) (Event.Deliver place) (shape_of self.new)) }
        ensures ranks { length self.new.machines.items ≡ length self.old.machines.items }
    {
        let place = place as usize;
        if place >= self.flight.len() {
            return Ok(false);
        }
        let letter = self.flight.remove(place);
        let addressee = usize::from(letter.name().addressee);
        let machine = &mut self.machines[addressee];
        let _ = machine.turn(alloc, Some(letter), true)?;
        Ok(true)
    }

    /// A copy of the letter at a place comes last in flight.
    fn repeat(&mut self, alloc: Global, place: u64) -> Result<bool, NoMemory>
        ensures enabled { IfOk result (λ enabled. IsTrue enabled ↔ IsEnabled P.Program P.Mail.Mail (shape_of self.old) (Event.Repeat place)) }
        ensures disabled { IfOk result (λ enabled. enabled ≡ false → shape_of self.new ≡ shape_of self.old) }
        ensures happens { IfOk result (λ enabled. enabled ≡ true → Happens P.Program P.Mail.Mail (shape_of self.old) (Event.Repeat place) (shape_of self.new)) }
        ensures ranks { length self.new.machines.items ≡ length self.old.machines.items }
    {
        let place = place as usize;
        if place >= self.flight.len() {
            return Ok(false);
        }
        let copy = self.flight[place].copied(alloc)?;
        self.flight.push(copy)?;
        Ok(true)
    }

    /// The letter at a place is dropped, and counted as lost.
    fn lose(&mut self, place: u64) -> bool
        ensures enabled { IsTrue result ↔ IsEnabled P.Program P.Mail.Mail (shape_of self.old) (Event.Lose place) }
        ensures disabled { result ≡ false → shape_of self.new ≡ shape_of self.old }
        ensures happens { result ≡ true → Happens P.Program P.Mail.Mail (shape_of self.old) (Event.Lose place) (shape_of self.new) }
        ensures ranks { length self.new.machines.items ≡ length self.old.machines.items }
    {
        let place = place as usize;
        if place >= self.flight.len() {
            return false;
        }
        let _ = self.flight.remove(place);
        self.lost = self.lost.saturating_add(1);
        true
    }

    /// What an event makes of the world, and whether it was enabled.
    pub fn apply(&mut self, alloc: Global, event: Event) -> Result<bool, NoMemory>
        requires { Stands P.Program P.Mail.Mail (shape_of self.old) }
        ensures enabled { IfOk result (λ enabled. IsTrue enabled ↔ IsEnabled P.Program P.Mail.Mail (shape_of self.old) event) }
        ensures disabled { IfOk result (λ enabled. enabled ≡ false → shape_of self.new ≡ shape_of self.old) }
        ensures happens { IfOk result (λ enabled. enabled ≡ true → Happens P.Program P.Mail.Mail (shape_of self.old) event (shape_of self.new)) }
        ensures keeps { OnOk result (Keeps P.Program P.Mail.Mail (shape_of self.old) (shape_of self.new)) }
        ensures ranks { length self.new.machines.items ≡ length self.old.machines.items }
    {
        let enabled = match event {
            Event::Turn(rank) => self.turn(alloc, rank)?,
            Event::Deliver(place) => self.deliver(alloc, place)?,
            Event::Repeat(place) => self.repeat(alloc, place)?,
            Event::Lose(place) => self.lose(place),
        };
        Ok(enabled)
    }

    /// Plays events one after another, and counts those that were enabled.
    pub fn play(&mut self, alloc: Global, events: &[Event]) -> Result<u64, NoMemory>
        requires { Stands P.Program P.Mail.Mail (shape_of self.old) }
        ensures played { IfOk result (λ count. Played P.Program P.Mail.Mail (shape_of self.old) events.now count (shape_of self.new)) }
        ensures keeps { OnOk result (Keeps P.Program P.Mail.Mail (shape_of self.old) (shape_of self.new)) }
        ensures ranks { length self.new.machines.items ≡ length self.old.machines.items }
    {
        let mut count = 0;
        for event in events {
            count += u64::from(self.apply(alloc, *event)?);
        }
        Ok(count)
    }

    /// Whether every rank has left all its labels.
    pub fn finished(&self) -> bool
        ensures { IsTrue result ↔ IsFinished P.Program P.Mail.Mail (shape_of self.now) }
    {
        self.machines.iter().all(Machine::finished)
    }

    /// A turn or a delivery that is enabled, where not all ranks have finished.
    pub fn next_event(&self) -> Option<Event>
        requires stands { Stands P.Program P.Mail.Mail (shape_of self.now) }
        requires none_lost { self.now.lost ≡ 0 }
        ensures usual { IfSome result IsUsual }
        ensures enabled { IfSome result (IsEnabled P.Program P.Mail.Mail (shape_of self.now)) }
        ensures none { IfNone result (IsFinished P.Program P.Mail.Mail (shape_of self.now)) }
    {
        for machine in &self.machines {
            if can_turn(machine) {
                return Some(Event::Turn(machine.rank()));
            }
        }
        if self.flight.is_empty() {
            return None;
        }
        Some(Event::Deliver(0))
    }

    /// The turns that are enabled, by rank.
    fn turns(&self, alloc: Global) -> Result<Vec<Event>, NoMemory>
        requires { Stands P.Program P.Mail.Mail (shape_of self.now) }
        ensures usual { IfOk result (λ turns. All IsUsual turns.items) }
        ensures enabled { IfOk result (λ turns. All (IsEnabled P.Program P.Mail.Mail (shape_of self.now)) turns.items) }
        ensures none { IfOk result (λ turns. turns.items ≡ []
            → (rank : ℕ) (s : State P P.Mail) → slice_get self.now.machines.items rank ≡ Some s → ¬ CanTurn P.Program P.Mail.Mail s) }
    {
        let mut turns = Vec::new(alloc);
        for machine in &self.machines {
            if can_turn(machine) {
                turns.push(Event::Turn(machine.rank()))?;
            }
        }
        Ok(turns)
    }

    /// The turns that are enabled, by rank, the deliveries by place, and the repeats by place where
    /// they are asked for.
    fn offers(&self, alloc: Global, repeats: bool) -> Result<Vec<Event>, NoMemory>
        requires { Stands P.Program P.Mail.Mail (shape_of self.now) }
        ensures { IfOk result (λ offers. Offers P.Program P.Mail.Mail (shape_of self.now) repeats offers.items) }
    {
        let mut events = self.turns(alloc)?;
        let places = self.flight.len() as u64;
        add_deliveries(&mut events, places)?;
        if repeats {
            add_repeats(&mut events, places)?;
            return Ok(events);
        }
        Ok(events)
    }

    /// Draws among the events that are enabled, without a loss and with so many repeats at most,
    /// until there is none.
    pub fn run_to_end<C: Choices>(
        &mut self,
        alloc: Global,
        choices: &mut C,
        repeats: u32,
    ) -> Result<(), NoMemory>
        requires stands { Stands P.Program P.Mail.Mail (shape_of self.old) }
        requires none_lost { self.old.lost ≡ 0 }
        ensures finished { OnOk result (IsFinished P.Program P.Mail.Mail (shape_of self.new)) }
        ensures ran { OnOk result (Runs P.Program P.Mail.Mail (shape_of self.old) repeats (shape_of self.new)) }
        ensures keeps { OnOk result (Keeps P.Program P.Mail.Mail (shape_of self.old) (shape_of self.new)) }
        ensures none_lost { OnOk result (self.new.lost ≡ 0) }
        ensures ranks { length self.new.machines.items ≡ length self.old.machines.items }
    {
        let mut left = repeats;
        'events: loop {
            let offers = self.offers(alloc, left > 0)?;
            if offers.is_empty() {
                return Ok(());
            }
            let choice = choices.draw(offers.len() as u64);
            let event = offers[choice as usize];
            left -= repeats_of(event);
            let _ = self.apply(alloc, event)?;
        }
    }
}

/// Whether a turn with no letter and with room would do something.
fn can_turn<P: Program>(machine: &Machine<P>) -> bool
    requires { machine.now.failed ≡ false }
    ensures { IsTrue result ↔ CanTurn P.Program P.Mail.Mail machine.now }
{
    !machine.finished() && !machine.idle()
}

/// 1 for a repeat, and 0 for any other event.
fn repeats_of(event: Event) -> u32
    ensures { result ≡ (if is_repeat event then 1 else 0) }
{
    match event {
        Event::Repeat(_) => 1,
        _ => 0,
    }
}

/// Puts a delivery for each of so many places last among the events.
fn add_deliveries(events: &mut Vec<Event>, places: u64) -> Result<(), NoMemory>
    ensures { OnOk result (events.new.items ≡ events.old.items ++ map Event.Deliver (range_with_len 0 places)) }
{
    for place in 0..places {
        events.push(Event::Deliver(place))?;
    }
    Ok(())
}

/// Puts a repeat for each of so many places last among the events.
fn add_repeats(events: &mut Vec<Event>, places: u64) -> Result<(), NoMemory>
    ensures { OnOk result (events.new.items ≡ events.old.items ++ map Event.Repeat (range_with_len 0 places)) }
{
    for place in 0..places {
        events.push(Event::Repeat(place))?;
    }
    Ok(())
}
