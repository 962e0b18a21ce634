//! Drawn events, and the draws of a world.

ghost use Rattle.std.specs.Prelude.{◌≡◌, ◌<◌, ℕ, length, vec_len, IfOk};

use rand_core::Rng;
use rand_pcg::Pcg32;
use samr_world::{Choices, Event};
use std::alloc::{AllocError as NoMemory, Global};

/// Draws of a generator.
#[derive(Drop)]
pub struct Draws {
    generator: Pcg32,
}

impl Draws {
    pub fn new(seed: u64) -> Self {
        Draws {
            generator: Pcg32::new(seed, 54),
        }
    }

    /// An event of a world of so many ranks, which need not be enabled: one of four is a repeat, and
    /// one of eight a loss where letters may be lost.
    fn event(&mut self, ranks: u16, losses: bool) -> Event
        requires { 0 < ranks }
    {
        let place = self.draw(4);
        match self.draw(8) {
            0 => Event::Repeat(place),
            1 => {
                if losses {
                    Event::Lose(place)
                } else {
                    Event::Repeat(place)
                }
            }
            2 | 3 | 4 => Event::Deliver(place),
            _ => Event::Turn(self.draw(u64::from(ranks)) as u16),
        }
    }

    /// A list of so many events.
    pub fn events(
        &mut self,
        alloc: Global,
        count: usize,
        ranks: u16,
        losses: bool,
    ) -> Result<Vec<Event>, NoMemory>
        requires { 0 < ranks }
    {
        let mut events = Vec::new(alloc);
        for _ in 0..count {
            events.push(self.event(ranks, losses))?;
        }
        Ok(events)
    }
}

impl Choices for Draws {
    fn draw(&mut self, below: u64) -> u64 {
        self.generator.next_u64() % below
    }
}
