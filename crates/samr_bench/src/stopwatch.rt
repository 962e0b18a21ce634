//! The time of the clock and of the processors.

use crate::report::{Times, nanoseconds};
use std::io;
use std::rt::Clock;
use std::time::{CpuClock, Duration, Instant};

/// Measures the time of the clock and of the processors from its start on.
#[derive(Clone, Copy, Debug)]
pub struct Stopwatch {
    wall: Instant,
    processor: Duration,
}

impl Stopwatch {
    pub fn start<R: Clock + CpuClock>(rt: &R) -> io::Result<Stopwatch> {
        let processor = rt.process_cpu_time()?;
        let wall = Instant::now(rt)?;
        Ok(Stopwatch { wall, processor })
    }

    /// What was used since the start, by all threads.
    pub fn read<R: Clock + CpuClock>(&self, rt: &R) -> io::Result<Times> {
        let wall = self.wall.elapsed(rt)?;
        let processor = rt.process_cpu_time()?.saturating_sub(self.processor);
        Ok(Times {
            wall: nanoseconds(wall),
            processor: nanoseconds(processor),
        })
    }
}
