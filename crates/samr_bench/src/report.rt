//! What was measured, and how it is printed.

use std::io;
use std::time::Duration;

/// A measurement: how much was done, in how many nanoseconds.
#[derive(Clone, Copy, Debug)]
pub struct Sample {
    pub count: u64,
    pub nanoseconds: u64,
}

impl Sample {
    pub fn new(count: usize, time: Duration) -> Sample {
        Sample {
            count: count as u64,
            nanoseconds: nanoseconds(time),
        }
    }

    /// Nanoseconds for one.
    fn each(self) -> u64 {
        self.nanoseconds / self.count.max(1)
    }
}

/// The nanoseconds of a time, as far as 64 bits count.
pub fn nanoseconds(time: Duration) -> u64 {
    time.as_nanos().min(u128::from(u64::MAX)) as u64
}

/// So many hundredths of one quantity as of another.
fn hundredths(a: u64, b: u64) -> u64 {
    (u128::from(a) * 100 / u128::from(b.max(1))).min(u128::from(u64::MAX)) as u64
}

/// Prints a measurement, and how much more work and time it was than the one before it.
pub fn print_sample<R: Print>(
    rt: &R,
    what: &str,
    sample: Sample,
    before: Option<Sample>,
) -> io::Result<()> {
    println!(rt; "{what} {} each {} ns", sample.count, sample.each())?;
    if let Some(less) = before {
        let work = hundredths(sample.count, less.count);
        let time = hundredths(sample.nanoseconds, less.nanoseconds);
        println!(rt; "  work {work} % time {time} %")?;
    }
    Ok(())
}

/// The nanoseconds that something took by the clock, and those of all processors.
#[derive(Clone, Copy, Debug)]
pub struct Times {
    pub wall: u64,
    pub processor: u64,
}

/// So many letters between so many ranks, with a thread for each rank and with all on one.
#[derive(Clone, Copy, Debug)]
pub struct Case {
    pub ranks: u16,
    pub letters: u64,
    pub threads: Times,
    pub world: Times,
}

impl Case {
    /// How many letters came in a second by the clock, in threads.
    fn each_second(&self) -> u64 {
        let letters = u128::from(self.letters) * 1_000_000_000;
        (letters / u128::from(self.threads.wall.max(1))).min(u128::from(u64::MAX)) as u64
    }
}

/// Prints what threads took, how busy the processors were while they ran, and how much more that is
/// than what one thread took.
pub fn print_case<R: Print>(rt: &R, what: &str, case: Case) -> io::Result<()> {
    let Times { wall, processor } = case.threads;
    print!(rt; "{what} ranks {} letters {}", case.ranks, case.letters)?;
    print!(rt; " each second {}", case.each_second())?;
    print!(rt;
        " wall {} us processor {} us",
        wall / 1000,
        processor / 1000
    )?;
    print!(rt; " busy {} %", hundredths(processor, wall))?;
    let more = hundredths(wall, case.world.wall);
    let worked = hundredths(processor, case.world.processor);
    println!(rt; "; of one thread: wall {more} % processor {worked} %")?;
    Ok(())
}

/// Prints how long one way took for each of its rounds, and what part that is of another way.
pub fn print_race<R: Print>(rt: &R, what: &str, one: Sample, other: Sample) -> io::Result<()> {
    let part = hundredths(one.nanoseconds, other.nanoseconds);
    println!(rt; "{what} each {} ns, of the plain way: {part} %", one.each())?;
    Ok(())
}
