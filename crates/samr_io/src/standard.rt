//! A source and a sink over std's readers and writers.

ghost use Rattle.std.specs.Prelude.{◌≡◌};

use super::failed::Failed;
use super::sink::Sink;
use super::source::Source;
use std::io::{Read, Write};

/// A source over a reader of std, which counts the reads that fail.
#[derive(Drop)]
pub struct StdSource<T> {
    reader: T,
    faults: u64,
}

impl<T: Read> StdSource<T> {
    /// A source that reads from `reader` and has seen no fault.
    pub fn new(reader: T) -> StdSource<T>
        ensures left { ⟦<StdSource<T> as Source>⟧.left result ≡ T.remaining reader }
        ensures faults { ⟦<StdSource<T> as Source>⟧.faults result ≡ 0 }
    {
        StdSource { reader, faults: 0 }
    }
}

impl<T: Read> Source for StdSource<T> {
    ghost left = { λ s. T.remaining s.reader };

    ghost faults = { λ s. s.faults };

    fn read(&mut self, buf: &mut [u8]) -> Result<usize, Failed> {
        match self.reader.read(buf) {
            Ok(count) => Ok(count),
            Err(_) => {
                self.faults = self.faults.saturating_add(1);
                Err(Failed)
            }
        }
    }
}

/// A sink over a writer of std, which counts the writes that fail or stall.
#[derive(Drop)]
pub struct StdSink<T> {
    writer: T,
    faults: u64,
}

impl<T: Write> StdSink<T> {
    /// A sink that writes to `writer` and has seen no fault.
    pub fn new(writer: T) -> StdSink<T>
        ensures held { ⟦<StdSink<T> as Sink>⟧.held result ≡ T.contents writer }
        ensures faults { ⟦<StdSink<T> as Sink>⟧.faults result ≡ 0 }
    {
        StdSink { writer, faults: 0 }
    }
}

impl<T: Write> Sink for StdSink<T> {
    ghost held = { λ s. T.contents s.writer };

    ghost faults = { λ s. s.faults };

    fn write(&mut self, piece: &[u8]) -> Result<usize, Failed> {
        match self.writer.write(piece) {
            Ok(count) => {
                if count == 0 && !piece.is_empty() {
                    self.faults = self.faults.saturating_add(1);
                }
                Ok(count)
            }
            Err(_) => {
                self.faults = self.faults.saturating_add(1);
                Err(Failed)
            }
        }
    }
}
