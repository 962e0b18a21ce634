//! A source and a sink in memory, of which chosen calls fail.

ghost use Rattle.std.specs.Prelude.{◌≡◌, ℕ, ◌≤◌, List, [], length, min, drop, take, vec_len, vec_capacity, Some, IfOk, OnErr, is_err};
ghost use Rattle.std.specs.Io.{ReadsAtMost, WritesAtMost};
ghost use Rattle.std.specs.Io.KnownBytes.{ReadConsumes, WriteAppends};
ghost use Rattle.samr_io.specs.Faults.{HasCause, HasWriteCause, is_planned};
ghost use Rattle.samr_io.specs.MemSource.{SourceState, source_after, source_failed};
ghost use Rattle.samr_io.specs.MemSink.{SinkState, sink_takes, sink_fails, sink_after, sink_failed};

use super::failed::Failed;
use super::sink::Sink;
use super::source::Source;
use std::alloc::{AllocError as NoMemory, Global};
use std::marker::Model;

/// A source over bytes in memory, of which chosen calls fail.
#[derive(Debug, Drop)]
pub struct MemSource {
    bytes: Vec<u8>,
    at: usize,
    fails: Vec<u64>,
    calls: u64,
    faults: u64,
}

impl Model for MemSource {
    ghost Value = { SourceState };

    ghost view = { λ s. record { left = drop s.at s.bytes.items; fails = s.fails.items; calls = s.calls; faults = s.faults } };

    ghost invariant = { λ s. s.at ≤ vec_len s.bytes };
}

impl MemSource {
    /// A source that gives `bytes`. The calls whose numbers are in `fails` fail, counted from 0.
    pub fn new(bytes: Vec<u8>, fails: Vec<u64>) -> MemSource
        ensures { result ≡ record { left = bytes.items; fails = fails.items; calls = 0; faults = 0 } }
    {
        MemSource {
            bytes,
            at: 0,
            fails,
            calls: 0,
            faults: 0,
        }
    }
}

impl Source for MemSource {
    ghost left = { λ s. Some s.left };

    ghost faults = { λ s. s.faults };

    /// Gives as many bytes as the buffer and what is left allow.
    ///
    /// # Errors
    ///
    /// `Failed` exactly where this call is one of those that fail.
    fn read(&mut self, buf: &mut [u8]) -> Result<usize, Failed>
        ensures bound { ReadsAtMost result buf.new }
        ensures bytes { ReadConsumes (Some self.old.left) (Some self.new.left) result buf.new }
        ensures cause { HasCause self.old.faults self.new.faults result }

        // The exact answer, and the state after it.
        ensures fails { is_err result ≡ is_planned self.old.fails self.old.calls }
        ensures count { IfOk result (λ n. n ≡ min (length buf.old) (length self.old.left)) }
        ensures ok { IfOk result (λ n. self.new ≡ source_after self.old n) }
        ensures err { OnErr result (self.new ≡ source_failed self.old) }
    {
        let call = self.calls;
        self.calls = call.saturating_add(1);
        if self.fails.as_slice().contains(&call) {
            self.faults = self.faults.saturating_add(1);
            return Err(Failed);
        }
        let rest = &self.bytes[self.at..];
        let count = buf.len().min(rest.len());
        buf[..count].copy_from_slice(&rest[..count]);
        self.at += count;
        Ok(count)
    }
}

/// A sink in memory with room for a set number of bytes, of which chosen calls fail.
#[derive(Debug, Drop)]
pub struct MemSink {
    bytes: Vec<u8>,
    room: usize,
    most: usize,
    fails: Vec<u64>,
    calls: u64,
    faults: u64,
}

impl Model for MemSink {
    ghost Value = { SinkState };

    ghost view = { λ s. record { held = s.bytes.items; room = s.room; most = s.most; fails = s.fails.items; calls = s.calls; faults = s.faults } };

    ghost invariant = { λ s. (vec_len s.bytes ≤ s.room) × (s.room ≤ vec_capacity s.bytes) };
}

impl MemSink {
    /// An empty sink with room for `room` bytes that takes at most `most` bytes a call. The calls whose
    /// numbers are in `fails` fail, counted from 0.
    ///
    /// # Errors
    ///
    /// `NoMemory` where there is no memory for `room` bytes. A write takes no memory.
    pub fn new(
        alloc: Global,
        room: usize,
        most: usize,
        fails: Vec<u64>,
    ) -> Result<MemSink, NoMemory>
        ensures { IfOk result (λ sink. sink ≡ record { held = []; room = room; most = most; fails = fails.items; calls = 0; faults = 0 }) }
    {
        Ok(MemSink {
            bytes: Vec::with_capacity(alloc, room)?,
            room,
            most,
            fails,
            calls: 0,
            faults: 0,
        })
    }

    /// The bytes that were taken, in order.
    pub fn held(&self) -> &[u8]
        ensures { result.now ≡ self.now.held }
    {
        self.bytes.as_slice()
    }
}

impl Sink for MemSink {
    ghost held = { λ s. Some s.held };

    ghost faults = { λ s. s.faults };

    /// Takes as many bytes of the piece as one call may take.
    ///
    /// # Errors
    ///
    /// `Failed` exactly where this call is one of those that fail, or the bytes would pass the room.
    fn write(&mut self, piece: &[u8]) -> Result<usize, Failed>
        ensures bound { WritesAtMost result piece.now }
        ensures bytes { WriteAppends (Some self.old.held) (Some self.new.held) result piece.now }
        ensures cause { HasWriteCause self.old.faults self.new.faults result piece.now }

        // The exact answer, and the state after it.
        ensures fails { is_err result ≡ sink_fails self.old piece.now }
        ensures count { IfOk result (λ n. n ≡ sink_takes self.old piece.now) }
        ensures ok { IfOk result (λ n. self.new ≡ sink_after self.old piece.now n) }
        ensures err { OnErr result (self.new ≡ sink_failed self.old) }
    {
        let call = self.calls;
        self.calls = call.saturating_add(1);
        let count = self.most.min(piece.len());
        let free = self.room - self.bytes.len();
        if self.fails.as_slice().contains(&call) || count > free {
            self.faults = self.faults.saturating_add(1);
            return Err(Failed);
        }
        if count == 0 && !piece.is_empty() {
            self.faults = self.faults.saturating_add(1);
        }
        self.bytes.extend_from_slice(&piece[..count]).unwrap();
        Ok(count)
    }
}
