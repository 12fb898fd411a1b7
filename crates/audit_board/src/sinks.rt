//! Sinks of bytes, which count their faults.

ghost use Rattle.std.specs.Prelude.{◌≡◌, ℕ, List, [], Option, Some, None, OnOk};
ghost use Rattle.std.specs.Io.KnownBytes.{Appends};
ghost use Rattle.jute_core.specs.Faults.{HasCause, Takes};
ghost use Rattle.audit_board.specs.Sinks.{SinkState, Writes};

use std::alloc::Global;
use std::io::Write;
use std::marker::Model;

/// A read or a write failed.
#[derive(Clone, Copy, Debug, Drop, PartialEq, Eq)]
pub struct Failed;

/// Where bytes go.
pub trait Sink: Drop {
    /// The bytes taken so far, where the sink tells them.
    ghost taken: { Self → Option (List ℕ) };
    /// How often a write failed, up to the last value of a u64.
    ghost faults: { Self → ℕ };

    /// Takes the whole piece. A failure may have taken a front of it.
    fn write(&mut self, piece: &[u8]) -> Result<(), Failed>
        ensures bytes { Takes (taken self.old) (taken self.new) piece.now result }
        ensures cause { HasCause (faults self.old) (faults self.new) result };

    /// How often a write failed.
    fn faults(&self) -> u64
        ensures { result ≡ faults self.now };
}

/// A sink in memory. A write fails where its number is listed, and for want of memory.
#[derive(Drop)]
pub struct MemorySink {
    taken: Vec<u8>,
    calls: u64,
    fails: Vec<u64>,
    faults: u64,
    short: u64,
}

impl Model for MemorySink {
    ghost use Rattle.audit_board.specs.Sinks.{SinkState};

    ghost Value = { SinkState };

    ghost view = { λ s. record { taken = s.taken.items; calls = s.calls; fails = s.fails.items; faults = s.faults; short = s.short } };
}

impl MemorySink {
    /// A sink that has taken nothing, and fails at the calls so numbered, from 0.
    pub fn new(alloc: Global, fails: Vec<u64>) -> MemorySink
        ensures { result ≡ record { taken = []; calls = 0; fails = fails.items; faults = 0; short = 0 } }
    {
        MemorySink {
            taken: Vec::new(alloc),
            calls: 0,
            fails,
            faults: 0,
            short: 0,
        }
    }

    /// The bytes taken.
    pub fn taken(&self) -> &[u8]
        ensures { result.now ≡ self.now.taken }
    {
        self.taken.as_slice()
    }

    /// How often there was no memory for a piece.
    pub fn short(&self) -> u64
        ensures { result ≡ self.now.short }
    {
        self.short
    }
}

impl Sink for MemorySink {
    ghost taken = { λ s. Some s.taken };

    ghost faults = { λ s. s.faults };

    fn write(&mut self, piece: &[u8]) -> Result<(), Failed>
        ensures bytes { Takes (Some self.old.taken) (Some self.new.taken) piece.now result }
        ensures cause { HasCause self.old.faults self.new.faults result }
        ensures state { Writes piece.now self.old self.new result }
    {
        let call = self.calls;
        self.calls = call.saturating_add(1);
        if self.fails.contains(&call) {
            self.faults = self.faults.saturating_add(1);
            return Err(Failed);
        }
        if self.taken.extend_from_slice(piece).is_err() {
            self.faults = self.faults.saturating_add(1);
            self.short = self.short.saturating_add(1);
            return Err(Failed);
        }
        Ok(())
    }

    fn faults(&self) -> u64 {
        self.faults
    }
}

/// A sink over a standard stream. It tells nothing of what it took.
#[derive(Drop)]
pub struct StdSink<W: Write + Drop> {
    stream: W,
    faults: u64,
}

impl<W: Write + Drop> StdSink<W> {
    /// A sink of which no write failed so far.
    pub fn new(stream: W) -> StdSink<W>
        ensures { result.faults ≡ 0 }
    {
        StdSink { stream, faults: 0 }
    }
}

impl<W: Write + Drop> Sink for StdSink<W> {
    ghost taken = { λ s. None };

    ghost faults = { λ s. s.faults };

    // The stream itself is handed the whole piece. That it is flushed no clause can say: std's `flush` says of a stream only
    // that it keeps what it holds.
    fn write(&mut self, piece: &[u8]) -> Result<(), Failed>
        ensures bytes { Takes None None piece.now result }
        ensures cause { HasCause self.old.faults self.new.faults result }
        ensures handed { OnOk result (Appends (W.contents self.old.stream) (W.contents self.new.stream) piece.now) }
    {
        let done = self.stream.write_all(piece).is_ok() && self.stream.flush().is_ok();
        if !done {
            self.faults = self.faults.saturating_add(1);
            return Err(Failed);
        }
        Ok(())
    }

    fn faults(&self) -> u64 {
        self.faults
    }
}
