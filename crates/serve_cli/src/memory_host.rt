//! A host of connections in memory.

ghost use Rattle.std.specs.Prelude.{◌≡◌, ◌≤◌, IsTrue, false};
ghost use Rattle.jute_core.specs.Faults.{Rose};
ghost use Rattle.serve_cli.specs.Hosts.{Rests, told_all};

use crate::host::{Accepted, Host};
use audit_board::Failed;
use jute_core::{Bytes, Memory};
use relay_io::{Duo, Heard, Line, LineHeard, MemoryDuo, MemoryLine};
use std::alloc::Global;
use std::sync::{Arc, Mutex, Wait};
use std::thread::Threads;
use tree_hall::NoBells;

// What was written to one client.
type Taken = Arc<Mutex<Vec<u8>>>;

/// A client and a store in memory; the host sees what is written to the client.
#[derive(Drop)]
pub struct HostedDuo<R: Wait + Clone + Drop> {
    rt: R,
    duo: MemoryDuo,
    taken: Taken,
}

// Adds what was written, if there is memory for it. Waits for the host.
fn keep<R: Wait>(rt: &R, taken: &Taken, piece: &[u8]) {
    let mut bytes = taken.lock(rt);
    let _ = bytes.extend_from_slice(piece);
}

impl<R: Wait + Clone + Drop> Duo for HostedDuo<R> {
    ghost use Rattle.relay_io.specs.MemoryDuos.{told_of};

    ghost told = { λ d. told_of d.duo };

    fn next(&mut self, buffer: &mut [u8]) -> Heard {
        self.duo.next(buffer)
    }

    fn write_client(&mut self, piece: &[u8]) -> Result<(), Failed> {
        self.duo.write_client(piece)?;
        keep(&self.rt, &self.taken, piece);
        Ok(())
    }

    fn write_store(&mut self, piece: &[u8]) -> Result<(), Failed> {
        self.duo.write_store(piece)
    }

    fn client_faults(&self) -> u64 {
        self.duo.client_faults()
    }

    fn store_faults(&self) -> u64 {
        self.duo.store_faults()
    }
}

/// A client of a store in memory; the host sees what is written to it.
#[derive(Drop)]
pub struct HostedLine<R: Wait + Clone + Drop> {
    rt: R,
    line: MemoryLine,
    taken: Taken,
}

impl<R: Wait + Clone + Drop> Line for HostedLine<R> {
    ghost use Rattle.relay_io.specs.MemoryLines.{line_told};

    ghost told = { λ l. line_told l.line };

    fn next(&mut self, buffer: &mut [u8]) -> LineHeard {
        self.line.next(buffer)
    }

    fn write(&mut self, piece: &[u8]) -> Result<(), Failed> {
        self.line.write(piece)?;
        keep(&self.rt, &self.taken, piece);
        Ok(())
    }

    fn named(&mut self, connection: u32) {
        self.line.named(connection);
    }

    fn faults(&self) -> u64 {
        self.line.faults()
    }
}

/// A host of connections in memory: it gives the pairs and the lines in order, has each job run at once, and keeps what was written to
/// each client.
///
/// The calls of `listen`, `accept_pair` and `accept_one` are numbered together, from 0. One whose number is listed fails. A connection
/// for which there is no memory is skipped.
#[derive(Drop)]
pub struct MemoryHost<R: Wait + Clone + Drop> {
    alloc: Global,
    rt: R,
    pairs: Vec<MemoryDuo>,
    lines: Vec<MemoryLine>,
    taken: Vec<Taken>,
    calls: u64,
    fails: Vec<u64>,
    accepted: u64,
    started: u64,
    skipped: u64,
    ended: bool,
    faults: u64,
    ghost within: { started ≤ accepted },
}

impl<R: Wait + Clone + Drop> MemoryHost<R> {
    /// A host of these connections, of which the calls with these numbers fail.
    pub fn new(
        alloc: Global,
        rt: R,
        pairs: Vec<MemoryDuo>,
        lines: Vec<MemoryLine>,
        fails: Vec<u64>,
    ) -> MemoryHost<R>
        ensures fresh { result.accepted ≡ 0 }
        ensures open { result.ended ≡ false }
    {
        MemoryHost {
            alloc,
            rt,
            pairs,
            lines,
            taken: Vec::new(alloc),
            calls: 0,
            fails,
            accepted: 0,
            started: 0,
            skipped: 0,
            ended: false,
            faults: 0,
        }
    }

    /// What was written to the client of the connection of this number, counted from 1 as they were accepted; of another number,
    /// nothing.
    ///
    /// # Errors
    /// `Memory`.
    pub fn written(&self, connection: u32) -> Result<Bytes, Memory> {
        let index = (connection as usize).wrapping_sub(1);
        let Some(taken) = self.taken.get(index) else {
            return Ok(Bytes::of(Vec::new(self.alloc)));
        };
        let bytes = taken.lock(&self.rt);
        Ok(Bytes::of(Vec::from_slice(self.alloc, bytes.as_slice())?))
    }

    // Counts a call, and answers whether it fails.
    fn fails(&mut self) -> bool
        ensures rests { Rests (told_all self.old.accepted self.old.started self.old.skipped self.old.ended self.old.faults)
            (told_all self.new.accepted self.new.started self.new.skipped self.new.ended self.new.faults) }
        ensures cause { IsTrue result → Rose self.old.faults self.new.faults }
    {
        let call = self.calls;
        self.calls = call.saturating_add(1);
        let fails = self.fails.contains(&call);
        if fails {
            self.faults = self.faults.saturating_add(1);
        }
        fails
    }

    // What a new connection waits by, and the list of what is written to its client.
    fn share(&mut self) -> Result<(R, Taken), Memory>
        ensures same { told_all self.new.accepted self.new.started self.new.skipped self.new.ended self.new.faults
            ≡ told_all self.old.accepted self.old.started self.old.skipped self.old.ended self.old.faults }
    {
        let rt = self.rt.clone()?;
        let taken = Arc::new(self.alloc, Mutex::new(Vec::new(self.alloc)))?;
        self.taken.push(Arc::try_clone(&taken)?)?;
        Ok((rt, taken))
    }
}

impl<R: Threads + Wait + Clone + Drop + Send + Sync + 'static> Host for MemoryHost<R> {
    type Pair = HostedDuo<R>;

    type One = HostedLine<R>;

    type Rings = NoBells;

    type Rt = R;

    ghost use Rattle.serve_cli.specs.Hosts.{told_all};

    ghost told = { λ h. told_all h.accepted h.started h.skipped h.ended h.faults };

    fn listen(&mut self, _address: &str) -> Result<(), Failed> {
        if self.fails() {
            return Err(Failed);
        }
        Ok(())
    }

    fn rings(&mut self) -> Result<NoBells, Memory> {
        Ok(NoBells)
    }

    fn accept_pair(&mut self, _store: &str) -> Accepted<HostedDuo<R>> {
        if self.fails() {
            return Accepted::Failed;
        }
        if self.pairs.is_empty() {
            self.ended = true;
            return Accepted::NoMore;
        }
        let duo = self.pairs.remove(0);
        match self.share() {
            Ok((rt, taken)) => {
                self.accepted += 1;
                Accepted::One(HostedDuo { rt, duo, taken })
            }
            Err(_) => {
                self.skipped = self.skipped.saturating_add(1);
                Accepted::Skipped
            }
        }
    }

    fn accept_one(&mut self) -> Accepted<HostedLine<R>> {
        if self.fails() {
            return Accepted::Failed;
        }
        if self.lines.is_empty() {
            self.ended = true;
            return Accepted::NoMore;
        }
        let line = self.lines.remove(0);
        match self.share() {
            Ok((rt, taken)) => {
                self.accepted += 1;
                Accepted::One(HostedLine { rt, line, taken })
            }
            Err(_) => {
                self.skipped = self.skipped.saturating_add(1);
                Accepted::Skipped
            }
        }
    }

    fn start(&mut self) -> bool {
        self.started += 1;
        false
    }

    fn accepted(&self) -> u64 {
        self.accepted
    }

    fn started(&self) -> u64 {
        self.started
    }

    fn skipped(&self) -> u64 {
        self.skipped
    }

    fn ended(&self) -> bool {
        self.ended
    }

    fn faults(&self) -> u64 {
        self.faults
    }

    ghost within = { λ h. h.within };
}
