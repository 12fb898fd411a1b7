//! A host over TCP.

ghost use Rattle.std.specs.Prelude.{◌≡◌, ◌≤◌, IfOk};
ghost use Rattle.serve_cli.specs.Hosts.{Accepts, told_of};

use crate::bells::{Bell, SocketRings};
use crate::host::{Accepted, Host};
use crate::socket_line::{SocketLine, Ticking};
use crate::texts::push_line;
use audit_board::{Failed, Sink};
use jute_core::Memory;
use relay_io::SocketDuo;
use std::alloc::Global;
use std::net::{Net, TcpListener, TcpStream, ToSocketAddrs};
use std::sync::{Arc, Wait};
use std::thread::Threads;
use std::time::{Clock, Duration, Instant};
use std::{io, thread};

// How long a connect to the store waits for it, in seconds.
const CONNECT_LIMIT: u64 = 5;

// How long the host waits after an accept that was refused, in milliseconds.
const PAUSE: u64 = 20;

// How often it tells of such accepts at most, in seconds.
const TELLS: u64 = 1;

// The numbers of errors of an accept that no later accept is without: EBADF, EINVAL, ENOTSOCK and EOPNOTSUPP.
const LASTING: [i32; 4] = [9, 22, 88, 95];

/// A host over TCP: it listens at an address, and has each job run on a thread of its own.
///
/// An accept that is refused, as for want of descriptors, is counted as a client that was skipped.
#[derive(Drop)]
pub struct TcpHost<R: Clock + Wait + Clone + Drop, K: Sink> {
    alloc: Global,
    rt: R,
    notes: K,
    rings: SocketRings<R>,
    ticking: Ticking,
    listener: Option<TcpListener>,
    told_at: Option<Instant>,
    accepted: u64,
    started: u64,
    skipped: u64,
    faults: u64,
    ghost within: { started ≤ accepted },
}

// Whether an accept that failed so would fail so again and again.
fn is_lasting(fault: &io::Error) -> bool {
    match fault.raw_os_error() {
        Some(code) => LASTING.contains(&code),
        None => false,
    }
}

// The store at this address.
fn reach<R: Net<Listener = TcpListener, Stream = TcpStream>>(
    rt: &R,
    store: &str,
) -> io::Result<TcpStream> {
    let mut last = io::Error::from(io::ErrorKind::NotFound);
    for address in store.to_socket_addrs(rt)? {
        match TcpStream::connect_timeout(rt, &address, Duration::from_secs(CONNECT_LIMIT)) {
            Ok(stream) => return Ok(stream),
            Err(fault) => last = fault,
        }
    }
    Err(last)
}

// Says a line in two parts, if it can.
fn say<K: Sink>(alloc: Global, notes: &mut K, word: &str, value: &str) {
    let mut text = String::new(alloc);
    if push_line(&mut text, word, value).is_ok() {
        let _ = notes.write(text.as_bytes());
    }
}

// Says that an accept was refused, unless it said so a moment ago.
fn tell_refused<R: Clock, K: Sink>(
    rt: &R,
    alloc: Global,
    notes: &mut K,
    told_at: &mut Option<Instant>,
) {
    let Ok(now) = Instant::now(rt) else {
        return;
    };
    if let Some(before) = told_at {
        if now.saturating_duration_since(*before) < Duration::from_secs(TELLS) {
            return;
        }
    }
    *told_at = Some(now);
    say(alloc, notes, "cannot accept", "");
}

impl<
    R: Net<Listener = TcpListener, Stream = TcpStream> + Clock + Wait + Clone + Drop,
    K: Sink,
> TcpHost<R, K> {
    /// A host that listens nowhere yet. What it has to say of clients that it skips goes to `notes`.
    ///
    /// # Errors
    /// A clock could not be read, or there was no memory.
    pub fn new(alloc: Global, rt: R, notes: K) -> io::Result<TcpHost<R, K>>
        ensures fresh { IfOk result (λ host. host.accepted ≡ 0) }
    {
        let ticking = Ticking::new(&rt)?;
        let rings = SocketRings::new(alloc, rt.clone()?)?;
        Ok(TcpHost {
            alloc,
            rt,
            notes,
            rings,
            ticking,
            listener: None,
            told_at: None,
            accepted: 0,
            started: 0,
            skipped: 0,
            faults: 0,
        })
    }

    // Counts a client that was skipped.
    fn skip<T>(&mut self) -> Accepted<T>
        ensures { Accepts result (told_of self.old.accepted self.old.started self.old.skipped self.old.faults)
            (told_of self.new.accepted self.new.started self.new.skipped self.new.faults) }
    {
        self.skipped = self.skipped.saturating_add(1);
        Accepted::Skipped
    }

    // Counts a failure.
    fn fail<T>(&mut self) -> Accepted<T>
        ensures { Accepts result (told_of self.old.accepted self.old.started self.old.skipped self.old.faults)
            (told_of self.new.accepted self.new.started self.new.skipped self.new.faults) }
    {
        self.faults = self.faults.saturating_add(1);
        Accepted::Failed
    }

    // After an accept that was refused: waits a little, unless it would be refused so again and again.
    fn refuse<T>(&mut self, fault: io::Error) -> Accepted<T>
        ensures { Accepts result (told_of self.old.accepted self.old.started self.old.skipped self.old.faults)
            (told_of self.new.accepted self.new.started self.new.skipped self.new.faults) }
    {
        if is_lasting(&fault) {
            return self.fail();
        }
        tell_refused(&self.rt, self.alloc, &mut self.notes, &mut self.told_at);
        thread::sleep(&self.rt, Duration::from_millis(PAUSE));
        self.skip()
    }

    // The stream of the next client.
    fn accept(&self) -> io::Result<TcpStream> {
        match &self.listener {
            Some(listener) => Ok(listener.accept()?.0),
            None => Err(io::Error::from_raw_os_error(LASTING[1])),
        }
    }

    // A line over a stream, with a bell of its own.
    fn line(&self, stream: TcpStream) -> io::Result<SocketLine<R>> {
        let bell = Arc::new(self.alloc, Bell::new(&self.rt)?)?;
        let rings = self.rings.share()?;
        SocketLine::new(self.rt.clone()?, stream, bell, rings, self.ticking)
    }
}

impl<
    R: Net<Listener = TcpListener, Stream = TcpStream>
        + Threads
        + Clock
        + Wait
        + Clone
        + Drop
        + Send
        + Sync
        + 'static,
    K: Sink,
> Host for TcpHost<R, K> {
    type Pair = SocketDuo;

    type One = SocketLine<R>;

    type Rings = SocketRings<R>;

    type Rt = R;

    ghost use Rattle.serve_cli.specs.Hosts.{told_of};

    ghost told = { λ h. told_of h.accepted h.started h.skipped h.faults };

    fn listen(&mut self, address: &str) -> Result<(), Failed> {
        match TcpListener::bind(&self.rt, address) {
            Ok(listener) => {
                self.listener = Some(listener);
                Ok(())
            }
            Err(_) => {
                self.faults = self.faults.saturating_add(1);
                Err(Failed)
            }
        }
    }

    fn rings(&mut self) -> Result<SocketRings<R>, Memory> {
        Ok(self.rings.share()?)
    }

    fn accept_pair(&mut self, store: &str) -> Accepted<SocketDuo> {
        let client = match self.accept() {
            Ok(client) => client,
            Err(fault) => return self.refuse(fault),
        };
        let Ok(far) = reach(&self.rt, store) else {
            say(self.alloc, &mut self.notes, "cannot reach ", store);
            return self.skip();
        };
        match SocketDuo::new(client, far) {
            Ok(duo) => {
                self.accepted += 1;
                Accepted::One(duo)
            }
            Err(_) => self.skip(),
        }
    }

    fn accept_one(&mut self) -> Accepted<SocketLine<R>> {
        let client = match self.accept() {
            Ok(client) => client,
            Err(fault) => return self.refuse(fault),
        };
        match self.line(client) {
            Ok(line) => {
                self.accepted += 1;
                Accepted::One(line)
            }
            Err(fault) => self.refuse(fault),
        }
    }

    fn start(&mut self) -> bool {
        self.started += 1;
        true
    }

    fn accepted(&self) -> u64 {
        self.accepted
    }

    fn started(&self) -> u64 {
        self.started
    }

    fn skipped(&self) -> u64 {
        self.skipped
    }

    fn ended(&self) -> bool {
        false
    }

    fn faults(&self) -> u64 {
        self.faults
    }

    ghost within = { λ h. h.within };
}
