//! A client of a store over TCP.

ghost use Rattle.std.specs.Prelude.{◌≡◌, ◌<◌, length, IfSome};
ghost use Rattle.store_side.specs.Owed.{IsTime};
ghost use Rattle.relay_io.specs.Sides.{HasRisen};
ghost use Rattle.relay_io.specs.Lines.{FitsIn, LineCounts, silent};

use crate::bells::{Bell, SocketRings};
use audit_board::Failed;
use libc::net::{POLLIN, poll};
use libc::types::pollfd;
use relay_io::{Line, LineHeard, LineWhat};
use std::io;
use std::io::{Read, Write};
use std::net::TcpStream;
use std::os::fd::AsRawFd;
use std::sync::{Arc, Wait};
use std::time::{Clock, Duration, Instant};

// How long a write waits for a peer that reads nothing, in seconds.
const WRITE_LIMIT: u64 = 30;

// How long a line waits for bytes, in milliseconds.
const IDLE: i32 = 200;

// How long a client may send nothing, in milliseconds. A session lasts at most 40 seconds without its client, so a client that is
// silent for longer is gone, though its end was never heard.
const SILENCE: i64 = 60_000;

// The last time of a line, in milliseconds.
const LAST: u64 = 4_611_686_018_427_387_903;

/// The time of day as milliseconds of a clock that never goes back: it is read once, and from then on counted.
#[derive(Clone, Copy, Drop)]
pub(crate) struct Ticking {
    since: u64,
    start: Instant,
}

impl Ticking {
    /// Begins to count.
    ///
    /// # Errors
    /// A clock could not be read.
    pub fn new<R: Clock>(rt: &R) -> io::Result<Ticking> {
        let since = rt.since_1970()?.as_millis().min(LAST as u128) as u64;
        let start = Instant::now(rt)?;
        Ok(Ticking { since, start })
    }

    // The time now; `None` where the clock could not be read.
    fn now<R: Clock>(&self, rt: &R) -> Option<i64>
        ensures { IfSome result (λ at. IsTime at) }
    {
        let gone = self.start.elapsed(rt).ok()?.as_millis().min(LAST as u128) as u64;
        Some(self.since.saturating_add(gone).min(LAST) as i64)
    }
}

/// A client of a store at the other end of a TCP stream. It tells nothing of what it hears and writes.
pub struct SocketLine<R: Clock + Wait + Clone + Drop> {
    rt: R,
    stream: TcpStream,
    bell: Arc<Bell>,
    rings: SocketRings<R>,
    ticking: Ticking,
    last: i64,
    heard: i64,
    name: Option<u32>,
    faults: u64,
    ghost timely: { IsTime last },
    ghost heard_timely: { IsTime heard },
}

impl<R: Clock + Wait + Clone + Drop> Drop for SocketLine<R> {
    fn drop(self) {
        if let Some(name) = self.name {
            self.rings.take_down(name);
        }
        let Self {
            rt: _,
            stream: _,
            bell: _,
            rings: _,
            ticking: _,
            last: _,
            heard: _,
            name: _,
            faults: _,
        } = self;
    }
}

// Waits until the stream has something to read, an end or an error, or the bell rings, for a while; fails where the system does.
fn wait(stream: &TcpStream, bell: &Bell) -> Option<(bool, bool)> {
    let mut fds = [stream.as_raw_fd(), bell.socket().as_raw_fd()].map(|fd| pollfd {
        fd,
        events: POLLIN,
        revents: 0,
    });
    if poll(&mut fds, IDLE) < 0 {
        return None;
    }
    Some((fds[0].revents != 0, fds[1].revents != 0))
}

impl<R: Clock + Wait + Clone + Drop> SocketLine<R> {
    /// A line over this stream, which did not fail so far. Writes are sent at once; one that waits for 30 seconds fails, and so does a
    /// line whose client sends nothing for 60 seconds.
    ///
    /// # Errors
    /// An option could not be set on the stream, or a clock could not be read.
    pub(crate) fn new(
        rt: R,
        stream: TcpStream,
        bell: Arc<Bell>,
        rings: SocketRings<R>,
        ticking: Ticking,
    ) -> io::Result<SocketLine<R>> {
        stream.set_nodelay(true)?;
        stream.set_write_timeout(Some(Duration::from_secs(WRITE_LIMIT)))?;
        let Some(start) = ticking.now(&rt) else {
            return Err(io::Error::from(io::ErrorKind::Other));
        };
        Ok(SocketLine {
            rt,
            stream,
            bell,
            rings,
            ticking,
            last: start,
            heard: start,
            name: None,
            faults: 0,
        })
    }

    // The time now, or the last one where the clock cannot be read.
    fn now(&mut self) -> i64
        ensures time { IsTime result }
        ensures same { self.new.faults ≡ self.old.faults }
    {
        if let Some(now) = self.ticking.now(&self.rt) {
            self.last = now;
        }
        self.last
    }

    // Counts a failure.
    fn fail(&mut self) -> LineWhat
        ensures failed { result ≡ LineWhat.Failed }
        ensures counts { HasRisen self.old.faults self.new.faults }
    {
        self.faults = self.faults.saturating_add(1);
        LineWhat::Failed
    }

    // What came first. An error of the system ends the wait as a failure, so that a lasting one is not met again and again.
    fn hear(&mut self, buffer: &mut [u8]) -> LineWhat
        requires { 0 < length buffer.old }
        ensures within { FitsIn (length buffer.old) result }
        ensures counts { LineCounts result (silent self.old.faults) (silent self.new.faults) }
    {
        let Some((ready, rung)) = wait(&self.stream, &self.bell) else {
            return self.fail();
        };
        if rung && self.bell.hush().is_err() {
            return self.fail();
        }
        if !ready {
            return LineWhat::Idle;
        }
        match self.stream.read(buffer) {
            Ok(0) => LineWhat::End,
            Ok(count) => LineWhat::Bytes(count),
            Err(_) => self.fail(),
        }
    }
}

impl<R: Clock + Wait + Clone + Drop> Line for SocketLine<R> {
    ghost use Rattle.relay_io.specs.Lines.{silent};

    ghost told = { λ l. silent l.faults };

    fn next(&mut self, buffer: &mut [u8]) -> LineHeard {
        let what = self.hear(buffer);
        let at = self.now();
        match what {
            LineWhat::Bytes(_) => self.heard = at,
            LineWhat::Idle if at - self.heard > SILENCE => {
                return LineHeard {
                    at,
                    what: self.fail(),
                };
            }
            _ => {}
        }
        LineHeard { at, what }
    }

    fn write(&mut self, piece: &[u8]) -> Result<(), Failed> {
        if self.stream.write_all(piece).is_err() {
            self.faults = self.faults.saturating_add(1);
            return Err(Failed);
        }
        Ok(())
    }

    fn named(&mut self, connection: u32) {
        self.rings.hang(connection, &self.bell);
        self.name = Some(connection);
    }

    fn faults(&self) -> u64 {
        self.faults
    }
}
