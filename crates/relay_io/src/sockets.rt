//! A client and a store over TCP.

ghost use Rattle.std.specs.Prelude.{◌≡◌, ◌<◌, length, None};
ghost use Rattle.jute_core.specs.Faults.{HasCause, Takes};
ghost use Rattle.relay_io.specs.Sides.{IsWithin, told_by, Grew, Counts, WritesNothing, ClientStays, StoreStays, untold};

use crate::duo::{Duo, Heard};
use audit_board::Failed;
use libc::net::{POLLIN, poll};
use libc::types::pollfd;
use std::io::{self, Read, Write};
use std::net::TcpStream;
use std::os::fd::AsRawFd;
use std::time::Duration;

// How long a write waits for a peer that reads nothing, in seconds.
const WRITE_LIMIT: u64 = 30;

// How long both sides may be silent, in milliseconds. A session lasts at most 40 seconds without its client, so a client that is
// silent for longer is gone, though its end was never heard.
const SILENCE: i32 = 60_000;

/// A client and a store, each at the other end of a TCP stream. It tells nothing of what it hears and writes.
#[derive(Drop)]
pub struct SocketDuo {
    client: TcpStream,
    store: TcpStream,
    store_first: bool,
    client_faults: u64,
    store_faults: u64,
}

// Sends each write at once, and gives up a write that waits too long.
fn set_up(stream: &TcpStream) -> io::Result<()> {
    stream.set_nodelay(true)?;
    stream.set_write_timeout(Some(Duration::from_secs(WRITE_LIMIT)))
}

// Which of two streams, the client's and the store's, have something to read, an end or an error. `None` where neither has for too
// long, or the system failed.
fn ready(client: &TcpStream, store: &TcpStream) -> Option<(bool, bool)> {
    let mut fds = [client.as_raw_fd(), store.as_raw_fd()].map(|fd| pollfd {
        fd,
        events: POLLIN,
        revents: 0,
    });
    if poll(&mut fds, SILENCE) <= 0 {
        return None;
    }
    Some((fds[0].revents != 0, fds[1].revents != 0))
}

impl SocketDuo {
    /// A duo over these streams, of which no side failed so far. Writes are sent at once; one that waits for 30 seconds fails. Where
    /// both sides are silent for 60 seconds, the client failed.
    ///
    /// # Errors
    /// An option could not be set on a stream.
    pub fn new(client: TcpStream, store: TcpStream) -> io::Result<SocketDuo> {
        set_up(&client)?;
        set_up(&store)?;
        Ok(SocketDuo {
            client,
            store,
            store_first: false,
            client_faults: 0,
            store_faults: 0,
        })
    }

    // Counts a failure of the client.
    fn fail_client(&mut self) -> Heard
        ensures failed { result ≡ Heard.ClientFailed }
        ensures counts { Counts result (untold self.old.client_faults self.old.store_faults) (untold self.new.client_faults self.new.store_faults) }
    {
        self.client_faults = self.client_faults.saturating_add(1);
        Heard::ClientFailed
    }

    // Reads from the client.
    fn hear_client(&mut self, buffer: &mut [u8]) -> Heard
        requires { 0 < length buffer.old }
        ensures within { IsWithin (length buffer.old) result }
        ensures counts { Counts result (untold self.old.client_faults self.old.store_faults) (untold self.new.client_faults self.new.store_faults) }
    {
        match self.client.read(buffer) {
            Ok(0) => Heard::ClientEnd,
            Ok(count) => Heard::Client(count),
            Err(_) => self.fail_client(),
        }
    }

    // Reads from the store.
    fn hear_store(&mut self, buffer: &mut [u8]) -> Heard
        requires { 0 < length buffer.old }
        ensures within { IsWithin (length buffer.old) result }
        ensures counts { Counts result (untold self.old.client_faults self.old.store_faults) (untold self.new.client_faults self.new.store_faults) }
    {
        match self.store.read(buffer) {
            Ok(0) => Heard::StoreEnd,
            Ok(count) => Heard::Store(count),
            Err(_) => {
                self.store_faults = self.store_faults.saturating_add(1);
                Heard::StoreFailed
            }
        }
    }
}

impl Duo for SocketDuo {
    ghost use Rattle.relay_io.specs.Sides.{untold};

    ghost told = { λ s. untold s.client_faults s.store_faults };

    // A side that is ready goes first in turn, so that neither keeps the other waiting.
    fn next(&mut self, buffer: &mut [u8]) -> Heard {
        let Some((client, store)) = ready(&self.client, &self.store) else {
            return self.fail_client();
        };
        let store_first = self.store_first;
        self.store_first = !store_first;
        if store && (store_first || !client) {
            return self.hear_store(buffer);
        }
        if client {
            return self.hear_client(buffer);
        }
        Heard::Idle
    }

    fn write_client(&mut self, piece: &[u8]) -> Result<(), Failed> {
        if self.client.write_all(piece).is_err() {
            self.client_faults = self.client_faults.saturating_add(1);
            return Err(Failed);
        }
        Ok(())
    }

    fn write_store(&mut self, piece: &[u8]) -> Result<(), Failed> {
        if self.store.write_all(piece).is_err() {
            self.store_faults = self.store_faults.saturating_add(1);
            return Err(Failed);
        }
        Ok(())
    }

    fn client_faults(&self) -> u64 {
        self.client_faults
    }

    fn store_faults(&self) -> u64 {
        self.store_faults
    }
}
