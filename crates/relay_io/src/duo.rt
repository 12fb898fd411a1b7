//! The two sides of a connection, from outside.

ghost use Rattle.std.specs.Prelude.{◌≡◌, ◌<◌, length};
ghost use Rattle.jute_core.specs.Faults.{HasCause, Takes};
ghost use Rattle.relay_io.specs.Sides.{Sides, IsWithin, told_by, Grew, Counts, WritesNothing, ClientStays, StoreStays};

use audit_board::Failed;
use jute_core::Bytes;

/// What one of the sides did.
#[derive(Debug, Drop)]
pub enum DuoEvent {
    /// Bytes of the client came.
    Client(Bytes),
    /// Bytes of the store came.
    Store(Bytes),
    /// The client ended its side.
    ClientEnd,
    /// The store ended its side.
    StoreEnd,
    /// Neither side did anything for a while.
    Idle,
}

/// What came of waiting for both sides.
#[derive(Clone, Copy, Debug, Drop, PartialEq, Eq)]
pub enum Heard {
    /// So many bytes of the client are the first of the buffer.
    Client(usize),
    /// So many bytes of the store are the first of the buffer.
    Store(usize),
    /// The client ended its side.
    ClientEnd,
    /// The store ended its side.
    StoreEnd,
    /// Neither side did anything for a while.
    Idle,
    /// The client's side failed.
    ClientFailed,
    /// The store's side failed.
    StoreFailed,
}

/// A client and a store, to both of which a relay listens and writes.
pub trait Duo {
    /// The events heard so far and the bytes written on each side, where they are told, and how often each side failed.
    ghost told: { Self → Sides };

    /// Waits for both sides, and answers what came first. Bytes are put into the front of the buffer, at least one and at most
    /// as many as it has. A failure comes only where that side's count rose.
    fn next(&mut self, buffer: &mut [u8]) -> Heard
        requires { 0 < length buffer.old }
        ensures within { IsWithin (length buffer.old) result }
        ensures grew { Grew (told self.old).events (told self.new).events (told_by result buffer.new) }
        ensures counts { Counts result (told self.old) (told self.new) }
        ensures unwritten { WritesNothing (told self.old) (told self.new) };

    /// Writes the whole piece to the client. A failure may have written a front of it.
    ///
    /// # Errors
    /// The client's side failed: its count rose.
    fn write_client(&mut self, piece: &[u8]) -> Result<(), Failed>
        ensures bytes { Takes (told self.old).to_client (told self.new).to_client piece.now result }
        ensures cause { HasCause (told self.old).client_faults (told self.new).client_faults result }
        ensures other { StoreStays (told self.old) (told self.new) };

    /// Writes the whole piece to the store. A failure may have written a front of it.
    ///
    /// # Errors
    /// The store's side failed: its count rose.
    fn write_store(&mut self, piece: &[u8]) -> Result<(), Failed>
        ensures bytes { Takes (told self.old).to_store (told self.new).to_store piece.now result }
        ensures cause { HasCause (told self.old).store_faults (told self.new).store_faults result }
        ensures other { ClientStays (told self.old) (told self.new) };

    /// How often the client's side failed, up to the last value of a u64.
    fn client_faults(&self) -> u64
        ensures { result ≡ (told self.now).client_faults };

    /// How often the store's side failed, up to the last value of a u64.
    fn store_faults(&self) -> u64
        ensures { result ≡ (told self.now).store_faults };
}
