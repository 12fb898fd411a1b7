//! The one side of a connection that a store serves.

ghost use Rattle.std.specs.Prelude.{◌≡◌, ◌<◌, length};
ghost use Rattle.jute_core.specs.Faults.{HasCause, Takes};
ghost use Rattle.store_side.specs.Owed.{IsTime};
ghost use Rattle.relay_io.specs.Lines.{LineTold, FitsIn, line_events, GrewBy, LineCounts};

use audit_board::Failed;
use jute_core::Bytes;

/// What the client of a line did, with the time in milliseconds.
#[derive(Debug, Drop)]
pub enum LineEvent {
    /// Bytes of it came.
    Bytes { at: i64, bytes: Bytes },
    /// It ended its side.
    End { at: i64 },
    /// It did nothing for a while, or bytes wait for it.
    Idle { at: i64 },
}

/// What came of waiting for a client.
#[derive(Clone, Copy, Debug, Drop, PartialEq, Eq)]
pub enum LineWhat {
    /// So many bytes of it are the first of the buffer.
    Bytes(usize),
    /// It ended its side.
    End,
    /// It did nothing for a while, or bytes wait for it.
    Idle,
    /// The line failed.
    Failed,
}

/// What came of waiting for a client, and when.
#[derive(Clone, Copy, Debug, Drop, PartialEq, Eq)]
pub struct LineHeard {
    /// The time, in milliseconds.
    pub at: i64,
    /// What came.
    pub what: LineWhat,
}

/// A client of a store.
pub trait Line {
    /// The events heard so far and the bytes written, where they are told, and how often the line failed.
    ghost told: { Self → LineTold };

    /// Waits for the client, and answers what came first. Bytes are put into the front of the buffer, at least one and at most as
    /// many as it has. The time is at least 0 and below 2^62. A failure comes only where the count rose.
    fn next(&mut self, buffer: &mut [u8]) -> LineHeard
        requires { 0 < length buffer.old }
        ensures time { IsTime result.at }
        ensures within { FitsIn (length buffer.old) result.what }
        ensures grew { GrewBy (told self.old).events (told self.new).events (line_events result.at result.what buffer.new) }
        ensures counts { LineCounts result.what (told self.old) (told self.new) }
        ensures unwritten { (told self.new).written ≡ (told self.old).written };

    /// Writes the whole piece to the client. A failure may have written a front of it.
    ///
    /// # Errors
    /// The line failed: its count rose.
    fn write(&mut self, piece: &[u8]) -> Result<(), Failed>
        ensures bytes { Takes (told self.old).written (told self.new).written piece.now result }
        ensures cause { HasCause (told self.old).faults (told self.new).faults result }
        ensures unheard { (told self.new).events ≡ (told self.old).events };

    /// Tells the number by which the store knows the connection, so that the line can hear that bytes wait for it.
    fn named(&mut self, connection: u32)
        ensures { told self.new ≡ told self.old };

    /// How often the line failed, up to the last value of a u64.
    fn faults(&self) -> u64
        ensures { result ≡ (told self.now).faults };
}
