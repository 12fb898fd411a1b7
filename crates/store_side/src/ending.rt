//! Why the store's side of a connection is over.

ghost use Rattle.std.specs.Prelude.{◌≡◌};

use jute_core::{Memory, Refusal};

/// Why the store takes nothing more from a connection. What waits for the connection then can still be pulled.
#[derive(Clone, Copy, Debug, Drop, PartialEq, Eq)]
pub enum StoreEnding {
    /// A frame is no connect request, or no request behind one.
    Malformed(Refusal),
    /// The length of a frame is negative or above 134,217,728 bytes.
    TooLong { length: i32 },
    /// The client has seen a later zxid than the store's last one.
    AheadOfUs { seen: i64, last: i64 },
    /// The session that was asked for is not live under its password, or was not heard in time.
    Expired { session: i64 },
    /// Another connection has the session now.
    Moved { session: i64 },
    /// The session was closed.
    SessionClosed,
    /// The connection was lost.
    Lost,
    /// The order has no room for the frame.
    JournalFull,
    /// The answer would have a body of so many bytes, which is more than 2,147,483,647.
    AnswerTooLong { length: u64 },
    /// No number is left for a connection.
    NumbersUsed,
    /// There was no memory.
    Memory,
}

impl From<Memory> for StoreEnding {
    ghost use Rattle.store_side.specs.declared.ending.StoreEnding.TheVariants.{Memory as OutOfMemory};

    ghost from_gives = { λ _ e. e ≡ OutOfMemory };

    fn from(_: Memory) -> StoreEnding {
        StoreEnding::Memory
    }
}
