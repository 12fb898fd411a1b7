//! Why a session ends.

use jute_core::Refusal;
use watch_rewrite::EventFlaw;

/// Why a session ended. It takes nothing more then.
#[derive(Clone, Copy, Debug, Drop, PartialEq, Eq)]
pub enum Ending {
    /// The reply to closeSession was handed down.
    Closed,
    /// A frame of the client is no connect request, or later no request.
    ClientMalformed(Refusal),
    /// The length of a frame of the client is negative or above 4,194,303.
    ClientTooLong { length: i32 },
    /// A frame of the store is no connect response of the request's form, no event, or no reply to the oldest open request.
    StoreMalformed(Refusal),
    /// The length of a frame of the store is negative or above 134,217,728.
    StoreTooLong { length: i32 },
    /// A reply has another xid than the oldest open request.
    WrongXid { expected: i32, got: i32 },
    /// The store answered though nothing is open; the first int of its frame.
    NothingOpen { xid: i32 },
    /// An event is none that a client may be told.
    BadEvent(EventFlaw),
    /// With the request the queue would have this weight in bytes, above 67,108,864.
    QueueFull { weight: u64 },
    /// Fewer IVs are left than the request has payloads.
    IvSpent,
    /// The client ended its connection, or it was cut.
    ClientEnd,
    /// The store ended its connection.
    StoreEnd,
    /// The client's connection failed.
    ClientFault,
    /// The store's connection failed.
    StoreFault,
    /// The caller's turns were used up.
    Turns,
    /// There was no memory.
    Memory,
}
