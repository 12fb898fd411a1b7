//! What a caller asks of the store, and what it is answered.

use jute_core::Bytes;
use store_side::StoreEnding;

/// One call of a store.
#[derive(Debug, Drop)]
pub enum Act {
    /// Admits a connection.
    Admit,
    /// Gives the store bytes of a connection, at a time in milliseconds.
    Feed {
        connection: u32,
        now: i64,
        piece: Bytes,
    },
    /// Takes the first bytes that wait for a connection, at most so many.
    Pull {
        connection: u32,
        limit: usize,
    },
    /// Tells the store that a connection is lost.
    Lose {
        connection: u32,
    },
    /// Ends the sessions that were not heard in time.
    Tick {
        now: i64,
    },
}

/// What an act that was not refused is answered.
#[derive(Debug, Drop)]
pub enum Answer {
    /// The number of the admitted connection.
    Admitted { connection: u32 },
    Fed,
    /// The bytes that were taken.
    Pulled(Bytes),
    Gone,
    Ticked,
}

/// An act with what the store answered.
#[derive(Drop)]
pub struct Call {
    pub act: Act,
    pub result: Result<Answer, StoreEnding>,
}

impl Act {
    /// The connection that the act names.
    pub(crate) fn connection(&self) -> Option<u32> {
        match self {
            Act::Feed { connection, .. }
            | Act::Pull { connection, .. }
            | Act::Lose { connection } => { Some(*connection) }
            Act::Admit | Act::Tick { .. } => None,
        }
    }
}
