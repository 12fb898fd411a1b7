//! What a session keeps of the frames that it heard.

ghost use Rattle.std.specs.Prelude.{◌≡◌, ◌<◌, ◌≤◌, ◌^◌};
ghost use Rattle.request_queue.specs.Weights.{limit, weight_of};
ghost use Rattle.entry_session.specs.Kept.{fresh_going};

use crate::ending::Ending;
use jute_core::Memory;
use payload_seal::{EntryKeys, IvSource};
use request_queue::Queue;
use std::alloc::Global;
use std::marker::Model;

/// How far the connect request of a session has come.
#[derive(Clone, Copy, Debug, Drop, PartialEq, Eq)]
pub enum Phase {
    /// It was not handed up.
    Unasked,
    /// It was handed up, and not answered; whether it has the older form, without its last byte.
    Asked { older: bool },
    /// It was answered.
    Connected,
}

/// What a session keeps beside the bytes of frames that are not whole yet.
#[derive(Drop)]
pub(crate) struct Progress {
    pub(crate) alloc: Global,
    pub(crate) keys: EntryKeys,
    pub(crate) connection: u32,
    pub(crate) ivs: IvSource,
    pub(crate) phase: Phase,
    pub(crate) queue: Queue,
    // how many requests the store answered; stays at its last value
    pub(crate) replies: u64,
}

impl Model for Progress {
    ghost use Rattle.std.specs.Prelude.{◌≡◌};
    ghost use Rattle.entry_session.specs.Kept.{Going, IsSourceOf, AreShort};

    ghost Value = { Going };

    ghost view = { λ p. record { keys = p.keys; ivs = p.ivs; phase = p.phase; queue = p.queue; replies = p.replies } };

    ghost invariant = { λ p. IsSourceOf p.keys.payloads p.ivs × (p.ivs.connection ≡ p.connection) × AreShort p.queue };
}

impl Progress {
    /// What is kept before anything is heard. Takes no memory.
    pub(crate) fn new(alloc: Global, keys: EntryKeys, boot: u32, connection: u32) -> Progress
        requires { boot < 2 ^ 24 }
        ensures { result ≡ fresh_going keys boot connection }
    {
        Progress {
            alloc,
            keys,
            connection,
            ivs: IvSource::new(keys.payloads.epoch(), boot, connection),
            phase: Phase::Unasked,
            queue: Queue::new(alloc),
            replies: 0,
        }
    }

    /// What the open requests weigh, in bytes. Takes no memory.
    pub(crate) fn weight(&self) -> u64
        ensures weight { result ≡ weight_of self.now.queue }
        ensures within { result ≤ limit }
    {
        self.queue.weight()
    }
}

// The endings by want of memory.

impl From<Memory> for Ending {
    ghost use Rattle.entry_session.specs.declared.ending.Ending.TheVariants.{Memory as OutOfMemory};

    ghost from_gives = { λ _ e. e ≡ OutOfMemory };

    fn from(_: Memory) -> Ending {
        Ending::Memory
    }
}
