//! What was wrong with a reply.

ghost use Rattle.std.specs.Prelude.{◌≡◌};

use jute_core::Memory;
use payload_seal::Flaw;
use std::alloc::{AllocError, AllocFailed};

/// What is wrong with a reply of a store: the first of these that holds.
#[derive(Clone, Copy, Debug, Drop, PartialEq, Eq)]
pub enum Cause {
    /// The payload is not accepted for the path; null has no bytes.
    Payload(Flaw),
    /// The Stat has this length, which is not that of a payload there, or not that of the payload beside it.
    Length { stored: i32 },
    /// The list of children is null.
    NullChildren,
    /// This child is no name that is sealed under the path.
    Child { index: u32 },
    /// This child stands earlier in the list too.
    Doubled { index: u32 },
    /// The path that was made is not the one that was asked for.
    Created,
    /// The path that was synced is not the one that was asked for.
    SyncPath,
    /// The list of ACLs is not the one that anyone may do anything.
    Acl,
    /// A multi has another number of results than of operations.
    MultiCount { asked: u32, got: u32 },
    /// This result is not of its operation's kind, or no error in a multi that failed.
    MultiKind { index: u32 },
    /// The path that this operation made is not the one that was asked for.
    MultiCreated { index: u32 },
    /// The Stat of this result, of a create2 or a setData, has a length that is not that of a payload.
    MultiLength { index: u32 },
}

/// A reply with which something was wrong.
#[derive(Clone, Copy, Debug, Drop, PartialEq, Eq)]
pub struct Finding {
    /// The number of the connection.
    pub connection: u32,
    /// How many replies came before it on the connection, the connect response not counted. It stays at its greatest value.
    pub reply: u64,
    /// The xid of the reply.
    pub xid: i32,
    /// What was wrong.
    pub cause: Cause,
}

/// Why an answer has no plain form.
#[derive(Drop)]
pub(crate) enum NotPlain {
    /// This is wrong with it.
    Caused(Cause),
    /// There was no memory.
    Memory,
}

impl From<Memory> for NotPlain {
    ghost use Rattle.reply_rewrite.specs.declared.finding.NotPlain.TheVariants.{Memory as OutOfMemory};

    ghost from_gives = { λ _ e. e ≡ OutOfMemory };

    fn from(_: Memory) -> NotPlain {
        NotPlain::Memory
    }
}

impl From<AllocError> for NotPlain {
    ghost use Rattle.reply_rewrite.specs.declared.finding.NotPlain.TheVariants.{Memory as OutOfMemory};

    ghost from_gives = { λ _ e. e ≡ OutOfMemory };

    fn from(_: AllocError) -> NotPlain {
        NotPlain::Memory
    }
}

impl<T: Drop> From<AllocFailed<T>> for NotPlain {
    ghost use Rattle.reply_rewrite.specs.declared.finding.NotPlain.TheVariants.{Memory as OutOfMemory};

    ghost from_gives = { λ _ e. e ≡ OutOfMemory };

    fn from(_: AllocFailed<T>) -> NotPlain {
        NotPlain::Memory
    }
}
