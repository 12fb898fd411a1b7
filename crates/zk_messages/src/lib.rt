//! The messages of ZooKeeper's client protocol: requests, replies, events and multis, read and
//! written by one grammar.
//!
//! Stands on `zk_records` for what follows a header, on `jute_core`, and on `zk_path` for which
//! paths are legal. `specs/Requests.antt`, `specs/Replies.antt` and `specs/Multi.antt` say which
//! bytes are a message and where bytes that are none go wrong; `specs/Forms.antt` is the table of
//! what follows a header, by its type, and `specs/Laws.antt` that a body is one message and a message
//! has one spelling. Read [`read_request`] first, then [`write_request`], then [`read_reply`] and
//! [`read_event`], and then the laws: [`one_request`], [`one_reply`], [`one_event`] and
//! [`short_when_read`].
#![tactic(auto)]

mod answering;
mod asking;
mod kind;
mod laws;
mod multi;
mod refusals;
mod reply;
mod request;

pub use answering::{read_event, read_reply, reply_xid, write_event, write_reply};
pub use asking::{read_request, write_request};
pub use kind::{Kind, OpKind};
pub use laws::{one_event, one_reply, one_request, short_when_read};
pub use refusals::{one_outcome, refusal_of};
pub use reply::{Event, OpResult, Outcome, Reply, Results, Shape};
pub use request::{Item, Op, Ops, Request};

#[cfg(test)]
mod tests;
