//! Replies on their way from a store that is not trusted: each name and payload opened, each length made that of the
//! content, and nothing passed on that is no answer to what was asked.
//!
//! `specs/Admits.antt` says what a client is told in place of what the store answered, and which cause there is where it is
//! told an error instead; the rows of it stand in `Stats.antt`, `Names.antt`, `Children.antt` and `Results.antt`. The crate
//! stands on `request_queue` for what was asked, on `path_seal` and `payload_seal` for opening, and on `zk_messages` for
//! replies.
//!
//! Read [`Cause`] first, then [`unveil_reply`], then the laws at the end of this file.
#![tactic(auto)]

ghost use Rattle.reply_rewrite.specs.Laws.{IsAdmittedOnce, IsPassedOn, IsShortWhenRead, IsNoLongerWhenPlain};

mod children;
mod content;
mod finding;
mod multi;
mod name_set;
mod names;
mod rows;
mod shape;
mod stat;
mod unveiling;

pub use finding::{Cause, Finding};
pub use shape::shape_of;
pub use unveiling::unveil_reply;

/// The law that for a request and a reply of its shape exactly one reply is passed on, with exactly one cause or none.
pub fn admitted_once()
    ensures { IsAdmittedOnce }
{}

/// The law that the reply that is passed on answers the request too, and can be written where the store's can.
pub fn passed_on()
    ensures { IsPassedOn }
{}

/// The law that the reply that was read from a body of at most 134,217,728 bytes has its shape and is short enough for
/// [`unveil_reply`].
pub fn short_when_read()
    ensures { IsShortWhenRead }
{}

/// The law that the reply that is passed on is spelled by no more bytes than the store's. So a frame has room for it.
pub fn no_longer_when_plain()
    ensures { IsNoLongerWhenPlain }
{}

#[cfg(test)]
mod tests;
