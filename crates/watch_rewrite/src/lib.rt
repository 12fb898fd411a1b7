//! What a proxy does with the paths of watches: it seals those that a client sets again, and opens
//! those of the events that a store tells.
//!
//! `specs/Watches.antt` says what the sealed form of a setWatches is, and `specs/Events.antt` when an
//! event is told to a client and which flaw it has where it is not. The crate stands on `path_seal`
//! for sealing and opening, on `zk_path` for which paths are legal, on `zk_records` and
//! `zk_messages` for the two messages, and on `jute_core` for its small types.
//!
//! Read [`veil_set_watches`] first, then [`unveil_event`], then the laws at the end of this file.
#![tactic(auto)]

ghost use Rattle.watch_rewrite.specs.Laws.{IsEventJudgedOnce, IsShorterWhenPlain};

mod event;
mod watches;

pub use event::{EventFlaw, NotEvent, unveil_event};
pub use watches::veil_set_watches;

/// The law that under one key an event has at most one plain form and one flaw, and never both.
pub fn event_judged_once()
    ensures { IsEventJudgedOnce }
{}

/// The law that the path of a plain event is no longer than the sealed one, and that one shorter than the body that the event
/// was read from. So an event whose body has at most 134,217,728 bytes meets what [`unveil_event`] asks for, and its plain
/// form can be written.
pub fn shorter_when_plain()
    ensures { IsShorterWhenPlain }
{}

#[cfg(test)]
mod tests;
