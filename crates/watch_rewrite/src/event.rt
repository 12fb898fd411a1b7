//! Events, opened.

ghost use Rattle.std.specs.Prelude.{◌≡◌, IfOk, IfErr};
ghost use Rattle.zk_messages.specs.Short.{IsShort};
ghost use Rattle.watch_rewrite.specs.Events.{IsPlainEvent, IsFlawIn};

use jute_core::{Memory, Text};
use path_seal::{NameKeys, open_path};
use std::alloc::Global;
use zk_messages::Event;

/// The state of a connection in events about nodes: it is connected.
const CONNECTED: i32 = 3;

/// What is wrong with an event of a store: the first of these that holds.
#[derive(Clone, Copy, Debug, Drop, PartialEq, Eq)]
pub enum EventFlaw {
    /// The kind is not 1 to 4.
    Kind { kind: i32 },
    /// The state is not 3.
    State { state: i32 },
    /// No legal path is sealed to the event's path.
    Path,
}

/// Why an event was not opened.
#[derive(Clone, Copy, Debug, Drop, PartialEq, Eq)]
pub enum NotEvent {
    /// It has this flaw.
    Bad(EventFlaw),
    /// There was no memory.
    Memory,
}

impl From<Memory> for NotEvent {
    ghost use Rattle.watch_rewrite.specs.declared.event.NotEvent.TheVariants.{Memory as OutOfMemory};

    ghost from_gives = { λ _ e. e ≡ OutOfMemory };

    fn from(_: Memory) -> NotEvent {
        NotEvent::Memory
    }
}

/// The event that a client is told: the same with its path opened.
///
/// # Errors
/// The first flaw of the event, or want of memory.
pub fn unveil_event(alloc: Global, keys: &NameKeys, event: &Event) -> Result<Event, NotEvent>
    requires { IsShort event.now.path }
    ensures ok { IfOk result (IsPlainEvent keys.now event.now) }
    ensures bad { IfErr result (IsFlawIn keys.now event.now) }
{
    if !(1..=4).contains(&event.kind) {
        return Err(NotEvent::Bad(EventFlaw::Kind { kind: event.kind }));
    }
    if event.state != CONNECTED {
        return Err(NotEvent::Bad(EventFlaw::State { state: event.state }));
    }
    let Some(path) = open_path(alloc, keys, event.path.as_str())? else {
        return Err(NotEvent::Bad(EventFlaw::Path));
    };
    Ok(Event {
        kind: event.kind,
        state: event.state,
        path: Text::copy_of(alloc, path.text())?,
    })
}
