//! What watches tell.

ghost use Rattle.std.specs.Prelude.{◌≡◌, ◌++◌, pos, filter, not, IfOk, OnOk};
ghost use Rattle.std.specs.Option.{option_copied};
ghost use Rattle.zk_path.specs.Paths.{IsTextOf};
ghost use Rattle.tree_state.specs.Changes.{event_to, events_to, is_not_in};
ghost use Rattle.tree_state.specs.Nodes.{Path};
ghost use Rattle.tree_state.specs.Trees.{HasRoom};
ghost use Rattle.tree_state.specs.Watches.{members, number_of};

use crate::message::{Message, Output};
use jute_core::{Memory, Text};
use std::alloc::Global;
use std::collections::BTreeSet;
use zk_messages::Event;

// The state of a client in an event: connected.
const CONNECTED: i32 = 3;

/// What happened to a node.
#[derive(Clone, Copy, Debug, Drop, PartialEq, Eq)]
pub enum EventKind {
    Created,
    Deleted,
    ContentChanged,
    ChildrenChanged,
}

impl EventKind {
    // Its number in an event.
    #[tactic(auto, unfolding(crate::specs::Watches::number_of))]
    fn number(self) -> i32
        ensures { result ≡ number_of self }
    {
        match self {
            EventKind::Created => 1,
            EventKind::Deleted => 2,
            EventKind::ContentChanged => 3,
            EventKind::ChildrenChanged => 4,
        }
    }
}

/// Tells these connections of a path. The cost is linear in their number and in the path's length.
pub(crate) fn tell(
    outputs: &mut Vec<Output>,
    alloc: Global,
    kind: EventKind,
    path: &str,
    to: Option<&BTreeSet<u32>>,
) -> Result<(), Memory>
    ensures { OnOk result ((p : Path) → IsTextOf path.now p → outputs.new.items ≡ outputs.old.items ++ events_to (number_of kind) p (members (option_copied to.entry))) }
{
    let Some(connections) = to else {
        return Ok(());
    };
    for connection in connections {
        outputs.push(event(alloc, kind, path, *connection)?)?;
    }
    Ok(())
}

/// Tells of the end of a node those of these connections that were not just told.
pub(crate) fn tell_others(
    outputs: &mut Vec<Output>,
    alloc: Global,
    path: &str,
    to: Option<&BTreeSet<u32>>,
    told: Option<&BTreeSet<u32>>,
) -> Result<(), Memory>
    ensures { OnOk result ((p : Path) → IsTextOf path.now p
        → outputs.new.items ≡ outputs.old.items ++ events_to (pos 2) p (filter (is_not_in (members (option_copied told.entry))) (members (option_copied to.entry)))) }
{
    let Some(connections) = to else {
        return Ok(());
    };
    for connection in connections {
        if !is_among(told, *connection) {
            outputs.push(event(alloc, EventKind::Deleted, path, *connection)?)?;
        }
    }
    Ok(())
}

// Whether a connection is one of these.
fn is_among(connections: Option<&BTreeSet<u32>>, connection: u32) -> bool
    ensures { not result ≡ is_not_in (members (option_copied connections.entry)) connection }
{
    let Some(connections) = connections else {
        return false;
    };
    connections.contains(&connection)
}

/// Makes room for one output more.
pub(crate) fn make_room(outputs: &mut Vec<Output>) -> Result<(), Memory>
    ensures items { outputs.new.items ≡ outputs.old.items }
    ensures room { OnOk result (HasRoom outputs.new) }
{
    outputs.reserve(1)?;
    Ok(())
}

/// An event to a connection.
pub(crate) fn event(
    alloc: Global,
    kind: EventKind,
    path: &str,
    connection: u32,
) -> Result<Output, Memory>
    ensures { IfOk result (λ output. (p : Path) → IsTextOf path.now p → output ≡ event_to (number_of kind) p connection) }
{
    Ok(Output {
        connection,
        message: Message::Event(Event {
            kind: kind.number(),
            state: CONNECTED,
            path: Text::copy_of(alloc, path)?,
        }),
    })
}
