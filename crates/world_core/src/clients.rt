//! The connections of a world.

ghost use Rattle.std.specs.Prelude.{◌≡◌, ℕ, ◌<◌, ◌^◌, ◌+◌, [], OnOk};
ghost use Rattle.std.specs.Option.{option_copied};
ghost use Rattle.payload_seal.specs.declared.keys.EntryKeys.{EntryKeys as PlainKeys};
ghost use Rattle.store_side.specs.Past.{Past};
ghost use Rattle.world_core.specs.Moments.{Moment, fresh_link, opening};
ghost use Rattle.world_core.specs.Standing.{AreKept, IsPlace, connection_at};
ghost use Rattle.world_core.specs.Steps.{added};

use crate::connection::Connection;
use crate::setup::{Clock, Setup};
use jute_core::Memory;
use payload_seal::EntryKeys;
use std::alloc::Global;

/// The connections in the order of their numbers, the time, and what all sessions have.
#[derive(Drop)]
pub struct Clients {
    pub alloc: Global,
    pub setup: Setup,
    pub clock: Clock,
    pub connections: Vec<Connection>,
}

/// Returns where a connection stands in the list; they are numbered from 1. For 0 that is past every end.
pub(crate) fn place(connection: u32) -> usize
    ensures { IsPlace connection result }
{
    (connection as usize).wrapping_sub(1)
}

impl Clients {
    /// Makes a list of no connections, at time 0. Takes no memory.
    pub(crate) fn new(alloc: Global, keys: EntryKeys, boot: u32) -> Clients
        requires { boot < 2 ^ 24 }
        ensures { (past : Past) → past.admitted ≡ 0 → AreKept keys boot result (opening past) }
    {
        Clients {
            alloc,
            setup: Setup::new(keys, boot),
            clock: Clock::start(),
            connections: Vec::new(alloc),
        }
    }

    /// Appends a connection of this number, which is the next one.
    pub(crate) fn add(&mut self, number: u32) -> Result<(), Memory>
        ensures { OnOk result ((k : PlainKeys) (boot : ℕ) (m : Moment) → AreKept k boot self.old m → number ≡ m.past.admitted + 1
            → m.links number ≡ fresh_link → m.past.pulled number ≡ [] → AreKept k boot self.new (added m)) }
    {
        let session = self.setup.session(self.alloc, number);
        self.connections.push(Connection::new(self.alloc, session))?;
        Ok(())
    }

    /// Lends the connection of a number, `None` where there is none.
    pub(crate) fn get(&self, connection: u32) -> Option<&Connection>
        ensures { option_copied result ≡ connection_at self.now.connections.items connection }
    {
        self.connections.get(place(connection))
    }

    /// Returns how many connections there are.
    pub(crate) fn count(&self) -> u32
        ensures { (k : PlainKeys) (boot : ℕ) (m : Moment) → AreKept k boot self.now m → result ≡ m.past.admitted }
    {
        u32::try_from(self.connections.len()).unwrap_or(u32::MAX)
    }
}
