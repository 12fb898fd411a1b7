//! A world: clients, their sessions, and one store.

ghost use Rattle.std.specs.Prelude.{◌≡◌, ◌<◌, ◌+◌, ◌^◌, ℕ, IfOk, OnOk};
ghost use Rattle.payload_seal.specs.declared.keys.EntryKeys.{EntryKeys as PlainKeys};
ghost use Rattle.counter_enclave.specs.Enclave.{IsSealedName};
ghost use Rattle.tree_state.specs.Trees.{IsNaming};
ghost use Rattle.entry_session.specs.Sides.{bytes_of};
ghost use Rattle.store_side.specs.Past.{Past};
ghost use Rattle.store_side.specs.Follows.{IsSound};
ghost use Rattle.store_side.specs.Owed.{IsTime};
ghost use Rattle.world_core.specs.Moments.{Moment, opening, sent_by};
ghost use Rattle.world_core.specs.Standing.{IsNew, Moves, MovesOf, Reads, Stands};
ghost use Rattle.world_core.specs.Steps.{Cut, Down, Drains, ForEach, Sent, Ticks, Up, added, timed};
ghost use Rattle.world_core.specs.declared.amount.Amount.{Amount as PlainAmount};

use crate::amount::Amount;
use crate::clients::{Clients, place};
use crate::moving::{cut, go_down, go_up};
use crate::setup::Clock;
use entry_session::Ending;
use jute_core::Memory;
use payload_seal::EntryKeys;
use std::alloc::Global;
use store_side::{Entry, Recorded, StoreEnding, StoreSide};

/// Clients with their sessions, over one store.
///
/// The connections are numbered from 1, as the store admits them, and a call names one that was added. After `Memory` a world is used
/// no more.
#[derive(Drop)]
pub struct World<S: StoreSide> {
    store: S,
    clients: Clients,
}

impl<S: StoreSide + Drop> World<S> {
    /// Makes a world without connections at time 0, over a store that has admitted no connection and has no entries. The boot is a number
    /// that was not used with these keys before. Takes no memory.
    pub fn new(alloc: Global, keys: EntryKeys, boot: u32, store: S) -> World<S>
        requires { boot < 2 ^ 24 }
        ensures { (past : Past) → S.stands store past → IsNew past → IsSound past → IsNaming (IsSealedName keys.names) past.naming
            → Stands (S.stands result.store) keys boot result.clients (opening past) }
    {
        // what the laws want of the keys
        keys.names.are_keys();
        let _ = keys.payloads.epoch();
        World {
            store,
            clients: Clients::new(alloc, keys, boot),
        }
    }

    /// Admits a connection, and answers its number; `Memory` also where the store's 4,294,967,295 numbers are used up.
    pub fn add(&mut self) -> Result<u32, Memory>
        ensures number { IfOk result (λ c. Moves (S.stands self.old.store) self.old.clients (S.stands self.new.store) self.new.clients
            (λ k boot m n. (c ≡ m.past.admitted + 1) × (n ≡ added m))) }
    {
        let Ok(number) = self.store.admit() else {
            return Err(Memory);
        };
        self.clients.add(number)?;
        Ok(number)
    }

    /// Appends to what the client of a connection sent; these bytes are under way to its session then. After a cut nothing is sent.
    pub fn send(&mut self, connection: u32, bytes: &[u8]) -> Result<(), Memory>
        ensures { OnOk result (MovesOf connection (S.stands self.old.store) self.old.clients (S.stands self.new.store) self.new.clients
            (λ k boot m n. Sent connection bytes.now m n)) }
    {
        if let Some(found) = self.clients.connections.get_mut(place(connection)) {
            if !found.was_cut() {
                found.send(bytes)?;
            }
        }
        Ok(())
    }

    // Moves bytes of a connection up, unless it was cut.
    fn pass_up(&mut self, connection: u32, first: Amount, second: Amount) -> Result<(), Memory>
        ensures { OnOk result (MovesOf connection (S.stands self.old.store) self.old.clients (S.stands self.new.store) self.new.clients
            (λ k boot m n. Up k boot connection first second m n)) }
    {
        let now = self.clients.clock.milliseconds();
        if let Some(found) = self.clients.connections.get_mut(place(connection)) {
            if !found.was_cut() {
                go_up(&mut self.store, connection, now, found, first, second)?;
            }
        }
        Ok(())
    }

    // Moves bytes of a connection down, unless it was cut.
    fn pass_down(&mut self, connection: u32, amount: Amount) -> Result<(), Memory>
        ensures { OnOk result (MovesOf connection (S.stands self.old.store) self.old.clients (S.stands self.new.store) self.new.clients
            (λ k boot m n. Down k boot connection amount m n)) }
    {
        let alloc = self.clients.alloc;
        if let Some(found) = self.clients.connections.get_mut(place(connection)) {
            if !found.was_cut() {
                go_down(alloc, &mut self.store, connection, found, amount)?;
            }
        }
        Ok(())
    }

    /// Moves bytes of a connection up: the first ones under way go to its session, as many as the lesser of `first` and what is
    /// there; and then the first ones that the session handed up and the store has not had go to the store, as many as the lesser of
    /// `second` and what is there. A session that has ended takes nothing more; once all that it handed up is delivered, the store
    /// loses the connection. Costs what the frames that are whole by then cost.
    pub fn up(&mut self, connection: u32, first: u32, second: u32) -> Result<(), Memory>
        ensures { OnOk result (MovesOf connection (S.stands self.old.store) self.old.clients (S.stands self.new.store) self.new.clients
            (λ k boot m n. Up k boot connection (PlainAmount.AtMost first) (PlainAmount.AtMost second) m n)) }
    {
        self.pass_up(connection, Amount::AtMost(first), Amount::AtMost(second))
    }

    /// Moves bytes of a connection down: the first ones that wait are pulled, as many as the lesser of `limit` and what waits, and go
    /// through its session to its client. Where none wait after that and the store's side is over, a session that goes on ends with
    /// `StoreEnd`.
    pub fn down(&mut self, connection: u32, limit: u32) -> Result<(), Memory>
        ensures { OnOk result (MovesOf connection (S.stands self.old.store) self.old.clients (S.stands self.new.store) self.new.clients
            (λ k boot m n. Down k boot connection (PlainAmount.AtMost limit) m n)) }
    {
        self.pass_down(connection, Amount::AtMost(limit))
    }

    /// Cuts a connection: its session ends with `ClientEnd`, if it has not ended, what is under way is dropped, and the store loses
    /// the connection. Takes no memory.
    pub fn cut(&mut self, connection: u32)
        ensures { MovesOf connection (S.stands self.old.store) self.old.clients (S.stands self.new.store) self.new.clients
            (λ k boot m n. Cut connection m n) }
    {
        if let Some(found) = self.clients.connections.get_mut(place(connection)) {
            if !found.was_cut() {
                cut(&mut self.store, connection, found);
            }
        }
    }

    /// Sets the time, in milliseconds. Takes no memory.
    pub fn time(&mut self, now: i64)
        requires { IsTime now }
        ensures { Moves (S.stands self.old.store) self.old.clients (S.stands self.new.store) self.new.clients (λ k boot m n. n ≡ timed now m) }
    {
        self.clients.clock = Clock::at(now);
    }

    /// Ends the sessions whose time is up.
    pub fn tick(&mut self) -> Result<(), Memory>
        ensures { OnOk result (Moves (S.stands self.old.store) self.old.clients (S.stands self.new.store) self.new.clients (λ k boot m n. Ticks m n)) }
    {
        self.store.tick(self.clients.clock.milliseconds())?;
        Ok(())
    }

    // Moves all bytes of each connection up, in order.
    fn drain_up(&mut self) -> Result<(), Memory>
        ensures { OnOk result (Moves (S.stands self.old.store) self.old.clients (S.stands self.new.store) self.new.clients
            (λ k boot m n. ForEach (λ c. Up k boot c PlainAmount.All PlainAmount.All) 1 m.past.admitted m n)) }
    {
        let count = self.clients.count();
        let mut connection = 0;
        while connection < count {
            connection += 1;
            self.pass_up(connection, Amount::All, Amount::All)?;
        }
        Ok(())
    }

    // Moves all bytes of each connection down, in order.
    fn drain_down(&mut self) -> Result<(), Memory>
        ensures { OnOk result (Moves (S.stands self.old.store) self.old.clients (S.stands self.new.store) self.new.clients
            (λ k boot m n. ForEach (λ c. Down k boot c PlainAmount.All) 1 m.past.admitted m n)) }
    {
        let count = self.clients.count();
        let mut connection = 0;
        while connection < count {
            connection += 1;
            self.pass_down(connection, Amount::All)?;
        }
        Ok(())
    }

    /// Moves all bytes of each connection up, in order, and then all bytes of each down.
    pub fn drain(&mut self) -> Result<(), Memory>
        ensures { OnOk result (Moves (S.stands self.old.store) self.old.clients (S.stands self.new.store) self.new.clients (λ k boot m n. Drains k boot m n)) }
    {
        self.drain_up()?;
        self.drain_down()?;
        Ok(())
    }

    /// Returns how many connections were added. Takes no memory, as all readers.
    pub fn count(&self) -> u32
        ensures { (k : PlainKeys) (boot : ℕ) (m : Moment) → Stands (S.stands self.now.store) k boot self.now.clients m → result ≡ m.past.admitted }
    {
        self.clients.count()
    }

    /// Lends all that the client of a connection sent before a cut.
    pub fn sent(&self, connection: u32) -> &[u8]
        ensures { Reads connection (S.stands self.now.store) self.now.clients (λ m. result.now ≡ sent_by (m.links connection)) }
    {
        match self.clients.get(connection) {
            Some(found) => found.sent(),
            None => &[],
        }
    }

    /// Lends all that the client of a connection received.
    pub fn received(&self, connection: u32) -> &[u8]
        ensures { Reads connection (S.stands self.now.store) self.now.clients (λ m. result.now ≡ bytes_of (m.links connection).stand.down) }
    {
        match self.clients.get(connection) {
            Some(found) => found.received(),
            None => &[],
        }
    }

    /// Lends all that the session of a connection handed up.
    pub fn handed_up(&self, connection: u32) -> &[u8]
        ensures { Reads connection (S.stands self.now.store) self.now.clients (λ m. result.now ≡ bytes_of (m.links connection).stand.up) }
    {
        match self.clients.get(connection) {
            Some(found) => found.handed(),
            None => &[],
        }
    }

    /// Returns why the session of a connection ended, if it has.
    pub fn ending(&self, connection: u32) -> Option<Ending>
        ensures { Reads connection (S.stands self.now.store) self.now.clients (λ m. result ≡ (m.links connection).stand.ending) }
    {
        self.clients.get(connection)?.ending()
    }

    /// Returns why the store's side of a connection is over, if it is.
    pub fn store_ending(&self, connection: u32) -> Option<StoreEnding>
        ensures { Reads connection (S.stands self.now.store) self.now.clients (λ m. result ≡ m.past.endings connection) }
    {
        self.store.ending(connection)
    }

    /// Answers whether a connection was cut.
    pub fn was_cut(&self, connection: u32) -> bool
        ensures { Reads connection (S.stands self.now.store) self.now.clients (λ m. result ≡ (m.links connection).cut) }
    {
        match self.clients.get(connection) {
            Some(found) => found.was_cut(),
            None => false,
        }
    }
}

impl<S: Recorded + Drop> World<S> {
    /// Lends the order in which the store took what it was sent.
    pub fn order(&self) -> &[Entry]
        ensures { (k : PlainKeys) (boot : ℕ) (m : Moment) → Stands (S.stands self.now.store) k boot self.now.clients m → result.now ≡ m.past.order }
    {
        self.store.entries()
    }
}
