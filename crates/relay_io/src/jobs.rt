//! What a thread of its own does for one connection.
//!
//! A job is moved to its thread in parts, and made anew there: that a part may be moved is known of each, and not of the whole.

ghost use Rattle.std.specs.Prelude.{◌≡◌, ◌<◌, ◌^◌, ◌++◌, List};
ghost use Rattle.tree_hall.specs.declared.view.Item.{Item};
ghost use Rattle.tree_hall.specs.Passes.{IsPassOf, number_of, calls_of};
ghost use Rattle.relay_io.specs.Relayed.{Relayed};
ghost use Rattle.relay_io.specs.Served.{Served};

use crate::duo::Duo;
use crate::line::Line;
use crate::relaying::relay;
use crate::serving::{ServeEnding, serve_client};
use audit_board::Teller;
use entry_session::Ending;
use payload_seal::EntryKeys;
use std::alloc::Global;
use std::sync::{Arc, Wait};
use std::thread::Threads;
use std::{io, thread};
use store_side::StoreSide;
use tree_hall::{Bells, Hall, Pass, moves};

/// A relay that is to run: see [`relay`].
#[derive(Drop)]
pub struct RelayJob<D: Drop, B: Drop> {
    /// What takes memory for it.
    pub alloc: Global,
    /// The keys that its session seals under.
    pub keys: EntryKeys,
    /// The boot of the proxy, at most 16,777,215.
    pub boot: u32,
    /// The number of the connection in this boot.
    pub connection: u32,
    /// The most events that it hears.
    pub turns: u64,
    /// The client and the store.
    pub duo: D,
    /// What the findings are told to.
    pub board: B,
    ghost small: { boot < 2 ^ 24 },
}

impl<D: Duo + Drop, B: Teller + Drop> RelayJob<D, B> {
    /// A relay of these parts. Takes no memory.
    pub fn new(
        alloc: Global,
        keys: EntryKeys,
        boot: u32,
        connection: u32,
        turns: u64,
        duo: D,
        board: B,
    ) -> RelayJob<D, B>
        requires { boot < 2 ^ 24 }
        ensures keys { result.keys ≡ keys }
        ensures boot { result.boot ≡ boot }
        ensures connection { result.connection ≡ connection }
        ensures turns { result.turns ≡ turns }
        ensures duo { result.duo ≡ duo }
        ensures board { result.board ≡ board }
    {
        RelayJob {
            alloc,
            keys,
            boot,
            connection,
            turns,
            duo,
            board,
        }
    }

    /// Relays, and answers why it ended, with what it relayed between and told.
    pub fn run(self) -> (Ending, D, B)
        ensures relayed { Relayed (record { keys = self.keys; boot = self.boot; connection = self.connection }) self.turns
            (D.told self.duo) (D.told result.1) B.Told self.board result.2 result.0 }
    {
        let RelayJob {
            alloc,
            keys,
            boot,
            connection,
            turns,
            mut duo,
            mut board,
        } = self;
        let ending = relay(alloc, keys, boot, connection, turns, &mut duo, &mut board);
        (ending, duo, board)
    }
}

impl<D: Duo + Send + Drop + 'static, B: Teller + Send + Drop + 'static> RelayJob<D, B> {
    /// Runs the relay on a thread of its own, which drops what it came to.
    ///
    /// # Errors
    /// No thread could be started; then the relay is dropped.
    pub fn start<T: Threads>(self, rt: &T) -> io::Result<()> {
        let RelayJob {
            alloc,
            keys,
            boot,
            connection,
            turns,
            duo,
            board,
        } = self;
        let work = move || -> ()
            requires { boot < 2 ^ 24 }
        {
            let job = RelayJob::new(alloc, keys, boot, connection, turns, duo, board);
            let _ = job.run();
        };
        thread::spawn(rt, work)?;
        Ok(())
    }
}

/// One connection of a store that is to be served: see [`serve_client`].
#[derive(Drop)]
pub struct ServeJob<S: StoreSide + Drop, B: Bells + Drop, L: Drop, R: Drop> {
    /// What it waits by.
    pub rt: R,
    /// What takes memory for it.
    pub alloc: Global,
    /// The hall of the store.
    pub hall: Arc<Hall<S, B>>,
    /// A pass of that hall.
    pub pass: Pass,
    /// The most events that it hears.
    pub turns: u64,
    /// The client.
    pub line: L,
    ghost of_hall: { IsPassOf hall.value.table.shared.table_id pass },
}

impl<S: StoreSide + Drop, B: Bells + Drop, L: Line + Drop, R: Wait + Drop> ServeJob<S, B, L, R> {
    /// A connection with these parts. Takes no memory.
    pub fn new(
        rt: R,
        alloc: Global,
        hall: Arc<Hall<S, B>>,
        pass: Pass,
        turns: u64,
        line: L,
    ) -> ServeJob<S, B, L, R>
        requires { IsPassOf hall.value.table.shared.table_id pass }
        ensures hall { result.hall ≡ hall }
        ensures pass { result.pass ≡ pass }
        ensures turns { result.turns ≡ turns }
        ensures line { result.line ≡ line }
    {
        ServeJob {
            rt,
            alloc,
            hall,
            pass,
            turns,
            line,
        }
    }

    /// Serves the connection, and answers why it ended, with the pass and the line.
    pub fn run(self) -> (ServeEnding, Pass, L)
        ensures same { IsPassOf self.hall.value.table.shared.table_id result.1 }
        ensures number { number_of result.1 ≡ number_of self.pass }
        ensures served { (calls : List Item) × (calls_of result.1 ≡ calls_of self.pass ++ calls)
            × Served self.turns (number_of self.pass) (L.told self.line) (L.told result.2) calls result.0 }
    {
        let ServeJob {
            rt,
            alloc,
            hall,
            mut pass,
            turns,
            mut line,
        } = self;
        let ending = serve_client(&rt, alloc, &hall, &mut pass, turns, &mut line);
        (ending, pass, line)
    }
}

impl<
    S: StoreSide + Send + Drop + 'static,
    B: Bells + Send + Sync + Drop + 'static,
    L: Line + Send + Drop + 'static,
    R: Wait + Send + Drop + 'static,
> ServeJob<S, B, L, R> {
    /// Serves the connection on a thread of its own, which drops what it came to.
    ///
    /// # Errors
    /// No thread could be started; then the connection is dropped.
    pub fn start<T: Threads>(self, rt: &T) -> io::Result<()> {
        let ServeJob {
            rt: own,
            alloc,
            hall,
            pass,
            turns,
            line,
        } = self;
        hall.crosses();
        moves(&hall);
        let work = move || -> ()
            requires { IsPassOf hall.value.table.shared.table_id pass }
        {
            let job = ServeJob::new(own, alloc, hall, pass, turns, line);
            let _ = job.run();
        };
        thread::spawn(rt, work)?;
        Ok(())
    }
}
