//! A store's side over a tree.

ghost use Rattle.std.specs.Prelude.{◌≡◌, ◌≢◌, ◌⊎◌, ◌+◌, ◌-◌, ◌<◌, ◌≤◌, ◌^◌, ◌++◌, ℕ, ℤ, List, [], true, false, length, take, drop, min, Ok, Err, Some, None, IfOk, IfErr, OnOk, OnErr, is_ok};
ghost use Rattle.zk_frame.specs.Framing.{Framing, Feeds, IsTooLong};
ghost use Rattle.tree_state.specs.Changes.{Naming};
ghost use Rattle.tree_state.specs.Trees.{IsNaming};
ghost use Rattle.store_side.specs.Past.{Past as Went, state_of};
ghost use Rattle.store_side.specs.Follows.{IsSound, IsAdmitted};
ghost use Rattle.store_side.specs.Fitting.{frame_limit};
ghost use Rattle.store_side.specs.Owed.{IsTime};
ghost use Rattle.store_side.specs.Orders.{IsOver};
ghost use Rattle.store_side.specs.Acts.{AreActs};
ghost use Rattle.store_side.specs.Calls.{Fed, Ticked, IsLoss, admitted_one, after_pull, after_loss};
ghost use Rattle.tree_state.specs.State.{session_of};
ghost use Rattle.store_side.specs.Orders.{HasNoConnect};
ghost use Rattle.tree_server.specs.declared.taking.Move.{Move as PlainMove};
ghost use Rattle.tree_server.specs.Machines.{Stands, Took, NotTaken, fresh};
ghost use Rattle.tree_server.specs.Connections.{AreLines, IsPart, with_ending, with_rest};
ghost use Rattle.tree_server.specs.Servers.{Both, ServerStands, TookOne, EndsBy, EndsAt, Reaches, CutsFrame, KeepsPart, CannotFeed, ExpiresOne, ending_unfed, with_moved, with_expired};

use crate::journal::{Count, Journal, Keeping};
use crate::lines::Lines;
use crate::machine::Machine;
use crate::taking::{Move, Taken};
use aes_block::Key;
use jute_core::Memory;
use std::alloc::Global;
use store_side::{Entry, Recorded, StoreEnding, StoreSide};
use zk_frame::{FrameFault, Framer};
use zk_path::Numberer;

/// A store's side over a tree, whose sequential nodes N names. J keeps of its order what is to be kept.
///
/// It keeps the bytes that wait and not those that were pulled, and of a connection that is over the ending alone.
#[derive(Drop)]
pub struct TreeServer<N: Numberer, J: Keeping> {
    pub(crate) machine: Machine<N, J>,
    pub(crate) lines: Lines,
}

// The most entries of a server that forgets them, with those that it owes.
const FOREVER: u64 = 9_223_372_036_854_775_807;

// The most bytes of a frame's body.
const FRAME_LIMIT: usize = 134_217_728;

impl<N: Numberer + Drop> TreeServer<N, Journal> {
    /// A server that keeps its entries, at most so many with those that it owes.
    pub fn new(
        alloc: Global,
        numberer: N,
        password_key: Key,
        limit: u32,
    ) -> Result<TreeServer<N, Journal>, Memory>
        ensures { IfOk result (λ s. (naming : Naming) → IsNaming (N.named numberer) naming
            → ServerStands (N.named s.machine.tree.numberer) (⟦<Journal as Keeping>⟧.keeps s.machine.journal) (⟦<Journal as Keeping>⟧.room s.machine.journal) s.machine.tree.held s.machine.books s.lines (fresh naming password_key limit)) }
    {
        let journal = Journal::new(alloc);
        Ok(TreeServer {
            machine: Machine::new(alloc, numberer, journal, password_key, u64::from(limit))?,
            lines: Lines::new(alloc),
        })
    }
}

impl<N: Numberer + Drop> TreeServer<N, Count> {
    /// A server that keeps of its entries their number alone. What it holds does not grow with the requests that it takes.
    pub fn forgetting(
        alloc: Global,
        numberer: N,
        password_key: Key,
    ) -> Result<TreeServer<N, Count>, Memory>
        ensures { IfOk result (λ s. (naming : Naming) → IsNaming (N.named numberer) naming
            → ServerStands (N.named s.machine.tree.numberer) (⟦<Count as Keeping>⟧.keeps s.machine.journal) (⟦<Count as Keeping>⟧.room s.machine.journal) s.machine.tree.held s.machine.books s.lines (fresh naming password_key (2 ^ 63 - 1))) }
    {
        Ok(TreeServer {
            machine: Machine::new(alloc, numberer, Count::new(), password_key, FOREVER)?,
            lines: Lines::new(alloc),
        })
    }
}

// The ending at bytes that were not taken.
fn unfed(fault: FrameFault) -> StoreEnding
    ensures { result ≡ ending_unfed fault }
{
    match fault {
        FrameFault::TooLong { length } => StoreEnding::TooLong { length },
        FrameFault::Memory => StoreEnding::Memory,
    }
}

// Takes bytes up to the end of a frame, and answers how many.
fn feed_framer(framer: &mut Framer, piece: &[u8]) -> Result<usize, StoreEnding>
    ensures taken { IfOk result (λ count. Feeds framer.old framer.new piece.now count) }
    ensures open { OnOk result ((z : ℤ) → IsTooLong framer.old.limit (framer.old.held ++ piece.now) z → ⊥) }
    ensures err { IfErr result (CannotFeed framer.old piece.now) }
    ensures limit { framer.new.limit ≡ framer.old.limit }
{
    framer.feed(piece).map_err(unfed)
}

// Takes a whole frame of a connection.
fn take<N: Numberer + Drop, J: Keeping>(
    machine: &mut Machine<N, J>,
    connection: u32,
    now: i64,
    body: &[u8],
) -> Result<Taken, StoreEnding>
    requires time { IsTime now }
    requires short { length body.now ≤ frame_limit }
    ensures taken { IfOk result (λ t. (past : Went) → Stands (N.named machine.old.tree.numberer) (J.keeps machine.old.journal) (J.room machine.old.journal) machine.old.tree.held machine.old.books past
        → (session_of connection (state_of past).sessions ≡ None → HasNoConnect connection past.order)
        → (new : Went) × Took past connection now body.now t.outputs t.moved t.ending new × Stands (N.named machine.new.tree.numberer) (J.keeps machine.new.journal) (J.room machine.new.journal) machine.new.tree.held machine.new.books new) }
    ensures refused { IfErr result (λ e. (past : Went) → Stands (N.named machine.old.tree.numberer) (J.keeps machine.old.journal) (J.room machine.old.journal) machine.old.tree.held machine.old.books past
        → (session_of connection (state_of past).sessions ≡ None → HasNoConnect connection past.order)
        → NotTaken past connection now body.now e × Stands (N.named machine.new.tree.numberer) (J.keeps machine.new.journal) (J.room machine.new.journal) machine.new.tree.held machine.new.books past) }
{
    match machine.tree.session_of(connection) {
        Some(session) => Ok(machine.take_request(connection, session, now, body)?),
        None => Ok(machine.take_connect(connection, now, body)?),
    }
}

// A connection is over, whose session moved.
fn end_moved(lines: &mut Lines, moved: Option<Move>)
    ensures { (past : Went) → AreLines lines.old past → ((m : PlainMove) → moved ≡ Some m → IsAdmitted past m.connection) → AreLines lines.new (with_moved moved past) }
{
    if let Some(moved) = moved {
        let session = moved.session;
        lines.end(moved.connection, StoreEnding::Moved { session });
    }
}

// A connection is over, whose session ended.
fn end_expired(lines: &mut Lines, connection: Option<u32>, session: i64)
    ensures { (past : Went) → AreLines lines.old past → ((x : ℕ) → connection ≡ Some x → IsAdmitted past x) → AreLines lines.new (with_expired connection session past) }
{
    if let Some(connection) = connection {
        lines.end(connection, StoreEnding::Expired { session });
    }
}

impl<N: Numberer + Drop, J: Keeping> TreeServer<N, J> {
    // Takes a whole frame of a connection, and tells what comes of it.
    fn take_frame(&mut self, connection: u32, now: i64, body: &[u8]) -> Result<(), StoreEnding>
        requires time { IsTime now }
        requires short { length body.now ≤ frame_limit }
        ensures taken { OnOk result ((past : Went) → ServerStands (N.named self.old.machine.tree.numberer) (J.keeps self.old.machine.journal) (J.room self.old.machine.journal) self.old.machine.tree.held self.old.machine.books self.old.lines past → IsAdmitted past connection → past.endings connection ≡ None → past.rests connection ≡ [] → past.written ≡ true
            → (new : Went) × TookOne connection now body.now past new × ServerStands (N.named self.new.machine.tree.numberer) (J.keeps self.new.machine.journal) (J.room self.new.machine.journal) self.new.machine.tree.held self.new.machine.books self.new.lines new) }
        ensures ends { IfErr result (λ e. (past : Went) → ServerStands (N.named self.old.machine.tree.numberer) (J.keeps self.old.machine.journal) (J.room self.old.machine.journal) self.old.machine.tree.held self.old.machine.books self.old.lines past → IsAdmitted past connection → past.endings connection ≡ None → past.rests connection ≡ [] → past.written ≡ true
            → (new : Went) × EndsBy connection now body.now past new e × Both (N.named self.new.machine.tree.numberer) (J.keeps self.new.machine.journal) (J.room self.new.machine.journal) self.new.machine.tree.held self.new.machine.books self.new.lines new × IsSound (with_ending connection e new)) }
    {
        let taken = take(&mut self.machine, connection, now, body)?;
        end_moved(&mut self.lines, taken.moved);
        let Ok(()) = self.lines.send(taken.outputs) else {
            return Err(StoreEnding::Memory);
        };
        match taken.ending {
            None => Ok(()),
            Some(ending) => Err(ending),
        }
    }

    // Takes the frame of a connection that is whole with the first of these bytes, and answers how many they are. Without one all bytes are
    // kept.
    fn take_next(
        &mut self,
        connection: u32,
        now: i64,
        framer: &mut Framer,
        piece: &[u8],
    ) -> Result<Option<usize>, StoreEnding>
        requires time { IsTime now }
        ensures some { (count : ℕ) → result ≡ Ok (Some count) → (body : List ℕ) × CutsFrame framer.old framer.new piece.now count body
            × ((past : Went) → ServerStands (N.named self.old.machine.tree.numberer) (J.keeps self.old.machine.journal) (J.room self.old.machine.journal) self.old.machine.tree.held self.old.machine.books self.old.lines past → IsAdmitted past connection → past.endings connection ≡ None → past.rests connection ≡ [] → past.written ≡ true
            → (new : Went) × TookOne connection now body past new × ServerStands (N.named self.new.machine.tree.numberer) (J.keeps self.new.machine.journal) (J.room self.new.machine.journal) self.new.machine.tree.held self.new.machine.books self.new.lines new) }
        ensures none { result ≡ Ok None → KeepsPart framer.old framer.new piece.now × ((past : Went) → ServerStands (N.named self.old.machine.tree.numberer) (J.keeps self.old.machine.journal) (J.room self.old.machine.journal) self.old.machine.tree.held self.old.machine.books self.old.lines past → ServerStands (N.named self.new.machine.tree.numberer) (J.keeps self.new.machine.journal) (J.room self.new.machine.journal) self.new.machine.tree.held self.new.machine.books self.new.lines past) }
        ensures ends { framer.old.limit ≡ frame_limit → IfErr result (λ e. (past : Went) → ServerStands (N.named self.old.machine.tree.numberer) (J.keeps self.old.machine.journal) (J.room self.old.machine.journal) self.old.machine.tree.held self.old.machine.books self.old.lines past → IsAdmitted past connection → past.endings connection ≡ None → past.rests connection ≡ [] → past.written ≡ true
            → (new : Went) × EndsAt connection now past (framer.old.held ++ piece.now) new e × Both (N.named self.new.machine.tree.numberer) (J.keeps self.new.machine.journal) (J.room self.new.machine.journal) self.new.machine.tree.held self.new.machine.books self.new.lines new × IsSound (with_ending connection e new)) }
        ensures limit { framer.new.limit ≡ framer.old.limit }
    {
        let count = feed_framer(framer, piece)?;
        let Some(body) = framer.whole() else {
            return Ok(None);
        };
        // no longer one is whole in a framer of these lines
        if body.len() > FRAME_LIMIT {
            return Err(StoreEnding::Memory);
        }
        self.take_frame(connection, now, body)?;
        framer.end_frame();
        Ok(Some(count))
    }

    // Takes each frame of a connection that is whole with these bytes.
    fn take_frames(
        &mut self,
        connection: u32,
        now: i64,
        framer: &mut Framer,
        piece: &[u8],
    ) -> Result<(), StoreEnding>
        requires time { IsTime now }
        ensures taken { framer.old.limit ≡ frame_limit → OnOk result ((past : Went) → ServerStands (N.named self.old.machine.tree.numberer) (J.keeps self.old.machine.journal) (J.room self.old.machine.journal) self.old.machine.tree.held self.old.machine.books self.old.lines past → IsAdmitted past connection → past.endings connection ≡ None → past.rests connection ≡ []
            → (new : Went) × Reaches connection now past new (framer.old.held ++ piece.now) framer.new.held × IsPart framer.new.held × (new.written ≡ true) × ServerStands (N.named self.new.machine.tree.numberer) (J.keeps self.new.machine.journal) (J.room self.new.machine.journal) self.new.machine.tree.held self.new.machine.books self.new.lines new) }
        ensures ends { framer.old.limit ≡ frame_limit → IfErr result (λ e. (past : Went) → ServerStands (N.named self.old.machine.tree.numberer) (J.keeps self.old.machine.journal) (J.room self.old.machine.journal) self.old.machine.tree.held self.old.machine.books self.old.lines past → IsAdmitted past connection → past.endings connection ≡ None → past.rests connection ≡ []
            → (mid : Went) × (left : List ℕ) × AreActs mid.order mid.acts × Reaches connection now past mid (framer.old.held ++ piece.now) left
            × ((new : Went) × EndsAt connection now mid left new e × Both (N.named self.new.machine.tree.numberer) (J.keeps self.new.machine.journal) (J.room self.new.machine.journal) self.new.machine.tree.held self.new.machine.books self.new.lines new × IsSound (with_ending connection e new))) }
        ensures limit { framer.new.limit ≡ framer.old.limit }
    {
        let Ok(()) = self.lines.flush() else {
            return Err(StoreEnding::Memory);
        };
        let mut rest = piece;
        while let Some(count) = self.take_next(connection, now, framer, rest)? {
            let (_, after) = rest.split_at(count);
            rest = after;
        }
        Ok(())
    }

    // Ends a session whose time is up, and tells what comes of that.
    fn expire(&mut self, session: i64, now: i64) -> Result<(), Memory>
        requires { IsTime now }
        ensures ended { OnOk result ((past : Went) → ServerStands (N.named self.old.machine.tree.numberer) (J.keeps self.old.machine.journal) (J.room self.old.machine.journal) self.old.machine.tree.held self.old.machine.books self.old.lines past → past.written ≡ true → IsOver (state_of past) session now
            → (new : Went) × ExpiresOne session now past new × (new.written ≡ true) × ServerStands (N.named self.new.machine.tree.numberer) (J.keeps self.new.machine.journal) (J.room self.new.machine.journal) self.new.machine.tree.held self.new.machine.books self.new.lines new) }
        ensures memory { OnErr result ((past : Went) → ServerStands (N.named self.old.machine.tree.numberer) (J.keeps self.old.machine.journal) (J.room self.old.machine.journal) self.old.machine.tree.held self.old.machine.books self.old.lines past → past.written ≡ true → IsOver (state_of past) session now
            → ServerStands (N.named self.new.machine.tree.numberer) (J.keeps self.new.machine.journal) (J.room self.new.machine.journal) self.new.machine.tree.held self.new.machine.books self.new.lines past ⊎ ((new : Went) × ExpiresOne session now past new × ServerStands (N.named self.new.machine.tree.numberer) (J.keeps self.new.machine.journal) (J.room self.new.machine.journal) self.new.machine.tree.held self.new.machine.books self.new.lines new)) }
    {
        let ended = self.machine.expire(session, now)?;
        end_expired(&mut self.lines, ended.connection, session);
        let Ok(()) = self.lines.send(ended.outputs) else {
            return Err(Memory);
        };
        Ok(())
    }
}

impl<N: Numberer + Drop, J: Keeping> StoreSide for TreeServer<N, J> {
    ghost stands = { λ s past. ServerStands (N.named s.machine.tree.numberer) (J.keeps s.machine.journal) (J.room s.machine.journal) s.machine.tree.held s.machine.books s.lines past };

    fn admit(&mut self) -> Result<u32, StoreEnding> {
        Ok(self.lines.admit()?)
    }

    // The cost is that of the frames that are whole by then in the tree. Answers are written straight behind the waiting bytes, and a
    // request moves into the journal.
    fn feed(&mut self, connection: u32, now: i64, piece: &[u8]) -> Result<(), StoreEnding> {
        let mut framer = self.lines.take_framer(connection)?;
        match self.take_frames(connection, now, &mut framer, piece) {
            Ok(()) => {
                self.lines.put_framer(connection, framer);
                Ok(())
            }
            Err(ending) => {
                self.lines.end(connection, ending);
                Err(ending)
            }
        }
    }

    // The cost is linear in what is moved, in however many pieces.
    fn pull(&mut self, connection: u32, limit: usize, into: &mut Vec<u8>) -> Result<usize, Memory> {
        Ok(self.lines.pull(connection, limit, into)?)
    }

    fn lose(&mut self, connection: u32) {
        if self.lines.ending(connection).is_some() {
            return;
        }
        self.machine.lose(connection);
        self.lines.end(connection, StoreEnding::Lost);
    }

    // Where no session's time is up the cost is that of finding the first one's time; else it grows with those that end.
    fn tick(&mut self, now: i64) -> Result<(), Memory> {
        self.lines.flush()?;
        for session in self.machine.up(now)? {
            self.expire(session, now)?;
        }
        Ok(())
    }

    fn ending(&self, connection: u32) -> Option<StoreEnding> {
        self.lines.ending(connection)
    }

    fn waiting(&self, connection: u32) -> usize {
        self.lines.waiting(connection)
    }

    fn told(&mut self) -> Option<u32> {
        self.lines.told()
    }
}

impl<N: Numberer + Drop> Recorded for TreeServer<N, Journal> {
    fn entries(&self) -> &[Entry] {
        self.machine.journal.as_slice()
    }
}
