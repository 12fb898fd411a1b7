//! A frame of a connection that has not connected, the loss of a connection, and the end of a session.

ghost use Rattle.std.specs.Prelude.{◌≡◌, ◌≢◌, ◌⊎◌, ◌↔◌, ◌<ℤ◌, ◌<◌, ◌≤◌, ◌+◌, ◌-◌, ◌^◌, ◌+ℤ◌, ◌≤ℤ◌, ℕ, ℤ, pos, min, List, Contains, Some, None, IfOk, IfErr, OnOk, OnErr};
ghost use Rattle.std.specs.Option.{option_map_or};
ghost use Rattle.tree_state.specs.Changes.{Naming};
ghost use Rattle.tree_state.specs.State.{State, Session as PlainSession, session_at};
ghost use Rattle.tree_state.specs.Step.{Act, connects, given_to};
ghost use Rattle.tree_state.specs.Trees.{Means, Does, Stays, CanConnect};
ghost use Rattle.zk_records.specs.Connect.{SpellsConnect, RefusedConnect};
ghost use Rattle.jute_core.specs.declared.cursor.Refusal.{Refusal as PlainRefusal};
ghost use Rattle.store_side.specs.declared.entry.Entry.{Entry as PlainEntry};
ghost use Rattle.store_side.specs.Calls.{IsLoss};
ghost use Rattle.store_side.specs.Orders.{HasNoConnect, IsOver};
ghost use Rattle.store_side.specs.Owed.{IsTime};
ghost use Rattle.store_side.specs.Past.{Past as Went, state_of};
ghost use Rattle.tree_server.specs.Machines.{Stands, Took, NotTaken, Expired, added};
ghost use Rattle.tree_server.specs.Times.{due_of};
ghost use Rattle.tree_server.specs.Offers.{IsOffered, Puts, HasMore, HasNoMore, Replaces, AreSame, Leaves, TakesBack, entry_of};

use crate::books::due;
use crate::dues::{Due, Dues};
use crate::journal::Keeping;
use crate::machine::Machine;
use crate::taking::{Ended, Move, Taken};
use jute_core::{Memory, NotRead};
use std::alloc::Global;
use store_side::{Entry, StoreEnding};
use tree_state::{Given, Outputs};
use zk_path::Numberer;
use zk_records::{ConnectRequest, read_connect};

/// What a connect request is given on this connection, at this time, where the next session would have this number and password.
#[derive(Clone, Copy, Drop)]
pub(crate) struct Offer {
    pub connection: u32,
    pub at: i64,
    pub fresh: i64,
    pub password: [u8; 16],
    pub given: Given,
}

// Reads a connect request.
fn asked_in(alloc: Global, body: &[u8]) -> Result<ConnectRequest, StoreEnding>
    ensures read { IfOk result (λ asked. SpellsConnect asked body.now) }
    ensures refused { IfErr result (λ e. (e ≡ StoreEnding.Memory) ⊎ ((refusal : PlainRefusal) × (e ≡ StoreEnding.Malformed refusal) × RefusedConnect body.now refusal.place refusal.reason)) }
{
    // no frame is so long
    if body.len() > 0xffff_ffff {
        return Err(StoreEnding::Memory);
    }
    match read_connect(alloc, body) {
        Ok(asked) => Ok(asked),
        Err(NotRead::Refused(refusal)) => Err(StoreEnding::Malformed(refusal)),
        Err(NotRead::Memory) => Err(StoreEnding::Memory),
    }
}

// Takes out the time of before, if there was one and it is another one than the next. Takes no memory.
fn leave(dues: &mut Dues, was: Option<Due>, next: Due)
    ensures { Leaves was next dues.old dues.new }
{
    let Some(was) = was else {
        return;
    };
    if was != next {
        dues.remove(was);
    }
}

// Takes out the next time, where it is not the one of before. Takes no memory.
fn take_back(dues: &mut Dues, was: Option<Due>, next: Due)
    ensures { TakesBack was next dues.old dues.new }
{
    let Some(was) = was else {
        dues.remove(next);
        return;
    };
    if was != next {
        dues.remove(next);
    }
}

// The entries that a session owes which has this connection, or none.
fn owed_by(connection: Option<u32>) -> u64
    ensures { result ≡ option_map_or (λ c. 2) connection 1 }
{
    if connection.is_some() { 2 } else { 1 }
}

impl<N: Numberer + Drop, J: Keeping> Machine<N, J> {
    /// Takes the first frame of a connection: its client is given a new session, or a live one under its password, or none; and the entry
    /// is added to the order, behind the loss of the connection that had the session.
    ///
    /// # Errors
    /// Why the frame was not taken; then the machine stands where it stood.
    pub(crate) fn take_connect(
        &mut self,
        connection: u32,
        now: i64,
        body: &[u8],
    ) -> Result<Taken, StoreEnding>
        requires { IsTime now }
        ensures taken { IfOk result (λ t. (past : Went) → Stands (N.named self.old.tree.numberer) (J.keeps self.old.journal) (J.room self.old.journal) self.old.tree.held self.old.books past
            → HasNoConnect connection past.order
            → (new : Went) × Took past connection now body.now t.outputs t.moved t.ending new
            × Stands (N.named self.new.tree.numberer) (J.keeps self.new.journal) (J.room self.new.journal) self.new.tree.held self.new.books new) }
        ensures refused { IfErr result (λ e. (past : Went) → Stands (N.named self.old.tree.numberer) (J.keeps self.old.journal) (J.room self.old.journal) self.old.tree.held self.old.books past
            → HasNoConnect connection past.order
            → NotTaken past connection now body.now e × Stands (N.named self.new.tree.numberer) (J.keeps self.new.journal) (J.room self.new.journal) self.new.tree.held self.new.books past) }
    {
        let asked = asked_in(self.alloc, body)?;
        let last = self.tree.last();
        if asked.seen > last {
            return Err(StoreEnding::AheadOfUs {
                seen: asked.seen,
                last,
            });
        }
        // an entry raises each of them by one at most
        if last == i64::MAX || self.books.greatest == i64::MAX {
            return Err(StoreEnding::Memory);
        }
        let offer = self.offer(connection, now, &asked);
        self.connect(asked, &offer)
    }

    // What a connect request is given. Takes no memory.
    fn offer(&self, connection: u32, now: i64, asked: &ConnectRequest) -> Offer
        requires { self.now.books.greatest <ℤ pos (2 ^ 63 - 1) }
        ensures connection { result.connection ≡ connection }
        ensures at { result.at ≡ now }
        ensures offered { (past : Went) (body : List ℕ) → Stands (N.named self.now.tree.numberer) (J.keeps self.now.journal) (J.room self.now.journal) self.now.tree.held self.now.books past
            → HasNoConnect connection past.order → SpellsConnect asked.now body → asked.now.seen ≤ℤ (state_of past).last → IsOffered past body asked.now result }
    {
        let fresh = self.books.greatest + 1;
        let password = self.books.password(fresh);
        let given = self.tree.given(asked, fresh, password);
        Offer {
            connection,
            at: now,
            fresh,
            password,
            given,
        }
    }

    // Connects a client that is given this, by what is given.
    fn connect(&mut self, asked: ConnectRequest, offer: &Offer) -> Result<Taken, StoreEnding>
        requires last { self.old.tree.held.last <ℤ pos (2 ^ 63 - 1) }
        requires time { IsTime offer.now.at }
        ensures taken { IfOk result (λ t. (past : Went) (body : List ℕ) → Stands (N.named self.old.tree.numberer) (J.keeps self.old.journal) (J.room self.old.journal) self.old.tree.held self.old.books past
            → IsOffered past body asked offer.now
            → (new : Went) × Took past offer.now.connection offer.now.at body t.outputs t.moved t.ending new
            × Stands (N.named self.new.tree.numberer) (J.keeps self.new.journal) (J.room self.new.journal) self.new.tree.held self.new.books new) }
        ensures refused { IfErr result (λ e. (past : Went) (body : List ℕ) → Stands (N.named self.old.tree.numberer) (J.keeps self.old.journal) (J.room self.old.journal) self.old.tree.held self.old.books past
            → IsOffered past body asked offer.now
            → NotTaken past offer.now.connection offer.now.at body e × Stands (N.named self.new.tree.numberer) (J.keeps self.new.journal) (J.room self.new.journal) self.new.tree.held self.new.books past) }
    {
        let session = offer.given.session;
        if session == 0 {
            return self.connect_none(asked, offer);
        }
        let Some(live) = self.tree.session(session) else {
            return self.connect_new(asked, offer);
        };
        let was = due(live.heard, live.timeout, session);
        match live.connection {
            None => self.connect_again(asked, offer, was),
            Some(lost) => self.connect_moved(asked, offer, was, lost),
        }
    }

    // A connect request that is given no session.
    fn connect_none(&mut self, asked: ConnectRequest, offer: &Offer) -> Result<Taken, StoreEnding>
        requires last { self.old.tree.held.last <ℤ pos (2 ^ 63 - 1) }
        ensures taken { IfOk result (λ t. (past : Went) (body : List ℕ) → Stands (N.named self.old.tree.numberer) (J.keeps self.old.journal) (J.room self.old.journal) self.old.tree.held self.old.books past
            → IsOffered past body asked offer.now → offer.now.given.session ≡ pos 0
            → (new : Went) × Took past offer.now.connection offer.now.at body t.outputs t.moved t.ending new
            × Stands (N.named self.new.tree.numberer) (J.keeps self.new.journal) (J.room self.new.journal) self.new.tree.held self.new.books new) }
        ensures refused { IfErr result (λ e. (past : Went) (body : List ℕ) → Stands (N.named self.old.tree.numberer) (J.keeps self.old.journal) (J.room self.old.journal) self.old.tree.held self.old.books past
            → IsOffered past body asked offer.now → offer.now.given.session ≡ pos 0
            → NotTaken past offer.now.connection offer.now.at body e × Stands (N.named self.new.tree.numberer) (J.keeps self.new.journal) (J.room self.new.journal) self.new.tree.held self.new.books past) }
    {
        self.make_room(1)?;
        let Ok(outputs) = self.tree.connect(
            self.alloc,
            offer.at,
            offer.connection,
            &asked,
            offer.fresh,
            offer.password,
        )
        else {
            return Err(StoreEnding::Memory);
        };
        let ending = Some(StoreEnding::Expired {
            session: asked.session,
        });
        self.put_connect(asked, offer);
        Ok(Taken {
            outputs,
            moved: None,
            ending,
        })
    }

    // A connect request that is given a new session.
    fn connect_new(&mut self, asked: ConnectRequest, offer: &Offer) -> Result<Taken, StoreEnding>
        requires last { self.old.tree.held.last <ℤ pos (2 ^ 63 - 1) }
        requires time { IsTime offer.now.at }
        ensures taken { IfOk result (λ t. (past : Went) (body : List ℕ) → Stands (N.named self.old.tree.numberer) (J.keeps self.old.journal) (J.room self.old.journal) self.old.tree.held self.old.books past
            → IsOffered past body asked offer.now → offer.now.given.session ≢ pos 0 → session_at offer.now.given.session (state_of past).sessions ≡ None
            → (new : Went) × Took past offer.now.connection offer.now.at body t.outputs t.moved t.ending new
            × Stands (N.named self.new.tree.numberer) (J.keeps self.new.journal) (J.room self.new.journal) self.new.tree.held self.new.books new) }
        ensures refused { IfErr result (λ e. (past : Went) (body : List ℕ) → Stands (N.named self.old.tree.numberer) (J.keeps self.old.journal) (J.room self.old.journal) self.old.tree.held self.old.books past
            → IsOffered past body asked offer.now → offer.now.given.session ≢ pos 0 → session_at offer.now.given.session (state_of past).sessions ≡ None
            → NotTaken past offer.now.connection offer.now.at body e × Stands (N.named self.new.tree.numberer) (J.keeps self.new.journal) (J.room self.new.journal) self.new.tree.held self.new.books past) }
    {
        self.make_room(3)?;
        let Ok(outputs) = self.join(&asked, offer, None) else {
            return Err(StoreEnding::Memory);
        };
        self.books.owed = self.books.owed.saturating_add(2);
        self.books.greatest = offer.given.session;
        self.put_connect(asked, offer);
        Ok(Taken {
            outputs,
            moved: None,
            ending: None,
        })
    }

    // A connect request that is given a live session without a connection, which would have been up then.
    fn connect_again(
        &mut self,
        asked: ConnectRequest,
        offer: &Offer,
        was: Due,
    ) -> Result<Taken, StoreEnding>
        requires last { self.old.tree.held.last <ℤ pos (2 ^ 63 - 1) }
        requires time { IsTime offer.now.at }
        ensures taken { IfOk result (λ t. (past : Went) (body : List ℕ) (x : PlainSession) → Stands (N.named self.old.tree.numberer) (J.keeps self.old.journal) (J.room self.old.journal) self.old.tree.held self.old.books past
            → IsOffered past body asked offer.now → offer.now.given.session ≢ pos 0 → session_at offer.now.given.session (state_of past).sessions ≡ Some x
            → x.connection ≡ None → was ≡ due_of x
            → (new : Went) × Took past offer.now.connection offer.now.at body t.outputs t.moved t.ending new
            × Stands (N.named self.new.tree.numberer) (J.keeps self.new.journal) (J.room self.new.journal) self.new.tree.held self.new.books new) }
        ensures refused { IfErr result (λ e. (past : Went) (body : List ℕ) (x : PlainSession) → Stands (N.named self.old.tree.numberer) (J.keeps self.old.journal) (J.room self.old.journal) self.old.tree.held self.old.books past
            → IsOffered past body asked offer.now → offer.now.given.session ≢ pos 0 → session_at offer.now.given.session (state_of past).sessions ≡ Some x
            → x.connection ≡ None → was ≡ due_of x
            → NotTaken past offer.now.connection offer.now.at body e × Stands (N.named self.new.tree.numberer) (J.keeps self.new.journal) (J.room self.new.journal) self.new.tree.held self.new.books past) }
    {
        self.make_room(2)?;
        let Ok(outputs) = self.join(&asked, offer, Some(was)) else {
            return Err(StoreEnding::Memory);
        };
        self.books.owed = self.books.owed.saturating_add(1);
        self.put_connect(asked, offer);
        Ok(Taken {
            outputs,
            moved: None,
            ending: None,
        })
    }

    // A connect request that is given a live session of another connection, which is lost.
    fn connect_moved(
        &mut self,
        asked: ConnectRequest,
        offer: &Offer,
        was: Due,
        lost: u32,
    ) -> Result<Taken, StoreEnding>
        requires last { self.old.tree.held.last <ℤ pos (2 ^ 63 - 1) }
        requires time { IsTime offer.now.at }
        ensures taken { IfOk result (λ t. (past : Went) (body : List ℕ) (x : PlainSession) → Stands (N.named self.old.tree.numberer) (J.keeps self.old.journal) (J.room self.old.journal) self.old.tree.held self.old.books past
            → IsOffered past body asked offer.now → offer.now.given.session ≢ pos 0 → session_at offer.now.given.session (state_of past).sessions ≡ Some x
            → x.connection ≡ Some lost → was ≡ due_of x
            → (new : Went) × Took past offer.now.connection offer.now.at body t.outputs t.moved t.ending new
            × Stands (N.named self.new.tree.numberer) (J.keeps self.new.journal) (J.room self.new.journal) self.new.tree.held self.new.books new) }
        ensures refused { IfErr result (λ e. (past : Went) (body : List ℕ) (x : PlainSession) → Stands (N.named self.old.tree.numberer) (J.keeps self.old.journal) (J.room self.old.journal) self.old.tree.held self.old.books past
            → IsOffered past body asked offer.now → offer.now.given.session ≢ pos 0 → session_at offer.now.given.session (state_of past).sessions ≡ Some x
            → x.connection ≡ Some lost → was ≡ due_of x
            → NotTaken past offer.now.connection offer.now.at body e × Stands (N.named self.new.tree.numberer) (J.keeps self.new.journal) (J.room self.new.journal) self.new.tree.held self.new.books past) }
    {
        self.make_room(2)?;
        let Ok(outputs) = self.join(&asked, offer, Some(was)) else {
            return Err(StoreEnding::Memory);
        };
        self.tree.lose(lost);
        self.put(Entry::Lost { connection: lost });
        self.put_connect(asked, offer); // behind the loss
        let moved = Some(Move {
            connection: lost,
            session: offer.given.session,
        });
        Ok(Taken {
            outputs,
            moved,
            ending: None,
        })
    }

    // Makes room for so many entries more, with those owed.
    fn make_room(&mut self, more: u64) -> Result<(), StoreEnding>
        ensures held { self.new.tree.held ≡ self.old.tree.held }
        ensures numberer { self.new.tree.numberer ≡ self.old.tree.numberer }
        ensures books { self.new.books ≡ self.old.books }
        ensures kept { (order : List PlainEntry) → J.keeps self.old.journal order → J.keeps self.new.journal order }
        ensures more { OnOk result (self.old.books.limit < 2 ^ 63 → HasMore self.old.books (J.room self.new.journal) more) }
        ensures room { OnErr result (J.room self.old.journal ≤ J.room self.new.journal) }
        ensures refused { IfErr result (λ e. HasNoMore self.old.books more e) }
    {
        if !self.books.has_room(more) {
            return Err(StoreEnding::JournalFull);
        }
        let Ok(()) = self.journal.reserve(self.books.owed.saturating_add(more)) else {
            return Err(StoreEnding::Memory);
        };
        Ok(())
    }

    // Connects in the tree, with the time at which the session would be up in the place of the one that it had. Without memory both are as
    // they were.
    fn join(
        &mut self,
        asked: &ConnectRequest,
        offer: &Offer,
        was: Option<Due>,
    ) -> Result<Outputs, Memory>
        requires last { self.old.tree.held.last <ℤ pos (2 ^ 63 - 1) }
        requires time { IsTime offer.now.at }
        ensures step { IfOk result (λ outputs. (naming : Naming) (s : State) → Means self.old.tree.held s → CanConnect s offer.now.connection offer.now.fresh
            → Does naming s (connects offer.now.connection asked.now (given_to s.sessions asked.now offer.now.fresh offer.now.password) offer.now.at) self.new.tree.held outputs) }
        ensures memory { OnErr result (Stays self.old.tree.held self.new.tree.held) }
        ensures numberer { self.new.tree.numberer ≡ self.old.tree.numberer }
        ensures books { self.new.books ≡ record self.old.books { dues = self.new.books.dues } }
        ensures journal { self.new.journal ≡ self.old.journal }
        ensures dues { OnOk result (Replaces was (record { at = offer.now.at +ℤ offer.now.given.timeout; session = offer.now.given.session }) self.old.books.dues self.new.books.dues) }
        ensures same { OnErr result ((Contains self.old.books.dues (record { at = offer.now.at +ℤ offer.now.given.timeout; session = offer.now.given.session }) ↔ (was ≡ Some (record { at = offer.now.at +ℤ offer.now.given.timeout; session = offer.now.given.session })))
            → AreSame self.old.books.dues self.new.books.dues) }
    {
        let next = due(offer.at, offer.given.timeout, offer.given.session);
        self.books.dues.add(next)?;
        match self.tree.connect(
            self.alloc,
            offer.at,
            offer.connection,
            asked,
            offer.fresh,
            offer.password,
        ) {
            Ok(outputs) => {
                leave(&mut self.books.dues, was, next);
                Ok(outputs)
            }
            Err(Memory) => {
                take_back(&mut self.books.dues, was, next);
                Err(Memory)
            }
        }
    }

    // Adds the entry of a connect request to the order, where there is room for it. Takes no memory.
    fn put_connect(&mut self, asked: ConnectRequest, offer: &Offer)
        ensures held { self.new.tree.held ≡ self.old.tree.held }
        ensures numberer { self.new.tree.numberer ≡ self.old.tree.numberer }
        ensures books { self.new.books ≡ record self.old.books { entries = min (self.old.books.entries + 1) (2 ^ 64 - 1) } }
        ensures put { Puts (J.keeps self.old.journal) (J.room self.old.journal) (J.keeps self.new.journal) (J.room self.new.journal) (entry_of asked offer.now self.old.tree.held.last) }
    {
        let zxid = self.tree.last();
        self.put(Entry::Connect {
            connection: offer.connection,
            asked,
            session: offer.given.session,
            timeout: offer.given.timeout,
            password: offer.given.password,
            zxid,
            now: offer.at,
        });
    }

    // Adds an entry to the order, where there is room for it. Takes no memory.
    fn put(&mut self, entry: Entry)
        ensures held { self.new.tree.held ≡ self.old.tree.held }
        ensures numberer { self.new.tree.numberer ≡ self.old.tree.numberer }
        ensures books { self.new.books ≡ record self.old.books { entries = min (self.old.books.entries + 1) (2 ^ 64 - 1) } }
        ensures put { Puts (J.keeps self.old.journal) (J.room self.old.journal) (J.keeps self.new.journal) (J.room self.new.journal) entry }
    {
        self.journal.push(entry);
        self.books.entries = self.books.entries.saturating_add(1);
    }

    /// A connection is lost; its session stays. Takes no memory.
    pub(crate) fn lose(&mut self, connection: u32)
        ensures { (past : Went) → Stands (N.named self.old.tree.numberer) (J.keeps self.old.journal) (J.room self.old.journal) self.old.tree.held self.old.books past
            → (entries : List PlainEntry) × (acts : List Act) × IsLoss past connection entries acts
            × (new : Went) × (new ≡ added entries acts past) × Stands (N.named self.new.tree.numberer) (J.keeps self.new.journal) (J.room self.new.journal) self.new.tree.held self.new.books new }
    {
        if self.tree.session_of(connection).is_none() {
            return;
        }
        self.tree.lose(connection);
        self.books.owed = self.books.owed.saturating_sub(1);
        self.put(Entry::Lost { connection });
    }

    /// Ends a session whose time is up.
    ///
    /// # Errors
    /// `Memory`; then the machine stands where it stood.
    pub(crate) fn expire(&mut self, session: i64, now: i64) -> Result<Ended, Memory>
        requires { IsTime now }
        ensures ended { IfOk result (λ x. (past : Went) → Stands (N.named self.old.tree.numberer) (J.keeps self.old.journal) (J.room self.old.journal) self.old.tree.held self.old.books past → IsOver (state_of past) session now
            → (new : Went) × Expired past session now x.outputs x.connection new × Stands (N.named self.new.tree.numberer) (J.keeps self.new.journal) (J.room self.new.journal) self.new.tree.held self.new.books new) }
        ensures memory { OnErr result ((past : Went) → Stands (N.named self.old.tree.numberer) (J.keeps self.old.journal) (J.room self.old.journal) self.old.tree.held self.old.books past → Stands (N.named self.new.tree.numberer) (J.keeps self.new.journal) (J.room self.new.journal) self.new.tree.held self.new.books past) }
    {
        let Some(live) = self.tree.session(session) else {
            return Err(Memory);
        };
        if self.tree.last() == i64::MAX {
            return Err(Memory);
        }
        let outputs = self.tree.expire(self.alloc, now, session)?;
        self.books
            .dues
            .remove(due(live.heard, live.timeout, session));
        self.books.owed = self.books.owed.saturating_sub(owed_by(live.connection));
        let zxid = self.tree.last();
        self.put(Entry::Expire { session, zxid, now });
        Ok(Ended {
            outputs,
            connection: live.connection,
        })
    }
}
