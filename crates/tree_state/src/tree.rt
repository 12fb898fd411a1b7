//! The tree: the machine over what is held, with a numberer.

ghost use Rattle.std.specs.Prelude.{◌≡◌, ◌<ℤ◌, ◌≤ℤ◌, ◌↔◌, ◌-◌, ◌^◌, ℕ, List, [], pos, Some, None, All, IfOk, OnOk, OnErr, unsigned_abs};
ghost use Rattle.std.specs.List.{AllZip};
ghost use Rattle.std.specs.Option.{option_map};
ghost use Rattle.zk_path.specs.Paths.{IsTextOf};
ghost use Rattle.zk_messages.specs.Refuses.{RefusesOp};
ghost use Rattle.tree_state.specs.Commands.{Change, Command, IsChange, IsCommand, multi};
ghost use Rattle.tree_state.specs.Nodes.{Path, find, child_names, stat_of};
ghost use Rattle.tree_state.specs.Places.{counted_length};
ghost use Rattle.tree_state.specs.Sessions.{live_of};
ghost use Rattle.tree_state.specs.State.{State, Session as PlainSession, start_at, session_of, session_at};
ghost use Rattle.tree_state.specs.Changes.{Naming};
ghost use Rattle.tree_state.specs.Step.{connects, asks, loses, expires, given_to, answer};
ghost use Rattle.tree_state.specs.Trees.{Means, Stays, Does, Answers, LeavesRoom, CanConnect, HasRoom, IsMoment, IsNaming};
ghost use Rattle.zk_messages.specs.Short.{HasShortOpParts, HasShortParts};

use crate::events::make_room;
use crate::held::{Held, alone};
use crate::message::{Message, Output, Outputs};
use crate::multi::{Stop, failed_results};
use crate::node::Moment;
use crate::session::{Given, LiveSession};
use jute_core::{Memory, Texts};
use std::alloc::Global;
use zk_messages::{Ops, Outcome, Reply, Request, Results, refusal_of};
use zk_path::Numberer;
use zk_records::{ConnectRequest, Stat};

/// The plain machine over one ordered map of path texts. `N` names its sequential nodes.
#[derive(Drop)]
pub struct Tree<N: Numberer> {
    pub held: Held,
    pub numberer: N,
}

impl<N: Numberer + Drop> Tree<N> {
    /// The root alone, without sessions.
    pub fn new(alloc: Global, numberer: N) -> Result<Tree<N>, Memory>
        ensures start { IfOk result (λ tree. Means tree.held (start_at 0)) }
        ensures numberer { IfOk result (λ tree. tree.numberer ≡ numberer) }
    {
        Tree::starting_at(alloc, numberer, 0)
    }

    /// The root alone, which has had so many creations, not fewer than none.
    pub fn starting_at(alloc: Global, numberer: N, creations: i32) -> Result<Tree<N>, Memory>
        requires { pos 0 ≤ℤ creations }
        ensures start { IfOk result (λ tree. Means tree.held (start_at (unsigned_abs creations))) }
        ensures numberer { IfOk result (λ tree. tree.numberer ≡ numberer) }
    {
        Ok(Tree {
            held: Held::starting_at(alloc, creations.unsigned_abs())?,
            numberer,
        })
    }

    /// Answers a connect request of a connection that has no session. `fresh` and its password are those of the next session,
    /// whose number is at least 1 and above those of all sessions so far.
    ///
    /// # Errors
    /// `Memory`; then the tree is as it was.
    pub fn connect(
        &mut self,
        alloc: Global,
        now: i64,
        connection: u32,
        asked: &ConnectRequest,
        fresh: i64,
        password: [u8; 16],
    ) -> Result<Outputs, Memory>
        requires last { self.old.held.last <ℤ pos (2 ^ 63 - 1) }
        ensures step { IfOk result (λ outputs. (naming : Naming) (s : State) → Means self.old.held s → CanConnect s connection fresh
            → Does naming s (connects connection asked.now (given_to s.sessions asked.now fresh password) now) self.new.held outputs) }
        ensures memory { OnErr result (Stays self.old.held self.new.held) }
        ensures numberer { self.new.numberer ≡ self.old.numberer }
    {
        self.held
            .connect(alloc, now, connection, asked, fresh, password)
    }

    /// Answers a request of a connection; errors of the protocol are answers. Events of watches stand before the reply. A connection
    /// without a session is not answered. The cost of a multi is linear in all that the tree holds.
    ///
    /// # Errors
    /// `Memory`; then the tree is as it was, but its numberer may have given numbers.
    pub fn apply(
        &mut self,
        alloc: Global,
        now: i64,
        connection: u32,
        xid: i32,
        request: &Request,
    ) -> Result<Outputs, Memory>
        requires last { self.old.held.last <ℤ pos (2 ^ 63 - 1) }
        requires short { HasShortParts request.now }
        ensures step { IfOk result (λ outputs. (naming : Naming) (s : State) (command : Command) → Means self.old.held s → IsNaming (N.named self.old.numberer) naming
            → IsCommand request.now command → Does naming s (asks connection xid command now) self.new.held outputs) }
        ensures memory { OnErr result (Stays self.old.held self.new.held) }
        ensures names { (stem : List ℕ) (number : ℕ) (text : List ℕ) → N.named self.new.numberer stem number text ↔ N.named self.old.numberer stem number text }
    {
        let Some(session) = self.held.sessions.session_of(connection) else {
            return Ok(Outputs::of(Vec::new(alloc)));
        };
        let mut outputs = Vec::with_capacity(alloc, 1)?;
        let at = Moment {
            zxid: self.held.last + 1,
            time: now,
            session,
        };
        let before = self.held.sessions.heard(session);
        self.held.sessions.hear(session, now);
        match self.answer(alloc, &at, connection, request, &mut outputs) {
            Ok(outcome) => {
                let zxid = self.held.last;
                outputs.push(Output {
                    connection,
                    message: Message::Reply(Reply { xid, zxid, outcome }),
                })?;
                Ok(Outputs::of(outputs))
            }
            Err(Memory) => {
                self.held.sessions.hear(session, before);
                Err(Memory)
            }
        }
    }

    // The outcome of a request, by its row, and its events.
    fn answer(
        &mut self,
        alloc: Global,
        at: &Moment,
        connection: u32,
        request: &Request,
        outputs: &mut Vec<Output>,
    ) -> Result<Outcome, Memory>
        requires short { HasShortParts request.now }
        ensures answers { (naming : Naming) (s : State) (x : PlainSession) (command : Command) → Means self.old.held s → IsMoment s at.now → session_at at.now.session s.sessions ≡ Some x
            → x.connection ≡ Some connection → HasRoom outputs.old → IsNaming (N.named self.old.numberer) naming → IsCommand request.now command
            → Answers s (answer naming at.now connection s command) self.new.held outputs.old outputs.new result }
        ensures kept { (s : State) (x : PlainSession) → Means self.old.held s → IsMoment s at.now → session_at at.now.session s.sessions ≡ Some x
            → x.connection ≡ Some connection → HasRoom outputs.old → LeavesRoom s self.new.held outputs.new result }
        ensures names { (stem : List ℕ) (number : ℕ) (text : List ℕ) → N.named self.new.numberer stem number text ↔ N.named self.old.numberer stem number text }
    {
        if let Some(code) = refusal_of(request) {
            return Ok(Outcome::Error { code });
        }
        match request {
            Request::Create(asked) => alone(
                self.held
                    .make(alloc, &mut self.numberer, asked, false, at, outputs),
            ),
            Request::Create2(asked) => alone(
                self.held
                    .make(alloc, &mut self.numberer, asked, true, at, outputs),
            ),
            Request::Multi(ops) => self.multi(alloc, ops, at, outputs),
            request => self.held.serve(alloc, at, connection, request, outputs),
        }
    }

    // The row of multi: over a copy of what is held, which takes its place where all changes were done.
    fn multi(
        &mut self,
        alloc: Global,
        ops: &Ops,
        at: &Moment,
        outputs: &mut Vec<Output>,
    ) -> Result<Outcome, Memory>
        requires short { All HasShortOpParts ops.now }
        ensures answers { (naming : Naming) (c : ℕ) (s : State) (changes : List Change) → Means self.old.held s → IsMoment s at.now → HasRoom outputs.old
            → IsNaming (N.named self.old.numberer) naming → All (λ op. RefusesOp op None) ops.now → AllZip IsChange ops.now changes
            → Answers s (answer naming at.now c s (multi changes)) self.new.held outputs.old outputs.new result }
        ensures room { OnOk result (HasRoom outputs.old → HasRoom outputs.new) }
        ensures memory { OnErr result (self.new.held ≡ self.old.held) }
        ensures names { (stem : List ℕ) (number : ℕ) (text : List ℕ) → N.named self.new.numberer stem number text ↔ N.named self.old.numberer stem number text }
    {
        let mut trial = self.held.copy(alloc)?;
        let mut events = Vec::new(alloc);
        match trial.perform_all(alloc, &mut self.numberer, ops.as_slice(), at, &mut events) {
            Ok(results) => {
                outputs.append(&mut events)?;
                make_room(outputs)?;
                self.held = trial;
                Ok(Outcome::Multi(Results::of(results)))
            }
            Err(Stop::At { index, code }) => Ok(Outcome::Multi(failed_results(
                alloc,
                index,
                code,
                ops.len(),
            )?)),
            Err(Stop::Memory) => Err(Memory),
        }
    }

    /// A connection is lost; its session stays. Takes no memory.
    pub fn lose(&mut self, connection: u32)
        ensures step { (naming : Naming) (s : State) → Means self.old.held s → Does naming s (loses connection) self.new.held [] }
        ensures numberer { self.new.numberer ≡ self.old.numberer }
    {
        self.held.lose(connection);
    }

    /// Ends a live session that was not heard in time, with its ephemerals.
    ///
    /// # Errors
    /// `Memory`; then the tree is as it was.
    pub fn expire(&mut self, alloc: Global, now: i64, session: i64) -> Result<Outputs, Memory>
        requires last { self.old.held.last <ℤ pos (2 ^ 63 - 1) }
        ensures step { IfOk result (λ outputs. (naming : Naming) (s : State) (x : PlainSession) → Means self.old.held s → session_at session s.sessions ≡ Some x
            → Does naming s (expires session now) self.new.held outputs) }
        ensures memory { OnErr result (Stays self.old.held self.new.held) }
        ensures numberer { self.new.numberer ≡ self.old.numberer }
    {
        self.held.expire(alloc, now, session)
    }

    /// The last zxid. Takes no memory.
    pub fn last(&self) -> i64
        ensures last { (s : State) → Means self.now.held s → result ≡ s.last }
        ensures held { result ≡ self.now.held.last }
    {
        self.held.last
    }

    /// The session of a connection. Takes no memory.
    pub fn session_of(&self, connection: u32) -> Option<i64>
        ensures { (s : State) → Means self.now.held s → result ≡ session_of connection s.sessions }
    {
        self.held.sessions.session_of(connection)
    }

    /// What a connect request is given, where `fresh` and its password are those of the next session. Takes no memory.
    pub fn given(&self, asked: &ConnectRequest, fresh: i64, password: [u8; 16]) -> Given
        ensures { (s : State) → Means self.now.held s → result ≡ given_to s.sessions asked.now fresh password }
    {
        self.held.sessions.given(asked, fresh, password)
    }

    /// The live session with this number, or `None` where it is not live. Takes no memory.
    pub fn session(&self, session: i64) -> Option<LiveSession>
        ensures { (s : State) → Means self.now.held s → result ≡ option_map live_of (session_at session s.sessions) }
    {
        self.held.sessions.session(session)
    }

    /// The Stat of the node at a path, or `None` where there is none. Takes no memory.
    pub fn stat(&self, path: &str) -> Option<Stat>
        ensures { (s : State) (p : Path) → Means self.now.held s → IsTextOf path.now p → result ≡ option_map (stat_of s.nodes p) (find s.nodes p) }
    {
        match self.held.places.find(path) {
            Some(node) => Some(node.stat()),
            None => None,
        }
    }

    /// How many bytes the names of the children of the node at a path take in a reply, each with the four bytes of its length, up
    /// to the last `u64`; `None` where there is no node. The cost is linear in the number of these names. Takes no memory.
    pub fn names_length(&self, path: &str) -> Option<u64>
        ensures { (s : State) (p : Path) → Means self.now.held s → IsTextOf path.now p → result ≡ option_map (λ node. counted_length (child_names p s.nodes)) (find s.nodes p) }
    {
        match self.held.places.find(path) {
            Some(node) => Some(node.names_length()),
            None => None,
        }
    }

    /// The numberer. Takes no memory.
    pub fn numberer(&self) -> &N
        ensures { result.now ≡ self.now.numberer }
    {
        &self.numberer
    }

    /// The names of the children of the node at a path, in byte order, or `None` exactly where there is no node. The cost is
    /// linear in these names.
    pub fn children(&self, alloc: Global, path: &str) -> Result<Option<Texts>, Memory>
        ensures { IfOk result (λ names. (s : State) (p : Path) → Means self.now.held s → IsTextOf path.now p → names ≡ option_map (λ node. child_names p s.nodes) (find s.nodes p)) }
    {
        match self.held.places.find(path) {
            Some(node) => Ok(Some(node.child_names(alloc)?)),
            None => Ok(None),
        }
    }
}
