//! A frame of a connection that has a session.

ghost use Rattle.std.specs.Prelude.{◌≡◌, ◌≢◌, ◌↔◌, ◌+◌, ◌-◌, ◌<◌, ◌≤◌, ◌^◌, ◌++◌, ◌∷◌, ℕ, List, [], length, min, Some, None, IsTrue, IfOk, IfErr, OnOk, OnErr};
ghost use Rattle.std.specs.Option.{option_map_or};
ghost use Rattle.zk_path.specs.Paths.{IsTextOf};
ghost use Rattle.zk_messages.specs.Requests.{RefusedRequest, SpellsRequest};
ghost use Rattle.zk_messages.specs.Short.{HasShortParts};
ghost use Rattle.zk_messages.specs.declared.request.Request.TheVariants as requests;
ghost use Rattle.tree_state.specs.Changes.{Naming};
ghost use Rattle.tree_state.specs.Commands.{Command, IsCommand};
ghost use Rattle.tree_state.specs.Nodes.{Path, child_names, find};
ghost use Rattle.tree_state.specs.Places.{names_length};
ghost use Rattle.tree_state.specs.State.{State, session_of};
ghost use Rattle.tree_state.specs.Trees.{Does, IsNaming, Means, Stays};
ghost use Rattle.store_side.specs.declared.entry.Entry.{Entry as PlainEntry};
ghost use Rattle.store_side.specs.Calls.{ending_by_request};
ghost use Rattle.store_side.specs.Fitting.{frame_limit};
ghost use Rattle.store_side.specs.Owed.{IsTime};
ghost use Rattle.store_side.specs.Past.{Past as Went, state_of};
ghost use Rattle.tree_server.specs.Asking.{Asked, CannotTake, HasLength, IsUnread, MayTake, act_of, entry_of, unread};
ghost use Rattle.tree_server.specs.Machines.{NotTaken, Stands, Took};

use crate::books::due;
use crate::journal::Keeping;
use crate::machine::Machine;
use crate::taking::Taken;
use jute_core::{Memory, NotRead, Text};
use std::alloc::Global;
use store_side::{Entry, StoreEnding};
use tree_state::Outputs;
use zk_messages::{Request, read_request, refusal_of};
use zk_path::Numberer;

/// Where a request comes from: its connection, the session of that, the time at which it came, and its xid.
#[derive(Clone, Copy, Debug, Drop)]
pub struct Origin {
    pub connection: u32,
    pub session: i64,
    pub time: i64,
    pub xid: i32,
}

// The ending at a frame that was not read.
fn unread(fault: NotRead) -> StoreEnding
    ensures { result ≡ unread fault }
{
    match fault {
        NotRead::Refused(refusal) => StoreEnding::Malformed(refusal),
        NotRead::Memory => StoreEnding::Memory,
    }
}

// The body of a frame as a request.
fn request_of(alloc: Global, body: &[u8]) -> Result<(i32, Request), StoreEnding>
    requires { length body.now ≤ frame_limit }
    ensures read { IfOk result (λ read. SpellsRequest read.0 read.1 body.now) }
    ensures refused { IfErr result (IsUnread body.now RefusedRequest) }
{
    read_request(alloc, body).map_err(unread)
}

// Whether a request closes its session.
fn is_close(request: &Request) -> bool
    ensures { IsTrue result ↔ (request.now ≡ requests.Close) }
{
    matches!(request, Request::Close)
}

// How a connection ends by its request, if it does.
fn ending_of(request: &Request) -> Option<StoreEnding>
    ensures { result ≡ ending_by_request request.now }
{
    match request {
        Request::Close => Some(StoreEnding::SessionClosed),
        _ => None,
    }
}

impl<N: Numberer + Drop, J: Keeping> Machine<N, J> {
    /// Takes a frame of a connection that has this session: its request is asked of the tree, and its entry added to the order.
    ///
    /// # Errors
    /// Why the frame was not taken; then the machine stands where it stood.
    pub(crate) fn take_request(
        &mut self,
        connection: u32,
        session: i64,
        now: i64,
        body: &[u8],
    ) -> Result<Taken, StoreEnding>
        requires time { IsTime now }
        requires short { length body.now ≤ frame_limit }
        ensures taken { IfOk result (λ t. (past : Went) → Stands (N.named self.old.tree.numberer) (J.keeps self.old.journal) (J.room self.old.journal) self.old.tree.held self.old.books past
            → session_of connection (state_of past).sessions ≡ Some session
            → (new : Went) × Took past connection now body.now t.outputs t.moved t.ending new
            × Stands (N.named self.new.tree.numberer) (J.keeps self.new.journal) (J.room self.new.journal) self.new.tree.held self.new.books new) }
        ensures refused { IfErr result (λ e. (past : Went) → Stands (N.named self.old.tree.numberer) (J.keeps self.old.journal) (J.room self.old.journal) self.old.tree.held self.old.books past
            → session_of connection (state_of past).sessions ≡ Some session
            → NotTaken past connection now body.now e × Stands (N.named self.new.tree.numberer) (J.keeps self.new.journal) (J.room self.new.journal) self.new.tree.held self.new.books past) }
    {
        let (xid, request) = request_of(self.alloc, body)?;
        self.may_take(&request)?;
        let from = Origin {
            connection,
            session,
            time: now,
            xid,
        };
        let Ok(outputs) = self.ask(&from, &request) else {
            return Err(StoreEnding::Memory);
        };
        Ok(self.keep(&from, request, outputs))
    }

    // Whether there is room for the entry of a request, and its answer is no child list that is too long to be sent.
    fn may_take(&self, request: &Request) -> Result<(), StoreEnding>
        requires { HasShortParts request.now }
        ensures may { OnOk result ((s : State) → Means self.now.tree.held s → MayTake self.now.books s request.now) }
        ensures cannot { IfErr result (λ e. (s : State) → Means self.now.tree.held s → CannotTake self.now.books s request.now e) }
    {
        let length = self.answer_length(request);
        if !is_close(request) && !self.books.has_room(1) {
            return Err(StoreEnding::JournalFull);
        }
        if length > 2_147_483_647 {
            return Err(StoreEnding::AnswerTooLong { length });
        }
        Ok(())
    }

    // How many bytes the answer to a request has where it is a child list, up to the last `u64`, and 0 for each other answer.
    fn answer_length(&self, request: &Request) -> u64
        requires { HasShortParts request.now }
        ensures { (s : State) → Means self.now.tree.held s → HasLength s request.now result }
    {
        if refusal_of(request).is_some() {
            return 0;
        }
        match request {
            Request::GetChildren(asked) => self.list_length(&asked.path, 20),
            Request::GetChildren2(asked) => self.list_length(&asked.path, 88),
            _ => 0,
        }
    }

    // How many bytes the names of a node's children take with so many more; 0 where there is no node.
    fn list_length(&self, path: &Text, more: u64) -> u64
        ensures { (s : State) (p : Path) → Means self.now.tree.held s → IsTextOf path.now p
            → result ≡ option_map_or (λ node. min (more + names_length (child_names p s.nodes)) (2 ^ 64 - 1)) (find s.nodes p) 0 }
    {
        match self.tree.names_length(path.as_str()) {
            Some(names) => names.saturating_add(more),
            None => 0,
        }
    }

    // Asks a request of the tree, where there is room for its entry in the journal, and sets the time at which its session would be up.
    fn ask(&mut self, from: &Origin, request: &Request) -> Result<Outputs, Memory>
        requires time { IsTime from.now.time }
        requires short { HasShortParts request.now }
        ensures asked { IfOk result (λ outputs. (past : Went) (command : Command) → Stands (N.named self.old.tree.numberer) (J.keeps self.old.journal) (J.room self.old.journal) self.old.tree.held self.old.books past
            → session_of from.now.connection (state_of past).sessions ≡ Some from.now.session → IsCommand request.now command
            → Asked past (act_of from.now command) self.new.tree.held self.new.books.dues outputs) }
        ensures room { OnOk result (min (self.old.books.owed + 1) (2 ^ 64 - 1) ≤ J.room self.new.journal) }
        ensures kept { (order : List PlainEntry) → J.keeps self.old.journal order → J.keeps self.new.journal order }
        ensures names { (stem : List ℕ) (number : ℕ) (text : List ℕ) → N.named self.new.tree.numberer stem number text ↔ N.named self.old.tree.numberer stem number text }
        ensures books { self.new.books ≡ record self.old.books { dues = self.new.books.dues } }
        ensures failed { OnErr result ((past : Went) → Stands (N.named self.old.tree.numberer) (J.keeps self.old.journal) (J.room self.old.journal) self.old.tree.held self.old.books past
            → session_of from.now.connection (state_of past).sessions ≡ Some from.now.session
            → Stands (N.named self.new.tree.numberer) (J.keeps self.new.journal) (J.room self.new.journal) self.new.tree.held self.new.books past) }
    {
        let Some(live) = self.tree.session(from.session) else {
            return Err(Memory);
        };
        self.journal.reserve(self.books.owed.saturating_add(1))?;
        let before = due(live.heard, live.timeout, from.session);
        if is_close(request) {
            let outputs = self.apply(from, request)?;
            self.books.dues.remove(before);
            return Ok(outputs);
        }
        let after = due(from.time, live.timeout, from.session);
        self.books.dues.add(after)?;
        match self.apply(from, request) {
            Ok(outputs) => {
                self.books.leave(before, after);
                Ok(outputs)
            }
            Err(Memory) => {
                self.books.leave(after, before);
                Err(Memory)
            }
        }
    }

    // Asks a request of the tree, while zxids are left.
    fn apply(&mut self, from: &Origin, request: &Request) -> Result<Outputs, Memory>
        requires { HasShortParts request.now }
        ensures step { IfOk result (λ outputs. (naming : Naming) (s : State) (command : Command) → Means self.old.tree.held s → IsNaming (N.named self.old.tree.numberer) naming
            → IsCommand request.now command → Does naming s (act_of from.now command) self.new.tree.held outputs) }
        ensures memory { OnErr result (Stays self.old.tree.held self.new.tree.held) }
        ensures names { (stem : List ℕ) (number : ℕ) (text : List ℕ) → N.named self.new.tree.numberer stem number text ↔ N.named self.old.tree.numberer stem number text }
        ensures books { self.new.books ≡ self.old.books }
        ensures journal { self.new.journal ≡ self.old.journal }
    {
        if self.tree.last() == i64::MAX {
            return Err(Memory);
        }
        self.tree
            .apply(self.alloc, from.time, from.connection, from.xid, request)
    }

    // Adds the entry of a request that was asked of the tree to the journal, and counts it.
    fn keep(&mut self, from: &Origin, request: Request, outputs: Outputs) -> Taken
        ensures outputs { result.outputs ≡ outputs }
        ensures moved { result.moved ≡ None }
        ensures ending { result.ending ≡ ending_by_request request }
        ensures tree { self.new.tree ≡ self.old.tree }
        ensures kept { 0 < J.room self.old.journal → (order : List PlainEntry) → length order < 2 ^ 63 → J.keeps self.old.journal order
            → J.keeps self.new.journal (order ++ entry_of from.now request self.old.tree.held.last ∷ []) }
        ensures room { J.room self.old.journal ≤ J.room self.new.journal + 1 }
        ensures entries { self.new.books.entries ≡ min (self.old.books.entries + 1) (2 ^ 64 - 1) }
        ensures closed { request ≡ requests.Close → self.new.books.owed ≡ self.old.books.owed - 2 }
        ensures heard { request ≢ requests.Close → self.new.books.owed ≡ self.old.books.owed }
        ensures books { self.new.books ≡ record self.old.books { entries = self.new.books.entries; owed = self.new.books.owed } }
    {
        let ending = ending_of(&request);
        if is_close(&request) {
            self.books.owed = self.books.owed.saturating_sub(2);
        }
        self.books.entries = self.books.entries.saturating_add(1);
        self.journal.push(Entry::Take {
            connection: from.connection,
            xid: from.xid,
            request,
            zxid: self.tree.last(),
            now: from.time,
        });
        Taken {
            outputs,
            moved: None,
            ending,
        }
    }
}
