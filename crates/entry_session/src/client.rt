//! A frame of the client.

ghost use Rattle.std.specs.Prelude.{◌≡◌, ◌≢◌, ◌+◌, ◌∷◌, ◌++◌, [], ◌≤◌, ◌<◌, ◌^◌, ℕ, List, length, Err, None, OnOk, OnErr, IfErr, IfOk};
ghost use Rattle.jute_core.specs.Frames.{frame};
ghost use Rattle.zk_records.specs.Connect.{RefusedConnect, SpellsConnect};
ghost use Rattle.zk_messages.specs.Sent.{client_limit};
ghost use Rattle.zk_messages.specs.Requests.{RefusedRequest, SpellsRequest};
ghost use Rattle.zk_messages.specs.Sending.{AddsBytes};
ghost use Rattle.request_rewrite.specs.Laws.{IsWritable};
ghost use Rattle.request_queue.specs.Asking.{IsAsked};
ghost use Rattle.request_queue.specs.Weights.{limit, weight, weight_of};
ghost use Rattle.entry_session.specs.Stands.{Stand, weight_of as weight_for};
ghost use Rattle.entry_session.specs.Kept.{IsGoing, IsOfOne};
ghost use Rattle.entry_session.specs.Calls.{HearsClient};
ghost use Rattle.entry_session.specs.Frames.{CannotHandUp, HandsUp, IsFrameOf, IsLater, IsMalformed, IsRead, of_client};

use crate::ending::Ending;
use crate::progress::{Phase, Progress};
use jute_core::{Memory, NotRead};
use request_queue::{Pending, Queue};
use request_rewrite::{NotVeiled, veil_request};
use std::alloc::Global;
use zk_frame::write_frame;
use zk_messages::{Request, read_request, write_request};
use zk_records::{ConnectRequest, read_connect};

// The greatest weight of a queue, and what a request weighs besides its bytes.
const LIMIT: u64 = 67_108_864;

const OVERHEAD: u64 = 64;

impl From<NotVeiled> for Ending {
    ghost use Rattle.std.specs.Prelude.{◌≡◌};
    ghost use Rattle.entry_session.specs.Frames.{not_veiled};

    ghost from_gives = { λ fault e. e ≡ not_veiled fault };

    fn from(fault: NotVeiled) -> Ending {
        match fault {
            NotVeiled::Spent => Ending::IvSpent,
            NotVeiled::Memory => Ending::Memory,
        }
    }
}

// The ending at a frame of the client that was not read.
fn of_client(fault: NotRead) -> Ending
    ensures { result ≡ of_client fault }
{
    match fault {
        NotRead::Refused(refusal) => Ending::ClientMalformed(refusal),
        NotRead::Memory => Ending::Memory,
    }
}

// The body of the client's first frame, as a connect request.
fn connect_of(alloc: Global, body: &[u8]) -> Result<ConnectRequest, Ending>
    requires { length body.now ≤ client_limit }
    ensures read { IfOk result (λ asked. SpellsConnect asked body.now) }
    ensures refused { IfErr result (IsMalformed body.now RefusedConnect) }
{
    read_connect(alloc, body).map_err(of_client)
}

// The body of another frame of the client, as a request.
fn request_of(alloc: Global, body: &[u8]) -> Result<(i32, Request), Ending>
    requires { length body.now ≤ client_limit }
    ensures read { IfOk result (λ read. SpellsRequest read.0 read.1 body.now) }
    ensures refused { IfErr result (IsMalformed body.now RefusedRequest) }
{
    read_request(alloc, body).map_err(of_client)
}

impl Progress {
    /// Hears a frame of the client: hands up what goes to the store for it, behind `up`.
    ///
    /// # Errors
    /// The ending of the session at that frame; nothing is appended then.
    pub(crate) fn hear_client(&mut self, body: &[u8], up: &mut Vec<u8>) -> Result<(), Ending>
        requires { length body.now ≤ client_limit }
        ensures hears { (result ≡ Err Ending.Memory → ⊥) → (s : Stand) → IsGoing self.old s → s.ending ≡ None
            → HearsClient self.old self.new result s body.now up.old.items up.new.items }
        ensures wants { result ≡ Err Ending.Memory → up.new.items ≡ up.old.items }
        ensures same { IsOfOne self.old self.new }
    {
        match self.phase {
            Phase::Unasked => self.hear_connect(body, up),
            Phase::Asked { .. } | Phase::Connected => self.hear_request(body, up),
        }
    }

    // The connect request goes up as it was sent.
    fn hear_connect(&mut self, body: &[u8], up: &mut Vec<u8>) -> Result<(), Ending>
        requires short { length body.now ≤ client_limit }
        requires phase { self.old.phase ≡ Phase.Unasked }
        ensures hears { (result ≡ Err Ending.Memory → ⊥) → (s : Stand) → IsGoing self.old s → s.ending ≡ None
            → HearsClient self.old self.new result s body.now up.old.items up.new.items }
        ensures wants { result ≡ Err Ending.Memory → up.new.items ≡ up.old.items }
        ensures same { IsOfOne self.old self.new }
    {
        let asked = connect_of(self.alloc, body)?;
        write_frame(body, up)?;
        let older = asked.read_only.is_none();
        self.phase = Phase::Asked { older };
        Ok(())
    }

    // A request goes up veiled, and waits for its reply.
    fn hear_request(&mut self, body: &[u8], up: &mut Vec<u8>) -> Result<(), Ending>
        requires short { length body.now ≤ client_limit }
        requires phase { IsLater self.old.phase }
        ensures hears { (result ≡ Err Ending.Memory → ⊥) → (s : Stand) → IsGoing self.old s → s.ending ≡ None
            → HearsClient self.old self.new result s body.now up.old.items up.new.items }
        ensures wants { result ≡ Err Ending.Memory → up.new.items ≡ up.old.items }
        ensures same { IsOfOne self.old self.new }
    {
        let (xid, request) = request_of(self.alloc, body)?;
        let bytes = body.len() as u32;
        self.has_room(bytes)?;
        self.hand_up(xid, bytes, request, up)
    }

    // Hands up a request that was read from so many bytes, and for whose reply there is room to wait.
    fn hand_up(
        &mut self,
        xid: i32,
        bytes: u32,
        request: Request,
        up: &mut Vec<u8>,
    ) -> Result<(), Ending>
        requires read { IsRead xid request bytes }
        requires room { weight_of self.old.queue + weight_for bytes ≤ limit }
        ensures ok { OnOk result (HandsUp self.old self.new xid request bytes up.old.items up.new.items) }
        ensures err { IfErr result (λ e. CannotHandUp self.old request e × (up.new.items ≡ up.old.items)) }
        ensures same { IsOfOne self.old self.new }
    {
        let (veiled, pending) = veil_request(
            self.alloc,
            &self.keys,
            &mut self.ivs,
            xid,
            bytes,
            request,
        )?;
        push_both(self.alloc, &mut self.queue, pending, veiled, up)?;
        Ok(())
    }

    // Whether one more request of so many bytes can wait.
    fn has_room(&self, bytes: u32) -> Result<(), Ending>
        ensures ok { OnOk result (weight_of self.now.queue + weight_for bytes ≤ limit) }
        ensures err { IfErr result (λ e. (e ≡ Ending.QueueFull (weight_of self.now.queue + weight_for bytes))
            × (limit < weight_of self.now.queue + weight_for bytes)) }
    {
        let weight = self.weight() + u64::from(bytes) + OVERHEAD;
        if weight > LIMIT {
            return Err(Ending::QueueFull { weight });
        }
        Ok(())
    }
}

// The body of a veiled request.
fn body_of(alloc: Global, xid: i32, veiled: Request) -> Result<Vec<u8>, Memory>
    requires { IsWritable xid veiled }
    ensures { IfOk result (λ body. SpellsRequest xid veiled body.items) }
{
    let mut body = Vec::new(alloc);
    write_request(xid, &veiled, &mut body)?;
    Ok(body)
}

// Appends the frame of a veiled request.
fn push_request(alloc: Global, xid: i32, veiled: Request, up: &mut Vec<u8>) -> Result<(), Memory>
    requires writable { IsWritable xid veiled }
    requires fits { (out : List ℕ) → SpellsRequest xid veiled out → length out < 2 ^ 31 }
    ensures ok { OnOk result (AddsBytes up.old.items up.new.items (IsFrameOf xid veiled)) }
    ensures err { OnErr result (up.new.items ≡ up.old.items) }
{
    let body = body_of(alloc, xid, veiled)?;
    write_frame(body.as_slice(), up)?;
    Ok(())
}

// Appends the frame of a veiled request, and queues what waits for its reply: both or neither.
fn push_both(
    alloc: Global,
    queue: &mut Queue,
    pending: Pending,
    veiled: Request,
    up: &mut Vec<u8>,
) -> Result<(), Memory>
    requires asked { IsAsked pending.asked }
    requires room { weight_of queue.old + weight pending ≤ limit }
    requires writable { IsWritable pending.xid veiled }
    requires fits { (out : List ℕ) → SpellsRequest pending.xid veiled out → length out < 2 ^ 31 }
    ensures queued { OnOk result (queue.new ≡ queue.old ++ pending ∷ []) }
    ensures added { OnOk result (AddsBytes up.old.items up.new.items (IsFrameOf pending.xid veiled)) }
    ensures err { OnErr result ((queue.new ≡ queue.old) × (up.new.items ≡ up.old.items)) }
{
    let before = up.len();
    push_request(alloc, pending.xid, veiled, up)?;
    if queue.push(pending).is_err() {
        // There is room for it, so there was no memory.
        up.truncate(before);
        return Err(Memory);
    }
    Ok(())
}
