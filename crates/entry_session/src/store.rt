//! A frame of the store.

ghost use Rattle.std.specs.Prelude.{◌≡◌, ◌≢◌, ◌≤◌, ◌<◌, ◌^◌, ◌++◌, ℕ, List, negsuc, length, Err, IfOk, IfErr, OnOk, OnErr, None};
ghost use Rattle.jute_core.specs.Frames.{FitsFrame};
ghost use Rattle.zk_messages.specs.Replies.{SpellsReply, RefusedReply, IsReply, BeginsWithInt};
ghost use Rattle.zk_messages.specs.Sending.{IsShortOutcome};
ghost use Rattle.reply_rewrite.specs.Shapes.{shape_for};
ghost use Rattle.entry_session.specs.Stands.{Stand};
ghost use Rattle.entry_session.specs.StoreTurns.{ending_by, found};
ghost use Rattle.entry_session.specs.Runs.{store_limit};
ghost use Rattle.entry_session.specs.Kept.{IsGoing, IsOfOne};
ghost use Rattle.entry_session.specs.Calls.{HearsStore};
ghost use Rattle.entry_session.specs.StoreSteps.{ending_unread, ending_unheard, IsRefusedBy, EndsUnasked, EndsReply, IsAnswer, AddsFrame, listed, HearsIn};
ghost use Rattle.reply_rewrite.specs.declared.finding.Finding.{Finding};

use crate::ending::Ending;
use crate::progress::{Phase, Progress};
use jute_core::{Memory, NotRead};
use reply_rewrite::{Cause, Finding, shape_of, unveil_reply};
use request_queue::Asked;
use std::alloc::Global;
use watch_rewrite::{NotEvent, unveil_event};
use zk_frame::write_frame;
use zk_messages::{Reply, read_event, read_reply, reply_xid, write_event, write_reply};
use zk_records::read_connected;

/// The first int of an event.
const EVENT: i32 = -1;

// What a client is told for a reply.
#[derive(Drop)]
struct Answer {
    told: Reply,
    // what was wrong with the store's reply
    cause: Option<Cause>,
    // the ending that comes after it
    ending: Option<Ending>,
}

impl Progress {
    /// Hears a frame of the store: hands down what the client is told for it, behind `down`, and what was wrong with it, behind
    /// `findings`.
    ///
    /// # Errors
    /// The ending of the session at that frame. Nothing is appended then, but for the reply to closeSession.
    pub(crate) fn hear_store(
        &mut self,
        body: &[u8],
        down: &mut Vec<u8>,
        findings: &mut Vec<Finding>,
    ) -> Result<(), Ending>
        requires { length body.now ≤ store_limit }
        ensures hears { (result ≡ Err Ending.Memory → ⊥) → (s : Stand) → IsGoing self.old s → s.ending ≡ None
            → HearsStore self.old self.new result s body.now down.old.items down.new.items findings.old.items findings.new.items }
        ensures wants { result ≡ Err Ending.Memory → (down.new.items ≡ down.old.items) × (findings.new.items ≡ findings.old.items) }
        ensures same { IsOfOne self.old self.new }
    {
        match self.phase {
            Phase::Unasked => Err(unasked(body)),
            Phase::Asked { older } => self.hear_connected(older, body, down),
            Phase::Connected => self.hear_later(body, down, findings),
        }
    }

    // The answer to the connect request goes down as it came.
    fn hear_connected(&mut self, older: bool, body: &[u8], down: &mut Vec<u8>) -> Result<(), Ending>
        requires { length body.now ≤ store_limit }
        ensures hears { (fs : List Finding) → HearsIn (Phase.Asked older) self.old self.new result body.now down.old.items down.new.items fs fs }
        ensures wants { result ≡ Err Ending.Memory → down.new.items ≡ down.old.items }
        ensures same { IsOfOne self.old self.new }
    {
        read_connected(self.alloc, older, body).map_err(store_fault)?;
        write_frame(body, down)?;
        self.phase = Phase::Connected;
        Ok(())
    }

    // A frame after that: an event, or the reply to the oldest open request.
    #[tactic(auto, using(crate::proofs::StoreSide::later_short))]
    fn hear_later(
        &mut self,
        body: &[u8],
        down: &mut Vec<u8>,
        findings: &mut Vec<Finding>,
    ) -> Result<(), Ending>
        requires { length body.now ≤ store_limit }
        ensures hears { HearsIn Phase.Connected self.old self.new result body.now down.old.items down.new.items findings.old.items findings.new.items }
        ensures wants { result ≡ Err Ending.Memory → (down.new.items ≡ down.old.items) × (findings.new.items ≡ findings.old.items) }
        ensures same { IsOfOne self.old self.new }
    {
        let xid = match reply_xid(body) {
            Ok(xid) => xid,
            Err(refusal) => return Err(Ending::StoreMalformed(refusal)),
        };
        if xid == EVENT {
            return self.hear_event(body, down);
        }
        self.hear_reply(xid, body, down, findings)
    }

    // An event goes down with its path opened.
    fn hear_event(&self, body: &[u8], down: &mut Vec<u8>) -> Result<(), Ending>
        requires short { length body.now ≤ store_limit }
        requires begins { BeginsWithInt body.now (negsuc 0) }
        ensures hears { (fs : List Finding) → HearsIn Phase.Connected self.now self.now result body.now down.old.items down.new.items fs fs }
        ensures wants { result ≡ Err Ending.Memory → down.new.items ≡ down.old.items }
    {
        let event = read_event(self.alloc, body).map_err(store_fault)?;
        let plain = unveil_event(self.alloc, &self.keys.names, &event)?;
        let mut out = Vec::new(self.alloc);
        write_event(&plain, &mut out)?;
        write_frame(out.as_slice(), down)?;
        Ok(())
    }

    // A reply goes down with all of it opened, or as an error with a finding.
    fn hear_reply(
        &mut self,
        xid: i32,
        body: &[u8],
        down: &mut Vec<u8>,
        findings: &mut Vec<Finding>,
    ) -> Result<(), Ending>
        requires short { length body.now ≤ store_limit }
        requires begins { BeginsWithInt body.now xid }
        requires reply { xid ≢ negsuc 0 }
        ensures hears { HearsIn Phase.Connected self.old self.new result body.now down.old.items down.new.items findings.old.items findings.new.items }
        ensures wants { result ≡ Err Ending.Memory → (down.new.items ≡ down.old.items) × (findings.new.items ≡ findings.old.items) }
        ensures same { IsOfOne self.old self.new }
    {
        let answer = self.answer_to(xid, body)?;
        let finding = finding_of(self.connection, self.replies, xid, answer.cause);
        tell(self.alloc, &answer.told, finding, down, findings)?;
        self.queue.pop();
        self.replies = self.replies.saturating_add(1);
        match answer.ending {
            None => Ok(()),
            Some(ending) => Err(ending),
        }
    }

    // What a client is told for the reply to the oldest open request, which has this xid.
    fn answer_to(&self, xid: i32, body: &[u8]) -> Result<Answer, Ending>
        requires { length body.now ≤ store_limit }
        ensures answer { IfOk result (IsAnswer self.now.keys self.now.queue xid body.now) }
        ensures ends { IfErr result (EndsReply self.now.queue xid body.now) }
    {
        let Some(pending) = self.queue.front() else {
            return Err(Ending::NothingOpen { xid });
        };
        if pending.xid != xid {
            return Err(Ending::WrongXid {
                expected: pending.xid,
                got: xid,
            });
        }
        let stored = read_reply(self.alloc, shape_of(&pending.asked), body).map_err(store_fault)?;
        let (told, cause) = unveil_reply(self.alloc, &self.keys, &pending.asked, stored)?;
        let ending = ending_by(&pending.asked);
        Ok(Answer {
            told,
            cause,
            ending,
        })
    }
}

// What was wrong with the reply with this number, if anything.
fn finding_of(connection: u32, reply: u64, xid: i32, cause: Option<Cause>) -> Option<Finding>
    ensures { listed result ≡ found connection reply xid cause }
{
    match cause {
        None => None,
        Some(cause) => Some(Finding {
            connection,
            reply,
            xid,
            cause,
        }),
    }
}

// The reply to closeSession ends a session.
#[tactic(auto, unfolding(crate::specs::StoreTurns::ending_by))]
fn ending_by(asked: &Asked) -> Option<Ending>
    ensures { result ≡ ending_by asked.now }
{
    match asked {
        Asked::Close => Some(Ending::Closed),
        _ => None,
    }
}

// The ending by a frame before the connect request was handed up.
#[tactic(auto, using(crate::proofs::StoreSide::cut_off))]
fn unasked(body: &[u8]) -> Ending
    requires { length body.now ≤ store_limit }
    ensures { EndsUnasked body.now result }
{
    match reply_xid(body) {
        Ok(xid) => Ending::NothingOpen { xid },
        Err(refusal) => Ending::StoreMalformed(refusal),
    }
}

// Appends a reply, and a finding if there is one: both, or neither.
fn tell(
    alloc: Global,
    told: &Reply,
    finding: Option<Finding>,
    down: &mut Vec<u8>,
    findings: &mut Vec<Finding>,
) -> Result<(), Memory>
    requires short { IsShortOutcome told.now.outcome }
    requires fits { (body : List ℕ) → IsReply told.now body → FitsFrame body }
    ensures told { OnOk result (AddsFrame down.old.items down.new.items (IsReply told.now)) }
    ensures found { OnOk result (findings.new.items ≡ findings.old.items ++ listed finding) }
    ensures err { OnErr result ((down.new.items ≡ down.old.items) × (findings.new.items ≡ findings.old.items)) }
{
    let before = down.len();
    push_reply(alloc, told, down)?;
    let Some(finding) = finding else {
        return Ok(());
    };
    if findings.push(finding).is_err() {
        down.truncate(before);
        return Err(Memory);
    }
    Ok(())
}

// Appends the frame of a reply.
fn push_reply(alloc: Global, told: &Reply, down: &mut Vec<u8>) -> Result<(), Memory>
    requires short { IsShortOutcome told.now.outcome }
    requires fits { (body : List ℕ) → IsReply told.now body → FitsFrame body }
    ensures ok { OnOk result (AddsFrame down.old.items down.new.items (IsReply told.now)) }
    ensures err { OnErr result (down.new.items ≡ down.old.items) }
{
    let mut out = Vec::new(alloc);
    write_reply(told, &mut out)?;
    write_frame(out.as_slice(), down)?;
    Ok(())
}

// The ending by a frame of the store that was not read.
fn store_fault(fault: NotRead) -> Ending
    ensures { result ≡ ending_unread fault }
{
    match fault {
        NotRead::Refused(refusal) => Ending::StoreMalformed(refusal),
        NotRead::Memory => Ending::Memory,
    }
}

// The ending by an event that was not opened.
impl From<NotEvent> for Ending {
    ghost from_gives = { λ fault e. e ≡ ending_unheard fault };

    fn from(fault: NotEvent) -> Ending {
        match fault {
            NotEvent::Bad(flaw) => Ending::BadEvent(flaw),
            NotEvent::Memory => Ending::Memory,
        }
    }
}
