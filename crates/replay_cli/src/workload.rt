//! The workload of `stress`: a script's events, which the words of a generator choose.

ghost use Rattle.std.specs.Prelude.{◌≡◌, ◌<◌, ◌≤◌, ◌+◌, ◌*◌, ◌^◌, ◌++◌, ◌∷◌, [], ℕ, List, length, pos, Some, None, IfOk, OnOk, replicate, negsuc, true, get_or};
ghost use Rattle.std.specs.Int.{w64, to_be_bytes};
ghost use Rattle.jute_core.specs.Frames.{frame};
ghost use Rattle.zk_messages.specs.Kinds.{kind_of};
ghost use Rattle.zk_messages.specs.Requests.{IsKind, MayHave, SpellsRequest, number_of};
ghost use Rattle.zk_messages.specs.Refuses.{open_acl};
ghost use Rattle.zk_messages.specs.Sending.{IsShortRequest};
ghost use Rattle.zk_messages.specs.declared.request.Request.{Request as PlainRequest};
ghost use Rattle.zk_messages.specs.declared.request.Request.TheVariants as requests;
ghost use Rattle.replay_cli.specs.declared.script.Event.{Event as PlainEvent};
ghost use Rattle.replay_cli.specs.declared.script.Event.TheVariants.{Open};
ghost use Rattle.replay_cli.specs.Workload.{Asks, AreSteps, DrawsThree, FitsFrame, IsStart, IsStep, IsWorkload, creation, exchange, greetings, parent_creation, word_of, xid_at};

use crate::script::{Event, Events};
use jute_core::{Bytes, Memory, Text};
use rand_chacha::ChaCha20Rng;
use rand_core::SeedableRng;
use rand_core::utils::NextWord;
use std::alloc::Global;
use zk_frame::write_frame;
use zk_messages::{Op, Ops, Request, write_request};
use zk_records::{
    Acl, Acls, CheckRequest, CreateRequest, DeleteRequest, PathWatch, SetContentRequest,
};

// The node below which the others are made.
const PARENT: &str = "/w";

// The xid of every ping.
const PING_XID: i32 = -2;

// As many bytes as a script can name.
const EVERYTHING: u32 = u32::MAX;

// The frame of a connect request that saw nothing, and asks for 30,000 ms and no session.
const GREETING: [u8; 49] = [
    0, 0, 0, 45, 0, 0, 0, 0, 0, 0, 0, 0, 0, 0, 0, 0, 0, 0, 117, 48, 0, 0, 0, 0, 0, 0, 0, 0, 0, 0,
    0, 16, 0, 0, 0, 0, 0, 0, 0, 0, 0, 0, 0, 0, 0, 0, 0, 0, 0,
];

// The list of the one ACL that lets everyone do everything.
fn open_acls(alloc: Global) -> Result<Acls, Memory>
    ensures { IfOk result (λ acls. acls ≡ open_acl ∷ []) }
{
    let mut items = Vec::new(alloc);
    items.push(Acl {
        perms: 31,
        scheme: Text::copy_of(alloc, "world")?,
        id: Text::copy_of(alloc, "anyone")?,
    })?;
    Ok(Acls::of(items))
}

fn creation(alloc: Global, path: &str, content: &[u8], flags: i32) -> Result<CreateRequest, Memory>
    ensures { IfOk result (λ r. r ≡ creation path.now content.now flags) }
{
    Ok(CreateRequest {
        path: Text::copy_of(alloc, path)?,
        content: Some(Bytes::copy_of(alloc, content)?),
        acls: Some(open_acls(alloc)?),
        flags,
    })
}

fn deletion(alloc: Global, path: &str) -> Result<DeleteRequest, Memory>
    ensures { IfOk result (λ r. r ≡ record { path = path.now; version = negsuc 0 }) }
{
    Ok(DeleteRequest {
        path: Text::copy_of(alloc, path)?,
        version: -1,
    })
}

fn change(alloc: Global, path: &str, content: &[u8]) -> Result<SetContentRequest, Memory>
    ensures { IfOk result (λ r. r ≡ record { path = path.now; content = Some content.now; version = negsuc 0 }) }
{
    Ok(SetContentRequest {
        path: Text::copy_of(alloc, path)?,
        content: Some(Bytes::copy_of(alloc, content)?),
        version: -1,
    })
}

fn look(alloc: Global, path: &str, watch: bool) -> Result<PathWatch, Memory>
    ensures { IfOk result (λ r. r ≡ record { path = path.now; watch = watch }) }
{
    Ok(PathWatch {
        path: Text::copy_of(alloc, path)?,
        watch,
    })
}

// A check and a change of one node.
#[tactic(auto, using(crate::proofs::WorkloadLemmas::asked))]
fn checked_change(alloc: Global, path: &str, content: &[u8]) -> Result<Ops, Memory>
    ensures { IfOk result (λ list. Asks path.now content.now 7 (requests.Multi list)) }
{
    let mut list = Vec::new(alloc);
    list.push(Op::Check(CheckRequest {
        path: Text::copy_of(alloc, path)?,
        version: -1,
    }))?;
    list.push(Op::SetContent(change(alloc, path, content)?))?;
    Ok(Ops::of(list))
}

// The request of a kind.
#[tactic(auto, using(crate::proofs::WorkloadLemmas::asked))]
fn asked(alloc: Global, kind: u32, path: &str, content: &[u8]) -> Result<Request, Memory>
    requires { kind < 10 }
    ensures { IfOk result (λ r. Asks path.now content.now kind r) }
{
    match kind {
        0 => Ok(Request::Create(creation(alloc, path, content, 0)?)),
        1 => Ok(Request::Delete(deletion(alloc, path)?)),
        2 => Ok(Request::SetContent(change(alloc, path, content)?)),
        3 => Ok(Request::GetContent(look(alloc, path, true)?)),
        4 => Ok(Request::Exists(look(alloc, path, true)?)),
        5 => Ok(Request::GetChildren(look(alloc, PARENT, true)?)),
        6 => {
            let mut stem = String::from_str(alloc, path)?;
            stem.push_str("/s-")?;
            Ok(Request::Create(creation(alloc, stem.as_str(), content, 2)?))
        }
        7 => Ok(Request::Multi(checked_change(alloc, path, content)?)),
        8 => Ok(Request::GetChildren2(look(alloc, PARENT, false)?)),
        _ => Ok(Request::Ping),
    }
}

// The frame of a request.
fn framed(alloc: Global, xid: i32, request: &Request) -> Result<Bytes, Memory>
    requires known { IsKind (number_of request.now) (kind_of request.now) }
    requires may { MayHave xid (number_of request.now) }
    requires short { IsShortRequest request.now }
    requires fits { FitsFrame xid request.now }
    ensures { IfOk result (λ bytes. (body : List ℕ) × SpellsRequest xid request.now body × (bytes ≡ frame body)) }
{
    let mut body = Vec::new(alloc);
    write_request(xid, request, &mut body)?;
    let mut bytes = Vec::new(alloc);
    write_frame(body.as_slice(), &mut bytes)?;
    Ok(Bytes::of(bytes))
}

// The xid of the request of a kind at a step.
fn xid_at(kind: u32, step: u32) -> i32
    requires { step < 100000 }
    ensures { result ≡ xid_at kind step }
{
    if kind == 9 { PING_XID } else { step as i32 + 2 }
}

// The frame of the request of a kind at a step.
fn frame_at(alloc: Global, step: u32, kind: u32, path: &str) -> Result<Bytes, Memory>
    requires kinds { kind < 10 }
    requires few { step < 100000 }
    requires short { length path.now ≤ 100 }
    ensures { IfOk result (λ bytes. (request : PlainRequest) × Asks path.now (to_be_bytes w64 step) kind request
        × (body : List ℕ) × SpellsRequest (xid_at kind step) request body × (bytes ≡ frame body)) }
{
    let content = u64::from(step).to_be_bytes();
    let request = asked(alloc, kind, path, &content)?;
    let bytes = framed(alloc, xid_at(kind, step), &request)?;
    Ok(bytes)
}

// Appends the events of a step at which a client sends these bytes, and all go up and come down.
fn push_exchange(
    events: &mut Vec<Event>,
    step: u32,
    connection: u32,
    bytes: Bytes,
) -> Result<(), Memory>
    ensures { OnOk result (events.new.items ≡ events.old.items ++ exchange step connection bytes) }
{
    events.push(Event::Time { now: step as i64 })?;
    events.push(Event::Send { connection, bytes })?;
    events.push(Event::Up {
        connection,
        first: EVERYTHING,
        second: EVERYTHING,
    })?;
    events.push(Event::Down {
        connection,
        limit: EVERYTHING,
    })?;
    Ok(())
}

// Appends the events of a step, over so many sessions, which these words choose.
fn push_step(
    alloc: Global,
    events: &mut Vec<Event>,
    sessions: u32,
    step: u32,
    words: [u32; 3],
) -> Result<(), Memory>
    requires some { 0 < sessions }
    requires fits { sessions ≤ 64 }
    requires few { step < 100000 }
    ensures { OnOk result ((more : List PlainEvent)
        × IsStep sessions step (get_or words 0 0) (get_or words 1 0) (get_or words 2 0) more × (events.new.items ≡ events.old.items ++ more)) }
{
    let connection = 1 + words[0] % sessions;
    let digit = (words[2] % 8).to_string(alloc)?;
    let mut path = String::from_str(alloc, "/w/p")?;
    path.push_str(digit.as_str())?;
    let bytes = frame_at(alloc, step, words[1] % 10, path.as_str())?;
    push_exchange(events, step, connection, bytes)?;
    Ok(())
}

// The seed of a number: 8 big-endian bytes of it, and zeros.
fn seed_bytes(seed: u64) -> [u8; 32]
    ensures { result ≡ to_be_bytes w64 seed ++ replicate 24 0 }
{
    let mut bytes = [0; 32];
    bytes[..8].copy_from_slice(&seed.to_be_bytes());
    bytes
}

// Draws the next three words.
fn three_words(generator: &mut ChaCha20Rng) -> [u32; 3]
    requires { generator.old.word_pos < 2 ^ 60 }
    ensures { DrawsThree generator.old generator.new result }
{
    [
        generator.next_word(),
        generator.next_word(),
        generator.next_word(),
    ]
}

// Appends the events of so many steps.
fn push_steps(
    alloc: Global,
    events: &mut Vec<Event>,
    seed: u64,
    sessions: u32,
    steps: u32,
) -> Result<(), Memory>
    requires some { 0 < sessions }
    requires fits { sessions ≤ 64 }
    requires few { steps ≤ 100000 }
    ensures { OnOk result ((more : List PlainEvent) × AreSteps (word_of seed) sessions steps more × (events.new.items ≡ events.old.items ++ more)) }
{
    let mut generator = ChaCha20Rng::from_seed(seed_bytes(seed));
    let mut step = 0;
    while step < steps {
        let words = three_words(&mut generator);
        push_step(alloc, events, sessions, step, words)?;
        step += 1;
    }
    Ok(())
}

// Appends an opening of so many connections.
fn push_opens(events: &mut Vec<Event>, sessions: u32) -> Result<(), Memory>
    ensures { OnOk result (events.new.items ≡ events.old.items ++ replicate sessions Open) }
{
    for _ in 0..sessions {
        events.push(Event::Open)?;
    }
    Ok(())
}

// Appends the connect requests of so many clients.
fn push_greetings(alloc: Global, events: &mut Vec<Event>, sessions: u32) -> Result<(), Memory>
    ensures { OnOk result (events.new.items ≡ events.old.items ++ greetings sessions) }
{
    let mut connection = 0;
    while connection < sessions {
        connection += 1;
        let bytes = Bytes::copy_of(alloc, &GREETING)?;
        events.push(Event::Send { connection, bytes })?;
    }
    Ok(())
}

// The request that makes the parent.
fn parent_creation(alloc: Global) -> Result<Request, Memory>
    ensures { IfOk result (λ r. r ≡ parent_creation) }
{
    Ok(Request::Create(CreateRequest {
        path: Text::copy_of(alloc, PARENT)?,
        content: None,
        acls: Some(open_acls(alloc)?),
        flags: 0,
    }))
}

// The frame of the request that makes the parent.
fn parent_frame(alloc: Global) -> Result<Bytes, Memory>
    ensures { IfOk result (λ bytes. (body : List ℕ) × SpellsRequest (pos 1) parent_creation body × (bytes ≡ frame body)) }
{
    let request = parent_creation(alloc)?;
    let bytes = framed(alloc, 1, &request)?;
    Ok(bytes)
}

// Appends what stands before the steps.
fn push_start(alloc: Global, events: &mut Vec<Event>, sessions: u32) -> Result<(), Memory>
    ensures { OnOk result ((more : List PlainEvent) × IsStart sessions more × (events.new.items ≡ events.old.items ++ more)) }
{
    push_opens(events, sessions)?;
    push_greetings(alloc, events, sessions)?;
    let bytes = parent_frame(alloc)?;
    events.push(Event::Send {
        connection: 1,
        bytes,
    })?;
    events.push(Event::Drain)?;
    Ok(())
}

/// The events of a workload of so many sessions and steps; linear in both.
pub fn workload(alloc: Global, seed: u64, sessions: u32, steps: u32) -> Result<Events, Memory>
    requires some { 0 < sessions }
    requires fits { sessions ≤ 64 }
    requires few { steps ≤ 100000 }
    ensures { IfOk result (λ events. IsWorkload (word_of seed) sessions steps events) }
{
    let mut events = Vec::new(alloc);
    push_start(alloc, &mut events, sessions)?;
    push_steps(alloc, &mut events, seed, sessions, steps)?;
    events.push(Event::Drain)?;
    Ok(Events::of(events))
}
