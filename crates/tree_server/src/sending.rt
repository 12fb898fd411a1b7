//! Whether a message can be sent, and its frame.

ghost use Rattle.std.specs.Prelude.{◌≡◌, ◌↔◌, ◌+◌, ◌<◌, ◌≤◌, ◌^◌, ◌++◌, ℕ, List, length, take, drop, IfSome, IsTrue, All, OnOk, OnErr};
ghost use Rattle.jute_core.specs.Frames.{frame};
ghost use Rattle.jute_core.specs.Jute.{int_bytes};
ghost use Rattle.jute_core.specs.Lists.{AreShort};
ghost use Rattle.jute_core.specs.Position.{Grows};
ghost use Rattle.zk_records.specs.Acls.{IsShortAcl, AreShortAcls};
ghost use Rattle.zk_messages.specs.Sending.{IsShortOutcome, IsShortResult};
ghost use Rattle.store_side.specs.Fitting.{CanBeSent};
ghost use Rattle.store_side.specs.Messages.{SpellsMessage};
ghost use Rattle.store_side.specs.Sending.{IsSendable, AddsFrame};

use jute_core::{Bytes, Memory, Text, Texts, put_int};
use store_side::{message_length, write_message};
use tree_state::Message;
use zk_messages::{OpResult, Outcome};
use zk_records::{Acl, Acls};

// Whether a length or a count is an int.
fn is_int(size: usize) -> bool
    ensures { IsTrue result ↔ (size < 2 ^ 31) }
{
    size <= i32::MAX as usize
}

fn is_short_buffer(content: &Option<Bytes>) -> bool
    ensures { IsTrue result ↔ IfSome content.now (λ b. length b < 2 ^ 31) }
{
    match content {
        Some(bytes) => is_int(bytes.len()),
        None => true,
    }
}

fn are_short_texts(texts: &[Text]) -> bool
    ensures { IsTrue result ↔ All (λ t. length t < 2 ^ 31) texts.now }
{
    for text in texts {
        if !is_int(text.len()) {
            return false;
        }
    }
    true
}

fn are_short_names(names: &Option<Texts>) -> bool
    ensures { IsTrue result ↔ IfSome names.now AreShort }
{
    match names {
        Some(texts) => is_int(texts.len()) && are_short_texts(texts.as_slice()),
        None => true,
    }
}

fn is_short_acl(acl: &Acl) -> bool
    ensures { IsTrue result ↔ IsShortAcl acl.now }
{
    is_int(acl.scheme.len()) && is_int(acl.id.len())
}

fn are_short_entries(list: &[Acl]) -> bool
    ensures { IsTrue result ↔ All IsShortAcl list.now }
{
    for acl in list {
        if !is_short_acl(acl) {
            return false;
        }
    }
    true
}

fn are_short_acls(list: &Option<Acls>) -> bool
    ensures { IsTrue result ↔ IfSome list.now AreShortAcls }
{
    match list {
        Some(acls) => is_int(acls.len()) && are_short_entries(acls.as_slice()),
        None => true,
    }
}

fn is_short_result(value: &OpResult) -> bool
    ensures { IsTrue result ↔ IsShortResult value.now }
{
    match value {
        OpResult::Created(path) => is_int(path.len()),
        OpResult::Created2 { path, .. } => is_int(path.len()),
        _ => true,
    }
}

fn are_short_results(results: &[OpResult]) -> bool
    ensures { IsTrue result ↔ All IsShortResult results.now }
{
    for value in results {
        if !is_short_result(value) {
            return false;
        }
    }
    true
}

fn is_short_outcome(outcome: &Outcome) -> bool
    ensures { IsTrue result ↔ IsShortOutcome outcome.now }
{
    match outcome {
        Outcome::Error { code } => *code != 0,
        Outcome::Path(path) => is_int(path.len()),
        Outcome::Content { content, .. } => is_short_buffer(content),
        Outcome::Acls { acls, .. } => are_short_acls(acls),
        Outcome::Children(names) => are_short_names(names),
        Outcome::Children2 { children, .. } => are_short_names(children),
        Outcome::Multi(results) => are_short_results(results.as_slice()),
        Outcome::Created2 { path, .. } => is_int(path.len()),
        Outcome::Empty | Outcome::Stat(_) => true,
    }
}

/// Whether a message can be written: its lengths and counts are ints, and the code of an error is not 0. Linear in the number of its
/// texts.
pub fn is_sendable(message: &Message) -> bool
    ensures yes { IsTrue result → IsSendable message.now }
    ensures sendable { IsSendable message.now → IsTrue result }
{
    match message {
        Message::Connected(response) => is_short_buffer(&response.password),
        Message::Reply(reply) => is_short_outcome(&reply.outcome),
        Message::Event(event) => is_int(event.path.len()),
    }
}

// Puts an int in the place of four bytes.
fn set_int(into: &mut Vec<u8>, at: usize, value: i32)
    requires { at + 4 ≤ length into.old.items }
    ensures { into.new.items ≡ take at into.old.items ++ int_bytes value ++ drop (at + 4) into.old.items }
{
    into[at..at + 4].copy_from_slice(&value.to_be_bytes());
}

// The frame, whose length is put in place when its body is there. Without memory a part of it may be there.
fn put_frame(message: &Message, into: &mut Vec<u8>) -> Result<(), Memory>
    requires { IsSendable message.now }
    ensures ok { OnOk result (AddsFrame into.old.items into.new.items message.now) }
    ensures err { OnErr result (Grows into.old.items into.new.items) }
{
    let start = into.len();
    put_int(into, 0)?;
    let body = into.len();
    write_message(message, into)?;
    let Ok(length) = i32::try_from(into.len() - body) else {
        return Err(Memory);
    };
    set_int(into, start, length);
    Ok(())
}

/// Appends the frame of a message. The body is written where it stays, and not copied.
///
/// # Errors
/// `Memory`, also for a message that cannot be written or whose body has more than 2,147,483,647 bytes, of which a tree sends none.
/// Then nothing is appended.
pub fn append_frame(message: &Message, into: &mut Vec<u8>) -> Result<(), Memory>
    ensures ok { OnOk result (AddsFrame into.old.items into.new.items message.now) }
    ensures err { OnErr result (into.new.items ≡ into.old.items) }
{
    if !is_sendable(message) {
        return Err(Memory);
    }
    let before = into.len();
    let put = put_frame(message, into);
    if put.is_err() {
        into.truncate(before);
    }
    put
}

/// How many bytes the frame of a message has, and 0 for one that cannot be written.
pub fn frame_length(message: &Message) -> usize
    ensures { CanBeSent message.now → (body : List ℕ) × SpellsMessage message.now body × (result ≡ length (frame body)) }
{
    if !is_sendable(message) {
        return 0;
    }
    message_length(message).saturating_add(4)
}
