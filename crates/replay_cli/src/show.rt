//! What `show` prints: the frames of a client's bytes.

ghost use Rattle.std.specs.Prelude.{◌≡◌, ◌≤◌, ◌<ℤ◌, ◌≤ℤ◌, ◌⊎◌, ◌++◌, ℕ, pos, List, [], length, Bool, IfOk, IfErr, OnOk, string_bytes};
ghost use Rattle.std.specs.Option.{option_copied};
ghost use Rattle.jute_core.specs.Frames.{frame};
ghost use Rattle.jute_core.specs.Records.{IfRefused};
ghost use Rattle.jute_core.specs.Jute.{IsInt};
ghost use Rattle.zk_messages.specs.declared.request.Item.TheVariants.{Requests};
ghost use Rattle.replay_cli.specs.declared.show.Ending.TheVariants.{Malformed};
ghost use Rattle.zk_messages.specs.Items.{IsItem};
ghost use Rattle.zk_messages.specs.Sent.{client_limit};
ghost use Rattle.replay_cli.specs.Show.{IsEnding, RefusedItem, kind_name, request_name, request_path, item_text, frame_text, ending_text, IsShown};
ghost use Rattle.replay_cli.specs.Showing.{IsNext, AddsLine};

use crate::printed::{bytes_text, push_field, push_line, push_number, reason_name};
use jute_core::{Memory, NotRead, Refusal};
use std::alloc::Global;
use zk_messages::{Item, Kind, Request, read_request};
use zk_records::read_connect;

/// The most bytes of a client's frame.
const CLIENT_LIMIT: i32 = 4_194_303;

/// A frame that is a message.
#[derive(Debug, Drop)]
pub struct Frame {
    /// The bytes of its body.
    pub size: usize,
    /// What it spells.
    pub item: Item,
}

/// What ends the frames.
#[derive(Clone, Copy, Debug, Drop, PartialEq, Eq)]
pub enum Ending {
    /// Nothing is left.
    Finished,
    /// So many bytes are left, which are no whole frame.
    CutShort(usize),
    /// A frame is no message.
    Malformed(Refusal),
    /// A frame is announced of a length that is negative or above the limit.
    TooLong(i32),
}

// What stands in front of some bytes.
#[derive(Drop)]
enum Next<'a> {
    // A frame, and what follows it.
    Whole(Frame, &'a [u8]),
    End(Ending),
}

/// Returns the length that four bytes name, or the int where it is none within the limit.
pub(crate) fn length_of(prefix: &[u8], limit: i32) -> Result<usize, i32>
    requires { length prefix.now ≡ 4 }
    ensures within { IfOk result (λ size. IsInt (pos size) prefix.now × (pos size ≤ℤ limit)) }
    ensures beyond { IfErr result (λ named. IsInt named prefix.now
        × ((named <ℤ pos 0) ⊎ (limit <ℤ named))) }
{
    let named = i32::from_be_bytes([prefix[0], prefix[1], prefix[2], prefix[3]]);
    if named < 0 || named > limit {
        return Err(named);
    }
    Ok(named as usize)
}

// The body of the frame in front, and what follows it, or why there is none within the limit.
fn cut_off(bytes: &[u8]) -> Result<(&[u8], &[u8]), Ending>
    ensures whole { IfOk result (λ parts. (length parts.0.now ≤ client_limit)
        × (bytes.now ≡ frame parts.0.now ++ parts.1.now)) }
    ensures none { IfErr result (λ ending. (first : Bool) → IsEnding first ending bytes.now) }
{
    if bytes.is_empty() {
        return Err(Ending::Finished);
    }
    if bytes.len() < 4 {
        return Err(Ending::CutShort(bytes.len()));
    }
    let (prefix, rest) = bytes.split_at(4);
    let size = match length_of(prefix, CLIENT_LIMIT) {
        Ok(size) => size,
        Err(named) => return Err(Ending::TooLong(named)),
    };
    if size > rest.len() {
        return Err(Ending::CutShort(bytes.len()));
    }
    Ok(rest.split_at(size))
}

// The item of a frame.
fn read_item(alloc: Global, is_first: bool, body: &[u8]) -> Result<Item, NotRead>
    requires { length body.now ≤ client_limit }
    ensures read { IfOk result (λ item. IsItem is_first item body.now) }
    ensures refused { IfErr result (λ fault. IfRefused fault (λ refusal.
        RefusedItem is_first body.now refusal.place refusal.reason)) }
{
    if is_first {
        return Ok(Item::Asks(read_connect(alloc, body)?));
    }
    let (xid, request) = read_request(alloc, body)?;
    Ok(Item::Requests { xid, request })
}

// What stands in front.
fn next_in(alloc: Global, is_first: bool, bytes: &[u8]) -> Result<Next<'_>, Memory>
    ensures { IfOk result (λ next. IsNext is_first bytes.now next) }
{
    let (body, more) = match cut_off(bytes) {
        Ok(parts) => parts,
        Err(ending) => return Ok(Next::End(ending)),
    };
    match read_item(alloc, is_first, body) {
        Ok(item) => {
            let size = body.len();
            Ok(Next::Whole(Frame { size, item }, more))
        }
        Err(NotRead::Refused(refusal)) => Ok(Next::End(Ending::Malformed(refusal))),
        Err(NotRead::Memory) => Err(Memory),
    }
}

#[tactic(auto, unfolding(crate::specs::Show::kind_name))]
fn kind_name(kind: Kind) -> &'static str
    ensures { result.now ≡ kind_name kind }
{
    match kind {
        Kind::Create => "create",
        Kind::Delete => "delete",
        Kind::Exists => "exists",
        Kind::GetContent => "getData",
        Kind::SetContent => "setData",
        Kind::GetAcl => "getACL",
        Kind::SetAcl => "setACL",
        Kind::GetChildren => "getChildren",
        Kind::Sync => "sync",
        Kind::Ping => "ping",
        Kind::GetChildren2 => "getChildren2",
        Kind::Multi => "multi",
        Kind::Create2 => "create2",
        Kind::Auth => "auth",
        Kind::SetWatches => "setWatches",
        Kind::Close => "closeSession",
    }
}

#[tactic(auto, unfolding(crate::specs::Show::unknown_name))]
fn request_name(request: &Request) -> &'static str
    ensures { result.now ≡ request_name request.now }
{
    match request.kind() {
        Some(kind) => kind_name(kind),
        None => "unknown",
    }
}

// The request's own path, empty where it has none.
fn request_path(request: &Request) -> &str
    ensures { result.now ≡ request_path request.now }
{
    match request {
        Request::Create(asked) => asked.path.as_str(),
        Request::Create2(asked) => asked.path.as_str(),
        Request::Delete(asked) => asked.path.as_str(),
        Request::Exists(asked) => asked.path.as_str(),
        Request::GetContent(asked) => asked.path.as_str(),
        Request::SetContent(asked) => asked.path.as_str(),
        Request::GetAcl(asked) => asked.path.as_str(),
        Request::SetAcl(asked) => asked.path.as_str(),
        Request::GetChildren(asked) => asked.path.as_str(),
        Request::GetChildren2(asked) => asked.path.as_str(),
        Request::Sync(asked) => asked.path.as_str(),
        Request::Ping => "",
        Request::Multi(_) => "",
        Request::SetWatches(_) => "",
        Request::Auth(_) => "",
        Request::Close => "",
        Request::Unknown { .. } => "",
    }
}

// Appends what a line says of a request.
fn push_request(alloc: Global, into: &mut String, xid: i32, request: &Request) -> Result<(), Memory>
    ensures { OnOk result (string_bytes into.new ≡ string_bytes into.old
        ++ item_text (Requests xid request.now)) }
{
    let path = bytes_text(alloc, request_path(request).as_bytes())?;
    push_field(into, " ", request_name(request))?;
    push_number(alloc, into, " xid ", xid as i64)?;
    push_line(into, " path ", path.as_str())?;
    Ok(())
}

// Appends what a line says of an item.
fn push_item(alloc: Global, into: &mut String, item: &Item) -> Result<(), Memory>
    ensures { OnOk result (string_bytes into.new ≡ string_bytes into.old ++ item_text item.now) }
{
    match item {
        Item::Asks(_) => push_line(into, " connect", "")?,
        Item::Requests { xid, request } => push_request(alloc, into, *xid, request)?,
    }
    Ok(())
}

// Appends the line of a frame, of which the prefix has this place.
fn push_frame(
    alloc: Global,
    into: &mut String,
    number: usize,
    place: usize,
    frame: &Frame,
) -> Result<(), Memory>
    ensures { OnOk result (string_bytes into.new ≡ string_bytes into.old
        ++ frame_text number place frame.now) }
{
    let number = number.to_string(alloc)?;
    let place = place.to_string(alloc)?;
    let size = frame.size.to_string(alloc)?;
    into.push_str(number.as_str())?;
    push_field(into, " at ", place.as_str())?;
    push_field(into, " bytes ", size.as_str())?;
    push_item(alloc, into, &frame.item)?;
    Ok(())
}

fn push_refusal(alloc: Global, into: &mut String, refusal: Refusal) -> Result<(), Memory>
    ensures { OnOk result (string_bytes into.new ≡ string_bytes into.old
        ++ ending_text (Malformed refusal)) }
{
    let place = refusal.place.to_string(alloc)?;
    push_field(into, "malformed ", place.as_str())?;
    push_line(into, " ", reason_name(refusal.reason))?;
    Ok(())
}

// Appends the last line.
fn push_ending(alloc: Global, into: &mut String, ending: Ending) -> Result<(), Memory>
    ensures { OnOk result (string_bytes into.new ≡ string_bytes into.old ++ ending_text ending) }
{
    match ending {
        Ending::Finished => push_line(into, "end", "")?,
        Ending::CutShort(count) => {
            let count = count.to_string(alloc)?;
            push_line(into, "rest ", count.as_str())?;
        }
        Ending::Malformed(refusal) => push_refusal(alloc, into, refusal)?,
        Ending::TooLong(size) => {
            let size = size.to_string(alloc)?;
            push_line(into, "too-long ", size.as_str())?;
        }
    }
    Ok(())
}

// Appends the line of the frame in front, and answers what follows it; or the last line.
fn push_next<'a>(
    alloc: Global,
    into: &mut String,
    number: usize,
    place: usize,
    bytes: &'a [u8],
) -> Result<Option<&'a [u8]>, Memory>
    ensures { IfOk result (λ more. AddsLine number place bytes.now (string_bytes into.old)
        (string_bytes into.new) (option_copied more)) }
{
    match next_in(alloc, number == 0, bytes)? {
        Next::Whole(frame, more) => {
            push_frame(alloc, into, number, place, &frame)?;
            Ok(Some(more))
        }
        Next::End(ending) => {
            push_ending(alloc, into, ending)?;
            Ok(None)
        }
    }
}

/// The text that is printed of a client's bytes. Linear in them: each frame is read once, where it stands.
pub fn show_frames(alloc: Global, bytes: &[u8]) -> Result<String, Memory>
    ensures { IfOk result (λ text. IsShown bytes.now (string_bytes text)) }
{
    let mut text = String::new(alloc);
    let mut left = bytes;
    let mut number = 0;
    while let Some(more) = push_next(alloc, &mut text, number, bytes.len() - left.len(), left)? {
        left = more;
        number += 1;
    }
    Ok(text)
}

/// Bytes are shown in one way.
pub fn one_show()
    ensures { (bytes a b : List ℕ) → IsShown bytes a → IsShown bytes b → a ≡ b }
{}
