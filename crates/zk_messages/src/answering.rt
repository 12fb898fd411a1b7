//! Reading and writing replies and events.

ghost use Rattle.std.specs.Prelude.{◌≡◌, ◌<◌, ◌^◌, pos, negsuc, length, IfOk, IfErr, OnOk, OnErr};
ghost use Rattle.jute_core.specs.Jute.{Refused, int, long};
ghost use Rattle.jute_core.specs.Position.{Adds, Grows, Passes};
ghost use Rattle.jute_core.specs.Records.{ReadsOrMemory};
ghost use Rattle.zk_records.specs.Headers.{reply_header};
ghost use Rattle.zk_messages.specs.Forms.{RefusedFront, form_of_shape};
ghost use Rattle.zk_messages.specs.Reading.{Reaches, FailsAt, FailsBody};
ghost use Rattle.zk_messages.specs.Replies.{SpellsOutcome, SpellsReply, RefusedReply, IsOutcome, IsReply, err_of};
ghost use Rattle.zk_messages.specs.Replies.{event_record, event_fields, SpellsEvent, RefusedEvent, IsWrong, IsRight, IsWrongHeader, BeginsWithInt};
ghost use Rattle.zk_messages.specs.Sending.{AddsBytes, IsShortOutcome};
ghost use Rattle.zk_messages.specs.declared.reply.Outcome.TheVariants as outcomes;

use crate::multi::{put_results, read_results};
use crate::reply::{Event, Outcome, Reply, Shape};
use jute_core::{
    Cursor, Memory, NotRead, Reason, Refusal, put_bytes, put_int, put_texts, put_ustring,
    read_bytes, read_text, read_texts,
};
use std::alloc::Global;
use zk_records::{ReplyHeader, Stat, put_acls, read_acls};

/// The first int of a body, which is the xid of a reply and -1 in an event. Takes no memory. The
/// body has at most 4,294,967,295 bytes.
///
/// # Errors
/// `Short` at 0 where there are fewer than four bytes.
pub fn reply_xid(body: &[u8]) -> Result<i32, Refusal>
    requires { length body.now < 2 ^ 32 }
    ensures read { IfOk result (BeginsWithInt body.now) }
    ensures refused { IfErr result (λ refusal. Refused int 0 body.now refusal.place refusal.reason) }
{
    Cursor::new(body).int()
}

#[tactic(auto, using(jute_core::proofs::Glue::glue, crate::proofs::Replies::outcomes_read))]
fn read_content(alloc: Global, cursor: &mut Cursor<'_>) -> Result<Outcome, NotRead>
    ensures ok { IfOk result (λ outcome. Reaches cursor.old cursor.new (SpellsOutcome Shape.Content outcome)) }
    ensures done { IfOk result (λ outcome. err_of outcome ≡ pos 0) }
    ensures refused { IfErr result (FailsAt cursor.old (RefusedFront (form_of_shape Shape.Content))) }
{
    let content = read_bytes(alloc, cursor)?;
    let stat = Stat::read(cursor)?;
    Ok(Outcome::Content { content, stat })
}

#[tactic(auto, using(jute_core::proofs::Glue::glue, crate::proofs::Replies::outcomes_read))]
fn read_acls_of(alloc: Global, cursor: &mut Cursor<'_>) -> Result<Outcome, NotRead>
    ensures ok { IfOk result (λ outcome. Reaches cursor.old cursor.new (SpellsOutcome Shape.Acls outcome)) }
    ensures done { IfOk result (λ outcome. err_of outcome ≡ pos 0) }
    ensures refused { IfErr result (FailsAt cursor.old (RefusedFront (form_of_shape Shape.Acls))) }
{
    let acls = read_acls(alloc, cursor)?;
    let stat = Stat::read(cursor)?;
    Ok(Outcome::Acls { acls, stat })
}

#[tactic(auto, using(jute_core::proofs::Glue::glue, crate::proofs::Replies::outcomes_read))]
fn read_children2(alloc: Global, cursor: &mut Cursor<'_>) -> Result<Outcome, NotRead>
    ensures ok { IfOk result (λ outcome. Reaches cursor.old cursor.new (SpellsOutcome Shape.Children2 outcome)) }
    ensures done { IfOk result (λ outcome. err_of outcome ≡ pos 0) }
    ensures refused { IfErr result (FailsAt cursor.old (RefusedFront (form_of_shape Shape.Children2))) }
{
    let children = read_texts(alloc, cursor)?;
    let stat = Stat::read(cursor)?;
    Ok(Outcome::Children2 { children, stat })
}

#[tactic(auto, using(jute_core::proofs::Glue::glue, crate::proofs::Replies::outcomes_read))]
fn read_created2(alloc: Global, cursor: &mut Cursor<'_>) -> Result<Outcome, NotRead>
    ensures ok { IfOk result (λ outcome. Reaches cursor.old cursor.new (SpellsOutcome Shape.Created2 outcome)) }
    ensures done { IfOk result (λ outcome. err_of outcome ≡ pos 0) }
    ensures refused { IfErr result (FailsAt cursor.old (RefusedFront (form_of_shape Shape.Created2))) }
{
    let path = read_text(alloc, cursor)?;
    let stat = Stat::read(cursor)?;
    Ok(Outcome::Created2 { path, stat })
}

// The outcome of a request that is no error.
#[tactic(auto, using(jute_core::proofs::Glue::glue, crate::proofs::Replies::outcomes_read))]
fn read_outcome(alloc: Global, shape: Shape, cursor: &mut Cursor<'_>) -> Result<Outcome, NotRead>
    ensures ok { IfOk result (λ outcome. Reaches cursor.old cursor.new (SpellsOutcome shape outcome)) }
    ensures done { IfOk result (λ outcome. err_of outcome ≡ pos 0) }
    ensures refused { IfErr result (FailsAt cursor.old (RefusedFront (form_of_shape shape))) }
{
    match shape {
        Shape::Empty => Ok(Outcome::Empty),
        Shape::Path => Ok(Outcome::Path(read_text(alloc, cursor)?)),
        Shape::Stat => Ok(Outcome::Stat(Stat::read(cursor)?)),
        Shape::Content => read_content(alloc, cursor),
        Shape::Acls => read_acls_of(alloc, cursor),
        Shape::Children => Ok(Outcome::Children(read_texts(alloc, cursor)?)),
        Shape::Children2 => read_children2(alloc, cursor),
        Shape::Multi => Ok(Outcome::Multi(read_results(alloc, cursor)?)),
        Shape::Created2 => read_created2(alloc, cursor),
    }
}

// The reply that is an error, of which the header tells all.
fn error_of(header: ReplyHeader) -> Reply
    ensures { result ≡ record { xid = header.xid; zxid = header.zxid; outcome = outcomes.Error header.err } }
{
    Reply {
        xid: header.xid,
        zxid: header.zxid,
        outcome: Outcome::Error { code: header.err },
    }
}

/// Reads a whole body: the reply to a request whose replies without error have this shape. After an
/// error code nothing follows the header. Linear in the body, which has at most 4,294,967,295 bytes.
///
/// # Errors
/// The refusal of the first field that fails, or `Trailing` where bytes follow the last one. In the
/// results of a multi `BadType` at a header whose type is no operation, and `BadHeader` at a field
/// of one that is neither (type, 0, 0) nor (-1, 0, code) nor the end (-1, 1, -1), or at a code that
/// is not its header's.
#[tactic(auto, using(crate::proofs::Replies::replies_read))]
pub fn read_reply(alloc: Global, shape: Shape, body: &[u8]) -> Result<Reply, NotRead>
    requires { length body.now < 2 ^ 32 }
    ensures read { IfOk result (λ reply. SpellsReply shape reply body.now) }
    ensures refused { IfErr result (FailsBody body.now (RefusedReply shape)) }
{
    let mut cursor = Cursor::new(body);
    let header = ReplyHeader::read(&mut cursor)?;
    if header.err != 0 {
        cursor.end()?;
        return Ok(error_of(header));
    }
    let outcome = read_outcome(alloc, shape, &mut cursor)?;
    cursor.end()?;
    Ok(Reply {
        xid: header.xid,
        zxid: header.zxid,
        outcome,
    })
}

// Without memory a part of it may be there.
#[tactic(auto, using(jute_core::proofs::Glue::glue, crate::proofs::Replies::outcomes_added))]
fn put_outcome(outcome: &Outcome, into: &mut Vec<u8>) -> Result<(), Memory>
    requires { IsShortOutcome outcome.now }
    ensures ok { OnOk result (AddsBytes into.old.items into.new.items (IsOutcome outcome.now)) }
    ensures err { OnErr result (Grows into.old.items into.new.items) }
{
    match outcome {
        Outcome::Error { .. } => Ok(()),
        Outcome::Empty => Ok(()),
        Outcome::Path(path) => put_ustring(into, path.as_str()),
        Outcome::Stat(stat) => stat.write(into),
        Outcome::Content { content, stat } => {
            put_bytes(into, content)?;
            stat.write(into)
        }
        Outcome::Acls { acls, stat } => {
            put_acls(into, acls)?;
            stat.write(into)
        }
        Outcome::Children(children) => put_texts(into, children),
        Outcome::Children2 { children, stat } => {
            put_texts(into, children)?;
            stat.write(into)
        }
        Outcome::Multi(results) => put_results(results.as_slice(), into),
        Outcome::Created2 { path, stat } => {
            put_ustring(into, path.as_str())?;
            stat.write(into)
        }
    }
}

// The code in the header.
fn err_of(outcome: &Outcome) -> i32
    ensures { result ≡ err_of outcome.now }
{
    match outcome {
        Outcome::Error { code } => *code,
        _ => 0,
    }
}

fn header_of(reply: &Reply) -> ReplyHeader
    ensures { result ≡ record { xid = reply.now.xid; zxid = reply.now.zxid; err = err_of reply.now.outcome } }
{
    ReplyHeader {
        xid: reply.xid,
        zxid: reply.zxid,
        err: err_of(&reply.outcome),
    }
}

// Without memory a part of it may be there.
#[tactic(auto, using(jute_core::proofs::Glue::glue, crate::proofs::Replies::reply_added))]
fn put_reply(reply: &Reply, into: &mut Vec<u8>) -> Result<(), Memory>
    requires { IsShortOutcome reply.now.outcome }
    ensures ok { OnOk result (AddsBytes into.old.items into.new.items (IsReply reply.now)) }
    ensures err { OnErr result (Grows into.old.items into.new.items) }
{
    header_of(reply).write(into)?;
    put_outcome(&reply.outcome, into)?;
    Ok(())
}

/// Appends the one spelling of a reply, in the shape that its outcome has. Linear in it. The code of
/// an error is not 0, and lengths and counts fit an i32.
pub fn write_reply(reply: &Reply, into: &mut Vec<u8>) -> Result<(), Memory>
    requires { IsShortOutcome reply.now.outcome }
    ensures ok { OnOk result (AddsBytes into.old.items into.new.items (IsReply reply.now)) }
    ensures err { OnErr result (into.new.items ≡ into.old.items) }
{
    let before = into.len();
    let put = put_reply(reply, into);
    if put.is_err() {
        into.truncate(before);
    }
    put
}

// An int that has to be this one.
fn expect_int(cursor: &mut Cursor<'_>, wanted: i32) -> Result<(), NotRead>
    ensures ok { OnOk result (Passes cursor.old cursor.new int wanted) }
    ensures refused { IfErr result (FailsAt cursor.old (IsWrong int wanted IsRight)) }
{
    let place = cursor.place();
    let found = cursor.int()?;
    if found == wanted {
        Ok(())
    } else {
        Err(bad_header(place))
    }
}

// A long that has to be this one.
fn expect_long(cursor: &mut Cursor<'_>, wanted: i64) -> Result<(), NotRead>
    ensures ok { OnOk result (Passes cursor.old cursor.new long wanted) }
    ensures refused { IfErr result (FailsAt cursor.old (IsWrong long wanted IsRight)) }
{
    let place = cursor.place();
    let found = cursor.long()?;
    if found == wanted {
        Ok(())
    } else {
        Err(bad_header(place))
    }
}

fn bad_header(place: u32) -> NotRead
    ensures { result ≡ NotRead.Refused (record { place = place; reason = Reason.BadHeader }) }
{
    NotRead::Refused(Refusal {
        place,
        reason: Reason::BadHeader,
    })
}

// The header (-1, -1, 0), of which each field is judged as it is read.
#[tactic(auto, using(jute_core::proofs::Glue::glue, crate::proofs::Events::header_wrong))]
fn read_event_header(cursor: &mut Cursor<'_>) -> Result<(), NotRead>
    ensures ok { OnOk result (Passes cursor.old cursor.new reply_header (negsuc 0, (negsuc 0, pos 0))) }
    ensures refused { IfErr result (FailsAt cursor.old IsWrongHeader) }
{
    expect_int(cursor, -1)?;
    expect_long(cursor, -1)?;
    expect_int(cursor, 0)?;
    Ok(())
}

#[tactic(auto, using(jute_core::proofs::Glue::glue))]
fn read_event_fields(alloc: Global, cursor: &mut Cursor<'_>) -> Result<Event, NotRead>
    ensures { ReadsOrMemory cursor.old cursor.new event_record event_fields result }
{
    let mut ahead = cursor.copy();
    let kind = ahead.int()?;
    let state = ahead.int()?;
    let path = read_text(alloc, &mut ahead)?;
    *cursor = ahead;
    Ok(Event { kind, state, path })
}

/// Reads a whole body, which has at most 4,294,967,295 bytes. Kind and state may be any.
///
/// # Errors
/// `BadHeader` at the first field of the header that is not as in (-1, -1, 0), also where the fields
/// behind it are lacking; else the refusal of the first field that fails, or `Trailing`.
#[tactic(auto, using(crate::proofs::Events::event_wrong))]
pub fn read_event(alloc: Global, body: &[u8]) -> Result<Event, NotRead>
    requires { length body.now < 2 ^ 32 }
    ensures read { IfOk result (λ event. SpellsEvent event body.now) }
    ensures refused { IfErr result (FailsBody body.now RefusedEvent) }
{
    let mut cursor = Cursor::new(body);
    read_event_header(&mut cursor)?;
    let event = read_event_fields(alloc, &mut cursor)?;
    cursor.end()?;
    Ok(event)
}

// The header and the fields. Without memory a part of it may be there.
#[tactic(auto, using(jute_core::proofs::Glue::glue, crate::proofs::Replies::event_added))]
fn put_event(event: &Event, into: &mut Vec<u8>) -> Result<(), Memory>
    requires { length event.now.path < 2 ^ 31 }
    ensures ok { OnOk result (AddsBytes into.old.items into.new.items (SpellsEvent event.now)) }
    ensures err { OnErr result (Grows into.old.items into.new.items) }
{
    let header = ReplyHeader {
        xid: -1,
        zxid: -1,
        err: 0,
    };
    header.write(into)?;
    put_event_fields(event, into)
}

#[tactic(auto, using(jute_core::proofs::Glue::glue))]
fn put_event_fields(event: &Event, into: &mut Vec<u8>) -> Result<(), Memory>
    requires { length event.now.path < 2 ^ 31 }
    ensures ok { OnOk result (Adds into.old.items into.new.items event_record (event_fields event.now)) }
    ensures err { OnErr result (Grows into.old.items into.new.items) }
{
    put_int(into, event.kind)?;
    put_int(into, event.state)?;
    put_ustring(into, event.path.as_str())?;
    Ok(())
}

/// Appends the one spelling of an event, whose path has a length that fits an i32.
pub fn write_event(event: &Event, into: &mut Vec<u8>) -> Result<(), Memory>
    requires { length event.now.path < 2 ^ 31 }
    ensures ok { OnOk result (AddsBytes into.old.items into.new.items (SpellsEvent event.now)) }
    ensures err { OnErr result (into.new.items ≡ into.old.items) }
{
    let before = into.len();
    let put = put_event(event, into);
    if put.is_err() {
        into.truncate(before);
    }
    put
}
