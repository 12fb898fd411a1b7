//! Reading and writing requests.

ghost use Rattle.std.specs.Prelude.{◌≡◌, ◌≢◌, ◌<◌, ◌^◌, ◌++◌, ◌↔◌, length, Some, IsTrue, IfOk, IfErr, OnOk, OnErr};
ghost use Rattle.jute_core.specs.Position.{Grows};
ghost use Rattle.zk_messages.specs.Kinds.{kind_of};
ghost use Rattle.zk_messages.specs.Forms.{SpellsForm, RefusedForm, RefusedFront, form_of, form_of_any};
ghost use Rattle.zk_messages.specs.Reading.{Reaches, FailsAt, FailsBody};
ghost use Rattle.zk_messages.specs.Requests.{IsKind, MayHave, SpellsRequest, RefusedRequest, number_of, fields_of};
ghost use Rattle.zk_messages.specs.Sending.{AddsBytes, IsShortRequest};
ghost use Rattle.zk_messages.specs.declared.kind.Kind.{Kind};
ghost use Rattle.zk_messages.specs.declared.request.Request.TheVariants as requests;

use crate::kind::Kind;
use crate::multi::{put_ops, read_ops};
use crate::request::Request;
use jute_core::{Bytes, Cursor, Memory, NotRead, Reason, Refusal};
use std::alloc::Global;
use zk_records::{
    CreateRequest, DeleteRequest, PathOnly, PathWatch, RequestHeader, SetAclRequest,
    SetContentRequest, SetWatches,
};

/// The xid of events, which no request has.
const EVENT_XID: i32 = -1;

/// The xid of pings, which no other request has.
const PING_XID: i32 = -2;

// Whether a request of this type may have this xid.
fn may_have(header: RequestHeader) -> bool
    ensures { IsTrue result ↔ MayHave header.xid header.kind }
{
    header.xid != EVENT_XID && (header.xid != PING_XID || header.kind == Kind::Ping.number())
}

// What follows the header, but for the body of auth.
#[tactic(auto, using(crate::proofs::Requests::fields_are_read))]
fn read_fields(alloc: Global, kind: Kind, cursor: &mut Cursor<'_>) -> Result<Request, NotRead>
    requires { kind ≢ Kind.Auth }
    ensures kind { IfOk result (λ r. kind_of r ≡ Some kind) }
    ensures ok { IfOk result (λ r. Reaches cursor.old cursor.new (SpellsForm (form_of_any (kind_of r)) (fields_of r))) }
    ensures refused { IfErr result (FailsAt cursor.old (RefusedFront (form_of kind))) }
{
    match kind {
        Kind::Create => Ok(Request::Create(CreateRequest::read(alloc, cursor)?)),
        Kind::Delete => Ok(Request::Delete(DeleteRequest::read(alloc, cursor)?)),
        Kind::Exists => Ok(Request::Exists(PathWatch::read(alloc, cursor)?)),
        Kind::GetContent => Ok(Request::GetContent(PathWatch::read(alloc, cursor)?)),
        Kind::SetContent => Ok(Request::SetContent(SetContentRequest::read(alloc, cursor)?)),
        Kind::GetAcl => Ok(Request::GetAcl(PathOnly::read(alloc, cursor)?)),
        Kind::SetAcl => Ok(Request::SetAcl(SetAclRequest::read(alloc, cursor)?)),
        Kind::GetChildren => Ok(Request::GetChildren(PathWatch::read(alloc, cursor)?)),
        Kind::Sync => Ok(Request::Sync(PathOnly::read(alloc, cursor)?)),
        Kind::Ping => Ok(Request::Ping),
        Kind::GetChildren2 => Ok(Request::GetChildren2(PathWatch::read(alloc, cursor)?)),
        Kind::Multi => Ok(Request::Multi(read_ops(alloc, cursor)?)),
        Kind::Create2 => Ok(Request::Create2(CreateRequest::read(alloc, cursor)?)),
        Kind::Auth => unreachable!(),
        Kind::SetWatches => Ok(Request::SetWatches(SetWatches::read(alloc, cursor)?)),
        Kind::Close => Ok(Request::Close),
    }
}

// All that follows the header.
#[tactic(auto, using(crate::proofs::Requests::bodies_read))]
fn read_body(alloc: Global, kind: Kind, cursor: &mut Cursor<'_>) -> Result<Request, NotRead>
    ensures kind { IfOk result (λ r. kind_of r ≡ Some kind) }
    ensures ok { IfOk result (λ r. SpellsForm (form_of_any (kind_of r)) (fields_of r) cursor.old.left) }
    ensures refused { IfErr result (FailsAt cursor.old (RefusedForm (form_of kind))) }
{
    if kind == Kind::Auth {
        return Ok(Request::Auth(Bytes::copy_of(alloc, cursor.rest())?));
    }
    let request = read_fields(alloc, kind, cursor)?;
    cursor.end()?;
    Ok(request)
}

// A request whose type is none that is known.
fn unknown_of(header: RequestHeader, body: Bytes) -> (i32, Request)
    ensures { result ≡ (header.xid, requests.Unknown header.kind body) }
{
    let kind = header.kind;
    (header.xid, Request::Unknown { kind, body })
}

/// Reads a whole body: the xid, and the request. A type that is not served is `Unknown`, with the
/// rest of the body; the body of auth is not read either. Linear in the body, which has at most
/// 4,294,967,295 bytes.
///
/// # Errors
/// The refusal of the first field that fails, or `Trailing` where bytes follow the last one.
/// `BadXid` at 0 exactly where the xid is -1, or is -2 and the request is no ping. In a multi
/// `BadType` at a header whose type is no operation, and `BadHeader` at a field of one that is
/// neither (type, 0, -1) nor the end (-1, 1, -1).
#[tactic(auto, using(crate::proofs::Requests::requests_read))]
pub fn read_request(alloc: Global, body: &[u8]) -> Result<(i32, Request), NotRead>
    requires { length body.now < 2 ^ 32 }
    ensures read { IfOk result (λ read. SpellsRequest read.0 read.1 body.now) }
    ensures refused { IfErr result (FailsBody body.now RefusedRequest) }
{
    let mut cursor = Cursor::new(body);
    let header = RequestHeader::read(&mut cursor)?;
    if !may_have(header) {
        return Err(NotRead::Refused(Refusal {
            place: 0,
            reason: Reason::BadXid,
        }));
    }
    let Some(kind) = Kind::of(header.kind) else {
        let body = Bytes::copy_of(alloc, cursor.rest())?;
        return Ok(unknown_of(header, body));
    };
    let request = read_body(alloc, kind, &mut cursor)?;
    Ok((header.xid, request))
}

// The number of a request's type.
fn number_of(request: &Request) -> i32
    ensures { result ≡ number_of request.now }
{
    match request {
        Request::Unknown { kind, .. } => *kind,
        _ => match request.kind() {
            Some(kind) => kind.number(),
            None => 0,
        },
    }
}

// What follows the header. Without memory a part of it may be there.
#[tactic(auto, using(jute_core::proofs::Glue::glue))]
fn put_fields(request: &Request, into: &mut Vec<u8>) -> Result<(), Memory>
    requires { IsShortRequest request.now }
    ensures ok { OnOk result (AddsBytes into.old.items into.new.items
        (SpellsForm (form_of_any (kind_of request.now)) (fields_of request.now))) }
    ensures err { OnErr result (Grows into.old.items into.new.items) }
{
    match request {
        Request::Create(request) => request.write(into),
        Request::Delete(request) => request.write(into),
        Request::Exists(request) => request.write(into),
        Request::GetContent(request) => request.write(into),
        Request::SetContent(request) => request.write(into),
        Request::GetAcl(request) => request.write(into),
        Request::SetAcl(request) => request.write(into),
        Request::GetChildren(request) => request.write(into),
        Request::GetChildren2(request) => request.write(into),
        Request::Sync(request) => request.write(into),
        Request::Ping => Ok(()),
        Request::Multi(ops) => put_ops(ops.as_slice(), into),
        Request::SetWatches(request) => request.write(into),
        Request::Auth(body) => put_unread(body, into),
        Request::Close => Ok(()),
        Request::Create2(request) => request.write(into),
        Request::Unknown { body, .. } => put_unread(body, into),
    }
}

// A body that is not read.
fn put_unread(body: &Bytes, into: &mut Vec<u8>) -> Result<(), Memory>
    ensures ok { OnOk result (into.new.items ≡ into.old.items ++ body.now) }
    ensures err { OnErr result (into.new.items ≡ into.old.items) }
{
    into.extend_from_slice(body.as_slice())?;
    Ok(())
}

// Without memory a part of it may be there.
#[tactic(auto, using(jute_core::proofs::Glue::glue, crate::proofs::Requests::request_added))]
fn put_request(xid: i32, request: &Request, into: &mut Vec<u8>) -> Result<(), Memory>
    requires known { IsKind (number_of request.now) (kind_of request.now) }
    requires may { MayHave xid (number_of request.now) }
    requires short { IsShortRequest request.now }
    ensures ok { OnOk result (AddsBytes into.old.items into.new.items (SpellsRequest xid request.now)) }
    ensures err { OnErr result (Grows into.old.items into.new.items) }
{
    let header = RequestHeader {
        xid,
        kind: number_of(request),
    };
    header.write(into)?;
    put_fields(request, into)
}

/// Appends the one spelling of the request with this xid. Linear in it. The number of an `Unknown`
/// is none of the known types, the xid is none that `BadXid` refuses, and lengths and counts fit an
/// i32.
pub fn write_request(xid: i32, request: &Request, into: &mut Vec<u8>) -> Result<(), Memory>
    requires known { IsKind (number_of request.now) (kind_of request.now) }
    requires may { MayHave xid (number_of request.now) }
    requires short { IsShortRequest request.now }
    ensures ok { OnOk result (AddsBytes into.old.items into.new.items (SpellsRequest xid request.now)) }
    ensures err { OnErr result (into.new.items ≡ into.old.items) }
{
    let before = into.len();
    let put = put_request(xid, request, into);
    if put.is_err() {
        into.truncate(before);
    }
    put
}
