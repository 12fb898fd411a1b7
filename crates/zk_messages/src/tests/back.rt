//! Messages read from a body, and what writing them appends.

ghost use Rattle.std.specs.Prelude.{◌<◌, ◌^◌, length};

use crate::{
    Event, Reply, Request, Shape, read_event, read_reply, read_request, refusal_of, write_event,
    write_reply, write_request,
};
use jute_core::NotRead;
use std::alloc::Global;

#[tactic(auto, using(crate::proofs::ReadIsShort::read_is_short))]
pub(super) fn request_back(alloc: Global, body: &[u8]) -> Result<(i32, Request, Vec<u8>), NotRead>
    requires { length body.now < 2 ^ 32 }
{
    let (xid, request) = read_request(alloc, body)?;
    let mut into = Vec::new(alloc);
    write_request(xid, &request, &mut into)?;
    Ok((xid, request, into))
}

#[tactic(auto, using(crate::proofs::ReadIsShort::read_is_short))]
pub(super) fn reply_back(
    alloc: Global,
    shape: Shape,
    body: &[u8],
) -> Result<(Reply, Vec<u8>), NotRead>
    requires { length body.now < 2 ^ 32 }
{
    let reply = read_reply(alloc, shape, body)?;
    let mut into = Vec::new(alloc);
    write_reply(&reply, &mut into)?;
    Ok((reply, into))
}

#[tactic(auto, using(crate::proofs::ReadIsShort::read_is_short))]
pub(super) fn event_back(alloc: Global, body: &[u8]) -> Result<(Event, Vec<u8>), NotRead>
    requires { length body.now < 2 ^ 32 }
{
    let event = read_event(alloc, body)?;
    let mut into = Vec::new(alloc);
    write_event(&event, &mut into)?;
    Ok((event, into))
}

#[tactic(auto, using(crate::proofs::ReadIsShort::read_is_short, crate::proofs::ShortPaths::short_paths))]
pub(super) fn refusal_back(alloc: Global, body: &[u8]) -> Result<Option<i32>, NotRead>
    requires { length body.now < 2 ^ 32 }
{
    let (_, request) = read_request(alloc, body)?;
    Ok(refusal_of(&request))
}
