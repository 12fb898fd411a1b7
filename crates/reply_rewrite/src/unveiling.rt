//! What a client is told in place of what a store answered.

ghost use Rattle.std.specs.Prelude.{◌≡◌, None, Some, IfOk, IfErr};
ghost use Rattle.zk_messages.specs.Replies.{HasShape};
ghost use Rattle.request_queue.specs.Asking.{IsAsked};
ghost use Rattle.reply_rewrite.specs.Admits.{IsPlain, IsCauseOf, AdmitsOutcome, Admits, IsRefused, IsFailure};
ghost use Rattle.reply_rewrite.specs.Caused.{IsCausedBy};
ghost use Rattle.reply_rewrite.specs.Shapes.{shape_for};
ghost use Rattle.request_queue.specs.Short.{HasShortPath};
ghost use Rattle.reply_rewrite.specs.Short.{HasShortParts};

use crate::finding::{Cause, NotPlain};
use crate::rows::{
    unveil_create, unveil_create2, unveil_get_acl, unveil_get_children, unveil_get_children2,
    unveil_get_content, unveil_multi, unveil_stat_of, unveil_sync,
};
use jute_core::Memory;
use payload_seal::EntryKeys;
use request_queue::Asked;
use std::alloc::Global;
use zk_messages::{Outcome, Reply};

/// The code of an answer that is none to the request: marshalling error.
const MARSHALLING_ERROR: i32 = -5;

// The plain form of an answer that is no error, to a request that was not refused.
#[tactic(auto, unfolding(crate::specs::Admits::IsPlain, request_queue::specs::Short::HasShortPath, crate::specs::Short::HasShortParts))]
fn unveil_done(
    alloc: Global,
    keys: &EntryKeys,
    asked: &Asked,
    stored: Outcome,
) -> Result<Outcome, NotPlain>
    requires shape { HasShape (shape_for asked.now) stored }
    requires allowed { IsRefused asked.now → ⊥ }
    requires done { IsFailure stored → ⊥ }
    requires path { HasShortPath asked.now }
    requires short { HasShortParts stored }
    ensures plain { IfOk result (IsPlain keys.now asked.now stored) }
    ensures cause { IfErr result (IsCausedBy (IsCauseOf keys.now asked.now stored)) }
{
    match (asked, stored) {
        (Asked::Empty | Asked::Close, Outcome::Empty) => Ok(Outcome::Empty),
        (Asked::Create { path, sequential }, Outcome::Path(text)) => {
            unveil_create(alloc, keys, path, *sequential, &text)
        }
        (Asked::Create2 { path, sequential }, Outcome::Created2 { path: text, stat }) => {
            unveil_create2(alloc, keys, path, *sequential, &text, &stat)
        }
        (Asked::StatOf { path }, Outcome::Stat(stat)) => unveil_stat_of(keys, path, &stat),
        (Asked::Content { path }, Outcome::Content { content, stat }) => {
            unveil_get_content(alloc, keys, path, &content, &stat)
        }
        (Asked::AclOf { path }, Outcome::Acls { acls, stat }) => {
            unveil_get_acl(keys, path, acls, &stat)
        }
        (Asked::Children { path }, Outcome::Children(list)) => {
            unveil_get_children(alloc, keys, path, &list)
        }
        (Asked::Children2 { path }, Outcome::Children2 { children, stat }) => {
            unveil_get_children2(alloc, keys, path, &children, &stat)
        }
        (Asked::SyncOf { path }, Outcome::Path(text)) => unveil_sync(alloc, keys, path, &text),
        (Asked::Multi(ops), Outcome::Multi(results)) => unveil_multi(alloc, keys, ops, &results),
        // No other outcome has the shape.
        _ => unreachable!(),
    }
}

// What a client is told, and what was wrong with the answer.
#[tactic(auto, using(crate::proofs::Told::told))]
fn unveil_outcome(
    alloc: Global,
    keys: &EntryKeys,
    asked: &Asked,
    stored: Outcome,
) -> Result<(Outcome, Option<Cause>), Memory>
    requires shape { HasShape (shape_for asked.now) stored }
    requires path { HasShortPath asked.now }
    requires short { HasShortParts stored }
    ensures { IfOk result (λ answer. AdmitsOutcome keys.now asked.now stored answer.0 answer.1) }
{
    if let Asked::Refused { code } = asked {
        return Ok((Outcome::Error { code: *code }, None));
    }
    if let Outcome::Error { code } = stored {
        return Ok((Outcome::Error { code }, None));
    }
    match unveil_done(alloc, keys, asked, stored) {
        Ok(plain) => Ok((plain, None)),
        Err(NotPlain::Caused(cause)) => {
            let code = MARSHALLING_ERROR;
            Ok((Outcome::Error { code }, Some(cause)))
        }
        Err(NotPlain::Memory) => Err(Memory),
    }
}

/// The reply that a client is told in place of a store's, and what was wrong with that one.
///
/// The reply answers the request for which `asked` was kept, and has its shape or is an error. A reply with a cause becomes
/// an error of code -5 with the same xid and zxid; an error of the store is passed on; the answer to a refused request
/// becomes the code of the refusal. Each text and buffer has at most 134,217,728 bytes, and each list fewer than
/// 4,294,967,296 items. Linear in the reply, but for the time n log n to order n children, and for what opening a path costs.
///
/// # Errors
/// Want of memory alone.
pub fn unveil_reply(
    alloc: Global,
    keys: &EntryKeys,
    asked: &Asked,
    reply: Reply,
) -> Result<(Reply, Option<Cause>), Memory>
    requires shape { HasShape (shape_for asked.now) reply.outcome }
    requires asked { IsAsked asked.now }
    requires path { HasShortPath asked.now }
    requires short { HasShortParts reply.outcome }
    ensures admitted { IfOk result (λ answer. Admits keys.now asked.now reply answer.0 answer.1) }
{
    let Reply { xid, zxid, outcome } = reply;
    let (outcome, cause) = unveil_outcome(alloc, keys, asked, outcome)?;
    let reply = Reply { xid, zxid, outcome };
    Ok((reply, cause))
}
