//! The plain form of an answer to each kind of request.

ghost use Rattle.std.specs.Prelude.{◌≡◌, ◌↔◌, ◌<◌, ◌^◌, length, All, IfOk, IfErr, IfSome, IsTrue};
ghost use Rattle.zk_messages.specs.Refuses.{IsOpen, open_acl};
ghost use Rattle.reply_rewrite.specs.Admits.{IsPlain, IsCauseOf};
ghost use Rattle.reply_rewrite.specs.Caused.{IsCausedBy};
ghost use Rattle.request_queue.specs.Short.{IsShortPath};
ghost use Rattle.zk_messages.specs.Short.{IsShort};
ghost use Rattle.reply_rewrite.specs.Short.{AreShortNames, IsShortResult};

use crate::children::unveil_children;
use crate::content::{Node, unveil_content};
use crate::finding::{Cause, NotPlain};
use crate::multi::unveil_results;
use crate::names::{unveil_created, unveil_synced};
use crate::stat::unveil_stat;
use jute_core::{Bytes, Text, Texts};
use payload_seal::EntryKeys;
use request_queue::{Asked, AskedOps};
use std::alloc::Global;
use zk_messages::{Outcome, Results};
use zk_path::Path;
use zk_records::{Acl, Acls, Stat};

/// The plain path of a node that was made.
#[tactic(auto, unfolding(crate::specs::Admits::IsPlain, crate::specs::Admits::IsCauseOf))]
pub(crate) fn unveil_create(
    alloc: Global,
    keys: &EntryKeys,
    path: &Path,
    sequential: bool,
    text: &Text,
) -> Result<Outcome, NotPlain>
    requires { IsShort text.now }
    ensures plain { IfOk result (IsPlain keys.now (Asked.Create path.now sequential) (Outcome.Path text.now)) }
    ensures cause { IfErr result (IsCausedBy (IsCauseOf keys.now (Asked.Create path.now sequential) (Outcome.Path text.now))) }
{
    match unveil_created(alloc, &keys.names, path, sequential, text)? {
        Some(plain) => Ok(Outcome::Path(plain)),
        None => Err(NotPlain::Caused(Cause::Created)),
    }
}

/// The plain path of a node that was made, and its Stat.
#[tactic(auto, using(crate::proofs::Answering::answers), unfolding(crate::specs::Admits::IsPlain, crate::specs::Admits::IsCauseOf))]
pub(crate) fn unveil_create2(
    alloc: Global,
    keys: &EntryKeys,
    path: &Path,
    sequential: bool,
    text: &Text,
    stored: &Stat,
) -> Result<Outcome, NotPlain>
    requires { IsShort text.now }
    ensures plain { IfOk result (IsPlain keys.now (Asked.Create2 path.now sequential) (Outcome.Created2 text.now stored.now)) }
    ensures cause { IfErr result (IsCausedBy (IsCauseOf keys.now (Asked.Create2 path.now sequential) (Outcome.Created2 text.now stored.now))) }
{
    let Some(made) = unveil_created(alloc, &keys.names, path, sequential, text)? else {
        return Err(NotPlain::Caused(Cause::Created));
    };
    let stat = unveil_stat(path, stored)?;
    Ok(Outcome::Created2 { path: made, stat })
}

/// The plain path of a node that was synced.
#[tactic(auto, unfolding(crate::specs::Admits::IsPlain, crate::specs::Admits::IsCauseOf))]
pub(crate) fn unveil_sync(
    alloc: Global,
    keys: &EntryKeys,
    path: &Path,
    text: &Text,
) -> Result<Outcome, NotPlain>
    requires { IsShort text.now }
    ensures plain { IfOk result (IsPlain keys.now (Asked.SyncOf path.now) (Outcome.Path text.now)) }
    ensures cause { IfErr result (IsCausedBy (IsCauseOf keys.now (Asked.SyncOf path.now) (Outcome.Path text.now))) }
{
    match unveil_synced(alloc, &keys.names, path, text)? {
        Some(plain) => Ok(Outcome::Path(plain)),
        None => Err(NotPlain::Caused(Cause::SyncPath)),
    }
}

/// The Stat of a node.
#[tactic(auto, using(crate::proofs::Answering::answers), unfolding(crate::specs::Admits::IsPlain, crate::specs::Admits::IsCauseOf))]
pub(crate) fn unveil_stat_of(
    keys: &EntryKeys,
    path: &Path,
    stored: &Stat,
) -> Result<Outcome, NotPlain>
    ensures plain { IfOk result (IsPlain keys.now (Asked.StatOf path.now) (Outcome.Stat stored.now)) }
    ensures cause { IfErr result (IsCausedBy (IsCauseOf keys.now (Asked.StatOf path.now) (Outcome.Stat stored.now))) }
{
    let stat = unveil_stat(path, stored)?;
    Ok(Outcome::Stat(stat))
}

/// The content of a node and its Stat.
#[tactic(auto, using(crate::proofs::Answering::answers), unfolding(crate::specs::Admits::IsPlain, crate::specs::Admits::IsCauseOf))]
pub(crate) fn unveil_get_content(
    alloc: Global,
    keys: &EntryKeys,
    path: &Path,
    payload: &Option<Bytes>,
    stored: &Stat,
) -> Result<Outcome, NotPlain>
    requires { IfSome payload.now IsShort }
    ensures plain { IfOk result (IsPlain keys.now (Asked.Content path.now) (Outcome.Content payload.now stored.now)) }
    ensures cause { IfErr result (IsCausedBy (IsCauseOf keys.now (Asked.Content path.now) (Outcome.Content payload.now stored.now))) }
{
    let Node { content, stat } = unveil_content(alloc, &keys.payloads, path, payload, stored)?;
    Ok(Outcome::Content { content, stat })
}

// Whether it lets anyone do anything.
fn is_open_acl(acl: &Acl) -> bool
    ensures { IsTrue result ↔ (acl.now ≡ open_acl) }
{
    acl.perms == 31 && acl.scheme.as_str() == "world" && acl.id.as_str() == "anyone"
}

// Whether it is the one ACL that lets anyone do anything.
fn is_open(list: &Option<Acls>) -> bool
    ensures { IsTrue result ↔ IsOpen list.now }
{
    match list {
        Some(acls) => match acls.as_slice() {
            [acl] => is_open_acl(acl),
            _ => false,
        },
        None => false,
    }
}

/// The list of ACLs, which stays, and the Stat of a node.
#[tactic(auto, using(crate::proofs::Answering::answers), unfolding(crate::specs::Admits::IsPlain, crate::specs::Admits::IsCauseOf))]
pub(crate) fn unveil_get_acl(
    keys: &EntryKeys,
    path: &Path,
    acls: Option<Acls>,
    stored: &Stat,
) -> Result<Outcome, NotPlain>
    ensures plain { IfOk result (IsPlain keys.now (Asked.AclOf path.now) (Outcome.Acls acls stored.now)) }
    ensures cause { IfErr result (IsCausedBy (IsCauseOf keys.now (Asked.AclOf path.now) (Outcome.Acls acls stored.now))) }
{
    if !is_open(&acls) {
        return Err(NotPlain::Caused(Cause::Acl));
    }
    let stat = unveil_stat(path, stored)?;
    Ok(Outcome::Acls { acls, stat })
}

/// The names of a node's children.
#[tactic(auto, using(crate::proofs::Answering::answers), unfolding(crate::specs::Admits::IsPlain, crate::specs::Admits::IsCauseOf))]
pub(crate) fn unveil_get_children(
    alloc: Global,
    keys: &EntryKeys,
    path: &Path,
    list: &Option<Texts>,
) -> Result<Outcome, NotPlain>
    requires path { IsShortPath path.now }
    requires short { AreShortNames list.now }
    ensures plain { IfOk result (IsPlain keys.now (Asked.Children path.now) (Outcome.Children list.now)) }
    ensures cause { IfErr result (IsCausedBy (IsCauseOf keys.now (Asked.Children path.now) (Outcome.Children list.now))) }
{
    let names = unveil_children(alloc, &keys.names, path, list)?;
    Ok(Outcome::Children(names))
}

/// The names of a node's children and its Stat.
#[tactic(auto, using(crate::proofs::Answering::answers), unfolding(crate::specs::Admits::IsPlain, crate::specs::Admits::IsCauseOf))]
pub(crate) fn unveil_get_children2(
    alloc: Global,
    keys: &EntryKeys,
    path: &Path,
    list: &Option<Texts>,
    stored: &Stat,
) -> Result<Outcome, NotPlain>
    requires path { IsShortPath path.now }
    requires short { AreShortNames list.now }
    ensures plain { IfOk result (IsPlain keys.now (Asked.Children2 path.now) (Outcome.Children2 list.now stored.now)) }
    ensures cause { IfErr result (IsCausedBy (IsCauseOf keys.now (Asked.Children2 path.now) (Outcome.Children2 list.now stored.now))) }
{
    let children = unveil_children(alloc, &keys.names, path, list)?;
    let stat = unveil_stat(path, stored)?;
    Ok(Outcome::Children2 { children, stat })
}

/// The results of a multi.
#[tactic(auto, unfolding(crate::specs::Admits::IsPlain, crate::specs::Admits::IsCauseOf))]
pub(crate) fn unveil_multi(
    alloc: Global,
    keys: &EntryKeys,
    ops: &AskedOps,
    stored: &Results,
) -> Result<Outcome, NotPlain>
    requires asked { length ops.now < 2 ^ 32 }
    requires few { length stored.now < 2 ^ 32 }
    requires short { All IsShortResult stored.now }
    ensures plain { IfOk result (IsPlain keys.now (Asked.Multi ops.now) (Outcome.Multi stored.now)) }
    ensures cause { IfErr result (IsCausedBy (IsCauseOf keys.now (Asked.Multi ops.now) (Outcome.Multi stored.now))) }
{
    let results = unveil_results(alloc, &keys.names, ops.as_slice(), stored.as_slice())?;
    Ok(Outcome::Multi(results))
}
