//! Each type of request that is not refused: what the store is handed, and what is kept for the reply.

ghost use Rattle.std.specs.Prelude.{◌∷◌, [], None, All, ◌+◌, ◌≤◌, ◌<◌, ◌^◌, length, sum_by, IfOk};
ghost use Rattle.payload_seal.specs.Keys.{epoch_of};
ghost use Rattle.zk_path.specs.Paths.{IsPathText};
ghost use Rattle.watch_rewrite.specs.Watches.{EachText};
ghost use Rattle.payload_seal.specs.declared.keys.EntryKeys.{EntryKeys};
ghost use Rattle.zk_messages.specs.Refuses.{RefusesCreate, RefusesSetAcl};
ghost use Rattle.zk_messages.specs.declared.request.Request.TheVariants as requests;
ghost use Rattle.request_rewrite.specs.Asks.{Turns};
ghost use Rattle.request_rewrite.specs.Ivs.{IsForGreatest, ivs_from, payloads_of_op};
ghost use Rattle.zk_messages.specs.Short.{IsShort, IsShortContent, HasShortOpParts};
ghost use Rattle.request_rewrite.specs.Veil.{IsAllowedOp};

use crate::ops::veil_ops;
use crate::records::{
    veil_create as veil_create_record, veil_delete as veil_delete_record, veil_path_only,
    veil_path_watch, veil_set_acl as veil_set_acl_record,
    veil_set_content as veil_set_content_record,
};
use jute_core::Memory;
use path_seal::NameKeys;
use payload_seal::{EntryKeys, IvSource};
use request_queue::{Asked, AskedOps};
use std::alloc::Global;
use watch_rewrite::veil_set_watches;
use zk_messages::{Ops, Request};
use zk_records::{
    CreateRequest, DeleteRequest, PathOnly, PathWatch, SetAclRequest, SetContentRequest, SetWatches,
};

/// A request that is sealed, and what it asks.
#[derive(Drop)]
pub(crate) struct Veiled {
    pub(crate) request: Request,
    pub(crate) asked: Asked,
}

#[tactic(auto, using(crate::proofs::Allowed::allowed), unfolding(crate::specs::Veil::Veils, crate::specs::Asks::AsksPlain))]
pub(crate) fn veil_create(
    alloc: Global,
    keys: &EntryKeys,
    iv: [u8; 12],
    request: CreateRequest,
) -> Result<Veiled, Memory>
    requires epoch { epoch_of iv < length keys.now.payloads }
    requires allowed { RefusesCreate request None }
    requires path { IsShort request.path }
    requires content { IsShortContent request.content }
    ensures { IfOk result (λ x. Turns keys.now (iv ∷ []) (requests.Create request) x.request x.asked) }
{
    let veiled = veil_create_record(alloc, keys, iv, request)?;
    Ok(Veiled {
        request: Request::Create(veiled.create),
        asked: Asked::Create {
            path: veiled.path,
            sequential: veiled.sequential,
        },
    })
}

#[tactic(auto, using(crate::proofs::Allowed::allowed), unfolding(crate::specs::Veil::Veils, crate::specs::Asks::AsksPlain))]
pub(crate) fn veil_create2(
    alloc: Global,
    keys: &EntryKeys,
    iv: [u8; 12],
    request: CreateRequest,
) -> Result<Veiled, Memory>
    requires epoch { epoch_of iv < length keys.now.payloads }
    requires allowed { RefusesCreate request None }
    requires path { IsShort request.path }
    requires content { IsShortContent request.content }
    ensures { IfOk result (λ x. Turns keys.now (iv ∷ []) (requests.Create2 request) x.request x.asked) }
{
    let veiled = veil_create_record(alloc, keys, iv, request)?;
    Ok(Veiled {
        request: Request::Create2(veiled.create),
        asked: Asked::Create2 {
            path: veiled.path,
            sequential: veiled.sequential,
        },
    })
}

#[tactic(auto, using(crate::proofs::Allowed::allowed), unfolding(crate::specs::Veil::Veils, crate::specs::Asks::AsksPlain))]
pub(crate) fn veil_set_content(
    alloc: Global,
    keys: &EntryKeys,
    iv: [u8; 12],
    request: &SetContentRequest,
) -> Result<Veiled, Memory>
    requires epoch { epoch_of iv < length keys.now.payloads }
    requires legal { IsPathText request.now.path }
    requires path { IsShort request.now.path }
    requires content { IsShortContent request.now.content }
    ensures { IfOk result (λ x. Turns keys.now (iv ∷ []) (requests.SetContent request.now) x.request x.asked) }
{
    let (request, path) = veil_set_content_record(alloc, keys, iv, request)?;
    Ok(Veiled {
        request: Request::SetContent(request),
        asked: Asked::StatOf { path },
    })
}

#[tactic(auto, using(crate::proofs::Allowed::allowed), unfolding(crate::specs::Veil::Veils, crate::specs::Asks::AsksPlain))]
pub(crate) fn veil_delete(
    alloc: Global,
    keys: &EntryKeys,
    request: &DeleteRequest,
) -> Result<Veiled, Memory>
    requires legal { IsPathText request.now.path }
    requires short { IsShort request.now.path }
    ensures { IfOk result (λ x. Turns keys.now [] (requests.Delete request.now) x.request x.asked) }
{
    let request = veil_delete_record(alloc, &keys.names, request)?;
    Ok(Veiled {
        request: Request::Delete(request),
        asked: Asked::Empty,
    })
}

#[tactic(auto, using(crate::proofs::Allowed::allowed), unfolding(crate::specs::Veil::Veils, crate::specs::Asks::AsksPlain))]
pub(crate) fn veil_exists(
    alloc: Global,
    keys: &EntryKeys,
    request: &PathWatch,
) -> Result<Veiled, Memory>
    requires legal { IsPathText request.now.path }
    requires short { IsShort request.now.path }
    ensures { IfOk result (λ x. Turns keys.now [] (requests.Exists request.now) x.request x.asked) }
{
    let (request, path) = veil_path_watch(alloc, &keys.names, request)?;
    Ok(Veiled {
        request: Request::Exists(request),
        asked: Asked::StatOf { path },
    })
}

#[tactic(auto, using(crate::proofs::Allowed::allowed), unfolding(crate::specs::Veil::Veils, crate::specs::Asks::AsksPlain))]
pub(crate) fn veil_get_content(
    alloc: Global,
    keys: &EntryKeys,
    request: &PathWatch,
) -> Result<Veiled, Memory>
    requires legal { IsPathText request.now.path }
    requires short { IsShort request.now.path }
    ensures { IfOk result (λ x. Turns keys.now [] (requests.GetContent request.now) x.request x.asked) }
{
    let (request, path) = veil_path_watch(alloc, &keys.names, request)?;
    Ok(Veiled {
        request: Request::GetContent(request),
        asked: Asked::Content { path },
    })
}

#[tactic(auto, using(crate::proofs::Allowed::allowed), unfolding(crate::specs::Veil::Veils, crate::specs::Asks::AsksPlain))]
pub(crate) fn veil_get_children(
    alloc: Global,
    keys: &EntryKeys,
    request: &PathWatch,
) -> Result<Veiled, Memory>
    requires legal { IsPathText request.now.path }
    requires short { IsShort request.now.path }
    ensures { IfOk result (λ x. Turns keys.now [] (requests.GetChildren request.now) x.request x.asked) }
{
    let (request, path) = veil_path_watch(alloc, &keys.names, request)?;
    Ok(Veiled {
        request: Request::GetChildren(request),
        asked: Asked::Children { path },
    })
}

#[tactic(auto, using(crate::proofs::Allowed::allowed), unfolding(crate::specs::Veil::Veils, crate::specs::Asks::AsksPlain))]
pub(crate) fn veil_get_children2(
    alloc: Global,
    keys: &EntryKeys,
    request: &PathWatch,
) -> Result<Veiled, Memory>
    requires legal { IsPathText request.now.path }
    requires short { IsShort request.now.path }
    ensures { IfOk result (λ x. Turns keys.now [] (requests.GetChildren2 request.now) x.request x.asked) }
{
    let (request, path) = veil_path_watch(alloc, &keys.names, request)?;
    Ok(Veiled {
        request: Request::GetChildren2(request),
        asked: Asked::Children2 { path },
    })
}

#[tactic(auto, using(crate::proofs::Allowed::allowed), unfolding(crate::specs::Veil::Veils, crate::specs::Asks::AsksPlain))]
pub(crate) fn veil_get_acl(
    alloc: Global,
    keys: &EntryKeys,
    request: &PathOnly,
) -> Result<Veiled, Memory>
    requires legal { IsPathText request.now.path }
    requires short { IsShort request.now.path }
    ensures { IfOk result (λ x. Turns keys.now [] (requests.GetAcl request.now) x.request x.asked) }
{
    let (request, path) = veil_path_only(alloc, &keys.names, request)?;
    Ok(Veiled {
        request: Request::GetAcl(request),
        asked: Asked::AclOf { path },
    })
}

#[tactic(auto, using(crate::proofs::Allowed::allowed), unfolding(crate::specs::Veil::Veils, crate::specs::Asks::AsksPlain))]
pub(crate) fn veil_sync(
    alloc: Global,
    keys: &EntryKeys,
    request: &PathOnly,
) -> Result<Veiled, Memory>
    requires legal { IsPathText request.now.path }
    requires short { IsShort request.now.path }
    ensures { IfOk result (λ x. Turns keys.now [] (requests.Sync request.now) x.request x.asked) }
{
    let (request, path) = veil_path_only(alloc, &keys.names, request)?;
    Ok(Veiled {
        request: Request::Sync(request),
        asked: Asked::SyncOf { path },
    })
}

#[tactic(auto, using(crate::proofs::Allowed::allowed), unfolding(crate::specs::Veil::Veils, crate::specs::Asks::AsksPlain))]
pub(crate) fn veil_set_acl(
    alloc: Global,
    keys: &EntryKeys,
    request: SetAclRequest,
) -> Result<Veiled, Memory>
    requires allowed { RefusesSetAcl request None }
    requires short { IsShort request.path }
    ensures { IfOk result (λ x. Turns keys.now [] (requests.SetAcl request) x.request x.asked) }
{
    let (request, path) = veil_set_acl_record(alloc, &keys.names, request)?;
    Ok(Veiled {
        request: Request::SetAcl(request),
        asked: Asked::StatOf { path },
    })
}

#[tactic(auto, using(crate::proofs::Allowed::allowed), unfolding(crate::specs::Veil::Veils, crate::specs::Asks::AsksPlain))]
pub(crate) fn veil_watches(
    alloc: Global,
    keys: &EntryKeys,
    request: &SetWatches,
) -> Result<Veiled, Memory>
    requires legal { EachText IsPathText request.now }
    requires short { EachText IsShort request.now }
    ensures { IfOk result (λ x. Turns keys.now [] (requests.SetWatches request.now) x.request x.asked) }
{
    let request = veil_set_watches(alloc, &keys.names, request)?;
    Ok(Veiled {
        request: Request::SetWatches(request),
        asked: Asked::Empty,
    })
}

#[tactic(auto, using(crate::proofs::Allowed::allowed), unfolding(crate::specs::Veil::Veils, crate::specs::Asks::AsksPlain))]
pub(crate) fn veil_multi(
    alloc: Global,
    keys: &EntryKeys,
    ivs: &IvSource,
    ops: &Ops,
) -> Result<Veiled, Memory>
    requires epoch { IsForGreatest keys.now.payloads ivs.now }
    requires allowed { All IsAllowedOp ops.now }
    requires short { All HasShortOpParts ops.now }
    requires left { ivs.now.count + sum_by payloads_of_op ops.now ≤ 2 ^ 32 }
    ensures { IfOk result (λ x. Turns keys.now (ivs_from ivs.now (sum_by payloads_of_op ops.now)) (requests.Multi ops.now) x.request x.asked) }
{
    let veiled = veil_ops(alloc, keys, ivs, ops.as_slice())?;
    Ok(Veiled {
        request: Request::Multi(Ops::of(veiled.ops)),
        asked: Asked::Multi(AskedOps::of(veiled.asked)),
    })
}

#[tactic(auto, using(crate::proofs::Allowed::allowed), unfolding(crate::specs::Veil::Veils, crate::specs::Asks::AsksPlain))]
pub(crate) fn veil_ping() -> Veiled
    ensures { (k : EntryKeys) → Turns k [] requests.Ping result.request result.asked }
{
    Veiled {
        request: Request::Ping,
        asked: Asked::Empty,
    }
}

#[tactic(auto, using(crate::proofs::Allowed::allowed), unfolding(crate::specs::Veil::Veils, crate::specs::Asks::AsksPlain))]
pub(crate) fn veil_close() -> Veiled
    ensures { (k : EntryKeys) → Turns k [] requests.Close result.request result.asked }
{
    Veiled {
        request: Request::Close,
        asked: Asked::Close,
    }
}
