//! The veiled form of a request, and what waits for its reply.

ghost use Rattle.std.specs.Prelude.{◌≡◌, ◌↔◌, ◌+◌, ◌≤◌, ◌<◌, ◌^◌, ℕ, sum_by, None, Err, IfOk, OnOk, OnErr};
ghost use Rattle.zk_messages.specs.Refuses.{Refuses};
ghost use Rattle.request_queue.specs.Asking.{IsAsked};
ghost use Rattle.request_rewrite.specs.Asks.{Asks, Turns};
ghost use Rattle.request_rewrite.specs.Ivs.{IsForGreatest, ivs_from, payloads_of, payloads_of_op, PayloadsOf};
ghost use Rattle.zk_messages.specs.Short.{HasShortParts};
ghost use Rattle.request_rewrite.specs.Veil.{Veil, stand_in};

use crate::ops::payloads_of_op;
use crate::requests::{
    Veiled, veil_close, veil_create, veil_create2, veil_delete, veil_exists, veil_get_acl,
    veil_get_children, veil_get_children2, veil_get_content, veil_multi, veil_ping, veil_set_acl,
    veil_set_content, veil_sync, veil_watches,
};
use jute_core::{Memory, Text};
use payload_seal::{EntryKeys, IvSource};
use request_queue::{Asked, Pending};
use std::alloc::Global;
use zk_messages::{Op, Request, refusal_of};
use zk_records::PathWatch;

/// Why a request has no veiled form.
#[derive(Clone, Copy, Debug, Drop, PartialEq, Eq)]
pub enum NotVeiled {
    /// The connection has fewer IVs left than the request has payloads.
    Spent,
    /// There was no memory.
    Memory,
}

impl From<Memory> for NotVeiled {
    ghost use Rattle.request_rewrite.specs.declared.veiling.NotVeiled.TheVariants.{Memory as OutOfMemory};

    ghost from_gives = { λ _ e. e ≡ OutOfMemory };

    fn from(_: Memory) -> NotVeiled {
        NotVeiled::Memory
    }
}

// How many payloads operations have.
fn payloads_of_ops(ops: &[Op]) -> u64
    requires { sum_by payloads_of_op ops.now < 2 ^ 64 }
    ensures { result ≡ sum_by payloads_of_op ops.now }
{
    let mut count = 0;
    for op in ops {
        count += payloads_of_op(op);
    }
    count
}

// How many payloads a request has.
#[tactic(auto, unfolding(crate::specs::Ivs::payloads_of), using(crate::proofs::Ivs::payloads_fit))]
fn payloads_of(request: &Request) -> u64
    ensures { result ≡ payloads_of request.now }
{
    match request {
        Request::Create(_) | Request::Create2(_) | Request::SetContent(_) => 1,
        Request::Multi(ops) => payloads_of_ops(ops.as_slice()),
        _ => 0,
    }
}

// What goes to the store in place of a refused request.
fn stand_in(alloc: Global) -> Result<Request, Memory>
    ensures { IfOk result (λ request. request ≡ stand_in) }
{
    Ok(Request::Exists(PathWatch {
        path: Text::copy_of(alloc, "/")?,
        watch: false,
    }))
}

// A request that is not refused.
#[tactic(auto, using(crate::proofs::Allowed::allowed, crate::proofs::Ivs::epoch_known), unfolding(crate::specs::Ivs::ivs_from, crate::specs::Ivs::payloads_of, zk_messages::specs::Short::HasShortParts, zk_messages::specs::Refuses::Refuses))]
fn veil_allowed(
    alloc: Global,
    keys: &EntryKeys,
    ivs: &IvSource,
    request: Request,
) -> Result<Veiled, Memory>
    requires epoch { IsForGreatest keys.now.payloads ivs.now }
    requires allowed { Refuses request None }
    requires short { HasShortParts request }
    requires left { ivs.now.count + payloads_of request ≤ 2 ^ 32 }
    ensures { IfOk result (λ x. Turns keys.now (ivs_from ivs.now (payloads_of request)) request x.request x.asked) }
{
    match request {
        Request::Create(request) => veil_create(alloc, keys, ivs.ahead(0), request),
        Request::Create2(request) => veil_create2(alloc, keys, ivs.ahead(0), request),
        Request::Delete(request) => veil_delete(alloc, keys, &request),
        Request::Exists(request) => veil_exists(alloc, keys, &request),
        Request::GetContent(request) => veil_get_content(alloc, keys, &request),
        Request::SetContent(request) => veil_set_content(alloc, keys, ivs.ahead(0), &request),
        Request::GetAcl(request) => veil_get_acl(alloc, keys, &request),
        Request::SetAcl(request) => veil_set_acl(alloc, keys, request),
        Request::GetChildren(request) => veil_get_children(alloc, keys, &request),
        Request::GetChildren2(request) => veil_get_children2(alloc, keys, &request),
        Request::Sync(request) => veil_sync(alloc, keys, &request),
        Request::Ping => Ok(veil_ping()),
        Request::Multi(ops) => veil_multi(alloc, keys, ivs, &ops),
        Request::SetWatches(request) => veil_watches(alloc, keys, &request),
        Request::Close => Ok(veil_close()),
        // These are refused.
        Request::Auth(_) | Request::Unknown { .. } => unreachable!(),
    }
}

// What the store is handed, what is kept for the reply, and how many IVs that takes.
#[derive(Drop)]
struct Form {
    request: Request,
    asked: Asked,
    payloads: u64,
}

// The form of a request under the next IVs, which are looked at and not taken.
#[tactic(auto, using(crate::proofs::Whole::forms))]
fn form_of(
    alloc: Global,
    keys: &EntryKeys,
    ivs: &IvSource,
    request: Request,
) -> Result<Form, NotVeiled>
    requires epoch { IsForGreatest keys.now.payloads ivs.now }
    requires short { HasShortParts request }
    ensures number { (n : ℕ) × PayloadsOf request n }
    ensures counted { IfOk result (λ x. PayloadsOf request x.payloads) }
    ensures left { IfOk result (λ x. ivs.now.count + x.payloads ≤ 2 ^ 32) }
    ensures veiled { IfOk result (λ x. Veil keys.now (ivs_from ivs.now x.payloads) request x.request) }
    ensures asks { IfOk result (λ x. Asks request x.asked) }
    ensures spent { result ≡ Err NotVeiled.Spent → (n : ℕ) → PayloadsOf request n → 2 ^ 32 < ivs.now.count + n }
    ensures memory { result ≡ Err NotVeiled.Memory → (n : ℕ) → PayloadsOf request n → ivs.now.count + n ≤ 2 ^ 32 }
{
    let left = ivs.left();
    if let Some(code) = refusal_of(&request) {
        return Ok(Form {
            request: stand_in(alloc)?,
            asked: Asked::Refused { code },
            payloads: 0,
        });
    }
    let payloads = payloads_of(&request);
    if left < payloads {
        return Err(NotVeiled::Spent);
    }
    let Veiled { request, asked } = veil_allowed(alloc, keys, ivs, request)?;
    Ok(Form {
        request,
        asked,
        payloads,
    })
}

/// What a proxy hands to the store in place of a request of so many bytes with this xid, and what waits for the reply.
///
/// Each name and each payload is sealed, and all else is as it was; a payload takes the next IV of the connection. A request
/// that is refused becomes `exists "/"` without watch, so that its answer keeps its turn, and takes no IV. Each text and
/// buffer of the request has at most 134,217,728 bytes, and the IVs are for the greatest epoch of the keys, under whose key each
/// payload is sealed. Linear in them: each is read, and sealed into memory of its own. Its ACLs move, but those within a
/// multi, and the path that is kept is copied once.
///
/// # Errors
/// `Spent` exactly where fewer IVs are left than the request has payloads. No IV is taken after an error: those that were
/// looked at have sealed nothing that is handed out. The request is dropped then.
#[tactic(auto, using(crate::proofs::Whole::counts))]
pub fn veil_request(
    alloc: Global,
    keys: &EntryKeys,
    ivs: &mut IvSource,
    xid: i32,
    bytes: u32,
    request: Request,
) -> Result<(Request, Pending), NotVeiled>
    requires epoch { IsForGreatest keys.now.payloads ivs.old }
    requires short { HasShortParts request }
    // What the store is handed, and which IVs that took.
    ensures veiled { (n : ℕ) → PayloadsOf request n → IfOk result (λ x. Veil keys.now (ivs_from ivs.old n) request x.0) }
    ensures taken { (n : ℕ) → PayloadsOf request n → OnOk result (ivs.new ≡ record ivs.old { count = ivs.old.count + n }) }
    ensures counted { (n : ℕ) × PayloadsOf request n }

    // What waits for the reply.
    ensures xid { IfOk result (λ x. x.1.xid ≡ xid) }
    ensures bytes { IfOk result (λ x. x.1.bytes ≡ bytes) }
    ensures asks { IfOk result (λ x. Asks request x.1.asked) }
    ensures asked { IfOk result (λ x. IsAsked x.1.asked) }

    // Errors.
    ensures spent { (n : ℕ) → PayloadsOf request n → (result ≡ Err NotVeiled.Spent) ↔ (2 ^ 32 < ivs.old.count + n) }
    ensures kept { OnErr result (ivs.new ≡ ivs.old) }
{
    let form = form_of(alloc, keys, ivs, request)?;
    ivs.advance(form.payloads);
    let pending = Pending {
        xid,
        bytes,
        asked: form.asked,
    };
    Ok((form.request, pending))
}
