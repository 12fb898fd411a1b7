//! The operations of a multi, sealed one after another.

ghost use Rattle.std.specs.Prelude.{◌≡◌, ◌+◌, ◌≤◌, ◌^◌, sum_by, All, IfOk};
ghost use Rattle.std.specs.List.{AllZip};
ghost use Rattle.request_rewrite.specs.Asks.{AsksOp};
ghost use Rattle.request_rewrite.specs.Ivs.{IsForGreatest, ivs_from, ivs_of_op, payloads_of_op};
ghost use Rattle.zk_messages.specs.Short.{HasShortOpParts};
ghost use Rattle.request_rewrite.specs.Veil.{IsAllowedOp, VeilsOp, VeilsOps};

use crate::records::{veil_check, veil_create_op, veil_delete, veil_set_content};
use jute_core::Memory;
use payload_seal::{EntryKeys, IvSource};
use request_queue::AskedOp;
use std::alloc::Global;
use zk_messages::Op;

// An operation that is sealed, and what it asks.
#[derive(Drop)]
struct VeiledOp {
    op: Op,
    asked: AskedOp,
}

/// Operations that are sealed, and what each asks.
#[derive(Drop)]
pub(crate) struct VeiledOps {
    pub(crate) ops: Vec<Op>,
    pub(crate) asked: Vec<AskedOp>,
}

/// How many payloads an operation has.
#[tactic(auto, unfolding(crate::specs::Ivs::payloads_of_op))]
pub(crate) fn payloads_of_op(op: &Op) -> u64
    ensures { result ≡ payloads_of_op op.now }
{
    match op {
        Op::Create(_) | Op::Create2(_) | Op::SetContent(_) => 1,
        Op::Delete(_) | Op::Check(_) => 0,
    }
}

// An operation before which so many IVs are used.
#[tactic(auto, using(crate::proofs::Allowed::allowed, crate::proofs::Ivs::epoch_known, crate::proofs::Ivs::content_op), unfolding(crate::specs::Asks::AsksOp, crate::specs::Ivs::ivs_of_op, crate::specs::Ivs::payloads_of_op, zk_messages::specs::Short::HasShortOpParts, crate::specs::Veil::VeilsOp))]
fn veil_op(
    alloc: Global,
    keys: &EntryKeys,
    ivs: &IvSource,
    used: u64,
    op: &Op,
) -> Result<VeiledOp, Memory>
    requires epoch { IsForGreatest keys.now.payloads ivs.now }
    requires allowed { IsAllowedOp op.now }
    requires short { HasShortOpParts op.now }
    requires left { ivs.now.count + (used + payloads_of_op op.now) ≤ 2 ^ 32 }
    ensures veiled { IfOk result (λ x. VeilsOp keys.now (ivs_of_op ivs.now used op.now) op.now x.op) }
    ensures asked { IfOk result (λ x. AsksOp op.now x.asked) }
{
    match op {
        Op::Create(create) => {
            let veiled = veil_create_op(alloc, keys, ivs.ahead(used), create)?;
            let asked = AskedOp::Create {
                path: veiled.path,
                sequential: veiled.sequential,
            };
            Ok(VeiledOp {
                op: Op::Create(veiled.create),
                asked,
            })
        }
        Op::Create2(create) => {
            let veiled = veil_create_op(alloc, keys, ivs.ahead(used), create)?;
            let asked = AskedOp::Create2 {
                path: veiled.path,
                sequential: veiled.sequential,
            };
            Ok(VeiledOp {
                op: Op::Create2(veiled.create),
                asked,
            })
        }
        Op::Delete(request) => Ok(VeiledOp {
            op: Op::Delete(veil_delete(alloc, &keys.names, request)?),
            asked: AskedOp::Delete,
        }),
        Op::SetContent(request) => {
            let (veiled, path) = veil_set_content(alloc, keys, ivs.ahead(used), request)?;
            Ok(VeiledOp {
                op: Op::SetContent(veiled),
                asked: AskedOp::SetContent { path },
            })
        }
        Op::Check(request) => Ok(VeiledOp {
            op: Op::Check(veil_check(alloc, &keys.names, request)?),
            asked: AskedOp::Check,
        }),
    }
}

/// The operations of a multi that is not refused, each payload under the next IV. Linear in their bytes.
pub(crate) fn veil_ops(
    alloc: Global,
    keys: &EntryKeys,
    ivs: &IvSource,
    ops: &[Op],
) -> Result<VeiledOps, Memory>
    requires epoch { IsForGreatest keys.now.payloads ivs.now }
    requires allowed { All IsAllowedOp ops.now }
    requires short { All HasShortOpParts ops.now }
    requires left { ivs.now.count + sum_by payloads_of_op ops.now ≤ 2 ^ 32 }
    ensures veiled { IfOk result (λ x. VeilsOps keys.now (ivs_from ivs.now (sum_by payloads_of_op ops.now)) ops.now x.ops.items) }
    ensures asked { IfOk result (λ x. AllZip AsksOp ops.now x.asked.items) }
{
    let mut veiled = Vec::with_capacity(alloc, ops.len())?;
    let mut asked = Vec::with_capacity(alloc, ops.len())?;
    let mut used = 0;
    for op in ops {
        let both = veil_op(alloc, keys, ivs, used, op)?;
        veiled.push(both.op)?;
        asked.push(both.asked)?;
        used += payloads_of_op(op);
    }
    Ok(VeiledOps { ops: veiled, asked })
}
