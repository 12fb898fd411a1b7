//! The results of a multi.

ghost use Rattle.std.specs.Prelude.{◌≡◌, ◌<◌, ◌↔◌, ◌^◌, true, false, length, All, IfOk, IfErr, IsTrue};
ghost use Rattle.reply_rewrite.specs.Caused.{IsCausedBy};
ghost use Rattle.reply_rewrite.specs.Results.{is_failed, IsPlainResult, ArePlainResults, IsCauseAt, IsFirstCause, IsResultsCause};
ghost use Rattle.zk_messages.specs.Short.{IsShort};
ghost use Rattle.reply_rewrite.specs.Short.{IsShortResult};

use crate::finding::{Cause, NotPlain};
use crate::names::unveil_created;
use crate::stat::plain_stat;
use jute_core::Text;
use path_seal::NameKeys;
use request_queue::AskedOp;
use std::alloc::Global;
use zk_messages::{OpResult, Results};
use zk_path::Path;
use zk_records::Stat;

// Whether the first result is an error.
fn is_failed(stored: &[OpResult]) -> bool
    ensures { result ≡ is_failed stored.now }
{
    match stored {
        [OpResult::Error { code: _ }, ..] => true,
        _ => false,
    }
}

// The result of an operation of a multi that failed, which is an error.
#[tactic(auto, unfolding(crate::specs::Results::IsPlainResult, crate::specs::Results::IsCauseAt, crate::specs::Results::HasKind))]
fn unveil_failed(
    keys: &NameKeys,
    index: u32,
    op: &AskedOp,
    stored: &OpResult,
) -> Result<OpResult, NotPlain>
    ensures plain { IfOk result (IsPlainResult keys.now true op.now stored.now) }
    ensures cause { IfErr result (IsCausedBy (IsCauseAt keys.now true index op.now stored.now)) }
{
    match stored {
        OpResult::Error { code } => Ok(OpResult::Error { code: *code }),
        _ => Err(NotPlain::Caused(Cause::MultiKind { index })),
    }
}

// The result of a create2 that was done: the path of the node, and its Stat.
#[tactic(auto, unfolding(crate::specs::Results::IsPlainResult, crate::specs::Results::IsCauseAt, crate::specs::Results::IsOtherCreated, crate::specs::Results::IsOtherLength))]
fn unveil_created2(
    alloc: Global,
    keys: &NameKeys,
    index: u32,
    path: &Path,
    sequential: bool,
    text: &Text,
    stored: &Stat,
) -> Result<OpResult, NotPlain>
    requires { IsShort text.now }
    ensures plain { IfOk result (IsPlainResult keys.now false (AskedOp.Create2 path.now sequential) (OpResult.Created2 text.now stored.now)) }
    ensures cause { IfErr result (IsCausedBy (IsCauseAt keys.now false index (AskedOp.Create2 path.now sequential) (OpResult.Created2 text.now stored.now))) }
{
    let Some(made) = unveil_created(alloc, keys, path, sequential, text)? else {
        return Err(NotPlain::Caused(Cause::MultiCreated { index }));
    };
    let Some(stat) = plain_stat(path, stored) else {
        return Err(NotPlain::Caused(Cause::MultiLength { index }));
    };
    Ok(OpResult::Created2 { path: made, stat })
}

// The result of an operation of a multi that was done.
#[tactic(auto, unfolding(crate::specs::Results::IsPlainResult, crate::specs::Results::IsCauseAt, crate::specs::Results::HasKind, crate::specs::Results::IsOtherCreated, crate::specs::Results::IsOtherLength, crate::specs::Short::IsShortResult))]
fn unveil_done(
    alloc: Global,
    keys: &NameKeys,
    index: u32,
    op: &AskedOp,
    stored: &OpResult,
) -> Result<OpResult, NotPlain>
    requires { IsShortResult stored.now }
    ensures plain { IfOk result (IsPlainResult keys.now false op.now stored.now) }
    ensures cause { IfErr result (IsCausedBy (IsCauseAt keys.now false index op.now stored.now)) }
{
    match (op, stored) {
        (AskedOp::Create { path, sequential }, OpResult::Created(text)) => {
            match unveil_created(alloc, keys, path, *sequential, text)? {
                Some(plain) => Ok(OpResult::Created(plain)),
                None => Err(NotPlain::Caused(Cause::MultiCreated { index })),
            }
        }
        (AskedOp::Create2 { path, sequential }, OpResult::Created2 { path: text, stat }) => {
            unveil_created2(alloc, keys, index, path, *sequential, text, stat)
        }
        (AskedOp::Delete, OpResult::Deleted) => Ok(OpResult::Deleted),
        (AskedOp::SetContent { path }, OpResult::Changed(stat)) => match plain_stat(path, stat) {
            Some(plain) => Ok(OpResult::Changed(plain)),
            None => Err(NotPlain::Caused(Cause::MultiLength { index })),
        },
        (AskedOp::Check, OpResult::Checked) => Ok(OpResult::Checked),
        _ => Err(NotPlain::Caused(Cause::MultiKind { index })),
    }
}

// The result of an operation.
fn unveil_result(
    alloc: Global,
    keys: &NameKeys,
    failed: bool,
    index: u32,
    op: &AskedOp,
    stored: &OpResult,
) -> Result<OpResult, NotPlain>
    requires { IsShortResult stored.now }
    ensures plain { IfOk result (IsPlainResult keys.now failed op.now stored.now) }
    ensures cause { IfErr result (IsCausedBy (IsCauseAt keys.now failed index op.now stored.now)) }
{
    if failed {
        unveil_failed(keys, index, op, stored)
    } else {
        unveil_done(alloc, keys, index, op, stored)
    }
}

// So many results as operations, one after another.
#[tactic(auto, using(crate::proofs::Multis::multis))]
fn unveil_each(
    alloc: Global,
    keys: &NameKeys,
    failed: bool,
    ops: &[AskedOp],
    stored: &[OpResult],
) -> Result<Vec<OpResult>, NotPlain>
    requires same { length ops.now ≡ length stored.now }
    requires few { length stored.now < 2 ^ 32 }
    requires short { All IsShortResult stored.now }
    ensures plain { IfOk result (λ plain. ArePlainResults keys.now failed ops.now stored.now plain.items) }
    ensures cause { IfErr result (IsCausedBy (IsFirstCause keys.now failed 0 ops.now stored.now)) }
{
    let mut plain = Vec::with_capacity(alloc, stored.len())?;
    for (index, op) in ops.iter().enumerate() {
        let result = unveil_result(alloc, keys, failed, index as u32, op, &stored[index])?;
        plain.push(result)?;
    }
    Ok(plain)
}

/// What the operations of a multi came to, in plain text. Linear.
pub(crate) fn unveil_results(
    alloc: Global,
    keys: &NameKeys,
    ops: &[AskedOp],
    stored: &[OpResult],
) -> Result<Results, NotPlain>
    requires asked { length ops.now < 2 ^ 32 }
    requires few { length stored.now < 2 ^ 32 }
    requires short { All IsShortResult stored.now }
    ensures plain { IfOk result (ArePlainResults keys.now (is_failed stored.now) ops.now stored.now) }
    ensures cause { IfErr result (IsCausedBy (IsResultsCause keys.now ops.now stored.now)) }
{
    if ops.len() != stored.len() {
        let asked = ops.len() as u32;
        let got = stored.len() as u32;
        return Err(NotPlain::Caused(Cause::MultiCount { asked, got }));
    }
    let plain = unveil_each(alloc, keys, is_failed(stored), ops, stored)?;
    Ok(Results::of(plain))
}
