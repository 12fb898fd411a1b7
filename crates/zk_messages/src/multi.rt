//! Reading and writing multis.

ghost use Rattle.std.specs.Prelude.{◌≡◌, pos, negsuc, ◌+◌, ◌<◌, ◌^◌, length, false, All, IfOk, IfErr, IfSome, IfNone, OnOk, OnErr};
ghost use Rattle.jute_core.specs.Jute.{int, ustring, pair};
ghost use Rattle.jute_core.specs.Position.{Adds, Appends, Grows, Passes};
ghost use Rattle.jute_core.specs.Records.{Fails, ReadsOrMemory};
ghost use Rattle.zk_records.specs.Stats.{stat};
ghost use Rattle.zk_messages.specs.Kinds.{op_number, op_kind_of};
ghost use Rattle.zk_messages.specs.Multi.{multi_header, multi_header_fields, op_record, op_fields, result_record, IsEnd, IsBadMark, IsBadRepeat, RefusedIfAny};
ghost use Rattle.zk_messages.specs.Multi.{SpellsOp, SpellsOps, RefusedOp, RefusedOps, SpellsResult, SpellsResults, RefusedResult, RefusedResults};
ghost use Rattle.zk_messages.specs.Reading.{Reaches, FailsAt};
ghost use Rattle.zk_messages.specs.Results.{IsDone};
ghost use Rattle.zk_messages.specs.declared.reply.OpResult.TheVariants as op_results;
ghost use Rattle.zk_messages.specs.Sending.{AddsBytes, IsShortOp, IsShortResult};

use crate::kind::OpKind;
use crate::reply::{OpResult, Results};
use crate::request::{Op, Ops};
use jute_core::{
    Cursor, Memory, NotRead, Reason, Refusal, put_bool, put_int, put_ustring, read_text,
};
use std::alloc::Global;
use zk_records::{CheckRequest, CreateRequest, DeleteRequest, SetContentRequest, Stat};

/// What stands before each operation and each result of a multi, and behind the last one:
/// MultiHeader of zookeeper.jute.
#[derive(Clone, Copy, Debug, Drop, PartialEq, Eq)]
pub(crate) struct MultiHeader {
    /// The type of the operation, or -1.
    pub(crate) kind: i32,
    /// Whether this is the end.
    pub(crate) done: bool,
    /// -1 in a request and at the end, and in a result 0 or the code of the error.
    pub(crate) err: i32,
}

/// The type that is none: at the end, and of an error.
const NONE: i32 = -1;

const END: MultiHeader = MultiHeader {
    kind: NONE,
    done: true,
    err: NONE,
};

impl MultiHeader {
    #[tactic(auto, using(jute_core::proofs::Glue::glue))]
    fn read(cursor: &mut Cursor<'_>) -> Result<MultiHeader, NotRead>
        ensures reads { ReadsOrMemory cursor.old cursor.new multi_header multi_header_fields result }
        ensures moved { OnOk result (cursor.new.place ≡ cursor.old.place + 9) }
        ensures fits { OnOk result (cursor.old.place + 9 < 2 ^ 32) }
    {
        let mut ahead = cursor.copy();
        let kind = ahead.int()?;
        let done = ahead.boolean()?;
        let err = ahead.int()?;
        // A place is a u32: the clause `fits`.
        let _behind = ahead.place();
        *cursor = ahead;
        Ok(MultiHeader { kind, done, err })
    }

    // Without memory some fields may be there.
    #[tactic(auto, using(jute_core::proofs::Glue::glue))]
    fn put(self, into: &mut Vec<u8>) -> Result<(), Memory>
        ensures ok { OnOk result (Adds into.old.items into.new.items multi_header (multi_header_fields self)) }
        ensures err { OnErr result (Grows into.old.items into.new.items) }
    {
        put_int(into, self.kind)?;
        put_bool(into, self.done)?;
        put_int(into, self.err)?;
        Ok(())
    }

    // Done and err have to be as wanted, of a header whose first byte has this place.
    fn judge(self, place: u32, done: bool, err: i32) -> Result<(), Refusal>
        requires { place + 9 < 2 ^ 32 }
        ensures ok { OnOk result ((self.done ≡ done) × (self.err ≡ err)) }
        ensures refused { IfErr result (λ refusal. IsBadMark done err self.done self.err place refusal.place refusal.reason) }
    {
        if self.done != done {
            return Err(Refusal {
                place: place + 4,
                reason: Reason::BadHeader,
            });
        }
        if self.err != err {
            return Err(Refusal {
                place: place + 5,
                reason: Reason::BadHeader,
            });
        }
        Ok(())
    }
}

// The record of an operation.
fn read_op(alloc: Global, kind: OpKind, cursor: &mut Cursor<'_>) -> Result<Op, NotRead>
    ensures kind { IfOk result (λ op. op_kind_of op ≡ kind) }
    ensures ok { IfOk result (λ op. Passes cursor.old cursor.new (op_record (op_kind_of op)) (op_fields op)) }
    ensures refused { IfErr result (Fails cursor.old (op_record kind)) }
{
    match kind {
        OpKind::Create => Ok(Op::Create(CreateRequest::read(alloc, cursor)?)),
        OpKind::Delete => Ok(Op::Delete(DeleteRequest::read(alloc, cursor)?)),
        OpKind::SetContent => Ok(Op::SetContent(SetContentRequest::read(alloc, cursor)?)),
        OpKind::Check => Ok(Op::Check(CheckRequest::read(alloc, cursor)?)),
        OpKind::Create2 => Ok(Op::Create2(CreateRequest::read(alloc, cursor)?)),
    }
}

// The next operation, or none at the end.
fn next_op(alloc: Global, cursor: &mut Cursor<'_>) -> Result<Option<Op>, NotRead>
    ensures some { IfOk result (λ found. IfSome found (λ op. Reaches cursor.old cursor.new (SpellsOp op))) }
    ensures shorter { IfOk result (λ found. IfSome found (λ _. length cursor.new.left < length cursor.old.left)) }
    ensures end { IfOk result (λ found. IfNone found (Reaches cursor.old cursor.new IsEnd)) }
    ensures refused { IfErr result (FailsAt cursor.old RefusedOp) }
{
    let place = cursor.place();
    let header = MultiHeader::read(cursor)?;
    if header.kind == NONE {
        header.judge(place, true, NONE)?;
        return Ok(None);
    }
    let Some(kind) = OpKind::of(header.kind) else {
        return Err(NotRead::Refused(Refusal {
            place,
            reason: Reason::BadType,
        }));
    };
    header.judge(place, false, NONE)?;
    Ok(Some(read_op(alloc, kind, cursor)?))
}

/// The operations of a multi, up to and with the end. Linear in their bytes.
pub(crate) fn read_ops(alloc: Global, cursor: &mut Cursor<'_>) -> Result<Ops, NotRead>
    ensures ok { IfOk result (λ ops. Reaches cursor.old cursor.new (SpellsOps ops)) }
    ensures refused { IfErr result (FailsAt cursor.old RefusedOps) }
{
    let mut ops = Vec::new(alloc);
    while let Some(op) = next_op(alloc, cursor)? {
        ops.push(op)?;
    }
    Ok(Ops::of(ops))
}

// The record of an operation.
fn put_record(op: &Op, into: &mut Vec<u8>) -> Result<(), Memory>
    requires { IsShortOp op.now }
    ensures { Appends into.old.items into.new.items (op_record (op_kind_of op.now)) (op_fields op.now) result }
{
    match op {
        Op::Create(request) => request.write(into),
        Op::Delete(request) => request.write(into),
        Op::SetContent(request) => request.write(into),
        Op::Check(request) => request.write(into),
        Op::Create2(request) => request.write(into),
    }
}

// Without memory a part of it may be there.
#[tactic(auto, using(jute_core::proofs::Glue::glue))]
fn put_op(op: &Op, into: &mut Vec<u8>) -> Result<(), Memory>
    requires { IsShortOp op.now }
    ensures ok { OnOk result (AddsBytes into.old.items into.new.items (SpellsOp op.now)) }
    ensures err { OnErr result (Grows into.old.items into.new.items) }
{
    let header = MultiHeader {
        kind: op.kind().number(),
        done: false,
        err: NONE,
    };
    header.put(into)?;
    put_record(op, into)?;
    Ok(())
}

/// The operations of a multi, and the end. Without memory a part of it may be there.
pub(crate) fn put_ops(ops: &[Op], into: &mut Vec<u8>) -> Result<(), Memory>
    requires { All IsShortOp ops.now }
    ensures ok { OnOk result (AddsBytes into.old.items into.new.items (SpellsOps ops.now)) }
    ensures err { OnErr result (Grows into.old.items into.new.items) }
{
    for op in ops {
        put_op(op, into)?;
    }
    END.put(into)?;
    Ok(())
}

// The code of an error, which stands again behind its header.
fn read_repeat(err: i32, cursor: &mut Cursor<'_>) -> Result<OpResult, NotRead>
    ensures ok { IfOk result (λ r. (r ≡ op_results.Error err) × Passes cursor.old cursor.new int err) }
    ensures refused { IfErr result (FailsAt cursor.old (IsBadRepeat err)) }
{
    let place = cursor.place();
    let code = cursor.int()?;
    if code != err {
        return Err(NotRead::Refused(Refusal {
            place,
            reason: Reason::BadHeader,
        }));
    }
    Ok(OpResult::Error { code })
}

// The path and the Stat of a node that was made.
#[tactic(auto, using(jute_core::proofs::Glue::glue))]
fn read_created2(alloc: Global, cursor: &mut Cursor<'_>) -> Result<OpResult, NotRead>
    ensures ok { IfOk result (IsDone OpKind.Create2 cursor.old cursor.new) }
    ensures refused { IfErr result (Fails cursor.old (pair ustring stat)) }
{
    let path = read_text(alloc, cursor)?;
    let stat = Stat::read(cursor)?;
    Ok(OpResult::Created2 { path, stat })
}

// What belongs to the result of an operation.
fn read_done(alloc: Global, kind: OpKind, cursor: &mut Cursor<'_>) -> Result<OpResult, NotRead>
    ensures ok { IfOk result (IsDone kind cursor.old cursor.new) }
    ensures refused { IfErr result (FailsAt cursor.old (RefusedIfAny (result_record kind))) }
{
    match kind {
        OpKind::Create => Ok(OpResult::Created(read_text(alloc, cursor)?)),
        OpKind::Delete => Ok(OpResult::Deleted),
        OpKind::SetContent => Ok(OpResult::Changed(Stat::read(cursor)?)),
        OpKind::Check => Ok(OpResult::Checked),
        OpKind::Create2 => read_created2(alloc, cursor),
    }
}

// The next result, or none at the end.
fn next_result(alloc: Global, cursor: &mut Cursor<'_>) -> Result<Option<OpResult>, NotRead>
    ensures some { IfOk result (λ found. IfSome found (λ r. Reaches cursor.old cursor.new (SpellsResult r))) }
    ensures shorter { IfOk result (λ found. IfSome found (λ _. length cursor.new.left < length cursor.old.left)) }
    ensures end { IfOk result (λ found. IfNone found (Reaches cursor.old cursor.new IsEnd)) }
    ensures refused { IfErr result (FailsAt cursor.old RefusedResult) }
{
    let place = cursor.place();
    let header = MultiHeader::read(cursor)?;
    if header.kind == NONE {
        if header.done {
            header.judge(place, true, NONE)?;
            return Ok(None);
        }
        return Ok(Some(read_repeat(header.err, cursor)?));
    }
    let Some(kind) = OpKind::of(header.kind) else {
        return Err(NotRead::Refused(Refusal {
            place,
            reason: Reason::BadType,
        }));
    };
    header.judge(place, false, 0)?;
    Ok(Some(read_done(alloc, kind, cursor)?))
}

/// The results of a multi, up to and with the end. Linear in their bytes.
pub(crate) fn read_results(alloc: Global, cursor: &mut Cursor<'_>) -> Result<Results, NotRead>
    ensures ok { IfOk result (λ results. Reaches cursor.old cursor.new (SpellsResults results)) }
    ensures refused { IfErr result (FailsAt cursor.old RefusedResults) }
{
    let mut results = Vec::new(alloc);
    while let Some(result) = next_result(alloc, cursor)? {
        results.push(result)?;
    }
    Ok(Results::of(results))
}

// The header of an operation that was done.
fn put_done(kind: OpKind, into: &mut Vec<u8>) -> Result<(), Memory>
    ensures ok { OnOk result (Adds into.old.items into.new.items multi_header (op_number kind, (false, pos 0))) }
    ensures err { OnErr result (Grows into.old.items into.new.items) }
{
    let header = MultiHeader {
        kind: kind.number(),
        done: false,
        err: 0,
    };
    header.put(into)
}

// An error's header and its code again.
fn put_error(code: i32, into: &mut Vec<u8>) -> Result<(), Memory>
    ensures ok { OnOk result (Adds into.old.items into.new.items (pair multi_header int) ((negsuc 0, (false, code)), code)) }
    ensures err { OnErr result (Grows into.old.items into.new.items) }
{
    let header = MultiHeader {
        kind: NONE,
        done: false,
        err: code,
    };
    header.put(into)?;
    put_int(into, code)?;
    Ok(())
}

// Without memory a part of it may be there.
#[tactic(auto, using(jute_core::proofs::Glue::glue))]
fn put_result(value: &OpResult, into: &mut Vec<u8>) -> Result<(), Memory>
    requires { IsShortResult value.now }
    ensures ok { OnOk result (AddsBytes into.old.items into.new.items (SpellsResult value.now)) }
    ensures err { OnErr result (Grows into.old.items into.new.items) }
{
    match value {
        OpResult::Created(path) => {
            put_done(OpKind::Create, into)?;
            put_ustring(into, path.as_str())?;
        }
        OpResult::Deleted => put_done(OpKind::Delete, into)?,
        OpResult::Changed(stat) => {
            put_done(OpKind::SetContent, into)?;
            stat.write(into)?;
        }
        OpResult::Checked => put_done(OpKind::Check, into)?,
        OpResult::Error { code } => put_error(*code, into)?,
        OpResult::Created2 { path, stat } => {
            put_done(OpKind::Create2, into)?;
            put_ustring(into, path.as_str())?;
            stat.write(into)?;
        }
    }
    Ok(())
}

/// The results of a multi, and the end. Without memory a part of it may be there.
pub(crate) fn put_results(results: &[OpResult], into: &mut Vec<u8>) -> Result<(), Memory>
    requires { All IsShortResult results.now }
    ensures ok { OnOk result (AddsBytes into.old.items into.new.items (SpellsResults results.now)) }
    ensures err { OnErr result (Grows into.old.items into.new.items) }
{
    for value in results {
        put_result(value, into)?;
    }
    END.put(into)?;
    Ok(())
}
