//! Several changes as one.

ghost use Rattle.std.specs.Prelude.{◌≡◌, ◌↔◌, ◌+◌, ◌++◌, ℕ, suc, List, [], ◌∷◌, length, None, map, replicate, All, IfOk, IfErr, OnOk};
ghost use Rattle.std.specs.List.{AllZip};
ghost use Rattle.zk_messages.specs.Refuses.{RefusesOp};
ghost use Rattle.zk_messages.specs.declared.reply.OpResult.TheVariants.{Error};
ghost use Rattle.tree_state.specs.Commands.{Change, IsChange};
ghost use Rattle.tree_state.specs.State.{State};
ghost use Rattle.tree_state.specs.Changes.{Naming, perform, perform_all};
ghost use Rattle.tree_state.specs.Multis.{stop_of, PerformsNext};
ghost use Rattle.tree_state.specs.declared.multi.Stop.TheVariants.{Memory as NoMemory};
ghost use Rattle.tree_state.specs.Trees.{Means, Stays, Performs, PerformsAll, IsMoment, IsNaming, failed_codes};
ghost use Rattle.zk_messages.specs.Short.{HasShortOpParts};

use crate::held::{Held, NotDone};
use crate::message::Output;
use crate::node::Moment;
use jute_core::Memory;
use std::alloc::Global;
use zk_messages::{Op, OpResult, Results};
use zk_path::Numberer;

const RUNTIME_INCONSISTENCY: i32 = -2;

/// Why the changes of a multi were not done.
#[derive(Clone, Copy, Debug, Drop, PartialEq, Eq)]
pub enum Stop {
    /// The change at this index was refused; with the code of the error.
    At { index: usize, code: i32 },
    /// There was no memory.
    Memory,
}

impl Held {
    // One change of a multi, by its row.
    pub(crate) fn perform<N: Numberer>(
        &mut self,
        alloc: Global,
        numberer: &mut N,
        op: &Op,
        at: &Moment,
        outputs: &mut Vec<Output>,
    ) -> Result<OpResult, NotDone>
        requires short { HasShortOpParts op.now }
        ensures performs { (naming : Naming) (s : State) (change : Change) → Means self.old s → IsMoment s at.now
            → IsNaming (N.named numberer.old) naming → RefusesOp op.now None → IsChange op.now change
            → Performs s (perform naming at.now s change) self.new outputs.old outputs.new result }
        ensures names { (stem : List ℕ) (number : ℕ) (text : List ℕ) → N.named numberer.new stem number text ↔ N.named numberer.old stem number text }
    {
        match op {
            Op::Create(asked) => self.make(alloc, numberer, asked, false, at, outputs),
            Op::Create2(asked) => self.make(alloc, numberer, asked, true, at, outputs),
            Op::Delete(asked) => self.delete(
                alloc,
                asked.path.as_str(),
                asked.version,
                at,
                outputs,
            ),
            Op::SetContent(asked) => self.set_content(alloc, asked, at, outputs),
            Op::Check(asked) => self.check(asked.path.as_str(), asked.version, at),
        }
    }

    // All of them, one after another, up to the first that is refused.
    pub(crate) fn perform_all<N: Numberer>(
        &mut self,
        alloc: Global,
        numberer: &mut N,
        ops: &[Op],
        at: &Moment,
        outputs: &mut Vec<Output>,
    ) -> Result<Vec<OpResult>, Stop>
        requires short { All HasShortOpParts ops.now }
        ensures performs { (naming : Naming) (s : State) (changes : List Change) → Means self.old s → IsMoment s at.now
            → IsNaming (N.named numberer.old) naming → All (λ op. RefusesOp op None) ops.now → AllZip IsChange ops.now changes
            → PerformsAll (length ops.now) (perform_all naming at.now s changes) self.new outputs.old outputs.new result }
        ensures names { (stem : List ℕ) (number : ℕ) (text : List ℕ) → N.named numberer.new stem number text ↔ N.named numberer.old stem number text }
    {
        let mut results = Vec::new(alloc);
        for op in ops {
            self.perform_next(alloc, numberer, op, at, outputs, &mut results)?;
        }
        self.last = at.zxid;
        Ok(results)
    }

    // The next of them; its result goes behind those of the others.
    fn perform_next<N: Numberer>(
        &mut self,
        alloc: Global,
        numberer: &mut N,
        op: &Op,
        at: &Moment,
        outputs: &mut Vec<Output>,
        results: &mut Vec<OpResult>,
    ) -> Result<(), Stop>
        requires short { HasShortOpParts op.now }
        ensures performs { (naming : Naming) (s : State) (change : Change) → Means self.old s → IsMoment s at.now
            → IsNaming (N.named numberer.old) naming → RefusesOp op.now None → IsChange op.now change
            → PerformsNext s (perform naming at.now s change) self.new outputs.old outputs.new results.old.items results.new.items result }
        ensures names { (stem : List ℕ) (number : ℕ) (text : List ℕ) → N.named numberer.new stem number text ↔ N.named numberer.old stem number text }
    {
        match self.perform(alloc, numberer, op, at, outputs) {
            Ok(done) => push_result(results, done),
            Err(stop) => Err(stop_at(stop, results.len())),
        }
    }

    // A copy. The cost is linear in all that is held.
    pub(crate) fn copy(&self, alloc: Global) -> Result<Held, Memory>
        ensures { IfOk result (λ held. Stays self.now held) }
    {
        Ok(Held {
            places: self.places.copy(alloc)?,
            sessions: self.sessions.copy(alloc)?,
            watches: self.watches.copy()?,
            last: self.last,
        })
    }
}

// The results of a multi of which a change was refused: no error before it, its code, and then that they were not tried.
pub(crate) fn failed_results(
    alloc: Global,
    index: usize,
    code: i32,
    total: usize,
) -> Result<Results, Memory>
    ensures { IfOk result (λ results. (behind : ℕ) → total ≡ index + suc behind → results ≡ map Error (failed_codes index code behind)) }
{
    let mut results = Vec::new(alloc);
    push_codes(&mut results, 0, index)?;
    results.push(OpResult::Error { code })?;
    let behind = total.saturating_sub(index).saturating_sub(1);
    push_codes(&mut results, RUNTIME_INCONSISTENCY, behind)?;
    Ok(Results::of(results))
}

// Pushes this code so many times.
fn push_codes(results: &mut Vec<OpResult>, code: i32, count: usize) -> Result<(), Memory>
    ensures { OnOk result (results.new.items ≡ results.old.items ++ replicate count (Error code)) }
{
    for _ in 0..count {
        results.push(OpResult::Error { code })?;
    }
    Ok(())
}

// Pushes a result.
fn push_result(results: &mut Vec<OpResult>, done: OpResult) -> Result<(), Stop>
    ensures pushed { OnOk result (results.new.items ≡ results.old.items ++ done ∷ []) }
    ensures memory { IfErr result (λ stop. stop ≡ NoMemory) }
{
    match results.push(done) {
        Ok(()) => Ok(()),
        Err(_) => Err(Stop::Memory),
    }
}

// Why all changes were not done, where the one at this index was not.
#[tactic(auto, unfolding(crate::specs::Multis::stop_of))]
fn stop_at(stop: NotDone, index: usize) -> Stop
    ensures { result ≡ stop_of stop index }
{
    match stop {
        NotDone::Refused { code } => Stop::At { index, code },
        NotDone::Memory => Stop::Memory,
    }
}
