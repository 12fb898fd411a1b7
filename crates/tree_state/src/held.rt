//! What a tree holds, and the rows of the machine over it but those of create, create2 and multi.

ghost use Rattle.std.specs.Prelude.{◌≡◌, ◌≤◌, ℕ, ℤ, Err, Some, None, IfOk, OnOk, OnErr, Vec};
ghost use Rattle.std.specs.Global.{Global as G};
ghost use Rattle.tree_state.specs.Commands.{Command, Asks};
ghost use Rattle.tree_state.specs.Nodes.{greatest_int};
ghost use Rattle.tree_state.specs.State.{State, Session as PlainSession, session_at, start_at};
ghost use Rattle.tree_state.specs.Changes.{Naming, Trial, Effect};
ghost use Rattle.tree_state.specs.Step.{answer, answer_single, outcome_of};
ghost use Rattle.tree_state.specs.declared.held.Held.{Held as PlainHeld};
ghost use Rattle.tree_state.specs.declared.message.Output.{Output as PlainOutput};
ghost use Rattle.tree_state.specs.Trees.{Means, Answers, LeavesRoom, RefusesQuietly, Performs, IsMoment, HasRoom, IsOther};
ghost use Rattle.zk_messages.specs.Short.{HasShortParts};
ghost use Rattle.zk_messages.specs.Refuses.{Refuses};

use crate::message::Output;
use crate::node::Moment;
use crate::places::Places;
use crate::reading::sync_at;
use crate::session::Sessions;
use crate::watches::Watches;
use jute_core::Memory;
use std::alloc::Global;
use zk_messages::{OpResult, Outcome, Request};

/// Why a change was not done.
#[derive(Clone, Copy, Debug, Drop, PartialEq, Eq)]
pub enum NotDone {
    /// By the rules; with the code of the error.
    Refused { code: i32 },
    /// There was no memory.
    Memory,
}

impl From<Memory> for NotDone {
    ghost use Rattle.tree_state.specs.declared.held.NotDone.TheVariants.{Memory as NoMemory};

    ghost from_gives = { λ _ e. e ≡ NoMemory };

    fn from(_e: Memory) -> NotDone {
        NotDone::Memory
    }
}

const UNIMPLEMENTED: i32 = -6;

/// The nodes, the sessions, the watches and the last zxid.
#[derive(Drop)]
pub struct Held {
    pub places: Places,
    pub sessions: Sessions,
    pub watches: Watches,
    pub last: i64,
}

impl Held {
    // The root alone, without sessions.
    pub(crate) fn starting_at(alloc: Global, creations: u32) -> Result<Held, Memory>
        requires { creations ≤ greatest_int }
        ensures { IfOk result (λ held. Means held (start_at creations)) }
    {
        Ok(Held {
            places: Places::new(alloc, creations)?,
            sessions: Sessions::new(alloc),
            watches: Watches::new(alloc),
            last: 0,
        })
    }

    // The row of a request that is not refused, and is neither create, create2 nor multi.
    pub(crate) fn serve(
        &mut self,
        alloc: Global,
        at: &Moment,
        connection: u32,
        request: &Request,
        outputs: &mut Vec<Output>,
    ) -> Result<Outcome, Memory>
        requires short { HasShortParts request.now }
        ensures { (naming : Naming) (s : State) (x : PlainSession) (command : Command) → Means self.old s → IsMoment s at.now → session_at at.now.session s.sessions ≡ Some x
            → x.connection ≡ Some connection → HasRoom outputs.old → IsOther request.now → Refuses request.now None → Asks request.now command
            → Answers s (answer naming at.now connection s command) self.new outputs.old outputs.new result }
    {
        match request {
            Request::Exists(asked) => self.stat_at(alloc, asked, connection),
            Request::GetContent(asked) => self.content_at(alloc, asked, connection),
            Request::GetAcl(asked) => self.acl_at(alloc, asked.path.as_str()),
            Request::GetChildren(asked) => self.children_at(alloc, asked, connection, false),
            Request::GetChildren2(asked) => self.children_at(alloc, asked, connection, true),
            Request::Sync(asked) => sync_at(alloc, asked.path.as_str()),
            Request::SetAcl(asked) => Ok(self.set_acl(asked.path.as_str(), asked.version, at)),
            Request::Delete(asked) => alone(self.delete(
                alloc,
                asked.path.as_str(),
                asked.version,
                at,
                outputs,
            )),
            Request::SetContent(asked) => alone(self.set_content(alloc, asked, at, outputs)),
            Request::SetWatches(asked) => self.set_watches(alloc, asked, connection, outputs),
            Request::Ping => Ok(Outcome::Empty),
            Request::Close => {
                self.end_session(alloc, at, outputs)?;
                Ok(Outcome::Empty)
            }
            Request::Create(_)
            | Request::Create2(_)
            | Request::Multi(_)
            | Request::Auth(_)
            | Request::Unknown { .. } => Ok(Outcome::Error {
                code: UNIMPLEMENTED,
            }),
        }
    }
}

// The outcome of a change that is asked for alone.
pub(crate) fn alone(change: Result<OpResult, NotDone>) -> Result<Outcome, Memory>
    ensures answers { (s : State) (t : Trial ℤ Effect) (held : PlainHeld) (before sent : Vec PlainOutput G) → HasRoom before → OnOk change (HasRoom sent)
        → Performs s t held before sent change → Answers s (answer_single s t) held before sent result }
    ensures kept { (s : State) (held : PlainHeld) (before sent : Vec PlainOutput G) → HasRoom before → OnOk change (HasRoom sent) → OnErr change (Means held s)
        → RefusesQuietly change before sent → LeavesRoom s held sent result }
{
    match change {
        Ok(result) => Ok(outcome(result)),
        Err(stop) => stopped(stop),
    }
}

// The outcome of a change that was not done.
fn stopped(stop: NotDone) -> Result<Outcome, Memory>
    ensures answers { (s : State) (t : Trial ℤ Effect) (held : PlainHeld) (before sent : Vec PlainOutput G) → HasRoom before
        → Performs s t held before sent (Err stop) → Answers s (answer_single s t) held before sent result }
    ensures kept { (s : State) (held : PlainHeld) (before sent : Vec PlainOutput G) → HasRoom before → Means held s → RefusesQuietly (Err stop) before sent
        → LeavesRoom s held sent result }
{
    match stop {
        NotDone::Refused { code } => Ok(Outcome::Error { code }),
        NotDone::Memory => Err(Memory),
    }
}

// The outcome of a change that was done.
#[tactic(auto, unfolding(crate::specs::Step::outcome_of))]
fn outcome(done: OpResult) -> Outcome
    ensures { result ≡ outcome_of done }
{
    match done {
        OpResult::Created(path) => Outcome::Path(path),
        OpResult::Created2 { path, stat } => Outcome::Created2 { path, stat },
        OpResult::Deleted | OpResult::Checked => Outcome::Empty,
        OpResult::Changed(stat) => Outcome::Stat(stat),
        OpResult::Error { code } => Outcome::Error { code },
    }
}
