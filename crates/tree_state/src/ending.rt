//! How connections are lost, and sessions end.

ghost use Rattle.std.specs.Prelude.{◌≡◌, ◌<ℤ◌, ◌≤ℤ◌, ◌-◌, ◌^◌, ◌++◌, ℤ, pos, [], Some, IfOk, OnOk, OnErr};
ghost use Rattle.tree_state.specs.Nodes.{ephemerals};
ghost use Rattle.tree_state.specs.State.{State, Session as PlainSession, session_at};
ghost use Rattle.tree_state.specs.Changes.{Naming, all_deleted};
ghost use Rattle.tree_state.specs.Step.{ended, expires, loses};
ghost use Rattle.tree_state.specs.Trees.{Means, Does, IsMoment, HasRoom};

use crate::events::make_room;
use crate::held::Held;
use crate::message::{Output, Outputs};
use crate::node::Moment;
use crate::texts::parts;
use jute_core::Memory;
use std::alloc::Global;
use std::collections::BTreeSet;

impl Held {
    // The loss of a connection. Takes no memory.
    pub(crate) fn lose(&mut self, connection: u32)
        ensures { (naming : Naming) (s : State) → Means self.old s → Does naming s (loses connection) self.new [] }
    {
        self.sessions.lose(connection);
        self.watches.lose(connection);
    }

    // The end of a session that was not heard in time. Without memory all is as it was.
    pub(crate) fn expire(
        &mut self,
        alloc: Global,
        now: i64,
        session: i64,
    ) -> Result<Outputs, Memory>
        requires last { self.old.last <ℤ pos (2 ^ 63 - 1) }
        ensures step { IfOk result (λ outputs. (naming : Naming) (s : State) (x : PlainSession) → Means self.old s → session_at session s.sessions ≡ Some x
            → Does naming s (expires session now) self.new outputs) }
        ensures memory { OnErr result (self.new ≡ self.old) }
    {
        let at = Moment {
            zxid: self.last + 1,
            time: now,
            session,
        };
        let mut outputs = Vec::new(alloc);
        self.end_session(alloc, &at, &mut outputs)?;
        Ok(Outputs::of(outputs))
    }

    // The session's ephemerals go in the order in which they were made, and then the session, its connection and the watches of
    // that. Room for a reply is made. The cost is that of its ephemerals and of their watches alone. Without memory all is as it
    // was.
    pub(crate) fn end_session(
        &mut self,
        alloc: Global,
        at: &Moment,
        outputs: &mut Vec<Output>,
    ) -> Result<(), Memory>
        ensures ended { OnOk result ((s : State) (x : PlainSession) → Means self.old s → IsMoment s at.now → session_at at.now.session s.sessions ≡ Some x
            → Means self.new (ended at.now.session (all_deleted at.now.zxid (ephemerals at.now.session s.nodes) s).state)) }
        ensures events { OnOk result ((s : State) (x : PlainSession) → Means self.old s → IsMoment s at.now → session_at at.now.session s.sessions ≡ Some x
            → outputs.new.items ≡ outputs.old.items ++ (all_deleted at.now.zxid (ephemerals at.now.session s.nodes) s).events) }
        ensures room { OnOk result (HasRoom outputs.new) }
        ensures memory { OnErr result (self.new ≡ self.old) }
    {
        self.tell_end(alloc, at.session, outputs)?;
        make_room(outputs)?;
        let connection = self.sessions.connection_of(at.session);
        let gone = self.sessions.end(alloc, at.session);
        for path in &gone {
            self.places.remove(path, at);
            self.watches.deleted(path);
        }
        if let Some(connection) = connection {
            self.watches.lose(connection);
        }
        self.last = at.zxid;
        Ok(())
    }

    // What is told when the ephemerals of a session go. Child watches of a parent are told once.
    fn tell_end(&self, alloc: Global, session: i64, outputs: &mut Vec<Output>) -> Result<(), Memory>
        ensures { OnOk result ((s : State) (x : PlainSession) (z : ℤ) → Means self.now s → pos 1 ≤ℤ session → session_at session s.sessions ≡ Some x
            → outputs.new.items ≡ outputs.old.items ++ (all_deleted z (ephemerals session s.nodes) s).events) }
    {
        let mut parents = BTreeSet::new(alloc);
        for path in self.sessions.ephemerals(session) {
            self.watches.tell_end(alloc, path, outputs)?;
            let (parent, _) = parts(path);
            if parents.insert(parent)? {
                self.watches.tell_parent(alloc, parent, outputs)?;
            }
        }
        Ok(())
    }
}
