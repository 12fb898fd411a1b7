//! The changes of one node.

ghost use Rattle.std.specs.Prelude.{◌≡◌, ◌≤◌, ◌<◌, ℕ, List, ◌∷◌, length, Bool, false, Ok, Some, IfOk, OnOk, OnErr, Vec};
ghost use Rattle.std.specs.Global.{Global as G};
ghost use Rattle.zk_path.specs.Paths.{IsTextOf};
ghost use Rattle.tree_state.specs.declared.message.Output.{Output as PlainOutput};
ghost use Rattle.tree_state.specs.Commands.{set_acl, create, delete, set_content, check};
ghost use Rattle.tree_state.specs.Nodes.{Path, Node, find, has_children, stat_of, greatest_int};
ghost use Rattle.tree_state.specs.State.{State};
ghost use Rattle.tree_state.specs.Changes.{Naming, perform, name_for, is_other_version, creation_result, deleted};
ghost use Rattle.tree_state.specs.Step.{answer};
ghost use Rattle.tree_state.specs.Places.{text_limit};
ghost use Rattle.tree_state.specs.Trees.{Means, Stays, Quietly, Performs, MayCreate, IsParent, IsMoment, HasRoom, RefusesQuietly};
ghost use Rattle.zk_messages.specs.Short.{IsShortContent};

use crate::held::{Held, NotDone};
use crate::message::Output;
use crate::node::Moment;
use jute_core::{Bytes, Memory, Text};
use std::alloc::Global;
use zk_messages::{OpResult, Outcome};
use zk_records::{SetContentRequest, Stat};

const SYSTEM_ERROR: i32 = -1;

const NO_NODE: i32 = -101;

const BAD_VERSION: i32 = -103;

const NO_CHILDREN_FOR_EPHEMERALS: i32 = -108;

const NODE_EXISTS: i32 = -110;

const NOT_EMPTY: i32 = -111;

// What no count of a node passes.
const LAST: u32 = 2_147_483_647;

impl Held {
    // The checks of create before a name is given: how many children the parent has had, or the code of an error.
    pub(crate) fn may_create(&self, parent: &str) -> Result<u32, i32>
        ensures room { IfOk result (λ creations. creations < greatest_int) }
        ensures checks { (s : State) (p : Path) → Means self.now s → IsTextOf parent.now p → MayCreate s p result }
    {
        let Some(up) = self.places.find(parent) else {
            return Err(NO_NODE);
        };
        if up.numbers.owner != 0 {
            return Err(NO_CHILDREN_FOR_EPHEMERALS);
        }
        if up.numbers.creations >= LAST {
            return Err(SYSTEM_ERROR);
        }
        Ok(up.numbers.creations)
    }

    // The rest of create: makes the node at the path with this text, under a parent that may have it, and tells its Stat, or not.
    pub(crate) fn create(
        &mut self,
        alloc: Global,
        path: &str,
        content: &Option<Bytes>,
        ephemeral: bool,
        stat: bool,
        at: &Moment,
        outputs: &mut Vec<Output>,
    ) -> Result<OpResult, NotDone>
        requires short { IsShortContent content.now }
        requires room { length path.now ≤ text_limit }
        ensures performs { (naming : Naming) (s : State) (p : Path) (n m : List ℕ) (sequential : Bool) (up : Node) → Means self.old s → IsTextOf path.now (m ∷ p)
            → IsMoment s at.now → IsParent s p up → name_for naming p n sequential up ≡ Some m
            → Performs s (perform naming at.now s (create p n content.now sequential ephemeral stat)) self.new outputs.old outputs.new result }
        ensures room { OnOk result (HasRoom outputs.new) }
        ensures kept { OnErr result (Stays self.old self.new) }
        ensures quiet { RefusesQuietly result outputs.old outputs.new }
    {
        if self.places.find(path).is_some() {
            return Err(NotDone::Refused { code: NODE_EXISTS });
        }
        let made = Text::copy_of(alloc, path)?;
        let content = copied(alloc, content)?;
        self.watches.tell_created(alloc, path, outputs)?;
        let own = self.sessions.room_for(alloc, at.session, path, ephemeral)?;
        self.places.add(alloc, path, content, at, ephemeral)?;
        if let Some(text) = own {
            self.sessions.own(at.session, text);
        }
        self.watches.created(path);
        self.last = at.zxid;
        Ok(self.creation(made, stat))
    }

    // What is answered to the creation of a node that is there: its path, with or without its Stat.
    fn creation(&self, path: Text, stat: bool) -> OpResult
        ensures { (s : State) (p : Path) (node : Node) → Means self.now s → IsTextOf path p → find s.nodes p ≡ Some node → result ≡ creation_result stat s.nodes p node }
    {
        if stat {
            let stat = self.changed(path.as_str());
            return OpResult::Created2 { path, stat };
        }
        OpResult::Created(path)
    }

    // delete.
    pub(crate) fn delete(
        &mut self,
        alloc: Global,
        path: &str,
        version: i32,
        at: &Moment,
        outputs: &mut Vec<Output>,
    ) -> Result<OpResult, NotDone>
        ensures performs { (naming : Naming) (s : State) (n : List ℕ) (p : Path) → Means self.old s → IsTextOf path.now (n ∷ p) → IsMoment s at.now
            → Performs s (perform naming at.now s (delete (n ∷ p) version)) self.new outputs.old outputs.new result }
        ensures room { OnOk result (HasRoom outputs.new) }
    {
        let Some(node) = self.places.find(path) else {
            return Err(NotDone::Refused { code: NO_NODE });
        };
        if is_other(version, node.numbers.version) {
            return Err(NotDone::Refused { code: BAD_VERSION });
        }
        if !node.names.is_empty() {
            return Err(NotDone::Refused { code: NOT_EMPTY });
        }
        let owner = node.numbers.owner;
        self.watches.tell_deleted(alloc, path, outputs)?;
        self.take_out(path, owner, at);
        Ok(OpResult::Deleted)
    }

    // Takes out a node without children, from its session's too, and its watches and the child watches of its parent.
    fn take_out(&mut self, path: &str, owner: i64, at: &Moment)
        ensures { (s : State) (n : List ℕ) (p : Path) (node : Node) → Means self.old s → IsTextOf path.now (n ∷ p) → IsMoment s at.now
            → find s.nodes (n ∷ p) ≡ Some node → node.numbers.owner ≡ owner → has_children (n ∷ p) s.nodes ≡ false
            → Means self.new (deleted at.now.zxid (n ∷ p) s).state }
    {
        self.places.remove(path, at);
        self.sessions.disown(owner, path);
        self.watches.deleted(path);
        self.last = at.zxid;
    }

    // setData.
    pub(crate) fn set_content(
        &mut self,
        alloc: Global,
        asked: &SetContentRequest,
        at: &Moment,
        outputs: &mut Vec<Output>,
    ) -> Result<OpResult, NotDone>
        requires short { IsShortContent asked.now.content }
        ensures performs { (naming : Naming) (s : State) (p : Path) → Means self.old s → IsTextOf asked.now.path p → IsMoment s at.now
            → Performs s (perform naming at.now s (set_content p asked.now.content asked.now.version)) self.new outputs.old outputs.new result }
        ensures room { OnOk result (HasRoom outputs.new) }
    {
        let path = asked.path.as_str();
        let Some(node) = self.places.find(path) else {
            return Err(NotDone::Refused { code: NO_NODE });
        };
        if is_other(asked.version, node.numbers.version) {
            return Err(NotDone::Refused { code: BAD_VERSION });
        }
        if node.numbers.version >= LAST {
            return Err(NotDone::Refused { code: SYSTEM_ERROR });
        }
        let content = copied(alloc, &asked.content)?;
        self.watches.tell_changed(alloc, path, outputs)?;
        self.places.set_content(path, content, at);
        self.watches.changed(path);
        self.last = at.zxid;
        Ok(OpResult::Changed(self.changed(path)))
    }

    // check: the node is there, in this version. Takes no memory.
    pub(crate) fn check(
        &mut self,
        path: &str,
        version: i32,
        at: &Moment,
    ) -> Result<OpResult, NotDone>
        ensures { (naming : Naming) (s : State) (p : Path) (outputs : Vec PlainOutput G) → Means self.old s → IsTextOf path.now p
            → Performs s (perform naming at.now s (check p version)) self.new outputs outputs result }
    {
        let Some(node) = self.places.find(path) else {
            return Err(NotDone::Refused { code: NO_NODE });
        };
        if is_other(version, node.numbers.version) {
            return Err(NotDone::Refused { code: BAD_VERSION });
        }
        self.last = at.zxid;
        Ok(OpResult::Checked)
    }

    // The Stat of a node that is there.
    fn changed(&self, path: &str) -> Stat
        ensures { (s : State) (p : Path) (node : Node) → Means self.now s → IsTextOf path.now p → find s.nodes p ≡ Some node → result ≡ stat_of s.nodes p node }
    {
        match self.places.find(path) {
            Some(node) => node.stat(),
            None => no_stat(),
        }
    }

    // setACL. Takes no memory.
    pub(crate) fn set_acl(&mut self, path: &str, version: i32, at: &Moment) -> Outcome
        ensures { (naming : Naming) (c : ℕ) (s : State) (p : Path) → Means self.old s → IsTextOf path.now p → IsMoment s at.now
            → Quietly s (answer naming at.now c s (set_acl p version)) self.new (Ok result) }
    {
        let Some(node) = self.places.find(path) else {
            return Outcome::Error { code: NO_NODE };
        };
        if is_other(version, node.numbers.aversion) {
            return Outcome::Error { code: BAD_VERSION };
        }
        if node.numbers.aversion >= LAST {
            return Outcome::Error { code: SYSTEM_ERROR };
        }
        self.places.set_acl(path);
        self.last = at.zxid;
        Outcome::Stat(self.changed(path))
    }
}

// A copy of a content.
fn copied(alloc: Global, content: &Option<Bytes>) -> Result<Option<Bytes>, Memory>
    ensures { IfOk result (λ c. c ≡ content.now) }
{
    match content {
        Some(bytes) => Ok(Some(Bytes::copy_of(alloc, bytes.as_slice())?)),
        None => Ok(None),
    }
}

// Whether another version is asked for; -1 asks for any.
fn is_other(asked: i32, version: u32) -> bool
    ensures { result ≡ is_other_version asked version }
{
    asked != -1 && i64::from(asked) != i64::from(version)
}

// A Stat of nothing.
fn no_stat() -> Stat {
    Stat {
        czxid: 0,
        mzxid: 0,
        ctime: 0,
        mtime: 0,
        version: 0,
        cversion: 0,
        aversion: 0,
        owner: 0,
        length: 0,
        children: 0,
        pzxid: 0,
    }
}
