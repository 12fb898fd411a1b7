//! What is read of a node, with the watch that is asked for.

ghost use Rattle.std.specs.Prelude.{◌≡◌, ℕ, ◌∷◌, [], IfOk, OnOk, OnErr};
ghost use Rattle.zk_path.specs.Paths.{IsTextOf};
ghost use Rattle.tree_state.specs.declared.node.Moment.{Moment as At};
ghost use Rattle.tree_state.specs.Commands.{stat_at, get_content, get_acl, get_children, sync};
ghost use Rattle.tree_state.specs.Nodes.{Path};
ghost use Rattle.tree_state.specs.State.{State, on_data, on_children};
ghost use Rattle.tree_state.specs.Changes.{Naming};
ghost use Rattle.tree_state.specs.Step.{answer, with_watch};
ghost use Rattle.tree_state.specs.Trees.{Means, Stays, Quietly, Tells};
ghost use Rattle.zk_messages.specs.Refuses.{open_acl};

use crate::held::Held;
use jute_core::{Memory, Text};
use std::alloc::Global;
use zk_messages::Outcome;
use zk_records::{Acl, Acls, PathWatch};

const NO_NODE: i32 = -101;

impl Held {
    // exists: the watch is kept where there is no node, too.
    pub(crate) fn stat_at(
        &mut self,
        alloc: Global,
        asked: &PathWatch,
        connection: u32,
    ) -> Result<Outcome, Memory>
        ensures { (naming : Naming) (at : At) (s : State) (p : Path) → Means self.old s → IsTextOf asked.now.path p
            → Quietly s (answer naming at connection s (stat_at p asked.now.watch)) self.new result }
    {
        self.watch_content(alloc, asked, connection)?;
        match self.places.find(asked.path.as_str()) {
            Some(node) => Ok(Outcome::Stat(node.stat())),
            None => Ok(Outcome::Error { code: NO_NODE }),
        }
    }

    // getData.
    pub(crate) fn content_at(
        &mut self,
        alloc: Global,
        asked: &PathWatch,
        connection: u32,
    ) -> Result<Outcome, Memory>
        ensures { (naming : Naming) (at : At) (s : State) (p : Path) → Means self.old s → IsTextOf asked.now.path p
            → Quietly s (answer naming at connection s (get_content p asked.now.watch)) self.new result }
    {
        let Some(node) = self.places.find(asked.path.as_str()) else {
            return Ok(Outcome::Error { code: NO_NODE });
        };
        let outcome = Outcome::Content {
            content: node.content(alloc)?,
            stat: node.stat(),
        };
        self.watch_content(alloc, asked, connection)?;
        Ok(outcome)
    }

    // getACL: every node has the open one.
    pub(crate) fn acl_at(&self, alloc: Global, path: &str) -> Result<Outcome, Memory>
        ensures { IfOk result (λ outcome. (naming : Naming) (at : At) (c : ℕ) (s : State) (p : Path) → Means self.now s → IsTextOf path.now p
            → Tells s (answer naming at c s (get_acl p)) outcome) }
    {
        let Some(node) = self.places.find(path) else {
            return Ok(Outcome::Error { code: NO_NODE });
        };
        Ok(Outcome::Acls {
            acls: Some(open_acls(alloc)?),
            stat: node.stat(),
        })
    }

    // getChildren, and with a Stat getChildren2.
    pub(crate) fn children_at(
        &mut self,
        alloc: Global,
        asked: &PathWatch,
        connection: u32,
        with_stat: bool,
    ) -> Result<Outcome, Memory>
        ensures { (naming : Naming) (at : At) (s : State) (p : Path) → Means self.old s → IsTextOf asked.now.path p
            → Quietly s (answer naming at connection s (get_children p asked.now.watch with_stat)) self.new result }
    {
        let Some(node) = self.places.find(asked.path.as_str()) else {
            return Ok(Outcome::Error { code: NO_NODE });
        };
        let children = Some(node.child_names(alloc)?);
        let stat = node.stat();
        self.watch_children(alloc, asked, connection)?;
        if with_stat {
            return Ok(Outcome::Children2 { children, stat });
        }
        Ok(Outcome::Children(children))
    }

    // The content of the path is watched where that is asked for.
    fn watch_content(
        &mut self,
        alloc: Global,
        asked: &PathWatch,
        connection: u32,
    ) -> Result<(), Memory>
        ensures ok { OnOk result ((s : State) (p : Path) → Means self.old s → IsTextOf asked.now.path p
            → Means self.new (with_watch asked.now.watch on_data p connection s)) }
        ensures err { OnErr result (Stays self.old self.new) }
    {
        if asked.watch {
            self.watches
                .watch_content(alloc, asked.path.as_str(), connection)?;
        }
        Ok(())
    }

    // The children of the path are watched where that is asked for.
    fn watch_children(
        &mut self,
        alloc: Global,
        asked: &PathWatch,
        connection: u32,
    ) -> Result<(), Memory>
        ensures ok { OnOk result ((s : State) (p : Path) → Means self.old s → IsTextOf asked.now.path p
            → Means self.new (with_watch asked.now.watch on_children p connection s)) }
        ensures err { OnErr result (Stays self.old self.new) }
    {
        if asked.watch {
            self.watches
                .watch_children(alloc, asked.path.as_str(), connection)?;
        }
        Ok(())
    }
}

// sync.
pub(crate) fn sync_at(alloc: Global, path: &str) -> Result<Outcome, Memory>
    ensures { IfOk result (λ outcome. (naming : Naming) (at : At) (c : ℕ) (s : State) (p : Path) → IsTextOf path.now p
        → Tells s (answer naming at c s (sync p)) outcome) }
{
    Ok(Outcome::Path(Text::copy_of(alloc, path)?))
}

// The open ACL: anyone may do anything.
fn open_acls(alloc: Global) -> Result<Acls, Memory>
    ensures { IfOk result (λ acls. acls ≡ open_acl ∷ []) }
{
    let mut acls = Vec::new(alloc);
    acls.push(Acl {
        perms: 31,
        scheme: Text::copy_of(alloc, "world")?,
        id: Text::copy_of(alloc, "anyone")?,
    })?;
    Ok(Acls::of(acls))
}
