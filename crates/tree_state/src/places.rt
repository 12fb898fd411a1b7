//! The nodes, in one map that is ordered by the texts of their paths.

ghost use Rattle.std.specs.Prelude.{◌≡◌, ℕ, List, ◌∷◌, ◌<◌, ◌≤◌, length, true, false, Some, IfOk, OnOk, OnErr};
ghost use Rattle.std.specs.Option.{option_copied};
ghost use Rattle.zk_path.specs.Paths.{IsTextOf};
ghost use Rattle.tree_state.specs.Nodes.{Path, Node as PlainNode, Place, find, is_there, add, remove, change, has_children, size_of, greatest_int};
ghost use Rattle.tree_state.specs.State.{start_at};
ghost use Rattle.tree_state.specs.Changes.{fresh_numbers, with_creation, with_deletion, with_content, with_acl};
ghost use Rattle.tree_state.specs.Places.{Holds, IsFound, content_limit, text_limit};
ghost use Rattle.tree_state.specs.Counts.{IsCountedIn, IsCountedOut};

use crate::node::{Moment, Node, Numbers, fresh, root};
use crate::texts::parts;
use jute_core::{Bytes, Memory};
use std::alloc::Global;
use std::collections::{BTreeMap, BTreeSet};

/// The nodes by the texts of their paths. A node is found in time that grows with the logarithm of their number.
#[derive(Drop)]
pub struct Places {
    pub nodes: BTreeMap<String, Node>,
}

impl Places {
    /// The root alone, which has had so many creations.
    pub(crate) fn new(alloc: Global, creations: u32) -> Result<Places, Memory>
        requires { creations ≤ greatest_int }
        ensures { IfOk result (λ t. Holds t (start_at creations).nodes) }
    {
        let mut nodes = BTreeMap::new(alloc);
        nodes.insert("/".to_string(alloc)?, root(alloc, creations))?;
        Ok(Places { nodes })
    }

    /// A copy. The cost is linear in what is held, but for a logarithm of the number of nodes.
    pub(crate) fn copy(&self, alloc: Global) -> Result<Places, Memory>
        ensures { IfOk result (λ t. (es : List Place) → Holds self.now es → Holds t es) }
    {
        let mut nodes = BTreeMap::new(alloc);
        for (path, node) in &self.nodes {
            nodes.insert(path.to_string(alloc)?, node.copy(alloc)?)?;
        }
        Ok(Places { nodes })
    }

    /// The node at the path with this text.
    pub(crate) fn find(&self, path: &str) -> Option<&Node>
        ensures { (es : List Place) (p : Path) → Holds self.now es → IsTextOf path.now p → IsFound es p (option_copied result) }
    {
        self.nodes.get(path)
    }

    /// Puts a node where none is, under a parent that is there. A node that is there stays. Without memory all is as it was.
    pub(crate) fn add(
        &mut self,
        alloc: Global,
        path: &str,
        content: Option<Bytes>,
        at: &Moment,
        ephemeral: bool,
    ) -> Result<(), Memory>
        ensures ok { OnOk result ((es : List Place) (n : List ℕ) (p : Path) (up : PlainNode) → Holds self.old es → IsTextOf path.now (n ∷ p)
            → is_there es (n ∷ p) ≡ false → find es p ≡ Some up → up.numbers.creations < greatest_int → size_of content ≤ content_limit → length path.now ≤ text_limit
            → Holds self.new (add (n ∷ p) (record { content = content; numbers = fresh_numbers at.now ephemeral }) (change p (with_creation at.now.zxid) es))) }
        ensures err { OnErr result ((es : List Place) → Holds self.old es → Holds self.new es) }
    {
        if self.nodes.contains_key(path) {
            return Ok(());
        }
        let (parent, name) = parts(path);
        let key = path.to_string(alloc)?;
        let name = name.to_string(alloc)?;
        let node = Node {
            content,
            numbers: fresh(at, ephemeral),
            names: BTreeSet::new(alloc),
        };
        self.nodes.insert(key, node)?;
        if let Err(memory) = self.count_creation(parent, name, at) {
            self.nodes.remove(path);
            return Err(memory);
        }
        Ok(())
    }

    // One more child of the parent. Without memory all is as it was.
    fn count_creation(&mut self, parent: &str, name: String, at: &Moment) -> Result<(), Memory>
        ensures ok { OnOk result (IsCountedIn parent.now name at.now.zxid self.old.nodes.entries self.new.nodes.entries) }
        ensures err { OnErr result (self.new.nodes.entries ≡ self.old.nodes.entries) }
    {
        match self.nodes.get_mut(parent) {
            Some(up) => {
                up.names.insert(name)?;
                up.numbers = Numbers {
                    creations: up.numbers.creations.saturating_add(1),
                    pzxid: at.zxid,
                    ..up.numbers
                };
                Ok(())
            }
            None => Ok(()),
        }
    }

    /// Takes out the node at the path with this text, which has no children. Takes no memory.
    pub(crate) fn remove(&mut self, path: &str, at: &Moment)
        ensures { (es : List Place) (n : List ℕ) (p : Path) → Holds self.old es → IsTextOf path.now (n ∷ p)
            → is_there es (n ∷ p) ≡ true → has_children (n ∷ p) es ≡ false
            → Holds self.new (remove (n ∷ p) (change p (with_deletion at.now.zxid) es)) }
    {
        let (parent, name) = parts(path);
        self.nodes.remove(path);
        self.count_deletion(parent, name, at);
    }

    // One child less of the parent. Takes no memory.
    fn count_deletion(&mut self, parent: &str, name: &str, at: &Moment)
        ensures { IsCountedOut parent.now name.now at.now.zxid self.old.nodes.entries self.new.nodes.entries }
    {
        match self.nodes.get_mut(parent) {
            Some(up) => {
                up.names.remove(name);
                up.numbers = Numbers {
                    deletions: up.numbers.deletions.saturating_add(1),
                    pzxid: at.zxid,
                    ..up.numbers
                };
            }
            None => {}
        }
    }

    /// Changes the content of the node at the path with this text. Takes no memory.
    pub(crate) fn set_content(&mut self, path: &str, content: Option<Bytes>, at: &Moment)
        ensures { (es : List Place) (p : Path) (node : PlainNode) → Holds self.old es → IsTextOf path.now p
            → find es p ≡ Some node → node.numbers.version < greatest_int → size_of content ≤ content_limit
            → Holds self.new (change p (with_content at.now content) es) }
    {
        if let Some(node) = self.nodes.get_mut(path) {
            node.set_content(content, at);
        }
    }

    /// Counts a change of the ACL of the node at the path with this text. Takes no memory.
    pub(crate) fn set_acl(&mut self, path: &str)
        ensures { (es : List Place) (p : Path) (node : PlainNode) → Holds self.old es → IsTextOf path.now p
            → find es p ≡ Some node → node.numbers.aversion < greatest_int
            → Holds self.new (change p with_acl es) }
    {
        if let Some(node) = self.nodes.get_mut(path) {
            node.count_acl();
        }
    }
}
