//! All watches, and what they are told.

ghost use Rattle.std.specs.Prelude.{◌≡◌, ◌++◌, ℕ, pos, List, [], ◌∷◌, not, OnOk, OnErr, IfOk};
ghost use Rattle.std.specs.List.{list_any};
ghost use Rattle.zk_path.specs.Paths.{IsTextOf};
ghost use Rattle.tree_state.specs.Changes.{events_to, creation_events, left_by_creation, end_events, deletion_events, left_by_deletion, content_events};
ghost use Rattle.tree_state.specs.Nodes.{Path};
ghost use Rattle.tree_state.specs.State.{Watch, on_data, on_children, told, left, left_of_others, watching, is_same_watch};
ghost use Rattle.tree_state.specs.Trees.{HasRoom};
ghost use Rattle.tree_state.specs.Watches.{Watching, unwatching};

use crate::events::{EventKind, make_room, tell, tell_others};
use crate::message::Output;
use crate::texts::parts;
use crate::watchers::Watchers;
use jute_core::Memory;
use std::alloc::Global;

/// The watches of contents, which are those of the existence of a node too, and the watches of children.
#[derive(Drop)]
pub struct Watches {
    pub contents: Watchers,
    pub children: Watchers,
}

impl Watches {
    /// No watch. Takes no memory.
    pub(crate) fn new(alloc: Global) -> Watches
        ensures { Watching result [] }
    {
        Watches {
            contents: Watchers::new(alloc),
            children: Watchers::new(alloc),
        }
    }

    /// A copy. The cost is linear in what is kept.
    pub(crate) fn copy(&self) -> Result<Watches, Memory>
        ensures { IfOk result (λ t. (ws : List Watch) → Watching self.now ws → Watching t ws) }
    {
        Ok(Watches {
            contents: self.contents.copy()?,
            children: self.children.copy()?,
        })
    }

    /// A connection watches the content of a path. The answer says whether it did not before. Without memory all is as it was.
    pub(crate) fn watch_content(
        &mut self,
        alloc: Global,
        path: &str,
        connection: u32,
    ) -> Result<bool, Memory>
        ensures ok { OnOk result ((ws : List Watch) (p : Path) → Watching self.old ws → IsTextOf path.now p
            → Watching self.new (watching (record { aspect = on_data; path = p; connection = connection }) ws)) }
        ensures new { IfOk result (λ new. (ws : List Watch) (p : Path) → Watching self.old ws → IsTextOf path.now p
            → new ≡ not (list_any (is_same_watch (record { aspect = on_data; path = p; connection = connection })) ws)) }
        ensures err { OnErr result ((ws : List Watch) → Watching self.old ws → Watching self.new ws) }
    {
        self.contents.add(alloc, path, connection)
    }

    /// A connection watches the children of a path. The answer says whether it did not before. Without memory all is as it was.
    pub(crate) fn watch_children(
        &mut self,
        alloc: Global,
        path: &str,
        connection: u32,
    ) -> Result<bool, Memory>
        ensures ok { OnOk result ((ws : List Watch) (p : Path) → Watching self.old ws → IsTextOf path.now p
            → Watching self.new (watching (record { aspect = on_children; path = p; connection = connection }) ws)) }
        ensures new { IfOk result (λ new. (ws : List Watch) (p : Path) → Watching self.old ws → IsTextOf path.now p
            → new ≡ not (list_any (is_same_watch (record { aspect = on_children; path = p; connection = connection })) ws)) }
        ensures err { OnErr result ((ws : List Watch) → Watching self.old ws → Watching self.new ws) }
    {
        self.children.add(alloc, path, connection)
    }

    /// A connection does not watch the content of a path. Takes no memory.
    pub(crate) fn forget_content(&mut self, path: &str, connection: u32)
        ensures { (ws : List Watch) (p : Path) → Watching self.old ws → IsTextOf path.now p
            → Watching self.new (unwatching (record { aspect = on_data; path = p; connection = connection }) ws) }
    {
        self.contents.remove(path, connection);
    }

    /// A connection does not watch the children of a path. Takes no memory.
    pub(crate) fn forget_children(&mut self, path: &str, connection: u32)
        ensures { (ws : List Watch) (p : Path) → Watching self.old ws → IsTextOf path.now p
            → Watching self.new (unwatching (record { aspect = on_children; path = p; connection = connection }) ws) }
    {
        self.children.remove(path, connection);
    }

    /// The watches of a connection go. Takes no memory.
    pub(crate) fn lose(&mut self, connection: u32)
        ensures { (ws : List Watch) → Watching self.old ws → Watching self.new (left_of_others connection ws) }
    {
        self.contents.lose(connection);
        self.children.lose(connection);
    }

    /// Tells of a creation, and makes room for a reply.
    pub(crate) fn tell_created(
        &self,
        alloc: Global,
        path: &str,
        outputs: &mut Vec<Output>,
    ) -> Result<(), Memory>
        ensures events { OnOk result ((ws : List Watch) (p : Path) (n : List ℕ) → Watching self.now ws → IsTextOf path.now (n ∷ p)
            → outputs.new.items ≡ outputs.old.items ++ creation_events p n ws) }
        ensures room { OnOk result (HasRoom outputs.new) }
    {
        let (parent, _) = parts(path);
        let watchers = self.contents.of(path);
        tell(outputs, alloc, EventKind::Created, path, watchers)?;
        self.tell_parent(alloc, parent, outputs)?;
        make_room(outputs)?;
        Ok(())
    }

    /// The watches that a creation tells go. Takes no memory.
    pub(crate) fn created(&mut self, path: &str)
        ensures { (ws : List Watch) (p : Path) (n : List ℕ) → Watching self.old ws → IsTextOf path.now (n ∷ p) → Watching self.new (left_by_creation p n ws) }
    {
        let (parent, _) = parts(path);
        self.contents.fire(path);
        self.children.fire(parent);
    }

    /// Tells of a deletion, and makes room for a reply.
    pub(crate) fn tell_deleted(
        &self,
        alloc: Global,
        path: &str,
        outputs: &mut Vec<Output>,
    ) -> Result<(), Memory>
        ensures events { OnOk result ((ws : List Watch) (p : Path) (n : List ℕ) → Watching self.now ws → IsTextOf path.now (n ∷ p)
            → outputs.new.items ≡ outputs.old.items ++ deletion_events (n ∷ p) ws) }
        ensures room { OnOk result (HasRoom outputs.new) }
    {
        let (parent, _) = parts(path);
        self.tell_end(alloc, path, outputs)?;
        self.tell_parent(alloc, parent, outputs)?;
        make_room(outputs)?;
        Ok(())
    }

    /// Tells the watches of a node of its end.
    pub(crate) fn tell_end(
        &self,
        alloc: Global,
        path: &str,
        outputs: &mut Vec<Output>,
    ) -> Result<(), Memory>
        ensures { OnOk result ((ws : List Watch) (p : Path) → Watching self.now ws → IsTextOf path.now p
            → outputs.new.items ≡ outputs.old.items ++ end_events p ws) }
    {
        let told = self.contents.of(path);
        tell(outputs, alloc, EventKind::Deleted, path, told)?;
        tell_others(outputs, alloc, path, self.children.of(path), told)?;
        Ok(())
    }

    /// Tells the child watches of a parent.
    pub(crate) fn tell_parent(
        &self,
        alloc: Global,
        parent: &str,
        outputs: &mut Vec<Output>,
    ) -> Result<(), Memory>
        ensures { OnOk result ((ws : List Watch) (p : Path) → Watching self.now ws → IsTextOf parent.now p
            → outputs.new.items ≡ outputs.old.items ++ events_to (pos 4) p (told on_children p ws)) }
    {
        let watchers = self.children.of(parent);
        tell(outputs, alloc, EventKind::ChildrenChanged, parent, watchers)?;
        Ok(())
    }

    /// The watches that a deletion tells go. Takes no memory.
    pub(crate) fn deleted(&mut self, path: &str)
        ensures { (ws : List Watch) (p : Path) (n : List ℕ) → Watching self.old ws → IsTextOf path.now (n ∷ p) → Watching self.new (left_by_deletion (n ∷ p) ws) }
    {
        let (parent, _) = parts(path);
        self.contents.fire(path);
        self.children.fire(path);
        self.children.fire(parent);
    }

    /// Tells of a change of content, and makes room for a reply.
    pub(crate) fn tell_changed(
        &self,
        alloc: Global,
        path: &str,
        outputs: &mut Vec<Output>,
    ) -> Result<(), Memory>
        ensures events { OnOk result ((ws : List Watch) (p : Path) → Watching self.now ws → IsTextOf path.now p
            → outputs.new.items ≡ outputs.old.items ++ content_events p ws) }
        ensures room { OnOk result (HasRoom outputs.new) }
    {
        let watchers = self.contents.of(path);
        tell(outputs, alloc, EventKind::ContentChanged, path, watchers)?;
        make_room(outputs)?;
        Ok(())
    }

    /// The watches that a change of content tells go. Takes no memory.
    pub(crate) fn changed(&mut self, path: &str)
        ensures { (ws : List Watch) (p : Path) → Watching self.old ws → IsTextOf path.now p → Watching self.new (left on_data p ws) }
    {
        self.contents.fire(path);
    }
}
